// The records of a list, one after the other.
ghost use Rattle.std.specs.Prelude.{◌≡◌};
ghost use Rattle.recorder.specs.Records.{Splits};

// An iterator over the records that stand whole from the left, each as the slice of its fields.
#[derive(Clone, Copy)]
pub struct Records<'a> {
    pub rest: &'a [u32],
}

impl<'a> Records<'a> {
    pub fn new(list: &'a [u32]) -> Records<'a>
        ensures { result.rest.now ≡ list.now }
    {
        Records { rest: list }
    }
}

// The fields of the record with which a list begins and what stands behind it, if a whole one does.
pub fn split_first(list: &[u32]) -> Option<(&[u32], &[u32])>
    ensures { Splits list.now result }
{
    let (n, rest) = list.split_first()?;
    rest.split_at_checked((*n as usize).checked_sub(1)?)
}

impl<'a> Iterator for Records<'a> {
    ghost use Rattle.std.specs.Iterator.{item_count, YieldsFirstRef};
    ghost use Rattle.recorder.specs.Records.{left};

    type Item = &'a [u32];

    ghost next_gives = { YieldsFirstRef left };

    ghost remaining = { item_count left };

    fn next(&mut self) -> Option<&'a [u32]> {
        let (fields, rest) = split_first(self.rest)?;
        self.rest = rest;
        Some(fields)
    }
}
