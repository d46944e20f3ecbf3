// The records of a list, one after the other, and how many there are.
ghost use Rattle.std.specs.Prelude.{◌≡◌};
ghost use Rattle.simulation.specs.Index.{counted};

pub use recorder::records::Records;
use recorder::records::split_first;

// How many records a list has; an error where words are left that are no record, with how many stand before them.
pub fn count_whole(list: &[u32]) -> Result<usize, usize>
    ensures { result ≡ counted list.now }
{
    let mut n: usize = 0;
    let mut left = list;
    while let Some((_, rest)) = split_first(left) {
        left = rest;
        n += 1;
    }
    if left.is_empty() { Ok(n) } else { Err(n) }
}
