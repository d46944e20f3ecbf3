// Reading a list back, record by record.
ghost use Rattle.std.specs.Prelude.{◌≡◌, get_or};
ghost use Rattle.recorder.specs.Standing.{cut_at};

use crate::Cut;

fn wide(x: u32) -> usize
    ensures { result ≡ x }
{
    x as usize
}

// The word at an index, 0 past the end.
pub fn word(list: &[u32], i: usize) -> u32
    ensures { result ≡ get_or list.now i 0 }
{
    if i < list.len() { list[i] } else { 0 }
}

// What stands at an index.
pub fn cut(list: &[u32], at: usize) -> Cut
    ensures { result ≡ cut_at list.now at }
{
    if list.len() <= at {
        return Cut::End;
    }
    let n = wide(list[at]);
    if n == 0 {
        return Cut::Broken;
    }
    if list.len() - at < n {
        return Cut::Broken;
    }
    Cut::Record(n - 1)
}
