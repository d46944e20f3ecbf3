ghost use Rattle.std.specs.Prelude.{◌≡◌, ◌++◌, ◌+◌, ◌≤◌, min, length};
ghost use Rattle.recorder.specs.Record.{sized};
ghost use Rattle.recorder.specs.Lists.{over, Puts};

use crate::Tape;

// The words that a list may take.
const MOST: usize = 2147483648;

fn copy_in(list: &mut [u32], at: usize, words: &[u32])
    requires { at + length words.now ≤ length list.old }
    ensures { list.new ≡ over list.old at words.now }
{
    // Not by `copy_from_slice`: an archive for C would need memmove from outside, and a record has few words.
    for i in 0..words.len() {
        list[at + i] = words[i];
    }
}

// Writes a record behind those that stand in a list: its length, its fields, and more of them. The tape behind it, or None if the list is full.
pub fn put_record(list: &mut [u32], tape: Tape, fields: &[u32], more: &[u32]) -> Option<Tape>
    ensures { Puts list.old tape (sized (fields.now ++ more.now)) result list.new }
{
    let Tape { used, count } = tape;
    let cap = list.len().min(MOST);
    if used < count as usize {
        return None;
    }
    if cap < used {
        return None;
    }
    let left = cap - used;
    if left <= fields.len() {
        return None;
    }
    if left - 1 - fields.len() < more.len() {
        return None;
    }
    let need = 1 + fields.len() + more.len();
    list[used] = need as u32;
    copy_in(list, used + 1, fields);
    copy_in(list, used + 1 + fields.len(), more);
    Some(Tape {
        used: used + need,
        count: count + 1,
    })
}
