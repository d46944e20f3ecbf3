// The widths of a list's records. A table holds the first; for the others the list is walked.
ghost use Rattle.std.specs.Prelude.{◌≡◌, ◌<◌, length, get_or};
ghost use Rattle.simulation.specs.Index.{records_in, widths_in, width_table, Listed};

use recorder::read::word;
use simulation::records::Records;

// The widths of a list of `count` records; the table has the first of them.
#[derive(Clone, Copy)]
pub struct Widths<'a> {
    pub list: &'a [u32],
    pub table: &'a [u32],
    pub count: usize,
    ghost listed: { Listed (widths_in list.now) table.now },
    ghost counted: { count ≡ length (records_in list.now) },
}

impl Widths<'_> {
    ghost use Rattle.std.specs.Prelude.{Some, None, ltb};
    ghost use Rattle.bits.specs.Bits.{pick};

    // The width of record i, if there is one.
    pub fn get(self, i: usize) -> Option<u32>
        ensures { result ≡ pick (ltb i (length (widths_in self.entry.list.now))) (Some (get_or (widths_in self.entry.list.now) i 0)) None }
    {
        if i >= self.count {
            return None;
        }
        if i < self.table.len() {
            return Some(self.table[i]);
        }
        Some(walk_to(self.list, i))
    }
}

// The width of record i, 0 if there is none.
fn walk_to(list: &[u32], i: usize) -> u32
    ensures { result ≡ get_or (widths_in list.now) i 0 }
{
    match Records::new(list).nth(i) {
        Some(fields) => word(fields, 1),
        None => 0,
    }
}

// Fills the table with the first widths.
pub fn fill(list: &[u32], table: &mut [u32])
    ensures { table.new ≡ width_table list.now table.old }
{
    for (k, fields) in (0..table.len()).zip(Records::new(list)) {
        table[k] = word(fields, 1);
    }
}
