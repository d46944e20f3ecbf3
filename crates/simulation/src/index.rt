// Where a list's records stand, their widths and offsets, and what is assigned to a signal. A table holds the first; for the others the list
// is walked.
ghost use Rattle.std.specs.Prelude.{◌≡◌, Some, None, min, length};
ghost use Rattle.simulation.specs.Index.{size_at, fields_at, records_in, counted, widths_in, offset as sum_to, start_of, clipped, start_table, tabled, start_by, offset_table, offset_by, stmts_in, driver_table, driver_by, assigned, noted};
ghost use Rattle.simulation.specs.Tick.{given, assigns as by_assign};

use crate::records::Records;
use recorder::Cut;
use recorder::read::{cut, word};

pub fn wide(x: u32) -> usize
    ensures { result ≡ x }
{
    x as usize
}

// The fields of the record at an index, none if no whole one stands there.
pub fn fields(list: &[u32], at: usize) -> &[u32]
    ensures { result.now ≡ fields_at list.now at (size_at list.now at) }
{
    match cut(list, at) {
        Cut::Record(n) => &list[at + 1..at + 1 + n],
        Cut::End | Cut::Broken => &[],
    }
}

// How many records stand whole from the left.
pub fn count(list: &[u32]) -> usize
    ensures { result ≡ length (records_in list.now) }
{
    Records::new(list).count()
}

// The sum of the first widths of a list, as far as it can be named.
pub fn sum_to(list: &[u32], limit: usize) -> usize
    ensures { result ≡ min (sum_to (widths_in list.now) limit) 18446744073709551615 }
{
    let mut sum: usize = 0;
    for fields in Records::new(list).take(limit) {
        sum = sum.saturating_add(wide(word(fields, 1)));
    }
    sum
}

// A number as a table holds it.
pub fn clip(x: usize) -> u32
    ensures { result ≡ clipped x }
{
    u32::try_from(x).unwrap_or(u32::MAX)
}

// What a table says at k: the largest word stands for what it does not say.
pub fn entry(table: &[u32], k: usize) -> Option<u32>
    ensures { result ≡ tabled table.now k Some None }
{
    let w = *table.get(k)?;
    if w < u32::MAX { Some(w) } else { None }
}

// The word at which record k begins; behind the last record, the word behind it.
fn walk_start(list: &[u32], k: usize) -> usize
    ensures { result ≡ start_of list.now k }
{
    let mut at: usize = 0;
    for fields in Records::new(list).take(k) {
        at += fields.len() + 1;
    }
    at
}

// The word at which record k begins, from the table, or else from the list.
pub fn start(list: &[u32], table: &[u32], k: usize) -> usize
    ensures { result ≡ start_by list.now table.now k }
{
    match entry(table, k) {
        Some(w) => wide(w),
        None => walk_start(list, k),
    }
}

// Fills the table with the words at which the first records begin; what it has room for behind them is kept.
pub fn fill_starts(list: &[u32], table: &mut [u32])
    ensures { table.new ≡ start_table list.now table.old }
{
    let mut at: usize = 0;
    for (k, fields) in (0..table.len()).zip(Records::new(list)) {
        table[k] = clip(at);
        at += fields.len() + 1;
    }
}

// The sum of the first k widths, from the table, or else from the list.
// (`start` with another walk; one function for both would take the walk as a closure, and be longer than this one.)
pub fn offset(list: &[u32], table: &[u32], k: usize) -> usize
    ensures { result ≡ offset_by list.now table.now k }
{
    match entry(table, k) {
        Some(w) => wide(w),
        None => sum_to(list, k),
    }
}

// Fills the table with the first offsets; what it has room for behind them is kept.
pub fn fill_offsets(list: &[u32], table: &mut [u32])
    ensures { table.new ≡ offset_table list.now table.old }
{
    if table.is_empty() {
        return;
    }
    table[0] = 0;
    let mut sum: usize = 0;
    for (k, fields) in (1..table.len()).zip(Records::new(list)) {
        sum = sum.saturating_add(wide(word(fields, 1)));
        table[k] = clip(sum);
    }
}

// The signal and the expression of a statement that is an assignment.
fn assigned(fields: &[u32]) -> Option<(u32, u32)>
    ensures { result ≡ assigned fields.now }
{
    match fields {
        [0, t, e] => Some((*t, *e)),
        _ => None,
    }
}

fn walk_driver(stmts: &[u32], s: usize) -> Option<u32>
    ensures { result ≡ given by_assign (stmts_in stmts.now) s }
{
    for fields in Records::new(stmts) {
        if let Some((t, e)) = assigned(fields) {
            if wide(t) == s {
                return Some(e);
            }
        }
    }
    None
}

// The expression that is assigned to signal s, from the table, or else from the list.
pub fn driver(stmts: &[u32], table: &[u32], s: usize) -> Option<u32>
    ensures { result ≡ driver_by stmts.now table.now s }
{
    match entry(table, s) {
        Some(w) => w.checked_sub(1),
        None => walk_driver(stmts, s),
    }
}

// Notes a statement, if it is the first assignment on its signal.
fn note(fields: &[u32], table: &mut [u32])
    ensures { table.new ≡ noted fields.now table.old }
{
    if let Some((t, e)) = assigned(fields) {
        let t = wide(t);
        if t < table.len() && table[t] == 0 {
            table[t] = e.saturating_add(1);
        }
    }
}

// Fills the table with what is assigned to the first signals.
pub fn fill_drivers(stmts: &[u32], table: &mut [u32])
    ensures { table.new ≡ driver_table stmts.now table.old }
{
    table.fill(0);
    for fields in Records::new(stmts) {
        note(fields, table);
    }
}
