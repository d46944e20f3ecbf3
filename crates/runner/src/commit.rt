// A tick's commit: every register that loads takes its reset's value or its next value, all together. What each loads is noted before any
// value is stored, as a register's control may be a register.
ghost use Rattle.std.specs.Prelude.{◌≡◌, Bool, List, [], ℕ, ◌+◌, ◌≤◌, ◌<◌, length, get_or};
ghost use Rattle.bits.specs.Bits.{Bits};
ghost use Rattle.settle.specs.Table.{at as signals_at};
ghost use Rattle.simulation.specs.Index.{records_in, widths_in, offset as sum_to, start_of, Indexed};
ghost use Rattle.simulation.specs.Run.{fired_of, firing};
ghost use Rattle.simulation.specs.Tick.{asserted as asserted_in};
ghost use Rattle.evaluation.specs.Bytes.{Holds};
ghost use Rattle.evaluation.specs.Ready.{Prepared, Room};
ghost use Rattle.evaluation.specs.Ticks.{Commits};
ghost use Rattle.evaluation.specs.Late.{Registers, LoadsMarked, LoadsListed};
ghost use Rattle.evaluation.specs.Loads.{stmt_in, Stated, Begins, Control, control_at, enable_at, by_marks, Markable, MarkOf, NotesOne, Noted, StoresMarked, StoresLoad};

use crate::kinds::REG;
use crate::store::store;
use crate::tables::CheckedModel;
use simulation::Edge;
use simulation::index::wide;
use simulation::records::Records;

// An edge (0 rises, 1 falls) of signal c fires.
fn fires(fired: Option<Edge>, c: u32, edge: u32) -> bool
    ensures { result ≡ firing (fired_of fired) c edge }
{
    match fired {
        None => false,
        Some(e) => {
            if e.signal.0 != c {
                return false;
            }
            e.edge == edge
        }
    }
}

// Signal s, of one bit, has the level that a control asks for.
fn asserted(m: &CheckedModel, bytes: &[u8], s: usize, active: u32) -> bool
    requires { (sum_to (widths_in m.now.signals.now) (length (records_in m.now.signals.now)) ≤ length bytes.now) × (s < length (records_in m.now.signals.now)) × (get_or (widths_in m.now.signals.now) s 0 ≡ 1) }
    ensures { (t : List Bits) (behind : List ℕ) → Holds (widths_in m.now.signals.now) t behind bytes.now → result ≡ asserted_in (signals_at [] t) s active }
{
    let level = bytes[m.signal_offset(s)];
    (level as u32) == active
}

// The control at a word is asserted; `absent` where none is given.
fn control(m: &CheckedModel, at: usize, absent: bool, bytes: &[u8]) -> bool
    requires { (sum_to (widths_in m.now.signals.now) (length (records_in m.now.signals.now)) ≤ length bytes.now) × Control m.now.signals.now m.now.stmts.now at }
    ensures { (t : List Bits) (behind : List ℕ) → Holds (widths_in m.now.signals.now) t behind bytes.now → result ≡ control_at (signals_at [] t) m.now.stmts.now at absent }
{
    if m.stmts[at] == 0 {
        return absent;
    }
    asserted(m, bytes, wide(m.stmts[at + 1]), m.stmts[at + 2])
}

// The word of the enable of the register at a word.
pub fn enable_at(stmts: &[u32], at: usize) -> usize
    requires { at + 7 < length stmts.now }
    ensures { result ≡ enable_at stmts.now at }
{
    if stmts[at + 6] == 0 {
        return at + 7;
    }
    at + 10
}

// What a register loads, in a byte of a lent buffer: nothing, its next value, its reset's value.
const NOTHING: u8 = 0;

const NEXT: u8 = 1;

const RESET: u8 = 2;

// What the register at a word loads.
fn load_of(m: &CheckedModel, at: usize, fired: Option<Edge>, bytes: &[u8]) -> u8
    requires { (sum_to (widths_in m.now.signals.now) (length (records_in m.now.signals.now)) ≤ length bytes.now) × Begins m.now.stmts.now at × (get_or m.now.stmts.now (at + 1) 0 ≡ 1) }
    ensures { (k : ℕ) → k < length (records_in m.now.stmts.now) → at ≡ start_of m.now.stmts.now k → MarkOf m.now.signals.now m.now.stmts.now (firing (fired_of fired)) bytes.now k result }
{
    if control(m, at + 6, false, bytes) {
        return RESET;
    }
    if !fires(fired, m.stmts[at + 4], m.stmts[at + 5]) {
        return NOTHING;
    }
    if control(m, enable_at(m.stmts, at), true, bytes) {
        return NEXT;
    }
    NOTHING
}

// Notes for its signal what the statement at a word loads.
fn note_load(m: &CheckedModel, at: usize, fired: Option<Edge>, bytes: &[u8], marks: &mut [u8])
    requires { (sum_to (widths_in m.now.signals.now) (length (records_in m.now.signals.now)) ≤ length bytes.now) × Begins m.now.stmts.now at × (length (records_in m.now.signals.now) ≤ length marks.old) }
    ensures { (k : ℕ) → k < length (records_in m.now.stmts.now) → at ≡ start_of m.now.stmts.now k → NotesOne m.now.signals.now m.now.stmts.now (firing (fired_of fired)) bytes.now k marks.old marks.new }
{
    if m.stmts[at + 1] != REG {
        return;
    }
    let t = wide(m.stmts[at + 2]);
    marks[t] = load_of(m, at, fired, bytes);
}

// Notes what every statement loads.
fn note_loads(m: &CheckedModel, fired: Option<Edge>, bytes: &[u8], marks: &mut [u8])
    requires { (sum_to (widths_in m.now.signals.now) (length (records_in m.now.signals.now)) ≤ length bytes.now) × (length (records_in m.now.signals.now) ≤ length marks.old) }
    ensures { Noted m.now.signals.now m.now.stmts.now (firing (fired_of fired)) bytes.now (length (records_in m.now.stmts.now)) marks.new }
{
    let mut at: usize = 0;
    for fields in Records::new(m.stmts) {
        note_load(m, at, fired, bytes, marks);
        at += fields.len() + 1;
    }
}

// The expression that the statement at a word loads, by the marks.
fn loaded(stmts: &[u32], at: usize, marks: &[u8]) -> Option<u32>
    requires { Begins stmts.now at × Markable stmts.now marks.now }
    ensures { (k : ℕ) → k < length (records_in stmts.now) → at ≡ start_of stmts.now k → result ≡ by_marks marks.now (stmt_in stmts.now k) }
{
    if stmts[at + 1] != REG {
        return None;
    }
    let mark = marks[wide(stmts[at + 2])];
    if mark == NEXT {
        return Some(stmts[at + 3]);
    }
    if mark != RESET {
        return None;
    }
    if stmts[at + 6] == 0 {
        return None;
    }
    Some(stmts[at + 9])
}

// The statement at a word stores what it loads.
fn store_load(m: &CheckedModel, values: &[u8], marks: &[u8], at: usize, bytes: &mut [u8])
    requires { Room m.now.signals.now m.now.exprs.now bytes.old values.now × (length (records_in m.now.signals.now) ≤ length marks.now) × Begins m.now.stmts.now at }
    ensures { (k : ℕ) → k < length (records_in m.now.stmts.now) → at ≡ start_of m.now.stmts.now k → StoresLoad m.now.signals.now m.now.exprs.now m.now.stmts.now values.now marks.now k bytes.old bytes.new }
{
    match loaded(m.stmts, at, marks) {
        Some(d) => store(m, values, wide(m.stmts[at + 2]), wide(d), bytes),
        None => {}
    }
}

// Every statement stores what it loads.
fn store_loads(m: &CheckedModel, values: &[u8], marks: &[u8], bytes: &mut [u8])
    requires { Room m.now.signals.now m.now.exprs.now bytes.old values.now × (length (records_in m.now.signals.now) ≤ length marks.now) }
    ensures { StoresMarked m.now.signals.now m.now.exprs.now m.now.stmts.now values.now marks.now bytes.old bytes.new }
{
    let mut at: usize = 0;
    for fields in Records::new(m.stmts) {
        store_load(m, values, marks, at, bytes);
        at += fields.len() + 1;
    }
}

// BY A LIST of the words at which registers begin: the others load nothing. One function for these and those above would have to take an
// iterator of words, and two of them would be written only for that.

fn note_listed(
    m: &CheckedModel,
    fired: Option<Edge>,
    order: &[u32],
    from: usize,
    k: usize,
    bytes: &[u8],
    marks: &mut [u8],
)
    requires { (sum_to (widths_in m.now.signals.now) (length (records_in m.now.signals.now)) ≤ length bytes.now) × (length (records_in m.now.signals.now) ≤ length marks.old) × (from + k ≤ length order.now) × Registers m.now.stmts.now order.now from k }
    ensures { Noted m.now.signals.now m.now.stmts.now (firing (fired_of fired)) bytes.now (length (records_in m.now.stmts.now)) marks.new }
{
    for j in 0..k {
        let at = wide(order[from + j]);
        note_load(m, at, fired, bytes, marks);
    }
}

fn load_listed(
    m: &CheckedModel,
    order: &[u32],
    from: usize,
    k: usize,
    values: &[u8],
    marks: &[u8],
    bytes: &mut [u8],
)
    requires { Room m.now.signals.now m.now.exprs.now bytes.old values.now × (length (records_in m.now.signals.now) ≤ length marks.now) × (from + k ≤ length order.now) × Registers m.now.stmts.now order.now from k }
    ensures { LoadsMarked m.now.signals.now m.now.exprs.now m.now.stmts.now values.now marks.now bytes.old bytes.new }
{
    for j in 0..k {
        let at = wide(order[from + j]);
        store_load(m, values, marks, at, bytes);
    }
}

// The registers that begin at k words of a list load. The marks are work.
pub fn commit_listed(
    m: &CheckedModel,
    fired: Option<Edge>,
    order: &[u32],
    from: usize,
    k: usize,
    values: &[u8],
    marks: &mut [u8],
    bytes: &mut [u8],
)
    requires { Room m.now.signals.now m.now.exprs.now bytes.old values.now × (length (records_in m.now.signals.now) ≤ length marks.old) × (from + k ≤ length order.now) × Registers m.now.stmts.now order.now from k }
    ensures { LoadsListed m.now.signals.now m.now.exprs.now m.now.stmts.now (firing (fired_of fired)) values.now bytes.old bytes.new }
{
    note_listed(m, fired, order, from, k, bytes, marks);
    load_listed(m, order, from, k, values, marks, bytes);
}

// The registers load, with the values of all expressions. The marks are work.
pub fn commit(
    m: &CheckedModel,
    fired: Option<Edge>,
    values: &[u8],
    marks: &mut [u8],
    bytes: &mut [u8],
)
    requires { Room m.now.signals.now m.now.exprs.now bytes.old values.now × (length (records_in m.now.signals.now) ≤ length marks.old) }
    ensures { Commits m.now.signals.now m.now.exprs.now m.now.stmts.now (firing (fired_of fired)) values.now bytes.old bytes.new }
{
    note_loads(m, fired, bytes, marks);
    store_loads(m, values, marks, bytes);
}
