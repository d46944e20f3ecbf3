// What a plan lists: where registers begin, the signals that they ask for, the outputs. None where the room is too short.
ghost use Rattle.std.specs.Prelude.{IfSome, ◌≡◌, true, ℕ, ◌+◌, ◌≤◌, ◌<◌, length, get_or, take, set};
ghost use Rattle.simulation.specs.Index.{records_in, start_of};
ghost use Rattle.ordering.specs.Marks.{marked};
ghost use Rattle.evaluation.specs.Ticks.{ReadSignals};
ghost use Rattle.evaluation.specs.Loads.{stmt_in, Stated, Begins};
ghost use Rattle.evaluation.specs.Late.{Among, Asks, Registers};
ghost use Rattle.runner.specs.Plan.{Listing, Controls, Outputs};

use crate::commit::enable_at;
use crate::kinds::{OUTPUT, REG};
use crate::marks::MARK;
use crate::tables::CheckedModel;
use simulation::index::wide;
use simulation::records::Records;

// A number is listed as number k of a list, if there is room; how many are listed then.
fn push(order: &mut [u32], from: usize, room: usize, k: usize, x: usize) -> Option<usize>
    requires { from + room ≤ length order.old }
    ensures kept { take from order.new ≡ take from order.old }
    ensures few { IfSome result (λ r. r ≤ room) }
    ensures listed { IfSome result (λ r. (r ≡ k + 1) × (order.new ≡ set order.old (from + k) x)) }
{
    if k >= room {
        return None;
    }
    order[from + k] = u32::try_from(x).ok()?;
    Some(k + 1)
}

// The words at which registers begin.
pub fn list_registers(
    m: &CheckedModel,
    order: &mut [u32],
    from: usize,
    room: usize,
) -> Option<usize>
    requires { from + room ≤ length order.old }
    ensures kept { take from order.new ≡ take from order.old }
    ensures few { IfSome result (λ r. r ≤ room) }
    ensures listed { IfSome result (λ r. Registers m.now.stmts.now order.new from r) }
{
    let mut k: usize = 0;
    let mut at: usize = 0;
    for fields in Records::new(m.stmts) {
        if fields[0] == REG {
            k = push(order, from, room, k, at)?;
        }
        at += fields.len() + 1;
    }
    Some(k)
}

// Signal x is listed as number k, unless it is marked; how many are listed then.
fn list_once(
    order: &mut [u32],
    from: usize,
    room: usize,
    k: usize,
    x: u32,
    marks: &mut [u8],
) -> Option<usize>
    requires { (from + room ≤ length order.old) × (k ≤ room) × (x < length marks.old) × Listing order.old from k marks.old }
    ensures kept { take from order.new ≡ take from order.old }
    ensures few { IfSome result (λ r. r ≤ room) }
    ensures listed { IfSome result (λ r. Listing order.new from r marks.new × Among order.new from r x × ((y : ℕ) → Among order.old from k y → Among order.new from r y)) }
{
    let i = wide(x);
    if marks[i] != 0 {
        return Some(k);
    }
    marks[i] = MARK;
    push(order, from, room, k, i)
}

// The signal of the control at a word, if one is given.
fn list_control(
    stmts: &[u32],
    word: usize,
    order: &mut [u32],
    from: usize,
    room: usize,
    k: usize,
    marks: &mut [u8],
) -> Option<usize>
    requires { (from + room ≤ length order.old) × (k ≤ room) × Listing order.old from k marks.old × (word < length stmts.now) × ((get_or stmts.now word 0 ≡ 0 → ⊥) → (word + 2 < length stmts.now) × (get_or stmts.now (word + 1) 0 < length marks.old)) }
    ensures kept { take from order.new ≡ take from order.old }
    ensures few { IfSome result (λ r. r ≤ room) }
    ensures listed { IfSome result (λ r. Listing order.new from r marks.new × ((get_or stmts.now word 0 ≡ 0 → ⊥) → Among order.new from r (get_or stmts.now (word + 1) 0)) × ((y : ℕ) → Among order.old from k y → Among order.new from r y)) }
{
    if stmts[word] == 0 {
        return Some(k);
    }
    list_once(order, from, room, k, stmts[word + 1], marks)
}

// The signals that the statement at a word asks for.
fn list_asked(
    m: &CheckedModel,
    at: usize,
    order: &mut [u32],
    from: usize,
    room: usize,
    k: usize,
    marks: &mut [u8],
) -> Option<usize>
    requires { Begins m.now.stmts.now at × (from + room ≤ length order.old) × (k ≤ room) × (length (records_in m.now.signals.now) ≤ length marks.old) × Listing order.old from k marks.old }
    ensures kept { take from order.new ≡ take from order.old }
    ensures few { IfSome result (λ r. r ≤ room) }
    ensures listed { IfSome result (λ r. Listing order.new from r marks.new × ((number x : ℕ) → number < length (records_in m.now.stmts.now) → at ≡ start_of m.now.stmts.now number → Asks (stmt_in m.now.stmts.now number) x → Among order.new from r x) × ((y : ℕ) → Among order.old from k y → Among order.new from r y)) }
{
    if m.stmts[at + 1] != REG {
        return Some(k);
    }
    let a = list_control(m.stmts, at + 6, order, from, room, k, marks)?;
    let b = list_control(m.stmts, enable_at(m.stmts, at), order, from, room, a, marks)?;
    Some(b)
}

// The signals whose levels the registers ask for that begin at `count` words from `loads` on. Marks are work.
pub fn list_controls(
    m: &CheckedModel,
    order: &mut [u32],
    loads: usize,
    count: usize,
    from: usize,
    room: usize,
    marks: &mut [u8],
) -> Option<usize>
    requires { Registers m.now.stmts.now order.old loads count × (loads + count ≤ from) × (from + room ≤ length order.old) × (length (records_in m.now.signals.now) ≤ length marks.old) }
    ensures kept { take from order.new ≡ take from order.old }
    ensures few { IfSome result (λ r. r ≤ room) }
    ensures listed { IfSome result (λ r. Controls m.now.stmts.now order.new from r) }
{
    marks.fill(0);
    let mut k: usize = 0;
    for j in 0..count {
        let at = wide(order[loads + j]);
        k = list_asked(m, at, order, from, room, k, marks)?;
    }
    Some(k)
}

// The numbers of the outputs.
pub fn list_outputs(m: &CheckedModel, order: &mut [u32], from: usize, room: usize) -> Option<usize>
    requires { from + room ≤ length order.old }
    ensures kept { take from order.new ≡ take from order.old }
    ensures few { IfSome result (λ r. r ≤ room) }
    ensures listed { IfSome result (λ r. Outputs m.now.signals.now order.new from r) }
{
    let mut k: usize = 0;
    for (s, fields) in Records::new(m.signals).enumerate() {
        if fields[0] == OUTPUT {
            k = push(order, from, room, k, s)?;
        }
    }
    Some(k)
}
