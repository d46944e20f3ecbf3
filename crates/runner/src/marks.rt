// Marks: an expression is marked once all that it needs is. What can't be marked is on a loop or behind one.
ghost use Rattle.std.specs.Prelude.{◌≡◌, Bool, true, false, ◌||◌, ◌+◌, ◌≤◌, ◌<◌, length, get_or, take, drop};
ghost use Rattle.settle.specs.Tests.{all, any};
ghost use Rattle.simulation.specs.Index.{records_in, Driven};
ghost use Rattle.ordering.specs.Marks.{marked, ready as ready_in, touched as touched_in};
ghost use Rattle.ordering.specs.Words.{model_in, driver_marked, Tabled};

use crate::kinds::{CONST, READ};
use crate::tables::CheckedModel;
use simulation::index::wide;

// A mark, in a byte of a lent buffer; 0 is none.
pub const MARK: u8 = 1;

pub fn is_marked(marks: &[u8], e: usize) -> bool
    ensures { result ≡ marked marks.now e }
{
    if e < marks.len() {
        return MARK <= marks[e];
    }
    false
}

// All of the n expressions that stand from an index on.
fn all_marked(exprs: &[u32], at: usize, n: usize, marks: &[u8]) -> bool
    requires { at + n ≤ length exprs.now }
    ensures { result ≡ all (marked marks.now) (take n (drop at exprs.now)) }
{
    for i in 0..n {
        if !is_marked(marks, wide(exprs[at + i])) {
            return false;
        }
    }
    true
}

// One of them.
fn any_marked(exprs: &[u32], at: usize, n: usize, marks: &[u8]) -> bool
    requires { at + n ≤ length exprs.now }
    ensures { result ≡ any (marked marks.now) (take n (drop at exprs.now)) }
{
    for i in 0..n {
        if is_marked(marks, wide(exprs[at + i])) {
            return true;
        }
    }
    false
}

// The expression that is assigned to a signal is marked; `none` where there is none.
pub fn driver_marked(m: &CheckedModel, marks: &[u8], s: usize, none: bool) -> bool
    ensures { result ≡ driver_marked m.now.stmts.now marks.now s none }
{
    match m.driver(s) {
        None => none,
        Some(e) => is_marked(marks, wide(e)),
    }
}

// All that expression e needs is marked.
pub fn ready(m: &CheckedModel, marks: &[u8], e: usize) -> bool
    requires { e < length (records_in m.now.exprs.now) }
    ensures { result ≡ ready_in (model_in m.now.exprs.now m.now.stmts.now) marks.now e }
{
    let at = m.start(e);
    let kind = m.exprs[at + 1];
    if kind == CONST {
        return true;
    }
    if kind == READ {
        return driver_marked(m, marks, wide(m.exprs[at + 3]), true);
    }
    all_marked(m.exprs, at + 3, wide(m.exprs[at]) - 3, marks)
}

// Expression e reads signal s, or needs one that is marked.
pub fn touched(m: &CheckedModel, marks: &[u8], s: usize, e: usize) -> bool
    requires { e < length (records_in m.now.exprs.now) }
    ensures { result ≡ touched_in (model_in m.now.exprs.now m.now.stmts.now) marks.now s e }
{
    let at = m.start(e);
    let kind = m.exprs[at + 1];
    if kind == CONST {
        return false;
    }
    if kind == READ {
        let y = wide(m.exprs[at + 3]);
        if y == s {
            return true;
        }
        return driver_marked(m, marks, y, false);
    }
    any_marked(m.exprs, at + 3, wide(m.exprs[at]) - 3, marks)
}
