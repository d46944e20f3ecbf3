// An order of all expressions: each behind what it needs.
ghost use Rattle.std.specs.Prelude.{◌≡◌, Bool, true, false, ◌+◌, ◌*◌, ◌≤◌, ◌<◌, length, get_or, set};
ghost use Rattle.bits.specs.Bits.{pick};
ghost use Rattle.simulation.specs.Index.{records_in};
ghost use Rattle.ordering.specs.Marks.{adds, Sorting};
ghost use Rattle.ordering.specs.Words.{model_in, Tabled};
ghost use Rattle.ordering.specs.Sorts.{Step, Sorts, SortsAll};

use crate::kinds::{CONST, READ};
use crate::marks::{MARK, is_marked, ready};
use crate::tables::CheckedModel;
use recorder::read::word;
use simulation::index;
use simulation::index::{clip, fields, wide};

// Expression e can be marked, and is not yet.
pub fn adds_one(m: &CheckedModel, marks: &[u8], e: usize) -> bool
    requires { e < length (records_in m.now.exprs.now) }
    ensures { result ≡ adds (model_in m.now.exprs.now m.now.stmts.now) marks.now e }
{
    if is_marked(marks, e) {
        return false;
    }
    ready(m, marks, e)
}

// Notes expression e as number k.
fn note(order: &mut [u32], k: usize, e: usize)
    requires { e < 4294967296 }
    ensures { order.new ≡ set order.old k e }
{
    if k < order.len() {
        order[k] = e as u32;
    }
}

// Marks and notes expression e as number k, if it can be marked; how many are marked then.
fn sort_one(m: &CheckedModel, marks: &mut [u8], order: &mut [u32], k: usize, e: usize) -> usize
    requires { (e < length (records_in m.now.exprs.now)) × (e < length marks.old) × (e < 4294967296) × (k < 4294967296) }
    ensures { Step (model_in m.now.exprs.now m.now.stmts.now) marks.old order.old k e result marks.new order.new }
{
    if !adds_one(m, marks, e) {
        return k;
    }
    marks[e] = MARK;
    note(order, k, e);
    k + 1
}

// One pass over all expressions: marks those that are ready, k are marked so far.
fn sort_pass(m: &CheckedModel, marks: &mut [u8], order: &mut [u32], k: usize) -> usize
    requires { (m.now.expr_count ≤ length marks.old) × (m.now.expr_count < 4294967296) × Sorting (model_in m.now.exprs.now m.now.stmts.now) m.now.expr_count marks.old order.old k }
    ensures { Sorts (model_in m.now.exprs.now m.now.stmts.now) m.now.expr_count k result marks.new order.new }
{
    let mut count = k;
    for e in 0..m.expr_count {
        count = sort_one(m, marks, order, count, e);
    }
    count
}

// A GUESS of the order, depth first. It is tried, and nothing rests on it: where it is right, one pass along it marks all.

// The expression that field j of a record names as needed.
fn need(m: &CheckedModel, fields: &[u32], j: usize) -> Option<usize> {
    let kind = word(fields, 0);
    if kind == CONST {
        return None;
    }
    let x = wide(word(fields, j));
    if kind != READ {
        return Some(x);
    }
    if j != 2 {
        return None;
    }
    match m.driver(x) {
        None => None,
        Some(e) => Some(wide(e)),
    }
}

fn is_new(marks: &[u8], n: usize, e: usize) -> bool {
    if e >= n {
        return false;
    }
    !is_marked(marks, e)
}

// An expression that is needed, and how many needs there are up to it.
#[derive(Clone, Copy)]
struct Unmet {
    expr: usize,
    passed: u32,
}

// The first new one that expression e needs, behind the needs that are passed.
fn new_need(m: &CheckedModel, marks: &[u8], e: usize, passed: u32) -> Option<Unmet> {
    let fields = fields(m.exprs, index::start(m.exprs, m.starts, e));
    for j in wide(passed) + 2..fields.len() {
        if let Some(x) = need(m, fields, j) {
            if is_new(marks, m.expr_count, x) {
                return Some(Unmet {
                    expr: x,
                    passed: clip(j - 1),
                });
            }
        }
    }
    None
}

// Puts expression e on the stack, order[2 n ..], no need of it passed, order[3 n ..], if it is new: how deep the stack is then.
fn enter(marks: &mut [u8], order: &mut [u32], n: usize, depth: usize, e: usize) -> usize
    requires { (4 * n ≤ length order.old) × (depth ≤ n) }
    ensures { result ≤ n }
{
    if depth >= n {
        return depth;
    }
    if e >= marks.len() {
        return depth;
    }
    if marks[e] != 0 {
        return depth;
    }
    marks[e] = MARK;
    order[2 * n + depth] = clip(e);
    order[3 * n + depth] = 0;
    depth + 1
}

// Where the walk is: the next expression to begin at, how deep the stack is, how many are noted.
#[derive(Clone, Copy)]
struct Walk {
    root: usize,
    depth: usize,
    count: usize,
}

// Begins at an expression, goes on to a need, or notes the last on the stack, whose needs are all noted, in order[n ..].
fn turn(m: &CheckedModel, marks: &mut [u8], order: &mut [u32], walk: Walk) -> Walk
    requires { (4 * m.now.expr_count ≤ length order.old) × (walk.root ≤ m.now.expr_count) × (walk.depth ≤ m.now.expr_count) × (walk.count ≤ m.now.expr_count) }
    ensures { (result.root ≤ m.now.expr_count) × (result.depth ≤ m.now.expr_count) × (result.count ≤ m.now.expr_count) }
{
    let n = m.expr_count;
    if walk.depth == 0 {
        if walk.root >= n {
            return walk;
        }
        return Walk {
            root: walk.root + 1,
            depth: enter(marks, order, n, 0, walk.root),
            count: walk.count,
        };
    }
    let top = walk.depth - 1;
    let e = order[2 * n + top];
    if let Some(found) = new_need(m, marks, wide(e), order[3 * n + top]) {
        order[3 * n + top] = found.passed;
        return Walk {
            root: walk.root,
            depth: enter(marks, order, n, walk.depth, found.expr),
            count: walk.count,
        };
    }
    if walk.count >= n {
        return Walk {
            root: walk.root,
            depth: top,
            count: walk.count,
        };
    }
    order[n + walk.count] = e;
    Walk {
        root: walk.root,
        depth: top,
        count: walk.count + 1,
    }
}

// The guess, in order[n .. 2 n], if the order has four words for each of the n expressions. Each takes three turns at most: one begins at it,
// one enters it, one notes it.
fn guess_order(m: &CheckedModel, marks: &mut [u8], order: &mut [u32]) {
    if order.len() / 4 < m.expr_count {
        return;
    }
    let mut walk = Walk {
        root: 0,
        depth: 0,
        count: 0,
    };
    for _ in 0..3 * m.expr_count {
        walk = turn(m, marks, order, walk);
    }
}

// Number j of the guess, if it is an expression: how many are marked then.
fn sort_guessed(m: &CheckedModel, marks: &mut [u8], order: &mut [u32], k: usize, j: usize) -> usize
    requires { (m.now.expr_count ≤ length marks.old) × (m.now.expr_count < 4294967296) × (m.now.expr_count + j < length order.old) × Sorting (model_in m.now.exprs.now m.now.stmts.now) m.now.expr_count marks.old order.old k }
    ensures { Sorting (model_in m.now.exprs.now m.now.stmts.now) m.now.expr_count marks.new order.new result }
{
    let e = wide(order[m.expr_count + j]);
    if e >= m.expr_count {
        return k;
    }
    sort_one(m, marks, order, k, e)
}

// One pass along the guess: how many expressions are marked.
fn sort_along(m: &CheckedModel, marks: &mut [u8], order: &mut [u32]) -> usize
    requires { (m.now.expr_count ≤ length marks.old) × (m.now.expr_count < 4294967296) × Sorting (model_in m.now.exprs.now m.now.stmts.now) m.now.expr_count marks.old order.old 0 }
    ensures { Sorting (model_in m.now.exprs.now m.now.stmts.now) m.now.expr_count marks.new order.new result }
{
    if order.len() / 4 < m.expr_count {
        return 0;
    }
    let mut k: usize = 0;
    for j in 0..m.expr_count {
        k = sort_guessed(m, marks, order, k, j);
    }
    k
}

// A pass along a guess, then passes until one adds nothing: how many expressions were marked. How many passes are needed is not known
// before, so no `for`.
pub fn sort(m: &CheckedModel, marks: &mut [u8], order: &mut [u32]) -> usize
    requires { (m.now.expr_count ≤ length marks.old) × (m.now.expr_count < 4294967296) × Sorting (model_in m.now.exprs.now m.now.stmts.now) m.now.expr_count marks.old order.old 0 }
    ensures { SortsAll (model_in m.now.exprs.now m.now.stmts.now) m.now.expr_count result marks.new order.new }
{
    guess_order(m, marks, order);
    marks.fill(0);
    let mut k = sort_along(m, marks, order);
    loop {
        let next = sort_pass(m, marks, order, k);
        if next == k {
            return k;
        }
        k = next;
    }
}
