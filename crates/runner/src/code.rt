// What is made once for a list of ticks: code, which is the expressions to evaluate, in order, most of them by a look into a table (crate
// fusing); one piece for what registers load and ask for, one for the outputs. What is wanted is only guessed; what is used is checked, and
// where a check fails there is no code.
ghost use Rattle.std.specs.Prelude.{◌≡◌, Bool, true, false, List, ℕ, ◌+◌, ◌*◌, ◌≤◌, ◌<◌, length, get_or, take, drop, set};
ghost use Rattle.std.specs.Prelude.{Some, IfSome};
ghost use Rattle.simulation.specs.Tick.{given, assigns};
ghost use Rattle.simulation.specs.Index.{records_in, widths_in, start_of, stmts_in, Starts, Driven};
ghost use Rattle.ordering.specs.Words.{Tabled};
ghost use Rattle.ordering.specs.Marks.{marked};
ghost use Rattle.evaluation.specs.Ready.{Prepared, model_in};
ghost use Rattle.evaluation.specs.Ticks.{Ordered};
ghost use Rattle.evaluation.specs.Loads.{stmt_in, Stated, Begins, Names};
ghost use Rattle.evaluation.specs.Late.{Among, Loaded, Registers};
ghost use Rattle.fusing.specs.Form.{Formed};
ghost use Rattle.coding.specs.Coded.{bits_in, Computable, Coded};
ghost use Rattle.coding.specs.Emitting.{Unplaced, Placed, Places, MarksLoaded, MarksDrivers, Emitting, Emits, EmitsAll};
ghost use Rattle.runner.specs.Plan.{Planned};

use crate::kinds::{CONST, READ, REG};
use crate::lists::{list_controls, list_outputs, list_registers};
use crate::marks::{MARK, driver_marked, is_marked, ready};
use crate::tables::CheckedModel;
use fusing::fill_forms;
use recorder::read::word;
use simulation::index;
use simulation::index::{fields, wide};

// The bits of all expressions, and of all signals; how many registers, signals that they ask for and outputs are listed; how many words the two
// pieces have.
#[derive(Clone, Copy)]
pub struct Code {
    pub base: usize,
    pub state: usize,
    pub registers: usize,
    pub controls: usize,
    pub outputs: usize,
    pub first: usize,
    pub second: usize,
}

// Code, if there is any, and how much of the order is lent.
#[derive(Clone, Copy)]
pub struct Plan {
    pub code: Option<Code>,
    pub used: usize,
}

// What is known of a position, in a byte of a lent buffer: its value is, or it is wanted.
const KNOWN: u8 = 1;

const WANTED: u8 = 2;

// WHAT IS WANTED

fn want(values: &mut [u8], p: usize)
    requires { Unplaced values.old }
    ensures { Unplaced values.new }
{
    if p < values.len() {
        values[p] = WANTED;
    }
}

fn want_expr(m: &CheckedModel, e: u32, values: &mut [u8])
    requires { Unplaced values.old }
    ensures { Unplaced values.new }
{
    want(values, index::offset(m.exprs, m.expr_table, wide(e)));
}

// Some position of expression e is wanted.
fn wanted(m: &CheckedModel, values: &[u8], e: usize) -> bool {
    let end = index::offset(m.exprs, m.expr_table, e.saturating_add(1));
    let from = index::offset(m.exprs, m.expr_table, e);
    for p in from..end {
        if p >= values.len() {
            return false;
        }
        if values[p] == WANTED {
            return true;
        }
    }
    false
}

// What a statement names.
fn want_stmt(m: &CheckedModel, fields: &[u32], values: &mut [u8])
    requires { Unplaced values.old }
    ensures { Unplaced values.new }
{
    want_expr(m, word(fields, 2), values);
    if word(fields, 0) != REG {
        return;
    }
    if word(fields, 5) == 0 {
        return;
    }
    want_expr(m, word(fields, 8), values);
}

// What the statements name that begin at k words of a list.
fn want_loads(m: &CheckedModel, order: &[u32], from: usize, k: usize, values: &mut [u8])
    requires { (from + k ≤ length order.now) × Unplaced values.old }
    ensures { Unplaced values.new }
{
    for j in 0..k {
        want_stmt(m, fields(m.stmts, wide(order[from + j])), values);
    }
}

// What is assigned to signal s.
fn want_driver(m: &CheckedModel, s: usize, values: &mut [u8])
    requires { Unplaced values.old }
    ensures { Unplaced values.new }
{
    match m.driver(s) {
        Some(d) => want_expr(m, d, values),
        None => {}
    }
}

// What is assigned to k signals of a list.
fn want_drivers(m: &CheckedModel, order: &[u32], from: usize, k: usize, values: &mut [u8])
    requires { (from + k ≤ length order.now) × Unplaced values.old }
    ensures { Unplaced values.new }
{
    for j in 0..k {
        let s = wide(order[from + j]);
        want_driver(m, s, values);
    }
}

// The operands of expression e; of a read what is assigned to its signal.
fn want_operands(m: &CheckedModel, e: usize, values: &mut [u8])
    requires { Unplaced values.old }
    ensures { Unplaced values.new }
{
    match fields(m.exprs, index::start(m.exprs, m.starts, e)) {
        [CONST, ..] => {}
        [READ, _, s, ..] => want_driver(m, wide(*s), values),
        [_, _, operands @ ..] => {
            for o in operands {
                want_expr(m, *o, values);
            }
        }
        _ => {}
    }
}

// The inputs of the form at a word.
fn want_form(order: &[u32], at: usize, values: &mut [u8])
    requires { (at + 5 < length order.now) × Unplaced values.old }
    ensures { Unplaced values.new }
{
    want(values, wide(order[at + 2]));
    want(values, wide(order[at + 3]));
    want(values, wide(order[at + 4]));
    want(values, wide(order[at + 5]));
}

// What expression e is computed from, if it is wanted.
fn want_inputs(m: &CheckedModel, order: &[u32], e: usize, values: &mut [u8])
    requires { (7 * m.now.expr_count ≤ length order.now) × Unplaced values.old }
    ensures { Unplaced values.new }
{
    if e >= m.expr_count {
        return;
    }
    if !wanted(m, values, e) {
        return;
    }
    let at = m.expr_count + 6 * e;
    if order[at] < 65536 {
        want_form(order, at, values);
        return;
    }
    want_operands(m, e, values);
}

// Against the order: what wants others is met before them.
fn want_needed(m: &CheckedModel, order: &[u32], values: &mut [u8])
    requires { (7 * m.now.expr_count ≤ length order.now) × Unplaced values.old }
    ensures { Unplaced values.new }
{
    for i in (0..m.expr_count).rev() {
        want_inputs(m, order, wide(order[i]), values);
    }
}

// WHAT IS KNOWN

fn placed(values: &[u8], p: usize, base: usize, top: usize) -> bool
    ensures { result ≡ true → Placed values.now base top p }
{
    if p >= base {
        return p < top;
    }
    if p < values.len() {
        return values[p] == KNOWN;
    }
    false
}

// What expression e is computed from is known.
fn computable(
    m: &CheckedModel,
    order: &[u32],
    base: usize,
    top: usize,
    values: &[u8],
    marks: &[u8],
    e: usize,
) -> bool
    requires { (e < length (records_in m.now.exprs.now)) × (7 * m.now.expr_count ≤ length order.now) × (base ≡ bits_in m.now.exprs.now) }
    ensures { (signals : List ℕ) (from k : ℕ) → top ≡ bits_in m.now.exprs.now + bits_in signals → Emitting signals m.now.exprs.now m.now.stmts.now m.now.expr_count from k order.now values.now marks.now → result ≡ true → Computable signals m.now.exprs.now m.now.stmts.now (Among order.now from k) (drop m.now.expr_count order.now) e }
{
    let at = m.expr_count + 6 * e;
    if order[at] >= 65536 {
        return ready(m, marks, e);
    }
    if !placed(values, wide(order[at + 2]), base, top) {
        return false;
    }
    if !placed(values, wide(order[at + 3]), base, top) {
        return false;
    }
    if !placed(values, wide(order[at + 4]), base, top) {
        return false;
    }
    placed(values, wide(order[at + 5]), base, top)
}

fn place(values: &mut [u8], from: usize, end: usize)
    requires { (from ≤ end) × (end ≤ length values.old) }
    ensures { Places from end values.old values.new }
{
    for p in from..end {
        values[p] = KNOWN;
    }
}

// CODE WORDS

// Expression e becomes code word k.
fn put(
    m: &CheckedModel,
    from: usize,
    k: usize,
    e: u32,
    order: &mut [u32],
    values: &mut [u8],
    marks: &mut [u8],
)
    requires { (m.now.expr_count ≤ length marks.old) × (bits_in m.now.exprs.now ≤ length values.old) × Emitting m.now.signals.now m.now.exprs.now m.now.stmts.now m.now.expr_count from k order.old values.old marks.old × (k < m.now.expr_count) × Computable m.now.signals.now m.now.exprs.now m.now.stmts.now (Among order.old from k) (drop m.now.expr_count order.old) e }
    ensures emitted { Emitting m.now.signals.now m.now.exprs.now m.now.stmts.now m.now.expr_count from (k + 1) order.new values.new marks.new }
    ensures kept { take from order.new ≡ take from order.old }
{
    order[from + k] = e;
    let x = wide(e);
    let begin = m.expr_offset(x);
    let end = m.expr_offset(x + 1);
    place(values, begin, end);
    marks[x] = MARK;
}

// Number i of the order becomes code word k, if it is wanted: how many code words there are then. None where it can't be computed.
fn emit(
    m: &CheckedModel,
    from: usize,
    base: usize,
    top: usize,
    i: usize,
    k: usize,
    order: &mut [u32],
    values: &mut [u8],
    marks: &mut [u8],
) -> Option<usize>
    requires { (m.now.expr_count ≤ length marks.old) × (base ≡ bits_in m.now.exprs.now) × (top ≡ bits_in m.now.exprs.now + bits_in m.now.signals.now) × (base ≤ length values.old) × Emitting m.now.signals.now m.now.exprs.now m.now.stmts.now m.now.expr_count from k order.old values.old marks.old × (k ≤ i) × (i < m.now.expr_count) }
    ensures { Emits m.now.signals.now m.now.exprs.now m.now.stmts.now m.now.expr_count from k result order.old order.new values.new marks.new }
{
    let word = order[i];
    let e = wide(word);
    if e >= m.expr_count {
        return Some(k);
    }
    if !wanted(m, values, e) {
        return Some(k);
    }
    if !computable(m, order, base, top, values, marks, e) {
        return None;
    }
    put(m, from, k, word, order, values, marks);
    Some(k + 1)
}

// All that are wanted: how many code words.
fn emit_all(
    m: &CheckedModel,
    from: usize,
    base: usize,
    top: usize,
    order: &mut [u32],
    values: &mut [u8],
    marks: &mut [u8],
) -> Option<usize>
    requires { (m.now.expr_count ≤ length marks.old) × (base ≡ bits_in m.now.exprs.now) × (top ≡ bits_in m.now.exprs.now + bits_in m.now.signals.now) × (base ≤ length values.old) × Emitting m.now.signals.now m.now.exprs.now m.now.stmts.now m.now.expr_count from 0 order.old values.old marks.old }
    ensures { EmitsAll m.now.signals.now m.now.exprs.now m.now.stmts.now m.now.expr_count from result order.old order.new values.new marks.new }
{
    let mut k: usize = 0;
    for i in 0..m.expr_count {
        k = emit(m, from, base, top, i, k, order, values, marks)?;
    }
    Some(k)
}

// What the statement at a word names is marked.
fn named(m: &CheckedModel, at: usize, marks: &[u8]) -> bool
    requires { Begins m.now.stmts.now at }
    ensures { result ≡ true → (k : ℕ) → k < length (records_in m.now.stmts.now) → at ≡ start_of m.now.stmts.now k → (x : ℕ) → Names (stmt_in m.now.stmts.now k) x → marked marks.now x ≡ true }
{
    if !is_marked(marks, wide(m.stmts[at + 3])) {
        return false;
    }
    if m.stmts[at + 1] != REG {
        return true;
    }
    if m.stmts[at + 6] == 0 {
        return true;
    }
    is_marked(marks, wide(m.stmts[at + 9]))
}

// What the registers that begin at k words of a list load is marked.
fn loads_marked(m: &CheckedModel, order: &[u32], from: usize, k: usize, marks: &[u8]) -> bool
    requires { (from + k ≤ length order.now) × ((j : ℕ) → j < k → Begins m.now.stmts.now (get_or order.now (from + j) 0)) }
    ensures { result ≡ true → Registers m.now.stmts.now order.now from k → MarksLoaded m.now.stmts.now marks.now }
{
    for j in 0..k {
        if !named(m, wide(order[from + j]), marks) {
            return false;
        }
    }
    true
}

// What is assigned to k signals of a list is marked.
fn drivers_marked(m: &CheckedModel, order: &[u32], from: usize, k: usize, marks: &[u8]) -> bool
    requires { from + k ≤ length order.now }
    ensures { result ≡ true → MarksDrivers m.now.stmts.now order.now from k marks.now }
{
    for j in 0..k {
        if !driver_marked(m, marks, wide(order[from + j]), true) {
            return false;
        }
    }
    true
}

// ONE PIECE

// Code for what the listed registers load and what is assigned to the listed signals, from a word on behind the lists: how many words. Values and marks are work.
fn piece(
    m: &CheckedModel,
    from: usize,
    base: usize,
    top: usize,
    loads: usize,
    registers: usize,
    asked: usize,
    controls: usize,
    order: &mut [u32],
    values: &mut [u8],
    marks: &mut [u8],
) -> Option<usize>
    requires { (m.now.expr_count ≤ length marks.old) × (base ≡ bits_in m.now.exprs.now) × (top ≡ bits_in m.now.exprs.now + bits_in m.now.signals.now) × (base ≤ length values.old) × (7 * m.now.expr_count ≤ from) × (from + m.now.expr_count ≤ length order.old) × Formed m.now.signals.now m.now.exprs.now m.now.stmts.now (drop m.now.expr_count order.old) m.now.expr_count × (loads + registers ≤ from) × ((j : ℕ) → j < registers → Begins m.now.stmts.now (get_or order.old (loads + j) 0)) × (asked + controls ≤ from) }
    ensures kept { take from order.new ≡ take from order.old }
    ensures few { IfSome result (λ k. k ≤ m.now.expr_count) }
    ensures coded { IfSome result (λ k. Coded m.now.signals.now m.now.exprs.now m.now.stmts.now m.now.expr_count from k order.new) }
    ensures loaded { IfSome result (λ k. Registers m.now.stmts.now order.old loads registers → (e : ℕ) → Loaded m.now.stmts.now e → Among order.new from k e) }
    ensures driven { IfSome result (λ k. (x d : ℕ) → Among order.new asked controls x → given assigns (stmts_in m.now.stmts.now) x ≡ Some d → Among order.new from k d) }
{
    values.fill(0);
    want_loads(m, order, loads, registers, values);
    want_drivers(m, order, asked, controls, values);
    want_needed(m, order, values);
    marks.fill(0);
    let k = emit_all(m, from, base, top, order, values, marks)?;
    if !loads_marked(m, order, loads, registers, marks) {
        return None;
    }
    if !drivers_marked(m, order, asked, controls, marks) {
        return None;
    }
    Some(k)
}

// Forms, lists and code in a table with room for them. Values and both marks are work.
fn encode_in(
    m: &CheckedModel,
    base: usize,
    state: usize,
    order: &mut [u32],
    values: &mut [u8],
    marks: &mut [u8],
    asked: &mut [u8],
) -> Option<Code>
    requires { (m.now.expr_count ≤ length marks.old) × (m.now.signal_count ≤ length asked.old) × (base ≡ bits_in m.now.exprs.now) × (state ≡ bits_in m.now.signals.now) × (base + state ≤ length values.old) × (9 * m.now.expr_count + 3 * m.now.signal_count ≤ length order.old) }
    ensures planned { IfSome result (λ c. Planned m.now.signals.now m.now.exprs.now m.now.stmts.now m.now.expr_count m.now.signal_count c order.new values.new) }
    ensures kept { take m.now.expr_count order.new ≡ take m.now.expr_count order.old }
{
    fill_forms(
        m.signals,
        m.exprs,
        m.stmts,
        m.starts,
        m.expr_table,
        m.signal_table,
        m.driver_table,
        m.expr_count,
        m.expr_count,
        order,
    );
    let loads = 7 * m.expr_count;
    let registers = list_registers(m, order, loads, m.signal_count)?;
    let controls_at = loads + m.signal_count;
    let controls = list_controls(
        m,
        order,
        loads,
        registers,
        controls_at,
        m.signal_count,
        asked,
    )?;
    let outputs_at = controls_at + m.signal_count;
    let outputs = list_outputs(m, order, outputs_at, m.signal_count)?;
    let first_at = outputs_at + m.signal_count;
    let top = base + state;
    let first = piece(
        m,
        first_at,
        base,
        top,
        loads,
        registers,
        controls_at,
        controls,
        order,
        values,
        marks,
    )?;
    let second = piece(
        m,
        first_at + m.expr_count,
        base,
        top,
        loads,
        0,
        outputs_at,
        outputs,
        order,
        values,
        marks,
    )?;
    Some(Code {
        base: base,
        state: state,
        registers: registers,
        controls: controls,
        outputs: outputs,
        first: first,
        second: second,
    })
}

// The code of a model of which `ordered` expressions stand in the order.
pub fn encode(
    m: &CheckedModel,
    ordered: usize,
    order: &mut [u32],
    values: &mut [u8],
    marks: &mut [u8],
    asked: &mut [u8],
) -> Plan
    requires { (m.now.expr_count ≤ length marks.old) × (m.now.signal_count ≤ length asked.old) × (bits_in m.now.exprs.now ≤ length values.old) × (bits_in m.now.signals.now ≤ 18446744073709551615) × (ordered ≤ length order.old) × Ordered (model_in m.now.signals.now m.now.exprs.now m.now.stmts.now) m.now.expr_count (take ordered order.old) }
    ensures planned { IfSome result.code (λ c. Planned m.now.signals.now m.now.exprs.now m.now.stmts.now m.now.expr_count m.now.signal_count c (take result.used order.new) values.new) }
    ensures ordered { Ordered (model_in m.now.signals.now m.now.exprs.now m.now.stmts.now) m.now.expr_count (take result.used order.new) }
    ensures inside { result.used ≤ length order.new }
{
    let plain = Plan {
        code: None,
        used: ordered,
    };
    if ordered != m.expr_count {
        return plain;
    }
    if order.len() / 9 < m.expr_count {
        return plain;
    }
    if (order.len() - 9 * m.expr_count) / 3 < m.signal_count {
        return plain;
    }
    let base = m.expr_offset(m.expr_count);
    let state = m.signal_offset(m.signal_count);
    if values.len() - base < state {
        return plain;
    }
    Plan {
        code: encode_in(m, base, state, order, values, marks, asked),
        used: order.len(),
    }
}
