// The check of a model: refusal 12.
ghost use Rattle.std.specs.Prelude.{◌≡◌, ◌&&◌, ◌+◌, ◌≤◌, ◌<◌, ◌^◌, min, ltb, eqb, length, get_or, set};
ghost use Rattle.std.specs.Prelude.{None, Some};
ghost use Rattle.bits.specs.Bits.{pick};
ghost use Rattle.recorder.specs.Read.{read_signal};
ghost use Rattle.simulation.specs.Wellformed.{drives, count_of, fits, signal_fits, in_range, earlier, width_sum, wide as wider, broad, suits, malformed as malformed_by};
ghost use Rattle.simulation.specs.Index.{records_in, widths_in, Listed};
ghost use Rattle.simulation.specs.Model.{lists_of};
ghost use Rattle.simulation.specs.Run.{zeroed};
ghost use Rattle.simulation.specs.Fault.{stands, Tallied, signal_fault_of, all_wide, const_test, read_test, concat_test, fixed_test, mux_test, eq_test, expr_test, expr_fault_of, head_test, reset_test, enable_test, reg_test, assign_test, stmt_test, stmt_fault_of};

use crate::widths::{Widths, fill};
use recorder::read::word;
use simulation::Model;
use simulation::index::wide;
use simulation::records::{Records, count_whole};

// The signal that a statement stands on, whatever else is wrong with it.
fn target(fields: &[u32]) -> Option<usize>
    ensures { result ≡ pick (stands fields.now) (Some (get_or fields.now 1 0)) None }
{
    match fields {
        [0 | 1, t, ..] => Some(wide(*t)),
        _ => None,
    }
}

// One more, if there is such a signal; 2 stands for more.
fn bump(table: &mut [u8], i: usize)
    ensures { table.new ≡ set table.old i (min (get_or table.old i 0 + 1) 2) }
{
    if i < table.len() {
        table[i] = table[i].saturating_add(1).min(2);
    }
}

// How many statements stand on each signal, as far as the table goes.
fn tally(stmts: &[u32], table: &mut [u8])
    ensures { Tallied (records_in stmts.now) table.new }
{
    table.fill(0);
    for fields in Records::new(stmts) {
        if let Some(t) = target(fields) {
            bump(table, t);
        }
    }
}

fn count_drivers(stmts: &[u32], n: usize) -> u8
    ensures { result ≡ min (count_of (drives n) (records_in stmts.now)) 2 }
{
    let mut k: u8 = 0;
    for fields in Records::new(stmts) {
        if let Some(t) = target(fields) {
            if t == n {
                k = k.saturating_add(1).min(2);
            }
        }
    }
    k
}

// How many statements stand on signal n: none, one, or more, which 2 stands for.
fn drivers(stmts: &[u32], table: &[u8], n: usize) -> u8
    requires { Tallied (records_in stmts.now) table.now }
    ensures { result ≡ min (count_of (drives n) (records_in stmts.now)) 2 }
{
    if n < table.len() {
        table[n]
    } else {
        count_drivers(stmts, n)
    }
}

fn in_range(w: u32, widest: u32) -> bool
    ensures { result ≡ in_range widest w }
{
    1 <= w && w <= widest
}

// A signal on which k statements stand: an input has none, any other one.
fn signal_fits(fields: &[u32], k: u8, widest: u32) -> bool
    ensures { result ≡ fits (signal_fits widest k) (read_signal fields.now) }
{
    match fields {
        [0, w, _] => in_range(*w, widest) && k == 0,
        [label, w, _] => *label <= 15 && in_range(*w, widest) && k == 1,
        _ => false,
    }
}

// The first faulty signal.
fn signal_fault(m: Model, table: &[u8], widest: u32) -> Option<usize>
    requires { Tallied (records_in m.stmts.now) table.now }
    ensures { result ≡ signal_fault_of widest (records_in m.entry.signals.now) (records_in m.entry.stmts.now) }
{
    for (n, fields) in Records::new(m.signals).enumerate() {
        if !signal_fits(fields, drivers(m.stmts, table, n), widest) {
            return Some(n);
        }
    }
    None
}

// A value fits so many bits.
fn value_fits(v: u32, w: u32) -> bool
    ensures { result ≡ ltb v (2 ^ w) }
{
    if w >= 32 {
        return true;
    }
    v >> w == 0
}

// An operand: it comes before expression n and is w wide.
fn operand(exprs: Widths, n: usize, a: u32, w: u32) -> bool
    requires { n ≤ exprs.count }
    ensures { result ≡ wider (widths_in exprs.entry.list.now) n a w }
{
    let a = wide(a);
    a < n && exprs.get(a) == Some(w)
}

fn each_operand(operands: &[u32], exprs: Widths, n: usize, w: u32) -> bool
    requires { n ≤ exprs.count }
    ensures { result ≡ all_wide (widths_in exprs.entry.list.now) n w operands.now }
{
    for a in operands {
        if !operand(exprs, n, *a, w) {
            return false;
        }
    }
    true
}

// All parts come before expression n, and their widths have the sum w.
fn parts_fit(parts: &[u32], exprs: Widths, n: usize, w: u32) -> bool
    requires { n ≤ exprs.count }
    ensures { result ≡ (earlier n parts.now && eqb (width_sum (widths_in exprs.entry.list.now) parts.now) w) }
{
    let mut left = w;
    for p in parts {
        let p = wide(*p);
        if p >= n {
            return false;
        }
        let Some(width) = exprs.get(p) else {
            return false;
        };
        if width > left {
            return false;
        }
        left -= width;
    }
    left == 0
}

fn const_fits(fields: &[u32], widest: u32) -> bool
    ensures { result ≡ const_test widest fields.now }
{
    match fields {
        [_, w, v] => in_range(*w, widest) && value_fits(*v, *w),
        _ => false,
    }
}

fn read_fits(fields: &[u32], signals: Widths, widest: u32) -> bool
    ensures { result ≡ read_test widest (widths_in signals.entry.list.now) fields.now }
{
    let [_, w, s, low] = fields else {
        return false;
    };
    if !in_range(*w, widest) {
        return false;
    }
    match signals.get(wide(*s)) {
        Some(width) => wide(*low) + wide(*w) <= wide(width),
        None => false,
    }
}

fn concat_fits(fields: &[u32], exprs: Widths, n: usize, widest: u32) -> bool
    requires { n ≤ exprs.count }
    ensures { result ≡ concat_test widest (widths_in exprs.entry.list.now) n fields.now }
{
    match fields {
        [_, w, parts @ ..] => in_range(*w, widest) && parts_fit(parts, exprs, n, *w),
        _ => false,
    }
}

// So many fields, and operands as wide as the expression, which has the width w.
fn fixed_fits(fields: &[u32], exprs: Widths, n: usize, count: usize, w: u32) -> bool
    requires inside { n ≤ exprs.count }
    requires fields { 2 ≤ count }
    ensures { result ≡ fixed_test (widths_in exprs.entry.list.now) n count w fields.now }
{
    match fields {
        [_, own, operands @ ..] => fields.len() == count
            && *own == w
            && each_operand(operands, exprs, n, w),
        _ => false,
    }
}

fn mux_fits(fields: &[u32], exprs: Widths, n: usize, widest: u32) -> bool
    requires { n ≤ exprs.count }
    ensures { result ≡ mux_test widest (widths_in exprs.entry.list.now) n fields.now }
{
    match fields {
        [_, w, s, t, f] => {
            in_range(*w, widest)
                && operand(exprs, n, *s, 1)
                && operand(exprs, n, *t, *w)
                && operand(exprs, n, *f, *w)
        }
        _ => false,
    }
}

fn eq_fits(fields: &[u32], exprs: Widths, n: usize) -> bool
    requires { n ≤ exprs.count }
    ensures { result ≡ eq_test (widths_in exprs.entry.list.now) n fields.now }
{
    let [_, 1, a, b] = fields else {
        return false;
    };
    if wide(*a) >= n {
        return false;
    }
    match exprs.get(wide(*a)) {
        Some(w) => operand(exprs, n, *b, w),
        None => false,
    }
}

// Expression n, by its kind.
fn expr_fits(fields: &[u32], n: usize, signals: Widths, exprs: Widths, widest: u32) -> bool
    requires { n ≤ exprs.count }
    ensures { result ≡ expr_test widest (widths_in signals.entry.list.now) (widths_in exprs.entry.list.now) n fields.now }
{
    match word(fields, 0) {
        0 => const_fits(fields, widest),
        1 => read_fits(fields, signals, widest),
        2 => concat_fits(fields, exprs, n, widest),
        3 => fixed_fits(fields, exprs, n, 3, 1),
        4 => fixed_fits(fields, exprs, n, 4, 1),
        5 => fixed_fits(fields, exprs, n, 4, 1),
        6 => fixed_fits(fields, exprs, n, 4, 1),
        7 => mux_fits(fields, exprs, n, widest),
        8 => eq_fits(fields, exprs, n),
        9 => fixed_fits(fields, exprs, n, 4, 36),
        _ => false,
    }
}

// The first faulty expression.
fn expr_fault(signals: Widths, exprs: Widths, widest: u32) -> Option<usize>
    ensures { result ≡ expr_fault_of widest (records_in signals.entry.list.now) (records_in exprs.entry.list.now) }
{
    for (n, fields) in Records::new(exprs.list).enumerate() {
        if !expr_fits(fields, n, signals, exprs, widest) {
            return Some(n);
        }
    }
    None
}

// Signal s is there and has one bit.
fn control(signals: Widths, s: u32) -> bool
    ensures { result ≡ broad (widths_in signals.entry.list.now) s 1 }
{
    signals.get(wide(s)) == Some(1)
}

// Signal t and expression e are there, and equally wide.
fn suited(signals: Widths, exprs: Widths, t: u32, e: u32) -> bool
    ensures { result ≡ suits (widths_in signals.entry.list.now) (widths_in exprs.entry.list.now) t e }
{
    match signals.get(wide(t)) {
        Some(w) => operand(exprs, exprs.count, e, w),
        None => false,
    }
}

// The enable of a register, its last fields.
fn enable_fits(fields: &[u32], signals: Widths) -> bool
    ensures { result ≡ enable_test (widths_in signals.entry.list.now) fields.now }
{
    match fields {
        [0] => true,
        [1, s, active] => control(signals, *s) && *active <= 1,
        _ => false,
    }
}

// The target and the next value, the clock and the edge of a register.
fn head_fits(fields: &[u32], signals: Widths, exprs: Widths) -> bool
    ensures { result ≡ head_test (widths_in signals.entry.list.now) (widths_in exprs.entry.list.now) fields.now }
{
    suited(signals, exprs, word(fields, 1), word(fields, 2))
        && control(signals, word(fields, 3))
        && word(fields, 4) <= 1
}

// The reset of a register.
fn reset_fits(fields: &[u32], signals: Widths, exprs: Widths) -> bool
    ensures { result ≡ reset_test (widths_in signals.entry.list.now) (widths_in exprs.entry.list.now) fields.now }
{
    control(signals, word(fields, 6))
        && word(fields, 7) <= 1
        && suited(signals, exprs, word(fields, 1), word(fields, 8))
}

fn reg_fits(fields: &[u32], signals: Widths, exprs: Widths) -> bool
    ensures { result ≡ reg_test (widths_in signals.entry.list.now) (widths_in exprs.entry.list.now) fields.now }
{
    if !head_fits(fields, signals, exprs) {
        return false;
    }
    match fields {
        [_, _, _, _, _, 0, enable @ ..] => enable_fits(enable, signals),
        [_, _, _, _, _, 1, _, _, _, enable @ ..] => {
            reset_fits(fields, signals, exprs) && enable_fits(enable, signals)
        }
        _ => false,
    }
}

fn assign_fits(fields: &[u32], signals: Widths, exprs: Widths) -> bool
    ensures { result ≡ assign_test (widths_in signals.entry.list.now) (widths_in exprs.entry.list.now) fields.now }
{
    match fields {
        [_, t, e] => suited(signals, exprs, *t, *e),
        _ => false,
    }
}

// A statement, by its kind.
fn stmt_fits(fields: &[u32], signals: Widths, exprs: Widths) -> bool
    ensures { result ≡ stmt_test (widths_in signals.entry.list.now) (widths_in exprs.entry.list.now) fields.now }
{
    match word(fields, 0) {
        0 => assign_fits(fields, signals, exprs),
        1 => reg_fits(fields, signals, exprs),
        _ => false,
    }
}

// The first faulty statement.
fn stmt_fault(stmts: &[u32], signals: Widths, exprs: Widths) -> Option<usize>
    ensures { result ≡ stmt_fault_of (records_in signals.entry.list.now) (records_in exprs.entry.list.now) (records_in stmts.now) }
{
    for (n, fields) in Records::new(stmts).enumerate() {
        if !stmt_fits(fields, signals, exprs) {
            return Some(n);
        }
    }
    None
}

// The first faulty record of a model, with tables of the signals' and the expressions' widths and of the statements on each signal.
fn first_fault(
    m: Model,
    signal_table: &[u32],
    expr_table: &[u32],
    bytes: &[u8],
    widest: u32,
) -> Option<usize>
    requires { Listed (widths_in m.signals.now) signal_table.now × Listed (widths_in m.exprs.now) expr_table.now × Tallied (records_in m.stmts.now) bytes.now }
    ensures { result ≡ malformed_by widest (lists_of m.entry) }
{
    let s = match count_whole(m.signals) {
        Ok(n) => n,
        Err(n) => return Some(n),
    };
    let e = match count_whole(m.exprs) {
        Ok(n) => n,
        Err(n) => return Some(s + n),
    };
    if let Err(n) = count_whole(m.stmts) {
        return Some(s + (e + n));
    }
    if let Some(n) = signal_fault(m, bytes, widest) {
        return Some(n);
    }
    let signals = Widths {
        list: m.signals,
        table: signal_table,
        count: s,
    };
    let exprs = Widths {
        list: m.exprs,
        table: expr_table,
        count: e,
    };
    if let Some(n) = expr_fault(signals, exprs, widest) {
        return Some(s + n);
    }
    match stmt_fault(m.stmts, signals, exprs) {
        Some(n) => Some(s + (e + n)),
        None => None,
    }
}

// Refusal 12: the first faulty record. The tables are work, for widths; so are the bytes, which count the statements on each signal. The
// longer they are, the fewer lists are walked.
pub fn malformed(
    m: Model,
    signal_table: &mut [u32],
    expr_table: &mut [u32],
    bytes: &mut [u8],
    widest: u32,
) -> Option<usize>
    ensures fault { result ≡ malformed_by widest (lists_of m.entry) }
    ensures zeros { (signal_table.new ≡ zeroed signal_table.old) × (expr_table.new ≡ zeroed expr_table.old) × (bytes.new ≡ zeroed bytes.old) }
{
    fill(m.signals, signal_table);
    fill(m.exprs, expr_table);
    tally(m.stmts, bytes);
    let fault = first_fault(m, signal_table, expr_table, bytes, widest);
    signal_table.fill(0);
    expr_table.fill(0);
    bytes.fill(0);
    fault
}
