// The form of one expression, from its record and the forms of its operands.
ghost use Rattle.std.specs.Prelude.{◌≡◌, ◌⊎◌, List, ℕ, ◌+◌, ◌*◌, ◌<◌, length, get_or};
ghost use Rattle.std.specs.Option.{IfSome};
ghost use Rattle.simulation.specs.Index.{records_in, widths_in, offset, clipped};
ghost use Rattle.fusing.specs.Form.{form_at, Formed};
ghost use Rattle.fusing.specs.Join.{form_of, Alone, Matches};
ghost use Rattle.fusing.specs.Finding.{Spotted, Constant, Fused, Compared, Known, Finds};

use crate::join::{Lut, alone, joined};
use recorder::read::word;
use simulation::index::{driver, entry, fields, wide};

// A model's expressions and statements with what says where they stand: where each expression begins, the positions of expressions and of
// signals, what is assigned to each signal.
#[derive(Clone, Copy)]
pub struct Tables<'a> {
    pub exprs: &'a [u32],
    pub stmts: &'a [u32],
    pub starts: &'a [u32],
    pub expr_table: &'a [u32],
    pub signal_table: &'a [u32],
    pub driver_table: &'a [u32],
}

// Where bit l of signal s stands: in the value of what is assigned to it, or behind all values. None for what no table says.
fn spot(m: Tables, base: u32, s: usize, l: u32) -> Option<u32>
    ensures { IfSome result (λ (p : ℕ). Spotted m.entry.stmts.now m.entry.expr_table.now m.entry.signal_table.now m.entry.driver_table.now base s l p) }
{
    // Behind its table a driver would have to be looked for in all statements.
    if s >= m.driver_table.len() {
        return None;
    }
    let p = match driver(m.stmts, m.driver_table, s) {
        Some(d) => entry(m.expr_table, wide(d))?.saturating_add(l),
        None => base
            .saturating_add(entry(m.signal_table, s)?)
            .saturating_add(l),
    };
    if p < u32::MAX { Some(p) } else { None }
}

// A constant of one bit. What its inputs are does not matter.
fn constant(v: u32, base: u32) -> Lut
    ensures { Constant v result }
{
    Lut {
        table: if v % 2 == 1 { 65535 } else { 0 },
        inputs: [base; 4],
    }
}

// The form of an operand.
fn view(forms: &[u32], o: u32) -> Option<Lut>
    ensures { IfSome result (λ (v : Lut). (form_of v ≡ form_at forms.now o) × (v.table < 65536)) }
{
    let at = 6 * wide(o);
    let table = word(forms, at);
    if table >= 65536 {
        return None;
    }
    Some(Lut {
        table,
        inputs: [
            word(forms, at + 2),
            word(forms, at + 3),
            word(forms, at + 4),
            word(forms, at + 5),
        ],
    })
}

// The operand's own position.
fn itself(forms: &[u32], o: u32) -> Lut
    ensures { Alone (get_or forms.now (6 * o + 1) 0) result }
{
    alone(word(forms, 6 * wide(o) + 1))
}

// A gate of operands that have forms: of their forms, or else of their values.
fn fused(forms: &[u32], kind: u32, a: u32, b: u32, c: u32) -> Option<Lut>
    ensures { IfSome result (λ (z : Lut). Fused forms.now kind a b c z) }
{
    let p = view(forms, a)?;
    let q = view(forms, b)?;
    let r = view(forms, c)?;
    match joined(kind, p, q, r) {
        Some(z) => Some(z),
        None => joined(kind, itself(forms, a), itself(forms, b), itself(forms, c)),
    }
}

// Whether the w bits from position p on are the lowest of v.
fn matching(w: u32, v: u32, p: u32) -> Option<Lut>
    requires { p < 4294967292 }
    ensures { IfSome result (λ (z : Lut). Matches w v p z) }
{
    match w {
        2 => Some(Lut {
            table: 4369 << (v % 4),
            inputs: [p, p + 1, p, p],
        }),
        3 => Some(Lut {
            table: 257 << (v % 8),
            inputs: [p, p + 1, p + 2, p],
        }),
        4 => Some(Lut {
            table: 1 << (v % 16),
            inputs: [p, p + 1, p + 2, p + 3],
        }),
        _ => None,
    }
}

// Whether a has the value of b, a constant of up to four bits.
fn compared(m: Tables, a: u32, b: u32) -> Option<Lut>
    ensures { IfSome result (λ (z : Lut). Compared m.entry.exprs.now m.entry.starts.now m.entry.expr_table.now a b z) }
{
    let at = wide(entry(m.starts, wide(b))?);
    let own = entry(m.expr_table, wide(a))?;
    if own >= 4294967292 {
        return None;
    }
    match fields(m.exprs, at) {
        [0, w, v] => matching(*w, *v, own),
        _ => None,
    }
}

fn equal_form(m: Tables, forms: &[u32], a: u32, b: u32) -> Option<Lut>
    ensures { IfSome result (λ (z : Lut). Fused forms.now 8 a b b z ⊎ Compared m.entry.exprs.now m.entry.starts.now m.entry.expr_table.now a b z) }
{
    match fused(forms, 8, a, b, b) {
        Some(z) => Some(z),
        None => compared(m, a, b),
    }
}

// The form of expression e, whose operands have theirs. `base` is the position behind all values.
pub fn form_of(m: Tables, base: u32, e: usize, forms: &[u32]) -> Option<Lut>
    ensures { (signals : List ℕ) → Known signals m.entry.exprs.now m.entry.stmts.now m.entry.starts.now m.entry.expr_table.now m.entry.signal_table.now m.entry.driver_table.now → e < length (records_in m.entry.exprs.now) → base ≡ clipped (offset (widths_in m.entry.exprs.now) (length (records_in m.entry.exprs.now))) → IfSome result (λ (z : Lut). Finds signals m.entry.exprs.now m.entry.stmts.now forms.now e z) }
{
    let at = wide(entry(m.starts, e)?);
    match fields(m.exprs, at) {
        [0, 1, v] => Some(constant(*v, base)),
        [1, 1, s, l] => Some(alone(spot(m, base, wide(*s), *l)?)),
        [3, _, a] => fused(forms, 3, *a, *a, *a),
        [kind @ 4..=6, _, a, b] => fused(forms, *kind, *a, *b, *b),
        [7, _, s, a, b] => fused(forms, 7, *s, *a, *b),
        [8, _, a, b] => equal_form(m, forms, *a, *b),
        _ => None,
    }
}
