// One-bit expressions as tables of up to four bits.

#![tactic(auto)]

mod find; // find.rt: the form of one expression
mod join; // join.rt: the table of a gate of tables

ghost use Rattle.std.specs.Prelude.{◌≡◌, List, ℕ, ◌+◌, ◌*◌, ◌≤◌, ◌<◌, length};
ghost use Rattle.simulation.specs.Index.{records_in};
ghost use Rattle.fusing.specs.Form.{Formed};
ghost use Rattle.fusing.specs.Finding.{Known, Puts, Behind, Fills};

use find::{Tables, form_of};
use join::Lut;
use simulation::index::{clip, entry, sum_to};

// The six words of expression e: a table, its own position, the table's inputs. Without a position of its own it has no form.
fn put(forms: &mut [u32], e: usize, own: Option<u32>, f: Option<Lut>)
    requires { 6 * e + 6 ≤ length forms.old }
    ensures { Puts e own f forms.old forms.new }
{
    let at = 6 * e;
    match (own, f) {
        (Some(own), Some(f)) => {
            let [a, b, c, d] = f.inputs;
            forms[at] = f.table;
            forms[at + 1] = own;
            forms[at + 2] = a;
            forms[at + 3] = b;
            forms[at + 4] = c;
            forms[at + 5] = d;
        }
        _ => forms[at] = 65536,
    }
}

// One expression after the other, as operands come first.
fn fill(m: Tables, n: usize, forms: &mut [u32])
    requires { 6 * n ≤ length forms.old }
    ensures behind { Behind (6 * n) forms.old forms.new }
    ensures formed { (signals : List ℕ) → Known signals m.entry.exprs.now m.entry.stmts.now m.entry.starts.now m.entry.expr_table.now m.entry.signal_table.now m.entry.driver_table.now → n ≡ length (records_in m.entry.exprs.now) → Formed signals m.entry.exprs.now m.entry.stmts.now forms.new n }
{
    let base = clip(sum_to(m.exprs, n));
    for e in 0..n {
        let own = entry(m.expr_table, e);
        let f = form_of(m, base, e, forms);
        put(forms, e, own, f);
    }
}

// Fills `forms` from word `from` on with six words for each of the n expressions, if there is room; what stands before and behind is kept.
pub fn fill_forms(
    signals: &[u32],
    exprs: &[u32],
    stmts: &[u32],
    starts: &[u32],
    expr_table: &[u32],
    signal_table: &[u32],
    driver_table: &[u32],
    n: usize,
    from: usize,
    forms: &mut [u32],
)
    ensures { Fills signals.now exprs.now stmts.now starts.now expr_table.now signal_table.now driver_table.now n from forms.old forms.new }
{
    if from > forms.len() {
        return;
    }
    if n > (forms.len() - from) / 6 {
        return;
    }
    let m = Tables {
        exprs,
        stmts,
        starts,
        expr_table,
        signal_table,
        driver_table,
    };
    fill(m, n, &mut forms[from..]);
}
