// The values of a model's expressions along its code.
ghost use Rattle.std.specs.Prelude.{◌≡◌, ◌+◌, ◌≤◌, ◌<◌, length, get_or};
ghost use Rattle.std.specs.Prelude.{None};
ghost use Rattle.simulation.specs.Index.{records_in, widths_in, Starts, Driven};
ghost use Rattle.simulation.specs.Tick.{looped};
ghost use Rattle.evaluation.specs.Ready.{Prepared, Room, model_in};
ghost use Rattle.evaluation.specs.Ticks.{Filled};
ghost use Rattle.coding.specs.Coded.{bits_in, Coded, SettlesCode, looked as looked_in, looked_up};

use crate::bytes::copy;
use crate::code::Code;
use crate::expression::eval_expr;
use crate::tables::CheckedModel;
use simulation::index::wide;

fn digit(x: u8) -> u32
    ensures { result ≡ x }
{
    x as u32
}

// A bit of a table, by the bytes at its four inputs.
fn looked(table: u32, a: u8, b: u8, c: u8, d: u8) -> u8
    ensures { result ≡ looked_in table a b c d }
{
    let row = (digit(a) + 2 * digit(b) + 4 * digit(c) + 8 * digit(d)) % 16;
    ((table >> row) % 2) as u8
}

// The value of an expression by its form, whose six words begin at a word.
fn look_up(order: &[u32], at: usize, values: &mut [u8])
    requires { (at + 5 < length order.now) × (get_or order.now (at + 1) 0 < length values.old) × (get_or order.now (at + 2) 0 < length values.old) × (get_or order.now (at + 3) 0 < length values.old) × (get_or order.now (at + 4) 0 < length values.old) × (get_or order.now (at + 5) 0 < length values.old) }
    ensures { values.new ≡ looked_up order.now at values.old }
{
    let a = values[wide(order[at + 2])];
    let b = values[wide(order[at + 3])];
    let c = values[wide(order[at + 4])];
    let d = values[wide(order[at + 5])];
    values[wide(order[at + 1])] = looked(order[at], a, b, c, d);
}

// Along k of the code's words, from a word on, over the signals' bytes.
pub fn settle_coded(
    m: &CheckedModel,
    order: &[u32],
    from: usize,
    k: usize,
    code: Code,
    bytes: &[u8],
    values: &mut [u8],
)
    requires { Room m.now.signals.now m.now.exprs.now bytes.now values.old × Coded m.now.signals.now m.now.exprs.now m.now.stmts.now m.now.expr_count from k order.now × (code.base ≡ bits_in m.now.exprs.now) × (code.state ≡ bits_in m.now.signals.now) × (bits_in m.now.exprs.now + bits_in m.now.signals.now ≤ length values.old) × (looped (model_in m.now.signals.now m.now.exprs.now m.now.stmts.now) ≡ None) × Filled (widths_in m.now.exprs.now) values.old }
    ensures { SettlesCode m.now.signals.now m.now.exprs.now m.now.stmts.now order.now from k bytes.now values.new }
{
    copy(values, code.base, bytes, 0, code.state);
    for j in 0..k {
        let e = wide(order[from + j]);
        let at = m.expr_count + 6 * e;
        if order[at] < 65536 {
            look_up(order, at, values);
        } else {
            eval_expr(m, bytes, e, values);
        }
    }
}
