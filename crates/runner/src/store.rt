// What is stored in the signals' bytes: the inputs, and the values of expressions.
ghost use Rattle.std.specs.Prelude.{◌≡◌, ◌+◌, ◌≤◌, ◌<◌, length, get_or};
ghost use Rattle.simulation.specs.Index.{records_in, widths_in, offset as sum_to, Indexed, Driven};
ghost use Rattle.evaluation.specs.Ready.{Prepared, Room};
ghost use Rattle.evaluation.specs.Late.{PortsBefore, StoresDriven, StoresListed};
ghost use Rattle.evaluation.specs.Ticks.{ReadSignals, GoodTicks, Inputs, StoresOne, Stores};

use crate::bytes::copy;
use crate::kinds::INPUT;
use crate::tables::CheckedModel;
use simulation::index::wide;
use simulation::records::Records;

// Signal t takes the value of expression d, which is as wide.
pub fn store(m: &CheckedModel, values: &[u8], t: usize, d: usize, bytes: &mut [u8])
    requires { Room m.now.signals.now m.now.exprs.now bytes.old values.now × (t < length (records_in m.now.signals.now)) × (d < length (records_in m.now.exprs.now)) × (get_or (widths_in m.now.exprs.now) d 0 ≡ get_or (widths_in m.now.signals.now) t 0) }
    ensures { StoresOne m.now.signals.now m.now.exprs.now values.now t d bytes.old bytes.new }
{
    let to = m.signal_offset(t);
    let from = m.expr_offset(d);
    let end = m.expr_offset(d + 1);
    copy(bytes, to, values, from, end - from);
}

// Signal s takes the value of what is assigned to it, if there is such a signal.
fn store_driven(m: &CheckedModel, values: &[u8], s: usize, bytes: &mut [u8])
    requires { Room m.now.signals.now m.now.exprs.now bytes.old values.now }
    ensures { StoresDriven m.now.signals.now m.now.exprs.now m.now.stmts.now s values.now bytes.old bytes.new }
{
    if s >= m.signal_count {
        return;
    }
    match m.driver(s) {
        Some(d) => store(m, values, s, wide(d), bytes),
        None => {}
    }
}

// Every assigned signal takes its expression's value.
pub fn store_assigned(m: &CheckedModel, values: &[u8], bytes: &mut [u8])
    requires { Room m.now.signals.now m.now.exprs.now bytes.old values.now }
    ensures { Stores m.now.signals.now m.now.exprs.now m.now.stmts.now values.now bytes.old bytes.new }
{
    for s in 0..m.signal_count {
        match m.driver(s) {
            Some(d) => store(m, values, s, wide(d), bytes),
            None => {}
        }
    }
}

// k signals of a list take the values of what is assigned to them.
pub fn store_listed(
    m: &CheckedModel,
    order: &[u32],
    from: usize,
    k: usize,
    values: &[u8],
    bytes: &mut [u8],
)
    requires { Room m.now.signals.now m.now.exprs.now bytes.old values.now × (from + k ≤ length order.now) }
    ensures { StoresListed m.now.signals.now m.now.exprs.now m.now.stmts.now order.now from k values.now bytes.old bytes.new }
{
    for j in 0..k {
        let s = wide(order[from + j]);
        store_driven(m, values, s, bytes);
    }
}

// The input signals take the tick's bits, in order.
pub fn set_inputs(m: &CheckedModel, ticks: &[u8], bytes: &mut [u8])
    requires { GoodTicks m.now.signals.now ticks.now × (sum_to (widths_in m.now.signals.now) (length (records_in m.now.signals.now)) ≤ length bytes.old) }
    ensures { Inputs m.now.signals.now ticks.now bytes.old bytes.new }
{
    let mut at: usize = 0;
    let mut to: usize = 0;
    let mut pos: usize = 0;
    for fields in Records::new(m.signals) {
        if at >= m.ports {
            return;
        }
        let width = wide(fields[1]);
        if fields[0] == INPUT {
            copy(bytes, to, ticks, pos, width);
            pos += width;
        }
        to += width;
        at += fields.len() + 1;
    }
}
