// One tick.
ghost use Rattle.std.specs.Prelude.{◌≡◌, ◌≤◌, length};
ghost use Rattle.std.specs.Prelude.{None};
ghost use Rattle.simulation.specs.Index.{records_in, widths_in, Starts, Driven};
ghost use Rattle.simulation.specs.Run.{fired_of, firing};
ghost use Rattle.simulation.specs.Tick.{looped};
ghost use Rattle.evaluation.specs.Ready.{Prepared, Room, model_in};
ghost use Rattle.evaluation.specs.Ticks.{Filled, Ordered, GoodTicks, Ticks};

use crate::commit::commit;
use crate::settling::settle;
use crate::store::set_inputs;
use crate::tables::CheckedModel;
use simulation::Edge;

// Inputs, settle, commit, settle.
// The model and its order are two parameters: an invariant of one type for both would have to be a proposition, and `Ordered` is none.
// The works stand one by one: `commit` reads one while it writes another, and of a struct behind a reference the borrow checker covers no such loan.
pub fn tick(
    m: &CheckedModel,
    order: &[u32],
    ticks: &[u8],
    fired: Option<Edge>,
    bytes: &mut [u8],
    values: &mut [u8],
    work_exprs: &mut [u8],
    work_signals: &mut [u8],
)
    requires { Room m.now.signals.now m.now.exprs.now bytes.old values.old × (m.now.expr_count ≤ length work_exprs.old) × (m.now.signal_count ≤ length work_signals.old) × Ordered (model_in m.now.signals.now m.now.exprs.now m.now.stmts.now) m.now.expr_count order.now × (looped (model_in m.now.signals.now m.now.exprs.now m.now.stmts.now) ≡ None) × Filled (widths_in m.now.exprs.now) values.old × GoodTicks m.now.signals.now ticks.now × Filled (widths_in m.now.signals.now) bytes.old }
    ensures ticked { Ticks m.now.signals.now m.now.exprs.now m.now.stmts.now ticks.now (firing (fired_of fired)) bytes.old bytes.new }
    ensures filled { Filled (widths_in m.now.exprs.now) values.new }
{
    set_inputs(m, ticks, bytes);
    settle(m, order, bytes, values, work_exprs);
    commit(m, fired, values, work_signals, bytes);
    settle(m, order, bytes, values, work_exprs);
}
