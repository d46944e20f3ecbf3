// One tick by a plan: of the assigned signals only those are stored that registers ask for, and the outputs.
ghost use Rattle.std.specs.Prelude.{◌≡◌, true, ◌≤◌, length};
ghost use Rattle.std.specs.Prelude.{None};
ghost use Rattle.simulation.specs.Index.{records_in, widths_in, Starts, Driven};
ghost use Rattle.simulation.specs.Run.{fired_of, firing};
ghost use Rattle.simulation.specs.Tick.{looped};
ghost use Rattle.evaluation.specs.Ready.{Prepared, Room, model_in};
ghost use Rattle.evaluation.specs.Ticks.{Filled, GoodTicks};
ghost use Rattle.evaluation.specs.Late.{TicksLate};
ghost use Rattle.model_check.specs.Works.{SameWorks};
ghost use Rattle.runner.specs.Plan.{Planned};
ghost use Rattle.runner.specs.Parts.{LoadsAfter, ShowsAfter};

use crate::code::Code;
use crate::coded::settle_coded;
use crate::commit::commit_listed;
use crate::store::{set_inputs, store_listed};
use crate::tables::CheckedModel;
use model_check::call::Works;
use simulation::Edge;

// The registers load, over signals whose inputs are set.
fn load_late(
    m: &CheckedModel,
    order: &[u32],
    code: Code,
    fired: Option<Edge>,
    bytes: &mut [u8],
    values: &mut [u8],
    marks: &mut [u8],
)
    requires { Room m.now.signals.now m.now.exprs.now bytes.old values.old × (m.now.signal_count ≤ length marks.old) × (looped (model_in m.now.signals.now m.now.exprs.now m.now.stmts.now) ≡ None) × Filled (widths_in m.now.exprs.now) values.old × Filled (widths_in m.now.signals.now) bytes.old × Planned m.now.signals.now m.now.exprs.now m.now.stmts.now m.now.expr_count m.now.signal_count code order.now values.old }
    ensures loaded { LoadsAfter m.now.signals.now m.now.exprs.now m.now.stmts.now (firing (fired_of fired)) bytes.old bytes.new }
    ensures filled { Filled (widths_in m.now.exprs.now) values.new }
{
    settle_coded(
        m,
        order,
        7 * m.expr_count + 3 * m.signal_count,
        code.first,
        code,
        bytes,
        values,
    );
    store_listed(
        m,
        order,
        7 * m.expr_count + m.signal_count,
        code.controls,
        values,
        bytes,
    );
    commit_listed(
        m,
        fired,
        order,
        7 * m.expr_count,
        code.registers,
        values,
        marks,
        bytes,
    );
}

// The outputs take their values.
fn show_late(m: &CheckedModel, order: &[u32], code: Code, bytes: &mut [u8], values: &mut [u8])
    requires { Room m.now.signals.now m.now.exprs.now bytes.old values.old × (looped (model_in m.now.signals.now m.now.exprs.now m.now.stmts.now) ≡ None) × Filled (widths_in m.now.exprs.now) values.old × Filled (widths_in m.now.signals.now) bytes.old × Planned m.now.signals.now m.now.exprs.now m.now.stmts.now m.now.expr_count m.now.signal_count code order.now values.old }
    ensures shows { ShowsAfter m.now.signals.now m.now.exprs.now m.now.stmts.now bytes.old bytes.new }
    ensures filled { Filled (widths_in m.now.exprs.now) values.new }
{
    settle_coded(
        m,
        order,
        8 * m.expr_count + 3 * m.signal_count,
        code.second,
        code,
        bytes,
        values,
    );
    store_listed(
        m,
        order,
        7 * m.expr_count + 2 * m.signal_count,
        code.outputs,
        values,
        bytes,
    );
}

// Inputs, the registers, the outputs.
pub fn tick_late(
    m: &CheckedModel,
    order: &[u32],
    code: Code,
    ticks: &[u8],
    fired: Option<Edge>,
    bytes: &mut [u8],
    works: &mut Works,
)
    requires { Room m.now.signals.now m.now.exprs.now bytes.old works.old.bits.now × (m.now.signal_count ≤ length works.old.signals.now) × (looped (model_in m.now.signals.now m.now.exprs.now m.now.stmts.now) ≡ None) × Filled (widths_in m.now.exprs.now) works.old.bits.now × Filled (widths_in m.now.signals.now) bytes.old × GoodTicks m.now.signals.now ticks.now × Planned m.now.signals.now m.now.exprs.now m.now.stmts.now m.now.expr_count m.now.signal_count code order.now works.old.bits.now }
    ensures ticked { TicksLate m.now.signals.now m.now.exprs.now m.now.stmts.now ticks.now (firing (fired_of fired)) bytes.old bytes.new }
    ensures filled { Filled (widths_in m.now.exprs.now) works.new.bits.now }
    ensures same { SameWorks works.old works.new }
{
    set_inputs(m, ticks, bytes);
    load_late(m, order, code, fired, bytes, works.bits, works.signals);
    show_late(m, order, code, bytes, works.bits);
}
