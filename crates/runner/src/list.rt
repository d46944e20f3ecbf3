// A list of ticks on a model that was checked and prepared once.
ghost use Rattle.std.specs.Prelude.{◌≡◌, ◌*◌, ◌/◌, ◌≤◌, length};
ghost use Rattle.std.specs.Prelude.{None, IfSome};
ghost use Rattle.recorder.specs.Lists.{lists};
ghost use Rattle.simulation.specs.Wellformed.{largest, malformed};
ghost use Rattle.simulation.specs.Index.{records_in, widths_in, Starts, Driven};
ghost use Rattle.simulation.specs.Run.{answer_of, fired_of, firing, total, input_width};
ghost use Rattle.simulation.specs.Tick.{looped};
ghost use Rattle.evaluation.specs.Ready.{Prepared, Room, model_in};
ghost use Rattle.evaluation.specs.Late.{TicksLate};
ghost use Rattle.evaluation.specs.Ticks.{Filled, Ordered, GoodTicks, signals_in};
ghost use Rattle.runner.specs.Calls.{output_width, handed};
ghost use Rattle.runner.specs.Parts.{tick_causes, is_made, RunsLate, RunsTicks, Finishes};
ghost use Rattle.model_check.specs.Works.{SameWorks};
ghost use Rattle.runner.specs.Plan.{Planned};

use crate::code::Code;
use crate::fired_by;
use crate::late::tick_late;
use crate::settling::settle;
use crate::show::{end_of, put_answer, show};
use crate::tables::CheckedModel;
use crate::ticks::tick;
use model_check::call::{Works, tick_fault};
use refusal::Refusal;
use simulation::Edge;
use simulation::index::wide;

// A list of ticks: three words each in `heads`, their bits one after the other.
#[derive(Clone, Copy)]
pub struct TickList<'a> {
    pub heads: &'a [u32],
    pub bits: &'a [u8],
}

// One tick, by the plan if there is one.
fn tick_either(
    m: &CheckedModel,
    order: &[u32],
    code: Option<Code>,
    ticks: &[u8],
    fired: Option<Edge>,
    bytes: &mut [u8],
    works: &mut Works,
)
    requires { Room m.now.signals.now m.now.exprs.now bytes.old works.old.bits.now × (m.now.expr_count ≤ length works.old.exprs.now) × (m.now.signal_count ≤ length works.old.signals.now) × Ordered (model_in m.now.signals.now m.now.exprs.now m.now.stmts.now) m.now.expr_count order.now × (looped (model_in m.now.signals.now m.now.exprs.now m.now.stmts.now) ≡ None) × Filled (widths_in m.now.exprs.now) works.old.bits.now × Filled (widths_in m.now.signals.now) bytes.old × GoodTicks m.now.signals.now ticks.now × IfSome code (λ c. Planned m.now.signals.now m.now.exprs.now m.now.stmts.now m.now.expr_count m.now.signal_count c order.now works.old.bits.now) }
    ensures ticked { TicksLate m.now.signals.now m.now.exprs.now m.now.stmts.now ticks.now (firing (fired_of fired)) bytes.old bytes.new }
    ensures filled { Filled (widths_in m.now.exprs.now) works.new.bits.now }
    ensures same { SameWorks works.old works.new }
{
    match code {
        Some(code) => tick_late(m, order, code, ticks, fired, bytes, works),
        None => tick(
            m,
            order,
            ticks,
            fired,
            bytes,
            works.bits,
            works.exprs,
            works.signals,
        ),
    }
}

// 14 for one tick of which `asked` bits are asked for and `ticks` are there.
pub fn head_fault(
    count: usize,
    inputs: usize,
    asked: usize,
    ticks: &[u8],
    fired: Option<Edge>,
) -> Result<(), Refusal>
    ensures { answer_of result ≡ tick_causes count inputs (handed inputs asked ticks.now) (fired_of fired) }
{
    if ticks.len() < asked {
        return Err(Refusal::BadTick(inputs));
    }
    tick_fault(count, inputs, ticks, fired)
}

// One tick of a model of `inputs` input bits, unless it is refused.
fn run_tick(
    m: &CheckedModel,
    order: &[u32],
    code: Option<Code>,
    inputs: usize,
    asked: usize,
    ticks: &[u8],
    fired: Option<Edge>,
    bytes: &mut [u8],
    works: &mut Works,
) -> Result<(), Refusal>
    requires { Room m.now.signals.now m.now.exprs.now bytes.old works.old.bits.now × (m.now.expr_count ≤ length works.old.exprs.now) × (m.now.signal_count ≤ length works.old.signals.now) × Ordered (model_in m.now.signals.now m.now.exprs.now m.now.stmts.now) m.now.expr_count order.now × (looped (model_in m.now.signals.now m.now.exprs.now m.now.stmts.now) ≡ None) × Filled (widths_in m.now.exprs.now) works.old.bits.now × Filled (widths_in m.now.signals.now) bytes.old × (inputs ≡ total input_width (signals_in m.now.signals.now)) × IfSome code (λ c. Planned m.now.signals.now m.now.exprs.now m.now.stmts.now m.now.expr_count m.now.signal_count c order.now works.old.bits.now) }
    ensures answered { answer_of result ≡ tick_causes m.now.signal_count inputs (handed inputs asked ticks.now) (fired_of fired) }
    ensures runs { RunsLate m.now.signals.now m.now.exprs.now m.now.stmts.now (handed inputs asked ticks.now) (fired_of fired) (answer_of result) bytes.old bytes.new }
    ensures filled { Filled (widths_in m.now.exprs.now) works.new.bits.now }
    ensures same { SameWorks works.old works.new }
{
    head_fault(m.signal_count, inputs, asked, ticks, fired)?;
    tick_either(m, order, code, ticks, fired, bytes, works);
    Ok(())
}

// Behind the last tick every assigned signal takes its value, if a tick was made.
fn finish(m: &CheckedModel, order: &[u32], late: bool, bytes: &mut [u8], works: &mut Works)
    requires { Room m.now.signals.now m.now.exprs.now bytes.old works.old.bits.now × (m.now.expr_count ≤ length works.old.exprs.now) × Ordered (model_in m.now.signals.now m.now.exprs.now m.now.stmts.now) m.now.expr_count order.now × (looped (model_in m.now.signals.now m.now.exprs.now m.now.stmts.now) ≡ None) × Filled (widths_in m.now.exprs.now) works.old.bits.now }
    ensures finishes { Finishes m.now.signals.now m.now.exprs.now m.now.stmts.now late bytes.old bytes.new }
    ensures same { SameWorks works.old works.new }
{
    if !late {
        return;
    }
    settle(m, order, bytes, works.bits, works.exprs);
}

// All ticks of a list.
pub fn run_ticks(
    m: &CheckedModel,
    order: &[u32],
    code: Option<Code>,
    inputs: usize,
    list: TickList,
    bytes: &mut [u8],
    works: &mut Works,
    answers: &mut [u64],
    shown: &mut [u8],
)
    requires { Room m.now.signals.now m.now.exprs.now bytes.old works.old.bits.now × (m.now.expr_count ≤ length works.old.exprs.now) × (m.now.signal_count ≤ length works.old.signals.now) × Ordered (model_in m.now.signals.now m.now.exprs.now m.now.stmts.now) m.now.expr_count order.now × (looped (model_in m.now.signals.now m.now.exprs.now m.now.stmts.now) ≡ None) × Filled (widths_in m.now.exprs.now) works.old.bits.now × Filled (widths_in m.now.signals.now) bytes.old × (inputs ≡ total input_width (signals_in m.now.signals.now)) × (2 * (length list.heads.now / 3) ≤ length answers.old) × (total output_width (signals_in m.now.signals.now) * (length list.heads.now / 3) ≤ length shown.old) × (malformed largest (lists m.now.signals.now m.now.exprs.now m.now.stmts.now) ≡ None) × IfSome code (λ c. Planned m.now.signals.now m.now.exprs.now m.now.stmts.now m.now.expr_count m.now.signal_count c order.now works.old.bits.now) }
    ensures runs { RunsTicks (lists m.now.signals.now m.now.exprs.now m.now.stmts.now) list.entry.heads.now list.entry.bits.now bytes.old bytes.new answers.old answers.new shown.old shown.new }
    ensures same { SameWorks works.old works.new }
{
    let mut at: usize = 0;
    let mut pos: usize = 0;
    let mut to: usize = 0;
    let mut late = false;
    let k = list.heads.len() / 3;
    for i in 0..k {
        let asked = wide(list.heads[at]);
        let end = end_of(list.bits, pos, asked);
        let fired = fired_by(list.heads[at + 1], list.heads[at + 2]);
        let r = run_tick(
            m,
            order,
            code,
            inputs,
            asked,
            &list.bits[pos..end],
            fired,
            bytes,
            works,
        );
        late = late | r.is_ok();
        put_answer(answers, 2 * i, r);
        to = show(m.signals, bytes, shown, to, m.ports);
        at += 3;
        pos = end;
    }
    finish(m, order, late, bytes, works);
}
