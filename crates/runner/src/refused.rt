// A list of ticks of which none is made: a signal byte is no bit, or the model has a loop.
ghost use Rattle.std.specs.Prelude.{◌≡◌, ◌*◌, ◌/◌, ◌≤◌, length};
ghost use Rattle.std.specs.Prelude.{None};
ghost use Rattle.recorder.specs.Read.{model_of};
ghost use Rattle.recorder.specs.Words.{raw_of};
ghost use Rattle.simulation.specs.Wellformed.{largest, malformed};
ghost use Rattle.simulation.specs.Model.{lists_of};
ghost use Rattle.simulation.specs.Run.{answer_of, fired_of, total, signal_bytes};
ghost use Rattle.evaluation.specs.Ticks.{signals_in};
ghost use Rattle.runner.specs.Calls.{output_width, handed};
ghost use Rattle.runner.specs.Parts.{tick_causes, RunsTicks};
ghost use Rattle.runner.specs.Whole.{among, Stopped};

use crate::fired_by;
use crate::list::{TickList, head_fault};
use crate::show::{end_of, ports_end, put_answer, show};
use model_check::call::input_total;
use refusal::Refusal;
use simulation::index::{count, wide};
use simulation::{Edge, Model};

// What refuses a tick: what stands ahead of its own causes, those, or what stands behind them.
fn tick_refusal(
    ahead: Result<(), Refusal>,
    count: usize,
    inputs: usize,
    asked: usize,
    ticks: &[u8],
    fired: Option<Edge>,
    behind: Result<(), Refusal>,
) -> Result<(), Refusal>
    ensures { answer_of result ≡ among (answer_of ahead) (tick_causes count inputs (handed inputs asked ticks.now) (fired_of fired)) (answer_of behind) }
{
    ahead?;
    head_fault(count, inputs, asked, ticks, fired)?;
    behind
}

// All ticks, each with its answer; the outputs show the bytes as they stand.
pub fn refuse_ticks(
    m: Model,
    list: TickList,
    bytes: &[u8],
    ahead: Result<(), Refusal>,
    behind: Result<(), Refusal>,
    answers: &mut [u64],
    shown: &mut [u8],
)
    requires { (malformed largest (lists_of m) ≡ None) × (signal_bytes (model_of (raw_of (lists_of m))) ≤ length bytes.now) × (2 * (length list.heads.now / 3) ≤ length answers.old) × (total output_width (signals_in m.signals.now) * (length list.heads.now / 3) ≤ length shown.old) × Stopped (lists_of m) bytes.now (answer_of ahead) (answer_of behind) }
    ensures { RunsTicks (lists_of m.entry) list.entry.heads.now list.entry.bits.now bytes.now bytes.now answers.old answers.new shown.old shown.new }
{
    let count = count(m.signals);
    let inputs = input_total(m.signals);
    let ports = ports_end(m.signals);
    let mut at: usize = 0;
    let mut pos: usize = 0;
    let mut to: usize = 0;
    let k = list.heads.len() / 3;
    for i in 0..k {
        let asked = wide(list.heads[at]);
        let end = end_of(list.bits, pos, asked);
        let fired = fired_by(list.heads[at + 1], list.heads[at + 2]);
        let r = tick_refusal(
            ahead,
            count,
            inputs,
            asked,
            &list.bits[pos..end],
            fired,
            behind,
        );
        put_answer(answers, 2 * i, r);
        to = show(m.signals, bytes, shown, to, ports);
        at += 3;
        pos = end;
    }
}
