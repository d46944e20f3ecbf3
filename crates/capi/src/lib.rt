// Lowering, one tick and a whole list of ticks for programs in other languages: each slice is a pointer and a count of its elements,
// so the buffers stand one by one: C has no structs of Rattle's slices.
// Every function answers the refusal's number, or 0, and puts its numbers into `answer`, as many as fit; one shorter than 8 is refused with 1,
// after lowering's works or a run's buffers. The call that is made then reads no words, or fires an edge that there is not, so that it is refused too.

#![tactic(auto)]

mod hand; // hand.rt: answers as numbers

ghost use Rattle.std.specs.Prelude.{[], ◌∷◌};
ghost use Rattle.recorder.specs.Lists.{lists};
ghost use Rattle.simulation.specs.Fault.{call_of};
ghost use Rattle.runner.specs.Calls.{fired_by};
ghost use Rattle.simulator.specs.Entry.{simulation, Zeroed};
ghost use Rattle.capi.specs.Answer.{HandsLowered, HandsRan, HandsSimulated};

use converter::lower;
use hand::{fired_for, hand_lowered, hand_ran, lowered_for, ran_for, words_for};
use runner::{fired_by, run};
use simulator::simulate;

// A netlist's model in the three lists.
#[unsafe(no_mangle)]
pub extern "C" fn reamerpoppy_lower(
    words: &[u32],
    signals: &mut [u32],
    exprs: &mut [u32],
    stmts: &mut [u32],
    wires: &mut [u32],
    places: &mut [u32],
    parts: &mut [u32],
    values: &mut [u32],
    banks: &mut [u32],
    answer: &mut [u64],
) -> usize
    ensures { HandsLowered words.now (lists signals.old exprs.old stmts.old) (wires.old ∷ places.old ∷ parts.old ∷ values.old ∷ banks.old ∷ []) answer.old result (lists signals.new exprs.new stmts.new) (wires.new ∷ places.new ∷ parts.new ∷ values.new ∷ banks.new ∷ []) answer.new }
{
    let room = answer.len();
    let used = words_for(room, words.len());
    let lowered = lower(
        &words[..used],
        signals,
        exprs,
        stmts,
        wires,
        places,
        parts,
        values,
        banks,
    );
    hand_lowered(answer, lowered_for(room, lowered))
}

// One tick of a model: `fires` is 0 (nothing), 1 (a rising edge) or 2 (a falling edge) of signal number `signal`.
#[unsafe(no_mangle)]
pub extern "C" fn reamerpoppy_run(
    signals: &[u32],
    exprs: &[u32],
    stmts: &[u32],
    bytes: &mut [u8],
    ticks: &[u8],
    fires: u32,
    signal: u32,
    work_bits: &mut [u8],
    work_exprs: &mut [u8],
    work_signals: &mut [u8],
    answer: &mut [u64],
) -> usize
    ensures { HandsRan (call_of (lists signals.now exprs.now stmts.now) bytes.old ticks.now (fired_by fires signal) work_bits.old work_exprs.old work_signals.old) answer.old result bytes.new work_bits.new work_exprs.new work_signals.new answer.new }
{
    let room = answer.len();
    let fired = fired_for(room, fired_by(fires, signal));
    let ran = run(
        signals,
        exprs,
        stmts,
        bytes,
        ticks,
        fired,
        work_bits,
        work_exprs,
        work_signals,
    );
    hand_ran(answer, ran_for(room, ran))
}

// A netlist and a list of ticks, as `simulator::simulate` takes them.
#[unsafe(no_mangle)]
pub extern "C" fn reamerpoppy_simulate(
    words: &[u32],
    heads: &[u32],
    bits: &[u8],
    signals: &mut [u32],
    exprs: &mut [u32],
    stmts: &mut [u32],
    wires: &mut [u32],
    places: &mut [u32],
    parts: &mut [u32],
    values: &mut [u32],
    banks: &mut [u32],
    bytes: &mut [u8],
    work_bits: &mut [u8],
    work_exprs: &mut [u8],
    work_signals: &mut [u8],
    answers: &mut [u64],
    shown: &mut [u8],
    answer: &mut [u64],
) -> usize
    ensures simulates { HandsSimulated (simulation words.now heads.now bits.now (lists signals.old exprs.old stmts.old) (wires.old ∷ places.old ∷ parts.old ∷ values.old ∷ banks.old ∷ []) bytes.old work_bits.old work_exprs.old work_signals.old answers.old shown.old) answer.old result (lists signals.new exprs.new stmts.new) answers.new shown.new answer.new }
    ensures works { Zeroed (wires.old ∷ places.old ∷ parts.old ∷ values.old ∷ banks.old ∷ bytes.old ∷ work_bits.old ∷ work_exprs.old ∷ work_signals.old ∷ []) (wires.new ∷ places.new ∷ parts.new ∷ values.new ∷ banks.new ∷ bytes.new ∷ work_bits.new ∷ work_exprs.new ∷ work_signals.new ∷ []) }
{
    let room = answer.len();
    let used = words_for(room, words.len());
    let simulated = simulate(
        &words[..used],
        heads,
        bits,
        signals,
        exprs,
        stmts,
        wires,
        places,
        parts,
        values,
        banks,
        bytes,
        work_bits,
        work_exprs,
        work_signals,
        answers,
        shown,
    );
    hand_lowered(answer, lowered_for(room, simulated))
}
