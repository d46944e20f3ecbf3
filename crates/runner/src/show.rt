// What a list of ticks reads and shows: each tick's head, its answer, the outputs after it.
ghost use Rattle.std.specs.Prelude.{◌≡◌, ◌+◌, ◌*◌, ◌≤◌, min, length};
ghost use Rattle.recorder.specs.Lists.{over};
ghost use Rattle.simulation.specs.Index.{records_in, widths_in, offset as sum_to};
ghost use Rattle.simulation.specs.Run.{answer_of, total, flat};
ghost use Rattle.simulation.specs.Shown.{shown_bytes};
ghost use Rattle.evaluation.specs.Late.{PortsBefore};
ghost use Rattle.evaluation.specs.Ticks.{ReadSignals, signals_in};
ghost use Rattle.runner.specs.Calls.{output_width, answer_words};

use crate::bytes::copy;
use crate::kinds::OUTPUT;
use refusal::Refusal;
use simulation::index::wide;
use simulation::records::Records;

// The widths of all outputs together.
pub fn output_total(signals: &[u32]) -> usize
    requires { ReadSignals signals.now × (sum_to (widths_in signals.now) (length (records_in signals.now)) ≤ 18446744073709551615) }
    ensures { result ≡ total output_width (signals_in signals.now) }
{
    let mut sum: usize = 0;
    for fields in Records::new(signals) {
        if fields[0] == OUTPUT {
            sum += wide(fields[1]);
        }
    }
    sum
}

// A word before which all ports begin.
pub fn ports_end(signals: &[u32]) -> usize
    requires { ReadSignals signals.now }
    ensures { PortsBefore signals.now result }
{
    let mut at: usize = 0;
    let mut end: usize = 0;
    for fields in Records::new(signals) {
        at += fields.len() + 1;
        if fields[0] <= OUTPUT {
            end = at;
        }
    }
    end
}

// The output signals' bytes, one after the other, from an index on; the index behind them. All of them begin before a word.
pub fn show(signals: &[u32], bytes: &[u8], shown: &mut [u8], from: usize, until: usize) -> usize
    requires { ReadSignals signals.now × (sum_to (widths_in signals.now) (length (records_in signals.now)) ≤ length bytes.now) × (from + total output_width (signals_in signals.now) ≤ length shown.old) × PortsBefore signals.now until }
    ensures end { result ≡ from + total output_width (signals_in signals.now) }
    ensures shows { shown.new ≡ over shown.old from (flat (shown_bytes (signals_in signals.now) bytes.now)) }
{
    let mut at: usize = 0;
    let mut pos: usize = 0;
    let mut to = from;
    for fields in Records::new(signals) {
        if at >= until {
            return to;
        }
        let width = wide(fields[1]);
        if fields[0] == OUTPUT {
            copy(shown, to, bytes, pos, width);
            to += width;
        }
        pos += width;
        at += fields.len() + 1;
    }
    to
}

// A tick's answer as two numbers, from an index on.
pub fn put_answer(answers: &mut [u64], at: usize, r: Result<(), Refusal>)
    requires { at + 2 ≤ length answers.old }
    ensures { answers.new ≡ over answers.old at (answer_words (answer_of r)) }
{
    match r {
        Ok(()) => {
            answers[at] = 0;
            answers[at + 1] = 0;
        }
        Err(x) => {
            answers[at] = x.number() as u64;
            answers[at + 1] = x.place() as u64;
        }
    }
}

// The end of n bits from an index on, as far as there are any.
pub fn end_of(bits: &[u8], pos: usize, n: usize) -> usize
    requires { pos ≤ length bits.now }
    ensures { result ≡ min (pos + n) (length bits.now) }
{
    pos.saturating_add(n).min(bits.len())
}
