ghost use Rattle.std.specs.Prelude.{◌≡◌, ◌+◌, take};
ghost use Rattle.netlist.specs.Fields.{bits_at};
ghost use Rattle.recorder.specs.Calls.{Writes, emitted};
ghost use Rattle.recorder.specs.Words.{zeroed};
ghost use Rattle.wires.specs.Wires.{wires_in};
ghost use Rattle.wires.specs.Expressions.{levelled, concat_parts, vector_expression, roomy};

use crate::{Emitter, WireMap};
use netlist::fields::Fields;
use recorder::{ExprId, Recorder};
use refusal::Refusal;

// A control that is asserted when it is low has a not.
pub fn levelled(recorder: &mut Recorder, active: u32, e: ExprId) -> Result<ExprId, Refusal>
    ensures { Writes recorder.old (levelled active e.0) (emitted result) recorder.new }
{
    if active == 1 { Ok(e) } else { recorder.not(e) }
}

// A concat of the first parts, the highest first; one stands for itself.
pub fn concat_parts(recorder: &mut Recorder, parts: &[u32], n: u32) -> Result<ExprId, Refusal>
    ensures { Writes recorder.old (roomy n parts.now (concat_parts (take n parts.now))) (emitted result) recorder.new }
{
    let end = n as usize;
    if parts.len() < end {
        return Err(Refusal::BufferTooShort(end));
    }
    if end == 1 {
        return Ok(ExprId(parts[0]));
    }
    recorder.concat(n, &parts[..end])
}

// The vector of the n bits that a record has from a field on, widened by zeros, outside of cells: nothing is shared. The work is cleared again.
pub fn bits_expression(
    recorder: &mut Recorder,
    parts: &mut [u32],
    map: WireMap,
    fields: Fields,
    n: usize,
    width: u32,
) -> Result<ExprId, Refusal>
    ensures wrote { Writes recorder.old (roomy width parts.old (vector_expression (wires_in map.entry) (bits_at fields.entry.words.now fields.entry.at n) 0 width)) (emitted result) recorder.new }
    ensures work { parts.new ≡ zeroed parts.old }
{
    let mut emitter = Emitter {
        recorder,
        seen: &mut [],
        first: 0,
        map,
    };
    emitter.bits_once(parts, fields, n, width)
}
