// The next value of a bank: each flip-flop's input, held while it is not enabled, reset where its reset is synchronous.
ghost use Rattle.std.specs.Prelude.{◌≡◌, length, take, [], ◌≤◌};
ghost use Rattle.recorder.specs.Calls.{Writes, emitted};
ghost use Rattle.wires.specs.Wires.{wires_in};
ghost use Rattle.wires.specs.Expressions.{concat_parts};
ghost use Rattle.lowering.specs.Emit.{with_enable, with_reset, reset_bit as reset_bit_of, reset_bits, next_bit};
ghost use Rattle.converter.specs.Members.{members_left};
ghost use Rattle.converter.specs.Banked.{flop_at};
ghost use Rattle.converter.specs.BankEmits.{next_value};

use crate::members::Members;
use netlist::fields::Fields;
use netlist::{Bit, Control, Reset};
use recorder::{ExprId, Recorder};
use refusal::Refusal;
use wires::WireMap;
use wires::expressions::concat_parts;

fn with_enable(
    recorder: &mut Recorder,
    map: WireMap,
    output: u32,
    enable: Option<Control>,
    next: ExprId,
) -> Result<ExprId, Refusal>
    ensures { Writes recorder.old (with_enable (wires_in map.entry) output enable next.0) (emitted result) recorder.new }
{
    let Some(control) = enable else {
        return Ok(next);
    };
    let held = map.bit_expression(recorder, Bit::Wire(output))?;
    let enabled = map.asserted_expression(recorder, control)?;
    recorder.mux(1, enabled, next, held)
}

// The expression of the value that a reset loads.
fn reset_bit(reset: Option<Reset>) -> ExprId
    ensures { result.0 ≡ reset_bit_of reset }
{
    match reset {
        Some(r) if r.value == 1 => ExprId::ONE,
        _ => ExprId::ZERO,
    }
}

fn with_reset(
    recorder: &mut Recorder,
    map: WireMap,
    reset: Option<Reset>,
    next: ExprId,
) -> Result<ExprId, Refusal>
    ensures { Writes recorder.old (with_reset (wires_in map.entry) reset next.0) (emitted result) recorder.new }
{
    let Some(r) = reset else {
        return Ok(next);
    };
    if r.asynchronous == 1 {
        return Ok(next);
    }
    let control = Control {
        signal: r.signal,
        active: r.active,
    };
    let asserted = map.asserted_expression(recorder, control)?;
    recorder.mux(1, asserted, reset_bit(reset), next)
}

// The next bit of the flip-flop whose fields these are.
fn next_bit(recorder: &mut Recorder, map: WireMap, flop: Fields) -> Result<ExprId, Refusal>
    ensures { Writes recorder.old (next_bit (wires_in map.entry) (flop_at flop.entry.words.now flop.entry.at)) (emitted result) recorder.new }
{
    let input = map.bit_expression(recorder, flop.bit(1))?;
    let kept = with_enable(recorder, map, flop.word(2), flop.optional_control(5), input)?;
    with_reset(recorder, map, flop.optional_reset(8), kept)
}

// The next value of a bank's members, `width` of them: the first is read first, and stands last.
pub fn next_value(
    recorder: &mut Recorder,
    parts: &mut [u32],
    map: WireMap,
    members: Members,
    width: u32,
) -> Result<ExprId, Refusal>
    requires { (width ≤ length parts.old) × (width ≡ length (members_left members)) }
    ensures { Writes recorder.old (next_value (wires_in map.entry) (members_left members.entry)) (emitted result) recorder.new }
{
    let mut left = width as usize;
    for cell in members {
        left -= 1;
        parts[left] = next_bit(recorder, map, cell.fields)?.0;
    }
    concat_parts(recorder, parts, width)
}

// The constants that a reset loads, in the same order.
fn reset_bits(parts: &mut [u32], members: Members, width: u32)
    requires { (width ≤ length parts.old) × (width ≡ length (members_left members)) }
    ensures { take width parts.new ≡ reset_bits (members_left members.entry) [] }
{
    let mut left = width as usize;
    for cell in members {
        left -= 1;
        parts[left] = reset_bit(cell.fields.optional_reset(8)).0;
    }
}

// The value that a bank's reset loads.
pub fn reset_value(
    recorder: &mut Recorder,
    parts: &mut [u32],
    members: Members,
    width: u32,
) -> Result<ExprId, Refusal>
    requires { (width ≤ length parts.old) × (width ≡ length (members_left members)) }
    ensures { Writes recorder.old (concat_parts (reset_bits (members_left members.entry) [])) (emitted result) recorder.new }
{
    reset_bits(parts, members, width);
    concat_parts(recorder, parts, width)
}
