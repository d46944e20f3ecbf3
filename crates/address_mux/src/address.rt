// The expression of an address, and its match with an index.
ghost use Rattle.std.specs.Prelude.{◌≡◌};
ghost use Rattle.netlist.specs.Reader.{shift_of};
ghost use Rattle.behaviour.specs.Behaviour.{shift_in};
ghost use Rattle.recorder.specs.Calls.{Writes, emitted};
ghost use Rattle.wires.specs.Wires.{wires_in};
ghost use Rattle.wires.specs.Once.{seen_in, Once};
ghost use Rattle.wires.specs.Expressions.{vector_bit, vector_once};
ghost use Rattle.address_mux.specs.Address.{at_most, match_address};

use netlist::Bit;
use netlist::ram::address_shift;
use recorder::{ExprId, Recorder};
use refusal::Refusal;
use wires::Emitter;
use wires::expressions::concat_parts;

// The first bit of an address that counts, by physical width; 0 where that width is not allowed.
pub fn shift_in(physical: u32) -> u32
    ensures { result ≡ shift_in (shift_of physical) }
{
    address_shift(physical).unwrap_or(0)
}

// Bit i of an address; zeros behind it.
fn address_bit<const N: usize>(bits: [Bit; N], i: usize) -> Bit
    ensures { result ≡ vector_bit bits.entry i }
{
    bits.get(i).copied().unwrap_or(Bit::Zero)
}

// So many bits of an address, from the shift on, the highest read first. No depth takes an address of more than 33 bits.
pub fn address_once<const N: usize>(
    emitter: &mut Emitter,
    bits: [Bit; N],
    shift: u32,
    width: u32,
) -> Result<ExprId, Refusal>
    ensures { Once emitter.old (at_most 33 width (vector_once (wires_in emitter.old.map) (seen_in emitter.old) bits.entry shift width)) (emitted result) emitter.new }
{
    let start = shift as usize;
    let end = width as usize;
    if end > 33 {
        return emitter.swept(Err(Refusal::BufferTooShort(end)));
    }
    let mut parts = [0u32; 33];
    for (i, part) in parts[..end].iter_mut().enumerate() {
        let bit = address_bit(bits, start + (end - 1 - i));
        *part = emitter.bit_once(bit)?.0;
    }
    let r = concat_parts(emitter.recorder, &parts, width);
    emitter.swept(r)
}

// Whether an address is an index.
pub fn match_address(
    recorder: &mut Recorder,
    address: ExprId,
    width: u32,
    index: u32,
) -> Result<ExprId, Refusal>
    ensures { Writes recorder.old (match_address address.0 width index) (emitted result) recorder.new }
{
    let k = recorder.constant(width, index)?;
    recorder.equal(address, k)
}
