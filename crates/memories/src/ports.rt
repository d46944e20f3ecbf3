// The expressions of a RAM's ports.
ghost use Rattle.std.specs.Prelude.{◌≡◌, [], ◌+◌, ◌≤◌, length, get_or, IfOk, IfSome};
ghost use Rattle.netlist.specs.Fields.{word_at, bits_at, wires_at, ram_at};
ghost use Rattle.recorder.specs.Calls.{emitted};
ghost use Rattle.wires.specs.Wires.{wires_in};
ghost use Rattle.wires.specs.Once.{seen_in, Once};
ghost use Rattle.wires.specs.Expressions.{bits_once};
ghost use Rattle.memories.specs.Memories.{gate, second_exprs};
ghost use Rattle.memories.specs.Rams.{gated, ported, seconded, first_exprs, dram_exprs, dram_at, addressed, second_addressed, dram_addressed};
ghost use Rattle.memories.specs.Steps.{second_at};

use crate::{Gate, Port};
use address_mux::address::address_once;
use netlist::fields::Fields;
use netlist::{Bit, Control};
use recorder::ExprId;
use refusal::Refusal;
use wires::Emitter;

// The n bits at an offset of a record.
fn data_expression(
    emitter: &mut Emitter,
    parts: &mut [u32],
    fields: Fields,
    offset: usize,
    n: u32,
) -> Result<ExprId, Refusal>
    requires { n ≤ length parts.old }
    ensures { Once emitter.old (bits_once (wires_in emitter.old.map) (seen_in emitter.old) (bits_at fields.entry.words.now (fields.entry.at + offset) n)) (emitted result) emitter.new }
{
    let end = n as usize;
    emitter.bits_once(&mut parts[..end], fields.from(offset), end, n)
}

// Whether a port writes, by its write control and, if it is there, its clock enable.
fn gate(
    emitter: &mut Emitter,
    write: Control,
    clock_enable: Option<Control>,
) -> Result<Gate, Refusal>
    ensures { Once emitter.old (gate (wires_in emitter.old.map) (seen_in emitter.old) write clock_enable) (gated result) emitter.new }
{
    let asserted = emitter.asserted_once(write)?;
    match clock_enable {
        None => Ok(Gate {
            write_asserted: asserted,
            clock_enabled: None,
        }),
        Some(control) => {
            let enabled = emitter.asserted_once(control)?;
            let both = emitter.and(asserted, enabled)?;
            Ok(Gate {
                write_asserted: both,
                clock_enabled: Some(enabled),
            })
        }
    }
}

// The first port of a block RAM, whose addresses have so many bits from the shift on.
pub fn first_port(
    emitter: &mut Emitter,
    parts: &mut [u32],
    fields: Fields,
    write_address: [Bit; 14],
    read_address: [Bit; 14],
    shift: u32,
    address: u32,
) -> Result<Port, Refusal>
    requires { (address ≤ 33) × (word_at fields.words.now (fields.at + 2) ≤ length parts.old) }
    ensures wrote { Once emitter.old (first_exprs (wires_in emitter.old.map) (seen_in emitter.old) shift address (addressed (ram_at fields.entry.words.now fields.entry.at) write_address read_address [])) (ported (ram_at fields.entry.words.now fields.entry.at).output result) emitter.new }
    ensures wire { IfOk result (λ p. p.read_data ≡ get_or (ram_at fields.entry.words.now fields.entry.at).output 0 0) }
{
    let width = fields.word(2);
    let writes = address_once(emitter, write_address, shift, address)?;
    let reads = address_once(emitter, read_address, shift, address)?;
    let data = data_expression(emitter, parts, fields, 43, width)?;
    let gate = gate(emitter, fields.control(18), fields.optional_control(37))?;
    Ok(Port {
        write_address: writes,
        write_data: data,
        write_asserted: gate.write_asserted,
        read_address: reads,
        read_data: first_wire(fields, 43 + width as usize, width),
        read_enable: fields.optional_control(34),
        clock_enabled: gate.clock_enabled,
    })
}

// The first of n wires at an offset of a record.
fn first_wire(fields: Fields, offset: usize, n: u32) -> u32
    ensures { result ≡ get_or (wires_at fields.entry.words.now (fields.entry.at + offset) n) 0 0 }
{
    if n == 0 { 0 } else { fields.word(offset) }
}

// The second port of a block RAM, if it has one; its one address serves both.
pub fn second_port(
    emitter: &mut Emitter,
    parts: &mut [u32],
    fields: Fields,
    second_address: [Bit; 14],
    shift: u32,
    address: u32,
) -> Result<Option<Port>, Refusal>
    requires { (address ≤ 33) × (word_at fields.words.now (fields.at + 2) ≤ length parts.old) }
    ensures wrote { Once emitter.old (second_exprs (wires_in emitter.old.map) (seen_in emitter.old) shift address (second_addressed (ram_at fields.entry.words.now fields.entry.at).second second_address)) (seconded (second_at fields.entry.words.now fields.entry.at).output result) emitter.new }
    ensures wire { IfOk result (λ b. IfSome b (λ p. p.read_data ≡ get_or (second_at fields.entry.words.now fields.entry.at).output 0 0)) }
{
    if fields.word(42) == 0 {
        return Ok(None);
    }
    let width = fields.word(2);
    let second = fields.second_port();
    let addressed = address_once(emitter, second_address, shift, address)?;
    let data = data_expression(emitter, parts, second, 24, width)?;
    let gate = gate(emitter, second.control(14), second.optional_control(19))?;
    Ok(Some(Port {
        write_address: addressed,
        write_data: data,
        write_asserted: gate.write_asserted,
        read_address: addressed,
        read_data: first_wire(second, 24 + width as usize, width),
        read_enable: second.optional_control(16),
        clock_enabled: gate.clock_enabled,
    }))
}

// The port of a distributed RAM.
pub fn dram_port(
    emitter: &mut Emitter,
    fields: Fields,
    write_address: [Bit; 4],
    read_address: [Bit; 4],
) -> Result<Port, Refusal>
    ensures { Once emitter.old (dram_exprs (wires_in emitter.old.map) (seen_in emitter.old) (dram_addressed (dram_at fields.entry.words.now fields.entry.at) write_address read_address)) (ported (dram_at fields.entry.words.now fields.entry.at).output result) emitter.new }
{
    let input: [Bit; 4] = fields.bits(5);
    let writes = address_once(emitter, write_address, 0, 4)?;
    let reads = address_once(emitter, read_address, 0, 4)?;
    let data = address_once(emitter, input, 0, 4)?;
    let asserted = emitter.asserted_once(fields.control(9))?;
    Ok(Port {
        write_address: writes,
        write_data: data,
        write_asserted: asserted,
        read_address: reads,
        read_data: fields.word(15),
        read_enable: None,
        clock_enabled: None,
    })
}
