// The arms of emit_cell that stand in it, in its order. Each begins a cell.
ghost use Rattle.std.specs.Prelude.{◌≡◌, [], ◌+◌};
ghost use Rattle.netlist.specs.Fields.{bits_at, wires_at};
ghost use Rattle.recorder.specs.Calls.{stated};
ghost use Rattle.wires.specs.Wires.{wires_in};
ghost use Rattle.wires.specs.Once.{seen_in, Once, CellOnce};
ghost use Rattle.wires.specs.Expressions.{read_bits};
ghost use Rattle.cells.specs.Cells.{emit_multiplier, emit_lut4, emit_pfumx, emit_l6mux21, emit_io};
ghost use Rattle.cells.specs.Answers.{read_of};

use netlist::Bit;
use netlist::fields::Fields;
use netlist::records::{Io, L6mux21, Pfumx};
use recorder::ExprId;
use refusal::Refusal;
use wires::Emitter;

// Four inputs, the lowest first.
pub fn read4(emitter: &mut Emitter, inputs: [Bit; 4]) -> Result<[ExprId; 4], Refusal>
    ensures { Once emitter.old (read_bits (wires_in emitter.old.map) (seen_in emitter.old) inputs []) (read_of result) emitter.new }
{
    let a = emitter.bit_once(inputs[0])?;
    let b = emitter.bit_once(inputs[1])?;
    let c = emitter.bit_once(inputs[2])?;
    let d = emitter.bit_once(inputs[3])?;
    Ok([a, b, c, d])
}

// The multiplier whose fields these are.
pub fn emit_multiplier(emitter: &mut Emitter, fields: Fields) -> Result<(), Refusal>
    ensures { CellOnce emitter.old (λ s. emit_multiplier (wires_in emitter.old.map) s (bits_at fields.entry.words.now (fields.entry.at + 1) 18) (bits_at fields.entry.words.now (fields.entry.at + 19) 18) (wires_at fields.entry.words.now (fields.entry.at + 37) 36)) (stated result) emitter.new }
{
    emitter.begin();
    let mut parts = [0u32; 36];
    let lhs = emitter.bits_once(&mut parts, fields.from(1), 18, 36)?;
    let rhs = emitter.bits_once(&mut parts, fields.from(19), 18, 36)?;
    let product = emitter.multiply(lhs, rhs)?;
    emitter.assign_wire(fields.word(37), product)
}

pub fn emit_lut4(
    emitter: &mut Emitter,
    inputs: [Bit; 4],
    output: u32,
    init: u16,
) -> Result<(), Refusal>
    ensures { CellOnce emitter.old (λ s. emit_lut4 (wires_in emitter.old.map) s inputs output init) (stated result) emitter.new }
{
    emitter.begin();
    let ids = read4(emitter, inputs)?;
    let value = emitter.lut_expression(ids, init)?;
    emitter.assign_wire(output, value)
}

pub fn emit_pfumx(emitter: &mut Emitter, cell: Pfumx) -> Result<(), Refusal>
    ensures { CellOnce emitter.old (λ s. emit_pfumx (wires_in emitter.old.map) s cell.lut_true cell.lut_false cell.select cell.output) (stated result) emitter.new }
{
    emitter.begin();
    let select = emitter.bit_once(cell.select)?;
    let high = emitter.bit_once(cell.lut_true)?;
    let low = emitter.bit_once(cell.lut_false)?;
    let value = emitter.mux(select, high, low)?;
    emitter.assign_wire(cell.output, value)
}

pub fn emit_l6mux21(emitter: &mut Emitter, cell: L6mux21) -> Result<(), Refusal>
    ensures { CellOnce emitter.old (λ s. emit_l6mux21 (wires_in emitter.old.map) s cell.data_zero cell.data_one cell.select cell.output) (stated result) emitter.new }
{
    emitter.begin();
    let select = emitter.bit_once(cell.select)?;
    let zero = emitter.bit_once(cell.data_zero)?;
    let one = emitter.bit_once(cell.data_one)?;
    let value = emitter.mux(select, one, zero)?;
    emitter.assign_wire(cell.output, value)
}

pub fn emit_io(emitter: &mut Emitter, cell: Io) -> Result<(), Refusal>
    ensures { CellOnce emitter.old (λ s. emit_io (wires_in emitter.old.map) s cell.pad cell.fabric_output cell.fabric_input cell.tristate) (stated result) emitter.new }
{
    emitter.begin();
    let pad = emitter.bit_once(Bit::Wire(cell.pad))?;
    let driven = emitter.bit_once(cell.fabric_output)?;
    let tristate = emitter.bit_once(cell.tristate)?;
    let resolved = emitter.mux(tristate, pad, driven)?;
    emitter.assign_wire(cell.fabric_input, resolved)
}
