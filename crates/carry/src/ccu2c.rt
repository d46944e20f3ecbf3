ghost use Rattle.std.specs.Prelude.{◌≡◌, eqb};
ghost use Rattle.bits.specs.Bits.{pick};
ghost use Rattle.recorder.specs.Calls.{emitted, stated};
ghost use Rattle.wires.specs.Wires.{wires_in};
ghost use Rattle.wires.specs.Once.{seen_in, Once, CellOnce};
ghost use Rattle.cells.specs.Cells.{ccu_row, emit_ccu2c};
ghost use Rattle.cells.specs.Answers.{ccu_of};

use cells::emit::read4;
use netlist::Bit;
use recorder::ExprId;
use refusal::Refusal;
use wires::Emitter;

// The carry that a row sees.
fn gated_carry(inject: u32, carry: ExprId) -> ExprId
    ensures { result.0 ≡ pick (eqb inject 1) 0 carry.0 }
{
    if inject == 1 { ExprId::ZERO } else { carry }
}

// A row: its sum is assigned, the next carry answered.
fn emit_slice(
    emitter: &mut Emitter,
    inputs: [Bit; 4],
    init: u16,
    inject: u32,
    sum: u32,
    carry: ExprId,
) -> Result<ExprId, Refusal>
    ensures { Once emitter.old (ccu_row (wires_in emitter.old.map) (seen_in emitter.old) inputs init inject sum carry.0) (emitted result) emitter.new }
{
    let gated = gated_carry(inject, carry);
    let ids = read4(emitter, inputs)?;
    let lut4 = emitter.lut_expression(ids, init)?;
    let lut2 = emitter.lut_expression([ids[0], ids[1], ExprId::ZERO, ExprId::ZERO], init)?;
    let value = emitter.xor(lut4, gated)?;
    emitter.assign_wire(sum, value)?;
    emitter.mux(lut4, gated, lut2)
}

pub fn emit_ccu2c(
    emitter: &mut Emitter,
    inputs: [[Bit; 4]; 2],
    carry_in: Bit,
    sums: [u32; 2],
    carry_out: u32,
    init: [u16; 2],
    inject: [u32; 2],
) -> Result<(), Refusal>
    ensures { CellOnce emitter.old (λ s. emit_ccu2c (wires_in emitter.old.map) s (ccu_of inputs carry_in sums carry_out init inject)) (stated result) emitter.new }
{
    emitter.begin();
    let [row0, row1] = inputs;
    let carry = emitter.bit_once(carry_in)?;
    let carry1 = emit_slice(emitter, row0, init[0], inject[0], sums[0], carry)?;
    let carry2 = emit_slice(emitter, row1, init[1], inject[1], sums[1], carry1)?;
    emitter.assign_wire(carry_out, carry2)
}
