ghost use Rattle.std.specs.Prelude.{◌||◌, ◌+◌, eqb};
ghost use Rattle.bits.specs.Bits.{pick};
ghost use Rattle.netlist.specs.Fields.{word_at, wires_at};
ghost use Rattle.recorder.specs.Writer.{pure};
ghost use Rattle.recorder.specs.Calls.{Writes, stated};
ghost use Rattle.wires.specs.Wires.{wires_in};
ghost use Rattle.wires.specs.Expressions.{assign_wire};
ghost use Rattle.cells.specs.Cells.{pll_clocks, emit_cycle_pll};
ghost use Rattle.cells.specs.Answers.{pll_of};

use netlist::fields::Fields;
use recorder::{ExprId, Recorder};
use refusal::Refusal;
use wires::WireMap;

// A wire, unless it is this other one.
fn assign_unless(
    recorder: &mut Recorder,
    map: WireMap,
    other: u32,
    wire: u32,
    value: ExprId,
) -> Result<(), Refusal>
    ensures { Writes recorder.old (pick (eqb wire other) (pure tt) (assign_wire (wires_in map.entry) wire value.0)) (stated result) recorder.new }
{
    if wire == other {
        return Ok(());
    }
    map.assign_wire(recorder, wire, value)
}

// A further clock, unless it is the feedback or the output.
fn assign_clock(
    recorder: &mut Recorder,
    map: WireMap,
    feedback: u32,
    output: u32,
    wire: u32,
    value: ExprId,
) -> Result<(), Refusal>
    ensures { Writes recorder.old (pick (eqb wire feedback || eqb wire output) (pure tt) (assign_wire (wires_in map.entry) wire value.0)) (stated result) recorder.new }
{
    if wire == feedback {
        return Ok(());
    }
    assign_unless(recorder, map, output, wire, value)
}

// The n further clocks.
fn assign_clocks(
    recorder: &mut Recorder,
    map: WireMap,
    fields: Fields,
    n: usize,
    feedback: u32,
    output: u32,
    value: ExprId,
) -> Result<(), Refusal>
    ensures { Writes recorder.old (pll_clocks (wires_in map.entry) feedback output (wires_at fields.entry.words.now (fields.entry.at + 6) n) value.0) (stated result) recorder.new }
{
    let clocks = fields.from(6);
    for i in 0..n {
        assign_clock(recorder, map, feedback, output, clocks.word(i), value)?;
    }
    Ok(())
}

pub fn emit_cycle_pll(recorder: &mut Recorder, map: WireMap, fields: Fields) -> Result<(), Refusal>
    ensures { Writes recorder.old (emit_cycle_pll (wires_in map.entry) (pll_of fields.entry.words.now fields.entry.at)) (stated result) recorder.new }
{
    let feedback = fields.word(2);
    let output = fields.word(3);
    let reference = map.bit_expression(recorder, fields.bit(1))?;
    map.assign_wire(recorder, feedback, reference)?;
    assign_unless(recorder, map, feedback, output, reference)?;
    let clocks = fields.word(5) as usize;
    assign_clocks(recorder, map, fields, clocks, feedback, output, reference)?;
    map.assign_wire(recorder, fields.word(4), ExprId::ONE)
}
