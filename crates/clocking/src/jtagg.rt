ghost use Rattle.std.specs.Prelude.{◌+◌};
ghost use Rattle.netlist.specs.Fields.{wires_at};
ghost use Rattle.recorder.specs.Calls.{Writes, stated};
ghost use Rattle.wires.specs.Wires.{wires_in};
ghost use Rattle.cells.specs.Cells.{assign_all, emit_idle_jtagg};

use netlist::fields::Fields;
use recorder::{ExprId, Recorder};
use refusal::Refusal;
use wires::WireMap;

// The n wires that stand from an offset on.
fn assign_all(
    recorder: &mut Recorder,
    map: WireMap,
    fields: Fields,
    offset: usize,
    n: usize,
    value: ExprId,
) -> Result<(), Refusal>
    ensures { Writes recorder.old (assign_all (wires_in map.entry) (wires_at fields.entry.words.now (fields.entry.at + offset) n) value.0) (stated result) recorder.new }
{
    let wires = fields.from(offset);
    for i in 0..n {
        map.assign_wire(recorder, wires.word(i), value)?;
    }
    Ok(())
}

// A JTAGG: all its outputs are 0, but reset_n, the last assigned, is 1.
pub fn emit_idle_jtagg(recorder: &mut Recorder, map: WireMap, fields: Fields) -> Result<(), Refusal>
    ensures { Writes recorder.old (emit_idle_jtagg (wires_in map.entry) (wires_at fields.entry.words.now (fields.entry.at + 1) 9)) (stated result) recorder.new }
{
    assign_all(recorder, map, fields, 1, 6, ExprId::ZERO)?;
    assign_all(recorder, map, fields, 8, 2, ExprId::ZERO)?;
    map.assign_wire(recorder, fields.word(7), ExprId::ONE)
}
