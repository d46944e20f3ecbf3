// The output ports: what is assigned to their signals, which have the ports' numbers.
ghost use Rattle.netlist.specs.Fields.{port_at};
ghost use Rattle.recorder.specs.Calls.{stated};
ghost use Rattle.wires.specs.Wires.{wires_in};
ghost use Rattle.converter.specs.Emits.{EmitsPort, EmitsPorts};

use netlist::fields::Fields;
use recorder::{Recorder, SignalId};
use refusal::Refusal;
use wires::WireMap;
use wires::expressions::bits_expression;

// Port number p, if it is an output.
fn emit_output(
    recorder: &mut Recorder,
    parts: &mut [u32],
    map: WireMap,
    p: u32,
    port: Fields,
) -> Result<(), Refusal>
    ensures { EmitsPort recorder.old parts.old (wires_in map.entry) p (port_at port.entry.words.now port.entry.at) (stated result) recorder.new }
{
    if port.word(0) != 1 {
        return Ok(());
    }
    let width = port.word(1);
    let n = width as usize;
    let end = n.min(parts.len());
    let value = bits_expression(recorder, &mut parts[..end], map, port.from(2), n, width)?;
    recorder.assign(SignalId(p), value)
}

// The outputs among n ports, from the first one's fields on. `parts` has the words that the widest port takes.
pub fn emit_outputs(
    recorder: &mut Recorder,
    parts: &mut [u32],
    map: WireMap,
    ports: Fields,
    n: u32,
) -> Result<(), Refusal>
    ensures { EmitsPorts recorder.old parts.old (wires_in map.entry) ports.entry.words.now ports.entry.at n (stated result) recorder.new }
{
    let mut port = ports;
    for p in 0..n {
        emit_output(recorder, parts, map, p, port)?;
        port = port.from(2 + port.word(1) as usize);
    }
    Ok(())
}
