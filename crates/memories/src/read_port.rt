// A read port: the word at its address is loaded into a register.
ghost use Rattle.std.specs.Prelude.{◌≡◌};
ghost use Rattle.recorder.specs.Calls.{Writes, emitted, stated, ended, enable_of as recorded};
ghost use Rattle.wires.specs.Wires.{wires_in};
ghost use Rattle.wires.specs.Expressions.{Reads};
ghost use Rattle.address_mux.specs.Candidates.{SameWorks};
ghost use Rattle.memories.specs.Memories.{enable_of, own_expression, next_read, emit_block_ram_read_port, emit_second_read_port};
ghost use Rattle.memories.specs.Rams.{expr_in, port_in, second_in, words_of, Roomy, read_register};

use crate::select::select_word;
use crate::{Port, RamShape, Words};
use address_mux::Works;
use netlist::Control;
use recorder::{Enable, ExprId, Recorder, SignalId};
use refusal::Refusal;
use wires::WireMap;

// The signal of a read enable, if there is one.
fn enable_of(map: WireMap, enable: Option<Control>) -> Result<Option<Enable>, Refusal>
    ensures { Reads (enable_of (wires_in map.entry) map.entry.constants enable) (ended recorded result) }
{
    match enable {
        Some(control) => Ok(Some(Enable {
            signal: map.bit_signal(control.signal)?,
            active: control.active,
        })),
        None => Ok(None),
    }
}

// The read of a read register's own signal: it stands already, or it is recorded.
fn own_expression(
    recorder: &mut Recorder,
    own: Option<ExprId>,
    width: u32,
    target: SignalId,
) -> Result<ExprId, Refusal>
    ensures { Writes recorder.old (own_expression (expr_in own) width target.0) (emitted result) recorder.new }
{
    match own {
        Some(e) => Ok(e),
        None => recorder.read(width, target, 0),
    }
}

// What a read register takes: the selected word, and with a clock enable its own where that is not asserted.
fn next_read(
    recorder: &mut Recorder,
    clock_enabled: Option<ExprId>,
    own: Option<ExprId>,
    width: u32,
    target: SignalId,
    value: ExprId,
) -> Result<ExprId, Refusal>
    ensures { Writes recorder.old (next_read (expr_in clock_enabled) (expr_in own) width target.0 value.0) (emitted result) recorder.new }
{
    match clock_enabled {
        Some(enabled) => {
            let kept = own_expression(recorder, own, width, target)?;
            recorder.mux(width, enabled, value, kept)
        }
        None => Ok(value),
    }
}

// The register of the signal that a port reads to.
fn read_register(
    recorder: &mut Recorder,
    map: WireMap,
    shape: RamShape,
    port: Port,
    own: Option<ExprId>,
    value: ExprId,
) -> Result<(), Refusal>
    ensures { Writes recorder.old (read_register (wires_in map.entry) map.entry.constants port.read_data port.read_enable (expr_in port.clock_enabled) (expr_in own) shape.width value.0 shape.clock.0 shape.edge) (stated result) recorder.new }
{
    let target = map.find(port.read_data)?.signal;
    let enable = enable_of(map, port.read_enable)?;
    let next = next_read(
        recorder,
        port.clock_enabled,
        own,
        shape.width,
        target,
        value,
    )?;
    recorder.register(target, next, shape.clock, shape.edge, None, enable)
}

pub fn emit_block_ram_read_port(
    recorder: &mut Recorder,
    works: &mut Works,
    map: WireMap,
    words: Words,
    shape: RamShape,
    port: Port,
    own: Option<ExprId>,
) -> Result<(), Refusal>
    requires { Roomy words.depth works.old }
    ensures wrote { Writes recorder.old (emit_block_ram_read_port (wires_in map.entry) map.entry.constants (port_in port) (expr_in own) (words_of words) shape.width shape.address shape.clock.0 shape.edge) (stated result) recorder.new }
    ensures works { SameWorks works.old works.new }
{
    let value = select_word(
        recorder,
        works,
        words,
        port.read_address,
        shape.width,
        shape.address,
    )?;
    read_register(recorder, map, shape, port, own, value)
}

// The same of a second port, if there is one.
pub fn emit_second_read_port(
    recorder: &mut Recorder,
    works: &mut Works,
    map: WireMap,
    words: Words,
    shape: RamShape,
    second: Option<Port>,
    own: Option<ExprId>,
) -> Result<(), Refusal>
    requires { Roomy words.depth works.old }
    ensures wrote { Writes recorder.old (emit_second_read_port (wires_in map.entry) map.entry.constants (second_in second) (expr_in own) (words_of words) shape.width shape.address shape.clock.0 shape.edge) (stated result) recorder.new }
    ensures works { SameWorks works.old works.new }
{
    match second {
        Some(port) => emit_block_ram_read_port(recorder, works, map, words, shape, port, own),
        None => Ok(()),
    }
}
