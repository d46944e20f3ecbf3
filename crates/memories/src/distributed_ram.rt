// A distributed RAM: 16 words of four bits.
ghost use Rattle.std.specs.Prelude.{[], ◌≡◌};
ghost use Rattle.recorder.specs.Calls.{Writes, emitted, stated, ended};
ghost use Rattle.wires.specs.Wires.{wires_in};
ghost use Rattle.wires.specs.Once.{CellOnce};
ghost use Rattle.memories.specs.Memories.{dram_words, dram_select, emit_distributed_ram};
ghost use Rattle.memories.specs.Rams.{port_in, worded, words_of, dram_at, dram_addressed};
ghost use Rattle.memories.specs.Steps.{dram_word, select_one, dram_body};

use crate::ports::dram_port;
use crate::ram_words::ram_word;
use crate::{Port, RamWord, Words};
use address_mux::address::match_address;
use netlist::Bit;
use netlist::fields::Fields;
use recorder::{ExprId, Recorder, SignalId};
use refusal::Refusal;
use wires::{Emitter, WireMap};

// The word at an index, with its register.
fn dram_word(
    recorder: &mut Recorder,
    port: Port,
    owner: u32,
    clock: SignalId,
    edge: u32,
    index: u32,
) -> Result<RamWord, Refusal>
    ensures { Writes recorder.old (dram_word (port_in port) owner clock.0 edge index) (worded result) recorder.new }
{
    let word = ram_word(recorder, port, None, owner, 4, 4, index)?;
    recorder.register(word.signal, word.next, clock, edge, None, None)?;
    Ok(word)
}

// All words.
fn dram_words(
    recorder: &mut Recorder,
    port: Port,
    owner: u32,
    clock: SignalId,
    edge: u32,
) -> Result<Words, Refusal>
    ensures { Writes recorder.old (dram_words (port_in port) owner clock.0 edge 16 0 []) (ended words_of result) recorder.new }
{
    let start = recorder.tapes;
    for index in 0..16 {
        dram_word(recorder, port, owner, clock, edge, index)?;
    }
    Ok(Words {
        signal: SignalId(start.signals.count),
        current: ExprId(start.exprs.count),
        last: 4,
        depth: 16,
    })
}

// The word at an index, if that is the address.
fn select_one(
    recorder: &mut Recorder,
    reads: ExprId,
    index: u32,
    word: ExprId,
    other: ExprId,
) -> Result<ExprId, Refusal>
    ensures { Writes recorder.old (select_one reads.0 index word.0 other.0) (emitted result) recorder.new }
{
    let found = match_address(recorder, reads, 4, index)?;
    recorder.mux(4, found, word, other)
}

// The word at an address.
fn dram_select(
    recorder: &mut Recorder,
    words: Words,
    reads: ExprId,
    other: ExprId,
) -> Result<ExprId, Refusal>
    ensures { Writes recorder.old (dram_select reads.0 0 (words_of words) other.0) (emitted result) recorder.new }
{
    let mut selected = other;
    for index in 0..words.depth {
        let word = words.word(index);
        selected = select_one(recorder, reads, index, word.current, selected)?;
    }
    Ok(selected)
}

// The words, and what is read of them, given the port's expressions.
fn dram_body(
    recorder: &mut Recorder,
    map: WireMap,
    owner: u32,
    fields: Fields,
    port: Port,
) -> Result<(), Refusal>
    ensures { Writes recorder.old (dram_body (wires_in map.entry) map.entry.constants owner (port_in port) (dram_at fields.entry.words.now fields.entry.at)) (stated result) recorder.new }
{
    let clock = map.bit_signal(fields.bit(19))?;
    let words = dram_words(recorder, port, owner, clock, fields.word(20))?;
    let zero = recorder.constant(4, 0)?;
    let value = dram_select(recorder, words, port.read_address, zero)?;
    map.assign_wire(recorder, fields.word(15), value)
}

// The distributed RAM whose fields these are, cell number `owner`. Its addresses come by themselves.
pub fn emit_distributed_ram(
    emitter: &mut Emitter,
    owner: u32,
    fields: Fields,
    write_address: [Bit; 4],
    read_address: [Bit; 4],
) -> Result<(), Refusal>
    ensures { CellOnce emitter.old (λ s. emit_distributed_ram (wires_in emitter.old.map) emitter.old.map.constants s owner (dram_addressed (dram_at fields.entry.words.now fields.entry.at) write_address read_address)) (stated result) emitter.new }
{
    emitter.begin();
    let port = dram_port(emitter, fields, write_address, read_address)?;
    let r = dram_body(emitter.recorder, emitter.map, owner, fields, port);
    emitter.swept(r)
}
