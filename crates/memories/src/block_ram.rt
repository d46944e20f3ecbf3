// A block RAM.
ghost use Rattle.std.specs.Prelude.{◌≡◌, ◌+◌, ◌≤◌, max, length};
ghost use Rattle.netlist.specs.Fields.{word_at, wires_at, ram_at};
ghost use Rattle.recorder.specs.Calls.{Writes, stated};
ghost use Rattle.wires.specs.Once.{seen_in, Once, CellOnce};
ghost use Rattle.wires.specs.Wires.{wires_in};
ghost use Rattle.address_mux.specs.Candidates.{SameWorks, Cleared};
ghost use Rattle.memories.specs.Memories.{own_read, second_output, emit_block_ram};
ghost use Rattle.memories.specs.Rams.{expr_in, port_in, second_in, Roomy, addressed, work_of, block_ram_in};
ghost use Rattle.memories.specs.Steps.{ram_body};

use crate::ports::{first_port, second_port};
use crate::ram_words::{ram_words, update_words};
use crate::read_port::{emit_block_ram_read_port, emit_second_read_port};
use crate::{RamPorts, RamShape};
use address_mux::Works;
use address_mux::address::shift_in;
use netlist::Bit;
use netlist::fields::{Fields, word};
use netlist::ram::address_width;
use recorder::{ExprId, Recorder};
use refusal::Refusal;
use wires::{Emitter, WireMap};

// The read of the signal that n wires at an offset of a record share, if the cell has read it: it has one bit then.
fn own_read(emitter: &Emitter, fields: Fields, offset: usize, n: u32) -> Option<ExprId>
    ensures { expr_in result ≡ own_read (seen_in emitter.now) (wires_at fields.entry.words.now (fields.entry.at + offset) n) }
{
    let known = word(emitter.seen, fields.word(offset) as usize);
    if n == 1 && known > emitter.first {
        Some(ExprId(known - 1))
    } else {
        None
    }
}

fn first_own(emitter: &Emitter, fields: Fields) -> Option<ExprId>
    ensures { expr_in result ≡ own_read (seen_in emitter.now) (ram_at fields.entry.words.now fields.entry.at).output }
{
    let width = fields.word(2);
    own_read(emitter, fields, 43 + width as usize, width)
}

fn second_own(emitter: &Emitter, fields: Fields) -> Option<ExprId>
    ensures { expr_in result ≡ own_read (seen_in emitter.now) (second_output (ram_at fields.entry.words.now fields.entry.at).second) }
{
    if fields.word(42) == 0 {
        return None;
    }
    let width = fields.word(2);
    own_read(emitter, fields.second_port(), 24 + width as usize, width)
}

// The words, what is read of them, and their registers, given the ports' expressions.
fn ram_body(
    recorder: &mut Recorder,
    works: &mut Works,
    map: WireMap,
    owner: u32,
    fields: Fields,
    address: u32,
    ports: RamPorts,
) -> Result<(), Refusal>
    requires { Roomy (word_at fields.words.now (fields.at + 1)) works.old × (word_at fields.words.now (fields.at + 1) ≤ 16384) }
    ensures wrote { Writes recorder.old (ram_body (wires_in map.entry) map.entry.constants owner (port_in ports.first) (expr_in ports.first_own) (second_in ports.second) (expr_in ports.second_own) address (ram_at fields.entry.words.now fields.entry.at)) (stated result) recorder.new }
    ensures works { SameWorks works.old works.new }
{
    let clock = map.bit_signal(fields.bit(40))?;
    let shape = RamShape {
        width: fields.word(2),
        address,
        clock,
        edge: fields.word(41),
    };
    let RamPorts {
        first,
        second,
        first_own,
        second_own,
    } = ports;
    let depth = fields.word(1);
    let words = ram_words(recorder, first, second, owner, shape.width, address, depth)?;
    emit_block_ram_read_port(recorder, works, map, words, shape, first, first_own)?;
    emit_second_read_port(recorder, works, map, words, shape, second, second_own)?;
    update_words(recorder, words, clock, shape.edge)
}

// How many words each of the two works must have.
pub fn block_ram_work(fields: Fields) -> usize
    ensures { result ≡ work_of (ram_at fields.entry.words.now fields.entry.at) }
{
    let depth = fields.word(1);
    let width = fields.word(2);
    depth.max(width) as usize
}

// With enough work.
fn with_work(
    emitter: &mut Emitter,
    works: &mut Works,
    owner: u32,
    fields: Fields,
    write_address: [Bit; 14],
    read_address: [Bit; 14],
    second_address: [Bit; 14],
) -> Result<(), Refusal>
    requires { Roomy (work_of (ram_at fields.words.now fields.at)) works.old × (word_at fields.words.now (fields.at + 1) ≤ 16384) }
    ensures wrote { Once emitter.old (emit_block_ram (wires_in emitter.old.map) emitter.old.map.constants (seen_in emitter.old) owner (addressed (ram_at fields.entry.words.now fields.entry.at) write_address read_address second_address)) (stated result) emitter.new }
    ensures works { SameWorks works.old works.new }
{
    let address = address_width(fields.word(1));
    let shift = shift_in(fields.word(3));
    let first = first_port(
        emitter,
        works.parts,
        fields,
        write_address,
        read_address,
        shift,
        address,
    )?;
    let second = second_port(emitter, works.parts, fields, second_address, shift, address)?;
    let ports = RamPorts {
        first,
        second,
        first_own: first_own(emitter, fields),
        second_own: second_own(emitter, fields),
    };
    let r = ram_body(
        emitter.recorder,
        works,
        emitter.map,
        owner,
        fields,
        address,
        ports,
    );
    emitter.swept(r)
}

// Both works are checked first, then that the arrays of nodes hold the words.
fn in_work(
    emitter: &mut Emitter,
    works: &mut Works,
    owner: u32,
    fields: Fields,
    write_address: [Bit; 14],
    read_address: [Bit; 14],
    second_address: [Bit; 14],
) -> Result<(), Refusal>
    ensures wrote { Once emitter.old (block_ram_in works.old.parts.now works.old.values.now (wires_in emitter.old.map) emitter.old.map.constants (seen_in emitter.old) owner (addressed (ram_at fields.entry.words.now fields.entry.at) write_address read_address second_address)) (stated result) emitter.new }
    ensures works { SameWorks works.old works.new }
{
    let work = block_ram_work(fields);
    if works.parts.len() < work || works.values.len() < work {
        return emitter.swept(Err(Refusal::BufferTooShort(work)));
    }
    let depth = fields.word(1);
    if depth > 16384 {
        return emitter.swept(Err(Refusal::BufferTooShort(depth as usize)));
    }
    with_work(
        emitter,
        works,
        owner,
        fields,
        write_address,
        read_address,
        second_address,
    )
}

// The block RAM whose fields these are, cell number `owner`. Its addresses come by themselves; the second port's counts if there is one.
pub fn emit_block_ram(
    emitter: &mut Emitter,
    works: &mut Works,
    owner: u32,
    fields: Fields,
    write_address: [Bit; 14],
    read_address: [Bit; 14],
    second_address: [Bit; 14],
) -> Result<(), Refusal>
    ensures wrote { CellOnce emitter.old (λ s. block_ram_in works.old.parts.now works.old.values.now (wires_in emitter.old.map) emitter.old.map.constants s owner (addressed (ram_at fields.entry.words.now fields.entry.at) write_address read_address second_address)) (stated result) emitter.new }
    ensures works { Cleared works.old works.new }
{
    emitter.begin();
    let r = in_work(
        emitter,
        works,
        owner,
        fields,
        write_address,
        read_address,
        second_address,
    );
    works.clear();
    r
}
