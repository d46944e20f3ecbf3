// The RAMs: their addresses are read here, and works are lent as far as they are needed.
ghost use Rattle.netlist.specs.Fields.{block_ram_at, distributed_ram_at};
ghost use Rattle.recorder.specs.Calls.{stated};
ghost use Rattle.converter.specs.Emits.{EmitsBlockRam, EmitsAlone};

use address_mux::Works;
use memories::block_ram::{block_ram_work, emit_block_ram};
use memories::distributed_ram::emit_distributed_ram;
use netlist::fields::Fields;
use refusal::Refusal;
use wires::Emitter;

// Kept out of the loop over all cells. The works come as slices: the borrow checker covers no part of one field that is kept while
// the other field is lent.
#[inline(never)]
pub fn block_ram_cell(
    emitter: &mut Emitter,
    parts: &mut [u32],
    values: &mut [u32],
    owner: u32,
    cell: Fields,
) -> Result<(), Refusal>
    ensures { EmitsBlockRam emitter.old parts.old values.old owner (block_ram_at cell.entry.words.now cell.entry.at) (stated result) emitter.new }
{
    let work = block_ram_work(cell);
    let p = work.min(parts.len());
    let v = work.min(values.len());
    let mut lent = Works {
        parts: &mut parts[..p],
        values: &mut values[..v],
    };
    let second = cell.second_port().bits(0);
    emit_block_ram(
        emitter,
        &mut lent,
        owner,
        cell,
        cell.bits(4),
        cell.bits(20),
        second,
    )
}

// One with a second port is refused (10).
#[inline(never)]
pub fn distributed_ram_cell(emitter: &mut Emitter, owner: u32, cell: Fields) -> Result<(), Refusal>
    ensures { EmitsAlone emitter.old owner (distributed_ram_at cell.entry.words.now cell.entry.at) (stated result) emitter.new }
{
    if cell.word(21) == 1 {
        return Err(Refusal::UnsupportedTrueDualPortMemory(owner as usize));
    }
    emit_distributed_ram(emitter, owner, cell, cell.bits(1), cell.bits(11))
}
