// Every cell by its kind.
ghost use Rattle.std.specs.Prelude.{◌≡◌, ◌%◌};
ghost use Rattle.netlist.specs.Fields.{cell_at, ccu2c_at};
ghost use Rattle.recorder.specs.Calls.{stated};
ghost use Rattle.address_mux.specs.Candidates.{SameWorks};
ghost use Rattle.converter.specs.Emits.{EmitsKind, EmitsCell, EmitsCells};

use crate::rams::{block_ram_cell, distributed_ram_cell};
use address_mux::Works;
use carry::ccu2c::emit_ccu2c;
use cells::emit::{emit_io, emit_l6mux21, emit_lut4, emit_multiplier, emit_pfumx};
use clocking::jtagg::emit_idle_jtagg;
use clocking::pll::emit_cycle_pll;
use netlist::Kind;
use netlist::fields::Fields;
use refusal::Refusal;
use wires::Emitter;

// A truth table is the lower half of its word; a checked one is all of it.
fn truth_table(word: u32) -> u16
    ensures { result ≡ word % 65536 }
{
    (word % 65536) as u16
}

fn ccu2c_cell(emitter: &mut Emitter, cell: Fields) -> Result<(), Refusal>
    ensures { EmitsKind emitter.old (ccu2c_at cell.entry.words.now cell.entry.at) (stated result) emitter.new }
{
    let f = cell.ccu2c();
    emit_ccu2c(
        emitter,
        cell.ccu2c_inputs(),
        f.carry_in,
        [f.sum0, f.sum1],
        f.carry,
        [truth_table(f.init0), truth_table(f.init1)],
        [f.inject0, f.inject1],
    )
}

// The cell whose fields these are; `owner` is its number. Both works have 16,384 words or more.
fn emit_cell(
    emitter: &mut Emitter,
    works: &mut Works,
    owner: u32,
    cell: Fields,
) -> Result<(), Refusal>
    ensures wrote { EmitsCell emitter.old works.old owner (cell_at cell.entry.words.now cell.entry.at) (stated result) emitter.new }
    ensures works { SameWorks works.old works.new }
{
    match cell.kind() {
        Kind::Lut4 => emit_lut4(
            emitter,
            cell.bits(1),
            cell.word(5),
            truth_table(cell.word(6)),
        ),
        Kind::Pfumx => emit_pfumx(emitter, cell.pfumx()),
        Kind::L6mux21 => emit_l6mux21(emitter, cell.l6mux21()),
        Kind::Ccu2c => ccu2c_cell(emitter, cell),
        Kind::Multiplier => emit_multiplier(emitter, cell),
        // It comes by its bank.
        Kind::FlipFlop => Ok(()),
        Kind::BlockRam => block_ram_cell(emitter, works.parts, works.values, owner, cell),
        Kind::DistributedRam => distributed_ram_cell(emitter, owner, cell),
        Kind::Io => emit_io(emitter, cell.io()),
        Kind::Jtagg => emit_idle_jtagg(emitter.recorder, emitter.map, cell),
        Kind::Pll => emit_cycle_pll(emitter.recorder, emitter.map, cell),
    }
}

// The n cells from the first one's fields on, numbered from 0.
pub fn emit_cells(
    emitter: &mut Emitter,
    works: &mut Works,
    cells: Fields,
    n: u32,
) -> Result<(), Refusal>
    ensures wrote { EmitsCells emitter.old works.old cells.entry.words.now cells.entry.at n (stated result) emitter.new }
    ensures works { SameWorks works.old works.new }
{
    let mut cell = cells;
    for owner in 0..n {
        emit_cell(emitter, works, owner, cell)?;
        cell = cell.from(cell.cell_size());
    }
    Ok(())
}
