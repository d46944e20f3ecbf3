// The steps of lowering a checked netlist: the wire map, then all that is emitted through it.
ghost use Rattle.std.specs.Prelude.{◌≡◌};
ghost use Rattle.recorder.specs.Lists.{lists};
ghost use Rattle.recorder.specs.Calls.{stated};
ghost use Rattle.address_mux.specs.Candidates.{SameWorks};
ghost use Rattle.converter.specs.Emits.{EmitsAll};
ghost use Rattle.converter.specs.Steps.{ReservesNetlist, EmitsNetlist};

use crate::cell::emit_cells;
use crate::constants::emit_constants;
use crate::members::Banks;
use crate::outputs::emit_outputs;
use crate::register::emit_flip_flop_banks;
use crate::{Reserver, WORK};
use address_mux::Works;
use netlist::fields::Fields;
use recorder::Recorder;
use refusal::Refusal;
use wires::{Emitter, WireMap};

// The wire map of n ports and of the banks' cells, in two tables.
pub fn reserve_netlist<'a, 'b>(
    recorder: &'a mut Recorder<'b>,
    wires: &'a mut [u32],
    places: &'a mut [u32],
    ports: Fields,
    n: u32,
    banks: Banks,
) -> Result<(), Refusal>
    ensures { ReservesNetlist recorder.old wires.old places.old ports.entry n banks.entry result recorder.new wires.new places.new }
{
    let mut reserver = Reserver {
        recorder,
        wires,
        places,
    };
    reserver.reserve_ports(ports, n)?;
    reserver.reserve_cells(banks.cells, banks.n)?;
    reserver.reserve_flip_flop_banks(banks)
}

// All cells, each of which shares its reads of so many wires by itself. The table of what has been read begins with zeros.
fn emit_shared_cells<'a, 'b>(
    recorder: &'a mut Recorder<'b>,
    works: &mut Works,
    map: WireMap<'a>,
    cells: Fields,
    n: u32,
    shared: u32,
) -> Result<(), Refusal>
    ensures wrote { EmitsAll recorder.old works.old map.entry cells.entry.words.now cells.entry.at n shared (stated result) recorder.new }
    ensures works { SameWorks works.old works.new }
{
    let mut table = [0u32; WORK];
    let end = WORK.min(shared as usize);
    let mut emitter = Emitter {
        recorder,
        seen: &mut table[..end],
        first: 0,
        map,
    };
    emit_cells(&mut emitter, works, cells, n)
}

pub fn emit_netlist(
    recorder: &mut Recorder,
    works: &mut Works,
    wires: &[u32],
    places: &[u32],
    ports: Fields,
    n: u32,
    banks: Banks,
    shared: u32,
) -> Result<(), Refusal>
    ensures { EmitsNetlist recorder.old works.old wires.now places.now ports.entry n banks.entry shared (stated result) recorder.new }
{
    let constants = emit_constants(recorder)?;
    let map = WireMap {
        wires,
        places,
        constants,
    };
    emit_shared_cells(recorder, works, map, banks.cells, banks.n, shared)?;
    emit_flip_flop_banks(recorder, works.parts, map, banks)?;
    emit_outputs(recorder, works.parts, map, ports, n)
}
