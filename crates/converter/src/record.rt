// The records of a checked netlist, in three lent lists.
ghost use Rattle.std.specs.Prelude.{◌≡◌};
ghost use Rattle.recorder.specs.Lists.{lists};
ghost use Rattle.converter.specs.Steps.{RecordsParts, RecordsNetlist};

use crate::collect::collect_flip_flop_banks;
use crate::members::Banks;
use crate::steps::{emit_netlist, reserve_netlist};
use address_mux::Works;
use netlist::Layout;
use netlist::fields::Fields;
use recorder::{Recorder, Tape, Tapes};
use refusal::Refusal;

// The wire map first, and what is emitted through it.
fn record_parts(
    recorder: &mut Recorder,
    wires: &mut [u32],
    places: &mut [u32],
    works: &mut Works,
    ports: Fields,
    n: u32,
    banks: Banks,
    shared: u32,
) -> Result<Tapes, Refusal>
    ensures wrote { RecordsParts recorder.old wires.old places.old works.old ports.entry n banks.entry shared result recorder.new }
    ensures signals { recorder.new.signals.ghost_name ≡ recorder.old.signals.ghost_name }
    ensures exprs { recorder.new.exprs.ghost_name ≡ recorder.old.exprs.ghost_name }
    ensures stmts { recorder.new.stmts.ghost_name ≡ recorder.old.stmts.ghost_name }
{
    reserve_netlist(recorder, wires, places, ports, n, banks)?;
    emit_netlist(recorder, works, wires, places, ports, n, banks, shared)?;
    Ok(recorder.tapes)
}

// A checked netlist, whose parts stand as the layout says. The works come one by one: the check can't read a field of a struct while another
// is lent.
pub fn record_netlist(
    signals: &mut [u32],
    exprs: &mut [u32],
    stmts: &mut [u32],
    wires: &mut [u32],
    places: &mut [u32],
    parts: &mut [u32],
    values: &mut [u32],
    banks: &mut [u32],
    words: &[u32],
    layout: Layout,
    shared: u32,
) -> Result<Tapes, Refusal>
    ensures { RecordsNetlist (lists signals.old exprs.old stmts.old) wires.old places.old parts.old values.old banks.old words.now layout shared result (lists signals.new exprs.new stmts.new) }
{
    let ports = Fields { words, at: 0 };
    let cells = Fields {
        words,
        at: layout.start,
    };
    let count = collect_flip_flop_banks(cells, layout.cells, banks, parts, values);
    let banks = Banks {
        cells,
        n: layout.cells,
        numbers: banks,
        count,
    };
    // Not by `Recorder::new`: a caller learns nothing of two lists that went into one value by one call.
    let tape = Tape { used: 0, count: 0 };
    let tapes = Tapes {
        signals: tape,
        exprs: tape,
        stmts: tape,
    };
    let mut recorder = Recorder {
        signals,
        exprs,
        stmts,
        tapes,
    };
    let mut works = Works { parts, values };
    record_parts(
        &mut recorder,
        wires,
        places,
        &mut works,
        ports,
        layout.ports,
        banks,
        shared,
    )
}
