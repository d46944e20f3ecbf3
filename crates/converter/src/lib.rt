// The converter: from a netlist's words to the three lists of its model, or a refusal. (lib.rs of the Rust: `lower` is its
// `ecp5_frontend_artifact`. The files below stand in its order of functions.)

#![tactic(auto)]

mod record; // the records of a checked netlist
mod steps; // the steps in the Rust's order
mod judge; // the answer, once all is recorded: 11
mod constants; // the constants' signals
mod cell; // every cell by its kind (emit_cell)
mod rams; // the RAMs
mod outputs; // output ports (emit_outputs)
mod ports; // signals of ports
mod reserve; // signals of cells (reserve_cell_output)
mod scalar; // a signal for a wire, or for several (reserve_scalar)
mod insert; // the wire map's tables (insert_wire)
mod members; // the banks of flip-flops
mod bank; // signals of banks (reserve_flip_flop_banks)
mod next; // the next value of a bank
mod register; // registers of banks (emit_flip_flop_bank)
mod collect; // the bank of each flip-flop (collect_flip_flop_banks)

ghost use Rattle.std.specs.Prelude.{◌≡◌, [], ◌∷◌};
ghost use Rattle.netlist.specs.Reader.{base};
ghost use Rattle.recorder.specs.Lists.{lists};
ghost use Rattle.converter.specs.Entry.{any_short, buffers_in, SameBuffers, Lowers, LowersWithin, LowersLists, Attempts};

use judge::answered;
use netlist::Limits;
use reader::check;
use record::record_netlist;
use recorder::{Recorder, Tapes};
use refusal::Refusal;

// The work that lowering is lent: five buffers of so many words.
pub const WORK: usize = 16384;

// The wire map as it is filled, and where the signals are recorded.
#[derive(Drop)]
struct Reserver<'a, 'b> {
    pub recorder: &'a mut Recorder<'b>,
    pub wires: &'a mut [u32],
    pub places: &'a mut [u32],
}

// What the fields of a record hold, one in each word.
#[derive(Clone, Copy, Debug, PartialEq, Eq)]
enum Content {
    Bits,
    Wires,
}

// The work that lowering is lent: the wire map's two tables, the parts and values of records, and the number of each cell's bank.
#[derive(Drop)]
struct Buffers<'a> {
    pub wires: &'a mut [u32],
    pub places: &'a mut [u32],
    pub parts: &'a mut [u32],
    pub values: &'a mut [u32],
    pub banks: &'a mut [u32],
}

// Lists of zeros in, and works of which the wire map's tables are zeros. On a refusal the lists are left as they are then.
fn lower_checked(
    limits: Limits,
    words: &[u32],
    signals: &mut [u32],
    exprs: &mut [u32],
    stmts: &mut [u32],
    buffers: &mut Buffers,
) -> Result<Tapes, Refusal>
    ensures wrote { Attempts limits words.now (lists signals.old exprs.old stmts.old) buffers.old result (lists signals.new exprs.new stmts.new) }
    ensures same { SameBuffers buffers.old buffers.new }
{
    let layout = check(limits, words)?;
    let r = record_netlist(
        signals,
        exprs,
        stmts,
        buffers.wires,
        buffers.places,
        buffers.parts,
        buffers.values,
        buffers.banks,
        words,
        layout,
        limits.wires,
    );
    answered(signals, stmts, r)
}

// Whether one of the works, of these sizes, has fewer words than lowering needs.
fn short_work(sizes: &[usize]) -> bool
    ensures { result ≡ any_short sizes.now }
{
    for size in sizes {
        if *size < WORK {
            return true;
        }
    }
    false
}

// All but the zeroing of the works. A refusal leaves lists of zeros.
fn lower_works(
    limits: Limits,
    words: &[u32],
    signals: &mut [u32],
    exprs: &mut [u32],
    stmts: &mut [u32],
    buffers: &mut Buffers,
) -> Result<Tapes, Refusal>
    ensures wrote { LowersLists limits words.now (lists signals.old exprs.old stmts.old) (buffers_in buffers.old) result (lists signals.new exprs.new stmts.new) }
    ensures same { SameBuffers buffers.old buffers.new }
{
    signals.fill(0);
    exprs.fill(0);
    stmts.fill(0);
    let sizes = [
        buffers.wires.len(),
        buffers.places.len(),
        buffers.parts.len(),
        buffers.values.len(),
        buffers.banks.len(),
    ];
    if short_work(&sizes) {
        return Err(Refusal::BufferTooShort(WORK));
    }
    buffers.wires.fill(0);
    buffers.places.fill(0);
    let r = lower_checked(limits, words, signals, exprs, stmts, buffers);
    if r.is_err() {
        signals.fill(0);
        exprs.fill(0);
        stmts.fill(0);
    }
    r
}

// With these limits.
fn lower_within(
    limits: Limits,
    words: &[u32],
    signals: &mut [u32],
    exprs: &mut [u32],
    stmts: &mut [u32],
    buffers: &mut Buffers,
) -> Result<Tapes, Refusal>
    ensures wrote { LowersWithin limits words.now (lists signals.old exprs.old stmts.old) (buffers_in buffers.old) result (lists signals.new exprs.new stmts.new) (buffers_in buffers.new) }
    ensures same { SameBuffers buffers.old buffers.new }
{
    let r = lower_works(limits, words, signals, exprs, stmts, buffers);
    buffers.wires.fill(0);
    buffers.places.fill(0);
    buffers.parts.fill(0);
    buffers.values.fill(0);
    buffers.banks.fill(0);
    r
}

// A netlist's model in the three lists, and how far each is written; or its refusal and lists of zeros. The five works are zeros in the end.
pub fn lower(
    words: &[u32],
    signals: &mut [u32],
    exprs: &mut [u32],
    stmts: &mut [u32],
    wires: &mut [u32],
    places: &mut [u32],
    parts: &mut [u32],
    values: &mut [u32],
    banks: &mut [u32],
) -> Result<Tapes, Refusal>
    ensures { Lowers base words.now (lists signals.old exprs.old stmts.old) (wires.old ∷ places.old ∷ parts.old ∷ values.old ∷ banks.old ∷ []) result (lists signals.new exprs.new stmts.new) (wires.new ∷ places.new ∷ parts.new ∷ values.new ∷ banks.new ∷ []) }
{
    let mut buffers = Buffers {
        wires,
        places,
        parts,
        values,
        banks,
    };
    lower_within(Limits::BASE, words, signals, exprs, stmts, &mut buffers)
}
