// The wire map and what is read through it. (lib.rs of the Rust: insert_wire to asserted_expression, bits_expression.)

#![tactic(auto)]

pub mod emit; // emit.rt: what a cell records besides its reads
pub mod once; // once.rt: what a cell reads, each wire once
pub mod expressions; // expressions.rt: vectors
pub mod map; // map.rt: what the wire map holds, read outside of cells

ghost use Rattle.std.specs.Prelude.{◌≡◌, ◌≤◌, min};

use crate::once::begun;
use recorder::{Recorder, SignalId};

// Where a wire's bit is.
#[derive(Clone, Copy, Debug, PartialEq, Eq)]
pub struct WireRef {
    pub signal: SignalId,
    pub lsb: u32,
    pub width: u32,
}

// The signals of the constants.
#[derive(Clone, Copy, Debug, PartialEq, Eq)]
pub struct Constants {
    pub zero: SignalId,
    pub one: SignalId,
}

// The wire map in two tables, by wire: the signal's number plus 1, or 0; and the bit's place in it times 65,536 plus its width.
#[derive(Clone, Copy)]
pub struct WireMap<'a> {
    pub wires: &'a [u32],
    pub places: &'a [u32],
    pub constants: Constants,
}

// What a cell is recorded with. The table `seen` holds for each wire the number plus 1 of the expression that read it last; it counts
// if it is above `first`, the number of the cell's first expression, so that nothing has to be cleared between cells.
#[derive(Drop)]
pub struct Emitter<'a, 'b, 'c, 'd> {
    pub recorder: &'a mut Recorder<'b>,
    pub seen: &'c mut [u32],
    pub first: u32,
    pub map: WireMap<'d>,
    ghost begun: { first ≤ recorder.now.tapes.exprs.count },
}

impl<'a, 'b, 'c, 'd> Emitter<'a, 'b, 'c, 'd> {
    // For whatever number stands as the cell's first expression: one that is not recorded yet counts as the next. Who made the recorder's
    // reference learns what it holds in the end only of an `Emitter` written out, with `begun` as its `first`.
    pub fn new(
        recorder: &'a mut Recorder<'b>,
        seen: &'c mut [u32],
        first: u32,
        map: WireMap<'d>,
    ) -> Emitter<'a, 'b, 'c, 'd>
        ensures same_recorder { result.recorder.ghost_name ≡ recorder.entry.ghost_name }
        ensures same_seen { result.seen.ghost_name ≡ seen.entry.ghost_name }
        ensures recorder { result.recorder.now ≡ recorder.old }
        ensures seen { result.seen.now ≡ seen.old }
        ensures first { result.first ≡ min first recorder.old.tapes.exprs.count }
        ensures map { result.map ≡ map.entry }
    {
        let first = begun(first, recorder.tapes);
        Emitter {
            recorder,
            seen,
            first,
            map,
        }
    }
}
