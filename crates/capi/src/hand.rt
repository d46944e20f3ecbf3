// Answers as numbers in a lent buffer.
ghost use Rattle.std.specs.Prelude.{◌≡◌, ltb, set, ◌+◌};
ghost use Rattle.std.specs.Prelude.{Some};
ghost use Rattle.bits.specs.Bits.{pick};
ghost use Rattle.refusal.specs.Refusal.{number_of, place_of};
ghost use Rattle.simulation.specs.Run.{answer_of as ran_of, fired_of};
ghost use Rattle.converter.specs.Entry.{answer_of};
ghost use Rattle.capi.specs.Answer.{refusal_numbers, numbers_of, Hands, or_no_room, or_no_room_ran};

use recorder::{SignalId, Tapes};
use refusal::Refusal;
use simulation::Edge;

// A number at an index, if there is room.
fn put(buffer: &mut [u64], i: usize, n: u64)
    ensures { buffer.new ≡ set buffer.old i n }
{
    if i < buffer.len() {
        buffer[i] = n;
    }
}

// Two numbers, the first at an index.
fn put_two(buffer: &mut [u64], i: u32, a: u64, b: u64)
    ensures { buffer.new ≡ set (set buffer.old i a) (i + 1) b }
{
    let at = i as usize;
    put(buffer, at, a);
    put(buffer, at + 1, b);
}

// Numbers that `answer` must have room for.
const ROOM: usize = 8;

// How many of n words are looked at: none where the call is refused for want of room.
pub fn words_for(room: usize, n: usize) -> usize
    ensures { result ≡ pick (ltb room 8) 0 n }
{
    if room < ROOM {
        return 0;
    }
    n
}

// What fires: where the call is refused for want of room, an edge that there is not.
pub fn fired_for(room: usize, fired: Option<Edge>) -> Option<Edge>
    ensures { fired_of result ≡ pick (ltb room 8) (Some (0, 2)) (fired_of fired) }
{
    if room < ROOM {
        return Some(Edge {
            signal: SignalId(0),
            edge: 2,
        });
    }
    fired
}

// Refused for want of room, unless a work is short.
pub fn lowered_for(room: usize, r: Result<Tapes, Refusal>) -> Result<Tapes, Refusal>
    ensures { answer_of result ≡ pick (ltb room 8) (or_no_room (answer_of r)) (answer_of r) }
{
    match r {
        _ if room >= ROOM => r,
        Err(x) if x.number() == 1 => r,
        _ => Err(Refusal::BufferTooShort(ROOM)),
    }
}

// Refused for want of room, unless the model is malformed or another buffer is short.
pub fn ran_for(room: usize, r: Result<(), Refusal>) -> Result<(), Refusal>
    ensures { ran_of result ≡ pick (ltb room 8) (or_no_room_ran (ran_of r)) (ran_of r) }
{
    match r {
        _ if room >= ROOM => r,
        Err(x) if x.number() < 13 => r,
        _ => Err(Refusal::BufferTooShort(ROOM)),
    }
}

// Number and place of a refusal.
fn put_refusal(buffer: &mut [u64], x: Refusal) -> usize
    ensures code { result ≡ number_of x }
    ensures handed { buffer.new ≡ set (set buffer.old 0 (number_of x)) 1 (place_of x) }
{
    put_two(buffer, 0, x.number() as u64, x.place() as u64);
    x.number()
}

pub fn hand_lowered(buffer: &mut [u64], r: Result<Tapes, Refusal>) -> usize
    ensures { Hands (numbers_of (answer_of r)) buffer.old result buffer.new }
{
    buffer.fill(0);
    match r {
        Ok(t) => {
            put_two(buffer, 0, 0, 0);
            put_two(buffer, 2, t.signals.count as u64, t.signals.used as u64);
            put_two(buffer, 4, t.exprs.count as u64, t.exprs.used as u64);
            put_two(buffer, 6, t.stmts.count as u64, t.stmts.used as u64);
            0
        }
        Err(x) => put_refusal(buffer, x),
    }
}

pub fn hand_ran(buffer: &mut [u64], r: Result<(), Refusal>) -> usize
    ensures { Hands (refusal_numbers (ran_of r)) buffer.old result buffer.new }
{
    buffer.fill(0);
    match r {
        Ok(()) => {
            put_two(buffer, 0, 0, 0);
            0
        }
        Err(x) => put_refusal(buffer, x),
    }
}
