// The refusals, by cause. A refusal has a number and a place; specs/Refusal.antt gives both.

#![tactic(auto)]

ghost use Rattle.std.specs.Prelude.{◌≡◌};
ghost use Rattle.refusal.specs.Refusal.{number_of, place_of};

#[derive(Clone, Copy, Debug, PartialEq, Eq)]
pub enum Refusal {
    // The caller's.
    BufferTooShort(usize),
    ListFull(usize),
    // The supplier's tool's.
    BadTrailer,
    WordCount(usize),
    WordValue(usize),
    // The supplier's engineer's.
    UnsupportedTrueDualPortMemoryClocking(usize),
    DuplicateWire(usize),
    MissingWire(usize),
    NonScalarControl(usize),
    UnsupportedTrueDualPortMemory(usize),
    StatementConflict(usize),
    // Of whoever runs a model.
    MalformedModel(usize),
    CombinationalLoop(usize),
    BadTick(usize),
}

impl Refusal {
    pub fn number(self) -> usize
        ensures { result ≡ number_of self }
    {
        match self {
            Refusal::BufferTooShort(_) => 1,
            Refusal::ListFull(_) => 2,
            Refusal::BadTrailer => 3,
            Refusal::WordCount(_) => 4,
            Refusal::WordValue(_) => 5,
            Refusal::UnsupportedTrueDualPortMemoryClocking(_) => 6,
            Refusal::DuplicateWire(_) => 7,
            Refusal::MissingWire(_) => 8,
            Refusal::NonScalarControl(_) => 9,
            Refusal::UnsupportedTrueDualPortMemory(_) => 10,
            Refusal::StatementConflict(_) => 11,
            Refusal::MalformedModel(_) => 12,
            Refusal::CombinationalLoop(_) => 13,
            Refusal::BadTick(_) => 14,
        }
    }

    pub fn place(self) -> usize
        ensures { result ≡ place_of self }
    {
        match self {
            Refusal::BufferTooShort(length) => length,
            Refusal::ListFull(list) => list,
            Refusal::BadTrailer => 0,
            Refusal::WordCount(index) => index,
            Refusal::WordValue(index) => index,
            Refusal::UnsupportedTrueDualPortMemoryClocking(cell) => cell,
            Refusal::DuplicateWire(wire) => wire,
            Refusal::MissingWire(wire) => wire,
            Refusal::NonScalarControl(wire) => wire,
            Refusal::UnsupportedTrueDualPortMemory(cell) => cell,
            Refusal::StatementConflict(signal) => signal,
            Refusal::MalformedModel(record) => record,
            Refusal::CombinationalLoop(signal) => signal,
            Refusal::BadTick(place) => place,
        }
    }
}
