// The words of a RAM, and their registers.
ghost use Rattle.std.specs.Prelude.{◌≡◌, [], ◌<◌, ◌≤◌, IfOk};
ghost use Rattle.recorder.specs.Calls.{Writes, emitted, stated, ended};
ghost use Rattle.memories.specs.Memories.{write_word, write_second, ram_word, ram_words, update_words};
ghost use Rattle.memories.specs.Rams.{port_in, second_in, last_of, word_of, worded, words_of, nth_word};

use crate::{Port, RamWord, Words};
use address_mux::address::match_address;
use recorder::{ExprId, Label, Recorder, SignalId};
use refusal::Refusal;

impl Words {
    // The word at an index.
    pub(crate) fn word(self, index: u32) -> RamWord
        requires { index < self.depth }
        ensures { word_of result ≡ nth_word self index }
    {
        let current = self.current.0 + index * (self.last + 1);
        RamWord {
            signal: SignalId(self.signal.0 + index),
            current: ExprId(current),
            next: ExprId(current + self.last),
        }
    }
}

// What a port makes of a word.
fn write_word(
    recorder: &mut Recorder,
    port: Port,
    width: u32,
    address: u32,
    index: u32,
    old: ExprId,
) -> Result<ExprId, Refusal>
    ensures { Writes recorder.old (write_word (port_in port) width address index old.0) (emitted result) recorder.new }
{
    let found = match_address(recorder, port.write_address, address, index)?;
    let write = recorder.and(port.write_asserted, found)?;
    recorder.mux(width, write, port.write_data, old)
}

// What the second port makes of it after the first.
fn write_second(
    recorder: &mut Recorder,
    second: Option<Port>,
    width: u32,
    address: u32,
    index: u32,
    old: ExprId,
) -> Result<ExprId, Refusal>
    ensures { Writes recorder.old (write_second (second_in second) width address index old.0) (emitted result) recorder.new }
{
    match second {
        Some(port) => write_word(recorder, port, width, address, index, old),
        None => Ok(old),
    }
}

// The word at an index: its signal, its read, and what the ports make of it.
pub fn ram_word(
    recorder: &mut Recorder,
    first: Port,
    second: Option<Port>,
    owner: u32,
    width: u32,
    address: u32,
    index: u32,
) -> Result<RamWord, Refusal>
    ensures { Writes recorder.old (ram_word (port_in first) (second_in second) owner width address index) (worded result) recorder.new }
{
    let signal = recorder.signal(Label::RamWord as u32, width, owner)?;
    let current = recorder.read(width, signal, 0)?;
    let once = write_word(recorder, first, width, address, index, current)?;
    let next = write_second(recorder, second, width, address, index, once)?;
    Ok(RamWord {
        signal,
        current,
        next,
    })
}

// How far a word's next value stands behind its read: four records for each port that writes.
fn last_of(second: Option<Port>) -> u32
    ensures { result ≡ last_of second }
{
    match second {
        Some(_) => 8,
        None => 4,
    }
}

// All words.
pub fn ram_words(
    recorder: &mut Recorder,
    first: Port,
    second: Option<Port>,
    owner: u32,
    width: u32,
    address: u32,
    depth: u32,
) -> Result<Words, Refusal>
    requires { depth ≤ 16384 }
    ensures wrote { Writes recorder.old (ram_words (port_in first) (second_in second) owner width address depth 0 []) (ended words_of result) recorder.new }
    ensures depth { IfOk result (λ w. w.depth ≡ depth) }
{
    let start = recorder.tapes;
    let last = last_of(second);
    for index in 0..depth {
        ram_word(recorder, first, second, owner, width, address, index)?;
    }
    Ok(Words {
        signal: SignalId(start.signals.count),
        current: ExprId(start.exprs.count),
        last,
        depth,
    })
}

// The words' registers.
pub fn update_words(
    recorder: &mut Recorder,
    words: Words,
    clock: SignalId,
    edge: u32,
) -> Result<(), Refusal>
    ensures { Writes recorder.old (update_words (words_of words) clock.0 edge) (stated result) recorder.new }
{
    for index in 0..words.depth {
        let word = words.word(index);
        recorder.register(word.signal, word.next, clock, edge, None, None)?;
    }
    Ok(())
}
