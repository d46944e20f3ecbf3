// The word at a read port's address: the RAM's words become nodes of an address mux, in an array of the smallest size that holds them.
ghost use Rattle.std.specs.Prelude.{◌≡◌, ◌≤◌, length};
ghost use Rattle.recorder.specs.Calls.{Writes, emitted};
ghost use Rattle.address_mux.specs.Candidates.{SameWorks};
ghost use Rattle.memories.specs.Rams.{words_of, select_word, Roomy};
ghost use Rattle.memories.specs.Steps.{pick_word};

use crate::Words;
use address_mux::address::match_address;
use address_mux::{AddressMuxNode, Works};
use nodes::balanced_address_mux_of_array;
use recorder::{ExprId, Recorder};
use refusal::Refusal;

// Of up to N words.
fn select_of<const N: usize>(
    recorder: &mut Recorder,
    works: &mut Works,
    words: Words,
    reads: ExprId,
    width: u32,
    address: u32,
    zero: ExprId,
) -> Result<ExprId, Refusal>
    requires { Roomy words.depth works.old × (words.depth ≤ N) × (N ≤ 16384) }
    ensures wrote { Writes recorder.old (pick_word reads.0 (words_of words) width address zero.0) (emitted result) recorder.new }
    ensures works { SameWorks works.old works.new }
{
    let mut nodes = [AddressMuxNode {
        matched: zero,
        value: zero,
    }; N];
    for index in 0..words.depth {
        let matched = match_address(recorder, reads, address, index)?;
        let value = words.word(index).current;
        nodes[index as usize] = AddressMuxNode { matched, value };
    }
    balanced_address_mux_of_array(recorder, nodes, words.depth as usize, works, width, zero)
}

// The word at an address, or zero, of up to 1,024 words.
fn select_few(
    recorder: &mut Recorder,
    works: &mut Works,
    words: Words,
    reads: ExprId,
    width: u32,
    address: u32,
) -> Result<ExprId, Refusal>
    requires { Roomy words.depth works.old × (words.depth ≤ 1024) }
    ensures wrote { Writes recorder.old (select_word reads.0 (words_of words) width address) (emitted result) recorder.new }
    ensures works { SameWorks works.old works.new }
{
    let zero = recorder.constant(width, 0)?;
    if words.depth <= 64 {
        select_of::<64>(recorder, works, words, reads, width, address, zero)
    } else {
        select_of::<1024>(recorder, works, words, reads, width, address, zero)
    }
}

// Of more words, apart so that only a deep RAM pays for the room of so many nodes.
#[inline(never)]
fn select_deep(
    recorder: &mut Recorder,
    works: &mut Works,
    words: Words,
    reads: ExprId,
    width: u32,
    address: u32,
) -> Result<ExprId, Refusal>
    requires { Roomy words.depth works.old }
    ensures wrote { Writes recorder.old (select_word reads.0 (words_of words) width address) (emitted result) recorder.new }
    ensures works { SameWorks works.old works.new }
{
    let zero = recorder.constant(width, 0)?;
    select_of::<16384>(recorder, works, words, reads, width, address, zero)
}

// The word at an address, or zero.
pub fn select_word(
    recorder: &mut Recorder,
    works: &mut Works,
    words: Words,
    reads: ExprId,
    width: u32,
    address: u32,
) -> Result<ExprId, Refusal>
    requires { Roomy words.depth works.old }
    ensures wrote { Writes recorder.old (select_word reads.0 (words_of words) width address) (emitted result) recorder.new }
    ensures works { SameWorks works.old works.new }
{
    if words.depth <= 1024 {
        select_few(recorder, works, words, reads, width, address)
    } else {
        select_deep(recorder, works, words, reads, width, address)
    }
}
