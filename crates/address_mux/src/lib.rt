// The address of a memory, and the balanced mux of its candidates. (lib.rs of the Rust: balanced_address_mux.)

#![tactic(auto)]

pub mod address;

ghost use Rattle.std.specs.Prelude.{◌≡◌, ◌≤◌, [], length};
ghost use Rattle.recorder.specs.Calls.{Writes, emitted};
ghost use Rattle.wires.specs.Expressions.{roomy};
ghost use Rattle.address_mux.specs.AddressMux.{balanced_address_mux, mux_level};
ghost use Rattle.address_mux.specs.Candidates.{node_of, node_at, candidates_in, join_nodes, joined, levelled, SameWorks, Cleared, Puts, Holds};

use recorder::{ExprId, Recorder};
use refusal::Refusal;

// A candidate of an address: the expression that says it is the one, and the word's.
#[derive(Clone, Copy, Debug, PartialEq, Eq)]
pub struct AddressMuxNode {
    pub matched: ExprId,
    pub value: ExprId,
}

// Two lent slices of expression numbers, in which candidates stand: what says that each is the one, and its word.
#[derive(Drop)]
pub struct Works<'a> {
    pub parts: &'a mut [u32],
    pub values: &'a mut [u32],
}

impl Works<'_> {
    fn node(&self, i: usize) -> AddressMuxNode
        requires { Holds self.now i }
        ensures { node_of result ≡ node_at self.now.parts.now self.now.values.now i }
    {
        AddressMuxNode {
            matched: ExprId(self.parts[i]),
            value: ExprId(self.values[i]),
        }
    }

    // A candidate goes to an index; a slice that has no such word stays.
    pub fn put(&mut self, i: usize, node: AddressMuxNode)
        ensures { Puts i (node_of node) self.old self.new }
    {
        if i < self.parts.len() {
            self.parts[i] = node.matched.0;
        }
        if i < self.values.len() {
            self.values[i] = node.value.0;
        }
    }

    pub fn clear(&mut self)
        ensures { Cleared self.old self.new }
    {
        self.parts.fill(0);
        self.values.fill(0);
    }
}

// Two neighbours become one; the later one wins.
fn join(
    recorder: &mut Recorder,
    width: u32,
    left: AddressMuxNode,
    right: AddressMuxNode,
) -> Result<AddressMuxNode, Refusal>
    ensures { Writes recorder.old (join_nodes width (node_of left) (node_of right)) (joined result) recorder.new }
{
    let matched = recorder.or(left.matched, right.matched)?;
    let value = recorder.mux(width, right.matched, right.value, left.value)?;
    Ok(AddressMuxNode { matched, value })
}

// One level, in place: neighbours are joined in order, an odd last one is carried over.
fn mux_level(
    recorder: &mut Recorder,
    works: &mut Works,
    n: usize,
    width: u32,
) -> Result<(), Refusal>
    requires { (n ≤ length works.old.parts.now) × (n ≤ length works.old.values.now) }
    ensures wrote { Writes recorder.old (mux_level width (candidates_in works.old n) []) (levelled works.new n result) recorder.new }
    ensures works { SameWorks works.old works.new }
{
    for at in 0..n / 2 {
        let node = join(
            recorder,
            width,
            works.node(at + at),
            works.node(at + at + 1),
        )?;
        works.put(at, node);
    }
    if n % 2 == 1 {
        works.put(n / 2, works.node(n - 1));
    }
    Ok(())
}

// The first n candidates; levels are joined until one is left, so the loop is no `for`. The later of two that match wins.
fn mux_levels(
    recorder: &mut Recorder,
    works: &mut Works,
    n: usize,
    width: u32,
    zero: ExprId,
) -> Result<ExprId, Refusal>
    ensures wrote { Writes recorder.old (roomy n works.old.parts.now (roomy n works.old.values.now (balanced_address_mux width (candidates_in works.old n) zero.0))) (emitted result) recorder.new }
    ensures works { SameWorks works.old works.new }
{
    if works.parts.len() < n || works.values.len() < n {
        return Err(Refusal::BufferTooShort(n));
    }
    let mut left = n;
    while left > 1 {
        mux_level(recorder, works, left, width)?;
        left = (left + 1) / 2;
    }
    if left == 0 {
        return Ok(zero);
    }
    let root = works.node(0);
    recorder.mux(width, root.matched, root.value, zero)
}

// The same, and zeros in the place of the candidates.
pub fn balanced_address_mux(
    recorder: &mut Recorder,
    works: &mut Works,
    n: usize,
    width: u32,
    zero: ExprId,
) -> Result<ExprId, Refusal>
    ensures wrote { Writes recorder.old (roomy n works.old.parts.now (roomy n works.old.values.now (balanced_address_mux width (candidates_in works.old n) zero.0))) (emitted result) recorder.new }
    ensures works { Cleared works.old works.new }
{
    let r = mux_levels(recorder, works, n, width, zero);
    works.clear();
    r
}
