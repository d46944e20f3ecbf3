// The balanced address mux on a lent slice of its nodes: a thin layer over the function on two number slices. An array of nodes goes by
// value, and its first ones are lent as a slice.

#![tactic(auto)]

ghost use Rattle.std.specs.Prelude.{◌≡◌, ◌≤◌, length, map, take};
ghost use Rattle.recorder.specs.Calls.{Writes, emitted};
ghost use Rattle.address_mux.specs.Address.{at_most};
ghost use Rattle.address_mux.specs.Candidates.{node_of, candidates_in, Cleared, SameWorks};
ghost use Rattle.nodes.specs.Nodes.{mux_of_nodes};

use address_mux::{AddressMuxNode, Works, balanced_address_mux};
use recorder::{ExprId, Recorder};
use refusal::Refusal;

// The nodes become the first candidates.
fn copy_nodes(nodes: &[AddressMuxNode], works: &mut Works)
    requires { (length nodes.now ≤ length works.old.parts.now) × (length nodes.now ≤ length works.old.values.now) }
    ensures nodes { candidates_in works.new (length nodes.now) ≡ map node_of nodes.now }
    ensures works { SameWorks works.old works.new }
{
    for (i, node) in nodes.iter().enumerate() {
        works.put(i, *node);
    }
}

// The mux is made in the works, if they have room for the nodes.
pub fn balanced_address_mux_of_nodes(
    recorder: &mut Recorder,
    nodes: &[AddressMuxNode],
    works: &mut Works,
    width: u32,
    zero: ExprId,
) -> Result<ExprId, Refusal>
    ensures wrote { Writes recorder.old (mux_of_nodes works.old.parts.now works.old.values.now width nodes.now zero.0) (emitted result) recorder.new }
    ensures works { Cleared works.old works.new }
{
    let n = nodes.len();
    if works.parts.len() < n || works.values.len() < n {
        works.clear();
        return Err(Refusal::BufferTooShort(n));
    }
    copy_nodes(nodes, works);
    balanced_address_mux(recorder, works, n, width, zero)
}

// The first n nodes of an array; more than it holds are refused.
pub fn balanced_address_mux_of_array<const N: usize>(
    recorder: &mut Recorder,
    nodes: [AddressMuxNode; N],
    n: usize,
    works: &mut Works,
    width: u32,
    zero: ExprId,
) -> Result<ExprId, Refusal>
    ensures wrote { Writes recorder.old (at_most N n (mux_of_nodes works.old.parts.now works.old.values.now width (take n nodes.entry) zero.0)) (emitted result) recorder.new }
    ensures works { Cleared works.old works.new }
{
    if n > N {
        works.clear();
        return Err(Refusal::BufferTooShort(n));
    }
    balanced_address_mux_of_nodes(recorder, &nodes[..n], works, width, zero)
}
