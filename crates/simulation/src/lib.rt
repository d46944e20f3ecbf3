// The run of a model: one call is one tick.

#![tactic(auto)]

pub mod index;
pub mod records;

use recorder::SignalId;

// A model as its three lists of words.
#[derive(Clone, Copy)]
pub struct Model<'a> {
    pub signals: &'a [u32],
    pub exprs: &'a [u32],
    pub stmts: &'a [u32],
}

// An edge of a signal: 0 rises, 1 falls. A caller can say a larger number; then the tick is refused.
#[derive(Clone, Copy, Debug, PartialEq, Eq)]
pub struct Edge {
    pub signal: SignalId,
    pub edge: u32,
}
