// Memories: block RAM and distributed RAM. (lib.rs of the Rust: emit_block_ram to emit_distributed_ram.)

#![tactic(auto)]

pub mod block_ram; // block_ram.rt: a block RAM
pub mod distributed_ram; // distributed_ram.rt: a distributed RAM
mod ports; // ports.rt: the expressions of ports
mod ram_words; // ram_words.rt: words, and their registers
mod read_port; // read_port.rt: read registers
mod select; // select.rt: the word at an address

ghost use Rattle.std.specs.Prelude.{◌+◌, ◌*◌, ◌≤◌};

use netlist::Control;
use recorder::{ExprId, SignalId};

// The expressions of a port, the first wire that it reads to and its read enable; its clock enable asserted, if it has one.
#[derive(Clone, Copy)]
pub struct Port {
    pub write_address: ExprId,
    pub write_data: ExprId,
    pub write_asserted: ExprId,
    pub read_address: ExprId,
    pub read_data: u32,
    pub read_enable: Option<Control>,
    pub clock_enabled: Option<ExprId>,
}

// Whether a port writes, and its clock enable.
#[derive(Clone, Copy, Debug, PartialEq, Eq)]
pub struct Gate {
    pub write_asserted: ExprId,
    pub clock_enabled: Option<ExprId>,
}

// The ports of a block RAM, and where the cell has read it already, the read of each read register's own signal.
#[derive(Clone, Copy)]
pub struct RamPorts {
    pub first: Port,
    pub second: Option<Port>,
    pub first_own: Option<ExprId>,
    pub second_own: Option<ExprId>,
}

// A word: its signal, its read, its next value.
#[derive(Clone, Copy, Debug, PartialEq, Eq)]
pub struct RamWord {
    pub signal: SignalId,
    pub current: ExprId,
    pub next: ExprId,
}

// The words of a RAM. Their signals are consecutive; each word's next value stands `last` behind its read, and the next word's read
// right behind that.
#[derive(Clone, Copy)]
pub struct Words {
    pub signal: SignalId,
    pub current: ExprId,
    pub last: u32,
    pub depth: u32,
    // all are numbers that records have, and an array holds their nodes
    ghost signals: { 1 ≤ depth → signal.0 + depth ≤ 2147483648 },
    ghost exprs: { 1 ≤ depth → current.0 + depth * (last + 1) ≤ 2147483648 },
    ghost few: { depth ≤ 16384 },
}

// A RAM's sizes and clock: the words' width, the address's, the clock's signal and its edge.
#[derive(Clone, Copy, Debug, PartialEq, Eq)]
pub struct RamShape {
    pub width: u32,
    pub address: u32,
    pub clock: SignalId,
    pub edge: u32,
}
