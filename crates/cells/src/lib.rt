// The small cells. (lib.rs of the Rust: emit_cell's arms.) Carry chains, PLL and JTAG have crates of their own, over the definitions here.

#![tactic(auto)]

pub mod emit; // emit.rt: a function for each kind
