// Clock generation and the idle JTAG port. (lib.rs of the Rust: emit_cycle_pll, emit_idle_jtagg.)

#![tactic(auto)]

pub mod jtagg;
pub mod pll;
