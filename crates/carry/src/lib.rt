// The carry chain. (lib.rs of the Rust: emit_ccu2c.)

#![tactic(auto)]

pub mod ccu2c;
