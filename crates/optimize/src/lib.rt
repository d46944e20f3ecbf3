// Local optimizations applied while one-bit expressions are recorded.

#![tactic(auto)]

pub mod bitwise;
pub mod lut;
pub mod mux;
pub mod optimizer;
