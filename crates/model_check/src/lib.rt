// What refuses a run before any loop is looked for: 12, then 1 and 14.

#![tactic(auto)]

pub mod call; // call.rt: 1 and 14, and all three
pub mod check; // check.rt: 12, a malformed model
mod widths; // widths.rt: the widths of a list's records, by tables
