// The text of a record, of a model's first line and of a refusal, in a lent buffer.

#![tactic(auto)]

pub mod fields;
pub mod names;
pub mod records;
