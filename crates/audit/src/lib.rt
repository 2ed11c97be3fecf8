// The terminals of a net by id, and the audit of filed plans against them.
#![tactic(auto)]

pub mod current;
pub mod refusal;
pub mod table;
