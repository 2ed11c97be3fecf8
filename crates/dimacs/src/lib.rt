// Nets from files: what a file says, tested line by line, and the loads of maps and sheets.
#![tactic(auto)]

pub mod document;
pub mod draft;
pub mod load;
pub mod sites;
