// Files in the DIMACS minimum-cost flow layout, read word by word and line by line.
#![tactic(auto)]

pub mod line;
pub mod reader;
pub mod refusal;
