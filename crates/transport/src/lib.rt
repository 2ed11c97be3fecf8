// Least-cost transport from sources to sinks on plain numbers.
#![tactic(auto)]

pub mod case;
mod load;
pub mod plan;

pub use load::solve;
