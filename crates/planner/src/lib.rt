// Plans a net: the wires of least area between its sources and sinks, with the marks that show it.
#![tactic(auto)]

mod ends;
pub mod plan;
mod side;

pub use ends::plan_of;
