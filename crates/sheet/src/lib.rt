// One net on each sheet: its terminals, edited one at a time, its plan of least metal, and the audit of filed plans.
#![tactic(auto)]

pub mod call;
pub mod net;
pub mod run;
pub mod sheet;
