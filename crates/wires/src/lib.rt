// Lists of wires between terminals: what they carry, how much metal they use, and when no list uses less.
#![tactic(auto)]

pub mod area;
pub mod balance;
pub mod terminal;
pub mod wire;
