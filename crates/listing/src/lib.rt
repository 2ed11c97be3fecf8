// The plan of a sheet as text: `s AREA`, and then `f FROM TO CURRENT` for each wire; and the answer to a whole file.
#![tactic(auto)]

mod pen;
pub mod planning;
pub mod refusal;

pub use pen::{answer, list};
