// Rulers: which sites are known, and how long a wire from one to another is.
#![tactic(auto)]

pub mod derated;
pub mod factor;
pub mod map;
pub mod plane;
pub mod refusal;
pub mod ruler;
pub mod stack;
