// Tests of rulers, transport and sheets through their public calls.
#![tactic(auto)]

pub mod strip;
#[cfg(test)]
mod tests;
