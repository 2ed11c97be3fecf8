// Lists of bounded length that lie in the value itself: nothing allocates, and a copy cannot fail.
#![tactic(auto)]

pub mod bounded;
