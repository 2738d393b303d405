//! The start test: whether some start state of a protocol meets a cube, over all numbers of processes, and which one is
//! chosen.
#![tactic(auto)]

// The start test.
mod start;

pub use start::{meets_start, start_state};
