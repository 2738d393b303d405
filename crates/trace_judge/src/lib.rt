//! The judgement of a trace: whether it is a run of the protocol to an unsafe state, and what it says of its crashes.
#![tactic(auto)]

// Judging.
mod judge;

pub use judge::{Refusal, replayed};

// Laws of the judgement.
mod laws;

pub use laws::{no_reason, one_reason};
