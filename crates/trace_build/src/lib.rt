//! Traces of bad nodes: from a chain of cubes, of which a start state meets the first, the run that anyone can replay.
#![tactic(auto)]

// Chains.
pub use trace_laws::{Chain, Link};

// The label of one piece.
mod label;

// Who stands where, and the step that a label names.
mod picking;
mod standing;
mod steps;

// The steps along a chain.
mod walking;

// The chosen start state.
mod starting;

// Crashes where a step is blocked.
mod blocking;
mod freeing;

// The trace of a chain.
mod building;

pub use building::build_chain;

// The trace of the bad node of a log.
mod bad_node;
mod origins;

pub use bad_node::build;
