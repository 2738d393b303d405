//! What a chain of pieces says: the cubes from one that a start state meets back to an unsafe conjunction, the steps that
//! lead along them, and where processes must crash first. Definitions and laws alone; the laws are the contracts of
//! calls that do nothing.
#![tactic(auto)]

// Chains.
mod chain;

pub use chain::{Chain, Link};

// Laws: cubes of chains fit, steps along a chain lead to its goal, and are with crashes an accepted trace.
mod laws;

pub use laws::{chains_lead_to_goals, cubes_of_chains_fit, steps_make_traces};
