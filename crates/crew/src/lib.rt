//! The search by one worker: the log of a protocol and a budget, expanded until it has a verdict.
#![tactic(auto)]

use cube_core::Log;
use predecessors::Predecessors;

/// The log of a search by pieces.
pub type SearchLog = Log<Predecessors>;

// What a search ends with.
mod ended;

pub use ended::Ended;

// The search.
mod searching;

pub use searching::{check_one, go_on};

// Laws.
mod laws;

pub use laws::one_worker_has_one_log;

#[cfg(test)]
mod tests;
