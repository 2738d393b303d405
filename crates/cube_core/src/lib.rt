//! The log of a search as a value that changes by legal events alone.
#![tactic(auto)]

// What the log asks of the theory and of pre-images, and what it shares with other crates.
pub use cub_proto::Budget;
pub use log_form::{
    Added, AddedList, Fate, LogEvent, LogEvents, LogVerdict, Mark, Node, Nodes, Origin, PreImages,
};
pub use log_steps::{Decisions, Expands};

// Judging a node on the first nodes of a log.
pub use log_steps::{Links, Pick, Picks, Under, Verdict, judge};

// What an expansion came to.
mod outcome;
mod refusing;

pub use outcome::Outcome;

// Given events.
mod fault;
mod given;

pub use fault::AdmitFault;

// The least node that waits.
mod waiting;

// The log.
mod copies;
mod log;

pub use log::Log;
