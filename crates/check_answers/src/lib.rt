//! What `check` and `sample` answer: the search by one worker, and its result as a status and a text.
#![tactic(auto)]

// The results, by the verdict of the log.
mod results;

// The search and its result.
mod checks;

pub use checks::check_answer;

// The search in the sample protocol.
mod samples;

pub use samples::sample_answer;

// Laws.
mod laws;

pub use laws::{answers_are_one, safe_and_unsafe_exclude};
