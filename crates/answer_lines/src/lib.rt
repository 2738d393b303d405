//! What the program writes of an answer that is one line: its status and its text.
#![tactic(auto)]

// An answer.
mod answer;

pub use answer::Answer;

// Lines of refused words, protocols and texts of results.
mod kinds;
mod refused;

pub use refused::{
    at_long_protocol, at_long_trace, at_protocol_fault, at_trace_fault, at_words_fault,
};

// Lines of the replay of a trace.
mod replays;

pub use replays::{at_accepted, at_refusal};
