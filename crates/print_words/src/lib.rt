//! What the readers of texts make of a printed protocol. Definitions and laws alone; the laws are the contracts of calls
//! that do nothing.
#![tactic(auto)]

mod laws;

pub use laws::printed_words_are_read;
