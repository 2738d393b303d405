//! The text of a printed protocol is read as the protocol. Definitions and laws alone; the laws are the contracts of calls that
//! do nothing.
#![tactic(auto)]

mod laws;

pub use laws::printed_text_reads_as_its_protocol;
