//! What was read and printed reads as what it was. Definitions and laws alone; the laws are the contracts of calls that do nothing.
#![tactic(auto)]

mod laws;

pub use laws::printed_text_is_read_back;
