//! The sample protocol is what its text reads as. Definitions and laws alone; the laws are the contracts of calls that do nothing.
#![tactic(auto)]

mod laws;

pub use laws::sample_is_what_its_text_reads_as;
