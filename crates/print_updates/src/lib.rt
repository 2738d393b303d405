//! Printed transitions are read as what they were printed from. Definitions and laws alone; the laws are the contracts of calls
//! that do nothing.
#![tactic(auto)]

mod laws;

pub use laws::printed_transitions_are_read;
