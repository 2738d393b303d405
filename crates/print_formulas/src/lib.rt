//! The start formula and the goals of a printed protocol are read as themselves. Definitions and laws alone; the laws are the
//! contracts of calls that do nothing.
#![tactic(auto)]

mod laws;

pub use laws::printed_bodies_are_read;
