//! The declarations of a printed protocol declare what it does. Definitions and laws alone; the laws are the contracts of
//! calls that do nothing.
#![tactic(auto)]

mod laws;

pub use laws::printed_declarations_are_read;
