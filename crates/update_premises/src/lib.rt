//! Every protocol that some text reads as meets the premises of the laws of printing, as far as they speak of its transitions, and
//! so all of its literals can be written. Definitions and laws alone; the laws are the contracts of calls that do nothing.
#![tactic(auto)]

mod laws;

pub use laws::update_premises_are_met;
