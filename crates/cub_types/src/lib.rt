//! Typing: which trees read as protocols and which protocol each is, or its one fault with its token.
//! Sides and names are typed below; here are formulas, guards, goals, updates and the whole.
#![tactic(auto)]

pub use cub_names::{Fault, TypeFault, TypeKind};

// Formulas.
mod formulas;
mod relations;

// Guards.
mod guards;

// Normal forms, the start formula, goals.
mod bodies;

// Updates.
mod joined;
mod targets;
mod updating;
mod written;

// Transitions.
mod transitions;

// The whole.
mod reading;

pub use reading::resolve;

// Laws.
mod laws;

pub use laws::{
    a_protocol_or_a_fault, kept_fault_is_first, no_fault, no_fault_is_a_protocol, nothing_is_lost,
    one_fault, one_protocol,
};

// Examples.
mod rows;

pub use rows::{rows_of_faults, rows_of_relations, rows_of_sides, rows_of_updates};
