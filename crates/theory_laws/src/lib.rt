//! Consistency and entailment of conjunctions: their definitions over all states of a protocol and all numbers of
//! processes, the one state that solutions of the parts of a conjunction make, and its laws.
#![tactic(auto)]

// Laws.
mod laws;

pub use laws::{
    chosen_start_states_start, chosen_states_satisfy, consistent_where_parts_are_solved,
    entailed_where_negation_fails, solutions_make_a_state, start_literals_fit, start_states_meet,
};
