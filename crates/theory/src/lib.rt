//! Consistency and entailment of conjunctions over all states of a protocol and all numbers of processes, and chosen
//! states that meet them.
#![tactic(auto)]

// The scratch, made once for a protocol.
mod scratch;

pub use scratch::{GREATEST_WIDTH, Scratch};

// Kinds of literals, masks of constructors.
mod kinds;
mod masks;

// Consistency.
mod consistency;

pub use consistency::{are_consistent, consistent, stay_consistent, with_start};

// Entailment.
mod entailment;

pub use entailment::{entails, follows, load};

// Chosen states.
mod chosen;

pub use chosen::{state_of, state_with_start};
