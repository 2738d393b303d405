//! Finite terms: constructors that satisfy equalities, disequalities and memberships.
#![tactic(auto)]

// Masks of constructors.
mod bits;

// Terms by number.
mod terms;

// Narrowing.
mod narrow;

// What each literal says of a term alone.
mod gather;

// Search.
mod search;

// The scratch.
mod scratch;

pub use scratch::FinScratch;

#[cfg(test)]
mod tests;
