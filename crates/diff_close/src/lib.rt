//! The integer literals of a conjunction, closed.
#![tactic(auto)]

// Terms as numbers.
mod names;

// Literals as constraints.
mod literals;

// The scratch.
mod scratch;

pub use diff_core::Cycle;
pub use scratch::DiffScratch;

#[cfg(test)]
mod tests;
