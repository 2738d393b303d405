//! Difference constraints over numbered nodes.
#![tactic(auto)]

pub mod closure;
pub mod constraint;
pub mod differences;
mod search;

pub use closure::Closure;
pub use constraint::{Constraint, Constraints, Stored};
pub use differences::{Cycle, Differences};

#[cfg(test)]
mod tests;
