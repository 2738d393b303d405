//! The sample protocol of K levels, a family whose search grows with K: each schedule ends with `(K - 1)(K + 2) / 2`
//! live nodes, so that it measures and compares searches.
#![tactic(auto)]

// The parts and the whole.
mod levels;
mod steps;
mod whole;

pub use whole::sample;

#[cfg(test)]
mod tests;
