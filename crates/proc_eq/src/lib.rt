//! Equality of processes.
#![tactic(auto)]

// Classes of sides.
mod labels;

// Processes for the classes.
mod choice;

// The scratch.
mod scratch;

pub use scratch::ProcScratch;

#[cfg(test)]
mod tests;
