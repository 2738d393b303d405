//! Accepted words of the command line, read by `clap` as one simple command.
#![tactic(auto)]

// The command line as `clap` is told of it.
mod line;

// The values that it found.
mod found;

// Words to the command.
mod parser;

pub use parser::{matched, parse};

// What the command line takes and finds, as a law.
mod laws;

pub use laws::{accepted_words_are_found, accepted_words_are_taken};

#[cfg(test)]
mod tests;
