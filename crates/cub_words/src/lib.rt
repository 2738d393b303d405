//! The words of the command line: the command that they ask for, or the first fault with its word.
#![tactic(auto)]

// Commands, their names and options.
mod table;

pub use table::{CommandName, OptionName};

// What the words ask for, and what is wrong with them.
mod request;

pub use request::{Command, WordsFault, WordsKind};

// Reading words.
mod given;
mod numbers;
mod reading;

pub use numbers::number_within;
pub use reading::{read, waits};

// Examples that the definitions decide.
mod rows;

pub use rows::words_are_read_so;

#[cfg(test)]
mod tests;
