//! From the bytes of a text to the protocol that it reads as, or its first fault with its place.
#![tactic(auto)]

// Faults.
mod fault;

pub use fault::{TextCode, TextFault};

// Reading.
mod reader;

pub use reader::{PROTOCOL_LIMIT, read_protocol};

#[cfg(test)]
mod tests;
