//! The canonical text of a protocol: one declaration a line, single blanks, normal forms for formulas.
#![tactic(auto)]

// Names, terms, sides and literals.
mod literals;
mod terms;

// Updates and transitions.
mod updates;

// Declarations and whole protocols.
mod printer;

pub use printer::print;

// Laws: what the readers of texts make of it.
mod laws;

pub use laws::marks_are_read;

#[cfg(test)]
mod tests;
