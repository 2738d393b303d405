//! Cubes as text, each with one spelling: written, and read exactly.
#![tactic(auto)]

// Why a text is no cube.
mod fault;

pub use fault::CubeFault;

// Writing.
mod writer;

pub use writer::{print_cube, push_cube};

// Reading: the parts of a text, its form, what it names.
mod form;
mod meaning;
mod parts;
mod sides;

// What lines around a cube are read with.
pub use form::{is_number, is_place, words_in};
pub use parts::{before, onward};

// The whole.
mod reader;

pub use reader::read_cube;

// Laws of the texts.
mod laws;

pub use laws::{has_one_spelling, reads_back};

#[cfg(test)]
mod tests;
