//! The text of a trace: written, and read exactly.
#![tactic(auto)]

// Why a text is refused.
mod fault;

pub use fault::TraceFault;

// Writing.
mod writer;

pub use writer::write;

// Reading, line by line.
mod lines;
mod reader;
mod start;
mod told;

pub use reader::read;

// Laws of the texts.
mod laws;

pub use laws::{has_no_accepted_front, one_reading, reads_back, reads_its_text};
