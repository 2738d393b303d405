//! Journals: the text of a log whose verdict is UNKNOWN, written, and read exactly.
#![tactic(auto)]

// Why a text is refused.
mod fault;

pub use fault::JournalFault;

// Writing.
mod writer;

pub use writer::write;

// What the next line of a text is, for the kind of a fault.
mod form;
mod kinds;
mod look;

pub use look::Look;

// Reading: numbers, what a line tells, the single lines, the added cubes of an event.
mod items;
mod lines;
mod numbers;
mod told;

// Line by line.
mod closing;
mod head;
mod reader;

pub use reader::read;

// Laws of the texts.
mod laws;

pub use laws::{has_no_accepted_front, one_fault, one_reading, reads_back, reads_its_text};
