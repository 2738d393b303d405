//! The outside as three traits: where texts come from, where the answer goes, and where workers pass.
#![tactic(auto)]

// Where texts come from.
mod shelf;

pub use shelf::{LoadFault, Shelf};

// Where the answer goes.
mod sink;

pub use sink::{Failed, Sink, put_all};

// Where workers pass.
mod gate;

pub use gate::{Gate, OpenGate};

// The outside itself: files and standard output.
mod file_shelf;
mod out_sink;

pub use file_shelf::FileShelf;
pub use out_sink::OutSink;

// The outside in memory.
mod calls;
mod files;
mod mem_shelf;
mod mem_sink;

pub use calls::Calls;
pub use files::{File, Files};
pub use mem_shelf::MemShelf;
pub use mem_sink::MemSink;

#[cfg(test)]
mod tests;
#[cfg(test)]
mod write_back;
