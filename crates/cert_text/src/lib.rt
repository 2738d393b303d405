//! Certificates as text, with and without cover lines: written, and read exactly.
#![tactic(auto)]

// Why a text is refused.
mod fault;

pub use fault::CertFault;

// What a text says.
mod certificate;

pub use certificate::Certificate;

// Writing.
mod writer;

pub use writer::{write, write2};

// Reading: numbers, the form of a cover line, what it tells, the line.
mod covers;
mod form;
mod numbers;
mod told;

// Line by line.
mod reader;

pub use reader::read;

// Laws of the texts.
mod laws;

pub use laws::{has_no_accepted_front, one_reading, reads_back, reads_its_text};
