//! Cover lines: for each obligation of a certificate that a search has found, the cube that covers it and how.
#![tactic(auto)]

// The first cube that covers.
mod covering;

// Lines of the unsafe conjunctions, and of pieces.
mod goals;
mod walking;

// All lines of a log.
mod lines;

pub use lines::{cover_lines, cover_lines_by};

// Laws.
mod laws;

pub use laws::{cover_lines_are_one, safe_logs_make_lawful_certificates};
