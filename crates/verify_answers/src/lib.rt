//! What `verify` answers: a text is read as a certificate and its test is made; the result is a status and a line.
#![tactic(auto)]

// The lines.
mod lines;

pub use lines::at_long_certificate;

// Reading and testing.
mod verifies;

pub use verifies::certificate_answer;

// Laws.
mod laws;

pub use laws::one_certificate_answer;
