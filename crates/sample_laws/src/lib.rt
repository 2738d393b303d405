//! Laws of the sample protocol.
#![tactic(auto)]

// It is safe.
mod laws;

pub use laws::sample_is_safe;
