//! Laws over logs: the live node that covers a node, and the cubes of a certificate.
#![tactic(auto)]

// Following links.
mod following;

pub use following::live_cover;

// The cubes of the live nodes.
mod certificate;

pub use certificate::cubes_of;
