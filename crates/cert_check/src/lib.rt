//! Certificates, checked without the search: whether a list of cubes proves a protocol safe.
#![tactic(auto)]

// Why a certificate is refused.
mod refused;

pub use refused::Refused;

// Covering: the places of literals, which places are free, injections, one cube among many.
mod covering;
mod injections;
mod rows;
mod standing;

// Cover lines: what each is about, how far they were gone through, whether one names a covering cube.
mod cursor;
mod keys;
mod naming;

// The obligations: on start states, on goals, on pieces.
mod goals;
mod of_pieces;
mod starts;

// The tests of both versions.
mod versions;

pub use versions::{check, check2};

// Laws.
mod laws;

pub use laws::{refusals_are_one, refusals_exclude_the_test};
