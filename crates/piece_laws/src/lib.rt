//! Pre-images and certificates: a state leads into a cube by crashes and one event exactly where it meets a piece, what the
//! label of a piece says, and that cubes which pass the test of a certificate are inductive. Definitions and laws alone;
//! the laws are the contracts of calls that do nothing.
#![tactic(auto)]

// Pieces and their labels.
pub use piece_choices::{Label, Piece, Pieces};

// Laws: predecessors, what a label says, the test of a certificate.
mod laws;

pub use laws::{
    certificate_is_inductive, cover_lines_imply_test, labels_name_events, pieces_are_predecessors,
};
