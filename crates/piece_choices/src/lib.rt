//! Pieces: which choices there are on the way back through a step, in which order, and what each selection of choices
//! says of the state before. A pre-image of a cube is the list of the consistent ones.
#![tactic(auto)]

// Pieces and their labels.
mod piece;

pub use piece::{Label, Piece, Pieces};

// Laws: the list is one, and what its pieces keep.
mod laws;

pub use laws::{pieces_are_one_list, pieces_fit};
