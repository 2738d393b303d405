//! Pieces.
#![tactic(auto)]

// The steps of a search.
mod step;
mod steps;

// What a search has fixed.
mod job;

// The work record.
mod work;

pub use work::Work;

// The options of steps.
mod options;

// Literals that say something by themselves.
mod alone;

// The cube of a whole draft.
mod whole;

// Who takes the pieces.
mod list;
mod receiver;

pub use receiver::Receiver;

// Steps without a choice.
mod idle;

// The walk through all choices.
mod walk;

// The pieces of a cube.
mod pieces_of;

pub use pieces_of::{each_piece, pieces};

// Which cubes have their pieces listed.
mod expandable;

pub use expandable::{GREATEST_EXPANDED, WIDEST_EXPANDED, is_expandable};
