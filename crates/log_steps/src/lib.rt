//! The steps of a search's log: judging a node, and what a commit does with a judgement, each proved apart from the type of
//! the log. `cube_core` puts them together.
#![tactic(auto)]

// What the log asks of the theory and of pre-images.
mod deciding;

pub use deciding::{Decisions, Expands};

// The theory as what decides.
mod scratch;

// Judgements of nodes.
mod judgement;

pub use judgement::{Links, Pick, Picks, Under, Verdict};

mod judging;

pub use judging::{judge, judge_list};

// The whole list of pieces.
mod walking;

pub use walking::pieces_of;

// What the first event treats.
mod roots;

pub use roots::consistent_goals;

// Steps of a commit.
mod committing;
mod keeping;
mod linking;

pub use committing::{Committed, commit};
pub use keeping::kept;
pub use linking::link_all;

// Lists of added cubes that are given.
mod admitting;

pub use admitting::{ListFault, admit_list};
