//! The pieces of a cube, made by choices, as what the log of a search takes from pre-images: the relation and its laws, and
//! the walk through them.
#![tactic(auto)]

// The relation.
mod relation;

pub use relation::Predecessors;

// The pieces one by one.
mod walking;

pub use walking::PieceWalk;

// Laws.
mod laws;

pub use laws::log_test_is_the_test;
