//! What is chosen for each term that a cube mentions, when one goes back through a step.

use cub_base::Items;
use cub_proto::{Term, Value};

/// The way through the branches of a term's update. `branch` is the number of the branch that counts, and the number
/// of branches for the last value. `fails` has, for each earlier branch in order, the number of the literal of its
/// condition that fails. `pick` is the value that the term takes where the chosen value is `?`, and `None` elsewhere:
/// a constructor, the process at a place, or the term's own global for its old value. A term without an update has
/// branch 0 and no fails.
#[derive(Debug, Drop)]
pub struct Choice {
    pub term: Term,
    pub branch: u8,
    pub fails: Fails,
    pub pick: Option<Value>,
}

/// Numbers of failing literals.
pub type Fails = Items<u8>;

/// One choice a term, in the order of terms.
pub type Choices = Items<Choice>;
