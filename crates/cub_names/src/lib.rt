//! Names of a protocol text: what declarations declare, what names stand for, and the sides that are built from them.
//! Typing looks for all faults and answers the first; a definition here gives a value, where there is one, and the list
//! of all faults, and the code keeps the first of them as it goes.
#![tactic(auto)]

// Faults, and the first of them.
mod fault;

pub use fault::{Fault, TypeFault, TypeKind};

mod first;

pub use first::{tell, tell_each};

// Leaves of the tree as words.
mod words;

pub use words::{amount, may_declare, word};

// The declarations of a text, and their faults.
mod faults;
mod lists;
mod repeats;
mod types;
mod values;

pub use faults::forbidden;
pub use lists::{behind, front};
pub use repeats::repeated;

// What names stand for.
mod meaning;
mod names;

pub use meaning::What;
pub use names::{Names, names_of};

// Process variables.
mod scope;

pub use scope::{Local, Scope, is_value, locals, place_of, variable_faults};

// Sides: names, cells and sums.
mod sides;
mod sums;

pub use sides::{Side, named, place_at, sort_of_side, what_at};
pub use sums::{Summed, sum_side};
