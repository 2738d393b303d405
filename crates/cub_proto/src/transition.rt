//! Transitions: a guard, a universal guard, and updates that happen all at once.

use crate::literal::{Conjs, Lits, Value};
use cub_base::{Items, Name};

/// A case of an update: the value, where the condition is true and no earlier one is.
#[derive(Debug, Drop)]
pub struct Branch {
    pub cond: Lits,
    pub value: Value,
}

/// What an update changes: a global, or the cells of an array.
#[derive(Clone, Copy, Debug, PartialEq, Eq, PartialOrd, Ord)]
pub enum Target {
    Global(u16),
    Array(u16),
}

/// An update. In one of an array the place behind the parameters is the process whose cell is written.
#[derive(Debug, Drop)]
pub struct Update {
    pub target: Target,
    pub branches: Branches,
    pub last: Value,
}

/// A transition. The places 0 to `params - 1` are its parameters; in `others`, the universal guard, the place
/// `params` is every other alive process. `others` is the list of one empty conjunction where there is no such guard.
#[derive(Debug, Drop)]
pub struct Transition {
    pub name: Name,
    pub params: u8,
    pub guard: Conjs,
    pub others: Conjs,
    pub updates: Updates,
}

pub type Branches = Items<Branch>;

pub type Updates = Items<Update>;

pub type Transitions = Items<Transition>;
