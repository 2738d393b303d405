//! An update by itself: what it writes, its cases with their conditions in normal form, and its last value.

use cub_base::Items;
use cub_parse::Leaf;
use cub_proto::{Conjs, Sort, Value};

/// What an update writes: a global, the cell of an array at a parameter, or all cells of an array.
#[derive(Clone, Copy, Debug)]
pub enum Aim {
    Global(u16, Sort),
    At(u16, Sort, u8),
    Whole(u16, Sort),
}

/// A case: the alternatives of its condition and its value, each where it is not refused.
#[derive(Debug, Drop)]
pub struct Case {
    pub conds: Option<Conjs>,
    pub value: Option<Value>,
}

/// The cases of an update.
pub type Cases = Items<Case>;

/// An update. `token` is its target, `mark` its first `?`.
#[derive(Debug, Drop)]
pub struct Written {
    pub aim: Option<Aim>,
    pub token: u32,
    pub mark: Option<Leaf>,
    pub cases: Cases,
    pub last: Option<Value>,
}

/// Updates in the order of the text.
pub type Writes = Items<Written>;
