//! What names stand for.

use cub_proto::Sort;

/// What a name of the space of constructors, globals and arrays stands for.
#[derive(Clone, Copy, Debug)]
pub enum What {
    /// The constructor of a type, both by number.
    Con(u16, u8),
    /// A global by number, with its sort.
    Global(u16, Sort),
    /// An array by number, with the sort of its cells.
    Array(u16, Sort),
}
