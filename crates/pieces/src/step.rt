//! The steps of a search: one choice each.

/// A choice: a parameter's place, the guard, the universal guard at a place, the branch that counts for a term, the
/// literal that fails of its branch `b`, the pick of a term, the universal guard at a new place of picks. Terms are
/// named by their numbers.
#[derive(Clone, Copy, Debug)]
pub(crate) enum Step {
    Param,
    Guard,
    Other(u8),
    Branch(usize),
    Fail(usize, u8),
    Choose(usize),
    Late(usize),
}
