//! Literals and values. Each negation of a literal is one literal, so conjunctions are all that the search needs.

use cub_base::Items;

/// What a global or the cells of an array hold: a constructor of the enumeration with that number (0 is `bool`),
/// a process, or an integer. Arrays hold no processes.
#[derive(Clone, Copy, Debug, PartialEq, Eq, PartialOrd, Ord)]
pub enum Sort {
    Fin(u16),
    Proc,
    Int,
}

/// What has a value at a state with a process for each place: a global, or the cell of an array at a place.
#[derive(Clone, Copy, Debug, PartialEq, Eq, PartialOrd, Ord)]
pub enum Term {
    Global(u16),
    Cell(u16, u8),
}

/// A side of an equality of processes: a process global, or the process at a place.
#[derive(Clone, Copy, Debug, PartialEq, Eq, PartialOrd, Ord)]
pub enum PSide {
    Global(u16),
    Place(u8),
}

/// A side of a difference: zero, or an integer term.
#[derive(Clone, Copy, Debug, PartialEq, Eq, PartialOrd, Ord)]
pub enum ISide {
    Zero,
    At(Term),
}

/// A literal. Bit `c` of a mask stands for the constructor `c`; `Diff` says `a - b <= bound`.
/// The order is that of the variants, then of the fields.
#[derive(Clone, Copy, Debug, PartialEq, Eq, PartialOrd, Ord)]
pub enum Lit {
    FinIn { term: Term, mask: u64 },
    FinEq { a: Term, b: Term },
    FinNe { a: Term, b: Term },
    ProcEq { a: PSide, b: PSide },
    ProcNe { a: PSide, b: PSide },
    Diff { a: ISide, b: ISide, bound: i64 },
}

/// What an update gives: a constructor, the value of a finite term, a process, an integer side plus a constant,
/// or any value of the target's sort.
#[derive(Clone, Copy, Debug, PartialEq, Eq, PartialOrd, Ord)]
pub enum Value {
    Con(u8),
    Read(Term),
    Proc(PSide),
    Sum { base: ISide, add: i64 },
    Any,
}

/// A conjunction.
pub type Lits = Items<Lit>;
/// A disjunction of conjunctions.
pub type Conjs = Items<Lits>;
