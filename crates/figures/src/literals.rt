//! Conjunctions of a given number of terms.

ghost use Rattle.std.specs.Prelude.{◌<◌, ◌≤◌};

use crate::parts::{difference, finite, integer, integer_cell, mask};
use cub_base::Items;
use cub_proto::{Lit, Lits};
use std::alloc::{AllocError, Global};

/// Kinds of conjunctions.
#[derive(Clone, Copy, Debug, PartialEq, Eq)]
pub enum Kind {
    /// Each finite term has one of two constructors.
    Masks,
    /// Each integer term is less than the next.
    Integers,
    /// The masks, and each finite term differs from the next.
    Disequalities,
}

/// Each integer term is one or two more than the next: differences both ways.
pub fn steps(alloc: Global, terms: u8) -> Result<Lits, AllocError> {
    let mut lits = Items::new(alloc);
    for number in 1..terms {
        let first = integer(number - 1);
        let second = integer(number);
        lits.push(difference(first, second, 2))?;
        lits.push(difference(second, first, -1))?;
    }
    Ok(lits)
}

fn masks(alloc: Global, terms: u8) -> Result<Lits, AllocError> {
    let mut lits = Items::new(alloc);
    for number in 0..terms {
        lits.push(Lit::FinIn {
            term: finite(number),
            mask: mask(number),
        })?;
    }
    Ok(lits)
}

fn integers(alloc: Global, terms: u8) -> Result<Lits, AllocError> {
    let mut lits = Items::new(alloc);
    for number in 1..terms {
        lits.push(difference(integer_cell(number - 1), integer_cell(number), -1))?;
    }
    Ok(lits)
}

fn disequalities(alloc: Global, terms: u8) -> Result<Lits, AllocError> {
    let mut lits = masks(alloc, terms)?;
    for number in 1..terms {
        lits.push(Lit::FinNe {
            a: finite(number - 1),
            b: finite(number),
        })?;
    }
    Ok(lits)
}

/// The conjunction of that kind over so many terms.
pub fn conjunction(alloc: Global, kind: Kind, terms: u8) -> Result<Lits, AllocError> {
    match kind {
        Kind::Masks => masks(alloc, terms),
        Kind::Integers => integers(alloc, terms),
        Kind::Disequalities => disequalities(alloc, terms),
    }
}

/// The conjunction of that kind over so many places: four finite terms a place, or two integer ones.
pub fn at_places(alloc: Global, kind: Kind, places: u8) -> Result<Lits, AllocError>
    requires { places ≤ 11 }
{
    match kind {
        Kind::Integers => conjunction(alloc, kind, 2 * places),
        _ => conjunction(alloc, kind, 4 * places),
    }
}

/// A literal of that kind which the conjunction entails.
pub fn entailed(kind: Kind) -> Lit {
    match kind {
        Kind::Masks => Lit::FinIn {
            term: finite(0),
            mask: 7,
        },
        Kind::Integers => difference(integer_cell(0), integer_cell(3), -2),
        Kind::Disequalities => Lit::FinNe {
            a: finite(1),
            b: finite(0),
        },
    }
}
