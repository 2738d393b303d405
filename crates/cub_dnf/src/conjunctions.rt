//! Normal forms. A formula is gone through once, with a list for it or for its negation, so negations need no pass of
//! their own. The table of lists is the usual one of disjunctive normal forms.

ghost use Rattle.std.specs.Prelude.{◌≡◌, ℕ, nat_le, unsigned_abs, true, map, IsTrue, IfOk, if◌then◌else◌};
ghost use Rattle.std.specs.List.{list_all};
ghost use Rattle.cub_proto.specs.StateOf.{signature_of};
ghost use Rattle.cub_proto.specs.Negation.{negated};
ghost use Rattle.cub_proto.specs.Fits.{literal_fits, formula_fits};
ghost use Rattle.cub_dnf.specs.Lists.{all_joins, chained, list_of, side, lists_of_equation};
ghost use Rattle.cub_dnf.specs.Normal.{IsNormal};
ghost use Rattle.cub_dnf.specs.Measured.{measured};
ghost use Rattle.cub_dnf.specs.Fits.{fits, has_text_bounds, greatest_formula_bound};

use crate::fault::DnfFault;
use crate::formula::Formula;
use crate::measured::Measured;
use cub_proto::{Conjs, ISide, Lit, Protocol, negated};
use std::alloc::{AllocError, Global};

fn literal_of(protocol: &Protocol, width: u16, lit: &Lit, holds: bool) -> Lit
    requires { IsTrue (literal_fits (signature_of protocol.now) width lit.now) }
    ensures { result ≡ (if holds then lit.now else negated (signature_of protocol.now) lit.now) }
{
    if holds {
        *lit
    } else {
        negated(protocol, width, lit)
    }
}

fn equation(
    alloc: Global,
    a: ISide,
    b: ISide,
    bound: i64,
    holds: bool,
) -> Result<Measured, AllocError>
    requires { IsTrue (nat_le (unsigned_abs bound) greatest_formula_bound) }
    ensures { IfOk result (λ m. m ≡ measured (side holds (lists_of_equation a b bound))) }
{
    if holds {
        let least = Lit::Diff {
            a: b,
            b: a,
            bound: -bound,
        };
        Measured::both(alloc, Lit::Diff { a, b, bound }, least)
    } else {
        let less = Lit::Diff {
            a,
            b,
            bound: bound - 1,
        };
        let more = Lit::Diff {
            a: b,
            b: a,
            bound: -bound - 1,
        };
        Measured::either(alloc, less, more)
    }
}

#[cycle(conjunctions)]
fn conjunctions(
    protocol: &Protocol,
    width: u16,
    formula: &Formula,
    holds: bool,
) -> Result<Measured, AllocError>
    requires { IsTrue (fits (signature_of protocol.now) width formula.now) }
    ensures { IfOk result (λ m. m ≡ measured (list_of (signature_of protocol.now) holds formula.now)) }
{
    let alloc = protocol.sorts.allocator();
    match formula {
        Formula::Const(value) => Measured::constant(alloc, *value == holds),
        Formula::One(lit) => {
            let own = literal_of(protocol, width, lit, holds);
            Measured::literal(alloc, own)
        }
        Formula::IntEq { a, b, bound } => equation(alloc, *a, *b, *bound, holds),
        Formula::Not(part) => conjunctions(protocol, width, part.get(), !holds),
        Formula::All(parts) => {
            if holds {
                all_joined(protocol, width, parts.as_slice(), true)
            } else {
                all_chained(protocol, width, parts.as_slice(), false)
            }
        }
        Formula::Any(parts) => {
            if holds {
                all_chained(protocol, width, parts.as_slice(), true)
            } else {
                all_joined(protocol, width, parts.as_slice(), false)
            }
        }
    }
}

#[cycle(conjunctions)]
fn all_joined(
    protocol: &Protocol,
    width: u16,
    parts: &[Formula],
    holds: bool,
) -> Result<Measured, AllocError>
    requires { IsTrue (list_all (fits (signature_of protocol.now) width) parts.now) }
    ensures { IfOk result (λ m. m ≡ measured (all_joins (map (list_of (signature_of protocol.now) holds) parts.now))) }
{
    let alloc = protocol.sorts.allocator();
    let mut found = Measured::constant(alloc, true)?;
    for part in parts {
        let next = conjunctions(protocol, width, part, holds)?;
        found = found.joined(alloc, next)?;
    }
    Ok(found)
}

#[cycle(conjunctions)]
fn all_chained(
    protocol: &Protocol,
    width: u16,
    parts: &[Formula],
    holds: bool,
) -> Result<Measured, AllocError>
    requires { IsTrue (list_all (fits (signature_of protocol.now) width) parts.now) }
    ensures { IfOk result (λ m. m ≡ measured (chained (map (list_of (signature_of protocol.now) holds) parts.now))) }
{
    let alloc = protocol.sorts.allocator();
    let mut found = Measured::constant(alloc, false)?;
    for part in parts {
        let next = conjunctions(protocol, width, part, holds)?;
        found = found.chained(next)?;
    }
    Ok(found)
}

/// The list of the formula, over places below the width. Of the protocol the sorts, globals and arrays are read alone.
pub fn normal(protocol: &Protocol, width: u16, formula: &Formula) -> Result<Conjs, DnfFault>
    requires { IsTrue (fits (signature_of protocol.now) width formula.now) }
    ensures answer { IsNormal result (list_of (signature_of protocol.now) true formula.now) }
    ensures fits { IfOk result (λ list. IsTrue (has_text_bounds formula.now) → IsTrue (formula_fits (signature_of protocol.now) width list)) }
{
    let found = conjunctions(protocol, width, formula, true)?;
    if found.count > 64 {
        return Err(DnfFault::TooMany);
    }
    if found.width > 64 {
        return Err(DnfFault::TooWide);
    }
    match found.list {
        Some(list) => Ok(list),
        None => unreachable!(),
    }
}
