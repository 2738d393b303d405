//! Literals whose truth shows by their places and numbers alone. Most drafts that come to nothing have such a literal, and to
//! look at it costs far less than a test of the whole draft.

ghost use Rattle.std.specs.Prelude.{◌≡◌, drop};
ghost use Rattle.cub_cube.specs.Normal.{are_two_places};
ghost use Rattle.pieces.specs.Alone.{are_one_place, is_below_zero, is_false_alone, are_places, compares_places, may_be_met, says_more};

use cub_proto::{ISide, Lit, PSide};

fn are_two_places(a: PSide, b: PSide) -> bool
    ensures { result ≡ are_two_places a b }
{
    match (a, b) {
        (PSide::Place(p), PSide::Place(q)) => p != q,
        _ => false,
    }
}

fn are_one_place(a: PSide, b: PSide) -> bool
    ensures { result ≡ are_one_place a b }
{
    match (a, b) {
        (PSide::Place(p), PSide::Place(q)) => p == q,
        _ => false,
    }
}

fn is_below_zero(a: ISide, b: ISide, bound: i64) -> bool
    ensures { result ≡ is_below_zero a b bound }
{
    match (a, b) {
        (ISide::Zero, ISide::Zero) => bound < 0,
        _ => false,
    }
}

// Whether no state meets the literal, by its places and numbers alone.
fn is_false_alone(lit: &Lit) -> bool
    ensures { result ≡ is_false_alone lit.now }
{
    match *lit {
        Lit::FinIn { term: _, mask } => mask == 0,
        Lit::FinEq { a: _, b: _ } | Lit::FinNe { a: _, b: _ } => false,
        Lit::ProcEq { a, b } => are_two_places(a, b),
        Lit::ProcNe { a, b } => are_one_place(a, b),
        Lit::Diff { a, b, bound } => is_below_zero(a, b, bound),
    }
}

fn are_places(a: PSide, b: PSide) -> bool
    ensures { result ≡ are_places a b }
{
    match (a, b) {
        (PSide::Place(_), PSide::Place(_)) => true,
        _ => false,
    }
}

// Whether the literal speaks of places alone.
fn compares_places(lit: &Lit) -> bool
    ensures { result ≡ compares_places lit.now }
{
    match *lit {
        Lit::ProcEq { a, b } | Lit::ProcNe { a, b } => are_places(a, b),
        Lit::FinIn { term: _, mask: _ }
        | Lit::FinEq { a: _, b: _ }
        | Lit::FinNe { a: _, b: _ }
        | Lit::Diff {
            a: _,
            b: _,
            bound: _,
        } => false,
    }
}

/// Whether none of the literals from that number on is false by itself.
pub(crate) fn may_be_met(lits: &[Lit], from: usize) -> bool
    ensures { result ≡ may_be_met (drop from lits.now) }
{
    let mut at = from;
    while at < lits.len() {
        if is_false_alone(&lits[at]) {
            return false;
        }
        at += 1;
    }
    true
}

/// Whether one of the literals from that number on speaks of more than places.
pub(crate) fn says_more(lits: &[Lit], from: usize) -> bool
    ensures { result ≡ says_more (drop from lits.now) }
{
    let mut at = from;
    while at < lits.len() {
        if !compares_places(&lits[at]) {
            return true;
        }
        at += 1;
    }
    false
}
