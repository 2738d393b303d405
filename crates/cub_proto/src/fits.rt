//! Which literals, values, updates and transitions fit what is declared. Each function is the test of that name in the
//! definitions, so that a reader of texts can ask before it makes a protocol.

ghost use Rattle.std.specs.Prelude.{◌≡◌, ◌+◌, ◌<◌, ◌^◌, nat_lt, nat_le, unsigned_abs};
ghost use Rattle.std.specs.List.{list_all};
ghost use Rattle.cub_proto.specs.Signature.{same_sort, is_sort, same_finite, constructors_at};
ghost use Rattle.cub_proto.specs.Fits.{place_fits, term_fits, process_side_fits, integer_side_fits, is_finite, literal_fits, is_bounded, greatest_bound, conjunction_fits, formula_fits, value_fits, branch_fits, update_width, update_fits_sort, update_fits};

use crate::declared::Declared;
use crate::literal::{Conjs, ISide, Lit, Lits, PSide, Sort, Term, Value};
use crate::transition::{Branch, Target, Update};

/// The greatest size of a bound of a protocol's literal.
pub const GREATEST_BOUND: u64 = 2_000_000_001;
/// The greatest size of a constant of a protocol's value.
pub const GREATEST_CONSTANT: u64 = 1_000_000_000;

/// Whether the sorts are the same.
pub fn same_sort(a: Sort, b: Sort) -> bool
    ensures { result ≡ same_sort a b }
{
    match (a, b) {
        (Sort::Fin(j), Sort::Fin(k)) => j == k,
        (Sort::Proc, Sort::Proc) | (Sort::Int, Sort::Int) => true,
        _ => false,
    }
}

/// Whether there is a sort, and it is this one.
pub fn is_sort(found: Option<Sort>, sort: Sort) -> bool
    ensures { result ≡ is_sort found sort }
{
    match found {
        Some(other) => same_sort(other, sort),
        None => false,
    }
}

/// Whether both are the same finite sort.
pub fn same_finite(a: Option<Sort>, b: Option<Sort>) -> bool
    ensures { result ≡ same_finite a b }
{
    match a {
        Some(Sort::Fin(number)) => is_sort(b, Sort::Fin(number)),
        Some(Sort::Proc) | Some(Sort::Int) | None => false,
    }
}

/// Whether there is a sort, and it is finite.
pub fn is_finite(sort: Option<Sort>) -> bool
    ensures { result ≡ is_finite sort }
{
    match sort {
        Some(Sort::Fin(_)) => true,
        Some(Sort::Proc) | Some(Sort::Int) | None => false,
    }
}

/// Whether the term's place, if it has one, is below the width.
pub fn place_fits(width: u16, term: Term) -> bool
    ensures { result ≡ place_fits width term }
{
    match term {
        Term::Global(_) => true,
        Term::Cell(_, place) => u16::from(place) < width,
    }
}

/// Whether the term is declared with the sort, and its place is below the width.
pub fn term_fits(declared: &Declared, width: u16, sort: Sort, term: Term) -> bool
    ensures { result ≡ term_fits declared.now width sort term }
{
    is_sort(declared.sort_of(term), sort) && place_fits(width, term)
}

/// Whether the side is a process global, or a place below the width.
pub fn process_side_fits(declared: &Declared, width: u16, side: PSide) -> bool
    ensures { result ≡ process_side_fits declared.now width side }
{
    match side {
        PSide::Global(global) => is_sort(declared.global_sort(global), Sort::Proc),
        PSide::Place(place) => u16::from(place) < width,
    }
}

/// Whether the side is zero or an integer term.
pub fn integer_side_fits(declared: &Declared, width: u16, side: ISide) -> bool
    ensures { result ≡ integer_side_fits declared.now width side }
{
    match side {
        ISide::Zero => true,
        ISide::At(term) => term_fits(declared, width, Sort::Int, term),
    }
}

/// Whether the mask has no bit from the count on.
fn is_below_power(mask: u64, count: usize) -> bool
    ensures { result ≡ nat_lt mask (2 ^ count) }
{
    count >= 64 || mask < 1u64 << count
}

/// Whether the literal is of the signature, over places below the width.
pub fn literal_fits(declared: &Declared, width: u16, lit: &Lit) -> bool
    ensures { result ≡ literal_fits declared.now width lit.now }
{
    match *lit {
        Lit::FinIn { term, mask } => {
            is_finite(declared.sort_of(term))
                && place_fits(width, term)
                && is_below_power(mask, declared.constructors_at(term))
        }
        Lit::FinEq { a, b } | Lit::FinNe { a, b } => {
            same_finite(declared.sort_of(a), declared.sort_of(b))
                && place_fits(width, a)
                && place_fits(width, b)
        }
        Lit::ProcEq { a, b } | Lit::ProcNe { a, b } => {
            process_side_fits(declared, width, a) && process_side_fits(declared, width, b)
        }
        Lit::Diff { a, b, bound: _ } => {
            integer_side_fits(declared, width, a) && integer_side_fits(declared, width, b)
        }
    }
}

/// Whether the size of the literal's bound is at most the limit.
pub fn is_bounded(limit: u64, lit: &Lit) -> bool
    ensures { result ≡ is_bounded limit lit.now }
{
    match *lit {
        Lit::Diff { a: _, b: _, bound } => bound.unsigned_abs() <= limit,
        Lit::FinIn { .. }
        | Lit::FinEq { .. }
        | Lit::FinNe { .. }
        | Lit::ProcEq { .. }
        | Lit::ProcNe { .. } => true,
    }
}

/// Whether each literal fits.
pub fn literals_fit(declared: &Declared, width: u16, lits: &[Lit]) -> bool
    ensures { result ≡ list_all (literal_fits declared.now width) lits.now }
{
    lits.iter().all(|lit| literal_fits(declared, width, lit))
}

/// Whether each literal's bound is within the limit.
pub fn are_bounded(limit: u64, lits: &[Lit]) -> bool
    ensures { result ≡ list_all (is_bounded limit) lits.now }
{
    lits.iter().all(|lit| is_bounded(limit, lit))
}

/// Whether a protocol may have the conjunction: at most 64 literals, which fit and have bounds within the limit.
pub fn conjunction_fits(declared: &Declared, width: u16, lits: &[Lit]) -> bool
    ensures { result ≡ conjunction_fits declared.now width lits.now }
{
    lits.len() <= 64 && literals_fit(declared, width, lits) && are_bounded(GREATEST_BOUND, lits)
}

/// Whether a protocol may have each conjunction.
pub fn conjunctions_fit(declared: &Declared, width: u16, conjs: &[Lits]) -> bool
    ensures { result ≡ list_all (conjunction_fits declared.now width) conjs.now }
{
    conjs
        .iter()
        .all(|lits| conjunction_fits(declared, width, lits.as_slice()))
}

/// Whether a protocol may have the disjunction: at most 64 conjunctions, each of which fits.
pub fn formula_fits(declared: &Declared, width: u16, conjs: &[Lits]) -> bool
    ensures { result ≡ formula_fits declared.now width conjs.now }
{
    conjs.len() <= 64 && conjunctions_fit(declared, width, conjs)
}

fn is_constant(add: i64) -> bool
    ensures { result ≡ nat_le (unsigned_abs add) 1000000000 }
{
    add.unsigned_abs() <= GREATEST_CONSTANT
}

/// Whether the value is of the sort, over places below the width.
pub fn value_fits(declared: &Declared, width: u16, sort: Sort, value: Value) -> bool
    ensures { result ≡ value_fits declared.now width sort value }
{
    match (sort, value) {
        (Sort::Fin(_), Value::Con(constructor)) => {
            usize::from(constructor) < declared.constructors_of(sort)
        }
        (Sort::Fin(_), Value::Read(term)) => term_fits(declared, width, sort, term),
        (Sort::Fin(_), Value::Any) => true,
        (Sort::Proc, Value::Proc(side)) => process_side_fits(declared, width, side),
        (Sort::Proc, Value::Any) => true,
        (Sort::Int, Value::Sum { base, add }) => {
            integer_side_fits(declared, width, base) && is_constant(add)
        }
        _ => false,
    }
}

/// Whether the branch has a condition that fits and a value of the sort.
pub fn branch_fits(declared: &Declared, width: u16, sort: Sort, branch: &Branch) -> bool
    ensures { result ≡ branch_fits declared.now width sort branch.now }
{
    conjunction_fits(declared, width, branch.cond.as_slice())
        && value_fits(declared, width, sort, branch.value)
}

fn branches_fit(declared: &Declared, width: u16, sort: Sort, branches: &[Branch]) -> bool
    ensures { result ≡ list_all (branch_fits declared.now width sort) branches.now }
{
    branches
        .iter()
        .all(|branch| branch_fits(declared, width, sort, branch))
}

/// The number of places that an update's literals may use.
pub fn update_width(params: u8, target: Target) -> u16
    ensures { result ≡ update_width params target }
{
    match target {
        Target::Global(_) => u16::from(params),
        Target::Array(_) => u16::from(params) + 1,
    }
}

fn update_fits_sort(declared: &Declared, width: u16, sort: Option<Sort>, update: &Update) -> bool
    ensures { result ≡ update_fits_sort declared.now width sort update.now }
{
    match sort {
        Some(sort) => {
            update.branches.len() <= 64
                && branches_fit(declared, width, sort, update.branches.as_slice())
                && value_fits(declared, width, sort, update.last)
        }
        None => false,
    }
}

/// Whether the update fits: its target is declared, it has at most 64 branches, and its values are of the target's sort.
pub fn update_fits(declared: &Declared, params: u8, update: &Update) -> bool
    ensures { result ≡ update_fits declared.now params update.now }
{
    update_fits_sort(
        declared,
        update_width(params, update.target),
        declared.target_sort(update.target),
        update,
    )
}
