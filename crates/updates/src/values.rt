//! A literal with each term replaced by the value that it takes. A mask or an equality of known constructors becomes a
//! literal that is true or false by itself, so each literal stays one literal (weakest preconditions of assignments, as in
//! Dijkstra's calculus).

ghost use Rattle.std.specs.Prelude.{◌≡◌, ◌≤◌, ◌<◌, ◌^◌, ◌-ℤ◌, ◌+ℤ◌, length, unsigned_abs, IsTrue};
ghost use Rattle.cub_proto.specs.declared.literal.Lit.TheVariants.{FinEq, Diff};
ghost use Rattle.cub_proto.specs.Negation.{negated};
ghost use Rattle.cub_proto.specs.StateOf.{signature_of};
ghost use Rattle.cub_proto.specs.Fits.{literal_fits, is_bounded, greatest_constant};
ghost use Rattle.cub_cube.specs.Replace.{constant, finite_side, side_in, sides_equal, process_value, replaced_process_side, base_of, added_of, replaced_base, replaced_added, replaced, can_replace_all};
ghost use Rattle.updates.specs.Chosen.{value_in};
ghost use Rattle.updates.specs.Sides.{as_side, is_constructor, most_bound};

use cub_proto::{ISide, Lit, PSide, Protocol, Term, Value};
use std::cmp::Ordering;

/// A side of an equality of finite values: a constructor, or a term that has one.
#[derive(Clone, Copy, Debug, PartialEq, Eq)]
enum Side {
    Known(u8),
    Has(Term),
}

fn finite_side(value: Value) -> Side
    ensures { as_side result ≡ finite_side value }
{
    match value {
        Value::Con(constructor) => Side::Known(constructor),
        Value::Read(term) => Side::Has(term),
        Value::Proc(_) => Side::Known(0),
        Value::Sum { .. } => Side::Known(0),
        Value::Any => Side::Known(0),
    }
}

/// The literal that is always true, or the one that never is.
fn constant(holds: bool) -> Lit
    ensures { result ≡ constant holds }
{
    let bound = if holds { 0 } else { -1 };
    Lit::Diff {
        a: ISide::Zero,
        b: ISide::Zero,
        bound,
    }
}

fn side_in(side: Side, mask: u64) -> Lit
    ensures { result ≡ side_in (as_side side) mask }
{
    match side {
        Side::Known(constructor) => constant(cub_proto::has_bit(mask, constructor)),
        Side::Has(term) => Lit::FinIn { term, mask },
    }
}

fn single(constructor: u8) -> u64
    requires { constructor < 64 }
    ensures { result ≡ 2 ^ constructor }
{
    1u64 << constructor
}

fn sides_equal(a: Side, b: Side) -> Lit
    requires first { IsTrue (is_constructor a) }
    requires second { IsTrue (is_constructor b) }
    ensures { result ≡ sides_equal (as_side a) (as_side b) }
{
    match (a, b) {
        (Side::Known(c), Side::Known(d)) => constant(c == d),
        (Side::Known(c), Side::Has(term)) => Lit::FinIn {
            term,
            mask: single(c),
        },
        (Side::Has(term), Side::Known(d)) => Lit::FinIn {
            term,
            mask: single(d),
        },
        (Side::Has(a), Side::Has(b)) => Lit::FinEq { a, b },
    }
}

/// The value that stands beside the term; a term that is not there keeps its value.
pub fn value_in(terms: &[Term], values: &[Value], term: Term) -> Value
    requires { length values.now ≡ length terms.now }
    ensures { result ≡ value_in terms.now values.now term }
{
    for at in 0..terms.len() {
        if cub_proto::compare_terms(terms[at], term) == Ordering::Equal {
            return values[at];
        }
    }
    Value::Read(term)
}

fn process_value(side: PSide, value: Value) -> PSide
    ensures { result ≡ process_value side value }
{
    match value {
        Value::Read(Term::Global(global)) => PSide::Global(global),
        Value::Read(Term::Cell(_, _)) => side,
        Value::Proc(other) => other,
        Value::Con(_) => side,
        Value::Sum { .. } => side,
        Value::Any => side,
    }
}

fn replaced_process_side(terms: &[Term], values: &[Value], side: PSide) -> PSide
    requires { length values.now ≡ length terms.now }
    ensures { result ≡ replaced_process_side (value_in terms.now values.now) side }
{
    match side {
        PSide::Global(global) => process_value(side, value_in(terms, values, Term::Global(global))),
        PSide::Place(_) => side,
    }
}

fn base_of(value: Value) -> ISide
    ensures { result ≡ base_of value }
{
    match value {
        Value::Read(term) => ISide::At(term),
        Value::Sum { base, .. } => base,
        Value::Con(_) => ISide::Zero,
        Value::Proc(_) => ISide::Zero,
        Value::Any => ISide::Zero,
    }
}

fn added_of(value: Value) -> i64
    ensures { result ≡ added_of value }
{
    match value {
        Value::Sum { add, .. } => add,
        Value::Con(_) => 0,
        Value::Read(_) => 0,
        Value::Proc(_) => 0,
        Value::Any => 0,
    }
}

fn replaced_base(terms: &[Term], values: &[Value], side: ISide) -> ISide
    requires { length values.now ≡ length terms.now }
    ensures { result ≡ replaced_base (value_in terms.now values.now) side }
{
    match side {
        ISide::Zero => ISide::Zero,
        ISide::At(term) => base_of(value_in(terms, values, term)),
    }
}

fn replaced_added(terms: &[Term], values: &[Value], side: ISide) -> i64
    requires { length values.now ≡ length terms.now }
    ensures { result ≡ replaced_added (value_in terms.now values.now) side }
{
    match side {
        ISide::Zero => 0,
        ISide::At(term) => added_of(value_in(terms, values, term)),
    }
}

fn moved(bound: i64, first: i64, second: i64) -> i64
    requires bound { unsigned_abs bound ≤ most_bound }
    requires first { unsigned_abs first ≤ greatest_constant }
    requires second { unsigned_abs second ≤ greatest_constant }
    ensures { result ≡ bound -ℤ first +ℤ second }
{
    bound - first + second
}

/// The equality of the values of two terms of one finite sort.
fn equal_terms(
    protocol: &Protocol,
    width: u16,
    terms: &[Term],
    values: &[Value],
    a: Term,
    b: Term,
) -> Lit
    requires size { length values.now ≡ length terms.now }
    requires fits { IsTrue (literal_fits (signature_of protocol.now) width (FinEq a b)) }
    requires can { IsTrue (can_replace_all (signature_of protocol.now) width (value_in terms.now values.now) (FinEq a b)) }
    ensures { result ≡ sides_equal (finite_side (value_in terms.now values.now a)) (finite_side (value_in terms.now values.now b)) }
{
    let first = finite_side(value_in(terms, values, a));
    let second = finite_side(value_in(terms, values, b));
    sides_equal(first, second)
}

fn unequal_terms(
    protocol: &Protocol,
    width: u16,
    terms: &[Term],
    values: &[Value],
    a: Term,
    b: Term,
) -> Lit
    requires size { length values.now ≡ length terms.now }
    requires fits { IsTrue (literal_fits (signature_of protocol.now) width (FinEq a b)) }
    requires can { IsTrue (can_replace_all (signature_of protocol.now) width (value_in terms.now values.now) (FinEq a b)) }
    ensures { result ≡ negated (signature_of protocol.now) (sides_equal (finite_side (value_in terms.now values.now a)) (finite_side (value_in terms.now values.now b))) }
{
    let equal = equal_terms(protocol, width, terms, values, a, b);
    cub_proto::negated(protocol, width, &equal)
}

fn difference(
    protocol: &Protocol,
    width: u16,
    terms: &[Term],
    values: &[Value],
    a: ISide,
    b: ISide,
    bound: i64,
) -> Lit
    requires size { length values.now ≡ length terms.now }
    requires fits { IsTrue (literal_fits (signature_of protocol.now) width (Diff a b bound)) }
    requires can { IsTrue (can_replace_all (signature_of protocol.now) width (value_in terms.now values.now) (Diff a b bound)) }
    requires bounded { unsigned_abs bound ≤ most_bound }
    ensures { result ≡ replaced (signature_of protocol.now) (value_in terms.now values.now) (Diff a b bound) }
{
    let first = replaced_added(terms, values, a);
    let second = replaced_added(terms, values, b);
    Lit::Diff {
        a: replaced_base(terms, values, a),
        b: replaced_base(terms, values, b),
        bound: moved(bound, first, second),
    }
}

/// The literal with each term replaced by the value that stands beside it. The values can stand for the terms, at the
/// width of the cube before the step.
pub fn replaced(protocol: &Protocol, width: u16, terms: &[Term], values: &[Value], lit: &Lit) -> Lit
    requires size { length values.now ≡ length terms.now }
    requires fits { IsTrue (literal_fits (signature_of protocol.now) width lit.now) }
    requires can { IsTrue (can_replace_all (signature_of protocol.now) width (value_in terms.now values.now) lit.now) }
    requires bounded { IsTrue (is_bounded most_bound lit.now) }
    ensures { result ≡ replaced (signature_of protocol.now) (value_in terms.now values.now) lit.now }
{
    match *lit {
        Lit::FinIn { term, mask } => side_in(finite_side(value_in(terms, values, term)), mask),
        Lit::FinEq { a, b } => equal_terms(protocol, width, terms, values, a, b),
        Lit::FinNe { a, b } => unequal_terms(protocol, width, terms, values, a, b),
        Lit::ProcEq { a, b } => Lit::ProcEq {
            a: replaced_process_side(terms, values, a),
            b: replaced_process_side(terms, values, b),
        },
        Lit::ProcNe { a, b } => Lit::ProcNe {
            a: replaced_process_side(terms, values, a),
            b: replaced_process_side(terms, values, b),
        },
        Lit::Diff { a, b, bound } => difference(protocol, width, terms, values, a, b, bound),
    }
}
