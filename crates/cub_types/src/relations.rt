//! Relations of two sides. `<>` is the negation of `=`, which normal forms turn into the mask of all other constructors,
//! a difference, or two conjunctions of integers.

ghost use Rattle.std.specs.Prelude.{true, false, ◌≡◌, ◌^◌, ◌<◌, ◌≤◌, IfOk, OnOk, not, unsigned_abs, IsTrue, ◌-ℤ◌};
ghost use Rattle.cub_names.specs.Checked.{first_of_all};
ghost use Rattle.cub_names.specs.Sides.{sort_of_side, is_small};
ghost use Rattle.cub_proto.specs.Fits.{sides_alike};
ghost use Rattle.cub_types.specs.Formulas.{is_greater, same_terms, same_processes, same_integers, equal, within, lowered, at_most, ordered, equated, is_order, mixes, compared, alone};

use cub_base::Boxed;
use cub_dnf::Formula;
use cub_lexer::TokenKind;
use cub_names::{Fault, Side, TypeKind, sort_of_side, tell};
use cub_proto::{ISide, Lit, PSide, Sort, Term, compare_process_sides, compare_terms, same_sort};
use std::alloc::{AllocError, Global};
use std::cmp::Ordering;

fn is_greater(order: Ordering) -> bool
    ensures { result ≡ is_greater order }
{
    match order {
        Ordering::Less | Ordering::Equal => false,
        Ordering::Greater => true,
    }
}

fn same_terms(a: Term, b: Term) -> Lit
    ensures { result ≡ same_terms a b }
{
    if is_greater(compare_terms(a, b)) {
        Lit::FinEq { a: b, b: a }
    } else {
        Lit::FinEq { a, b }
    }
}

fn same_processes(a: PSide, b: PSide) -> Lit
    ensures { result ≡ same_processes a b }
{
    if is_greater(compare_process_sides(a, b)) {
        Lit::ProcEq { a: b, b: a }
    } else {
        Lit::ProcEq { a, b }
    }
}

fn same_integers(a: ISide, c: i64, b: ISide, d: i64) -> Formula
    requires left { unsigned_abs c ≤ 1000000000 }
    requires right { unsigned_abs d ≤ 1000000000 }
    ensures { result ≡ same_integers a c b d }
{
    match (a, b) {
        (ISide::Zero, ISide::Zero) => Formula::Const(c == d),
        _ => Formula::IntEq { a, b, bound: d - c },
    }
}

fn mask_of(constructor: u8) -> u64
    requires { constructor < 64 }
    ensures { result ≡ 2 ^ constructor }
{
    1u64 << constructor
}

/// `a = b`, for sides of one sort.
fn equal(a: Side, b: Side) -> Formula
    requires left { IsTrue (is_small a) }
    requires right { IsTrue (is_small b) }
    ensures { result ≡ equal a b }
{
    match (a, b) {
        (Side::Con(_, c), Side::Con(_, d)) => Formula::Const(c == d),
        (Side::Con(_, c), Side::Fin(_, term)) | (Side::Fin(_, term), Side::Con(_, c)) => {
            let mask = mask_of(c);
            Formula::One(Lit::FinIn { term, mask })
        }
        (Side::Fin(_, t), Side::Fin(_, u)) => Formula::One(same_terms(t, u)),
        (Side::Proc(p), Side::Proc(q)) => Formula::One(same_processes(p, q)),
        (Side::Int(x, c), Side::Int(y, d)) => same_integers(x, c, y, d),
        _ => Formula::Const(false),
    }
}

fn within(a: ISide, b: ISide, bound: i64) -> Formula
    ensures { result ≡ within a b bound }
{
    match (a, b) {
        (ISide::Zero, ISide::Zero) => Formula::Const(0 <= bound),
        _ => Formula::One(Lit::Diff { a, b, bound }),
    }
}

fn lowered(strict: bool, c: i64, d: i64) -> i64
    requires left { unsigned_abs c ≤ 1000000000 }
    requires right { unsigned_abs d ≤ 1000000000 }
    ensures { result ≡ lowered strict (d -ℤ c) }
{
    if strict { d - c - 1 } else { d - c }
}

fn at_most(strict: bool, a: Side, b: Side) -> Formula
    requires left { IsTrue (is_small a) }
    requires right { IsTrue (is_small b) }
    ensures { result ≡ at_most strict a b }
{
    match (a, b) {
        (Side::Int(x, c), Side::Int(y, d)) => within(x, y, lowered(strict, c, d)),
        _ => Formula::Const(false),
    }
}

fn ordered(sign: TokenKind, a: Side, b: Side) -> Formula
    requires left { IsTrue (is_small a) }
    requires right { IsTrue (is_small b) }
    ensures { result ≡ ordered sign a b }
{
    match sign {
        TokenKind::Less => at_most(true, a, b),
        TokenKind::LessOrEqual => at_most(false, a, b),
        TokenKind::Greater => at_most(true, b, a),
        _ => at_most(false, b, a),
    }
}

fn equated(alloc: Global, sign: TokenKind, a: Side, b: Side) -> Result<Formula, AllocError>
    requires left { IsTrue (is_small a) }
    requires right { IsTrue (is_small b) }
    ensures { IfOk result (λ formula. formula ≡ equated sign a b) }
{
    let same = equal(a, b);
    match sign {
        TokenKind::NotEqual => Ok(Formula::Not(Boxed::new(alloc, same)?)),
        _ => Ok(same),
    }
}

fn is_order(sign: TokenKind) -> bool
    ensures { result ≡ is_order sign }
{
    match sign {
        TokenKind::Equal | TokenKind::NotEqual => false,
        _ => true,
    }
}

fn are_alike(p: PSide, q: PSide) -> bool
    ensures { result ≡ sides_alike p q }
{
    match (p, q) {
        (PSide::Global(_), PSide::Global(_)) | (PSide::Place(_), PSide::Place(_)) => true,
        (PSide::Global(_), PSide::Place(_)) | (PSide::Place(_), PSide::Global(_)) => false,
    }
}

fn mixes(a: Side, b: Side) -> bool
    ensures { result ≡ mixes a b }
{
    match (a, b) {
        (Side::Proc(p), Side::Proc(q)) => !are_alike(p, q),
        _ => false,
    }
}

/// The relation of two sides, tested.
pub fn compared(
    alloc: Global,
    first: &mut Option<Fault>,
    init: bool,
    token: u32,
    sign: TokenKind,
    a: Side,
    b: Side,
) -> Result<Option<Formula>, AllocError>
    requires left { IsTrue (is_small a) }
    requires right { IsTrue (is_small b) }
    ensures value { IfOk result (λ formula. formula ≡ (compared init token sign a b).value) }
    ensures first { OnOk result (first.new ≡ first_of_all first.old (compared init token sign a b).faults) }
{
    if !same_sort(sort_of_side(a), sort_of_side(b)) {
        tell(first, token, TypeKind::T03);
        return Ok(None);
    }
    if is_order(sign) {
        if same_sort(sort_of_side(a), Sort::Int) {
            return Ok(Some(ordered(sign, a, b)));
        }
        tell(first, token, TypeKind::T07);
        return Ok(None);
    }
    if init && mixes(a, b) {
        tell(first, token, TypeKind::T08);
        return Ok(None);
    }
    Ok(Some(equated(alloc, sign, a, b)?))
}

/// A side alone, tested.
pub fn alone(first: &mut Option<Fault>, token: u32, a: Side) -> Option<Formula>
    requires { IsTrue (is_small a) }
    ensures value { result ≡ (alone token a).value }
    ensures first { first.new ≡ first_of_all first.old (alone token a).faults }
{
    if same_sort(sort_of_side(a), Sort::Fin(0)) {
        return Some(equal(a, Side::Con(0, 1)));
    }
    tell(first, token, TypeKind::T11);
    None
}
