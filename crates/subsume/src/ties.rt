//! Marks of two literals together. Two memberships in one constructor at one place of a cube stand at one place of each cube
//! that it covers, which tells cubes apart that need the same constructors at other places. Two bounds that hold an integer
//! term at one value do so there too.

ghost use Rattle.std.specs.Prelude.{◌≡◌, ◌+◌, ◌-◌, ◌*◌, ◌%◌, ◌^◌, ◌<◌, ◌==◌, ◌+ℤ◌, ◌&&◌, ◌||◌, ℕ, pos, nat_lt, IsTrue, MatchOption, false};
ghost use Rattle.std.specs.List.{list_any};
ghost use Rattle.cub_proto.specs.Truth.{has_bit};
ghost use Rattle.subsume.specs.Marks.{low, joint_bit, joins, joined_by, joint_from, marks_joint, some_two, value_bit, floors, is_floor, value_from, marks_value, is_bond};

use crate::marks::{bit, constructor_bit, either, power};
use cub_proto::{ISide, Lit, Term};

// The constructor of a mask that has one alone.
fn sole(mask: u64) -> Option<u16>
    ensures { MatchOption result ((mask == 2 ^ low mask) ≡ false) (λ c. (c ≡ low mask) × (c < 64) × IsTrue (mask == 2 ^ low mask)) }
{
    let constructor = mask.trailing_zeros() as u16;
    if constructor < 64 && mask == power(constructor) {
        Some(constructor)
    } else {
        None
    }
}

fn joint_bit(a: u16, c: u16, b: u16, d: u16) -> u16
    requires first { c < 64 }
    requires second { d < 64 }
    ensures { result ≡ joint_bit a c b d }
{
    let first = 7 * u32::from(a) + u32::from(c);
    let second = 7 * u32::from(b) + u32::from(d);
    ((first + 23 * second) % 64) as u16
}

// The bit that a membership has together with one in constructor `c` of a cell of array `a` at place `p`.
fn joins(a: u16, p: u8, c: u16, term: Term, mask: u64) -> u64
    requires { c < 64 }
    ensures { (n : ℕ) → n < 64 → has_bit result n ≡ joins n a p c term mask }
{
    match term {
        Term::Global(_) => 0,
        Term::Cell(b, q) => {
            if !(a < b && p == q) {
                return 0;
            }
            match sole(mask) {
                Some(d) => bit(joint_bit(a, c, b, d)),
                None => 0,
            }
        }
    }
}

fn joined_by(a: u16, p: u8, c: u16, lit: &Lit) -> u64
    requires { c < 64 }
    ensures { (n : ℕ) → n < 64 → has_bit result n ≡ joined_by n a p c lit.now }
{
    match *lit {
        Lit::FinIn { term, mask } => joins(a, p, c, term, mask),
        Lit::FinEq { .. }
        | Lit::FinNe { .. }
        | Lit::ProcEq { .. }
        | Lit::ProcNe { .. }
        | Lit::Diff { .. } => 0,
    }
}

// The bits that any of the literals has together with that membership.
fn joined_by_any(a: u16, p: u8, c: u16, lits: &[Lit]) -> u64
    requires { c < 64 }
    ensures { (n : ℕ) → n < 64 → has_bit result n ≡ list_any (joined_by n a p c) lits.now }
{
    let mut word = 0;
    for lit in lits {
        word = either(word, joined_by(a, p, c, lit));
    }
    word
}

fn joint_from(term: Term, mask: u64, lits: &[Lit]) -> u64
    ensures { (n : ℕ) → n < 64 → has_bit result n ≡ list_any (joint_from n term mask) lits.now }
{
    match term {
        Term::Global(_) => 0,
        Term::Cell(a, p) => match sole(mask) {
            Some(c) => joined_by_any(a, p, c, lits),
            None => 0,
        },
    }
}

// The bits that the literal has together with any of the others.
fn joint_with(first: &Lit, lits: &[Lit]) -> u64
    ensures { (n : ℕ) → n < 64 → has_bit result n ≡ list_any (marks_joint n first.now) lits.now }
{
    match *first {
        Lit::FinIn { term, mask } => joint_from(term, mask, lits),
        Lit::FinEq { .. }
        | Lit::FinNe { .. }
        | Lit::ProcEq { .. }
        | Lit::ProcNe { .. }
        | Lit::Diff { .. } => 0,
    }
}

/// The bits of two memberships in one constructor at one place.
pub(crate) fn joint_bits(lits: &[Lit]) -> u64
    ensures { (n : ℕ) → n < 64 → has_bit result n ≡ some_two (marks_joint n) lits.now }
{
    let mut word = 0;
    for lit in lits {
        word = either(word, joint_with(lit, lits));
    }
    word
}

fn value_bit(term: Term, value: i64) -> u16
    ensures { result ≡ value_bit term value }
{
    constructor_bit(term, (value.unsigned_abs() % 64) as u16)
}

// Whether the bound says that the term is at least that, and no more.
fn floors(term: Term, value: i64, a: ISide, b: ISide, bound: i64) -> bool
    ensures { result ≡ floors term value a b bound }
{
    match (a, b) {
        (ISide::Zero, ISide::At(other)) => {
            other == term && i128::from(bound) + i128::from(value) == 0
        }
        _ => false,
    }
}

fn is_floor(term: Term, value: i64, lit: &Lit) -> bool
    ensures { result ≡ is_floor term value lit.now }
{
    match *lit {
        Lit::Diff { a, b, bound } => floors(term, value, a, b, bound),
        Lit::FinIn { .. }
        | Lit::FinEq { .. }
        | Lit::FinNe { .. }
        | Lit::ProcEq { .. }
        | Lit::ProcNe { .. } => false,
    }
}

fn has_floor(term: Term, value: i64, lits: &[Lit]) -> bool
    ensures { result ≡ list_any (is_floor term value) lits.now }
{
    lits.iter().any(|lit| is_floor(term, value, lit))
}

fn value_from(a: ISide, b: ISide, value: i64, lits: &[Lit]) -> u64
    ensures { (n : ℕ) → n < 64 → has_bit result n ≡ list_any (value_from n a b value) lits.now }
{
    match a {
        ISide::Zero => 0,
        ISide::At(term) => match b {
            ISide::At(_) => 0,
            ISide::Zero => {
                if has_floor(term, value, lits) {
                    bit(value_bit(term, value))
                } else {
                    0
                }
            }
        },
    }
}

// The bit of the value at which the literal, an upper bound, holds a term together with any of the others.
fn value_with(first: &Lit, lits: &[Lit]) -> u64
    ensures { (n : ℕ) → n < 64 → has_bit result n ≡ list_any (marks_value n first.now) lits.now }
{
    match *first {
        Lit::Diff { a, b, bound } => value_from(a, b, bound, lits),
        Lit::FinIn { .. }
        | Lit::FinEq { .. }
        | Lit::FinNe { .. }
        | Lit::ProcEq { .. }
        | Lit::ProcNe { .. } => 0,
    }
}

/// The bits of the values at which two bounds hold an integer term.
pub(crate) fn value_bits(lits: &[Lit]) -> u64
    ensures { (n : ℕ) → n < 64 → has_bit result n ≡ some_two (marks_value n) lits.now }
{
    let mut word = 0;
    for lit in lits {
        word = either(word, value_with(lit, lits));
    }
    word
}

/// Whether the literal bounds the difference of two integer terms.
pub(crate) fn is_bond(lit: &Lit) -> bool
    ensures { result ≡ is_bond lit.now }
{
    match lit {
        Lit::Diff {
            a: ISide::At(_),
            b: ISide::At(_),
            ..
        } => true,
        _ => false,
    }
}
