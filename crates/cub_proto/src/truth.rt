//! The truth of literals at a state, by look-ups alone.

ghost use Rattle.std.specs.Prelude.{◌≡◌, ◌<◌, ◌-ℤ◌, int_le, length, slice_index, All};
ghost use Rattle.cub_proto.specs.Truth.{constructor_of, process_of, integer_of, term_value, constructor_at, process_at, integer_at, has_bit, is_true, all_true, any_true, HasTerm, HasProcessSide, HasIntegerSide, HasLiteral, HasLiterals};

use crate::literal::{ISide, Lit, Lits, PSide, Term};
use crate::state::{Slot, State, Val};

fn constructor_of(val: Val) -> u8
    ensures { result ≡ constructor_of val }
{
    match val {
        Val::Con(constructor) => constructor,
        Val::Proc(_) | Val::Int(_) => 0,
    }
}

fn process_of(val: Val) -> u32
    ensures { result ≡ process_of val }
{
    match val {
        Val::Proc(process) => process,
        Val::Con(_) | Val::Int(_) => 0,
    }
}

fn integer_of(val: Val) -> i64
    ensures { result ≡ integer_of val }
{
    match val {
        Val::Int(integer) => integer,
        Val::Con(_) | Val::Proc(_) => 0,
    }
}

/// The value of a term, where item `p` of `places` is the process at place `p`.
pub fn term_value(state: &State, term: Term, places: &[u32]) -> Val
    requires { HasTerm state.now places.now term }
    ensures { result ≡ term_value state.now places.now term }
{
    match term {
        Term::Global(global) => state.get(Slot::Global(global)),
        Term::Cell(array, place) => state.get(Slot::Cell(array, places[place as usize])),
    }
}

fn constructor_at(state: &State, term: Term, places: &[u32]) -> u8
    requires { HasTerm state.now places.now term }
    ensures { result ≡ constructor_at state.now places.now term }
{
    constructor_of(term_value(state, term, places))
}

/// The process that a side names.
pub fn process_at(state: &State, side: PSide, places: &[u32]) -> u32
    requires { HasProcessSide state.now places.now side }
    ensures { result ≡ process_at state.now places.now side }
{
    match side {
        PSide::Global(global) => process_of(state.get(Slot::Global(global))),
        PSide::Place(place) => places[place as usize],
    }
}

/// The integer of a side.
pub fn integer_at(state: &State, side: ISide, places: &[u32]) -> i64
    requires { HasIntegerSide state.now places.now side }
    ensures { result ≡ integer_at state.now places.now side }
{
    match side {
        ISide::Zero => 0,
        ISide::At(term) => integer_of(term_value(state, term, places)),
    }
}

/// Whether the mask has the bit of the constructor.
pub fn has_bit(mask: u64, constructor: u8) -> bool
    ensures { result ≡ has_bit mask constructor }
{
    constructor < 64 && (mask >> constructor) & 1 == 1
}

fn is_at_most(a: i64, b: i64, bound: i64) -> bool
    ensures { result ≡ int_le (a -ℤ b) bound }
{
    i128::from(a) - i128::from(b) <= i128::from(bound)
}

/// The truth of the literal.
pub fn holds(state: &State, lit: &Lit, places: &[u32]) -> bool
    requires { HasLiteral state.now places.now lit.now }
    ensures { result ≡ is_true state.now places.now lit.now }
{
    match *lit {
        Lit::FinIn { term, mask } => has_bit(mask, constructor_at(state, term, places)),
        Lit::FinEq { a, b } => {
            constructor_at(state, a, places) == constructor_at(state, b, places)
        }
        Lit::FinNe { a, b } => {
            constructor_at(state, a, places) != constructor_at(state, b, places)
        }
        Lit::ProcEq { a, b } => process_at(state, a, places) == process_at(state, b, places),
        Lit::ProcNe { a, b } => process_at(state, a, places) != process_at(state, b, places),
        Lit::Diff { a, b, bound } => {
            is_at_most(
                integer_at(state, a, places),
                integer_at(state, b, places),
                bound,
            )
        }
    }
}

/// Whether every literal is true.
pub fn all_hold(state: &State, lits: &[Lit], places: &[u32]) -> bool
    requires { HasLiterals state.now places.now lits.now }
    ensures { result ≡ all_true state.now places.now lits.now }
{
    lits.iter().all(|lit| holds(state, lit, places))
}

/// Whether some conjunction is true.
pub fn any_holds(state: &State, conjs: &[Lits], places: &[u32]) -> bool
    requires { All (λ lits. HasLiterals state.now places.now lits) conjs.now }
    ensures { result ≡ any_true state.now places.now conjs.now }
{
    conjs
        .iter()
        .any(|lits| all_hold(state, lits.as_slice(), places))
}
