//! Renaming by places. Item `p` of a renaming is the place of the big thing for place `p` of the small one.

ghost use Rattle.std.specs.Prelude.{◌≡◌, IsTrue, length};
ghost use Rattle.cub_proto.specs.Fits.{place_fits};
ghost use Rattle.cub_cube.specs.Rename.{renamed_term, renamed_process_side, renamed_integer_side, renamed, renamed_value, is_within, process_side_within, integer_side_within, value_within};

use cub_proto::{ISide, Lit, PSide, Term, Value};

/// The term at the places of the renaming.
pub fn renamed_term(places: &[u8], term: Term) -> Term
    requires { IsTrue (place_fits (length places.now) term) }
    ensures { result ≡ renamed_term places.now term }
{
    match term {
        Term::Global(global) => Term::Global(global),
        Term::Cell(array, place) => Term::Cell(array, places[place as usize]),
    }
}

fn renamed_process_side(places: &[u8], side: PSide) -> PSide
    requires { IsTrue (process_side_within (length places.now) side) }
    ensures { result ≡ renamed_process_side places.now side }
{
    match side {
        PSide::Global(global) => PSide::Global(global),
        PSide::Place(place) => PSide::Place(places[place as usize]),
    }
}

fn renamed_integer_side(places: &[u8], side: ISide) -> ISide
    requires { IsTrue (integer_side_within (length places.now) side) }
    ensures { result ≡ renamed_integer_side places.now side }
{
    match side {
        ISide::Zero => ISide::Zero,
        ISide::At(term) => ISide::At(renamed_term(places, term)),
    }
}

/// The literal at the places of the renaming. The sides of an equality may then be out of order.
pub fn renamed(places: &[u8], lit: &Lit) -> Lit
    requires { IsTrue (is_within (length places.now) lit.now) }
    ensures { result ≡ renamed places.now lit.now }
{
    match *lit {
        Lit::FinIn { term, mask } => Lit::FinIn {
            term: renamed_term(places, term),
            mask,
        },
        Lit::FinEq { a, b } => Lit::FinEq {
            a: renamed_term(places, a),
            b: renamed_term(places, b),
        },
        Lit::FinNe { a, b } => Lit::FinNe {
            a: renamed_term(places, a),
            b: renamed_term(places, b),
        },
        Lit::ProcEq { a, b } => Lit::ProcEq {
            a: renamed_process_side(places, a),
            b: renamed_process_side(places, b),
        },
        Lit::ProcNe { a, b } => Lit::ProcNe {
            a: renamed_process_side(places, a),
            b: renamed_process_side(places, b),
        },
        Lit::Diff { a, b, bound } => Lit::Diff {
            a: renamed_integer_side(places, a),
            b: renamed_integer_side(places, b),
            bound,
        },
    }
}

/// The value at the places of the renaming.
pub fn renamed_value(places: &[u8], value: &Value) -> Value
    requires { IsTrue (value_within (length places.now) value.now) }
    ensures { result ≡ renamed_value places.now value.now }
{
    match *value {
        Value::Con(constructor) => Value::Con(constructor),
        Value::Read(term) => Value::Read(renamed_term(places, term)),
        Value::Proc(side) => Value::Proc(renamed_process_side(places, side)),
        Value::Sum { base, add } => Value::Sum {
            base: renamed_integer_side(places, base),
            add,
        },
        Value::Any => Value::Any,
    }
}
