//! Names of places. Two cubes that differ in the order of their places alone say the same, and a search meets both, so
//! places are put in an order that depends on the literals. The order goes by what is said of each place alone, and so
//! is found without trying permutations; places of which the same is said stay in their order, so it isn't canonical.
//! Keys are compared as the literals stand, and no list of them is made. Places are inserted one by one from the end,
//! since mostly few are out of order; and a cube that is named already is handed on as it is.

ghost use Rattle.std.specs.Prelude.{◌≡◌, ◌≢◌, ◌==◌, ◌&&◌, ◌<◌, ◌≤◌, [], ◌∷◌, ◌+◌, ◌++◌, List, ℕ, Bool, length, map, All, AllPairs, Contains, IsTrue, IfOk, IfErr, MatchOption};
ghost use Rattle.std.specs.List.{list_all, list_any, filter, position_or_len, range_with_len};
ghost use Rattle.std.specs.Cmp.Lexicographic.{slice_cmp};
ghost use Rattle.std.specs.Ordering.{is_lt};
ghost use Rattle.std.specs.declared.cmp.Ordering.TheVariants.{Less};
ghost use Rattle.cub_proto.specs.Order.{lit_cmp};
ghost use Rattle.cub_proto.specs.StateOf.{signature_of};
ghost use Rattle.cub_cube.specs.Rename.{is_within};
ghost use Rattle.cube_form.specs.Name.{listed, term_places, process_side_places, integer_side_places, places_of, is_own, term_at_zero, process_side_at_zero, integer_side_at_zero, at_zero, own_lits, place_cmp, AreInOrder, number_in, turned, IsNamed};

use cub_base::{Memory, Places};
use cub_cube::{Cube, is_normal};
use cub_proto::{ISide, Lit, PSide, Protocol, Term, compare_lits};
use std::alloc::Global;
use std::cmp::Ordering;

fn term_at_zero(term: Term) -> Term
    ensures { result ≡ term_at_zero term }
{
    match term {
        Term::Global(global) => Term::Global(global),
        Term::Cell(array, _) => Term::Cell(array, 0),
    }
}

fn process_side_at_zero(side: PSide) -> PSide
    ensures { result ≡ process_side_at_zero side }
{
    match side {
        PSide::Global(global) => PSide::Global(global),
        PSide::Place(_) => PSide::Place(0),
    }
}

fn integer_side_at_zero(side: ISide) -> ISide
    ensures { result ≡ integer_side_at_zero side }
{
    match side {
        ISide::Zero => ISide::Zero,
        ISide::At(term) => ISide::At(term_at_zero(term)),
    }
}

// The literal written for place 0.
fn at_zero(lit: &Lit) -> Lit
    ensures { result ≡ at_zero lit.now }
{
    match *lit {
        Lit::FinIn { term, mask } => Lit::FinIn {
            term: term_at_zero(term),
            mask,
        },
        Lit::FinEq { a, b } => Lit::FinEq {
            a: term_at_zero(a),
            b: term_at_zero(b),
        },
        Lit::FinNe { a, b } => Lit::FinNe {
            a: term_at_zero(a),
            b: term_at_zero(b),
        },
        Lit::ProcEq { a, b } => Lit::ProcEq {
            a: process_side_at_zero(a),
            b: process_side_at_zero(b),
        },
        Lit::ProcNe { a, b } => Lit::ProcNe {
            a: process_side_at_zero(a),
            b: process_side_at_zero(b),
        },
        Lit::Diff { a, b, bound } => Lit::Diff {
            a: integer_side_at_zero(a),
            b: integer_side_at_zero(b),
            bound,
        },
    }
}

fn place_of_term(term: Term) -> Option<u8>
    ensures { listed result ≡ term_places term }
{
    match term {
        Term::Global(_) => None,
        Term::Cell(_, place) => Some(place),
    }
}

fn place_of_process_side(side: PSide) -> Option<u8>
    ensures { listed result ≡ process_side_places side }
{
    match side {
        PSide::Global(_) => None,
        PSide::Place(place) => Some(place),
    }
}

fn place_of_integer_side(side: ISide) -> Option<u8>
    ensures { listed result ≡ integer_side_places side }
{
    match side {
        ISide::Zero => None,
        ISide::At(term) => place_of_term(term),
    }
}

// Whether the place is the only one of the two, where there are any.
fn is_only(place: u8, first: Option<u8>, second: Option<u8>) -> bool
    ensures { result ≡ (list_any (λ q. q == place) (listed first ++ listed second) && list_all (λ q. q == place) (listed first ++ listed second)) }
{
    match (first, second) {
        (None, None) => false,
        (Some(only), None) | (None, Some(only)) => only == place,
        (Some(first), Some(second)) => first == place && second == place,
    }
}

// Whether the literal mentions the place and no other one.
fn is_own(place: u8, lit: &Lit) -> bool
    ensures { result ≡ is_own place lit.now }
{
    match *lit {
        Lit::FinIn { term, .. } => is_only(place, place_of_term(term), None),
        Lit::FinEq { a, b } | Lit::FinNe { a, b } => is_only(
            place,
            place_of_term(a),
            place_of_term(b),
        ),
        Lit::ProcEq { a, b } | Lit::ProcNe { a, b } => is_only(
            place,
            place_of_process_side(a),
            place_of_process_side(b),
        ),
        Lit::Diff { a, b, .. } => is_only(
            place,
            place_of_integer_side(a),
            place_of_integer_side(b),
        ),
    }
}

// The first literal that mentions that place alone, and the literals behind it.
fn next_own(lits: &[Lit], place: u8) -> Option<(&Lit, &[Lit])>
    ensures { MatchOption result (filter (is_own place) lits.now ≡ []) (λ f. (filter (is_own place) lits.now ≡ f.0.now ∷ filter (is_own place) f.1.now) × (length f.1.now < length lits.now)) }
{
    for at in 0..lits.len() {
        if is_own(place, &lits[at]) {
            return Some((&lits[at], &lits[at + 1..]));
        }
    }
    None
}

// What is said of a place alone, against what is said of another.
fn compare_own(lits: &[Lit], place: u8, others: &[Lit], other: u8) -> Ordering
    ensures { result ≡ slice_cmp lit_cmp (own_lits lits.now place) (own_lits others.now other) }
{
    match next_own(lits, place) {
        None => match next_own(others, other) {
            None => Ordering::Equal,
            Some(_) => Ordering::Less,
        },
        Some((lit, behind)) => match next_own(others, other) {
            None => Ordering::Greater,
            Some((other_lit, others_behind)) => match compare_lits(
                &at_zero(lit),
                &at_zero(other_lit),
            ) {
                Ordering::Equal => compare_own(behind, place, others_behind, other),
                order => order,
            },
        },
    }
}

// Whether a place comes before another.
fn comes_before(lits: &[Lit], place: u8, other: u8) -> bool
    ensures { result ≡ is_lt (place_cmp lits.now place other) }
{
    match compare_own(lits, place, lits, other) {
        Ordering::Less => true,
        Ordering::Equal => place < other,
        Ordering::Greater => false,
    }
}

// Inserts a place that is greater than those of a list in order, from the end.
fn insert_place(lits: &[Lit], places: &mut Places, place: u8)
    requires room { length places.old < 12 }
    requires rise { AllPairs (λ p q. place_cmp lits.now p q ≡ Less) places.old }
    requires greatest { All (λ p. p < place) places.old }
    ensures size { length places.new ≡ length places.old + 1 }
    ensures rise { AllPairs (λ p q. place_cmp lits.now p q ≡ Less) places.new }
    ensures items { (test : ℕ → Bool) → IsTrue (list_all test places.old) → IsTrue (test place) → IsTrue (list_all test places.new) }
{
    match places.pop() {
        None => places.push(place),
        Some(last) => {
            if comes_before(lits, place, last) {
                insert_place(lits, places, place);
                places.push(last);
            } else {
                places.push(last);
                places.push(place);
            }
        }
    }
}

// All places below the width, in order.
fn in_order(alloc: Global, lits: &[Lit], width: u8) -> Places
    requires { width ≤ 12 }
    ensures { AreInOrder lits.now width result }
{
    let mut places = Places::new(alloc);
    for place in 0..width {
        insert_place(lits, &mut places, place);
    }
    places
}

// The number at which a place stands in a list.
fn number_in(places: &[u8], place: u8) -> u8
    requires { length places.now ≤ 12 }
    ensures { result ≡ number_in places.now place }
{
    let mut at = 0;
    while at < places.len() && places[at] != place {
        at += 1;
    }
    at as u8
}

/// The renaming back: item `q` is the number at which place `q` stands.
pub(crate) fn turned(places: &Places) -> Places
    ensures { result ≡ turned places.now }
{
    let mut back = Places::new(places.allocator());
    for place in 0..places.len() as u8 {
        back.push(number_in(places.as_slice(), place));
    }
    back
}

// Whether each place stands where it stood.
fn stay(places: &[u8]) -> bool
    ensures { IsTrue result → places.now ≡ range_with_len 0 (length places.now) }
{
    for at in 0..places.len() {
        if places[at] as usize != at {
            return false;
        }
    }
    true
}

/// The cube with its places in the order of what it says of each alone: of the literals that mention the place and no
/// other one, in order and written for place 0, and then of their old numbers. Item `p` of the renaming is the old place
/// of the new place `p`. Refused, it hands the cube back. A normal cube whose places are in order takes no memory.
pub fn normal_name(protocol: &Protocol, cube: Cube) -> Result<(Cube, Places), (Cube, Memory)>
    requires narrow { cube.width ≤ 12 }
    requires within { IsTrue (list_all (is_within cube.width) cube.lits) }
    ensures named { IfOk result (λ f. IsNamed protocol.now cube f.1 f.0) }
    ensures back { IfErr result (λ e. e.0 ≡ cube) }
{
    let places = in_order(cube.lits.allocator(), cube.lits.as_slice(), cube.width);
    if stay(places.as_slice()) && is_normal(protocol, cube.lits.as_slice()) {
        return Ok((cube, places));
    }
    let back = turned(&places);
    match cube.renamed(protocol, cube.width, back.as_slice()) {
        Ok(named) => Ok((named, places)),
        Err(memory) => Err((cube, memory)),
    }
}
