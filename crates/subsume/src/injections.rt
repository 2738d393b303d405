//! The least injection of the places of a big cube into those of a small one by which the small cube entails each literal
//! of the big one. Places are taken in order, and each is tried at the free places of the small cube in order, so the first
//! injection that is found is the least. A literal is asked as soon as its last place is taken, so that a wrong place is
//! given up at once. The small cube is closed beforehand, once for all questions.
//!
//! A late place whose own literals follow nowhere would be found out again behind each way to put the earlier ones, which
//! are as many as there are injections. So a big cube of more than a few places is asked first whether each place can stand
//! somewhere by itself.

ghost use Rattle.std.specs.Prelude.{◌≡◌, ◌≢◌, ◌↔◌, ◌+◌, ◌<◌, ◌≤◌, max, List, ℕ, length, take, slice_index, All, Contains, IsTrue, false};
ghost use Rattle.std.specs.List.{list_all};
ghost use Rattle.cub_proto.specs.StateOf.{signature_of};
ghost use Rattle.cub_proto.specs.Fits.{literal_fits};
ghost use Rattle.cub_proto.specs.declared.literal.Lit.{Lit};
ghost use Rattle.cub_cube.specs.Rename.{renamed};
ghost use Rattle.cub_cube.specs.Cover.{DoesCover, CoversLeast, precedes};
ghost use Rattle.theory_laws.specs.Entailed.{Entails};
ghost use Rattle.subsume.specs.Injections.{term_reach, process_side_reach, integer_side_reach, reach, LastFollow, IsPartial, IsWhole};
ghost use Rattle.subsume.specs.Ready.{IsReady};

use crate::implied::is_implied;
use crate::standing::each_stands;
use cub_cube::{Cube, renamed};
use cub_proto::{ISide, Lit, PSide, Protocol, Term};
use theory::Scratch;

// The greatest number of places that are put without asking first whether each can stand somewhere.
const FEW_PLACES: u8 = 3;

fn term_reach(term: Term) -> usize
    ensures { result ≡ term_reach term }
{
    match term {
        Term::Global(_) => 0,
        Term::Cell(_, place) => place as usize + 1,
    }
}

fn process_side_reach(side: PSide) -> usize
    ensures { result ≡ process_side_reach side }
{
    match side {
        PSide::Global(_) => 0,
        PSide::Place(place) => place as usize + 1,
    }
}

fn integer_side_reach(side: ISide) -> usize
    ensures { result ≡ integer_side_reach side }
{
    match side {
        ISide::Zero => 0,
        ISide::At(term) => term_reach(term),
    }
}

// How many places there must be for the literal.
fn reach(lit: &Lit) -> usize
    ensures { result ≡ reach lit.now }
{
    match lit {
        Lit::FinIn { term, .. } => term_reach(*term),
        Lit::FinEq { a, b } | Lit::FinNe { a, b } => term_reach(*a).max(term_reach(*b)),
        Lit::ProcEq { a, b } | Lit::ProcNe { a, b } => process_side_reach(*a).max(
            process_side_reach(*b),
        ),
        Lit::Diff { a, b, .. } => integer_side_reach(*a).max(integer_side_reach(*b)),
    }
}

// Whether it entails the literal at the places, if the last of them is the literal's last place.
fn is_last_implied(
    scratch: &mut Scratch,
    protocol: &Protocol,
    small: &Cube,
    consistent: bool,
    lit: &Lit,
    places: &[u8],
) -> bool
    requires ready { IsReady protocol.now small.now consistent scratch.old }
    requires fits { (n : ℕ) → reach lit.now ≤ n → IsTrue (literal_fits (signature_of protocol.now) n lit.now) }
    requires within { All (λ q. q < small.now.width) places.now }
    ensures ready { IsReady protocol.now small.now consistent scratch.new }
    ensures count { scratch.new.tests ≡ scratch.old.tests }
    ensures exact { IsTrue result ↔ (reach lit.now ≡ length places.now → Entails protocol.now small.now.width small.now.lits (renamed places.now lit.now)) }
{
    if reach(lit) != places.len() {
        return true;
    }
    let placed = renamed(places, lit);
    is_implied(scratch, protocol, small, consistent, &placed)
}

// Whether it entails those literals whose last place is the last of the places.
fn last_follow(
    scratch: &mut Scratch,
    protocol: &Protocol,
    small: &Cube,
    consistent: bool,
    lits: &[Lit],
    places: &[u8],
) -> bool
    requires ready { IsReady protocol.now small.now consistent scratch.old }
    requires fit { (lit : Lit) (n : ℕ) → Contains lits.now lit → reach lit ≤ n → IsTrue (literal_fits (signature_of protocol.now) n lit) }
    requires within { All (λ q. q < small.now.width) places.now }
    ensures ready { IsReady protocol.now small.now consistent scratch.new }
    ensures count { scratch.new.tests ≡ scratch.old.tests }
    ensures exact { IsTrue result ↔ LastFollow protocol.now lits.now small.now places.now }
{
    for lit in lits {
        if !is_last_implied(scratch, protocol, small, consistent, lit, places) {
            return false;
        }
    }
    true
}

// Whether the place stands among the places.
fn is_taken(places: &[u8], place: u8) -> bool
    ensures { IsTrue result ↔ Contains places.now place }
{
    places.contains(&place)
}

// Puts place `k` to place `c`. False where no whole injection does so behind the places so far.
fn put_place(
    scratch: &mut Scratch,
    protocol: &Protocol,
    small: &Cube,
    consistent: bool,
    big: &Cube,
    places: &mut [u8],
    k: u8,
    c: u8,
) -> bool
    requires ready { IsReady protocol.now small.now consistent scratch.old }
    requires fits { IsTrue (list_all (literal_fits (signature_of protocol.now) big.now.width) big.now.lits) }
    requires size { length places.old ≡ 12 }
    requires inside { k < big.now.width }
    requires narrow { big.now.width ≤ 12 }
    requires below { c < small.now.width }
    requires partial { IsPartial protocol.now big.now.lits small.now (take k places.old) }
    ensures ready { IsReady protocol.now small.now consistent scratch.new }
    ensures count { scratch.new.tests ≡ scratch.old.tests }
    ensures size { length places.new ≡ 12 }
    ensures front { take k places.new ≡ take k places.old }
    ensures here { IsTrue result → slice_index places.new k ≡ c }
    ensures next { IsTrue result → IsPartial protocol.now big.now.lits small.now (take (k + 1) places.new) }
    ensures none { result ≡ false → (q : List ℕ) → IsWhole protocol.now big.now small.now q → take k q ≡ take k places.old → slice_index q k ≡ c → ⊥ }
{
    let at = k as usize;
    if is_taken(&places[..at], c) {
        return false;
    }
    places[at] = c;
    last_follow(
        scratch,
        protocol,
        small,
        consistent,
        big.lits.as_slice(),
        &places[..at + 1],
    )
}

// Puts place `k` to place `c`, and all later ones.
#[cycle(search)]
fn attempt(
    scratch: &mut Scratch,
    protocol: &Protocol,
    small: &Cube,
    consistent: bool,
    big: &Cube,
    places: &mut [u8],
    k: u8,
    c: u8,
) -> bool
    requires ready { IsReady protocol.now small.now consistent scratch.old }
    requires fits { IsTrue (list_all (literal_fits (signature_of protocol.now) big.now.width) big.now.lits) }
    requires size { length places.old ≡ 12 }
    requires inside { k < big.now.width }
    requires narrow { big.now.width ≤ 12 }
    requires below { c < small.now.width }
    requires partial { IsPartial protocol.now big.now.lits small.now (take k places.old) }
    ensures ready { IsReady protocol.now small.now consistent scratch.new }
    ensures count { scratch.new.tests ≡ scratch.old.tests }
    ensures size { length places.new ≡ 12 }
    ensures front { take k places.new ≡ take k places.old }
    ensures here { IsTrue result → slice_index places.new k ≡ c }
    ensures found { IsTrue result → IsPartial protocol.now big.now.lits small.now (take big.now.width places.new) }
    ensures least { IsTrue result → (q : List ℕ) → IsWhole protocol.now big.now small.now q → take k q ≡ take k places.old → slice_index q k ≡ c → IsTrue (precedes q (take big.now.width places.new)) → ⊥ }
    ensures none { result ≡ false → (q : List ℕ) → IsWhole protocol.now big.now small.now q → take k q ≡ take k places.old → slice_index q k ≡ c → ⊥ }
{
    if !put_place(scratch, protocol, small, consistent, big, places, k, c) {
        return false;
    }
    complete(scratch, protocol, small, consistent, big, places, k + 1)
}

/// Puts the places from `k` on so that the whole is the least injection that begins with those before `k`, if there is one.
#[cycle(search)]
fn complete(
    scratch: &mut Scratch,
    protocol: &Protocol,
    small: &Cube,
    consistent: bool,
    big: &Cube,
    places: &mut [u8],
    k: u8,
) -> bool
    requires ready { IsReady protocol.now small.now consistent scratch.old }
    requires fits { IsTrue (list_all (literal_fits (signature_of protocol.now) big.now.width) big.now.lits) }
    requires size { length places.old ≡ 12 }
    requires inside { k ≤ big.now.width }
    requires narrow { big.now.width ≤ 12 }
    requires partial { IsPartial protocol.now big.now.lits small.now (take k places.old) }
    ensures ready { IsReady protocol.now small.now consistent scratch.new }
    ensures count { scratch.new.tests ≡ scratch.old.tests }
    ensures size { length places.new ≡ 12 }
    ensures front { take k places.new ≡ take k places.old }
    ensures found { IsTrue result → IsPartial protocol.now big.now.lits small.now (take big.now.width places.new) }
    ensures least { IsTrue result → (q : List ℕ) → IsWhole protocol.now big.now small.now q → take k q ≡ take k places.old → IsTrue (precedes q (take big.now.width places.new)) → ⊥ }
    ensures none { result ≡ false → (q : List ℕ) → IsWhole protocol.now big.now small.now q → take k q ≡ take k places.old → ⊥ }
{
    if k == big.width {
        return true;
    }
    for c in 0..small.width {
        if attempt(scratch, protocol, small, consistent, big, places, k, c) {
            return true;
        }
    }
    false
}

/// The least injection by which the big cube covers the loaded one, as the first places; false where there is none.
pub fn least_injection(
    scratch: &mut Scratch,
    protocol: &Protocol,
    small: &Cube,
    consistent: bool,
    big: &Cube,
    places: &mut [u8],
) -> bool
    requires ready { IsReady protocol.now small.now consistent scratch.old }
    requires fits { IsTrue (list_all (literal_fits (signature_of protocol.now) big.now.width) big.now.lits) }
    requires size { length places.old ≡ 12 }
    requires narrow { big.now.width ≤ 12 }
    ensures ready { IsReady protocol.now small.now consistent scratch.new }
    ensures count { scratch.new.tests ≡ scratch.old.tests }
    ensures size { length places.new ≡ 12 }
    ensures found { IsTrue result → CoversLeast protocol.now big.now small.now (take big.now.width places.new) }
    ensures none { result ≡ false → DoesCover protocol.now big.now small.now → ⊥ }
{
    if !last_follow(
        scratch,
        protocol,
        small,
        consistent,
        big.lits.as_slice(),
        &[],
    ) {
        return false;
    }
    if big.width > FEW_PLACES && !each_stands(scratch, protocol, small, consistent, big) {
        return false;
    }
    complete(scratch, protocol, small, consistent, big, places, 0)
}
