//! Whether each place of a big cube can stand somewhere by itself: at some place of the small cube this entails all literals
//! of the big one on that place alone. Where one can't, no injection is looked for.

ghost use Rattle.std.specs.Prelude.{◌≡◌, ◌↔◌, ◌<◌, ◌≤◌, List, ℕ, length, slice_index, All, Contains, IsTrue, true, false};
ghost use Rattle.std.specs.List.{list_all};
ghost use Rattle.cub_proto.specs.StateOf.{signature_of};
ghost use Rattle.cub_proto.specs.Fits.{literal_fits};
ghost use Rattle.cub_proto.specs.declared.literal.Lit.{Lit};
ghost use Rattle.cub_cube.specs.Rename.{renamed};
ghost use Rattle.theory_laws.specs.Entailed.{Entails};
ghost use Rattle.subsume.specs.Injections.{reach, IsWhole};
ghost use Rattle.subsume.specs.Standing.{term_only, process_side_only, integer_side_only, mentions_only, OwnFollow};
ghost use Rattle.subsume.specs.Ready.{IsReady};

use crate::implied::is_implied;
use cub_cube::{Cube, renamed};
use cub_proto::{ISide, Lit, PSide, Protocol, Term};
use theory::Scratch;

fn term_only(term: Term, place: u8) -> bool
    ensures { result ≡ term_only place term }
{
    match term {
        Term::Global(_) => true,
        Term::Cell(_, at) => at == place,
    }
}

fn process_side_only(side: PSide, place: u8) -> bool
    ensures { result ≡ process_side_only place side }
{
    match side {
        PSide::Global(_) => true,
        PSide::Place(at) => at == place,
    }
}

fn integer_side_only(side: ISide, place: u8) -> bool
    ensures { result ≡ integer_side_only place side }
{
    match side {
        ISide::Zero => true,
        ISide::At(term) => term_only(term, place),
    }
}

// Whether the literal has no place but this one.
fn mentions_only(lit: &Lit, place: u8) -> bool
    ensures { result ≡ mentions_only place lit.now }
{
    match lit {
        Lit::FinIn { term, .. } => term_only(*term, place),
        Lit::FinEq { a, b } | Lit::FinNe { a, b } => term_only(*a, place) && term_only(*b, place),
        Lit::ProcEq { a, b } | Lit::ProcNe { a, b } => {
            process_side_only(*a, place) && process_side_only(*b, place)
        }
        Lit::Diff { a, b, .. } => integer_side_only(*a, place) && integer_side_only(*b, place),
    }
}

// Whether the small cube entails the literal at the places, if it is on place `k` alone.
fn is_own_implied(
    scratch: &mut Scratch,
    protocol: &Protocol,
    small: &Cube,
    consistent: bool,
    lit: &Lit,
    places: &[u8],
    k: u8,
) -> bool
    requires ready { IsReady protocol.now small.now consistent scratch.old }
    requires fits { IsTrue (literal_fits (signature_of protocol.now) (length places.now) lit.now) }
    requires within { All (λ q. q < small.now.width) places.now }
    ensures ready { IsReady protocol.now small.now consistent scratch.new }
    ensures count { scratch.new.tests ≡ scratch.old.tests }
    ensures exact { IsTrue result ↔ (mentions_only k lit.now ≡ true → Entails protocol.now small.now.width small.now.lits (renamed places.now lit.now)) }
{
    if !mentions_only(lit, k) {
        return true;
    }
    let placed = renamed(places, lit);
    is_implied(scratch, protocol, small, consistent, &placed)
}

// Whether it entails those literals that are on place `k` alone.
fn own_follow(
    scratch: &mut Scratch,
    protocol: &Protocol,
    small: &Cube,
    consistent: bool,
    lits: &[Lit],
    places: &[u8],
    k: u8,
) -> bool
    requires ready { IsReady protocol.now small.now consistent scratch.old }
    requires fit { (lit : Lit) → Contains lits.now lit → IsTrue (literal_fits (signature_of protocol.now) (length places.now) lit) }
    requires within { All (λ q. q < small.now.width) places.now }
    ensures ready { IsReady protocol.now small.now consistent scratch.new }
    ensures count { scratch.new.tests ≡ scratch.old.tests }
    ensures exact { IsTrue result ↔ OwnFollow protocol.now lits.now small.now places.now k }
{
    for lit in lits {
        if !is_own_implied(scratch, protocol, small, consistent, lit, places, k) {
            return false;
        }
    }
    true
}

// Whether place `k` can stand at `c` by itself. False where no whole injection has it there.
fn stands_at(
    scratch: &mut Scratch,
    protocol: &Protocol,
    small: &Cube,
    consistent: bool,
    big: &Cube,
    k: u8,
    c: u8,
) -> bool
    requires ready { IsReady protocol.now small.now consistent scratch.old }
    requires fits { IsTrue (list_all (literal_fits (signature_of protocol.now) big.now.width) big.now.lits) }
    requires inside { k < big.now.width }
    requires narrow { big.now.width ≤ 12 }
    requires below { c < small.now.width }
    ensures ready { IsReady protocol.now small.now consistent scratch.new }
    ensures count { scratch.new.tests ≡ scratch.old.tests }
    ensures none { result ≡ false → (q : List ℕ) → IsWhole protocol.now big.now small.now q → slice_index q k ≡ c → ⊥ }
{
    let places = [c; 12];
    own_follow(
        scratch,
        protocol,
        small,
        consistent,
        big.lits.as_slice(),
        &places,
        k,
    )
}

// Whether place `k` can stand somewhere by itself.
fn stands(
    scratch: &mut Scratch,
    protocol: &Protocol,
    small: &Cube,
    consistent: bool,
    big: &Cube,
    k: u8,
) -> bool
    requires ready { IsReady protocol.now small.now consistent scratch.old }
    requires fits { IsTrue (list_all (literal_fits (signature_of protocol.now) big.now.width) big.now.lits) }
    requires inside { k < big.now.width }
    requires narrow { big.now.width ≤ 12 }
    ensures ready { IsReady protocol.now small.now consistent scratch.new }
    ensures count { scratch.new.tests ≡ scratch.old.tests }
    ensures none { result ≡ false → (q : List ℕ) → IsWhole protocol.now big.now small.now q → ⊥ }
{
    for c in 0..small.width {
        if stands_at(scratch, protocol, small, consistent, big, k, c) {
            return true;
        }
    }
    false
}

/// Whether each place of the big cube can stand somewhere by itself. False where there is no whole injection.
pub fn each_stands(
    scratch: &mut Scratch,
    protocol: &Protocol,
    small: &Cube,
    consistent: bool,
    big: &Cube,
) -> bool
    requires ready { IsReady protocol.now small.now consistent scratch.old }
    requires fits { IsTrue (list_all (literal_fits (signature_of protocol.now) big.now.width) big.now.lits) }
    requires narrow { big.now.width ≤ 12 }
    ensures ready { IsReady protocol.now small.now consistent scratch.new }
    ensures count { scratch.new.tests ≡ scratch.old.tests }
    ensures none { result ≡ false → (q : List ℕ) → IsWhole protocol.now big.now small.now q → ⊥ }
{
    for k in 0..big.width {
        if !stands(scratch, protocol, small, consistent, big, k) {
            return false;
        }
    }
    true
}
