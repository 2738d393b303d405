//! The search for an injection of the places of a big cube into those of a loaded conjunction by which this entails each
//! literal of the big cube. Literals without places are asked first. Then each place of the big cube has its row of free
//! places, by the literals that mention it alone. Then places are put one after the other, each at the free places that
//! are not taken, and a literal with two places is asked as soon as its last one is put.

ghost use Rattle.std.specs.Prelude.{◌≡◌, ◌↔◌, ◌+◌, ◌<◌, ◌≤◌, ℕ, List, [], length, take, slice_index, slice_index_or, All, Contains, IsTrue, false};
ghost use Rattle.std.specs.List.{list_all};
ghost use Rattle.cub_proto.specs.StateOf.{signature_of};
ghost use Rattle.cub_proto.specs.Fits.{literal_fits};
ghost use Rattle.cub_proto.specs.declared.literal.Lit.{Lit};
ghost use Rattle.cub_cube.specs.Rename.{renamed};
ghost use Rattle.cub_cube.specs.Cover.{Covers, DoesCover};
ghost use Rattle.theory_laws.specs.Entailed.{Entails};
ghost use Rattle.cert_check.specs.Injections.{IsReady, AreRows, PlainFollow, JointFollow, IsPartial, cube_of};

use crate::rows::{Row, fill_rows, is_implied};
use crate::standing::{is_joint, is_within};
use cub_cube::Cube;
use cub_proto::{Lit, Protocol};
use theory::Scratch;

// Whether the conjunction entails the literal at the places, if it is asked.
fn is_implied_if(
    scratch: &mut Scratch,
    protocol: &Protocol,
    width: u8,
    lits: &[Lit],
    lit: &Lit,
    places: &[u8],
    asked: bool,
) -> bool
    requires ready { IsReady protocol.now width lits.now scratch.old }
    requires fits { IsTrue (literal_fits (signature_of protocol.now) (length places.now) lit.now) }
    requires within { All (λ q. q < width) places.now }
    ensures ready { IsReady protocol.now width lits.now scratch.new }
    ensures exact { IsTrue result ↔ (IsTrue asked → Entails protocol.now width lits.now (renamed places.now lit.now)) }
{
    if !asked {
        return true;
    }
    is_implied(scratch, protocol, width, lits, lit, places)
}

// Whether the conjunction entails the literals without places.
fn plain_follow(
    scratch: &mut Scratch,
    protocol: &Protocol,
    width: u8,
    lits: &[Lit],
    big: &[Lit],
    places: &[u8],
) -> bool
    requires ready { IsReady protocol.now width lits.now scratch.old }
    requires fit { All (λ lit. IsTrue (literal_fits (signature_of protocol.now) (length places.now) lit)) big.now }
    requires within { All (λ q. q < width) places.now }
    ensures ready { IsReady protocol.now width lits.now scratch.new }
    ensures exact { IsTrue result ↔ PlainFollow protocol.now big.now width lits.now places.now }
{
    for lit in big {
        let asked = is_within(0, lit);
        if !is_implied_if(scratch, protocol, width, lits, lit, places, asked) {
            return false;
        }
    }
    true
}

// Whether it entails those with two places, whose last one is `k`.
fn joint_follow(
    scratch: &mut Scratch,
    protocol: &Protocol,
    width: u8,
    lits: &[Lit],
    big: &[Lit],
    places: &[u8],
    k: u8,
) -> bool
    requires ready { IsReady protocol.now width lits.now scratch.old }
    requires fit { All (λ lit. IsTrue (literal_fits (signature_of protocol.now) (length places.now) lit)) big.now }
    requires within { All (λ q. q < width) places.now }
    requires inside { k < 255 }
    ensures ready { IsReady protocol.now width lits.now scratch.new }
    ensures exact { IsTrue result ↔ JointFollow protocol.now big.now width lits.now k places.now }
{
    for lit in big {
        let asked = is_joint(k, lit);
        if !is_implied_if(scratch, protocol, width, lits, lit, places, asked) {
            return false;
        }
    }
    true
}

// Whether the place is free and not taken.
fn is_open(row: &[bool], places: &[u8], c: u8) -> bool
    requires { c < length row.now }
    ensures { IsTrue result ↔ (IsTrue (slice_index_or row.now c false) × (Contains places.now c → ⊥)) }
{
    row[c as usize] && !places.contains(&c)
}

// Puts place `k` to place `c`. False where no covering injection does so behind the places so far.
fn put_place(
    scratch: &mut Scratch,
    protocol: &Protocol,
    width: u8,
    lits: &[Lit],
    big: &[Lit],
    count: u8,
    rows: &[Row],
    places: &mut [u8],
    k: u8,
    c: u8,
) -> bool
    requires ready { IsReady protocol.now width lits.now scratch.old }
    requires fit { All (λ lit. IsTrue (literal_fits (signature_of protocol.now) count lit)) big.now }
    requires rows { AreRows protocol.now big.now width lits.now count rows.now }
    requires size { length places.old ≡ count }
    requires few { count ≤ 8 }
    requires inside { k < count }
    requires narrow { width ≤ 12 }
    requires below { c < width }
    requires within { All (λ q. q < width) places.old }
    requires partial { IsPartial protocol.now big.now width lits.now (take k places.old) }
    ensures ready { IsReady protocol.now width lits.now scratch.new }
    ensures size { length places.new ≡ count }
    ensures within { All (λ q. q < width) places.new }
    ensures front { take k places.new ≡ take k places.old }
    ensures here { IsTrue result → slice_index places.new k ≡ c }
    ensures next { IsTrue result → IsPartial protocol.now big.now width lits.now (take (k + 1) places.new) }
    ensures none { result ≡ false → (q : List ℕ) → Covers protocol.now (cube_of count big.now) (cube_of width lits.now) q → take k q ≡ take k places.old → slice_index q k ≡ c → ⊥ }
{
    let at = k as usize;
    if !is_open(&rows[at], &places[..at], c) {
        return false;
    }
    places[at] = c;
    joint_follow(scratch, protocol, width, lits, big, places, k)
}

// Puts place `k` to place `c`, and all later ones.
#[cycle(search)]
fn attempt(
    scratch: &mut Scratch,
    protocol: &Protocol,
    width: u8,
    lits: &[Lit],
    big: &[Lit],
    count: u8,
    rows: &[Row],
    places: &mut [u8],
    k: u8,
    c: u8,
) -> bool
    requires ready { IsReady protocol.now width lits.now scratch.old }
    requires fit { All (λ lit. IsTrue (literal_fits (signature_of protocol.now) count lit)) big.now }
    requires rows { AreRows protocol.now big.now width lits.now count rows.now }
    requires size { length places.old ≡ count }
    requires few { count ≤ 8 }
    requires inside { k < count }
    requires narrow { width ≤ 12 }
    requires below { c < width }
    requires within { All (λ q. q < width) places.old }
    requires partial { IsPartial protocol.now big.now width lits.now (take k places.old) }
    ensures ready { IsReady protocol.now width lits.now scratch.new }
    ensures size { length places.new ≡ count }
    ensures within { All (λ q. q < width) places.new }
    ensures front { take k places.new ≡ take k places.old }
    ensures found { IsTrue result → IsPartial protocol.now big.now width lits.now places.new }
    ensures none { result ≡ false → (q : List ℕ) → Covers protocol.now (cube_of count big.now) (cube_of width lits.now) q → take k q ≡ take k places.old → slice_index q k ≡ c → ⊥ }
{
    if !put_place(
        scratch, protocol, width, lits, big, count, rows, places, k, c,
    ) {
        return false;
    }
    let next = k + 1;
    complete(
        scratch, protocol, width, lits, big, count, rows, places, next,
    )
}

// Puts the places from `k` on, if a covering injection begins with those before `k`.
#[cycle(search)]
fn complete(
    scratch: &mut Scratch,
    protocol: &Protocol,
    width: u8,
    lits: &[Lit],
    big: &[Lit],
    count: u8,
    rows: &[Row],
    places: &mut [u8],
    k: u8,
) -> bool
    requires ready { IsReady protocol.now width lits.now scratch.old }
    requires fit { All (λ lit. IsTrue (literal_fits (signature_of protocol.now) count lit)) big.now }
    requires rows { AreRows protocol.now big.now width lits.now count rows.now }
    requires size { length places.old ≡ count }
    requires few { count ≤ 8 }
    requires inside { k ≤ count }
    requires narrow { width ≤ 12 }
    requires within { All (λ q. q < width) places.old }
    requires partial { IsPartial protocol.now big.now width lits.now (take k places.old) }
    ensures ready { IsReady protocol.now width lits.now scratch.new }
    ensures size { length places.new ≡ count }
    ensures within { All (λ q. q < width) places.new }
    ensures front { take k places.new ≡ take k places.old }
    ensures found { IsTrue result → IsPartial protocol.now big.now width lits.now places.new }
    ensures none { result ≡ false → (q : List ℕ) → Covers protocol.now (cube_of count big.now) (cube_of width lits.now) q → take k q ≡ take k places.old → ⊥ }
{
    if k == count {
        return true;
    }
    for c in 0..width {
        if attempt(
            scratch, protocol, width, lits, big, count, rows, places, k, c,
        ) {
            return true;
        }
    }
    false
}

// Whether there is an injection.
fn has_injection(
    scratch: &mut Scratch,
    protocol: &Protocol,
    width: u8,
    lits: &[Lit],
    big: &[Lit],
    count: u8,
    places: &mut [u8],
) -> bool
    requires ready { IsReady protocol.now width lits.now scratch.old }
    requires fit { All (λ lit. IsTrue (literal_fits (signature_of protocol.now) count lit)) big.now }
    requires size { length places.old ≡ count }
    requires few { count ≤ 8 }
    requires narrow { width ≤ 12 }
    requires within { All (λ q. q < width) places.old }
    ensures ready { IsReady protocol.now width lits.now scratch.new }
    ensures exact { IsTrue result ↔ DoesCover protocol.now (cube_of count big.now) (cube_of width lits.now) }
{
    if !plain_follow(scratch, protocol, width, lits, big, places) {
        return false;
    }
    let mut rows = [[false; 12]; 8];
    if !fill_rows(scratch, protocol, width, lits, big, count, &mut rows) {
        return false;
    }
    complete(scratch, protocol, width, lits, big, count, &rows, places, 0)
}

/// Whether the big cube covers the loaded conjunction.
pub fn covers(
    scratch: &mut Scratch,
    protocol: &Protocol,
    width: u8,
    lits: &[Lit],
    big: &Cube,
) -> bool
    requires ready { IsReady protocol.now width lits.now scratch.old }
    requires fit { IsTrue (list_all (literal_fits (signature_of protocol.now) big.now.width) big.now.lits) }
    requires few { big.now.width ≤ 8 }
    requires narrow { width ≤ 12 }
    ensures ready { IsReady protocol.now width lits.now scratch.new }
    ensures exact { IsTrue result ↔ DoesCover protocol.now big.now (cube_of width lits.now) }
{
    if big.width > width {
        return false;
    }
    let mut places = [0; 8];
    let places = &mut places[..big.width as usize];
    let literals = big.lits.as_slice();
    has_injection(scratch, protocol, width, lits, literals, big.width, places)
}
