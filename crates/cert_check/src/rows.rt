//! Which places of a small conjunction are free for each place of a big cube. A literal that mentions one place only says
//! at which places it follows, whatever the others are; so these literals are asked once, before the search for an
//! injection, and where a place of the big cube has no free place left there is none.

ghost use Rattle.std.specs.Prelude.{◌≡◌, ◌↔◌, ℕ, List, [], ◌<◌, ◌≤◌, false, length, replicate, slice_index_or, All, IsTrue};
ghost use Rattle.cub_proto.specs.StateOf.{signature_of};
ghost use Rattle.cub_proto.specs.Fits.{literal_fits};
ghost use Rattle.cub_cube.specs.Rename.{renamed};
ghost use Rattle.cub_cube.specs.Cover.{DoesCover};
ghost use Rattle.theory_laws.specs.Entailed.{Entails};
ghost use Rattle.cert_check.specs.Stand.{is_alone};
ghost use Rattle.cert_check.specs.Injections.{IsReady, IsRow, AreRows, cube_of};

use crate::standing::is_alone;
use cub_cube::renamed;
use cub_proto::{Lit, Protocol};
use theory::{Scratch, follows};

/// Which places are free for one place.
pub type Row = [bool; 12];

/// Whether the loaded conjunction entails the literal at the places.
pub fn is_implied(
    scratch: &mut Scratch,
    protocol: &Protocol,
    width: u8,
    lits: &[Lit],
    lit: &Lit,
    places: &[u8],
) -> bool
    requires ready { IsReady protocol.now width lits.now scratch.old }
    requires fits { IsTrue (literal_fits (signature_of protocol.now) (length places.now) lit.now) }
    requires within { All (λ q. q < width) places.now }
    ensures ready { IsReady protocol.now width lits.now scratch.new }
    ensures exact { IsTrue result ↔ Entails protocol.now width lits.now (renamed places.now lit.now) }
{
    let placed = renamed(places, lit);
    follows(scratch, protocol, width, lits, &placed)
}

// Whether a place stays free: it was, and the literal follows where all places are that one.
fn stays_free(
    scratch: &mut Scratch,
    protocol: &Protocol,
    width: u8,
    lits: &[Lit],
    lit: &Lit,
    count: u8,
    c: u8,
    free: bool,
) -> bool
    requires ready { IsReady protocol.now width lits.now scratch.old }
    requires few { count ≤ 8 }
    requires fits { IsTrue (literal_fits (signature_of protocol.now) count lit.now) }
    requires below { c < width }
    ensures ready { IsReady protocol.now width lits.now scratch.new }
    ensures exact { IsTrue result ↔ (IsTrue free × Entails protocol.now width lits.now (renamed (replicate count c) lit.now)) }
{
    if !free {
        return false;
    }
    let same = [c; 8];
    is_implied(scratch, protocol, width, lits, lit, &same[..count as usize])
}

// Leaves in the row the places at which the literal follows.
fn narrow(
    scratch: &mut Scratch,
    protocol: &Protocol,
    width: u8,
    lits: &[Lit],
    lit: &Lit,
    count: u8,
    row: &mut [bool],
)
    requires ready { IsReady protocol.now width lits.now scratch.old }
    requires few { count ≤ 8 }
    requires fits { IsTrue (literal_fits (signature_of protocol.now) count lit.now) }
    requires size { length row.old ≡ 12 }
    requires narrow { width ≤ 12 }
    ensures ready { IsReady protocol.now width lits.now scratch.new }
    ensures size { length row.new ≡ 12 }
    ensures exact { (c : ℕ) → c < width → IsTrue (slice_index_or row.new c false)
        ↔ (IsTrue (slice_index_or row.old c false) × Entails protocol.now width lits.now (renamed (replicate count c) lit.now)) }
{
    for c in 0..width {
        let free = row[c as usize];
        row[c as usize] = stays_free(scratch, protocol, width, lits, lit, count, c, free);
    }
}

// The same, if `k` is the literal's only place.
fn narrow_by(
    scratch: &mut Scratch,
    protocol: &Protocol,
    width: u8,
    lits: &[Lit],
    lit: &Lit,
    count: u8,
    k: u8,
    row: &mut [bool],
)
    requires ready { IsReady protocol.now width lits.now scratch.old }
    requires few { count ≤ 8 }
    requires inside { k < count }
    requires fits { IsTrue (literal_fits (signature_of protocol.now) count lit.now) }
    requires size { length row.old ≡ 12 }
    requires narrow { width ≤ 12 }
    ensures ready { IsReady protocol.now width lits.now scratch.new }
    ensures size { length row.new ≡ 12 }
    ensures exact { (c : ℕ) → c < width → IsTrue (slice_index_or row.new c false)
        ↔ (IsTrue (slice_index_or row.old c false) × (IsTrue (is_alone k lit.now) → Entails protocol.now width lits.now (renamed (replicate count c) lit.now))) }
{
    if !is_alone(k, lit) {
        return;
    }
    narrow(scratch, protocol, width, lits, lit, count, row);
}

// The places that are free for place `k` by the literals that mention it alone.
fn row_of(
    scratch: &mut Scratch,
    protocol: &Protocol,
    width: u8,
    lits: &[Lit],
    big: &[Lit],
    count: u8,
    k: u8,
) -> Row
    requires ready { IsReady protocol.now width lits.now scratch.old }
    requires few { count ≤ 8 }
    requires inside { k < count }
    requires fit { All (λ lit. IsTrue (literal_fits (signature_of protocol.now) count lit)) big.now }
    requires narrow { width ≤ 12 }
    ensures ready { IsReady protocol.now width lits.now scratch.new }
    ensures row { IsRow protocol.now big.now width lits.now count k result }
{
    let mut row = [true; 12];
    for lit in big {
        narrow_by(scratch, protocol, width, lits, lit, count, k, &mut row);
    }
    row
}

// Whether no place is free.
fn is_full(row: &[bool], width: u8) -> bool
    requires { width ≤ length row.now }
    ensures { IsTrue result ↔ ((c : ℕ) → c < width → slice_index_or row.now c false ≡ false) }
{
    for c in 0..width {
        if row[c as usize] {
            return false;
        }
    }
    true
}

/// The rows of the first `count` places. False where one of them has no free place, and so the big literals, over as
/// many places, cover the conjunction by no injection.
pub fn fill_rows(
    scratch: &mut Scratch,
    protocol: &Protocol,
    width: u8,
    lits: &[Lit],
    big: &[Lit],
    count: u8,
    rows: &mut [Row],
) -> bool
    requires ready { IsReady protocol.now width lits.now scratch.old }
    requires fit { All (λ lit. IsTrue (literal_fits (signature_of protocol.now) count lit)) big.now }
    requires few { count ≤ 8 }
    requires narrow { width ≤ 12 }
    requires size { length rows.old ≡ 8 }
    ensures ready { IsReady protocol.now width lits.now scratch.new }
    ensures rows { IsTrue result → AreRows protocol.now big.now width lits.now count rows.new }
    ensures none { result ≡ false → DoesCover protocol.now (cube_of count big.now) (cube_of width lits.now) → ⊥ }
{
    for k in 0..count {
        let row = row_of(scratch, protocol, width, lits, big, count, k);
        rows[k as usize] = row;
        if is_full(&row, width) {
            return false;
        }
    }
    true
}
