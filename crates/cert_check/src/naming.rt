//! Whether a cover line names a cube and an injection by which it covers. Nothing is searched for: the places of the line
//! are tested to be an injection, and each literal of the cube, at these places, is asked.

ghost use Rattle.std.specs.Prelude.{◌≡◌, ◌≢◌, ◌↔◌, ◌<◌, length, All, AllPairs, Contains, IsTrue};
ghost use Rattle.std.specs.List.{list_all};
ghost use Rattle.cub_proto.specs.declared.literal.Lit.{Lit};
ghost use Rattle.cub_proto.specs.StateOf.{signature_of};
ghost use Rattle.cub_proto.specs.Fits.{literal_fits};
ghost use Rattle.cub_cube.specs.Rename.{renamed, IsInjection};
ghost use Rattle.cub_cube.specs.Cover.{Covers};
ghost use Rattle.theory_laws.specs.Entailed.{Entails};
ghost use Rattle.theory.specs.Made.{IsFor};
ghost use Rattle.pieces.specs.Jobs.{IsExpandable};
ghost use Rattle.piece_laws.specs.Test.{CoversAt};
ghost use Rattle.cert_check.specs.Injections.{IsReady, cube_of};
ghost use Rattle.cert_check.specs.Keys.{lines_rise};
ghost use Rattle.cert_check.specs.Obligations.{IsOwed};
ghost use Rattle.cert_check.specs.Named.{line_by, line_places, IsNamed};
ghost use Rattle.cert_check.specs.Walked.{HasCome, HasTaken};

use crate::cursor::{Cursor, take};
use crate::keys::Key;
use crate::rows::is_implied;
use cub_cube::Cube;
use cub_proto::{CoverLine, Lit, Protocol};
use theory::Scratch;

fn are_below(places: &[u8], width: u8) -> bool
    ensures { IsTrue result ↔ All (λ q. q < width) places.now }
{
    places.iter().all(|place| *place < width)
}

fn stands_in(places: &[u8], place: u8) -> bool
    ensures { IsTrue result ↔ Contains places.now place }
{
    places.contains(&place)
}

// Whether no place stands twice.
fn are_apart(places: &[u8]) -> bool
    ensures { IsTrue result ↔ AllPairs (λ x y. x ≢ y) places.now }
{
    for i in 0..places.len() {
        if stands_in(&places[..i], places[i]) {
            return false;
        }
    }
    true
}

// Whether the places are an injection of so many places.
fn is_injection(from: u8, to: u8, places: &[u8]) -> bool
    ensures { IsTrue result ↔ IsInjection from to places.now }
{
    if places.len() != from as usize {
        return false;
    }
    if !are_below(places, to) {
        return false;
    }
    are_apart(places)
}

// Whether the loaded conjunction entails all literals at the places.
fn all_follow(
    scratch: &mut Scratch,
    protocol: &Protocol,
    width: u8,
    lits: &[Lit],
    big: &[Lit],
    places: &[u8],
) -> bool
    requires ready { IsReady protocol.now width lits.now scratch.old }
    requires fit { All (λ lit. IsTrue (literal_fits (signature_of protocol.now) (length places.now) lit)) big.now }
    requires within { All (λ q. q < width) places.now }
    ensures made { IsFor protocol.now scratch.new }
    ensures exact { IsTrue result ↔ ((lit : Lit) → Contains big.now lit → Entails protocol.now width lits.now (renamed places.now lit)) }
{
    for lit in big {
        if !is_implied(scratch, protocol, width, lits, lit, places) {
            return false;
        }
    }
    true
}

// Whether the cube covers the loaded conjunction by the places.
fn covers_by(
    scratch: &mut Scratch,
    protocol: &Protocol,
    width: u8,
    lits: &[Lit],
    big: &Cube,
    places: &[u8],
) -> bool
    requires ready { IsReady protocol.now width lits.now scratch.old }
    requires fit { IsTrue (list_all (literal_fits (signature_of protocol.now) big.now.width) big.now.lits) }
    ensures made { IsFor protocol.now scratch.new }
    ensures exact { IsTrue result ↔ Covers protocol.now big.now (cube_of width lits.now) places.now }
{
    if !is_injection(big.width, width, places) {
        return false;
    }
    all_follow(scratch, protocol, width, lits, big.lits.as_slice(), places)
}

// The number of the line's cube.
fn line_by(line: &CoverLine) -> u32
    ensures { result ≡ line_by line.now }
{
    match line {
        CoverLine::Unsafe { by, .. } => *by,
        CoverLine::Piece { by, .. } => *by,
    }
}

// Its places.
fn line_places(line: &CoverLine) -> &[u8]
    ensures { result.now ≡ line_places line.now }
{
    match line {
        CoverLine::Unsafe { places, .. } => places.as_slice(),
        CoverLine::Piece { places, .. } => places.as_slice(),
    }
}

// Whether the line's cube covers the loaded conjunction by the line's places.
fn line_covers(
    scratch: &mut Scratch,
    protocol: &Protocol,
    cubes: &[Cube],
    width: u8,
    lits: &[Lit],
    line: &CoverLine,
) -> bool
    requires ready { IsReady protocol.now width lits.now scratch.old }
    requires fit { All (IsExpandable protocol.now) cubes.now }
    ensures made { IsFor protocol.now scratch.new }
    ensures exact { IsTrue result ↔ CoversAt protocol.now cubes.now (line_by line.now) (cube_of width lits.now) (line_places line.now) }
{
    match cubes.get(line_by(line) as usize) {
        None => false,
        Some(big) => covers_by(scratch, protocol, width, lits, big, line_places(line)),
    }
}

/// Whether a line is about the obligation of this key, and its cube covers the loaded conjunction by its places. The
/// cursor goes on behind the lines about the key.
pub fn is_named(
    scratch: &mut Scratch,
    protocol: &Protocol,
    cubes: &[Cube],
    lines: &[CoverLine],
    cursor: &mut Cursor,
    key: Key,
    width: u8,
    lits: &[Lit],
) -> bool
    requires ready { IsReady protocol.now width lits.now scratch.old }
    requires fit { All (IsExpandable protocol.now) cubes.now }
    requires rise { IsTrue (lines_rise lines.now) }
    requires come { HasCome (IsOwed protocol.now cubes.now) lines.now key cursor.old }
    requires owed { IsOwed protocol.now cubes.now key }
    ensures made { IsFor protocol.now scratch.new }
    ensures taken { HasTaken (IsOwed protocol.now cubes.now) lines.now key cursor.new }
    ensures exact { IsTrue result ↔ IsNamed protocol.now cubes.now lines.now key (cube_of width lits.now) }
{
    match take(lines, cursor, key) {
        None => false,
        Some(at) => line_covers(scratch, protocol, cubes, width, lits, &lines[at]),
    }
}
