//! The obligations on pieces. The pieces of one cube are listed, and then asked in order; no more than those of one cube are
//! held at a time.

ghost use Rattle.std.specs.Prelude.{◌≡◌, ◌↔◌, ◌+◌, ◌<◌, ◌^◌, ℕ, List, All, Some, None, Ok, length, IsTrue, IfOk, MatchOption, slice_get};
ghost use Rattle.cub_cube.specs.Cover.{IsCovered};
ghost use Rattle.theory.specs.Made.{IsFor};
ghost use Rattle.pieces.specs.Jobs.{IsExpandable};
ghost use Rattle.piece_choices.specs.declared.piece.Piece.{Piece};
ghost use Rattle.piece_choices.specs.Pieces.{ArePieces};
ghost use Rattle.cert_check.specs.declared.keys.Key.TheVariants as Key;
ghost use Rattle.cert_check.specs.First.{IsFirstWithout, IsFirstPairWithout};
ghost use Rattle.cert_check.specs.Keys.{lines_rise};
ghost use Rattle.cert_check.specs.Listed.{IsAskable, AllListed, CoveredIn, NamedIn};
ghost use Rattle.cert_check.specs.Named.{IsNamed};
ghost use Rattle.cert_check.specs.Obligations.{PieceCovered, PieceNamed, IsOwed};
ghost use Rattle.cert_check.specs.Refusal.{PiecesCovered, PiecesNamed};
ghost use Rattle.cert_check.specs.Walked.{HasCome, HasEnded};

use crate::covering::is_covered;
use crate::cursor::Cursor;
use crate::keys::Key;
use crate::naming::is_named;
use cub_base::Memory;
use cub_cube::Cube;
use cub_proto::{CoverLine, Protocol};
use piece_choices::Piece;
use pieces::pieces;
use theory::{Scratch, load};

// Whether one cube covers the piece.
fn piece_covered(scratch: &mut Scratch, protocol: &Protocol, cubes: &[Cube], piece: &Piece) -> bool
    requires made { IsFor protocol.now scratch.old }
    requires fit { All (IsExpandable protocol.now) cubes.now }
    requires askable { IsAskable protocol.now piece.now }
    ensures made { IsFor protocol.now scratch.new }
    ensures exact { IsTrue result ↔ IsCovered protocol.now cubes.now piece.now.cube }
{
    is_covered(
        scratch,
        protocol,
        cubes,
        piece.cube.width,
        piece.cube.lits.as_slice(),
    )
}

// The first piece of the list that no cube covers.
fn uncovered_in(
    scratch: &mut Scratch,
    protocol: &Protocol,
    cubes: &[Cube],
    list: &[Piece],
) -> Option<u64>
    requires made { IsFor protocol.now scratch.old }
    requires fit { All (IsExpandable protocol.now) cubes.now }
    requires askable { All (IsAskable protocol.now) list.now }
    ensures made { IsFor protocol.now scratch.new }
    ensures first { MatchOption result ((n : ℕ) → CoveredIn protocol.now cubes.now list.now n) (λ n. IsFirstWithout (CoveredIn protocol.now cubes.now list.now) n) }
{
    for n in 0..list.len() {
        if !piece_covered(scratch, protocol, cubes, &list[n]) {
            return Some(n as u64);
        }
    }
    None
}

// The first piece of the cube that no cube covers.
fn uncovered_of(
    scratch: &mut Scratch,
    protocol: &Protocol,
    cubes: &[Cube],
    k: u32,
    cube: &Cube,
) -> Result<Option<u64>, Memory>
    requires made { IsFor protocol.now scratch.old }
    requires fit { All (IsExpandable protocol.now) cubes.now }
    requires its { slice_get cubes.now k ≡ Some cube.now }
    requires expandable { IsExpandable protocol.now cube.now }
    ensures made { IsFor protocol.now scratch.new }
    ensures listed { IfOk result (λ _. (xs : List Piece) × ArePieces protocol.now cube.now xs) }
    ensures first { IfOk result (λ found. MatchOption found ((n : ℕ) → PieceCovered protocol.now cubes.now k n) (λ n. IsFirstWithout (PieceCovered protocol.now cubes.now k) n)) }
{
    let list = pieces(scratch, protocol, cube)?;
    let found = uncovered_in(scratch, protocol, cubes, list.as_slice());
    Ok(found)
}

/// The first piece of the first cube that has one which no cube covers, with the number of that cube.
pub fn first_uncovered_piece(
    scratch: &mut Scratch,
    protocol: &Protocol,
    cubes: &[Cube],
) -> Result<Option<(u32, u64)>, Memory>
    requires made { IsFor protocol.now scratch.old }
    requires fit { All (IsExpandable protocol.now) cubes.now }
    requires few { length cubes.now < 2 ^ 32 }
    ensures made { IsFor protocol.now scratch.new }
    ensures first { IfOk result (λ found. MatchOption found (PiecesCovered protocol.now cubes.now × AllListed protocol.now cubes.now) (λ at. IsFirstPairWithout (PieceCovered protocol.now cubes.now) at.0 at.1)) }
{
    for k in 0..cubes.len() as u32 {
        let found = uncovered_of(scratch, protocol, cubes, k, &cubes[k as usize])?;
        match found {
            Some(n) => return Ok(Some((k, n))),
            None => {}
        }
    }
    Ok(None)
}

// Whether a line names a cube that covers the piece with that number.
fn piece_named(
    scratch: &mut Scratch,
    protocol: &Protocol,
    cubes: &[Cube],
    lines: &[CoverLine],
    cursor: &mut Cursor,
    k: u32,
    n: u64,
    piece: &Piece,
) -> bool
    requires made { IsFor protocol.now scratch.old }
    requires fit { All (IsExpandable protocol.now) cubes.now }
    requires rise { IsTrue (lines_rise lines.now) }
    requires askable { IsAskable protocol.now piece.now }
    requires owed { IsOwed protocol.now cubes.now (Key.Piece k n) }
    requires come { HasCome (IsOwed protocol.now cubes.now) lines.now (Key.Piece k n) cursor.old }
    ensures made { IsFor protocol.now scratch.new }
    ensures come { HasCome (IsOwed protocol.now cubes.now) lines.now (Key.Piece k (n + 1)) cursor.new }
    ensures exact { IsTrue result ↔ IsNamed protocol.now cubes.now lines.now (Key.Piece k n) piece.now.cube }
{
    let width = piece.cube.width;
    let lits = piece.cube.lits.as_slice();
    if !load(scratch, protocol, width, lits) {
        return true;
    }
    is_named(
        scratch,
        protocol,
        cubes,
        lines,
        cursor,
        Key::Piece { cube: k, piece: n },
        width,
        lits,
    )
}

// The first piece of the list for which no line names a cube that covers it.
fn unnamed_in(
    scratch: &mut Scratch,
    protocol: &Protocol,
    cubes: &[Cube],
    lines: &[CoverLine],
    cursor: &mut Cursor,
    k: u32,
    cube: &Cube,
    list: &[Piece],
) -> Option<u64>
    requires made { IsFor protocol.now scratch.old }
    requires fit { All (IsExpandable protocol.now) cubes.now }
    requires rise { IsTrue (lines_rise lines.now) }
    requires its { slice_get cubes.now k ≡ Some cube.now }
    requires list { ArePieces protocol.now cube.now list.now }
    requires askable { All (IsAskable protocol.now) list.now }
    requires come { HasCome (IsOwed protocol.now cubes.now) lines.now (Key.Piece k 0) cursor.old }
    ensures made { IsFor protocol.now scratch.new }
    ensures come { result ≡ None → HasCome (IsOwed protocol.now cubes.now) lines.now (Key.Piece k (length list.now)) cursor.new }
    ensures first { MatchOption result ((n : ℕ) → NamedIn protocol.now cubes.now lines.now k list.now n) (λ n. IsFirstWithout (NamedIn protocol.now cubes.now lines.now k list.now) n) }
{
    for n in 0..list.len() {
        let piece = &list[n];
        if !piece_named(scratch, protocol, cubes, lines, cursor, k, n as u64, piece) {
            return Some(n as u64);
        }
    }
    None
}

// The first piece of the cube for which no line names a cube that covers it.
fn unnamed_of(
    scratch: &mut Scratch,
    protocol: &Protocol,
    cubes: &[Cube],
    lines: &[CoverLine],
    cursor: &mut Cursor,
    k: u32,
    cube: &Cube,
) -> Result<Option<u64>, Memory>
    requires made { IsFor protocol.now scratch.old }
    requires fit { All (IsExpandable protocol.now) cubes.now }
    requires rise { IsTrue (lines_rise lines.now) }
    requires its { slice_get cubes.now k ≡ Some cube.now }
    requires expandable { IsExpandable protocol.now cube.now }
    requires come { HasCome (IsOwed protocol.now cubes.now) lines.now (Key.Piece k 0) cursor.old }
    ensures made { IsFor protocol.now scratch.new }
    ensures listed { IfOk result (λ _. (xs : List Piece) × ArePieces protocol.now cube.now xs) }
    ensures come { result ≡ Ok None → HasCome (IsOwed protocol.now cubes.now) lines.now (Key.Piece (k + 1) 0) cursor.new }
    ensures first { IfOk result (λ found. MatchOption found ((n : ℕ) → PieceNamed protocol.now cubes.now lines.now k n) (λ n. IsFirstWithout (PieceNamed protocol.now cubes.now lines.now k) n)) }
{
    let list = pieces(scratch, protocol, cube)?;
    let list = list.as_slice();
    Ok(unnamed_in(scratch, protocol, cubes, lines, cursor, k, cube, list))
}

/// The first piece of the first cube that has one for which no line names a cube that covers it, with the number of that
/// cube. If there is none, the cursor stands behind all obligations.
pub fn first_unnamed_piece(
    scratch: &mut Scratch,
    protocol: &Protocol,
    cubes: &[Cube],
    lines: &[CoverLine],
    cursor: &mut Cursor,
) -> Result<Option<(u32, u64)>, Memory>
    requires made { IsFor protocol.now scratch.old }
    requires fit { All (IsExpandable protocol.now) cubes.now }
    requires few { length cubes.now < 2 ^ 32 }
    requires rise { IsTrue (lines_rise lines.now) }
    requires come { HasCome (IsOwed protocol.now cubes.now) lines.now (Key.Piece 0 0) cursor.old }
    ensures made { IsFor protocol.now scratch.new }
    ensures first { IfOk result (λ found. MatchOption found (PiecesNamed protocol.now cubes.now lines.now × AllListed protocol.now cubes.now × HasEnded (IsOwed protocol.now cubes.now) lines.now cursor.new) (λ at. IsFirstPairWithout (PieceNamed protocol.now cubes.now lines.now) at.0 at.1)) }
{
    for k in 0..cubes.len() as u32 {
        let found = unnamed_of(
            scratch,
            protocol,
            cubes,
            lines,
            cursor,
            k,
            &cubes[k as usize],
        )?;
        match found {
            Some(n) => return Ok(Some((k, n))),
            None => {}
        }
    }
    Ok(None)
}
