//! The tests of both versions. All start obligations come first, then the goals, then the pieces, cube by cube.

ghost use Rattle.std.specs.Prelude.{◌≡◌, ◌<◌, ◌^◌, ℕ, List, length, All, IsTrue, OnOk, IfErr};
ghost use Rattle.cub_proto.specs.declared.cover.CoverLine.{CoverLine};
ghost use Rattle.cub_proto.specs.Meets.{IsSafe};
ghost use Rattle.cub_cube.specs.Inductive.{IsInductive};
ghost use Rattle.pieces.specs.Jobs.{IsExpandable};
ghost use Rattle.piece_laws.specs.Test.{PassesTest, PassesLines};
ghost use Rattle.theory.specs.Made.{IsFor};
ghost use Rattle.cert_check.specs.declared.keys.Key.TheVariants as Key;
ghost use Rattle.cert_check.specs.Keys.{lines_rise};
ghost use Rattle.cert_check.specs.Listed.{AllListed};
ghost use Rattle.cert_check.specs.Obligations.{IsOwed, LineNeeded};
ghost use Rattle.cert_check.specs.Refusal.{StartsHold, GoalsCovered, PiecesCovered, GoalsNamed, PiecesNamed, FailsFirst, FailsFirstOrExtra};
ghost use Rattle.cert_check.specs.Walked.{HasCome, HasEnded};

use crate::cursor::{Cursor, extra_line};
use crate::goals::{first_uncovered, first_unnamed};
use crate::of_pieces::{first_uncovered_piece, first_unnamed_piece};
use crate::refused::Refused;
use crate::starts::first_started;
use cub_cube::Cube;
use cub_proto::{CoverLine, Protocol};
use std::alloc::Global;
use theory::Scratch;

// The start obligations, of both versions.
fn test_starts(scratch: &mut Scratch, protocol: &Protocol, cubes: &[Cube]) -> Result<(), Refused>
    requires made { IsFor protocol.now scratch.old }
    requires fit { All (IsExpandable protocol.now) cubes.now }
    requires few { length cubes.now < 2 ^ 32 }
    ensures made { IsFor protocol.now scratch.new }
    ensures ok { OnOk result (StartsHold protocol.now cubes.now) }
    ensures refused { IfErr result (FailsFirst protocol.now cubes.now) }
    ensures named { (lines : List CoverLine) → IfErr result (FailsFirstOrExtra protocol.now cubes.now lines) }
{
    match first_started(scratch, protocol, cubes) {
        Some(cube) => Err(Refused::Start { cube }),
        None => Ok(()),
    }
}

// The goals of version 1.
fn test_goals(scratch: &mut Scratch, protocol: &Protocol, cubes: &[Cube]) -> Result<(), Refused>
    requires made { IsFor protocol.now scratch.old }
    requires fit { All (IsExpandable protocol.now) cubes.now }
    requires starts { StartsHold protocol.now cubes.now }
    ensures made { IsFor protocol.now scratch.new }
    ensures ok { OnOk result (GoalsCovered protocol.now cubes.now) }
    ensures refused { IfErr result (FailsFirst protocol.now cubes.now) }
{
    match first_uncovered(scratch, protocol, cubes) {
        Some(goal) => Err(Refused::Unsafe { goal }),
        None => Ok(()),
    }
}

// Its pieces.
fn test_pieces(scratch: &mut Scratch, protocol: &Protocol, cubes: &[Cube]) -> Result<(), Refused>
    requires made { IsFor protocol.now scratch.old }
    requires fit { All (IsExpandable protocol.now) cubes.now }
    requires few { length cubes.now < 2 ^ 32 }
    requires starts { StartsHold protocol.now cubes.now }
    requires goals { GoalsCovered protocol.now cubes.now }
    ensures ok { OnOk result (PiecesCovered protocol.now cubes.now × AllListed protocol.now cubes.now) }
    ensures refused { IfErr result (FailsFirst protocol.now cubes.now) }
{
    match first_uncovered_piece(scratch, protocol, cubes)? {
        Some((cube, piece)) => Err(Refused::Piece { cube, piece }),
        None => Ok(()),
    }
}

// The goals of version 2.
fn test_named_goals(
    scratch: &mut Scratch,
    protocol: &Protocol,
    cubes: &[Cube],
    lines: &[CoverLine],
    cursor: &mut Cursor,
) -> Result<(), Refused>
    requires made { IsFor protocol.now scratch.old }
    requires fit { All (IsExpandable protocol.now) cubes.now }
    requires rise { IsTrue (lines_rise lines.now) }
    requires come { HasCome (IsOwed protocol.now cubes.now) lines.now (Key.Goal 0) cursor.old }
    requires starts { StartsHold protocol.now cubes.now }
    ensures made { IsFor protocol.now scratch.new }
    ensures come { OnOk result (HasCome (IsOwed protocol.now cubes.now) lines.now (Key.Piece 0 0) cursor.new) }
    ensures ok { OnOk result (GoalsNamed protocol.now cubes.now lines.now) }
    ensures refused { IfErr result (FailsFirstOrExtra protocol.now cubes.now lines.now) }
{
    match first_unnamed(scratch, protocol, cubes, lines, cursor) {
        Some(goal) => Err(Refused::Unsafe { goal }),
        None => Ok(()),
    }
}

// Its pieces.
fn test_named_pieces(
    scratch: &mut Scratch,
    protocol: &Protocol,
    cubes: &[Cube],
    lines: &[CoverLine],
    cursor: &mut Cursor,
) -> Result<(), Refused>
    requires made { IsFor protocol.now scratch.old }
    requires fit { All (IsExpandable protocol.now) cubes.now }
    requires few { length cubes.now < 2 ^ 32 }
    requires rise { IsTrue (lines_rise lines.now) }
    requires come { HasCome (IsOwed protocol.now cubes.now) lines.now (Key.Piece 0 0) cursor.old }
    requires starts { StartsHold protocol.now cubes.now }
    requires goals { GoalsNamed protocol.now cubes.now lines.now }
    ensures ok { OnOk result (PiecesNamed protocol.now cubes.now lines.now × AllListed protocol.now cubes.now × HasEnded (IsOwed protocol.now cubes.now) lines.now cursor.new) }
    ensures refused { IfErr result (FailsFirstOrExtra protocol.now cubes.now lines.now) }
{
    match first_unnamed_piece(scratch, protocol, cubes, lines, cursor)? {
        Some((cube, piece)) => Err(Refused::Piece { cube, piece }),
        None => Ok(()),
    }
}

// Whether each line is about an obligation, where all hold.
fn test_lines(
    protocol: &Protocol,
    cubes: &[Cube],
    lines: &[CoverLine],
    cursor: &Cursor,
) -> Result<(), Refused>
    requires ended { HasEnded (IsOwed protocol.now cubes.now) lines.now cursor.now }
    requires starts { StartsHold protocol.now cubes.now }
    requires goals { GoalsNamed protocol.now cubes.now lines.now }
    requires pieces { PiecesNamed protocol.now cubes.now lines.now }
    ensures ok { OnOk result ((l : ℕ) → LineNeeded protocol.now cubes.now lines.now l) }
    ensures refused { IfErr result (FailsFirstOrExtra protocol.now cubes.now lines.now) }
{
    match extra_line(lines, cursor) {
        Some(line) => Err(Refused::Extra { line: line as u64 }),
        None => Ok(()),
    }
}

/// Checks a certificate of version 1: no start state meets a cube, and one cube covers each goal and each piece that some
/// state meets. What is refused is the first obligation that fails, in the order of start states, goals and pieces. A list
/// without cubes may be asked.
pub fn check(alloc: Global, protocol: &Protocol, cubes: &[Cube]) -> Result<(), Refused>
    requires fit { All (IsExpandable protocol.now) cubes.now }
    requires few { length cubes.now < 2 ^ 32 }
    ensures passes { OnOk result (PassesTest protocol.now cubes.now) }
    ensures refused { IfErr result (FailsFirst protocol.now cubes.now) }
    // What passes is inductive, and so no run ends unsafe.
    ensures inductive { OnOk result (IsInductive protocol.now cubes.now) }
    ensures safe { OnOk result (IsSafe protocol.now) }
{
    let mut scratch = Scratch::new(alloc, protocol)?;
    test_starts(&mut scratch, protocol, cubes)?;
    test_goals(&mut scratch, protocol, cubes)?;
    test_pieces(&mut scratch, protocol, cubes)?;
    Ok(())
}

/// Checks a certificate of version 2, where a line names for each goal and each piece the cube that covers and the
/// injection, so none is searched for. Places of a line that are no injection into the places of its goal or piece make
/// the obligation fail, as does the lack of a line. A line about no obligation is refused last.
pub fn check2(
    alloc: Global,
    protocol: &Protocol,
    cubes: &[Cube],
    lines: &[CoverLine],
) -> Result<(), Refused>
    requires fit { All (IsExpandable protocol.now) cubes.now }
    requires few { length cubes.now < 2 ^ 32 }
    requires rise { IsTrue (lines_rise lines.now) }
    ensures passes { OnOk result (PassesLines protocol.now cubes.now lines.now) }
    ensures refused { IfErr result (FailsFirstOrExtra protocol.now cubes.now lines.now) }
    // What passes also passes without the lines, so it is inductive, and no run ends unsafe.
    ensures test { OnOk result (PassesTest protocol.now cubes.now) }
    ensures inductive { OnOk result (IsInductive protocol.now cubes.now) }
    ensures safe { OnOk result (IsSafe protocol.now) }
{
    let mut scratch = Scratch::new(alloc, protocol)?;
    let mut cursor = Cursor { at: 0, extra: None };
    test_starts(&mut scratch, protocol, cubes)?;
    test_named_goals(&mut scratch, protocol, cubes, lines, &mut cursor)?;
    test_named_pieces(&mut scratch, protocol, cubes, lines, &mut cursor)?;
    test_lines(protocol, cubes, lines, &cursor)?;
    Ok(())
}
