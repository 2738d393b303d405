//! The lines of pieces.

ghost use Rattle.std.specs.Prelude.{◌≡◌, ◌<◌, ◌≤◌, ◌++◌, ◌∷◌, [], All, length, OnOk};
ghost use Rattle.cub_proto.specs.declared.cover.CoverLine.{CoverLine};
ghost use Rattle.cub_cube.specs.declared.cube.Cube.{Cube};
ghost use Rattle.piece_laws.specs.Test.{PassesTest};
ghost use Rattle.theory.specs.Made.{IsFor};
ghost use Rattle.log_form.specs.Pieces.{IsExpandable};
ghost use Rattle.cover_lines.specs.Obligations.{OfPiece, piece_obligations};
ghost use Rattle.cover_lines.specs.Added.{MayCover, AddsLine, AddsLines, AddsCubeLines, AddsPieceLines};

use crate::covering::{first_cover, push};
use cub_base::Memory;
use cub_cube::Cube;
use cub_proto::{CoverLine, CoverLines, Protocol};
use piece_choices::Piece;
use pieces::pieces;
use subsume::Finder;
use theory::Scratch;

// Appends the line of a piece.
fn push_piece_line<F: Finder<Scratch>>(
    scratch: &mut Scratch,
    protocol: &Protocol,
    finder: &mut F,
    of: u32,
    number: u64,
    cube: &Cube,
    lines: &mut CoverLines,
) -> Result<(), Memory>
    requires made { IsFor protocol.now scratch.old }
    requires serves { F.serves finder.old protocol.now }
    requires may { MayCover protocol.now (F.list finder.old) cube.now }
    ensures line { OnOk result (AddsLine protocol.now (F.list finder.old) (OfPiece of number cube.now) lines.old lines.new) }
    ensures same { F.list finder.new ≡ F.list finder.old }
    ensures serves { F.serves finder.new protocol.now }
    ensures made { IsFor protocol.now scratch.new }
{
    let (by, places) = first_cover(scratch, protocol, finder, cube);
    push(
        lines,
        CoverLine::Piece {
            cube: of,
            piece: number,
            by,
            places,
        },
    )
}

// Appends a line for each of the pieces of the cube with that number.
fn push_lines_of<F: Finder<Scratch>>(
    scratch: &mut Scratch,
    protocol: &Protocol,
    finder: &mut F,
    of: u32,
    list: &[Piece],
    lines: &mut CoverLines,
) -> Result<(), Memory>
    requires made { IsFor protocol.now scratch.old }
    requires serves { F.serves finder.old protocol.now }
    requires may { All (λ x. MayCover protocol.now (F.list finder.old) x.cube) list.now }
    ensures lines { OnOk result (AddsLines protocol.now (F.list finder.old) (piece_obligations of list.now) lines.old lines.new) }
    ensures same { F.list finder.new ≡ F.list finder.old }
    ensures serves { F.serves finder.new protocol.now }
    ensures made { IsFor protocol.now scratch.new }
{
    for number in 0..list.len() {
        push_piece_line(
            scratch,
            protocol,
            finder,
            of,
            number as u64,
            &list[number].cube,
            lines,
        )?;
    }
    Ok(())
}

// Appends a line for each piece of the cube with that number.
fn push_cube_lines<F: Finder<Scratch>>(
    scratch: &mut Scratch,
    protocol: &Protocol,
    finder: &mut F,
    of: u32,
    lines: &mut CoverLines,
) -> Result<(), Memory>
    requires made { IsFor protocol.now scratch.old }
    requires serves { F.serves finder.old protocol.now }
    requires inside { of < length (F.list finder.old) }
    requires expandable { All (IsExpandable protocol.now) (F.list finder.old) }
    requires passes { PassesTest protocol.now (F.list finder.old) }
    ensures lines { OnOk result (AddsCubeLines protocol.now (F.list finder.old) of lines.old lines.new) }
    ensures same { F.list finder.new ≡ F.list finder.old }
    ensures serves { F.serves finder.new protocol.now }
    ensures made { IsFor protocol.now scratch.new }
{
    let list = pieces(scratch, protocol, finder.cube(of))?;
    push_lines_of(scratch, protocol, finder, of, list.as_slice(), lines)
}

/// Appends a line for each piece of each cube of the finder's list, in order.
pub fn push_piece_lines<F: Finder<Scratch>>(
    scratch: &mut Scratch,
    protocol: &Protocol,
    finder: &mut F,
    lines: &mut CoverLines,
) -> Result<(), Memory>
    requires made { IsFor protocol.now scratch.old }
    requires serves { F.serves finder.old protocol.now }
    requires expandable { All (IsExpandable protocol.now) (F.list finder.old) }
    requires passes { PassesTest protocol.now (F.list finder.old) }
    ensures lines { OnOk result (AddsPieceLines protocol.now (F.list finder.old) (F.list finder.old) lines.old lines.new) }
    ensures same { F.list finder.new ≡ F.list finder.old }
    ensures serves { F.serves finder.new protocol.now }
    ensures made { IsFor protocol.now scratch.new }
{
    for of in 0..finder.count() {
        push_cube_lines(scratch, protocol, finder, of, lines)?;
    }
    Ok(())
}
