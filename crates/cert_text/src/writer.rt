//! Writing a certificate, a line after another.

ghost use Rattle.std.specs.Prelude.{◌≡◌, ◌+◌, ◌++◌, [], ◌∷◌, length, map, flat_map, codes, decimal, None, Some, OnOk, IfOk};
ghost use Rattle.std.specs.List.{join_by};
ghost use Rattle.text_lines.specs.Line.{text_of};
ghost use Rattle.text_lines.specs.Spelling.{process_text, processes_text};
ghost use Rattle.cube_text.specs.Text.{cube_text};
ghost use Rattle.cert_text.specs.Text.{version_text, count_text, by_text, cover_text, certificate_text};

use cub_base::Memory;
use cub_cube::Cube;
use cub_proto::{CoverLine, Protocol};
use cube_text::push_cube;
use itoa::Buffer;
use std::alloc::AllocError;
use text_lines::{push, push_number, push_process};

/// The second line, of version 2 or 1.
pub fn version_text(two: bool) -> &'static [u8]
    ensures { result.now ≡ version_text two }
{
    if two {
        b"certificate 2"
    } else {
        b"certificate 1"
    }
}

fn end_line(out: &mut Vec<u8>) -> Result<(), AllocError>
    ensures { OnOk result (out.new.items ≡ out.old.items ++ 10 ∷ []) }
{
    push(out, b"\n")
}

fn push_count(out: &mut Vec<u8>, count: usize) -> Result<(), AllocError>
    ensures { OnOk result (out.new.items ≡ out.old.items ++ count_text (decimal count)) }
{
    push(out, b"cubes ")?;
    push(out, Buffer::new().format(count).as_bytes())
}

fn push_piece(out: &mut Vec<u8>, piece: u64) -> Result<(), AllocError>
    ensures { OnOk result (out.new.items ≡ out.old.items ++ decimal (piece + 1)) }
{
    push(out, Buffer::new().format(u128::from(piece) + 1).as_bytes())
}

fn push_other_places(out: &mut Vec<u8>, places: &[u8]) -> Result<(), AllocError>
    ensures { OnOk result (out.new.items ≡ out.old.items ++ flat_map (λ i. (32 ∷ []) ++ process_text i) places.now) }
{
    for place in places {
        push(out, b" ")?;
        push_process(out, u32::from(*place))?;
    }
    Ok(())
}

fn push_joined(out: &mut Vec<u8>, places: &[u8]) -> Result<(), AllocError>
    ensures { OnOk result (out.new.items ≡ out.old.items ++ join_by process_text (32 ∷ []) places.now) }
{
    match places {
        [] => Ok(()),
        [first, rest @ ..] => {
            push_process(out, u32::from(*first))?;
            push_other_places(out, rest)
        }
    }
}

fn push_places(out: &mut Vec<u8>, places: &[u8]) -> Result<(), AllocError>
    ensures { OnOk result (out.new.items ≡ out.old.items ++ processes_text places.now) }
{
    push(out, b"(")?;
    push_joined(out, places)?;
    push(out, b")")
}

fn push_by(out: &mut Vec<u8>, by: u32, places: &[u8]) -> Result<(), AllocError>
    ensures { OnOk result (out.new.items ≡ out.old.items ++ by_text by places.now) }
{
    push(out, b" by ")?;
    push_number(out, by)?;
    push(out, b" ")?;
    push_places(out, places)
}

/// Appends what the cover line says.
pub fn push_cover(out: &mut Vec<u8>, line: &CoverLine) -> Result<(), AllocError>
    ensures { OnOk result (out.new.items ≡ out.old.items ++ cover_text line.now) }
{
    match line {
        CoverLine::Unsafe { goal, by, places } => {
            push(out, b"unsafe ")?;
            push_number(out, *goal)?;
            push_by(out, *by, places.as_slice())
        }
        CoverLine::Piece {
            cube,
            piece,
            by,
            places,
        } => {
            push(out, b"piece ")?;
            push_piece(out, *piece)?;
            push(out, b" of cube ")?;
            push_number(out, *cube)?;
            push_by(out, *by, places.as_slice())
        }
    }
}

fn push_heading(out: &mut Vec<u8>, two: bool, count: usize) -> Result<(), AllocError>
    ensures { OnOk result (out.new.items ≡ out.old.items ++ text_of (codes "SAFE" ∷ version_text two ∷ count_text (decimal count) ∷ [])) }
{
    push(out, b"SAFE\n")?;
    push(out, version_text(two))?;
    end_line(out)?;
    push_count(out, count)?;
    end_line(out)
}

fn push_cubes(out: &mut Vec<u8>, protocol: &Protocol, cubes: &[Cube]) -> Result<(), AllocError>
    ensures { OnOk result (out.new.items ≡ out.old.items ++ text_of (map (cube_text protocol.now) cubes.now)) }
{
    for cube in cubes {
        push_cube(out, protocol, cube)?;
        end_line(out)?;
    }
    Ok(())
}

fn push_covers(out: &mut Vec<u8>, lines: &[CoverLine]) -> Result<(), AllocError>
    ensures { OnOk result (out.new.items ≡ out.old.items ++ text_of (map cover_text lines.now)) }
{
    for line in lines {
        push_cover(out, line)?;
        end_line(out)?;
    }
    Ok(())
}

/// The text, in version 1, of the certificate of these cubes. Whether it may be read or proves anything is not asked.
pub fn write(protocol: &Protocol, cubes: &[Cube]) -> Result<Vec<u8>, Memory>
    ensures { IfOk result (λ text. text.items ≡ certificate_text protocol.now cubes.now None) }
{
    let mut out = Vec::new(protocol.sorts.allocator());
    push_heading(&mut out, false, cubes.len())?;
    push_cubes(&mut out, protocol, cubes)?;
    push(&mut out, b"end\n")?;
    Ok(out)
}

/// The text, in version 2, of the certificate of these cubes with these cover lines. Whether it may be read or proves
/// anything is not asked.
pub fn write2(protocol: &Protocol, cubes: &[Cube], lines: &[CoverLine]) -> Result<Vec<u8>, Memory>
    ensures { IfOk result (λ text. text.items ≡ certificate_text protocol.now cubes.now (Some lines.now)) }
{
    let mut out = Vec::new(protocol.sorts.allocator());
    push_heading(&mut out, true, cubes.len())?;
    push_cubes(&mut out, protocol, cubes)?;
    push_covers(&mut out, lines)?;
    push(&mut out, b"end\n")?;
    Ok(out)
}
