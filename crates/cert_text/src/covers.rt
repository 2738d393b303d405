//! Cover lines, one by one. Each is read loosely from its words; then what it tells is tested and written again, and the
//! line stands where both are equal. So whatever is accepted is written as it should be.

ghost use Rattle.std.specs.Prelude.{◌≡◌, ◌==◌, ◌&&◌, [], ◌∷◌, ◌<◌, ◌^◌, ◌≤◌, Bool, All, length, bytes_eq, nat_lt, slice_get, IfOk, IfSome, IfNone};
ghost use Rattle.std.specs.List.{list_all, list_any};
ghost use Rattle.std.specs.Option.{option_copied};
ghost use Rattle.cub_proto.specs.declared.cover.CoverLine.{CoverLine};
ghost use Rattle.cert_text.specs.Text.{cover_text};
ghost use Rattle.cert_text.specs.Lawful.{are_apart, are_places, is_lawful_line, comes_before, comes_after};
ghost use Rattle.cert_text.specs.Place.{last_of, TakesCover};

use crate::told::cover_told;
use crate::writer::push_cover;
use cub_cube::Cube;
use cub_proto::{CoverLine, CoverLines, Protocol};
use std::alloc::{AllocError, Global};
use text_lines::is_word;

fn are_below(places: &[u8]) -> bool
    ensures { result ≡ list_all (λ i. nat_lt i 11) places.now }
{
    places.iter().all(|place| *place < 11)
}

fn stands_in(place: u8, places: &[u8]) -> bool
    ensures { result ≡ list_any (λ y. place == y) places.now }
{
    places.iter().any(|other| place == *other)
}

fn cut_first(places: &[u8]) -> Option<(u8, &[u8])>
    ensures some { IfSome result (λ x. places.now ≡ x.0 ∷ x.1.now) }
    ensures room { IfSome result (λ x. length x.1.now < length places.now) }
    ensures none { IfNone result (places.now ≡ []) }
{
    match places {
        [] => None,
        [first, rest @ ..] => Some((*first, rest)),
    }
}

fn are_apart(places: &[u8]) -> bool
    ensures { result ≡ are_apart places.now }
{
    let mut rest = places;
    while let Some((first, behind)) = cut_first(rest) {
        if stands_in(first, behind) {
            return false;
        }
        rest = behind;
    }
    true
}

fn are_places(cubes: &[Cube], by: u32, places: &[u8]) -> bool
    ensures { result ≡ are_places (slice_get cubes.now by) places.now }
{
    match cubes.get(by as usize) {
        None => false,
        Some(cube) => {
            places.len() == cube.width as usize && are_below(places) && are_apart(places)
        }
    }
}

fn is_lawful_piece(cubes: &[Cube], cube: u32, piece: u64, by: u32, places: &[u8]) -> bool
    ensures { result ≡ (nat_lt cube (length cubes.now) && nat_lt piece (2 ^ 64) && are_places (slice_get cubes.now by) places.now) }
{
    (cube as usize) < cubes.len() && are_places(cubes, by, places)
}

fn is_lawful_line(protocol: &Protocol, cubes: &[Cube], line: &CoverLine) -> bool
    ensures { result ≡ is_lawful_line protocol.now cubes.now line.now }
{
    match line {
        CoverLine::Unsafe { goal, by, places } => {
            (*goal as usize) < protocol.goals.len() && are_places(cubes, *by, places.as_slice())
        }
        CoverLine::Piece {
            cube,
            piece,
            by,
            places,
        } => is_lawful_piece(cubes, *cube, *piece, *by, places.as_slice()),
    }
}

fn comes_before(line: &CoverLine, other: &CoverLine) -> bool
    ensures { result ≡ comes_before line.now other.now }
{
    match (line, other) {
        (CoverLine::Unsafe { goal, .. }, CoverLine::Unsafe { goal: next, .. }) => goal < next,
        (CoverLine::Unsafe { .. }, CoverLine::Piece { .. }) => true,
        (CoverLine::Piece { .. }, CoverLine::Unsafe { .. }) => false,
        (
            CoverLine::Piece { cube, piece, .. },
            CoverLine::Piece {
                cube: next_cube,
                piece: next,
                ..
            },
        ) => cube < next_cube || (cube == next_cube && piece < next),
    }
}

/// The last line, if there is one.
pub fn last_of(lines: &CoverLines) -> Option<&CoverLine>
    ensures { option_copied result ≡ last_of lines.now }
{
    if lines.is_empty() {
        None
    } else {
        lines.get(lines.len() - 1)
    }
}

fn comes_after(lines: &CoverLines, line: &CoverLine) -> bool
    ensures { result ≡ comes_after (last_of lines.now) line.now }
{
    match last_of(lines) {
        None => true,
        Some(last) => comes_before(last, line),
    }
}

fn cover_is_written(alloc: Global, cover: &CoverLine, line: &[u8]) -> Result<bool, AllocError>
    ensures { IfOk result (λ same. same ≡ bytes_eq (cover_text cover.now) line.now) }
{
    let mut written = Vec::new(alloc);
    push_cover(&mut written, cover)?;
    Ok(is_word(written.as_slice(), line))
}

/// The cover line that the line is the text of, where these are the cubes and the cover lines before it.
pub fn cover_of(
    alloc: Global,
    protocol: &Protocol,
    cubes: &[Cube],
    lines: &CoverLines,
    line: &[u8],
) -> Result<Option<CoverLine>, AllocError>
    requires few { length cubes.now < 2 ^ 32 }
    requires narrow { All (λ c. c.width ≤ 8) cubes.now }
    ensures found { IfOk result (λ o. IfSome o (λ l. TakesCover protocol.now cubes.now lines.now line.now l)) }
    ensures none { IfOk result (λ o. IfNone o ((l : CoverLine) → TakesCover protocol.now cubes.now lines.now line.now l → ⊥)) }
{
    let told = cover_told(alloc, cubes, line);
    if !is_lawful_line(protocol, cubes, &told) {
        return Ok(None);
    }
    if !comes_after(lines, &told) {
        return Ok(None);
    }
    if !cover_is_written(alloc, &told, line)? {
        return Ok(None);
    }
    Ok(Some(told))
}
