//! What a cover line tells when only its words are looked at; some line where it tells none.

ghost use Rattle.std.specs.Prelude.{◌≡◌, ◌≤◌, All, slice_get};
ghost use Rattle.text_lines.specs.Word.{word};
ghost use Rattle.text_lines.specs.Number.{counted};
ghost use Rattle.text_lines.specs.Loose.{behind_words};
ghost use Rattle.cert_text.specs.Told.{piece_number, places_told, places_by, unsafe_told, piece_told, cover_told};

use crate::numbers::number;
use cub_base::Places;
use cub_cube::Cube;
use cub_proto::CoverLine;
use std::alloc::Global;
use text_lines::{behind_words, counted, is_word, next_word};

fn piece_number(bytes: &[u8]) -> u64
    ensures { result ≡ piece_number bytes.now }
{
    let number = number(bytes).unwrap_or(0);
    number.saturating_sub(1).min(18_446_744_073_709_551_615) as u64
}

fn places_told(alloc: Global, count: u8, bytes: &[u8]) -> Places
    requires { count ≤ 12 }
    ensures { result ≡ places_told count bytes.now }
{
    let mut places = Places::new(alloc);
    let mut rest = bytes;
    for _ in 0..count {
        let (word, behind) = next_word(rest);
        places.push(counted(word).min(255) as u8);
        rest = behind;
    }
    places
}

fn places_by(alloc: Global, cubes: &[Cube], by: u32, bytes: &[u8]) -> Places
    requires { All (λ c. c.width ≤ 8) cubes.now }
    ensures { result ≡ places_by (slice_get cubes.now by) bytes.now }
{
    match cubes.get(by as usize) {
        None => Places::new(alloc),
        Some(cube) => places_told(alloc, cube.width, bytes),
    }
}

fn counted_at(at: usize, line: &[u8]) -> u32
    ensures { result ≡ counted (word (behind_words at line.now)) }
{
    let (word, _) = next_word(behind_words(at, line));
    counted(word)
}

fn unsafe_told(alloc: Global, cubes: &[Cube], line: &[u8]) -> CoverLine
    requires { All (λ c. c.width ≤ 8) cubes.now }
    ensures { result ≡ unsafe_told cubes.now line.now }
{
    let by = counted_at(3, line);
    CoverLine::Unsafe {
        goal: counted_at(1, line),
        by,
        places: places_by(alloc, cubes, by, behind_words(4, line)),
    }
}

fn piece_told(alloc: Global, cubes: &[Cube], line: &[u8]) -> CoverLine
    requires { All (λ c. c.width ≤ 8) cubes.now }
    ensures { result ≡ piece_told cubes.now line.now }
{
    let (piece, _) = next_word(behind_words(1, line));
    let by = counted_at(6, line);
    CoverLine::Piece {
        cube: counted_at(4, line),
        piece: piece_number(piece),
        by,
        places: places_by(alloc, cubes, by, behind_words(7, line)),
    }
}

/// What the line tells, where these are the cubes.
pub fn cover_told(alloc: Global, cubes: &[Cube], line: &[u8]) -> CoverLine
    requires { All (λ c. c.width ≤ 8) cubes.now }
    ensures { result ≡ cover_told cubes.now line.now }
{
    let (word, _) = next_word(line);
    if is_word(word, b"unsafe") {
        unsafe_told(alloc, cubes, line)
    } else {
        piece_told(alloc, cubes, line)
    }
}
