//! What a line of a journal tells when only its words are looked at; some value where it tells none.

ghost use Rattle.std.specs.Prelude.{◌≡◌, ◌≤◌};
ghost use Rattle.text_lines.specs.Number.{counted};
ghost use Rattle.journal_text.specs.Told.{piece_number, places_told, word_told, item_told, number_told, node_told};

use crate::numbers::number;
use cub_base::Places;
use cub_cube::Cube;
use log_form::Added;
use std::alloc::Global;
use text_lines::{behind_words, counted, is_word, natural, next_word};

fn piece_number(bytes: &[u8]) -> u64
    ensures { result ≡ piece_number bytes.now }
{
    let number = number(bytes).unwrap_or(0);
    number.saturating_sub(1).min(18_446_744_073_709_551_615) as u64
}

fn places_told(alloc: Global, count: u8, bytes: &[u8]) -> Places
    requires { count ≤ 12 }
    ensures { result ≡ places_told count bytes.now }
{
    let mut places = Places::new(alloc);
    let mut rest = bytes;
    for _ in 0..count {
        let (word, behind) = next_word(rest);
        places.push(counted(word).min(255) as u8);
        rest = behind;
    }
    places
}

fn word_told(at: usize, line: &[u8]) -> &[u8]
    ensures { result.now ≡ word_told at line.now }
{
    let (word, _) = next_word(behind_words(at, line));
    word
}

/// An added cube, once the cube is read.
pub fn item_told(alloc: Global, cube: Cube, line: &[u8]) -> Added
    requires { cube.width ≤ 11 }
    ensures { result ≡ item_told cube line.now }
{
    let piece = piece_number(word_told(1, line));
    let places = places_told(alloc, cube.width, behind_words(2, line));
    Added {
        piece,
        places,
        cube,
    }
}

/// The number that the word with that number spells.
pub fn number_told(at: usize, line: &[u8]) -> u64
    ensures { result ≡ number_told at line.now }
{
    natural(word_told(at, line)).unwrap_or(0)
}

/// The node that is expanded.
pub fn expand_told(line: &[u8]) -> u32
    ensures { result ≡ counted (word_told 1 line.now) }
{
    counted(word_told(1, line))
}

/// The node of a closing line; none for the roots.
pub fn node_told(line: &[u8]) -> Option<u32>
    ensures { result ≡ node_told line.now }
{
    let word = word_told(1, line);
    if is_word(word, b"roots") {
        None
    } else {
        Some(counted(word))
    }
}
