//! What a line says that is to be a cover line: its form, and where it stands among the others. Only a line that is
//! refused is looked at so, for the kind of its fault.

ghost use Rattle.std.specs.Prelude.{◌≡◌, ◌≤◌, ◌||◌, List, ℕ, map, length, get_or, IfOk, [], Some};
ghost use Rattle.std.specs.List.{list_all};
ghost use Rattle.cube_text.specs.Form.{words_of, is_place, is_empty};
ghost use Rattle.cert_text.specs.Cover.{begins, begins_cover, begins_cube, is_brackets, word_at, front_words, has_by, is_unsafe_front, is_piece_front, has_cover_form, rises_after};
ghost use Rattle.cert_text.specs.Place.{last_of, cover_line_kind};

use crate::covers::last_of;
use crate::numbers::{is_below, is_same, number};
use cub_proto::{CoverLine, CoverLines};
use cube_text::{before, is_number, is_place, onward, words_in};
use std::alloc::{AllocError, Global};
use text_lines::is_word;

/// Whether the word stands at the front.
pub fn begins(front: &[u8], text: &[u8]) -> bool
    ensures { result ≡ begins front.now text.now }
{
    let (first, _) = text.split_at(front.len().min(text.len()));
    first == front
}

/// Whether the text reads as a cover line.
pub fn begins_cover(text: &[u8]) -> bool
    ensures { result ≡ begins_cover text.now }
{
    begins(b"unsafe ", text) || begins(b"piece ", text)
}

/// Whether the text reads as a cube.
pub fn begins_cube(text: &[u8]) -> bool
    ensures { result ≡ begins_cube text.now }
{
    begins(b"cube ", text)
}

fn all_are_places(words: &[&[u8]]) -> bool
    ensures { result ≡ list_all is_place (map (λ w. w.now) words.now) }
{
    for word in words {
        if !is_place(word) {
            return false;
        }
    }
    true
}

fn are_listed(alloc: Global, bytes: &[u8]) -> Result<bool, AllocError>
    ensures { IfOk result (λ yes. yes ≡ (is_empty bytes.now || list_all is_place (words_of bytes.now))) }
{
    if bytes.is_empty() {
        return Ok(true);
    }
    let words = words_in(alloc, bytes)?;
    Ok(all_are_places(words.as_slice()))
}

fn is_brackets(alloc: Global, bytes: &[u8]) -> Result<bool, AllocError>
    ensures { IfOk result (λ yes. yes ≡ is_brackets bytes.now) }
{
    match bytes {
        [] => Ok(false),
        [first, rest @ ..] => {
            let listed = are_listed(alloc, before(b')', rest))?;
            Ok(*first == b'(' && listed && is_word(onward(b')', rest), b")"))
        }
    }
}

fn word_at<'a>(words: &[&'a [u8]], at: usize) -> &'a [u8]
    ensures { result.now ≡ word_at (map (λ w. w.now) words.now) at }
{
    match words.get(at) {
        None => b"",
        Some(word) => word,
    }
}

fn has_by(words: &[&[u8]], at: usize) -> bool
    requires { at ≤ 5 }
    ensures { result ≡ has_by (map (λ w. w.now) words.now) at }
{
    is_word(word_at(words, at), b"by")
        && is_number(word_at(words, at + 1))
        && word_at(words, at + 2).is_empty()
}

fn is_unsafe_front(words: &[&[u8]]) -> bool
    ensures { result ≡ is_unsafe_front (map (λ w. w.now) words.now) }
{
    words.len() == 5
        && is_word(word_at(words, 0), b"unsafe")
        && is_number(word_at(words, 1))
        && has_by(words, 2)
}

fn is_piece_front(words: &[&[u8]]) -> bool
    ensures { result ≡ is_piece_front (map (λ w. w.now) words.now) }
{
    words.len() == 8
        && is_word(word_at(words, 0), b"piece")
        && is_number(word_at(words, 1))
        && is_word(word_at(words, 2), b"of")
        && is_word(word_at(words, 3), b"cube")
        && is_number(word_at(words, 4))
        && has_by(words, 5)
}

fn has_cover_form(alloc: Global, words: &[&[u8]], line: &[u8]) -> Result<bool, AllocError>
    requires { map (λ w. w.now) words.now ≡ front_words line.now }
    ensures { IfOk result (λ yes. yes ≡ has_cover_form line.now) }
{
    let bracketed = is_brackets(alloc, onward(b'(', line))?;
    Ok((is_unsafe_front(words) || is_piece_front(words)) && bracketed)
}

fn rises_after_goal(goal: u32, words: &[&[u8]]) -> bool
    ensures { (places : List ℕ) (by : ℕ) → result ≡ rises_after (Some (CoverLine.Unsafe goal by places)) (map (λ w. w.now) words.now) }
{
    is_piece_front(words) || is_below(u128::from(goal) + 1, number(word_at(words, 1)))
}

fn rises_after_piece(cube: u32, piece: u64, words: &[&[u8]]) -> bool
    ensures { (places : List ℕ) (by : ℕ) → result ≡ rises_after (Some (CoverLine.Piece cube piece by places)) (map (λ w. w.now) words.now) }
{
    let cube = u128::from(cube) + 1;
    let read = number(word_at(words, 4));
    let later = is_same(cube, read) && is_below(u128::from(piece) + 1, number(word_at(words, 1)));
    is_piece_front(words) && (is_below(cube, read) || later)
}

fn rises_after_line(line: &CoverLine, words: &[&[u8]]) -> bool
    ensures { result ≡ rises_after (Some line.now) (map (λ w. w.now) words.now) }
{
    match line {
        CoverLine::Unsafe { goal, .. } => rises_after_goal(*goal, words),
        CoverLine::Piece { cube, piece, .. } => rises_after_piece(*cube, *piece, words),
    }
}

fn rises_after(lines: &CoverLines, words: &[&[u8]]) -> bool
    ensures { result ≡ rises_after (last_of lines.now) (map (λ w. w.now) words.now) }
{
    match last_of(lines) {
        None => true,
        Some(line) => rises_after_line(line, words),
    }
}

/// The kind of the fault of a line that stands behind these and is to be a cover line.
pub fn cover_fault(alloc: Global, lines: &CoverLines, line: &[u8]) -> Result<u8, AllocError>
    ensures { IfOk result (λ kind. kind ≡ cover_line_kind lines.now (Some (line.now, []))) }
{
    let words = words_in(alloc, before(b'(', line))?;
    let words = words.as_slice();
    if has_cover_form(alloc, words, line)? && rises_after(lines, words) {
        Ok(8)
    } else {
        Ok(7)
    }
}
