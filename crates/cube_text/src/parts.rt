//! The parts of a text, between single bytes, and of a list of words.

ghost use Rattle.std.specs.Prelude.{◌≡◌, ◌==◌, ◌≤◌, ◌<◌, ◌+◌, ◌-◌, [], ◌∷◌, map, take, drop, not, length, List, ℕ, IfOk, IfSome, IfNone};
ghost use Rattle.std.specs.List.{prefix_len};
ghost use Rattle.cube_text.specs.Form.{parted, before, onward, is_and};
ghost use Rattle.cube_text.specs.Groups.{groups_from};

use std::alloc::{AllocError, Global};
use text_lines::is_word;

// How many bytes stand before the first byte of that kind; all where there is none.
fn first_at(bytes: &[u8], kind: u8) -> usize
    ensures value { result ≡ prefix_len (λ b. not (b == kind)) bytes.now }
    ensures within { result ≤ length bytes.now }
{
    for (at, byte) in bytes.iter().enumerate() {
        if *byte == kind {
            return at;
        }
    }
    bytes.len()
}

/// The bytes before the first byte of that kind.
pub fn before(kind: u8, bytes: &[u8]) -> &[u8]
    ensures { result.now ≡ before kind bytes.now }
{
    let (front, _) = bytes.split_at(first_at(bytes, kind));
    front
}

/// The bytes from the first byte of that kind on.
pub fn onward(kind: u8, bytes: &[u8]) -> &[u8]
    ensures { result.now ≡ onward kind bytes.now }
{
    let (_, back) = bytes.split_at(first_at(bytes, kind));
    back
}

// The bytes before the first byte of that kind and those behind it; none where there is no such byte.
fn cut(bytes: &[u8], kind: u8) -> Option<(&[u8], &[u8])>
    ensures some { IfSome result (λ x. parted (λ b. b == kind) bytes.now ≡ x.0.now ∷ parted (λ b. b == kind) x.1.now) }
    ensures room { IfSome result (λ x. length x.1.now < length bytes.now) }
    ensures none { IfNone result (parted (λ b. b == kind) bytes.now ≡ bytes.now ∷ []) }
{
    let len = first_at(bytes, kind);
    if len < bytes.len() {
        let (part, _) = bytes.split_at(len);
        let (_, behind) = bytes.split_at(len + 1);
        Some((part, behind))
    } else {
        None
    }
}

/// The parts of the bytes between single bytes of that kind.
pub fn parts(alloc: Global, bytes: &[u8], kind: u8) -> Result<Vec<&[u8]>, AllocError>
    ensures { IfOk result (λ parts. map (λ part. part.now) parts.items ≡ parted (λ b. b == kind) bytes.now) }
{
    let mut parts = Vec::new(alloc);
    let mut rest = bytes;
    while let Some((part, behind)) = cut(rest, kind) {
        parts.push(part)?;
        rest = behind;
    }
    parts.push(rest)?;
    Ok(parts)
}

// How many words stand before the first `&&`; all where there is none.
fn first_and(words: &[&[u8]]) -> usize
    ensures value { result ≡ prefix_len (λ w. not (is_and w.now)) words.now }
    ensures within { result ≤ length words.now }
{
    for (at, word) in words.iter().enumerate() {
        if is_word(word, b"&&") {
            return at;
        }
    }
    words.len()
}

/// Where the group of words that begins at `at` ends: at the next `&&`, or behind the last word.
pub fn group_end(words: &[&[u8]], at: usize) -> usize
    requires { at ≤ length words.now }
    ensures from { at ≤ result }
    ensures within { result ≤ length words.now }
    ensures group { groups_from (map (λ w. w.now) words.now) at ≡ take (result - at) (drop at (map (λ w. w.now) words.now)) ∷ groups_from (map (λ w. w.now) words.now) (result + 1) }
{
    let (_, rest) = words.split_at(at);
    at + first_and(rest)
}
