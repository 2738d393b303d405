//! Whether bytes have the form of a cube.

ghost use Rattle.std.specs.Prelude.{◌≡◌, ℕ, ◌≤◌, List, map, length, IfOk};
ghost use Rattle.std.specs.List.{list_all};
ghost use Rattle.std.specs.Char.{is_ascii_digit};
ghost use Rattle.cub_base.specs.Name.{is_name_byte, has_name_form};
ghost use Rattle.cube_text.specs.Form.{parted, words_of, is_and, is_empty, is_number, is_integer, is_place, is_index, is_term, are_sides, is_integer_side, are_names, is_set, three_words, five_words, is_literal, is_true_word, are_literals, is_cube};

use crate::parts::{before, group_end, onward, parts};
use cub_base::{is_name_byte, is_name_start};
use std::alloc::{AllocError, Global};
use text_lines::is_word;

/// The words of a line, between single blanks.
pub fn words_in(alloc: Global, line: &[u8]) -> Result<Vec<&[u8]>, AllocError>
    ensures { IfOk result (λ words. map (λ word. word.now) words.items ≡ words_of line.now) }
{
    parts(alloc, line, b' ')
}

fn are_digits(bytes: &[u8]) -> bool
    ensures { result ≡ list_all is_ascii_digit bytes.now }
{
    bytes.iter().all(|byte| byte.is_ascii_digit())
}

/// Digits without a leading zero.
pub fn is_number(bytes: &[u8]) -> bool
    ensures { result ≡ is_number bytes.now }
{
    match bytes {
        [] => false,
        [digit] => digit.is_ascii_digit(),
        [digit, rest @ ..] => {
            if !digit.is_ascii_digit() || *digit == b'0' {
                return false;
            }
            are_digits(rest)
        }
    }
}

fn is_integer(bytes: &[u8]) -> bool
    ensures { result ≡ is_integer bytes.now }
{
    match bytes {
        [] => false,
        [first, rest @ ..] => {
            if *first != b'-' {
                return is_number(bytes);
            }
            is_number(rest) && !is_word(rest, b"0")
        }
    }
}

/// `#1`.
pub fn is_place(bytes: &[u8]) -> bool
    ensures { result ≡ is_place bytes.now }
{
    match bytes {
        [] => false,
        [first, rest @ ..] => *first == b'#' && is_number(rest),
    }
}

fn is_index(bytes: &[u8]) -> bool
    ensures { result ≡ is_index bytes.now }
{
    match bytes {
        [] => false,
        [first, rest @ ..] => {
            *first == b'[' && is_place(before(b']', rest)) && is_word(onward(b']', rest), b"]")
        }
    }
}

fn are_name_bytes(bytes: &[u8]) -> bool
    ensures { result ≡ list_all is_name_byte bytes.now }
{
    bytes.iter().all(|byte| is_name_byte(*byte))
}

fn has_name_form(bytes: &[u8]) -> bool
    ensures { result ≡ has_name_form bytes.now }
{
    match bytes {
        [] => false,
        [first, rest @ ..] => is_name_start(*first) && are_name_bytes(rest),
    }
}

fn is_term(word: &[u8]) -> bool
    ensures { result ≡ is_term word.now }
{
    let index = onward(b'[', word);
    has_name_form(before(b'[', word)) && (index.is_empty() || is_index(index))
}

fn are_sides(a: &[u8], b: &[u8]) -> bool
    ensures { result ≡ are_sides a.now b.now }
{
    if is_term(a) && (is_term(b) || is_place(b)) {
        return true;
    }
    is_place(a) && is_place(b)
}

fn is_integer_side(word: &[u8]) -> bool
    ensures { result ≡ is_integer_side word.now }
{
    is_word(word, b"0") || is_term(word)
}

fn all_have_name_form(words: &[&[u8]]) -> bool
    ensures { result ≡ list_all has_name_form (map (λ w. w.now) words.now) }
{
    for word in words {
        if !has_name_form(word) {
            return false;
        }
    }
    true
}

fn are_names(alloc: Global, bytes: &[u8]) -> Result<bool, AllocError>
    ensures { IfOk result (λ yes. yes ≡ are_names bytes.now) }
{
    if bytes.is_empty() {
        return Ok(true);
    }
    let names = parts(alloc, bytes, b',')?;
    Ok(all_have_name_form(names.as_slice()))
}

fn is_set(alloc: Global, word: &[u8]) -> Result<bool, AllocError>
    ensures { IfOk result (λ yes. yes ≡ is_set word.now) }
{
    match word {
        [] => Ok(false),
        [first, rest @ ..] => {
            let named = are_names(alloc, before(b'}', rest))?;
            Ok(*first == b'{' && named && is_word(onward(b'}', rest), b"}"))
        }
    }
}

fn three_words(alloc: Global, a: &[u8], op: &[u8], b: &[u8]) -> Result<bool, AllocError>
    ensures { IfOk result (λ yes. yes ≡ three_words a.now op.now b.now) }
{
    let set = is_set(alloc, b)?;
    if (is_word(op, b"=") || is_word(op, b"<>")) && are_sides(a, b) {
        return Ok(true);
    }
    Ok(is_word(op, b"in") && is_term(a) && set)
}

fn five_words(a: &[u8], minus: &[u8], b: &[u8], most: &[u8], bound: &[u8]) -> bool
    ensures { result ≡ five_words a.now minus.now b.now most.now bound.now }
{
    is_word(minus, b"-")
        && is_word(most, b"<=")
        && is_integer_side(a)
        && is_integer_side(b)
        && is_integer(bound)
}

fn is_literal(alloc: Global, words: &[&[u8]]) -> Result<bool, AllocError>
    ensures { IfOk result (λ yes. yes ≡ is_literal (map (λ w. w.now) words.now)) }
{
    match words {
        [a, op, b] => three_words(alloc, a, op, b),
        [a, minus, b, most, bound] => Ok(five_words(a, minus, b, most, bound)),
        [] | [_] | [_, _] | [_, _, _, _] | [_, _, _, _, _, _, ..] => Ok(false),
    }
}

/// The one word `true`.
pub fn is_true_word(words: &[&[u8]]) -> bool
    ensures { result ≡ is_true_word (map (λ w. w.now) words.now) }
{
    match words {
        [word] => is_word(word, b"true"),
        _ => false,
    }
}

fn all_are_literals(alloc: Global, words: &[&[u8]]) -> Result<bool, AllocError>
    ensures { IfOk result (λ yes. yes ≡ list_all is_literal (parted is_and (map (λ w. w.now) words.now))) }
{
    let mut at = 0;
    while at <= words.len() {
        let end = group_end(words, at);
        if !is_literal(alloc, &words[at..end])? {
            return Ok(false);
        }
        at = end + 1;
    }
    Ok(true)
}

fn are_literals(alloc: Global, words: &[&[u8]]) -> Result<bool, AllocError>
    ensures { IfOk result (λ yes. yes ≡ are_literals (map (λ w. w.now) words.now)) }
{
    if is_true_word(words) {
        return Ok(true);
    }
    all_are_literals(alloc, words)
}

/// `cube`, the width with its colon, and literals.
pub fn is_cube(alloc: Global, words: &[&[u8]]) -> Result<bool, AllocError>
    ensures { IfOk result (λ yes. yes ≡ is_cube (map (λ w. w.now) words.now)) }
{
    match words {
        [] => Ok(false),
        [_] => Ok(false),
        [word, width, rest @ ..] => {
            let literals = are_literals(alloc, rest)?;
            Ok(
                is_word(word, b"cube")
                    && is_number(before(b':', width))
                    && is_word(onward(b':', width), b":")
                    && literals,
            )
        }
    }
}
