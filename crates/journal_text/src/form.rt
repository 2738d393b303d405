//! What a line says where a line of an event, or a closing line, belongs: its form. Only a line that is refused is looked at
//! so, for the kind of its fault.

ghost use Rattle.std.specs.Prelude.{◌≡◌, ◌||◌, map, IfOk, IfErr};
ghost use Rattle.std.specs.List.{list_all};
ghost use Rattle.cube_text.specs.Form.{words_of, is_place, is_empty};
ghost use Rattle.journal_text.specs.declared.fault.JournalFault.TheVariants.{Memory};
ghost use Rattle.journal_text.specs.Form.{begins, is_brackets, word_at, is_numbered, is_numbered_front, item_name, item_front, item_back, is_item, cube_part, is_expand, is_wide, is_needs, is_full, is_full_roots, plain_look, look_at, look_of};

use crate::fault::JournalFault;
use crate::look::Look;
use cub_proto::Protocol;
use cube_text::{CubeFault, before, is_number, is_place, onward, read_cube, words_in};
use std::alloc::{AllocError, Global};
use text_lines::{cut_line, is_word};

const WIDEST: u8 = 11;

fn begins(front: &[u8], text: &[u8]) -> bool
    ensures { result ≡ begins front.now text.now }
{
    let (first, _) = text.split_at(front.len().min(text.len()));
    first == front
}

fn all_are_places(words: &[&[u8]]) -> bool
    ensures { result ≡ list_all is_place (map (λ w. w.now) words.now) }
{
    for word in words {
        if !is_place(word) {
            return false;
        }
    }
    true
}

fn are_listed(alloc: Global, bytes: &[u8]) -> Result<bool, AllocError>
    ensures { IfOk result (λ yes. yes ≡ (is_empty bytes.now || list_all is_place (words_of bytes.now))) }
{
    if bytes.is_empty() {
        return Ok(true);
    }
    let words = words_in(alloc, bytes)?;
    Ok(all_are_places(words.as_slice()))
}

fn is_brackets(alloc: Global, bytes: &[u8]) -> Result<bool, AllocError>
    ensures { IfOk result (λ yes. yes ≡ is_brackets bytes.now) }
{
    match bytes {
        [] => Ok(false),
        [first, rest @ ..] => {
            let listed = are_listed(alloc, before(b')', rest))?;
            Ok(*first == b'(' && listed && is_word(onward(b')', rest), b")"))
        }
    }
}

fn word_at<'a>(words: &[&'a [u8]], at: usize) -> &'a [u8]
    ensures { result.now ≡ word_at (map (λ w. w.now) words.now) at }
{
    match words.get(at) {
        None => b"",
        Some(word) => word,
    }
}

fn is_numbered(name: &[u8], words: &[&[u8]]) -> bool
    ensures { result ≡ is_numbered name.now (map (λ w. w.now) words.now) }
{
    words.len() == 2 && is_word(word_at(words, 0), name) && is_number(word_at(words, 1))
}

fn is_numbered_front(name: &[u8], words: &[&[u8]]) -> bool
    ensures { result ≡ is_numbered_front name.now (map (λ w. w.now) words.now) }
{
    words.len() == 3
        && is_word(word_at(words, 0), name)
        && is_number(word_at(words, 1))
        && word_at(words, 2).is_empty()
}

fn item_name(node: Option<u32>) -> &'static [u8]
    ensures { result.now ≡ item_name node }
{
    match node {
        None => b"root",
        Some(_) => b"new",
    }
}

fn is_item(alloc: Global, node: Option<u32>, line: &[u8]) -> Result<bool, AllocError>
    ensures { IfOk result (λ yes. yes ≡ is_item node line.now) }
{
    let front = before(b':', line);
    let words = words_in(alloc, before(b'(', front))?;
    let bracketed = is_brackets(alloc, onward(b'(', front))?;
    Ok(
        is_numbered_front(item_name(node), words.as_slice())
            && bracketed
            && begins(b": ", onward(b':', line)),
    )
}

/// What stands behind the brackets of an added cube.
pub fn cube_part(line: &[u8]) -> &[u8]
    ensures { result.now ≡ cube_part line.now }
{
    let back = onward(b':', line);
    let (_, part) = back.split_at(back.len().min(2));
    part
}

fn is_needs(words: &[&[u8]]) -> bool
    ensures { result ≡ is_needs (map (λ w. w.now) words.now) }
{
    words.len() == 4
        && is_word(word_at(words, 0), b"full")
        && is_word(word_at(words, 2), b"needs")
        && is_number(word_at(words, 3))
}

fn plain_look(alloc: Global, line: &[u8]) -> Result<Look, AllocError>
    ensures { IfOk result (λ look. look ≡ plain_look line.now) }
{
    let words = words_in(alloc, line)?;
    let words = words.as_slice();
    if is_numbered(b"expand", words) {
        return Ok(Look::Expand);
    }
    if is_needs(words) && is_word(word_at(words, 1), b"roots") {
        return Ok(Look::Roots);
    }
    if is_needs(words) && is_number(word_at(words, 1)) {
        return Ok(Look::Closing);
    }
    if is_numbered(b"wide", words) || is_word(line, b"end") {
        return Ok(Look::Closing);
    }
    Ok(Look::Formless)
}

fn look_at(
    alloc: Global,
    protocol: &Protocol,
    node: Option<u32>,
    line: &[u8],
) -> Result<Look, JournalFault>
    ensures ok { IfOk result (λ look. look ≡ look_at protocol.now node line.now) }
    ensures err { IfErr result (λ f. f ≡ Memory) }
{
    if !is_item(alloc, node, line)? {
        return Ok(plain_look(alloc, line)?);
    }
    match read_cube(protocol, cube_part(line), WIDEST) {
        Ok(_cube) => Ok(Look::Item),
        Err(CubeFault::Memory) => Err(JournalFault::Memory),
        Err(_fault) => Ok(Look::Faulty),
    }
}

/// What stands next, where cubes of the roots, or of a node, may stand.
pub fn look_of(
    alloc: Global,
    protocol: &Protocol,
    node: Option<u32>,
    text: &[u8],
) -> Result<Look, JournalFault>
    ensures ok { IfOk result (λ look. look ≡ look_of protocol.now node text.now) }
    ensures err { IfErr result (λ f. f ≡ Memory) }
{
    match cut_line(text) {
        Some((line, _rest)) => look_at(alloc, protocol, node, line),
        None => {
            if text.is_empty() {
                Ok(Look::Closing)
            } else {
                Ok(Look::Formless)
            }
        }
    }
}
