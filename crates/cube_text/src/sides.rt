//! What words name: places, terms, constructors, sides of literals.

ghost use Rattle.std.specs.Prelude.{◌≡◌, ℕ, ◌≤◌, ◌<◌, length, Some, None, IfSome, option_and_then};
ghost use Rattle.cub_proto.specs.StateOf.{signature_of};
ghost use Rattle.cub_proto.specs.Signature.{sort_of};
ghost use Rattle.cube_text.specs.Form.{before};
ghost use Rattle.cube_text.specs.Meaning.{behind_first, counted_to, place_in, declared_in, cell_at, term_in, as_process, as_integer, process_in, integer_side_in, constructor_in, bound_in};

use crate::form::is_place;
use crate::parts::{before, onward};
use cub_base::Name;
use cub_proto::{Decl, ISide, PSide, Protocol, Sort, Term};
use text_lines::{constructor_number, decl_number, integer, is_word, natural};

/// The greatest size of a bound of a cube in a text.
pub const GREATEST_BOUND: u64 = 140_000_000_000_000;

/// The bytes behind the first one.
pub fn behind_first(bytes: &[u8]) -> &[u8]
    ensures { result.now ≡ behind_first bytes.now }
{
    match bytes {
        [] => &[],
        [_, rest @ ..] => rest,
    }
}

fn counted_to(width: u8, number: u64) -> Option<u8>
    ensures { result ≡ counted_to width number }
{
    if number > 0 && number <= u64::from(width) {
        Some((number - 1) as u8)
    } else {
        None
    }
}

fn place_in(width: u8, word: &[u8]) -> Option<u8>
    ensures { result ≡ place_in width word.now }
{
    counted_to(width, natural(behind_first(word))?)
}

fn declared_in(decls: &[Decl], name: &[u8]) -> Option<u16>
    ensures { result ≡ declared_in decls.now name.now }
{
    let number = decl_number(decls, name);
    if (number as usize) < decls.len() {
        Some(number)
    } else {
        None
    }
}

fn cell_in(protocol: &Protocol, width: u8, word: &[u8], index: &[u8]) -> Option<Term>
    ensures { result ≡ option_and_then (cell_at (declared_in protocol.now.arrays (before 91 word.now))) (place_in width (before 93 (behind_first index.now))) }
{
    let place = place_in(width, before(b']', behind_first(index)))?;
    let array = declared_in(protocol.arrays.as_slice(), before(b'[', word))?;
    Some(Term::Cell(array, place))
}

/// The term that `X` or `A[#1]` names.
pub fn term_in(protocol: &Protocol, width: u8, word: &[u8]) -> Option<Term>
    ensures { result ≡ term_in protocol.now width word.now }
{
    let index = onward(b'[', word);
    if index.is_empty() {
        let global = declared_in(protocol.globals.as_slice(), word)?;
        return Some(Term::Global(global));
    }
    cell_in(protocol, width, word, index)
}

/// A process global as a side.
pub fn as_process(protocol: &Protocol, term: Term) -> Option<PSide>
    ensures { result ≡ as_process protocol.now term }
{
    let Term::Global(global) = term else {
        return None;
    };
    match protocol.declared().sort_of(term) {
        Some(Sort::Proc) => Some(PSide::Global(global)),
        Some(Sort::Fin(_)) | Some(Sort::Int) | None => None,
    }
}

fn as_integer(protocol: &Protocol, term: Term) -> Option<ISide>
    ensures { result ≡ as_integer protocol.now term }
{
    match protocol.declared().sort_of(term) {
        Some(Sort::Int) => Some(ISide::At(term)),
        Some(Sort::Fin(_)) | Some(Sort::Proc) | None => None,
    }
}

/// A side of an equation of processes.
pub fn process_in(protocol: &Protocol, width: u8, word: &[u8]) -> Option<PSide>
    ensures { result ≡ process_in protocol.now width word.now }
{
    if is_place(word) {
        let place = place_in(width, word)?;
        return Some(PSide::Place(place));
    }
    as_process(protocol, term_in(protocol, width, word)?)
}

/// A side of a difference.
pub fn integer_side_in(protocol: &Protocol, width: u8, word: &[u8]) -> Option<ISide>
    ensures { result ≡ integer_side_in protocol.now width word.now }
{
    if is_word(word, b"0") {
        return Some(ISide::Zero);
    }
    as_integer(protocol, term_in(protocol, width, word)?)
}

/// The constructor among these that the name names.
pub fn constructor_in(names: &[Name], name: &[u8]) -> Option<u8>
    requires { length names.now ≤ 64 }
    ensures value { result ≡ constructor_in names.now name.now }
    ensures few { IfSome result (λ c. c < 64) }
{
    let number = constructor_number(names, name);
    if (number as usize) < names.len() {
        Some(number as u8)
    } else {
        None
    }
}

/// A bound within its limit.
pub fn bound_in(word: &[u8]) -> Option<i64>
    ensures { result ≡ bound_in word.now }
{
    let bound = integer(word)?;
    if bound.unsigned_abs() <= GREATEST_BOUND {
        Some(bound)
    } else {
        None
    }
}
