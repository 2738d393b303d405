//! What the words of a cube name.

ghost use Rattle.std.specs.Prelude.{◌≡◌, ℕ, ◌≤◌, ◌<◌, ◌^◌, [], ◌∷◌, ◌++◌, map, length, Some, None, true, false, IfOk, Bool, List, option_and_then};
ghost use Rattle.cub_proto.specs.StateOf.{signature_of};
ghost use Rattle.cub_proto.specs.Signature.{sort_of};
ghost use Rattle.cube_text.specs.Text.{names_of_sort};
ghost use Rattle.cube_text.specs.Form.{parted, is_and};
ghost use Rattle.cube_text.specs.Meaning.{of_processes, of_finite, processes_in, terms_in, finite_in, equation_of, equation_in, mask_from, set_names, membership_of, difference_in, literal_in, literals_from, literals_in, width_in, cube_of_width, cube_in, constructor_in, term_in, integer_side_in, bound_in};

use crate::form::{is_place, is_true_word};
use crate::parts::{before, group_end, parts};
use crate::sides::{
    as_process, behind_first, bound_in, constructor_in, integer_side_in, process_in, term_in,
};
use crate::writer::names_of_sort;
use cub_base::{Items, Name};
use cub_cube::Cube;
use cub_proto::{Lit, Lits, PSide, Protocol, Term, is_finite, same_finite};
use std::alloc::{AllocError, Global};
use text_lines::{is_word, natural};

fn of_processes(same: bool, a: PSide, b: PSide) -> Lit
    ensures { result ≡ of_processes same a b }
{
    if same {
        Lit::ProcEq { a, b }
    } else {
        Lit::ProcNe { a, b }
    }
}

fn of_finite(same: bool, a: Term, b: Term) -> Lit
    ensures { result ≡ of_finite same a b }
{
    if same {
        Lit::FinEq { a, b }
    } else {
        Lit::FinNe { a, b }
    }
}

fn processes_in(same: bool, a: Option<PSide>, b: Option<PSide>) -> Option<Lit>
    ensures { result ≡ processes_in same a b }
{
    Some(of_processes(same, a?, b?))
}

fn terms_in(protocol: &Protocol, same: bool, a: Term, b: Term) -> Option<Lit>
    ensures { result ≡ terms_in protocol.now same a b }
{
    let declared = protocol.declared();
    if same_finite(declared.sort_of(a), declared.sort_of(b)) {
        Some(of_finite(same, a, b))
    } else {
        None
    }
}

fn finite_in(
    protocol: &Protocol,
    width: u8,
    same: bool,
    a: Term,
    word: &[u8],
    constructor: Option<u8>,
) -> Option<Lit>
    requires { (c : ℕ) → constructor ≡ Some c → c < 64 }
    ensures { result ≡ finite_in protocol.now width same a word.now constructor }
{
    let Some(constructor) = constructor else {
        return terms_in(protocol, same, a, term_in(protocol, width, word)?);
    };
    if same {
        Some(Lit::FinIn {
            term: a,
            mask: 1u64 << constructor,
        })
    } else {
        None
    }
}

fn equation_of(protocol: &Protocol, width: u8, same: bool, a: Term, word: &[u8]) -> Option<Lit>
    ensures { result ≡ equation_of protocol.now width same a word.now }
{
    let sort = protocol.declared().sort_of(a);
    if is_finite(sort) {
        let constructor = constructor_in(names_of_sort(protocol, sort), word);
        return finite_in(protocol, width, same, a, word, constructor);
    }
    processes_in(
        same,
        as_process(protocol, a),
        process_in(protocol, width, word),
    )
}

fn equation_in(protocol: &Protocol, width: u8, same: bool, a: &[u8], b: &[u8]) -> Option<Lit>
    ensures { result ≡ equation_in protocol.now width same a.now b.now }
{
    if is_place(a) {
        return processes_in(
            same,
            process_in(protocol, width, a),
            process_in(protocol, width, b),
        );
    }
    equation_of(protocol, width, same, term_in(protocol, width, a)?, b)
}

// The mask of the constructors that are named.
fn mask_of(cons: &[Name], names: &[&[u8]]) -> Option<u64>
    requires { length cons.now ≤ 64 }
    ensures { result ≡ mask_from cons.now 0 (map (λ w. w.now) names.now) }
{
    let mut mask = 0;
    for name in names {
        let constructor = constructor_in(cons, name)?;
        mask |= 1u64 << constructor;
    }
    Some(mask)
}

fn set_names(alloc: Global, bytes: &[u8]) -> Result<Vec<&[u8]>, AllocError>
    ensures { IfOk result (λ names. map (λ w. w.now) names.items ≡ set_names bytes.now) }
{
    if bytes.is_empty() {
        Ok(Vec::new(alloc))
    } else {
        parts(alloc, bytes, b',')
    }
}

fn membership_of(
    alloc: Global,
    protocol: &Protocol,
    set: &[u8],
    term: Term,
) -> Result<Option<Lit>, AllocError>
    ensures { IfOk result (λ lit. lit ≡ membership_of protocol.now set.now term) }
{
    let sort = protocol.declared().sort_of(term);
    if !is_finite(sort) {
        return Ok(None);
    }
    let names = set_names(alloc, before(b'}', behind_first(set)))?;
    match mask_of(names_of_sort(protocol, sort), names.as_slice()) {
        Some(mask) => Ok(Some(Lit::FinIn { term, mask })),
        None => Ok(None),
    }
}

fn membership_in(
    alloc: Global,
    protocol: &Protocol,
    width: u8,
    a: &[u8],
    set: &[u8],
) -> Result<Option<Lit>, AllocError>
    ensures { IfOk result (λ lit. lit ≡ option_and_then (membership_of protocol.now set.now) (term_in protocol.now width a.now)) }
{
    match term_in(protocol, width, a) {
        Some(term) => membership_of(alloc, protocol, set, term),
        None => Ok(None),
    }
}

fn difference_in(protocol: &Protocol, width: u8, a: &[u8], b: &[u8], bound: &[u8]) -> Option<Lit>
    ensures { result ≡ difference_in (integer_side_in protocol.now width a.now) (integer_side_in protocol.now width b.now) (bound_in bound.now) }
{
    Some(Lit::Diff {
        a: integer_side_in(protocol, width, a)?,
        b: integer_side_in(protocol, width, b)?,
        bound: bound_in(bound)?,
    })
}

fn literal_in(
    alloc: Global,
    protocol: &Protocol,
    width: u8,
    words: &[&[u8]],
) -> Result<Option<Lit>, AllocError>
    ensures { IfOk result (λ lit. lit ≡ literal_in protocol.now width (map (λ w. w.now) words.now)) }
{
    match words {
        [a, op, b] => {
            if is_word(op, b"in") {
                return membership_in(alloc, protocol, width, a, b);
            }
            Ok(equation_in(protocol, width, is_word(op, b"="), a, b))
        }
        [a, _, b, _, bound] => Ok(difference_in(protocol, width, a, b, bound)),
        [] | [_] | [_, _] | [_, _, _, _] | [_, _, _, _, _, _, ..] => Ok(None),
    }
}

// The literals of the groups between `&&`.
fn literals_from(
    alloc: Global,
    protocol: &Protocol,
    width: u8,
    words: &[&[u8]],
) -> Result<Option<Lits>, AllocError>
    ensures { IfOk result (λ lits. lits ≡ literals_from protocol.now width [] (parted is_and (map (λ w. w.now) words.now))) }
{
    let mut lits = Items::new(alloc);
    let mut at = 0;
    while at <= words.len() {
        let end = group_end(words, at);
        let Some(lit) = literal_in(alloc, protocol, width, &words[at..end])? else {
            return Ok(None);
        };
        lits.push(lit)?;
        at = end + 1;
    }
    Ok(Some(lits))
}

fn literals_in(
    alloc: Global,
    protocol: &Protocol,
    width: u8,
    words: &[&[u8]],
) -> Result<Option<Lits>, AllocError>
    ensures { IfOk result (λ lits. lits ≡ literals_in protocol.now width (map (λ w. w.now) words.now)) }
{
    if is_true_word(words) {
        return Ok(Some(Items::new(alloc)));
    }
    literals_from(alloc, protocol, width, words)
}

fn width_in(widest: u8, word: &[u8]) -> Option<u8>
    ensures { result ≡ width_in widest word.now }
{
    let width = natural(before(b':', word))?;
    if width <= u64::from(widest) {
        Some(width as u8)
    } else {
        None
    }
}

/// The cube that the words name, of at most that width.
pub fn cube_in(
    alloc: Global,
    protocol: &Protocol,
    widest: u8,
    words: &[&[u8]],
) -> Result<Option<Cube>, AllocError>
    ensures { IfOk result (λ cube. cube ≡ cube_in protocol.now widest (map (λ w. w.now) words.now)) }
{
    let [_, width, rest @ ..] = words else {
        return Ok(None);
    };
    let Some(width) = width_in(widest, width) else {
        return Ok(None);
    };
    match literals_in(alloc, protocol, width, rest)? {
        Some(lits) => Ok(Some(Cube { width, lits })),
        None => Ok(None),
    }
}
