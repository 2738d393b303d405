//! The names of types, by a map from name to number, so that a sort is found in no time to speak of.

ghost use Rattle.std.specs.Prelude.{IfSome, is_none, ◌≡◌, ◌+◌, ◌<◌, ◌≤◌, length, IfOk, OnOk, ℕ, List, if◌then◌else◌, bytes_eq, Some};
ghost use Rattle.cub_proto.specs.declared.literal.Sort.TheVariants.{Fin, Int, Proc};
ghost use Rattle.cub_proto.specs.Signature.{is_sort};
ghost use Rattle.cub_names.specs.Seen.{value_in};
ghost use Rattle.cub_names.specs.Meaning.{number_from};
ghost use Rattle.cub_names.specs.Declarations.{sort_named, sort_at, words_of, types_of};

use crate::lists::{types_of, words_of};
use crate::words::word;
use cub_base::Name;
use cub_lexer::TokenKind;
use cub_parse::{DeclNode, Leaf};
use cub_proto::Sort;
use indexmap::IndexMap;
use std::alloc::{AllocError, Global};
use std::marker::Model;

/// The names of the declared types, by number from 1 on; type 0 is `bool`.
#[derive(Debug, Drop)]
pub struct TypeNames {
    words: Vec<Name>,
    numbers: IndexMap<Vec<u8>, usize>,
}

impl Model for TypeNames {
    ghost use Rattle.std.specs.Prelude.{List, ℕ, ◌≡◌};
    ghost use Rattle.cub_names.specs.Meaning.{number_from};
    ghost use Rattle.cub_names.specs.Seen.{value_in};

    ghost Value = { List (List ℕ) };

    ghost view = { λ t. t.words.items };

    ghost invariant = { λ t. (q : List ℕ) → value_in t.numbers q ≡ number_from 1 t.words.items q };
}

/// Puts the number at the name.
fn put(numbers: &mut IndexMap<Vec<u8>, usize>, name: &Name, number: usize) -> Result<(), AllocError>
    ensures { OnOk result ((q : List ℕ) → value_in numbers.new q ≡ (if bytes_eq name.now q then Some number else value_in numbers.old q)) }
{
    let key = Vec::from_slice(name.allocator(), name.as_slice())?;
    numbers.insert(key, number)?;
    Ok(())
}

/// What the map has at the name.
fn found(numbers: &IndexMap<Vec<u8>, usize>, name: &[u8]) -> Option<usize>
    ensures { result ≡ value_in numbers.now name.now }
{
    numbers.get(name).copied()
}

fn fill(alloc: Global, words: &[Name]) -> Result<IndexMap<Vec<u8>, usize>, AllocError>
    ensures { IfOk result (λ numbers. (q : List ℕ) → value_in numbers q ≡ number_from 1 words.now q) }
{
    let mut numbers = IndexMap::new(alloc);
    let mut left = words.len();
    while left > 0 {
        put(&mut numbers, &words[left - 1], left)?;
        left -= 1;
    }
    Ok(numbers)
}

/// The names of the declared types.
pub fn type_names(alloc: Global, text: &[u8], decls: &[DeclNode]) -> Result<TypeNames, AllocError>
    ensures { IfOk result (λ types. types ≡ words_of text.now (types_of decls.now)) }
{
    let names = types_of(alloc, decls)?;
    let words = words_of(alloc, text, names.as_slice())?;
    let numbers = fill(alloc, words.as_slice())?;
    Ok(TypeNames { words, numbers })
}

impl TypeNames {
    ghost use Rattle.cub_names.specs.Meaning.{number_from};

    /// The number of the type with that name.
    fn number(&self, name: &[u8]) -> Option<usize>
        ensures value { result ≡ number_from 1 self.now name.now }
        ensures within { IfSome result (λ n. n ≤ length self.now) }
    {
        found(&self.numbers, name)
    }
}

fn small_sort(number: usize) -> Sort
    requires { number ≤ 256 }
    ensures { result ≡ Fin number }
{
    Sort::Fin(number as u16)
}

/// Whether the leaf names no sort.
pub fn is_unknown(text: &[u8], types: &TypeNames, leaf: &Leaf) -> bool
    ensures { result ≡ is_none (sort_at text.now types.now leaf.now) }
{
    match leaf.token.kind {
        TokenKind::BoolWord | TokenKind::IntWord | TokenKind::ProcWord => false,
        _ => types.number(word(text, leaf)).is_none(),
    }
}

/// Whether the leaf names the integers; its kind says it alone.
pub fn is_int(_text: &[u8], _types: &TypeNames, leaf: &Leaf) -> bool
    ensures { result ≡ is_sort (sort_at _text.now _types.now leaf.now) Int }
{
    match leaf.token.kind {
        TokenKind::IntWord => true,
        _ => false,
    }
}

/// Whether the leaf is `proc`.
pub fn is_proc(_text: &[u8], _types: &TypeNames, leaf: &Leaf) -> bool
    ensures { result ≡ is_sort (sort_at _text.now _types.now leaf.now) Proc }
{
    match leaf.token.kind {
        TokenKind::ProcWord => true,
        _ => false,
    }
}

/// The sort that the leaf names, where there are not too many types.
pub fn sort_at(text: &[u8], types: &TypeNames, leaf: &Leaf) -> Option<Sort>
    requires { length types.now ≤ 256 }
    ensures { result ≡ sort_at text.now types.now leaf.now }
{
    match leaf.token.kind {
        TokenKind::BoolWord => Some(Sort::Fin(0)),
        TokenKind::IntWord => Some(Sort::Int),
        TokenKind::ProcWord => Some(Sort::Proc),
        _ => match types.number(word(text, leaf)) {
            Some(number) => Some(small_sort(number)),
            None => None,
        },
    }
}
