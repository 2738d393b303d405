//! The bytes of a leaf, and what they are as a name or a number.

ghost use Rattle.std.specs.Prelude.{◌≡◌};
ghost use Rattle.cub_names.specs.Words.{word_of, amount_of, may_declare, begins_with_underscore};

use cub_base::is_declarable;
use cub_lexer::{number_value, token_text};
use cub_parse::Leaf;

/// The bytes of the leaf.
pub fn word<'a>(text: &'a [u8], leaf: &Leaf) -> &'a [u8]
    ensures { result.now ≡ word_of text.now leaf.now }
{
    token_text(text, leaf.token)
}

/// The number that the leaf spells, or 1,000,000,001 where it is greater.
pub fn amount(text: &[u8], leaf: &Leaf) -> u32
    ensures { result ≡ amount_of text.now leaf.now }
{
    match number_value(word(text, leaf)) {
        Some(value) => value,
        None => 1_000_000_001,
    }
}

fn begins_with_underscore(word: &[u8]) -> bool
    ensures { result ≡ begins_with_underscore word.now }
{
    match word {
        [first, ..] => *first == b'_',
        [] => false,
    }
}

/// Whether a declaration may introduce the word.
pub fn may_declare(word: &[u8]) -> bool
    ensures { result ≡ may_declare word.now }
{
    is_declarable(word) && !begins_with_underscore(word)
}
