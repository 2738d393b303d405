//! The readers of single tokens. A reader takes the tokens in front of it and answers a tree and the tokens left behind,
//! or the fault with the number of tokens left there; it looks at one token before it decides.

ghost use Rattle.std.specs.Prelude.{◌≡◌, ◌∷◌, []};
ghost use Rattle.cub_parse.specs.Phrase.{is_in, heads};
ghost use Rattle.cub_parse.specs.Parsing.{Gives, one_of, word, maybe};

use crate::fault::{ParseKind, Stop};
use crate::tree::Leaf;
use cub_lexer::TokenKind;

fn is_in(kind: TokenKind, kinds: &[TokenKind]) -> bool
    ensures { result ≡ is_in kind kinds.now }
{
    kinds.iter().any(|other| kind == *other)
}

/// Whether the next token is of one of these kinds.
pub fn at(kinds: &[TokenKind], leaves: &[Leaf]) -> bool
    ensures { result ≡ heads kinds.now leaves.now }
{
    match leaves {
        [] => false,
        [leaf, ..] => is_in(leaf.token.kind, kinds),
    }
}

#[tactic(auto, unfolding(crate::specs::Parsing::one_of))]
pub fn one_of<'a>(kinds: &[TokenKind], leaves: &'a [Leaf]) -> Result<(Leaf, &'a [Leaf]), Stop>
    ensures { Gives (λ x. (x.0, x.1.now)) result (one_of kinds.now leaves.now) }
{
    match leaves {
        [leaf, rest @ ..] if is_in(leaf.token.kind, kinds) => Ok((*leaf, rest)),
        _ => Err(Stop::At(ParseKind::P1, leaves.len())),
    }
}

pub fn word(kind: TokenKind, leaves: &[Leaf]) -> Result<(Leaf, &[Leaf]), Stop>
    ensures { Gives (λ x. (x.0, x.1.now)) result (word kind leaves.now) }
{
    one_of(&[kind], leaves)
}

/// The next token if it is of the kind.
pub fn word_if_any(kind: TokenKind, leaves: &[Leaf]) -> Result<(Option<Leaf>, &[Leaf]), Stop>
    ensures { Gives (λ x. (x.0, x.1.now)) result (maybe (kind ∷ []) (word kind) leaves.now) }
{
    if !at(&[kind], leaves) {
        return Ok((None, leaves));
    }
    let (leaf, rest) = word(kind, leaves)?;
    Ok((Some(leaf), rest))
}
