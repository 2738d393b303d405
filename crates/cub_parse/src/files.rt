//! Bodies, what follows `init`, and whole texts.

ghost use Rattle.std.specs.Prelude.{◌≡◌, ◌∷◌, []};
ghost use Rattle.cub_lexer.specs.declared.token.TokenKind.TheVariants as k;
ghost use Rattle.cub_parse.specs.Parsing.{Gives, names, names_if_any, maybe, word, body, named_body, unsafe_rest, invariant_rest, guard, guard_if_any, transition, rest_of, next_rest, file, until, updates_if_any};

use crate::decls::decls;
use crate::fault::{ParseKind, Stop};
use crate::formulas::formula_if_any;
use crate::tokens::{at, word, word_if_any};
use crate::tree::{BodyNode, Leaf, Leaves, RestNode, RestNodes, Syntax, UpdateNodes};
use crate::updates::updates;
use cub_base::Items;
use cub_lexer::TokenKind;
use std::alloc::Global;

fn name_list(alloc: Global, leaves: &[Leaf]) -> Result<(Leaves, &[Leaf]), Stop>
    ensures { Gives (λ x. (x.0, x.1.now)) result (until (maybe (k.Name ∷ []) (word k.Name)) leaves.now) }
{
    let mut found = Items::new(alloc);
    let mut rest = leaves;
    for _ in 0..leaves.len() + 1 {
        let (next, behind) = word_if_any(TokenKind::Name, rest)?;
        match next {
            None => return Ok((found, behind)),
            Some(item) => found.push(item)?,
        }
        rest = behind;
    }
    Err(Stop::At(ParseKind::P1, rest.len()))
}

#[tactic(auto, unfolding(crate::specs::Parsing::names))]
fn names(alloc: Global, leaves: &[Leaf]) -> Result<(Leaves, &[Leaf]), Stop>
    ensures { Gives (λ x. (x.0, x.1.now)) result (names leaves.now) }
{
    let (_, rest) = word(TokenKind::ParenOpen, leaves)?;
    let (found, rest) = name_list(alloc, rest)?;
    let (_, rest) = word(TokenKind::ParenClose, rest)?;
    Ok((found, rest))
}

#[tactic(auto, unfolding(crate::specs::Parsing::names_if_any))]
fn names_if_any(alloc: Global, leaves: &[Leaf]) -> Result<(Leaves, &[Leaf]), Stop>
    ensures { Gives (λ x. (x.0, x.1.now)) result (names_if_any leaves.now) }
{
    if !at(&[TokenKind::ParenOpen], leaves) {
        return Ok((Items::new(alloc), leaves));
    }
    names(alloc, leaves)
}

#[tactic(auto, unfolding(crate::specs::Parsing::body))]
fn body(
    alloc: Global,
    levels: u8,
    names: Leaves,
    leaves: &[Leaf],
) -> Result<(BodyNode, &[Leaf]), Stop>
    ensures { Gives (λ x. (x.0, x.1.now)) result (body levels names leaves.now) }
{
    let (_, rest) = word(TokenKind::BraceOpen, leaves)?;
    let (formula, rest) = formula_if_any(alloc, levels, rest)?;
    let (_, rest) = word_if_any(TokenKind::Semicolon, rest)?;
    let (close, rest) = word(TokenKind::BraceClose, rest)?;
    let node = BodyNode {
        names,
        formula,
        close,
    };
    Ok((node, rest))
}

#[tactic(auto, unfolding(crate::specs::Parsing::named_body))]
fn named_body(alloc: Global, levels: u8, leaves: &[Leaf]) -> Result<(BodyNode, &[Leaf]), Stop>
    ensures { Gives (λ x. (x.0, x.1.now)) result (named_body levels leaves.now) }
{
    let (names, rest) = names_if_any(alloc, leaves)?;
    body(alloc, levels, names, rest)
}

#[tactic(auto, unfolding(crate::specs::Parsing::unsafe_rest))]
fn unsafe_rest(alloc: Global, levels: u8, leaves: &[Leaf]) -> Result<(RestNode, &[Leaf]), Stop>
    ensures { Gives (λ x. (x.0, x.1.now)) result (unsafe_rest levels leaves.now) }
{
    let (_, rest) = word(TokenKind::UnsafeWord, leaves)?;
    let (body, rest) = named_body(alloc, levels, rest)?;
    Ok((RestNode::Unsafe(body), rest))
}

#[tactic(auto, unfolding(crate::specs::Parsing::invariant_rest))]
fn invariant_rest(alloc: Global, levels: u8, leaves: &[Leaf]) -> Result<(RestNode, &[Leaf]), Stop>
    ensures { Gives (λ x. (x.0, x.1.now)) result (invariant_rest levels leaves.now) }
{
    let (keyword, rest) = word(TokenKind::InvariantWord, leaves)?;
    let (body, rest) = named_body(alloc, levels, rest)?;
    let node = RestNode::Invariant {
        word: keyword,
        body,
    };
    Ok((node, rest))
}

#[tactic(auto, unfolding(crate::specs::Parsing::guard))]
fn guard(alloc: Global, levels: u8, leaves: &[Leaf]) -> Result<(BodyNode, &[Leaf]), Stop>
    ensures { Gives (λ x. (x.0, x.1.now)) result (guard levels leaves.now) }
{
    let (_, rest) = word(TokenKind::RequiresWord, leaves)?;
    body(alloc, levels, Items::new(alloc), rest)
}

#[tactic(auto, unfolding(crate::specs::Parsing::guard_if_any))]
fn guard_if_any(
    alloc: Global,
    levels: u8,
    leaves: &[Leaf],
) -> Result<(Option<BodyNode>, &[Leaf]), Stop>
    ensures { Gives (λ x. (x.0, x.1.now)) result (guard_if_any levels leaves.now) }
{
    if !at(&[TokenKind::RequiresWord], leaves) {
        return Ok((None, leaves));
    }
    let (found, rest) = guard(alloc, levels, leaves)?;
    Ok((Some(found), rest))
}

#[tactic(auto, unfolding(crate::specs::Parsing::updates_if_any))]
fn updates_if_any(
    alloc: Global,
    levels: u8,
    leaves: &[Leaf],
) -> Result<(UpdateNodes, &[Leaf]), Stop>
    ensures { Gives (λ x. (x.0, x.1.now)) result (updates_if_any levels leaves.now) }
{
    if !at(&[TokenKind::Name], leaves) {
        return Ok((Items::new(alloc), leaves));
    }
    updates(alloc, levels, leaves)
}

#[tactic(auto, unfolding(crate::specs::Parsing::transition))]
fn transition(alloc: Global, levels: u8, leaves: &[Leaf]) -> Result<(RestNode, &[Leaf]), Stop>
    ensures { Gives (λ x. (x.0, x.1.now)) result (transition levels leaves.now) }
{
    let (_, rest) = word(TokenKind::TransitionWord, leaves)?;
    let (name, rest) = word(TokenKind::Name, rest)?;
    let (names, rest) = names_if_any(alloc, rest)?;
    let (guard, rest) = guard_if_any(alloc, levels, rest)?;
    let (_, rest) = word(TokenKind::BraceOpen, rest)?;
    let (updates, rest) = updates_if_any(alloc, levels, rest)?;
    let (_, rest) = word(TokenKind::BraceClose, rest)?;
    let node = RestNode::Transition {
        name,
        names,
        guard,
        updates,
    };
    Ok((node, rest))
}

#[tactic(auto, unfolding(crate::specs::Parsing::rest_of))]
fn rest_of(alloc: Global, levels: u8, leaves: &[Leaf]) -> Result<(RestNode, &[Leaf]), Stop>
    ensures { Gives (λ x. (x.0, x.1.now)) result (rest_of levels leaves.now) }
{
    if at(&[TokenKind::UnsafeWord], leaves) {
        unsafe_rest(alloc, levels, leaves)
    } else if at(&[TokenKind::InvariantWord], leaves) {
        invariant_rest(alloc, levels, leaves)
    } else {
        transition(alloc, levels, leaves)
    }
}

#[tactic(auto, unfolding(crate::specs::Parsing::next_rest))]
fn next_rest(
    alloc: Global,
    levels: u8,
    leaves: &[Leaf],
) -> Result<(Option<RestNode>, &[Leaf]), Stop>
    ensures { Gives (λ x. (x.0, x.1.now)) result (next_rest levels leaves.now) }
{
    if !at(
        &[
            TokenKind::UnsafeWord,
            TokenKind::InvariantWord,
            TokenKind::TransitionWord,
        ],
        leaves,
    ) {
        return Ok((None, leaves));
    }
    let (found, rest) = rest_of(alloc, levels, leaves)?;
    Ok((Some(found), rest))
}

fn rests(alloc: Global, levels: u8, leaves: &[Leaf]) -> Result<(RestNodes, &[Leaf]), Stop>
    ensures { Gives (λ x. (x.0, x.1.now)) result (until (next_rest levels) leaves.now) }
{
    let mut found = Items::new(alloc);
    let mut rest = leaves;
    for _ in 0..leaves.len() + 1 {
        let (next, behind) = next_rest(alloc, levels, rest)?;
        match next {
            None => return Ok((found, behind)),
            Some(item) => found.push(item)?,
        }
        rest = behind;
    }
    Err(Stop::At(ParseKind::P1, rest.len()))
}

/// A whole text, and what stands behind it.
#[tactic(auto, unfolding(crate::specs::Parsing::file))]
pub fn file(alloc: Global, levels: u8, leaves: &[Leaf]) -> Result<(Syntax, &[Leaf]), Stop>
    ensures { Gives (λ x. (x.0, x.1.now)) result (file levels leaves.now) }
{
    let (decls, rest) = decls(alloc, leaves)?;
    let (_, rest) = word(TokenKind::InitWord, rest)?;
    let (init, rest) = named_body(alloc, levels, rest)?;
    let (rests, rest) = rests(alloc, levels, rest)?;
    Ok((Syntax { decls, init, rests }, rest))
}
