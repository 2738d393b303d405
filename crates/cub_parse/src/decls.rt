//! Declarations: types, variables and arrays.

ghost use Rattle.std.specs.Prelude.{◌≡◌, ◌∷◌, IfOk};
ghost use Rattle.cub_parse.specs.Parsing.{Gives, next_name, enumeration, var, array, decl, next_decl, until};
ghost use Rattle.cub_parse.specs.Grammar.{sorts};
ghost use Rattle.cub_parse.specs.Parsing.{one_of};

use crate::fault::{ParseKind, Stop};
use crate::tokens::{at, one_of, word, word_if_any};
use crate::tree::{DeclNode, DeclNodes, Leaf, Leaves};
use cub_base::Items;
use cub_lexer::TokenKind;
use std::alloc::{AllocError, Global};

#[tactic(auto, unfolding(crate::specs::Parsing::next_name))]
fn next_name(leaves: &[Leaf]) -> Result<(Option<Leaf>, &[Leaf]), Stop>
    ensures { Gives (λ x. (x.0, x.1.now)) result (next_name leaves.now) }
{
    if !at(&[TokenKind::Bar], leaves) {
        return Ok((None, leaves));
    }
    let (_, rest) = word(TokenKind::Bar, leaves)?;
    let (name, rest) = word(TokenKind::Name, rest)?;
    Ok((Some(name), rest))
}

fn further_names(alloc: Global, leaves: &[Leaf]) -> Result<(Leaves, &[Leaf]), Stop>
    ensures { Gives (λ x. (x.0, x.1.now)) result (until next_name leaves.now) }
{
    let mut found = Items::new(alloc);
    let mut rest = leaves;
    for _ in 0..leaves.len() + 1 {
        let (next, behind) = next_name(rest)?;
        match next {
            None => return Ok((found, behind)),
            Some(item) => found.push(item)?,
        }
        rest = behind;
    }
    Err(Stop::At(ParseKind::P1, rest.len()))
}

fn with_first(alloc: Global, first: Leaf, others: Leaves) -> Result<Leaves, AllocError>
    ensures { IfOk result (λ all. all ≡ first ∷ others) }
{
    let mut all = Items::new(alloc);
    all.push(first)?;
    all.append(others)?;
    Ok(all)
}

#[tactic(auto, unfolding(crate::specs::Parsing::enumeration))]
fn enumeration(alloc: Global, leaves: &[Leaf]) -> Result<(DeclNode, &[Leaf]), Stop>
    ensures { Gives (λ x. (x.0, x.1.now)) result (enumeration leaves.now) }
{
    let (_, rest) = word(TokenKind::TypeWord, leaves)?;
    let (name, rest) = word(TokenKind::Name, rest)?;
    let (_, rest) = word(TokenKind::Equal, rest)?;
    let (_, rest) = word_if_any(TokenKind::Bar, rest)?;
    let (first, rest) = word(TokenKind::Name, rest)?;
    let (others, rest) = further_names(alloc, rest)?;
    let cons = with_first(alloc, first, others)?;
    Ok((DeclNode::Enumeration { name, cons }, rest))
}

fn sort(leaves: &[Leaf]) -> Result<(Leaf, &[Leaf]), Stop>
    ensures { Gives (λ x. (x.0, x.1.now)) result (one_of sorts leaves.now) }
{
    one_of(
        &[
            TokenKind::BoolWord,
            TokenKind::IntWord,
            TokenKind::ProcWord,
            TokenKind::Name,
        ],
        leaves,
    )
}

#[tactic(auto, unfolding(crate::specs::Parsing::var))]
fn var(leaves: &[Leaf]) -> Result<(DeclNode, &[Leaf]), Stop>
    ensures { Gives (λ x. (x.0, x.1.now)) result (var leaves.now) }
{
    let (_, rest) = word(TokenKind::VarWord, leaves)?;
    let (name, rest) = word(TokenKind::Name, rest)?;
    let (_, rest) = word(TokenKind::Colon, rest)?;
    let (sort, rest) = sort(rest)?;
    Ok((DeclNode::Var { name, sort }, rest))
}

#[tactic(auto, unfolding(crate::specs::Parsing::array))]
fn array(leaves: &[Leaf]) -> Result<(DeclNode, &[Leaf]), Stop>
    ensures { Gives (λ x. (x.0, x.1.now)) result (array leaves.now) }
{
    let (_, rest) = word(TokenKind::ArrayWord, leaves)?;
    let (name, rest) = word(TokenKind::Name, rest)?;
    let (_, rest) = word(TokenKind::BracketOpen, rest)?;
    let (_, rest) = word(TokenKind::ProcWord, rest)?;
    let (_, rest) = word(TokenKind::BracketClose, rest)?;
    let (_, rest) = word(TokenKind::Colon, rest)?;
    let (sort, rest) = sort(rest)?;
    Ok((DeclNode::Array { name, sort }, rest))
}

#[tactic(auto, unfolding(crate::specs::Parsing::decl))]
fn decl(alloc: Global, leaves: &[Leaf]) -> Result<(DeclNode, &[Leaf]), Stop>
    ensures { Gives (λ x. (x.0, x.1.now)) result (decl leaves.now) }
{
    if at(&[TokenKind::TypeWord], leaves) {
        enumeration(alloc, leaves)
    } else if at(&[TokenKind::VarWord], leaves) {
        var(leaves)
    } else {
        array(leaves)
    }
}

#[tactic(auto, unfolding(crate::specs::Parsing::next_decl))]
fn next_decl(alloc: Global, leaves: &[Leaf]) -> Result<(Option<DeclNode>, &[Leaf]), Stop>
    ensures { Gives (λ x. (x.0, x.1.now)) result (next_decl leaves.now) }
{
    if !at(
        &[
            TokenKind::TypeWord,
            TokenKind::VarWord,
            TokenKind::ArrayWord,
        ],
        leaves,
    ) {
        return Ok((None, leaves));
    }
    let (found, rest) = decl(alloc, leaves)?;
    Ok((Some(found), rest))
}

pub fn decls(alloc: Global, leaves: &[Leaf]) -> Result<(DeclNodes, &[Leaf]), Stop>
    ensures { Gives (λ x. (x.0, x.1.now)) result (until next_decl leaves.now) }
{
    let mut found = Items::new(alloc);
    let mut rest = leaves;
    for _ in 0..leaves.len() + 1 {
        let (next, behind) = next_decl(alloc, rest)?;
        match next {
            None => return Ok((found, behind)),
            Some(item) => found.push(item)?,
        }
        rest = behind;
    }
    Err(Stop::At(ParseKind::P1, rest.len()))
}
