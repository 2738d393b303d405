//! Formulas. The readers of units, conjunctions and disjunctions call one another, at most 64 levels deep; `levels` is how
//! many may still open. What repeats is a loop, so the stack never grows with the length of a text.

ghost use Rattle.std.specs.Prelude.{◌≡◌, IfOk};
ghost use Rattle.cub_lexer.specs.declared.token.TokenKind.TheVariants as k;
ghost use Rattle.cub_parse.specs.declared.tree.FormNode.TheVariants as n;
ghost use Rattle.cub_parse.specs.Grammar.{compared, joined};
ghost use Rattle.cub_parse.specs.Phrase.{heads};
ghost use Rattle.cub_parse.specs.Parsing.{Gives, comparison, comparison_if_any, side, unit, conj_of, formula, formula_of, formula_if_any, formula_starts, next_joined, not_of, group_of, forall_of, until};

use crate::fault::{ParseKind, Stop};
use crate::sums::sum;
use crate::tokens::{at, one_of, word};
use crate::tree::{FormNode, FormNodes, Leaf, SumNode};
use cub_base::{Boxed, Items};
use cub_lexer::TokenKind;
use std::alloc::{AllocError, Global};

#[tactic(auto, unfolding(crate::specs::Parsing::comparison))]
fn comparison(alloc: Global, leaves: &[Leaf]) -> Result<((Leaf, SumNode), &[Leaf]), Stop>
    ensures { Gives (λ x. (x.0, x.1.now)) result (comparison leaves.now) }
{
    let (sign, rest) = one_of(
        &[
            TokenKind::Equal,
            TokenKind::NotEqual,
            TokenKind::Less,
            TokenKind::LessOrEqual,
            TokenKind::Greater,
            TokenKind::GreaterOrEqual,
        ],
        leaves,
    )?;
    let (b, rest) = sum(alloc, rest)?;
    Ok(((sign, b), rest))
}

#[tactic(auto, unfolding(crate::specs::Parsing::comparison_if_any))]
fn comparison_if_any(
    alloc: Global,
    leaves: &[Leaf],
) -> Result<(Option<(Leaf, SumNode)>, &[Leaf]), Stop>
    ensures { Gives (λ x. (x.0, x.1.now)) result (comparison_if_any leaves.now) }
{
    if !at(
        &[
            TokenKind::Equal,
            TokenKind::NotEqual,
            TokenKind::Less,
            TokenKind::LessOrEqual,
            TokenKind::Greater,
            TokenKind::GreaterOrEqual,
        ],
        leaves,
    ) {
        return Ok((None, leaves));
    }
    let (found, rest) = comparison(alloc, leaves)?;
    Ok((Some(found), rest))
}

fn compared(a: SumNode, found: Option<(Leaf, SumNode)>) -> FormNode
    ensures { result ≡ compared a found }
{
    match found {
        None => FormNode::Side(a),
        Some((sign, b)) => FormNode::Rel { a, sign, b },
    }
}

#[tactic(auto, unfolding(crate::specs::Parsing::side))]
fn side(alloc: Global, leaves: &[Leaf]) -> Result<(FormNode, &[Leaf]), Stop>
    ensures { Gives (λ x. (x.0, x.1.now)) result (side leaves.now) }
{
    let (a, rest) = sum(alloc, leaves)?;
    let (found, rest) = comparison_if_any(alloc, rest)?;
    Ok((compared(a, found), rest))
}

fn join_and(alloc: Global, first: FormNode, others: FormNodes) -> Result<FormNode, AllocError>
    ensures { IfOk result (λ f. f ≡ joined n.And first others) }
{
    if others.is_empty() {
        return Ok(first);
    }
    let mut parts = Items::new(alloc);
    parts.push(first)?;
    parts.append(others)?;
    Ok(FormNode::And(parts))
}

fn join_or(alloc: Global, first: FormNode, others: FormNodes) -> Result<FormNode, AllocError>
    ensures { IfOk result (λ f. f ≡ joined n.Or first others) }
{
    if others.is_empty() {
        return Ok(first);
    }
    let mut parts = Items::new(alloc);
    parts.push(first)?;
    parts.append(others)?;
    Ok(FormNode::Or(parts))
}

#[cycle(form)]
#[tactic(auto, unfolding(crate::specs::Parsing::not_of))]
fn negation(alloc: Global, levels: u8, leaves: &[Leaf]) -> Result<(FormNode, &[Leaf]), Stop>
    ensures { Gives (λ x. (x.0, x.1.now)) result (not_of (unit levels) leaves.now) }
{
    let (_, rest) = word(TokenKind::NotWord, leaves)?;
    let (inner, rest) = unit(alloc, levels, rest)?;
    Ok((FormNode::Not(Boxed::new(alloc, inner)?), rest))
}

#[cycle(form)]
#[tactic(auto, unfolding(crate::specs::Parsing::group_of))]
fn group(alloc: Global, levels: u8, leaves: &[Leaf]) -> Result<(FormNode, &[Leaf]), Stop>
    ensures { Gives (λ x. (x.0, x.1.now)) result (group_of (formula levels) leaves.now) }
{
    let (_, rest) = word(TokenKind::ParenOpen, leaves)?;
    let (inner, rest) = formula(alloc, levels, rest)?;
    let (_, rest) = word(TokenKind::ParenClose, rest)?;
    Ok((FormNode::Group(Boxed::new(alloc, inner)?), rest))
}

#[cycle(form)]
#[tactic(auto, unfolding(crate::specs::Parsing::forall_of))]
fn forall(alloc: Global, levels: u8, leaves: &[Leaf]) -> Result<(FormNode, &[Leaf]), Stop>
    ensures { Gives (λ x. (x.0, x.1.now)) result (forall_of (formula levels) leaves.now) }
{
    let (keyword, rest) = word(TokenKind::ForallOtherWord, leaves)?;
    let (name, rest) = word(TokenKind::Name, rest)?;
    let (_, rest) = word(TokenKind::Dot, rest)?;
    let (reach, rest) = formula(alloc, levels, rest)?;
    let body = Boxed::new(alloc, reach)?;
    let node = FormNode::Forall {
        word: keyword,
        name,
        body,
    };
    Ok((node, rest))
}

#[cycle(form)]
#[tactic(auto, unfolding(crate::specs::Parsing::unit))]
fn unit(alloc: Global, levels: u8, leaves: &[Leaf]) -> Result<(FormNode, &[Leaf]), Stop>
    ensures { Gives (λ x. (x.0, x.1.now)) result (unit levels leaves.now) }
{
    if levels == 0 {
        if at(
            &[
                TokenKind::NotWord,
                TokenKind::ParenOpen,
                TokenKind::ForallOtherWord,
            ],
            leaves,
        ) {
            return Err(Stop::At(ParseKind::P2, leaves.len()));
        }
        return side(alloc, leaves);
    }
    if at(&[TokenKind::NotWord], leaves) {
        negation(alloc, levels - 1, leaves)
    } else if at(&[TokenKind::ParenOpen], leaves) {
        group(alloc, levels - 1, leaves)
    } else if at(&[TokenKind::ForallOtherWord], leaves) {
        forall(alloc, levels - 1, leaves)
    } else {
        side(alloc, leaves)
    }
}

#[cycle(form)]
fn next_unit(
    alloc: Global,
    levels: u8,
    leaves: &[Leaf],
) -> Result<(Option<FormNode>, &[Leaf]), Stop>
    ensures { Gives (λ x. (x.0, x.1.now)) result (next_joined k.And (unit levels) leaves.now) }
{
    if !at(&[TokenKind::And], leaves) {
        return Ok((None, leaves));
    }
    let (_, rest) = word(TokenKind::And, leaves)?;
    let (found, rest) = unit(alloc, levels, rest)?;
    Ok((Some(found), rest))
}

#[cycle(form)]
fn units(alloc: Global, levels: u8, leaves: &[Leaf]) -> Result<(FormNodes, &[Leaf]), Stop>
    ensures { Gives (λ x. (x.0, x.1.now)) result (until (next_joined k.And (unit levels)) leaves.now) }
{
    let mut found = Items::new(alloc);
    let mut rest = leaves;
    for _ in 0..leaves.len() + 1 {
        let (next, behind) = next_unit(alloc, levels, rest)?;
        match next {
            None => return Ok((found, behind)),
            Some(item) => found.push(item)?,
        }
        rest = behind;
    }
    Err(Stop::At(ParseKind::P1, rest.len()))
}

#[cycle(form)]
#[tactic(auto, unfolding(crate::specs::Parsing::join_of))]
fn conj(alloc: Global, levels: u8, leaves: &[Leaf]) -> Result<(FormNode, &[Leaf]), Stop>
    ensures { Gives (λ x. (x.0, x.1.now)) result (conj_of (unit levels) leaves.now) }
{
    let (first, rest) = unit(alloc, levels, leaves)?;
    let (others, rest) = units(alloc, levels, rest)?;
    Ok((join_and(alloc, first, others)?, rest))
}

#[cycle(form)]
fn next_conj(
    alloc: Global,
    levels: u8,
    leaves: &[Leaf],
) -> Result<(Option<FormNode>, &[Leaf]), Stop>
    ensures { Gives (λ x. (x.0, x.1.now)) result (next_joined k.Or (conj_of (unit levels)) leaves.now) }
{
    if !at(&[TokenKind::Or], leaves) {
        return Ok((None, leaves));
    }
    let (_, rest) = word(TokenKind::Or, leaves)?;
    let (found, rest) = conj(alloc, levels, rest)?;
    Ok((Some(found), rest))
}

#[cycle(form)]
fn conjs(alloc: Global, levels: u8, leaves: &[Leaf]) -> Result<(FormNodes, &[Leaf]), Stop>
    ensures { Gives (λ x. (x.0, x.1.now)) result (until (next_joined k.Or (conj_of (unit levels))) leaves.now) }
{
    let mut found = Items::new(alloc);
    let mut rest = leaves;
    for _ in 0..leaves.len() + 1 {
        let (next, behind) = next_conj(alloc, levels, rest)?;
        match next {
            None => return Ok((found, behind)),
            Some(item) => found.push(item)?,
        }
        rest = behind;
    }
    Err(Stop::At(ParseKind::P1, rest.len()))
}

/// A formula within so many levels.
#[cycle(form)]
#[tactic(auto, unfolding(crate::specs::Parsing::join_of))]
pub fn formula(alloc: Global, levels: u8, leaves: &[Leaf]) -> Result<(FormNode, &[Leaf]), Stop>
    ensures { Gives (λ x. (x.0, x.1.now)) result (formula levels leaves.now) }
{
    let (first, rest) = conj(alloc, levels, leaves)?;
    let (others, rest) = conjs(alloc, levels, rest)?;
    Ok((join_or(alloc, first, others)?, rest))
}

/// Whether a formula may begin here.
pub fn at_formula(leaves: &[Leaf]) -> bool
    ensures { result ≡ heads formula_starts leaves.now }
{
    at(
        &[
            TokenKind::NotWord,
            TokenKind::ParenOpen,
            TokenKind::ForallOtherWord,
            TokenKind::Minus,
            TokenKind::Number,
            TokenKind::Name,
        ],
        leaves,
    )
}

/// A formula if one may begin here.
#[tactic(auto, unfolding(crate::specs::Parsing::formula_if_any))]
pub fn formula_if_any(
    alloc: Global,
    levels: u8,
    leaves: &[Leaf],
) -> Result<(Option<FormNode>, &[Leaf]), Stop>
    ensures { Gives (λ x. (x.0, x.1.now)) result (formula_if_any levels leaves.now) }
{
    if !at_formula(leaves) {
        return Ok((None, leaves));
    }
    let (found, rest) = formula(alloc, levels, leaves)?;
    Ok((Some(found), rest))
}
