//! Sums, their parts, and comparisons of two sums.

ghost use Rattle.std.specs.Prelude.{◌≡◌};
ghost use Rattle.cub_parse.specs.Parsing.{Gives, index, negative, plain, named, index_if_any, part, step, next_step, sum, until, comparison, comparison_if_any};

use crate::fault::{ParseKind, Stop};
use crate::tokens::{at, one_of, word};
use crate::tree::{Leaf, PartNode, SumNode, SumStep, SumSteps};
use cub_base::Items;
use cub_lexer::TokenKind;
use std::alloc::Global;

#[tactic(auto, unfolding(crate::specs::Parsing::index))]
fn index(leaves: &[Leaf]) -> Result<(Leaf, &[Leaf]), Stop>
    ensures { Gives (λ x. (x.0, x.1.now)) result (index leaves.now) }
{
    let (_, rest) = word(TokenKind::BracketOpen, leaves)?;
    let (name, rest) = word(TokenKind::Name, rest)?;
    let (_, rest) = word(TokenKind::BracketClose, rest)?;
    Ok((name, rest))
}

#[tactic(auto, unfolding(crate::specs::Parsing::index_if_any))]
pub fn index_if_any(leaves: &[Leaf]) -> Result<(Option<Leaf>, &[Leaf]), Stop>
    ensures { Gives (λ x. (x.0, x.1.now)) result (index_if_any leaves.now) }
{
    if !at(&[TokenKind::BracketOpen], leaves) {
        return Ok((None, leaves));
    }
    let (index, rest) = index(leaves)?;
    Ok((Some(index), rest))
}

#[tactic(auto, unfolding(crate::specs::Parsing::negative))]
fn negative(leaves: &[Leaf]) -> Result<(PartNode, &[Leaf]), Stop>
    ensures { Gives (λ x. (x.0, x.1.now)) result (negative leaves.now) }
{
    let (minus, rest) = word(TokenKind::Minus, leaves)?;
    let (number, rest) = word(TokenKind::Number, rest)?;
    let minus = Some(minus);
    Ok((PartNode::Number { minus, number }, rest))
}

#[tactic(auto, unfolding(crate::specs::Parsing::plain))]
fn plain(leaves: &[Leaf]) -> Result<(PartNode, &[Leaf]), Stop>
    ensures { Gives (λ x. (x.0, x.1.now)) result (plain leaves.now) }
{
    let (number, rest) = word(TokenKind::Number, leaves)?;
    let minus = None;
    Ok((PartNode::Number { minus, number }, rest))
}

#[tactic(auto, unfolding(crate::specs::Parsing::named))]
fn named(leaves: &[Leaf]) -> Result<(PartNode, &[Leaf]), Stop>
    ensures { Gives (λ x. (x.0, x.1.now)) result (named leaves.now) }
{
    let (name, rest) = word(TokenKind::Name, leaves)?;
    let (index, rest) = index_if_any(rest)?;
    Ok((PartNode::Named { name, index }, rest))
}

#[tactic(auto, unfolding(crate::specs::Parsing::part))]
fn part(leaves: &[Leaf]) -> Result<(PartNode, &[Leaf]), Stop>
    ensures { Gives (λ x. (x.0, x.1.now)) result (part leaves.now) }
{
    if at(&[TokenKind::Minus], leaves) {
        negative(leaves)
    } else if at(&[TokenKind::Number], leaves) {
        plain(leaves)
    } else {
        named(leaves)
    }
}

#[tactic(auto, unfolding(crate::specs::Parsing::step))]
fn step(leaves: &[Leaf]) -> Result<(SumStep, &[Leaf]), Stop>
    ensures { Gives (λ x. (x.0, x.1.now)) result (step leaves.now) }
{
    let (sign, rest) = one_of(
        &[TokenKind::Plus, TokenKind::Minus, TokenKind::Star],
        leaves,
    )?;
    let (part, rest) = part(rest)?;
    Ok((SumStep { sign, part }, rest))
}

#[tactic(auto, unfolding(crate::specs::Parsing::next_step))]
fn next_step(leaves: &[Leaf]) -> Result<(Option<SumStep>, &[Leaf]), Stop>
    ensures { Gives (λ x. (x.0, x.1.now)) result (next_step leaves.now) }
{
    if !at(
        &[TokenKind::Plus, TokenKind::Minus, TokenKind::Star],
        leaves,
    ) {
        return Ok((None, leaves));
    }
    let (step, rest) = step(leaves)?;
    Ok((Some(step), rest))
}

fn steps(alloc: Global, leaves: &[Leaf]) -> Result<(SumSteps, &[Leaf]), Stop>
    ensures { Gives (λ x. (x.0, x.1.now)) result (until next_step leaves.now) }
{
    let mut found = Items::new(alloc);
    let mut rest = leaves;
    for _ in 0..leaves.len() + 1 {
        let (next, behind) = next_step(rest)?;
        match next {
            None => return Ok((found, behind)),
            Some(item) => found.push(item)?,
        }
        rest = behind;
    }
    Err(Stop::At(ParseKind::P1, rest.len()))
}

#[tactic(auto, unfolding(crate::specs::Parsing::sum))]
pub fn sum(alloc: Global, leaves: &[Leaf]) -> Result<(SumNode, &[Leaf]), Stop>
    ensures { Gives (λ x. (x.0, x.1.now)) result (sum leaves.now) }
{
    let (first, rest) = part(leaves)?;
    let (steps, rest) = steps(alloc, rest)?;
    Ok((SumNode { first, steps }, rest))
}
