//! Updates: a target and its new value, or a list of branches. `case` branches and further updates are read by a loop
//! whose items begin with the separator, since one token must not decide what only the one behind it tells.

ghost use Rattle.std.specs.Prelude.{◌≡◌, ◌∷◌, IfOk};
ghost use Rattle.cub_parse.specs.Parsing.{Gives, any, right, case, next_case, cases, single, value, update_at, update_behind, next_update, updates, until};

use crate::fault::{ParseKind, Stop};
use crate::formulas::{at_formula, formula};
use crate::sums::{index_if_any, sum};
use crate::tokens::{at, word};
use crate::tree::{CaseNode, CaseNodes, Leaf, RightNode, UpdateNode, UpdateNodes};
use cub_base::Items;
use cub_lexer::TokenKind;
use std::alloc::{AllocError, Global};

#[tactic(auto, unfolding(crate::specs::Parsing::any))]
fn any(leaves: &[Leaf]) -> Result<(RightNode, &[Leaf]), Stop>
    ensures { Gives (λ x. (x.0, x.1.now)) result (any leaves.now) }
{
    let (mark, rest) = word(TokenKind::Question, leaves)?;
    Ok((RightNode::Any { mark }, rest))
}

#[tactic(auto, unfolding(crate::specs::Parsing::right))]
fn right(alloc: Global, leaves: &[Leaf]) -> Result<(RightNode, &[Leaf]), Stop>
    ensures { Gives (λ x. (x.0, x.1.now)) result (right leaves.now) }
{
    if at(&[TokenKind::Question], leaves) {
        return any(leaves);
    }
    let (sum, rest) = sum(alloc, leaves)?;
    Ok((RightNode::Sum(sum), rest))
}

#[tactic(auto, unfolding(crate::specs::Parsing::case))]
fn case(alloc: Global, levels: u8, leaves: &[Leaf]) -> Result<(CaseNode, &[Leaf]), Stop>
    ensures { Gives (λ x. (x.0, x.1.now)) result (case levels leaves.now) }
{
    let (cond, rest) = formula(alloc, levels, leaves)?;
    let (colon, rest) = word(TokenKind::Colon, rest)?;
    let (right, rest) = right(alloc, rest)?;
    Ok((CaseNode { cond, colon, right }, rest))
}

#[tactic(auto, unfolding(crate::specs::Parsing::next_case))]
fn next_case(
    alloc: Global,
    levels: u8,
    leaves: &[Leaf],
) -> Result<(Option<CaseNode>, &[Leaf]), Stop>
    ensures { Gives (λ x. (x.0, x.1.now)) result (next_case levels leaves.now) }
{
    let (_, rest) = word(TokenKind::Bar, leaves)?;
    if !at_formula(rest) {
        return Ok((None, rest));
    }
    let (found, rest) = case(alloc, levels, rest)?;
    Ok((Some(found), rest))
}

fn branches(alloc: Global, levels: u8, leaves: &[Leaf]) -> Result<(CaseNodes, &[Leaf]), Stop>
    ensures { Gives (λ x. (x.0, x.1.now)) result (until (next_case levels) leaves.now) }
{
    let mut found = Items::new(alloc);
    let mut rest = leaves;
    for _ in 0..leaves.len() + 1 {
        let (next, behind) = next_case(alloc, levels, rest)?;
        match next {
            None => return Ok((found, behind)),
            Some(item) => found.push(item)?,
        }
        rest = behind;
    }
    Err(Stop::At(ParseKind::P1, rest.len()))
}

#[tactic(auto, unfolding(crate::specs::Parsing::cases))]
fn cases(
    alloc: Global,
    levels: u8,
    leaves: &[Leaf],
) -> Result<((CaseNodes, Leaf, RightNode), &[Leaf]), Stop>
    ensures { Gives (λ x. (x.0, x.1.now)) result (cases levels leaves.now) }
{
    let (_, rest) = word(TokenKind::CaseWord, leaves)?;
    let (found, rest) = branches(alloc, levels, rest)?;
    let (_, rest) = word(TokenKind::Underscore, rest)?;
    let (colon, rest) = word(TokenKind::Colon, rest)?;
    let (right, rest) = right(alloc, rest)?;
    Ok(((found, colon, right), rest))
}

#[tactic(auto, unfolding(crate::specs::Parsing::single))]
fn single(
    alloc: Global,
    at: Leaf,
    leaves: &[Leaf],
) -> Result<((CaseNodes, Leaf, RightNode), &[Leaf]), Stop>
    ensures { Gives (λ x. (x.0, x.1.now)) result (single at leaves.now) }
{
    let (right, rest) = right(alloc, leaves)?;
    Ok(((Items::new(alloc), at, right), rest))
}

#[tactic(auto, unfolding(crate::specs::Parsing::value))]
fn value(
    alloc: Global,
    levels: u8,
    sign: Leaf,
    leaves: &[Leaf],
) -> Result<((CaseNodes, Leaf, RightNode), &[Leaf]), Stop>
    ensures { Gives (λ x. (x.0, x.1.now)) result (value levels sign leaves.now) }
{
    if at(&[TokenKind::CaseWord], leaves) {
        return cases(alloc, levels, leaves);
    }
    single(alloc, sign, leaves)
}

#[tactic(auto, unfolding(crate::specs::Parsing::update_at))]
fn update(alloc: Global, levels: u8, leaves: &[Leaf]) -> Result<(UpdateNode, &[Leaf]), Stop>
    ensures { Gives (λ x. (x.0, x.1.now)) result (update_at levels leaves.now) }
{
    let (name, rest) = word(TokenKind::Name, leaves)?;
    let (index, rest) = index_if_any(rest)?;
    let (sign, rest) = word(TokenKind::Assign, rest)?;
    let ((branches, at, last), rest) = value(alloc, levels, sign, rest)?;
    let node = UpdateNode {
        name,
        index,
        branches,
        at,
        last,
    };
    Ok((node, rest))
}

#[tactic(auto, unfolding(crate::specs::Parsing::update_behind))]
fn update_behind(
    alloc: Global,
    levels: u8,
    leaves: &[Leaf],
) -> Result<(Option<UpdateNode>, &[Leaf]), Stop>
    ensures { Gives (λ x. (x.0, x.1.now)) result (update_behind levels leaves.now) }
{
    let (_, rest) = word(TokenKind::Semicolon, leaves)?;
    if !at(&[TokenKind::Name], rest) {
        return Ok((None, rest));
    }
    let (found, rest) = update(alloc, levels, rest)?;
    Ok((Some(found), rest))
}

#[tactic(auto, unfolding(crate::specs::Parsing::next_update))]
fn next_update(
    alloc: Global,
    levels: u8,
    leaves: &[Leaf],
) -> Result<(Option<UpdateNode>, &[Leaf]), Stop>
    ensures { Gives (λ x. (x.0, x.1.now)) result (next_update levels leaves.now) }
{
    if !at(&[TokenKind::Semicolon], leaves) {
        return Ok((None, leaves));
    }
    update_behind(alloc, levels, leaves)
}

fn further_updates(
    alloc: Global,
    levels: u8,
    leaves: &[Leaf],
) -> Result<(UpdateNodes, &[Leaf]), Stop>
    ensures { Gives (λ x. (x.0, x.1.now)) result (until (next_update levels) leaves.now) }
{
    let mut found = Items::new(alloc);
    let mut rest = leaves;
    for _ in 0..leaves.len() + 1 {
        let (next, behind) = next_update(alloc, levels, rest)?;
        match next {
            None => return Ok((found, behind)),
            Some(item) => found.push(item)?,
        }
        rest = behind;
    }
    Err(Stop::At(ParseKind::P1, rest.len()))
}

fn with_first(
    alloc: Global,
    first: UpdateNode,
    others: UpdateNodes,
) -> Result<UpdateNodes, AllocError>
    ensures { IfOk result (λ all. all ≡ first ∷ others) }
{
    let mut all = Items::new(alloc);
    all.push(first)?;
    all.append(others)?;
    Ok(all)
}

#[tactic(auto, unfolding(crate::specs::Parsing::updates))]
pub fn updates(alloc: Global, levels: u8, leaves: &[Leaf]) -> Result<(UpdateNodes, &[Leaf]), Stop>
    ensures { Gives (λ x. (x.0, x.1.now)) result (updates levels leaves.now) }
{
    let (first, rest) = update(alloc, levels, leaves)?;
    let (others, rest) = further_updates(alloc, levels, rest)?;
    Ok((with_first(alloc, first, others)?, rest))
}
