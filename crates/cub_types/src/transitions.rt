//! Transitions: names, parameters, the guard with its universal guard, and the updates.

ghost use Rattle.std.specs.Prelude.{true, false, ◌≡◌, ◌+◌, ◌≤◌, ◌<◌, ◌++◌, ◌∷◌, [], length, map, flat_map, drop, take, Some, None, IfOk, OnOk, IsTrue, if◌then◌else◌, option_map};
ghost use Rattle.cub_dnf.specs.declared.formula.Formula.TheVariants as f;
ghost use Rattle.cub_names.specs.declared.scope.Local.{Local};
ghost use Rattle.cub_names.specs.Checked.{first_of_all, appended, in_front, both};
ghost use Rattle.cub_names.specs.Scope.{scope_fits};
ghost use Rattle.cub_types.specs.Typed.{AreTyped};
ghost use Rattle.cub_types.specs.Guards.{Split, nothing, whole};
ghost use Rattle.cub_types.specs.Joined.{updates_of, long_faults, targets};
ghost use Rattle.cub_types.specs.Typing.{conjoined, split_guard, split_lists, no_guard, guard_of, pair_of, transition_from, transition, listed, transition_at, transition_name, transition_name_faults, transitions_of};

use crate::bodies::normalized;
use crate::guards::{Parts, whole};
use crate::joined::{long_faults, targets, updates_of};
use crate::updating::{Updating, all_updates};
use cub_base::{Items, Memory, Name};
use cub_dnf::{Formula, Formulas};
use cub_names::{
    Fault, Local, Names, TypeKind, behind, forbidden, front, locals, repeated, tell_each,
    variable_faults,
};
use cub_parse::{BodyNode, FormNode, Leaf, RestNode, UpdateNode};
use cub_proto::{Conjs, Transition, Transitions};
use std::alloc::{AllocError, Global};

/// The normal form of conjuncts together, where all of them are known.
#[tactic(auto, using(crate::proofs::AllTyped::parts_are_typed))]
fn conjoined(
    names: &Names,
    width: u16,
    first: &mut Option<Fault>,
    token: u32,
    parts: Option<Formulas>,
) -> Result<Option<Conjs>, Memory>
    requires { AreTyped names.now.sig width parts }
    ensures value { IfOk result (λ list. list ≡ (conjoined names.now.sig token parts).value) }
    ensures first { OnOk result (first.new ≡ first_of_all first.old (conjoined names.now.sig token parts).faults) }
{
    match parts {
        Some(parts) => normalized(names, width, first, token, &Formula::All(parts)),
        None => Ok(None),
    }
}

/// The guard of a transition, and its universal guard.
#[derive(Debug, Drop)]
pub struct Guard {
    pub own: Conjs,
    pub others: Conjs,
}

fn no_parts(alloc: Global) -> Parts
    ensures own { result.own ≡ Some [] }
    ensures others { result.others ≡ Some [] }
{
    Parts {
        own: Some(Items::new(alloc)),
        others: Some(Items::new(alloc)),
    }
}

fn split_guard(
    alloc: Global,
    names: &Names,
    params: u8,
    scope: &[Local],
    first: &mut Option<Fault>,
    formula: &Option<FormNode>,
) -> Result<Parts, AllocError>
    ensures own { IfOk result (λ p. p.own ≡ (split_guard names.now params scope.now formula.now).own) }
    ensures others { IfOk result (λ p. p.others ≡ (split_guard names.now params scope.now formula.now).others) }
    ensures first { OnOk result (first.new ≡ first_of_all first.old (split_guard names.now params scope.now formula.now).faults) }
{
    match formula {
        Some(node) => whole(alloc, names, params, 64, scope, first, node),
        None => Ok(no_parts(alloc)),
    }
}

fn one_empty(alloc: Global) -> Result<Conjs, AllocError>
    ensures { IfOk result (λ list. list ≡ [] ∷ []) }
{
    let mut list = Items::new(alloc);
    list.push(Items::new(alloc))?;
    Ok(list)
}

fn no_guard(alloc: Global) -> Result<Guard, AllocError>
    ensures own { IfOk result (λ g. g.own ≡ [] ∷ []) }
    ensures others { IfOk result (λ g. g.others ≡ [] ∷ []) }
{
    let own = one_empty(alloc)?;
    let others = one_empty(alloc)?;
    Ok(Guard { own, others })
}

fn split_lists(
    names: &Names,
    params: u8,
    first: &mut Option<Fault>,
    token: u32,
    parts: Parts,
) -> Result<Option<Guard>, Memory>
    requires own { AreTyped names.now.sig params parts.own }
    requires others { AreTyped names.now.sig (params + 1) parts.others }
    ensures value { IfOk result (λ g. option_map pair_of g ≡ (both (conjoined names.now.sig token parts.own) (conjoined names.now.sig token parts.others)).value) }
    ensures first { OnOk result (first.new ≡ first_of_all first.old (both (conjoined names.now.sig token parts.own) (conjoined names.now.sig token parts.others)).faults) }
{
    let Parts { own, others } = parts;
    let width = u16::from(params);
    let own = conjoined(names, width, first, token, own)?;
    let others = conjoined(names, width + 1, first, token, others)?;
    match (own, others) {
        (Some(own), Some(others)) => Ok(Some(Guard { own, others })),
        _ => Ok(None),
    }
}

#[tactic(auto, using(crate::proofs::AllTyped::own_are_typed, crate::proofs::AllTyped::others_are_typed))]
fn guard_of(
    alloc: Global,
    names: &Names,
    params: u8,
    scope: &[Local],
    first: &mut Option<Fault>,
    guard: &Option<BodyNode>,
) -> Result<Option<Guard>, Memory>
    requires { IsTrue (scope_fits params scope.now) }
    ensures value { IfOk result (λ g. option_map pair_of g ≡ (guard_of names.now params scope.now guard.now).value) }
    ensures first { OnOk result (first.new ≡ first_of_all first.old (guard_of names.now params scope.now guard.now).faults) }
{
    match guard {
        Some(body) => {
            let parts = split_guard(alloc, names, params, scope, first, &body.formula)?;
            split_lists(names, params, first, body.close.number, parts)
        }
        None => Ok(Some(no_guard(alloc)?)),
    }
}

fn transition_from(
    alloc: Global,
    names: &Names,
    params: u8,
    name: &Leaf,
    first: &mut Option<Fault>,
    u: &Updating,
    guard: Option<Guard>,
) -> Result<Option<Transition>, AllocError>
    ensures value { IfOk result (λ found. found ≡ transition_from names.now params name.now u.now (option_map pair_of guard)) }
    ensures first { OnOk result (first.new ≡ first_of_all first.old (long_faults params u.now.kept (targets names.now.sig))) }
{
    let all = targets(alloc, names)?;
    long_faults(first, params, u.kept.as_slice(), all.as_slice());
    match guard {
        Some(Guard { own, others }) => {
            if !u.whole {
                return Ok(None);
            }
            let updates = updates_of(alloc, params, u.kept.as_slice(), all.as_slice())?;
            let name = Name::from_slice(alloc, names.word(name))?;
            Ok(Some(Transition {
                name,
                params,
                guard: own,
                others,
                updates,
            }))
        }
        None => Ok(None),
    }
}

fn transition(
    alloc: Global,
    names: &Names,
    first: &mut Option<Fault>,
    name: &Leaf,
    leaves: &[Leaf],
    guard: &Option<BodyNode>,
    updates: &[UpdateNode],
) -> Result<Option<Transition>, Memory>
    ensures value { IfOk result (λ found. found ≡ (transition names.now name.now leaves.now guard.now updates.now).value) }
    ensures first { OnOk result (first.new ≡ first_of_all first.old (transition names.now name.now leaves.now guard.now updates.now).faults) }
{
    let scope = locals(alloc, 3, leaves)?;
    let params = front(3, leaves).len() as u8;
    variable_faults(alloc, names, 3, leaves, first)?;
    let guard = guard_of(alloc, names, params, scope.as_slice(), first, guard)?;
    let u = all_updates(alloc, names, scope.as_slice(), params, first, updates)?;
    Ok(transition_from(alloc, names, params, name, first, &u, guard)?)
}

fn pushed(
    found: Option<Transitions>,
    next: Option<Transition>,
) -> Result<Option<Transitions>, AllocError>
    ensures { IfOk result (λ all. all ≡ appended found (in_front next (Some []))) }
{
    match (found, next) {
        (Some(mut all), Some(one)) => {
            all.push(one)?;
            Ok(Some(all))
        }
        _ => Ok(None),
    }
}

fn with_transition(
    alloc: Global,
    names: &Names,
    first: &mut Option<Fault>,
    found: Option<Transitions>,
    name: &Leaf,
    leaves: &[Leaf],
    guard: &Option<BodyNode>,
    updates: &[UpdateNode],
) -> Result<Option<Transitions>, Memory>
    ensures value { IfOk result (λ all. all ≡ appended found (listed (transition names.now name.now leaves.now guard.now updates.now)).value) }
    ensures first { OnOk result (first.new ≡ first_of_all first.old (listed (transition names.now name.now leaves.now guard.now updates.now)).faults) }
{
    let next = transition(alloc, names, first, name, leaves, guard, updates)?;
    Ok(pushed(found, next)?)
}

fn with_rest(
    alloc: Global,
    names: &Names,
    first: &mut Option<Fault>,
    found: Option<Transitions>,
    rest: &RestNode,
) -> Result<Option<Transitions>, Memory>
    ensures value { IfOk result (λ all. all ≡ appended found (transition_at names.now rest.now).value) }
    ensures first { OnOk result (first.new ≡ first_of_all first.old (transition_at names.now rest.now).faults) }
{
    match rest {
        RestNode::Transition {
            name,
            names: leaves,
            guard,
            updates,
        } => {
            let leaves = leaves.as_slice();
            with_transition(
                alloc,
                names,
                first,
                found,
                name,
                leaves,
                guard,
                updates.as_slice(),
            )
        }
        RestNode::Unsafe(_) | RestNode::Invariant { .. } => Ok(found),
    }
}

/// All transitions.
#[tactic(auto, using(crate::proofs::Fronts::fronts))]
pub fn all_transitions(
    alloc: Global,
    names: &Names,
    first: &mut Option<Fault>,
    rests: &[RestNode],
) -> Result<Option<Transitions>, Memory>
    ensures value { IfOk result (λ all. all ≡ (transitions_of names.now rests.now).value) }
    ensures first { OnOk result (first.new ≡ first_of_all first.old (transitions_of names.now rests.now).faults) }
{
    let mut found = Some(Items::new(alloc));
    for rest in rests {
        found = with_rest(alloc, names, first, found, rest)?;
    }
    Ok(found)
}

fn transition_names(alloc: Global, rests: &[RestNode]) -> Result<Vec<Leaf>, AllocError>
    ensures { IfOk result (λ found. found.items ≡ flat_map transition_name rests.now) }
{
    let mut found = Vec::new(alloc);
    for rest in rests {
        match rest {
            RestNode::Transition { name, .. } => found.push(*name)?,
            RestNode::Unsafe(_) | RestNode::Invariant { .. } => {}
        }
    }
    Ok(found)
}

/// Tells the faults of the names of transitions.
pub fn name_faults(
    alloc: Global,
    names: &Names,
    first: &mut Option<Fault>,
    rests: &[RestNode],
) -> Result<(), AllocError>
    ensures { OnOk result (first.new ≡ first_of_all first.old (transition_name_faults names.now (flat_map transition_name rests.now))) }
{
    let found = transition_names(alloc, rests)?;
    let leaves = found.as_slice();
    tell_each(
        first,
        TypeKind::T18,
        forbidden(alloc, names.text(), leaves)?.as_slice(),
    );
    let taken: [&[u8]; 0] = [];
    tell_each(
        first,
        TypeKind::T02,
        repeated(alloc, names.text(), &taken, leaves)?.as_slice(),
    );
    tell_each(first, TypeKind::T16, behind(256, leaves));
    Ok(())
}
