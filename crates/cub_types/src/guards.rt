//! Guards: the conjuncts of a `requires`, and those of its `forall_other`s, which reach as far as they can and so form a
//! chain. Each of the two lists is known where all of its conjuncts are.

ghost use Rattle.std.specs.Prelude.{true, false, ◌≡◌, ◌||◌, ◌++◌, ◌∷◌, [], map, drop, Some, IfOk, OnOk, if◌then◌else◌};
ghost use Rattle.cub_names.specs.Checked.{first_of_all, fault, in_front};
ghost use Rattle.cub_names.specs.Words.{word_of};
ghost use Rattle.cub_names.specs.Scope.{is_value, place_of};
ghost use Rattle.cub_names.specs.declared.fault.TypeKind.TheVariants as t;
ghost use Rattle.cub_types.specs.Formulas.{form};
ghost use Rattle.cub_names.specs.Checked.{appended};
ghost use Rattle.cub_types.specs.Guards.{Split, nothing, beside, all_beside, own_conjunct, is_other_place, variable_faults, universal, local, whole_of, conjunct_of, conjunct, split_below, whole};
ghost use Rattle.cub_parse.specs.declared.tree.FormNode.TheViews.{out-FormNode};

use crate::formulas::typed_form;
use cub_base::Items;
use cub_dnf::{Formula, Formulas};
use cub_names::{Fault, Local, Names, Scope, TypeKind, is_value, place_of, tell};
use cub_parse::{FormNode, Leaf};
use std::alloc::{AllocError, Global};

/// The conjuncts of a guard, and those of its universal guard, each list where all of its parts are known.
#[derive(Debug, Drop)]
pub struct Parts {
    pub own: Option<Formulas>,
    pub others: Option<Formulas>,
}

fn nothing(alloc: Global) -> Parts
    ensures own { result.own ≡ Some [] }
    ensures others { result.others ≡ Some [] }
{
    Parts {
        own: Some(Items::new(alloc)),
        others: Some(Items::new(alloc)),
    }
}

fn appended(left: Option<Formulas>, right: Option<Formulas>) -> Result<Option<Formulas>, AllocError>
    ensures { IfOk result (λ formulas. formulas ≡ appended left right) }
{
    match (left, right) {
        (Some(mut left), Some(right)) => {
            left.append(right)?;
            Ok(Some(left))
        }
        _ => Ok(None),
    }
}

fn beside(left: Parts, right: Parts) -> Result<Parts, AllocError>
    ensures own { IfOk result (λ p. p.own ≡ appended left.own right.own) }
    ensures others { IfOk result (λ p. p.others ≡ appended left.others right.others) }
{
    let own = appended(left.own, right.own)?;
    let others = appended(left.others, right.others)?;
    Ok(Parts { own, others })
}

fn one(alloc: Global, formula: Option<Formula>) -> Result<Option<Formulas>, AllocError>
    ensures { IfOk result (λ formulas. formulas ≡ in_front formula (Some [])) }
{
    match formula {
        Some(formula) => {
            let mut formulas = Items::new(alloc);
            formulas.push(formula)?;
            Ok(Some(formulas))
        }
        None => Ok(None),
    }
}

fn own_conjunct(
    alloc: Global,
    names: &Names,
    scope: &[Local],
    first: &mut Option<Fault>,
    node: &FormNode,
) -> Result<Parts, AllocError>
    ensures own { IfOk result (λ p. p.own ≡ (own_conjunct (form false names.now scope.now node.now)).own) }
    ensures others { IfOk result (λ p. p.others ≡ Some []) }
    ensures first { OnOk result (first.new ≡ first_of_all first.old (form false names.now scope.now node.now).faults) }
{
    let formula = typed_form(alloc, names, false, scope, first, node)?;
    let own = one(alloc, formula)?;
    let others = Some(Items::new(alloc));
    Ok(Parts { own, others })
}

fn is_other_place(place: u8, found: Option<u8>) -> bool
    ensures { result ≡ is_other_place place found }
{
    match found {
        Some(other) => other != place,
        None => false,
    }
}

fn is_taken(names: &Names, place: u8, scope: &[Local], name: &Leaf) -> bool
    ensures { result ≡ (is_value names.now name.now || is_other_place place (place_of names.now.text scope.now (word_of names.now.text name.now))) }
{
    is_value(names, name) || is_other_place(place, place_of(names.text(), scope, names.word(name)))
}

fn variable_faults(
    names: &Names,
    place: u8,
    scope: &[Local],
    first: &mut Option<Fault>,
    name: &Leaf,
)
    ensures { first.new ≡ first_of_all first.old (variable_faults names.now place scope.now name.now) }
{
    if is_taken(names, place, scope, name) {
        tell(first, name.number, TypeKind::T02);
    }
}

fn wider(alloc: Global, scope: &[Local], name: &Leaf, place: u8) -> Result<Scope, AllocError>
    ensures { IfOk result (λ wide. wide ≡ scope.now ++ local name.now place ∷ []) }
{
    let mut wide = Items::from_slice(alloc, scope)?;
    wide.push(Local { name: *name, place })?;
    Ok(wide)
}

/// The parts of a `forall_other` as those of the guard that it stands in.
fn universal(alloc: Global, parts: Parts) -> Result<Parts, AllocError>
    ensures own { IfOk result (λ p. p.own ≡ Some []) }
    ensures others { IfOk result (λ p. p.others ≡ appended parts.own parts.others) }
{
    let others = appended(parts.own, parts.others)?;
    let own = Some(Items::new(alloc));
    Ok(Parts { own, others })
}

#[cycle(guard)]
#[tactic(auto, using(crate::proofs::Deeper::conjunct_step))]
fn conjunct(
    alloc: Global,
    names: &Names,
    place: u8,
    levels: u8,
    scope: &[Local],
    first: &mut Option<Fault>,
    node: &FormNode,
) -> Result<Parts, AllocError>
    ensures own { IfOk result (λ p. p.own ≡ (conjunct names.now place levels scope.now node.now).own) }
    ensures others { IfOk result (λ p. p.others ≡ (conjunct names.now place levels scope.now node.now).others) }
    ensures first { OnOk result (first.new ≡ first_of_all first.old (conjunct names.now place levels scope.now node.now).faults) }
{
    if levels == 0 {
        return own_conjunct(alloc, names, scope, first, node);
    }
    deeper(alloc, names, place, levels - 1, scope, first, node)
}

#[cycle(guard)]
#[tactic(auto, using(crate::proofs::Layers::layers))]
fn deeper(
    alloc: Global,
    names: &Names,
    place: u8,
    below: u8,
    scope: &[Local],
    first: &mut Option<Fault>,
    node: &FormNode,
) -> Result<Parts, AllocError>
    ensures own { IfOk result (λ p. p.own ≡ (split_below names.now place below scope.now node.now).own) }
    ensures others { IfOk result (λ p. p.others ≡ (split_below names.now place below scope.now node.now).others) }
    ensures first { OnOk result (first.new ≡ first_of_all first.old (split_below names.now place below scope.now node.now).faults) }
{
    match node {
        FormNode::Forall {
            word: _,
            name,
            body,
        } => {
            variable_faults(names, place, scope, first, name);
            let wide = wider(alloc, scope, name, place)?;
            let parts = whole(
                alloc,
                names,
                place,
                below,
                wide.as_slice(),
                first,
                body.get(),
            )?;
            universal(alloc, parts)
        }
        FormNode::Or(_) => own_conjunct(alloc, names, scope, first, node),
        FormNode::And(_) => own_conjunct(alloc, names, scope, first, node),
        FormNode::Not(_) => own_conjunct(alloc, names, scope, first, node),
        FormNode::Group(_) => own_conjunct(alloc, names, scope, first, node),
        FormNode::Side(_) => own_conjunct(alloc, names, scope, first, node),
        FormNode::Rel { .. } => own_conjunct(alloc, names, scope, first, node),
    }
}

/// The conjuncts of a guard. The place is that of the variable of the universal guard.
#[cycle(guard)]
#[tactic(auto, using(crate::proofs::Layers::layers))]
pub fn whole(
    alloc: Global,
    names: &Names,
    place: u8,
    levels: u8,
    scope: &[Local],
    first: &mut Option<Fault>,
    node: &FormNode,
) -> Result<Parts, AllocError>
    ensures own { IfOk result (λ p. p.own ≡ (whole names.now place levels scope.now node.now).own) }
    ensures others { IfOk result (λ p. p.others ≡ (whole names.now place levels scope.now node.now).others) }
    ensures first { OnOk result (first.new ≡ first_of_all first.old (whole names.now place levels scope.now node.now).faults) }
{
    match node {
        FormNode::And(nodes) => {
            conjuncts(alloc, names, place, levels, scope, first, nodes.as_slice())
        }
        FormNode::Or(_) => conjunct(alloc, names, place, levels, scope, first, node),
        FormNode::Not(_) => conjunct(alloc, names, place, levels, scope, first, node),
        FormNode::Group(_) => conjunct(alloc, names, place, levels, scope, first, node),
        FormNode::Forall { .. } => conjunct(alloc, names, place, levels, scope, first, node),
        FormNode::Side(_) => conjunct(alloc, names, place, levels, scope, first, node),
        FormNode::Rel { .. } => conjunct(alloc, names, place, levels, scope, first, node),
    }
}

#[cycle(guard)]
#[tactic(auto, using(crate::proofs::Fronts::fronts))]
fn conjuncts(
    alloc: Global,
    names: &Names,
    place: u8,
    levels: u8,
    scope: &[Local],
    first: &mut Option<Fault>,
    nodes: &[FormNode],
) -> Result<Parts, AllocError>
    ensures own { IfOk result (λ p. p.own ≡ (all_beside (map (conjunct names.now place levels scope.now) nodes.now)).own) }
    ensures others { IfOk result (λ p. p.others ≡ (all_beside (map (conjunct names.now place levels scope.now) nodes.now)).others) }
    ensures first { OnOk result (first.new ≡ first_of_all first.old (all_beside (map (conjunct names.now place levels scope.now) nodes.now)).faults) }
{
    let mut found = nothing(alloc);
    for node in nodes {
        let next = conjunct(alloc, names, place, levels, scope, first, node)?;
        found = beside(found, next)?;
    }
    Ok(found)
}
