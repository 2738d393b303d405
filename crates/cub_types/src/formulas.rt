//! Formulas over the tree. Each part is looked at, so that each fault is found; a formula is there where each part is.

ghost use Rattle.std.specs.Prelude.{true, false, ◌≡◌, ◌++◌, ◌∷◌, [], map, Some, IfOk, OnOk, IfSome, IsTrue};
ghost use Rattle.std.specs.Prelude.{option_map};
ghost use Rattle.cub_dnf.specs.declared.formula.Formula.TheVariants as f;
ghost use Rattle.cub_names.specs.Checked.{first_of_all, each, in_front};
ghost use Rattle.cub_names.specs.Checked.{appended};
ghost use Rattle.cub_types.specs.Formulas.{form, first_token, side_alone, related};

use crate::relations::{alone, compared};
use cub_base::{Boxed, Items};
use cub_dnf::{Formula, Formulas};
use cub_names::{Fault, Local, Names, TypeKind, sum_side, tell};
use cub_parse::{FormNode, Leaf, PartNode, SumNode};
use std::alloc::{AllocError, Global};

fn first_token(sum: &SumNode) -> u32
    ensures { result ≡ first_token sum.now }
{
    match sum.first {
        PartNode::Number { minus, number } => match minus {
            Some(minus) => minus.number,
            None => number.number,
        },
        PartNode::Named { name, index: _ } => name.number,
    }
}

fn side_alone(
    names: &Names,
    scope: &[Local],
    first: &mut Option<Fault>,
    sum: &SumNode,
) -> Option<Formula>
    ensures value { result ≡ (side_alone names.now scope.now sum.now).value }
    ensures first { first.new ≡ first_of_all first.old (side_alone names.now scope.now sum.now).faults }
{
    match sum_side(names, scope, first, sum) {
        Some(a) => alone(first, first_token(sum), a),
        None => None,
    }
}

fn relation(
    alloc: Global,
    names: &Names,
    init: bool,
    scope: &[Local],
    first: &mut Option<Fault>,
    a: &SumNode,
    sign: &Leaf,
    b: &SumNode,
) -> Result<Option<Formula>, AllocError>
    ensures value { IfOk result (λ formula. formula ≡ (related names.now scope.now init a.now sign.now b.now).value) }
    ensures first { OnOk result (first.new ≡ first_of_all first.old (related names.now scope.now init a.now sign.now b.now).faults) }
{
    let left = sum_side(names, scope, first, a);
    let right = sum_side(names, scope, first, b);
    match (left, right) {
        (Some(a), Some(b)) => compared(alloc, first, init, sign.number, sign.token.kind, a, b),
        _ => Ok(None),
    }
}

fn pushed(found: Option<Formulas>, next: Option<Formula>) -> Result<Option<Formulas>, AllocError>
    ensures { IfOk result (λ formulas. formulas ≡ appended found (in_front next (Some []))) }
{
    match (found, next) {
        (Some(mut formulas), Some(formula)) => {
            formulas.push(formula)?;
            Ok(Some(formulas))
        }
        _ => Ok(None),
    }
}

fn negation(alloc: Global, part: Option<Formula>) -> Result<Option<Formula>, AllocError>
    ensures { IfOk result (λ formula. formula ≡ option_map f.Not part) }
{
    match part {
        Some(part) => Ok(Some(Formula::Not(Boxed::new(alloc, part)?))),
        None => Ok(None),
    }
}

/// The formula of a node, in which no `forall_other` is allowed.
#[cycle(form)]
pub fn typed_form(
    alloc: Global,
    names: &Names,
    init: bool,
    scope: &[Local],
    first: &mut Option<Fault>,
    node: &FormNode,
) -> Result<Option<Formula>, AllocError>
    ensures value { IfOk result (λ formula. formula ≡ (form init names.now scope.now node.now).value) }
    ensures first { OnOk result (first.new ≡ first_of_all first.old (form init names.now scope.now node.now).faults) }
{
    match node {
        FormNode::Or(nodes) => {
            let found = typed_forms(alloc, names, init, scope, first, nodes.as_slice())?;
            Ok(found.map(Formula::Any))
        }
        FormNode::And(nodes) => {
            let found = typed_forms(alloc, names, init, scope, first, nodes.as_slice())?;
            Ok(found.map(Formula::All))
        }
        FormNode::Not(node) => {
            let part = typed_form(alloc, names, init, scope, first, node.get())?;
            negation(alloc, part)
        }
        FormNode::Group(node) => typed_form(alloc, names, init, scope, first, node.get()),
        FormNode::Forall { word, .. } => {
            tell(first, word.number, TypeKind::T10);
            Ok(None)
        }
        FormNode::Side(sum) => Ok(side_alone(names, scope, first, sum)),
        FormNode::Rel { a, sign, b } => relation(alloc, names, init, scope, first, a, sign, b),
    }
}

#[cycle(form)]
#[tactic(auto, using(crate::proofs::Fronts::fronts))]
fn typed_forms(
    alloc: Global,
    names: &Names,
    init: bool,
    scope: &[Local],
    first: &mut Option<Fault>,
    nodes: &[FormNode],
) -> Result<Option<Formulas>, AllocError>
    ensures value { IfOk result (λ formulas. formulas ≡ (each (map (form init names.now scope.now) nodes.now)).value) }
    ensures first { OnOk result (first.new ≡ first_of_all first.old (each (map (form init names.now scope.now) nodes.now)).faults) }
{
    let mut found = Some(Items::new(alloc));
    for node in nodes {
        let next = typed_form(alloc, names, init, scope, first, node)?;
        found = pushed(found, next)?;
    }
    Ok(found)
}
