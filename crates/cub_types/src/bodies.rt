//! Normal forms, the start formula and the goals. Lengths are counted without building a list, so that a formula whose
//! normal form is far above the limits costs no more than its text.

ghost use Rattle.std.specs.Prelude.{true, false, ◌≡◌, ◌+◌, ◌≤◌, ◌<◌, ◌++◌, ◌∷◌, [], min, length, map, take, drop, nat_lt, Some, None, IfOk, OnOk, option_map, if◌then◌else◌};
ghost use Rattle.cub_dnf.specs.declared.formula.Formula.TheVariants as f;
ghost use Rattle.cub_dnf.specs.Lists.{list_of};
ghost use Rattle.cub_dnf.specs.Normal.{IsNormal};
ghost use Rattle.cub_names.specs.declared.fault.TypeKind.TheVariants as t;
ghost use Rattle.cub_names.specs.Checked.{first_of_all, appended, fault};
ghost use Rattle.cub_types.specs.Typed.{IsTyped};
ghost use Rattle.cub_types.specs.Bodies.{normalized, body_form, start_tests, start, turned, goal_form, goal, counted, goal_tests, length_of, goals_of, total_behind, goals_at, total_at, goals_from};

use crate::formulas::typed_form;
use cub_base::{Boxed, Items, Memory};
use cub_dnf::{DnfFault, Formula, count, normal};
use cub_names::{Fault, Local, Names, TypeKind, front, locals, tell, variable_faults};
use cub_parse::{BodyNode, FormNode, RestNode};
use cub_proto::{Conjs, Goal, Goals, Lits};
use std::alloc::{AllocError, Global};

/// The normal form. The width is one above all places of the formula.
fn normal_list(names: &Names, width: u16, formula: &Formula) -> Result<Conjs, DnfFault>
    requires { IsTyped names.now.sig width formula.now }
    ensures { IsNormal result (list_of names.now.sig true formula.now) }
{
    normal(names.base(), width, formula)
}

/// The normal form, tested against its limits.
pub fn normalized(
    names: &Names,
    width: u16,
    first: &mut Option<Fault>,
    token: u32,
    formula: &Formula,
) -> Result<Option<Conjs>, Memory>
    requires { IsTyped names.now.sig width formula.now }
    ensures value { IfOk result (λ list. list ≡ (normalized names.now.sig token formula.now).value) }
    ensures first { OnOk result (first.new ≡ first_of_all first.old (normalized names.now.sig token formula.now).faults) }
{
    match normal_list(names, width, formula) {
        Ok(list) => Ok(Some(list)),
        Err(DnfFault::TooMany) => {
            tell(first, token, TypeKind::T17);
            Ok(None)
        }
        Err(DnfFault::TooWide) => {
            tell(first, token, TypeKind::T17);
            Ok(None)
        }
        Err(DnfFault::Memory) => Err(Memory),
    }
}

/// The formula of a body; an absent one is `True`.
pub fn body_form(
    alloc: Global,
    names: &Names,
    init: bool,
    scope: &[Local],
    first: &mut Option<Fault>,
    formula: &Option<FormNode>,
) -> Result<Option<Formula>, AllocError>
    ensures value { IfOk result (λ found. found ≡ (body_form init names.now scope.now formula.now).value) }
    ensures first { OnOk result (first.new ≡ first_of_all first.old (body_form init names.now scope.now formula.now).faults) }
{
    match formula {
        Some(node) => typed_form(alloc, names, init, scope, first, node),
        None => Ok(Some(Formula::Const(true))),
    }
}

fn exact_length(names: &Names, formula: &Formula) -> u32
    ensures value { result ≡ min 4097 (length (list_of names.now.sig true formula.now)) }
    ensures small { result ≤ 4097 }
{
    let _base = names.base();
    count(formula, true)
}

fn tell_several(names: &Names, first: &mut Option<Fault>, token: u32, formula: &Formula)
    ensures { first.new ≡ first_of_all first.old (if nat_lt 1 (length (list_of names.now.sig true formula.now)) then fault token t.T14 ∷ [] else []) }
{
    if exact_length(names, formula) > 1 {
        tell(first, token, TypeKind::T14);
    }
}

fn start_tests(
    names: &Names,
    first: &mut Option<Fault>,
    token: u32,
    formula: &Formula,
) -> Result<Option<Conjs>, Memory>
    requires { IsTyped names.now.sig 1 formula.now }
    ensures value { IfOk result (λ list. list ≡ (start_tests names.now.sig token formula.now).value) }
    ensures first { OnOk result (first.new ≡ first_of_all first.old (start_tests names.now.sig token formula.now).faults) }
{
    tell_several(names, first, token, formula);
    normalized(names, 1, first, token, formula)
}

/// The start formula.
#[tactic(auto, using(crate::proofs::AllTyped::start_is_typed))]
pub fn start(
    alloc: Global,
    names: &Names,
    first: &mut Option<Fault>,
    body: &BodyNode,
) -> Result<Option<Conjs>, Memory>
    ensures value { IfOk result (λ list. list ≡ (start names.now body.now).value) }
    ensures first { OnOk result (first.new ≡ first_of_all first.old (start names.now body.now).faults) }
{
    let leaves = body.names.as_slice();
    variable_faults(alloc, names, 1, leaves, first)?;
    let scope = locals(alloc, 1, leaves)?;
    match body_form(alloc, names, true, scope.as_slice(), first, &body.formula)? {
        Some(formula) => start_tests(names, first, body.close.number, &formula),
        None => Ok(None),
    }
}

fn negation(alloc: Global, part: Option<Formula>) -> Result<Option<Formula>, AllocError>
    ensures { IfOk result (λ formula. formula ≡ option_map f.Not part) }
{
    match part {
        Some(part) => Ok(Some(Formula::Not(Boxed::new(alloc, part)?))),
        None => Ok(None),
    }
}

fn turned(
    alloc: Global,
    negated: bool,
    part: Option<Formula>,
) -> Result<Option<Formula>, AllocError>
    ensures { IfOk result (λ formula. formula ≡ turned negated part) }
{
    if negated {
        return negation(alloc, part);
    }
    Ok(part)
}

fn goal_form(
    alloc: Global,
    names: &Names,
    negated: bool,
    first: &mut Option<Fault>,
    body: &BodyNode,
) -> Result<Option<Formula>, AllocError>
    ensures value { IfOk result (λ found. found ≡ (goal_form negated names.now body.now).value) }
    ensures first { OnOk result (first.new ≡ first_of_all first.old (goal_form negated names.now body.now).faults) }
{
    let scope = locals(alloc, 4, body.names.as_slice())?;
    let found = body_form(alloc, names, false, scope.as_slice(), first, &body.formula)?;
    turned(alloc, negated, found)
}

fn goal_list(alloc: Global, width: u8, list: Conjs) -> Result<Goals, AllocError>
    ensures { IfOk result (λ goals. goals ≡ map (goal width) list) }
{
    let mut goals = Items::with_room(alloc, list.len())?;
    for lits in list.into_vec() {
        goals.push(Goal { width, lits })?;
    }
    Ok(goals)
}

fn goals_in(alloc: Global, width: u8, list: Option<Conjs>) -> Result<Option<Goals>, AllocError>
    ensures { IfOk result (λ goals. goals ≡ option_map (map (goal width)) list) }
{
    match list {
        Some(list) => Ok(Some(goal_list(alloc, width, list)?)),
        None => Ok(None),
    }
}

fn goal_tests(
    alloc: Global,
    names: &Names,
    width: u8,
    first: &mut Option<Fault>,
    token: u32,
    total: u32,
    formula: &Formula,
) -> Result<Option<Goals>, Memory>
    requires { IsTyped names.now.sig width formula.now }
    ensures value { IfOk result (λ goals. goals ≡ (goal_tests names.now.sig width token total formula.now).value) }
    ensures first { OnOk result (first.new ≡ first_of_all first.old (goal_tests names.now.sig width token total formula.now).faults) }
{
    if total > 4096 {
        tell(first, token, TypeKind::T16);
    }
    let list = normalized(names, u16::from(width), first, token, formula)?;
    Ok(goals_in(alloc, width, list)?)
}

fn count_with(names: &Names, total: u32, formula: &Formula) -> u32
    requires { total ≤ 4097 }
    ensures value { result ≡ counted total (length (list_of names.now.sig true formula.now)) }
    ensures small { result ≤ 4097 }
{
    (total + exact_length(names, formula)).min(4097)
}

/// Goals, and how many conjunctions there are with them.
#[derive(Debug, Drop)]
pub struct Counted {
    pub goals: Option<Goals>,
    pub total: u32,
}

fn no_goals(total: u32) -> Counted
    ensures { result ≡ record { goals = None; total = total } }
{
    Counted { goals: None, total }
}

#[tactic(auto, using(crate::proofs::AllTyped::goal_is_typed))]
fn goals_of(
    alloc: Global,
    names: &Names,
    negated: bool,
    total: u32,
    first: &mut Option<Fault>,
    body: &BodyNode,
) -> Result<Counted, Memory>
    requires { total ≤ 4097 }
    ensures goals { IfOk result (λ c. c.goals ≡ (goals_of negated names.now total body.now).value) }
    ensures total { IfOk result (λ c. c.total ≡ total_behind negated names.now total body.now) }
    ensures small { IfOk result (λ c. c.total ≤ 4097) }
    ensures first { OnOk result (first.new ≡ first_of_all first.old (goals_of negated names.now total body.now).faults) }
{
    let leaves = body.names.as_slice();
    variable_faults(alloc, names, 4, leaves, first)?;
    match goal_form(alloc, names, negated, first, body)? {
        Some(formula) => {
            let total = count_with(names, total, &formula);
            let width = front(4, leaves).len() as u8;
            let token = body.close.number;
            let goals = goal_tests(alloc, names, width, first, token, total, &formula)?;
            Ok(Counted { goals, total })
        }
        None => Ok(no_goals(total)),
    }
}

fn goals_at(
    alloc: Global,
    names: &Names,
    total: u32,
    first: &mut Option<Fault>,
    rest: &RestNode,
) -> Result<Counted, Memory>
    requires { total ≤ 4097 }
    ensures goals { IfOk result (λ c. c.goals ≡ (goals_at names.now total rest.now).value) }
    ensures total { IfOk result (λ c. c.total ≡ total_at names.now total rest.now) }
    ensures small { IfOk result (λ c. c.total ≤ 4097) }
    ensures first { OnOk result (first.new ≡ first_of_all first.old (goals_at names.now total rest.now).faults) }
{
    match rest {
        RestNode::Unsafe(body) => goals_of(alloc, names, false, total, first, body),
        RestNode::Invariant { word: _, body } => goals_of(alloc, names, true, total, first, body),
        RestNode::Transition { .. } => {
            let goals = Some(Items::new(alloc));
            Ok(Counted { goals, total })
        }
    }
}

fn appended(left: Option<Goals>, right: Option<Goals>) -> Result<Option<Goals>, AllocError>
    ensures { IfOk result (λ goals. goals ≡ appended left right) }
{
    match (left, right) {
        (Some(mut left), Some(right)) => {
            left.append(right)?;
            Ok(Some(left))
        }
        _ => Ok(None),
    }
}

/// The goals of all declarations behind `init`.
#[tactic(auto, using(crate::proofs::Fronts::fronts))]
pub fn all_goals(
    alloc: Global,
    names: &Names,
    first: &mut Option<Fault>,
    rests: &[RestNode],
) -> Result<Option<Goals>, Memory>
    ensures value { IfOk result (λ goals. goals ≡ (goals_from names.now 0 rests.now).value) }
    ensures first { OnOk result (first.new ≡ first_of_all first.old (goals_from names.now 0 rests.now).faults) }
{
    let mut found = Some(Items::new(alloc));
    let mut total = 0;
    for rest in rests {
        let next = goals_at(alloc, names, total, first, rest)?;
        total = next.total;
        found = appended(found, next.goals)?;
    }
    Ok(found)
}
