//! Typing of one update: its target, the variable that its index introduces, its conditions and its values.

ghost use Rattle.std.specs.Prelude.{true, false, ◌≡◌, ◌+◌, ◌≤◌, ◌<◌, ◌++◌, ◌∷◌, [], length, map, take, drop, max, nat_lt, Some, None, IfOk, OnOk, IsTrue, option_map, if◌then◌else◌};
ghost use Rattle.cub_dnf.specs.Normal.{widest};
ghost use Rattle.cub_names.specs.Checked.{first_of_all};
ghost use Rattle.cub_names.specs.Sides.{place_at, what_at};
ghost use Rattle.cub_types.specs.Guards.{local};
ghost use Rattle.cub_names.specs.Scope.{scope_fits};
ghost use Rattle.cub_types.specs.Writes.{array_aim, aim_of, target_of, sort_of_aim, sort_aimed, added, value_of_side, value_for, any_faults, right_value, cond_tests, condition, case_of, case_faults, all_case_faults, index_place, inner_scope, index_faults, mark_of, mark_before, first_mark, aim_at, inner, written, written_faults};

use crate::bodies::normalized;
use crate::formulas::typed_form;
use crate::written::{Aim, Case, Cases, Written};
use cub_base::{Items, Memory};
use cub_names::{
    Fault, Local, Names, Scope, Side, TypeKind, What, is_value, place_at, sort_of_side, sum_side,
    tell, what_at,
};
use cub_parse::{CaseNode, Leaf, RightNode, UpdateNode};
use cub_proto::{Conjs, Lits, Sort, Value, same_sort};
use std::alloc::{AllocError, Global};

fn array_aim(array: u16, sort: Sort, place: Option<u8>) -> Aim
    ensures { result ≡ array_aim array sort place }
{
    match place {
        Some(param) => Aim::At(array, sort, param),
        None => Aim::Whole(array, sort),
    }
}

fn aim_of(
    first: &mut Option<Fault>,
    token: u32,
    what: Option<What>,
    index: Option<Leaf>,
    place: Option<u8>,
) -> Option<Aim>
    ensures value { result ≡ (aim_of token what index place).value }
    ensures first { first.new ≡ first_of_all first.old (aim_of token what index place).faults }
{
    match (what, index) {
        (Some(What::Global(global, sort)), None) => Some(Aim::Global(global, sort)),
        (Some(What::Array(array, sort)), Some(_)) => Some(array_aim(array, sort, place)),
        (None, _) => {
            tell(first, token, TypeKind::T01);
            None
        }
        _ => {
            tell(first, token, TypeKind::T13);
            None
        }
    }
}

fn target_of(
    first: &mut Option<Fault>,
    token: u32,
    variable: Option<u8>,
    what: Option<What>,
    index: Option<Leaf>,
    place: Option<u8>,
) -> Option<Aim>
    ensures value { result ≡ (target_of token variable what index place).value }
    ensures first { first.new ≡ first_of_all first.old (target_of token variable what index place).faults }
{
    if variable.is_some() {
        tell(first, token, TypeKind::T13);
        return None;
    }
    aim_of(first, token, what, index, place)
}

fn sort_aimed(aim: Option<Aim>) -> Option<Sort>
    ensures { result ≡ sort_aimed aim }
{
    match aim {
        Some(Aim::Global(_, sort)) | Some(Aim::At(_, sort, _)) | Some(Aim::Whole(_, sort)) => {
            Some(sort)
        }
        None => None,
    }
}

fn added(aim: Option<Aim>) -> usize
    ensures value { result ≡ added aim }
    ensures small { result ≤ 1 }
{
    match aim {
        Some(Aim::At(_, _, _)) => 1,
        Some(Aim::Global(_, _)) | Some(Aim::Whole(_, _)) | None => 0,
    }
}

fn value_of_side(side: Side) -> Value
    ensures { result ≡ value_of_side side }
{
    match side {
        Side::Con(_, constructor) => Value::Con(constructor),
        Side::Fin(_, term) => Value::Read(term),
        Side::Proc(process) => Value::Proc(process),
        Side::Int(base, add) => Value::Sum { base, add },
    }
}

fn value_for(first: &mut Option<Fault>, token: u32, sort: Option<Sort>, side: Side) -> Option<Value>
    ensures value { result ≡ (value_for token sort side).value }
    ensures first { first.new ≡ first_of_all first.old (value_for token sort side).faults }
{
    match sort {
        Some(sort) => {
            if same_sort(sort_of_side(side), sort) {
                return Some(value_of_side(side));
            }
            tell(first, token, TypeKind::T03);
            None
        }
        None => None,
    }
}

fn any_faults(first: &mut Option<Fault>, mark: &Leaf, sort: Option<Sort>)
    ensures { first.new ≡ first_of_all first.old (any_faults mark.now sort) }
{
    match sort {
        Some(Sort::Int) => tell(first, mark.number, TypeKind::T19),
        Some(Sort::Proc) | Some(Sort::Fin(_)) | None => {}
    }
}

fn right_value(
    names: &Names,
    scope: &[Local],
    first: &mut Option<Fault>,
    token: u32,
    sort: Option<Sort>,
    right: &RightNode,
) -> Option<Value>
    ensures value { result ≡ (right_value names.now scope.now token sort right.now).value }
    ensures first { first.new ≡ first_of_all first.old (right_value names.now scope.now token sort right.now).faults }
{
    match right {
        RightNode::Sum(sum) => match sum_side(names, scope, first, sum) {
            Some(side) => value_for(first, token, sort, side),
            None => None,
        },
        RightNode::Any { mark } => {
            any_faults(first, mark, sort);
            Some(Value::Any)
        }
    }
}

fn widest(list: &[Lits]) -> usize
    ensures { result ≡ widest list.now }
{
    let mut found: usize = 0;
    for lits in list {
        found = found.max(lits.len());
    }
    found
}

fn is_too_wide(list: &[Lits], more: usize) -> bool
    requires { more ≤ 1 }
    ensures { result ≡ nat_lt 64 (widest list.now + more) }
{
    widest(list) > 64 - more
}

fn cond_tests(first: &mut Option<Fault>, token: u32, more: usize, list: Conjs) -> Option<Conjs>
    requires { more ≤ 1 }
    ensures value { result ≡ (cond_tests token more list).value }
    ensures first { first.new ≡ first_of_all first.old (cond_tests token more list).faults }
{
    if is_too_wide(list.as_slice(), more) {
        tell(first, token, TypeKind::T17);
        return None;
    }
    Some(list)
}

#[tactic(auto, using(crate::proofs::AllTyped::form_is_typed))]
fn condition(
    alloc: Global,
    names: &Names,
    scope: &[Local],
    width: u16,
    first: &mut Option<Fault>,
    more: usize,
    node: &CaseNode,
) -> Result<Option<Conjs>, Memory>
    requires more { more ≤ 1 }
    requires scope { IsTrue (scope_fits width scope.now) }
    ensures value { IfOk result (λ list. list ≡ (condition names.now scope.now more node.now).value) }
    ensures first { OnOk result (first.new ≡ first_of_all first.old (condition names.now scope.now more node.now).faults) }
{
    let token = node.colon.number;
    let formula = match typed_form(alloc, names, false, scope, first, &node.cond)? {
        Some(formula) => formula,
        None => return Ok(None),
    };
    match normalized(names, width, first, token, &formula)? {
        Some(list) => Ok(cond_tests(first, token, more, list)),
        None => Ok(None),
    }
}

fn case_of(
    alloc: Global,
    names: &Names,
    scope: &[Local],
    width: u16,
    first: &mut Option<Fault>,
    aim: Option<Aim>,
    node: &CaseNode,
) -> Result<Case, Memory>
    requires { IsTrue (scope_fits width scope.now) }
    ensures value { IfOk result (λ found. found ≡ case_of names.now scope.now aim node.now) }
    ensures first { OnOk result (first.new ≡ first_of_all first.old (case_faults names.now scope.now aim node.now)) }
{
    let conds = condition(alloc, names, scope, width, first, added(aim), node)?;
    let sort = sort_aimed(aim);
    let value = right_value(names, scope, first, node.colon.number, sort, &node.right);
    Ok(Case { conds, value })
}

fn push_case(cases: &mut Cases, case: Case) -> Result<(), AllocError>
    ensures { OnOk result (cases.new ≡ cases.old ++ case ∷ []) }
{
    cases.push(case)?;
    Ok(())
}

fn cases_of(
    alloc: Global,
    names: &Names,
    scope: &[Local],
    width: u16,
    first: &mut Option<Fault>,
    aim: Option<Aim>,
    nodes: &[CaseNode],
) -> Result<Cases, Memory>
    requires { IsTrue (scope_fits width scope.now) }
    ensures value { IfOk result (λ cases. cases ≡ map (case_of names.now scope.now aim) nodes.now) }
    ensures first { OnOk result (first.new ≡ first_of_all first.old (all_case_faults names.now scope.now aim nodes.now)) }
{
    let mut cases = Items::new(alloc);
    for node in nodes {
        let case = case_of(alloc, names, scope, width, first, aim, node)?;
        push_case(&mut cases, case)?;
    }
    Ok(cases)
}

fn index_place(names: &Names, scope: &[Local], index: Option<Leaf>) -> Option<u8>
    ensures { result ≡ index_place names.now scope.now index }
{
    match index {
        Some(leaf) => place_at(names, scope, &leaf),
        None => None,
    }
}

fn inner_scope(
    alloc: Global,
    scope: &[Local],
    params: u8,
    index: Option<Leaf>,
    place: Option<u8>,
) -> Result<Scope, AllocError>
    ensures { IfOk result (λ inner. inner ≡ inner_scope scope.now params index place) }
{
    let mut inner = Items::from_slice(alloc, scope)?;
    match (index, place) {
        (Some(name), None) => inner.push(Local {
            name,
            place: params,
        })?,
        _ => {}
    }
    Ok(inner)
}

fn index_faults(names: &Names, first: &mut Option<Fault>, index: Option<Leaf>, place: Option<u8>)
    ensures { first.new ≡ first_of_all first.old (index_faults names.now index place) }
{
    match (index, place) {
        (Some(leaf), None) => {
            if is_value(names, &leaf) {
                tell(first, leaf.number, TypeKind::T02);
            }
        }
        _ => {}
    }
}

fn mark_of(right: &RightNode) -> Option<Leaf>
    ensures { result ≡ mark_of right.now }
{
    match right {
        RightNode::Any { mark } => Some(*mark),
        RightNode::Sum(_) => None,
    }
}

fn first_mark(nodes: &[CaseNode], last: &RightNode) -> Option<Leaf>
    ensures { result ≡ first_mark nodes.now last.now }
{
    for node in nodes {
        let mark = mark_of(&node.right);
        if mark.is_some() {
            return mark;
        }
    }
    mark_of(last)
}

fn aim_at(
    names: &Names,
    scope: &[Local],
    first: &mut Option<Fault>,
    node: &UpdateNode,
    place: Option<u8>,
) -> Option<Aim>
    requires { place ≡ index_place names.now scope.now node.now.index }
    ensures value { result ≡ (aim_at names.now scope.now node.now).value }
    ensures first { first.new ≡ first_of_all first.old (aim_at names.now scope.now node.now).faults }
{
    let variable = place_at(names, scope, &node.name);
    let what = what_at(names, &node.name);
    target_of(first, node.name.number, variable, what, node.index, place)
}

/// The update of a node.
#[tactic(auto, using(crate::proofs::AllTyped::inner_fits))]
pub fn written(
    alloc: Global,
    names: &Names,
    scope: &[Local],
    params: u8,
    first: &mut Option<Fault>,
    node: &UpdateNode,
) -> Result<Written, Memory>
    requires { IsTrue (scope_fits params scope.now) }
    ensures value { IfOk result (λ w. w ≡ written names.now scope.now params node.now) }
    ensures first { OnOk result (first.new ≡ first_of_all first.old (written_faults names.now scope.now params node.now)) }
{
    let place = index_place(names, scope, node.index);
    let aim = aim_at(names, scope, first, node, place);
    index_faults(names, first, node.index, place);
    let inner = inner_scope(alloc, scope, params, node.index, place)?;
    let wide = inner.as_slice();
    let width = u16::from(params) + 1;
    let cases = cases_of(
        alloc,
        names,
        wide,
        width,
        first,
        aim,
        node.branches.as_slice(),
    )?;
    let last = right_value(
        names,
        wide,
        first,
        node.at.number,
        sort_aimed(aim),
        &node.last,
    );
    Ok(Written {
        aim,
        token: node.name.number,
        mark: first_mark(node.branches.as_slice(), &node.last),
        cases,
        last,
    })
}
