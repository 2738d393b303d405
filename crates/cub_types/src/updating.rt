//! The updates of a transition so far. An update that is made twice is left out, so that the list is never longer than
//! the targets are, and a text with many updates takes no time to speak of.

ghost use Rattle.std.specs.Prelude.{false, ◌≡◌, ◌+◌, ◌<◌, ◌≤◌, ◌++◌, ◌∷◌, [], ◌&&◌, length, not, nat_lt, true, IfOk, OnOk, IsTrue, drop};
ghost use Rattle.std.specs.List.{list_any, list_all};
ghost use Rattle.cub_names.specs.Checked.{first_of_all};
ghost use Rattle.cub_names.specs.Scope.{scope_fits};
ghost use Rattle.cub_types.specs.Writes.{is_whole_case, is_whole, written};
ghost use Rattle.cub_types.specs.Joined.{clash, clashes, is_again, keeps, again_faults, taker, is_among, takes, taker_faults, taker_of, joined, joined_faults, no_updates, update_faults, updating, updating_faults};

use crate::targets::written;
use crate::written::{Aim, Case, Writes, Written};
use cub_base::{Items, Memory};
use cub_names::{Fault, Local, Names, TypeKind, tell};
use cub_parse::{Leaf, UpdateNode};
use cub_proto::Sort;
use std::alloc::{AllocError, Global};

/// The updates so far: those that update something, the process globals that take any value, and whether no part was
/// refused.
#[derive(Debug, Drop)]
pub struct Updating {
    pub kept: Writes,
    pub taken: Items<u16>,
    pub whole: bool,
}

fn clash(a: Aim, b: Aim) -> bool
    ensures { result ≡ clash a b }
{
    match (a, b) {
        (Aim::Global(g, _), Aim::Global(h, _)) => g == h,
        (Aim::At(a, _, p), Aim::At(b, _, q)) => a == b && p == q,
        (Aim::At(a, _, _), Aim::Whole(b, _))
        | (Aim::Whole(a, _), Aim::At(b, _, _))
        | (Aim::Whole(a, _), Aim::Whole(b, _)) => a == b,
        _ => false,
    }
}

fn clashes(aim: Aim, other: Option<Aim>) -> bool
    ensures { result ≡ clashes aim other }
{
    match other {
        Some(other) => clash(other, aim),
        None => false,
    }
}

fn some_clashes(aim: Aim, kept: &[Written]) -> bool
    ensures { result ≡ list_any (λ w. clashes aim w.aim) kept.now }
{
    kept.iter().any(|w| clashes(aim, w.aim))
}

fn is_again(kept: &[Written], aim: Option<Aim>) -> bool
    ensures { result ≡ is_again kept.now aim }
{
    match aim {
        Some(aim) => some_clashes(aim, kept),
        None => false,
    }
}

fn is_whole_case(case: &Case) -> bool
    ensures { result ≡ is_whole_case case.now }
{
    case.conds.is_some() && case.value.is_some()
}

fn are_whole(cases: &[Case]) -> bool
    ensures { result ≡ list_all is_whole_case cases.now }
{
    cases.iter().all(|case| is_whole_case(case))
}

fn is_whole(w: &Written) -> bool
    ensures { result ≡ is_whole w.now }
{
    w.aim.is_some() && are_whole(w.cases.as_slice()) && w.last.is_some()
}

fn again_faults(first: &mut Option<Fault>, kept: &[Written], w: &Written)
    ensures { first.new ≡ first_of_all first.old (again_faults kept.now w.now) }
{
    if is_again(kept, w.aim) {
        tell(first, w.token, TypeKind::T09);
    }
}

fn keep(kept: &mut Writes, w: Written) -> Result<(), AllocError>
    ensures { OnOk result (kept.new ≡ keeps kept.old w) }
{
    if w.aim.is_some() && !is_again(kept.as_slice(), w.aim) {
        kept.push(w)?;
    }
    Ok(())
}

fn taker(aim: Option<Aim>, mark: Option<Leaf>) -> Option<(u16, Leaf)>
    ensures { result ≡ taker aim mark }
{
    match (aim, mark) {
        (Some(Aim::Global(global, Sort::Proc)), Some(mark)) => Some((global, mark)),
        _ => None,
    }
}

fn is_among(numbers: &[u16], number: u16) -> bool
    ensures { result ≡ is_among numbers.now number }
{
    numbers.iter().any(|n| *n == number)
}

fn is_beyond(params: u8, taken: usize) -> bool
    ensures { result ≡ nat_lt 3 (params + (taken + 1)) }
{
    taken >= 3 || usize::from(params) + taken + 1 > 3
}

fn taker_faults(params: u8, first: &mut Option<Fault>, taken: &[u16], found: Option<(u16, Leaf)>)
    ensures { first.new ≡ first_of_all first.old (taker_faults params taken.now found) }
{
    match found {
        Some((global, mark)) => {
            if is_among(taken, global) {
                return;
            }
            if is_beyond(params, taken.len()) {
                tell(first, mark.number, TypeKind::T19);
            }
        }
        None => {}
    }
}

fn take(taken: &mut Items<u16>, found: Option<(u16, Leaf)>) -> Result<(), AllocError>
    ensures { OnOk result (taken.new ≡ takes taken.old found) }
{
    match found {
        Some((global, _mark)) => {
            if !is_among(taken.as_slice(), global) {
                taken.push(global)?;
            }
        }
        None => {}
    }
    Ok(())
}

fn joined_faults(params: u8, first: &mut Option<Fault>, u: &Updating, w: &Written)
    ensures { first.new ≡ first_of_all first.old (joined_faults params u.now w.now) }
{
    again_faults(first, u.kept.as_slice(), w);
    taker_faults(params, first, u.taken.as_slice(), taker(w.aim, w.mark));
}

fn join(u: Updating, w: Written) -> Result<Updating, AllocError>
    ensures { IfOk result (λ v. v ≡ joined u w) }
{
    let Updating {
        mut kept,
        mut taken,
        whole,
    } = u;
    take(&mut taken, taker(w.aim, w.mark))?;
    let whole = whole && is_whole(&w);
    keep(&mut kept, w)?;
    Ok(Updating { kept, taken, whole })
}

fn no_updates(alloc: Global) -> Updating
    ensures { result ≡ no_updates }
{
    Updating {
        kept: Items::new(alloc),
        taken: Items::new(alloc),
        whole: true,
    }
}

fn with_update(
    alloc: Global,
    names: &Names,
    scope: &[Local],
    params: u8,
    first: &mut Option<Fault>,
    u: Updating,
    node: &UpdateNode,
) -> Result<Updating, Memory>
    requires { IsTrue (scope_fits params scope.now) }
    ensures value { IfOk result (λ v. v ≡ joined u (written names.now scope.now params node.now)) }
    ensures first { OnOk result (first.new ≡ first_of_all first.old (update_faults names.now scope.now params u node.now)) }
{
    let w = written(alloc, names, scope, params, first, node)?;
    joined_faults(params, first, &u, &w);
    Ok(join(u, w)?)
}

/// All updates of a transition.
pub fn all_updates(
    alloc: Global,
    names: &Names,
    scope: &[Local],
    params: u8,
    first: &mut Option<Fault>,
    nodes: &[UpdateNode],
) -> Result<Updating, Memory>
    requires { IsTrue (scope_fits params scope.now) }
    ensures value { IfOk result (λ u. u ≡ updating names.now scope.now params no_updates nodes.now) }
    ensures first { OnOk result (first.new ≡ first_of_all first.old (updating_faults names.now scope.now params no_updates nodes.now)) }
{
    let mut all = no_updates(alloc);
    for node in nodes {
        all = with_update(alloc, names, scope, params, first, all, node)?;
    }
    Ok(all)
}
