//! The updates of a protocol: one for each target, with the branches of all updates that have part in it. Several updates
//! of one array at parameters are one list over the process whose cell is written.

ghost use Rattle.std.specs.Prelude.{true, false, ◌≡◌, ◌+◌, ◌≤◌, ◌<◌, ◌++◌, ◌∷◌, [], ◌&&◌, length, map, flat_map, drop, take, find, nat_lt, Some, None, unwrap_or, min, IfSome, option_map, IfOk, OnOk, if◌then◌else◌};
ghost use Rattle.cub_proto.specs.StateOf.{signature_of};
ghost use Rattle.cub_proto.specs.declared.transition.Target.{Target};
ghost use Rattle.std.specs.List.{list_any, range_with_len};
ghost use Rattle.std.specs.Option.{option_copied};
ghost use Rattle.cub_names.specs.Checked.{first_of_all};
ghost use Rattle.cub_types.specs.Joined.{is_aimed, is_for, first_literals, case_branches, last_branches, branches_of, itself, last_of, branches_for, update_from, update_at, targets, updates_of, is_refused_case, count_of, cases_count, branch_count, over_from, long_at, long_faults};

use crate::written::{Aim, Case, Written};
use cub_base::Items;
use cub_names::{Fault, Names, TypeKind, tell};
use cub_proto::{
    Branch, Branches, ISide, Lit, Lits, PSide, Protocol, Sort, Target, Term, Update, Updates, Value,
};
use std::alloc::{AllocError, Global};

fn is_for(target: Target, w: &Written) -> bool
    ensures { result ≡ is_for target w.now }
{
    match (target, w.aim) {
        (Target::Global(g), Some(Aim::Global(h, _))) => g == h,
        (Target::Array(a), Some(Aim::At(b, _, _))) | (Target::Array(a), Some(Aim::Whole(b, _))) => {
            a == b
        }
        _ => false,
    }
}

fn first_literals(alloc: Global, params: u8, aim: Option<Aim>) -> Result<Lits, AllocError>
    ensures { IfOk result (λ lits. lits ≡ first_literals params aim) }
{
    let mut lits = Items::new(alloc);
    if let Some(Aim::At(_, _, param)) = aim {
        lits.push(Lit::ProcEq {
            a: PSide::Place(param),
            b: PSide::Place(params),
        })?;
    }
    Ok(lits)
}

fn conjoined(front: &Lits, cond: &Lits) -> Result<Lits, AllocError>
    ensures { IfOk result (λ lits. lits ≡ front.now ++ cond.now) }
{
    let mut lits = front.copy()?;
    lits.extend(cond.as_slice())?;
    Ok(lits)
}

fn push_branches(
    branches: &mut Branches,
    front: &Lits,
    conds: &[Lits],
    value: Value,
) -> Result<(), AllocError>
    ensures { OnOk result (branches.new ≡ branches.old ++ map (λ cond. record { cond = front.now ++ cond; value = value }) conds.now) }
{
    for lits in conds {
        let cond = conjoined(front, lits)?;
        branches.push(Branch { cond, value })?;
    }
    Ok(())
}

fn push_case(branches: &mut Branches, front: &Lits, case: &Case) -> Result<(), AllocError>
    ensures { OnOk result (branches.new ≡ branches.old ++ case_branches front.now case.now) }
{
    let value = case.value.unwrap_or(Value::Any);
    match &case.conds {
        Some(conds) => push_branches(branches, front, conds.as_slice(), value),
        None => Ok(()),
    }
}

fn push_cases(branches: &mut Branches, front: &Lits, cases: &[Case]) -> Result<(), AllocError>
    ensures { OnOk result (branches.new ≡ branches.old ++ flat_map (case_branches front.now) cases.now) }
{
    for case in cases {
        push_case(branches, front, case)?;
    }
    Ok(())
}

fn push_last(
    alloc: Global,
    branches: &mut Branches,
    front: &Lits,
    value: Value,
) -> Result<(), AllocError>
    ensures { OnOk result (branches.new ≡ branches.old ++ map (λ l. record { cond = l ∷ []; value = value }) front.now) }
{
    for lit in front.as_slice() {
        let mut cond = Items::new(alloc);
        cond.push(*lit)?;
        branches.push(Branch { cond, value })?;
    }
    Ok(())
}

fn push_written(
    alloc: Global,
    params: u8,
    branches: &mut Branches,
    w: &Written,
) -> Result<(), AllocError>
    ensures { OnOk result (branches.new ≡ branches.old ++ branches_of params w.now) }
{
    let front = first_literals(alloc, params, w.aim)?;
    push_cases(branches, &front, w.cases.as_slice())?;
    push_last(alloc, branches, &front, w.last.unwrap_or(Value::Any))
}

fn push_if_for(
    alloc: Global,
    params: u8,
    target: Target,
    branches: &mut Branches,
    w: &Written,
) -> Result<(), AllocError>
    ensures { OnOk result (branches.new ≡ branches.old ++ (if is_for target w.now then branches_of params w.now else [])) }
{
    if is_for(target, w) {
        return push_written(alloc, params, branches, w);
    }
    Ok(())
}

fn branches_for(
    alloc: Global,
    params: u8,
    target: Target,
    kept: &[Written],
) -> Result<Branches, AllocError>
    ensures { IfOk result (λ branches. branches ≡ branches_for params target kept.now) }
{
    let mut branches = Items::new(alloc);
    for w in kept {
        push_if_for(alloc, params, target, &mut branches, w)?;
    }
    Ok(branches)
}

fn itself(params: u8, array: u16, sort: Sort) -> Value
    ensures { result ≡ itself params array sort }
{
    let cell = Term::Cell(array, params);
    match sort {
        Sort::Fin(_) => Value::Read(cell),
        Sort::Int => Value::Sum {
            base: ISide::At(cell),
            add: 0,
        },
        Sort::Proc => Value::Any,
    }
}

fn last_of(params: u8, aim: Option<Aim>, last: Option<Value>) -> Value
    ensures { result ≡ last_of params aim last }
{
    match aim {
        Some(Aim::At(array, sort, _)) => itself(params, array, sort),
        Some(Aim::Global(_, _)) | Some(Aim::Whole(_, _)) | None => last.unwrap_or(Value::Any),
    }
}

fn last_for(params: u8, target: Target, kept: &[Written]) -> Option<Value>
    ensures { result ≡ option_map (λ w. last_of params w.aim w.last) (find (is_for target) kept.now) }
{
    for w in kept {
        if is_for(target, w) {
            return Some(last_of(params, w.aim, w.last));
        }
    }
    None
}

fn push_update(
    alloc: Global,
    params: u8,
    kept: &[Written],
    target: Target,
    updates: &mut Updates,
) -> Result<(), AllocError>
    ensures { OnOk result (updates.new ≡ updates.old ++ update_at params kept.now target) }
{
    match last_for(params, target, kept) {
        Some(last) => {
            let branches = branches_for(alloc, params, target, kept)?;
            updates.push(Update {
                target,
                branches,
                last,
            })?;
            Ok(())
        }
        None => Ok(()),
    }
}

fn global_targets(alloc: Global, count: usize) -> Result<Vec<Target>, AllocError>
    requires { count ≤ 64 }
    ensures { IfOk result (λ all. all.items ≡ map Target.Global (range_with_len 0 count)) }
{
    let mut all = Vec::new(alloc);
    for number in 0..count {
        all.push(Target::Global(number as u16))?;
    }
    Ok(all)
}

fn array_targets(alloc: Global, count: usize) -> Result<Vec<Target>, AllocError>
    requires { count ≤ 32 }
    ensures { IfOk result (λ all. all.items ≡ map Target.Array (range_with_len 0 count)) }
{
    let mut all = Vec::new(alloc);
    for number in 0..count {
        all.push(Target::Array(number as u16))?;
    }
    Ok(all)
}

fn declared_targets(alloc: Global, base: &Protocol) -> Result<Vec<Target>, AllocError>
    ensures { IfOk result (λ all. all.items ≡ targets (signature_of base.now)) }
{
    let mut all = global_targets(alloc, base.globals.len())?;
    let arrays = array_targets(alloc, base.arrays.len())?;
    all.extend_from_slice(arrays.as_slice())?;
    Ok(all)
}

/// All targets: globals before arrays, each group by number.
pub fn targets(alloc: Global, names: &Names) -> Result<Vec<Target>, AllocError>
    ensures { IfOk result (λ all. all.items ≡ targets names.now.sig) }
{
    declared_targets(alloc, names.base())
}

/// The updates for the targets.
pub fn updates_of(
    alloc: Global,
    params: u8,
    kept: &[Written],
    targets: &[Target],
) -> Result<Updates, AllocError>
    ensures { IfOk result (λ updates. updates ≡ flat_map (update_at params kept.now) targets.now) }
{
    let mut updates = Items::new(alloc);
    for target in targets {
        push_update(alloc, params, kept, *target, &mut updates)?;
    }
    Ok(updates)
}

fn is_refused_case(case: &Case) -> bool
    ensures { result ≡ is_refused_case case.now }
{
    case.conds.is_none()
}

fn has_refused_case(cases: &[Case]) -> bool
    ensures { result ≡ list_any is_refused_case cases.now }
{
    cases.iter().any(|case| is_refused_case(case))
}

fn is_refused(target: Target, w: &Written) -> bool
    ensures { result ≡ (is_for target w.now && list_any is_refused_case w.now.cases) }
{
    is_for(target, w) && has_refused_case(w.cases.as_slice())
}

fn some_refused(target: Target, kept: &[Written]) -> bool
    ensures { result ≡ list_any (λ w. is_for target w && list_any is_refused_case w.cases) kept.now }
{
    kept.iter().any(|w| is_refused(target, w))
}

fn count_of(case: &Case) -> usize
    ensures { result ≡ count_of case.now }
{
    match &case.conds {
        Some(conds) => conds.len(),
        None => 0,
    }
}

/// The number of branches of the cases, cut where every limit is passed.
fn cases_count(cases: &[Case]) -> usize
    ensures { result ≡ min 65 (cases_count cases.now) }
{
    let mut total: usize = 0;
    for case in cases {
        total = (total + count_of(case).min(65)).min(65);
    }
    total
}

fn added(params: u8, aim: Option<Aim>) -> usize
    ensures value { result ≡ length (first_literals params aim) }
    ensures small { result ≤ 1 }
{
    let _places = params;
    match aim {
        Some(Aim::At(_, _, _)) => 1,
        Some(Aim::Global(_, _)) | Some(Aim::Whole(_, _)) | None => 0,
    }
}

fn branch_count(params: u8, w: &Written) -> usize
    ensures { result ≡ min 65 (branch_count params w.now) }
{
    (cases_count(w.cases.as_slice()) + added(params, w.aim)).min(65)
}

/// The number of branches with one update more, where it is within the limit.
fn grown(params: u8, total: usize, w: &Written) -> Option<usize>
    requires { total ≤ 64 }
    ensures value { result ≡ (if nat_lt 64 (total + branch_count params w.now) then None else Some (total + branch_count params w.now)) }
    ensures small { IfSome result (λ n. n ≤ 64) }
{
    let count = branch_count(params, w);
    if total + count > 64 {
        return None;
    }
    Some(total + count)
}

fn over_from(first: &mut Option<Fault>, params: u8, target: Target, kept: &[Written])
    ensures { first.new ≡ first_of_all first.old (over_from params target 0 kept.now) }
{
    let mut total = 0;
    for w in kept {
        if is_for(target, w) {
            match grown(params, total, w) {
                Some(more) => total = more,
                None => {
                    tell(first, w.token, TypeKind::T17);
                    return;
                }
            }
        }
    }
}

fn long_at(first: &mut Option<Fault>, params: u8, kept: &[Written], target: Target)
    ensures { first.new ≡ first_of_all first.old (long_at params kept.now target) }
{
    if !some_refused(target, kept) {
        over_from(first, params, target, kept);
    }
}

/// Tells the lists of branches that are too long.
pub fn long_faults(first: &mut Option<Fault>, params: u8, kept: &[Written], targets: &[Target])
    ensures { first.new ≡ first_of_all first.old (long_faults params kept.now targets.now) }
{
    for target in targets {
        long_at(first, params, kept, *target);
    }
}
