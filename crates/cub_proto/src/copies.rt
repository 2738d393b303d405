//! Equal copies of the lists of a protocol.

ghost use Rattle.std.specs.Prelude.{◌≡◌, IfOk};

use crate::literal::Lits;
use crate::protocol::{Decl, Goal, SortDecl};
use crate::transition::{Branch, Transition, Update};
use cub_base::{Items, Name};
use std::alloc::{AllocError, Global};

pub fn copied_names(alloc: Global, names: &[Name]) -> Result<Items<Name>, AllocError>
    ensures { IfOk result (λ copies. copies ≡ names.now) }
{
    let mut copies = Items::with_room(alloc, names.len())?;
    for name in names {
        copies.push(name.copy()?)?;
    }
    Ok(copies)
}

fn copied_sort(alloc: Global, sort: &SortDecl) -> Result<SortDecl, AllocError>
    ensures { IfOk result (λ copy. copy ≡ sort.now) }
{
    let name = sort.name.copy()?;
    let cons = copied_names(alloc, sort.cons.as_slice())?;
    Ok(SortDecl { name, cons })
}

pub fn copied_sorts(alloc: Global, sorts: &[SortDecl]) -> Result<Items<SortDecl>, AllocError>
    ensures { IfOk result (λ copies. copies ≡ sorts.now) }
{
    let mut copies = Items::with_room(alloc, sorts.len())?;
    for sort in sorts {
        copies.push(copied_sort(alloc, sort)?)?;
    }
    Ok(copies)
}

fn copied_decl(decl: &Decl) -> Result<Decl, AllocError>
    ensures { IfOk result (λ copy. copy ≡ decl.now) }
{
    let name = decl.name.copy()?;
    Ok(Decl {
        name,
        sort: decl.sort,
    })
}

pub fn copied_decls(alloc: Global, decls: &[Decl]) -> Result<Items<Decl>, AllocError>
    ensures { IfOk result (λ copies. copies ≡ decls.now) }
{
    let mut copies = Items::with_room(alloc, decls.len())?;
    for decl in decls {
        copies.push(copied_decl(decl)?)?;
    }
    Ok(copies)
}

pub fn copied_conjs(alloc: Global, conjs: &[Lits]) -> Result<Items<Lits>, AllocError>
    ensures { IfOk result (λ copies. copies ≡ conjs.now) }
{
    let mut copies = Items::with_room(alloc, conjs.len())?;
    for lits in conjs {
        copies.push(lits.copy()?)?;
    }
    Ok(copies)
}

fn copied_goal(one: &Goal) -> Result<Goal, AllocError>
    ensures { IfOk result (λ copy. copy ≡ one.now) }
{
    let lits = one.lits.copy()?;
    Ok(Goal {
        width: one.width,
        lits,
    })
}

pub fn copied_goals(alloc: Global, goals: &[Goal]) -> Result<Items<Goal>, AllocError>
    ensures { IfOk result (λ copies. copies ≡ goals.now) }
{
    let mut copies = Items::with_room(alloc, goals.len())?;
    for one in goals {
        copies.push(copied_goal(one)?)?;
    }
    Ok(copies)
}

fn copied_branch(branch: &Branch) -> Result<Branch, AllocError>
    ensures { IfOk result (λ copy. copy ≡ branch.now) }
{
    let cond = branch.cond.copy()?;
    Ok(Branch {
        cond,
        value: branch.value,
    })
}

pub fn copied_branches(alloc: Global, branches: &[Branch]) -> Result<Items<Branch>, AllocError>
    ensures { IfOk result (λ copies. copies ≡ branches.now) }
{
    let mut copies = Items::with_room(alloc, branches.len())?;
    for branch in branches {
        copies.push(copied_branch(branch)?)?;
    }
    Ok(copies)
}

fn copied_update(alloc: Global, update: &Update) -> Result<Update, AllocError>
    ensures { IfOk result (λ copy. copy ≡ update.now) }
{
    let branches = copied_branches(alloc, update.branches.as_slice())?;
    Ok(Update {
        target: update.target,
        branches,
        last: update.last,
    })
}

pub fn copied_updates(alloc: Global, updates: &[Update]) -> Result<Items<Update>, AllocError>
    ensures { IfOk result (λ copies. copies ≡ updates.now) }
{
    let mut copies = Items::with_room(alloc, updates.len())?;
    for update in updates {
        copies.push(copied_update(alloc, update)?)?;
    }
    Ok(copies)
}

fn copied_transition(alloc: Global, transition: &Transition) -> Result<Transition, AllocError>
    ensures { IfOk result (λ copy. copy ≡ transition.now) }
{
    let name = transition.name.copy()?;
    let guard = copied_conjs(alloc, transition.guard.as_slice())?;
    let others = copied_conjs(alloc, transition.others.as_slice())?;
    let updates = copied_updates(alloc, transition.updates.as_slice())?;
    Ok(Transition {
        name,
        params: transition.params,
        guard,
        others,
        updates,
    })
}

pub fn copied_transitions(
    alloc: Global,
    transitions: &[Transition],
) -> Result<Items<Transition>, AllocError>
    ensures { IfOk result (λ copies. copies ≡ transitions.now) }
{
    let mut copies = Items::with_room(alloc, transitions.len())?;
    for transition in transitions {
        copies.push(copied_transition(alloc, transition)?)?;
    }
    Ok(copies)
}
