//! The steps from level to level.

ghost use Rattle.std.specs.Prelude.{◌≡◌, ◌≤◌, ◌<◌, ◌+◌, ◌-◌, ◌++◌, [], ◌∷◌, IfOk, map};
ghost use Rattle.std.specs.List.{range_with_len};
ghost use Rattle.sample_gen.specs.Sample.{is_on, is_not_on, climb, step, transitions};

use crate::levels::{always, is_not_on_one, is_on, numbered, one_literal};
use cub_base::Items;
use cub_proto::{
    Branch, Conjs, Lit, PSide, Target, Term, Transition, Transitions, Update, Updates, Value,
};
use std::alloc::{AllocError, Global};

// The process of the place 0 goes to the level.
fn climb(alloc: Global, level: u8) -> Result<Updates, AllocError>
    ensures { IfOk result (λ updates. updates ≡ climb level ∷ []) }
{
    let mut cond = Items::with_room(alloc, 1)?;
    cond.push(Lit::ProcEq {
        a: PSide::Place(0),
        b: PSide::Place(1),
    })?;
    let mut branches = Items::with_room(alloc, 1)?;
    branches.push(Branch {
        cond,
        value: Value::Con(level),
    })?;
    let mut updates = Items::with_room(alloc, 1)?;
    updates.push(Update {
        target: Target::Array(0),
        branches,
        last: Value::Read(Term::Cell(0, 1)),
    })?;
    Ok(updates)
}

fn step(alloc: Global, others: Conjs, from: u8) -> Result<Transition, AllocError>
    requires { from < 63 }
    ensures { IfOk result (λ t. t ≡ step others from) }
{
    Ok(Transition {
        name: numbered(alloc, b"up", from + 1)?,
        params: 1,
        guard: one_literal(alloc, is_on(0, from))?,
        others,
        updates: climb(alloc, from + 1)?,
    })
}

// All steps, in order.
pub fn transitions(alloc: Global, top: u8) -> Result<Transitions, AllocError>
    requires low { 2 ≤ top }
    requires high { top ≤ 63 }
    ensures { IfOk result (λ list. list ≡ transitions top) }
{
    let mut list = Items::with_room(alloc, 63)?;
    list.push(step(alloc, one_literal(alloc, is_on(1, 0))?, 0)?)?;
    list.push(step(alloc, one_literal(alloc, is_not_on_one(1, top))?, 1)?)?;
    for from in 2..top {
        list.push(step(alloc, always(alloc)?, from)?)?;
    }
    Ok(list)
}
