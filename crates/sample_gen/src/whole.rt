//! The whole.

ghost use Rattle.std.specs.Prelude.{◌≡◌, ◌≤◌, ◌∷◌, [], IfOk};
ghost use Rattle.sample_gen.specs.Sample.{goals, start, IsSample};

use crate::levels::{arrays, is_on, one_literal, sorts};
use crate::steps::transitions;
use cub_base::{Items, Memory};
use cub_proto::{Goal, Goals, Protocol};
use std::alloc::{AllocError, Global};

fn goals(alloc: Global, top: u8) -> Result<Goals, AllocError>
    requires { top ≤ 63 }
    ensures { IfOk result (λ list. list ≡ goals top) }
{
    let mut lits = Items::with_room(alloc, 2)?;
    lits.push(is_on(0, top))?;
    lits.push(is_on(1, top))?;
    let mut list = Items::with_room(alloc, 1)?;
    list.push(Goal { width: 2, lits })?;
    Ok(list)
}

/// The sample protocol of `levels` levels above the lowest, from 2 to 63. It is safe. `Memory` comes for want of memory
/// alone: the parts fit each other whatever the number.
pub fn sample(alloc: Global, levels: u8) -> Result<Protocol, Memory>
    requires low { 2 ≤ levels }
    requires high { levels ≤ 63 }
    ensures { IfOk result (IsSample levels) }
{
    let sorts = sorts(alloc, levels)?;
    let arrays = arrays(alloc)?;
    let start = one_literal(alloc, is_on(0, 0))?;
    let goals = goals(alloc, levels)?;
    let transitions = transitions(alloc, levels)?;
    Ok(Protocol {
        sorts,
        globals: Items::new(alloc),
        arrays,
        start,
        goals,
        transitions,
    })
}
