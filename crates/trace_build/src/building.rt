//! The trace of a chain.

ghost use Rattle.std.specs.Prelude.{IfOk};
ghost use Rattle.trace_laws.specs.Chain.{IsChain};
ghost use Rattle.trace_build.specs.Trace.{IsTraceOf};

use crate::freeing::with_crashes;
use crate::starting::chosen_start;
use crate::walking::walk;
use cub_base::Memory;
use cub_proto::{Protocol, Trace};
use std::alloc::Global;
use theory::Scratch;
use trace_laws::Chain;

/// The trace of the chain: from the chosen start state of its first cube the steps along it. Where they can't be made
/// without crashes, before each step the processes crash at which its universal guard is then false, and the trace tells
/// where the steps alone fail first.
pub fn build_chain(alloc: Global, protocol: &Protocol, chain: &Chain) -> Result<Trace, Memory>
    requires { IsChain protocol.now chain.now }
    ensures { IfOk result (IsTraceOf protocol.now chain.now) }
{
    let mut scratch = Scratch::new(alloc, protocol)?;
    let start = chosen_start(alloc, &mut scratch, protocol, &chain.as_slice()[0].cube)?;
    let walk = walk(alloc, &mut scratch, protocol, &start, chain.as_slice())?;
    let twin = start.copy()?;
    let freed = with_crashes(
        alloc,
        protocol,
        twin,
        walk.steps,
        walk.goal,
        walk.places.as_slice(),
    )?;
    Ok(Trace {
        start,
        events: freed.events,
        goal: walk.goal,
        places: walk.places,
        plain: freed.plain,
    })
}
