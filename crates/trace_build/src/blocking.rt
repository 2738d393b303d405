//! Which processes block a step: the alive ones that are no parameter and at which its universal guard is false.

ghost use Rattle.std.specs.Prelude.{◌≡◌, ◌<◌, ◌≤◌, [], ◌∷◌, ◌++◌, length, filter, slice_get, Some, IfOk, OnOk};
ghost use Rattle.std.specs.List.{range_with_len};
ghost use Rattle.cub_proto.specs.Configuration.{process_count};
ghost use Rattle.cub_proto.specs.StateOf.{IsStateOf};
ghost use Rattle.cub_proto.specs.Truth.{any_true};
ghost use Rattle.cub_cube.specs.Crashes.{crashes};
ghost use Rattle.replay.specs.Fault.{is_among, is_blocking};
ghost use Rattle.replay.specs.FitsEvent.{FitsEvent};
ghost use Rattle.replay.specs.Reads.{IsFiring};
ghost use Rattle.trace_laws.specs.Blocked.{blocked};

use arrayvec::ArrayVec;
use cub_base::{Items, Memory};
use cub_proto::{Event, Events, Processes, Protocol, State, Transition, any_holds};
use std::alloc::{AllocError, Global};

fn is_among(processes: &[u32], process: u32) -> bool
    ensures { result ≡ is_among processes.now process }
{
    processes.iter().any(|other| *other == process)
}

// The parameters and one more process.
fn widened(params: &[u32], process: u32) -> ArrayVec<u32, 4>
    requires { length params.now ≤ 3 }
    ensures { result.items ≡ params.now ++ process ∷ [] }
{
    let mut places = ArrayVec::new();
    for param in params {
        places.push(*param);
    }
    places.push(process);
    places
}

// Whether some alternative of the universal guard is true for the process.
fn is_free(
    protocol: &Protocol,
    state: &State,
    transition: &Transition,
    params: &[u32],
    process: u32,
) -> bool
    requires firing { IsFiring protocol.now state.now transition.now params.now }
    requires process { process < process_count state.now }
    ensures { result ≡ any_true state.now (params.now ++ process ∷ []) transition.now.others }
{
    any_holds(
        state,
        transition.others.as_slice(),
        widened(params, process).as_slice(),
    )
}

fn is_blocking(
    protocol: &Protocol,
    state: &State,
    transition: &Transition,
    params: &[u32],
    process: u32,
) -> bool
    requires firing { IsFiring protocol.now state.now transition.now params.now }
    requires process { process < process_count state.now }
    ensures { result ≡ is_blocking state.now transition.now.others params.now process }
{
    state.alive(process)
        && !is_among(params, process)
        && !is_free(protocol, state, transition, params, process)
}

// The processes that block the transition, in ascending order.
fn blocked_by(
    alloc: Global,
    protocol: &Protocol,
    state: &State,
    transition: &Transition,
    params: &[u32],
) -> Result<Processes, AllocError>
    requires firing { IsFiring protocol.now state.now transition.now params.now }
    ensures { IfOk result (λ list. list ≡ filter (is_blocking state.now transition.now.others params.now) (range_with_len 0 (process_count state.now))) }
{
    let mut list = Items::new(alloc);
    for process in 0..state.processes() {
        if is_blocking(protocol, state, transition, params, process) {
            list.push(process)?;
        }
    }
    Ok(list)
}

/// The processes that block the step, in ascending order; none block a crash.
pub fn blocked(
    alloc: Global,
    protocol: &Protocol,
    state: &State,
    event: &Event,
) -> Result<Processes, Memory>
    requires state_of { IsStateOf protocol.now state.now }
    requires fits { FitsEvent protocol.now (process_count state.now) event.now }
    ensures { IfOk result (λ list. list ≡ blocked protocol.now state.now event.now) }
{
    match event {
        Event::Crash { .. } => Ok(Items::new(alloc)),
        Event::Fire {
            transition,
            params,
            ..
        } => {
            let transition = &protocol.transitions.as_slice()[*transition as usize];
            let list = blocked_by(alloc, protocol, state, transition, params.as_slice())?;
            Ok(list)
        }
    }
}

/// Appends the event.
pub fn push_event(events: &mut Events, event: Event) -> Result<(), AllocError>
    ensures { OnOk result (events.new ≡ events.old ++ event ∷ []) }
{
    events.push(event)?;
    Ok(())
}

/// Appends the crash of each process.
pub fn push_crashes(events: &mut Events, processes: &[u32]) -> Result<(), AllocError>
    ensures { OnOk result (events.new ≡ events.old ++ crashes processes.now) }
{
    for process in processes {
        events.push(Event::Crash { process: *process })?;
    }
    Ok(())
}
