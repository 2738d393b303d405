//! One event on a state and its copy.

ghost use Rattle.std.specs.Prelude.{◌≡◌, ◌<◌, ◌≤◌, ◌^◌, length, slice_get, IsTrue, OnOk, OnErr};
ghost use Rattle.std.specs.Result.{result_err};
ghost use Rattle.cub_proto.specs.Configuration.{is_alive, process_count, killed};
ghost use Rattle.cub_proto.specs.Effect.{fired, picked};
ghost use Rattle.cub_proto.specs.Legal.{picks_rise, after};
ghost use Rattle.cub_proto.specs.StateOf.{IsStateOf};
ghost use Rattle.replay.specs.Bound.{IsWithin};
ghost use Rattle.replay.specs.Fault.{crash_fault, firing_fault, fault_at};
ghost use Rattle.replay.specs.FitsEvent.{FitsEvent};
ghost use Rattle.replay.specs.Reads.{IsFiring, ReadsUpdates};

use crate::effect::fire;
use crate::fault::StepFault;
use crate::fault_at::firing_fault;
use cub_proto::{Chosen, Event, Protocol, State, Transition};

fn crash(state: &mut State, twin: &mut State, process: u32) -> Result<(), StepFault>
    requires process { process < process_count state.old }
    requires twin { twin.old ≡ state.old }
    ensures fault { result_err result ≡ crash_fault process (is_alive state.old process) }
    ensures ok { OnOk result (state.new ≡ killed state.old process) }
    ensures err { OnErr result (state.new ≡ state.old) }
    ensures twin { twin.new ≡ state.new }
{
    if !state.alive(process) {
        return Err(StepFault::Dead { process });
    }
    state.kill(process);
    twin.kill(process);
    Ok(())
}

fn fire_transition(
    protocol: &Protocol,
    state: &mut State,
    twin: &mut State,
    transition: &Transition,
    params: &[u32],
    picks: &[Chosen],
) -> Result<(), StepFault>
    requires firing { IsFiring protocol.now state.old transition.now params.now }
    requires twin { twin.old ≡ state.old }
    requires within { IsWithin (2 ^ 61) state.old }
    requires rising { IsTrue (picks_rise picks.now) }
    ensures fault { result_err result ≡ firing_fault state.old transition.now params.now picks.now }
    ensures ok { OnOk result (state.new ≡ fired state.old params.now transition.now.updates (picked picks.now)) }
    ensures err { OnErr result (state.new ≡ state.old) }
    ensures twin { twin.new ≡ state.new }
{
    match firing_fault(protocol, state, transition, params, picks) {
        Some(fault) => Err(fault),
        None => {
            fire(state, twin, transition.updates.as_slice(), params, picks);
            Ok(())
        }
    }
}

/// Changes the state and its copy as the event does, if it has no fault.
pub fn apply(
    protocol: &Protocol,
    state: &mut State,
    twin: &mut State,
    event: &Event,
) -> Result<(), StepFault>
    requires state_of { IsStateOf protocol.now state.old }
    requires twin { twin.old ≡ state.old }
    requires within { IsWithin (2 ^ 61) state.old }
    requires fits { FitsEvent protocol.now (process_count state.old) event.now }
    ensures fault { result_err result ≡ fault_at protocol.now state.old event.now }
    ensures ok { OnOk result (state.new ≡ after protocol.now state.old event.now) }
    ensures err { OnErr result (state.new ≡ state.old) }
    ensures twin { twin.new ≡ state.new }
{
    match event {
        Event::Crash { process } => crash(state, twin, *process),
        Event::Fire {
            transition,
            params,
            picks,
        } => {
            let transition = &protocol.transitions.as_slice()[*transition as usize];
            fire_transition(
                protocol,
                state,
                twin,
                transition,
                params.as_slice(),
                picks.as_slice(),
            )
        }
    }
}
