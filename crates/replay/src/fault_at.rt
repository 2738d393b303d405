//! The first fault of an event in a state. Each list is tested whole before the next, so the answer is the first in the
//! order dead, equal, guard, other, pick.

ghost use Rattle.std.specs.Prelude.{◌≡◌, ◌<◌, ◌≤◌, ◌∷◌, [], ◌++◌, length, option_map, find, All, IsTrue};
ghost use Rattle.cub_proto.specs.Configuration.{is_alive, process_count};
ghost use Rattle.cub_proto.specs.Effect.{chosen, counting, update_of, same_target};
ghost use Rattle.cub_proto.specs.declared.state.Slot.TheVariants as Slot;
ghost use Rattle.std.specs.Option.{option_copied};
ghost use Rattle.cub_proto.specs.Fits.{is_any};
ghost use Rattle.cub_proto.specs.Truth.{HasLiterals, any_true};
ghost use Rattle.replay.specs.Fault.{is_among, first_dead, first_repeat, is_blocking, first_blocking, is_free, is_free_slot, is_no_dead, is_allowed, first_refused, firing_fault};
ghost use Rattle.replay.specs.Reads.{IsFiring, ReadsConditions, ReadsUpdates};

use crate::fault::StepFault;
use arrayvec::ArrayVec;
use cub_proto::{
    Branch, Chosen, Protocol, Slot, State, Target, Transition, Update, Val, Value, all_hold,
    any_holds,
};

/// Whether the process is there and alive.
pub fn is_alive(state: &State, process: u32) -> bool
    ensures { result ≡ is_alive state.now process }
{
    process < state.processes() && state.alive(process)
}

/// The first process that is not alive.
pub fn first_dead(state: &State, processes: &[u32]) -> Option<u32>
    ensures { result ≡ first_dead state.now processes.now }
{
    processes
        .iter()
        .copied()
        .find(|process| !is_alive(state, *process))
}

fn is_among(processes: &[u32], process: u32) -> bool
    ensures { result ≡ is_among processes.now process }
{
    processes.iter().any(|other| *other == process)
}

/// The first process equal to an earlier one.
pub fn first_repeat(processes: &[u32]) -> Option<u32>
    ensures { result ≡ first_repeat processes.now }
{
    for (at, process) in processes.iter().enumerate() {
        if is_among(&processes[..at], *process) {
            return Some(*process);
        }
    }
    None
}

/// The parameters and one more process.
pub fn widened(params: &[u32], process: u32) -> ArrayVec<u32, 4>
    requires { length params.now ≤ 3 }
    ensures { result.items ≡ params.now ++ process ∷ [] }
{
    let mut places = ArrayVec::new();
    for param in params {
        places.push(*param);
    }
    places.push(process);
    places
}

fn has_alternative(
    protocol: &Protocol,
    state: &State,
    transition: &Transition,
    params: &[u32],
    process: u32,
) -> bool
    requires firing { IsFiring protocol.now state.now transition.now params.now }
    requires process { process < process_count state.now }
    ensures { result ≡ any_true state.now (params.now ++ process ∷ []) transition.now.others }
{
    any_holds(
        state,
        transition.others.as_slice(),
        widened(params, process).as_slice(),
    )
}

fn is_blocking(
    protocol: &Protocol,
    state: &State,
    transition: &Transition,
    params: &[u32],
    process: u32,
) -> bool
    requires firing { IsFiring protocol.now state.now transition.now params.now }
    requires process { process < process_count state.now }
    ensures { result ≡ is_blocking state.now transition.now.others params.now process }
{
    is_alive(state, process)
        && !is_among(params, process)
        && !has_alternative(protocol, state, transition, params, process)
}

fn first_blocking(
    protocol: &Protocol,
    state: &State,
    transition: &Transition,
    params: &[u32],
) -> Option<u32>
    requires firing { IsFiring protocol.now state.now transition.now params.now }
    ensures { result ≡ first_blocking state.now transition.now.others params.now }
{
    for process in 0..state.processes() {
        if is_blocking(protocol, state, transition, params, process) {
            return Some(process);
        }
    }
    None
}

/// The value of the first branch with a true condition, else the last one.
pub fn counting(state: &State, places: &[u32], update: &Update) -> Value
    requires { ReadsConditions state.now places.now update.now }
    ensures { result ≡ counting state.now places.now update.now }
{
    for branch in update.branches.as_slice() {
        if all_hold(state, branch.cond.as_slice(), places) {
            return branch.value;
        }
    }
    update.last
}

fn is_any(value: Value) -> bool
    ensures { result ≡ is_any value }
{
    match value {
        Value::Any => true,
        Value::Con(_) | Value::Read(_) | Value::Proc(_) | Value::Sum { .. } => false,
    }
}

fn same_target(a: Target, b: Target) -> bool
    ensures { result ≡ same_target a b }
{
    match a {
        Target::Global(global) => match b {
            Target::Global(other) => global == other,
            Target::Array(_) => false,
        },
        Target::Array(array) => match b {
            Target::Global(_) => false,
            Target::Array(other) => array == other,
        },
    }
}

fn update_of(updates: &[Update], target: Target) -> Option<&Update>
    ensures { option_copied result ≡ update_of updates.now target }
{
    updates
        .iter()
        .find(|update| same_target(update.target, target))
}

fn is_free_global(state: &State, updates: &[Update], params: &[u32], global: u16) -> bool
    requires { ReadsUpdates state.now params.now updates.now }
    ensures { result ≡ is_free_slot state.now updates.now params.now (Slot.Global global) }
{
    match update_of(updates, Target::Global(global)) {
        Some(update) => is_any(counting(state, params, update)),
        None => false,
    }
}

fn is_free_cell(state: &State, updates: &[Update], params: &[u32], array: u16, process: u32) -> bool
    requires few { length params.now ≤ 3 }
    requires reads { ReadsUpdates state.now params.now updates.now }
    ensures { result ≡ is_free_slot state.now updates.now params.now (Slot.Cell array process) }
{
    if !is_alive(state, process) {
        return false;
    }
    match update_of(updates, Target::Array(array)) {
        Some(update) => is_any(counting(state, widened(params, process).as_slice(), update)),
        None => false,
    }
}

fn is_allowed(state: &State, updates: &[Update], params: &[u32], pick: &Chosen) -> bool
    requires few { length params.now ≤ 3 }
    requires reads { ReadsUpdates state.now params.now updates.now }
    ensures { result ≡ is_allowed state.now updates.now params.now pick.now }
{
    let free = match pick.slot {
        Slot::Global(global) => is_free_global(state, updates, params, global),
        Slot::Cell(array, process) => is_free_cell(state, updates, params, array, process),
    };
    free && match pick.val {
        Val::Proc(process) => is_alive(state, process),
        Val::Con(_) | Val::Int(_) => true,
    }
}

fn first_refused(
    state: &State,
    updates: &[Update],
    params: &[u32],
    picks: &[Chosen],
) -> Option<Chosen>
    requires few { length params.now ≤ 3 }
    requires reads { ReadsUpdates state.now params.now updates.now }
    ensures { result ≡ first_refused state.now updates.now params.now picks.now }
{
    for pick in picks {
        if !is_allowed(state, updates, params, pick) {
            return Some(*pick);
        }
    }
    None
}

/// The first fault of firing the transition.
pub fn firing_fault(
    protocol: &Protocol,
    state: &State,
    transition: &Transition,
    params: &[u32],
    picks: &[Chosen],
) -> Option<StepFault>
    requires firing { IsFiring protocol.now state.now transition.now params.now }
    requires few { length params.now ≤ 3 }
    requires reads { ReadsUpdates state.now params.now transition.now.updates }
    ensures { result ≡ firing_fault state.now transition.now params.now picks.now }
{
    if let Some(process) = first_dead(state, params) {
        return Some(StepFault::Dead { process });
    }
    if let Some(process) = first_repeat(params) {
        return Some(StepFault::Equal { process });
    }
    if !any_holds(state, transition.guard.as_slice(), params) {
        return Some(StepFault::Guard);
    }
    if let Some(process) = first_blocking(protocol, state, transition, params) {
        return Some(StepFault::Other { process });
    }
    match first_refused(state, transition.updates.as_slice(), params, picks) {
        Some(pick) => Some(StepFault::Pick { slot: pick.slot }),
        None => None,
    }
}
