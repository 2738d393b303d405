//! The picks of a step: one for each choice of a nondeterministic value, rising by slot.

ghost use Rattle.std.specs.Prelude.{◌≡◌, [], ◌∷◌, ◌++◌, map, IfOk, OnOk};
ghost use Rattle.std.specs.List.{range_with_len, flat_map};
ghost use Rattle.cub_proto.specs.declared.state.Slot.TheVariants as Slot;
ghost use Rattle.cub_proto.specs.Configuration.{process_count};
ghost use Rattle.cub_proto.specs.Effect.{same_slot};
ghost use Rattle.cub_proto.specs.StateOf.{IsStateOf};
ghost use Rattle.cub_proto.specs.Truth.{slot_of};
ghost use Rattle.piece_laws.specs.Event.{picked_value, pick_by, picks_by};
ghost use Rattle.trace_build.specs.Picks.{picks_at, has_no_pick};

use crate::standing::process_at;
use cub_base::{Items, Memory};
use cub_proto::{Chosen, PSide, Picked, Protocol, Slot, State, Term, Val, Value};
use std::alloc::{AllocError, Global};
use updates::Choice;

fn same_slot(a: Slot, b: Slot) -> bool
    ensures { result ≡ same_slot a b }
{
    match a {
        Slot::Global(global) => match b {
            Slot::Global(other) => global == other,
            Slot::Cell(_, _) => false,
        },
        Slot::Cell(array, process) => match b {
            Slot::Global(_) => false,
            Slot::Cell(other, another) => array == other && process == another,
        },
    }
}

fn slot_of(processes: &[u32], term: Term) -> Slot
    ensures { result ≡ slot_of processes.now term }
{
    match term {
        Term::Global(global) => Slot::Global(global),
        Term::Cell(array, place) => Slot::Cell(array, process_at(processes, place)),
    }
}

// The value that is picked; none for the old value of a global.
fn picked_value(processes: &[u32], pick: Option<Value>) -> Option<Val>
    ensures { result ≡ picked_value processes.now pick }
{
    match pick {
        Some(Value::Con(constructor)) => Some(Val::Con(constructor)),
        Some(Value::Proc(PSide::Place(place))) => Some(Val::Proc(process_at(processes, place))),
        Some(Value::Proc(PSide::Global(_))) => None,
        Some(Value::Read(_)) => None,
        Some(Value::Sum { .. }) => None,
        Some(Value::Any) => None,
        None => None,
    }
}

// The value that the choices pick for a slot.
fn pick_by(choices: &[Choice], processes: &[u32], slot: Slot) -> Option<Val>
    ensures { result ≡ pick_by choices.now processes.now slot }
{
    for choice in choices {
        if same_slot(slot_of(processes, choice.term), slot) {
            return picked_value(processes, choice.pick);
        }
    }
    None
}

fn push_pick(
    picks: &mut Picked,
    choices: &[Choice],
    processes: &[u32],
    slot: Slot,
) -> Result<(), AllocError>
    ensures { OnOk result (picks.new ≡ picks.old ++ picks_at choices.now processes.now (slot ∷ [])) }
{
    if let Some(val) = pick_by(choices, processes, slot) {
        picks.push(Chosen { slot, val })?;
    }
    Ok(())
}

fn push_globals(
    picks: &mut Picked,
    choices: &[Choice],
    processes: &[u32],
    globals: u16,
) -> Result<(), AllocError>
    ensures { OnOk result (picks.new ≡ picks.old ++ picks_at choices.now processes.now (map (λ g. Slot.Global g) (range_with_len 0 globals))) }
{
    for global in 0..globals {
        push_pick(picks, choices, processes, Slot::Global(global))?;
    }
    Ok(())
}

fn push_cells(
    picks: &mut Picked,
    choices: &[Choice],
    processes: &[u32],
    array: u16,
    count: u32,
) -> Result<(), AllocError>
    ensures { OnOk result (picks.new ≡ picks.old ++ picks_at choices.now processes.now (map (λ i. Slot.Cell array i) (range_with_len 0 count))) }
{
    for process in 0..count {
        push_pick(picks, choices, processes, Slot::Cell(array, process))?;
    }
    Ok(())
}

fn push_arrays(
    picks: &mut Picked,
    choices: &[Choice],
    processes: &[u32],
    arrays: u16,
    count: u32,
) -> Result<(), AllocError>
    ensures { OnOk result (picks.new ≡ picks.old ++ picks_at choices.now processes.now (flat_map (λ a. map (λ i. Slot.Cell a i) (range_with_len 0 count)) (range_with_len 0 arrays))) }
{
    for array in 0..arrays {
        push_cells(picks, choices, processes, array, count)?;
    }
    Ok(())
}

fn has_no_pick(choices: &[Choice]) -> bool
    ensures { result ≡ has_no_pick choices.now }
{
    choices.iter().all(|choice| choice.pick.is_none())
}

/// The picks of the choices in states with the slots of this one, where item `p` of `processes` is the process at place
/// `p`. Most labels have none, and then no slot is looked at.
pub fn picks_by(
    alloc: Global,
    protocol: &Protocol,
    state: &State,
    choices: &[Choice],
    processes: &[u32],
) -> Result<Picked, Memory>
    requires { IsStateOf protocol.now state.now }
    ensures { IfOk result (λ picks. picks ≡ picks_by state.now choices.now processes.now) }
{
    let mut picks = Items::new(alloc);
    if has_no_pick(choices) {
        return Ok(picks);
    }
    let globals = protocol.globals.len() as u16;
    let arrays = protocol.arrays.len() as u16;
    push_globals(&mut picks, choices, processes, globals)?;
    push_arrays(&mut picks, choices, processes, arrays, state.processes())?;
    Ok(picks)
}
