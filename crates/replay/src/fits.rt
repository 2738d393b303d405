//! Whether an event speaks of what a protocol and its processes have. These are the conditions of a step; they take the
//! number of processes and no state, so that a list of events is tested once, before any of them is replayed.

ghost use Rattle.std.specs.Prelude.{◌≡◌, ◌↔◌, IsTrue, All};
ghost use Rattle.cub_proto.specs.declared.literal.Sort.TheVariants as Sort;
ghost use Rattle.cub_proto.specs.Signature.{constructors_of, declared_sort};
ghost use Rattle.cub_proto.specs.StateOf.{signature_of};
ghost use Rattle.cub_proto.specs.Legal.{slot_before, picks_rise};
ghost use Rattle.replay.specs.FitsEvent.{is_of_sort, is_declared, slot_takes, fits_transition, fits_event, FitsEvent};
ghost use Rattle.std.specs.List.{list_all};
ghost use Rattle.std.specs.Prelude.{nat_lt};

use cub_proto::{Chosen, Decl, Event, Protocol, Slot, Sort, Transition, Val};

fn constructors(protocol: &Protocol, sort: u16) -> usize
    ensures { result ≡ constructors_of (signature_of protocol.now) (Sort.Fin sort) }
{
    match protocol.sorts.get(sort as usize) {
        Some(decl) => decl.cons.len(),
        None => 0,
    }
}

fn is_of_sort(protocol: &Protocol, processes: u32, sort: Sort, val: Val) -> bool
    ensures { result ≡ is_of_sort (signature_of protocol.now) processes sort val }
{
    match sort {
        Sort::Fin(number) => match val {
            Val::Con(constructor) => (constructor as usize) < constructors(protocol, number),
            Val::Proc(_) | Val::Int(_) => false,
        },
        Sort::Proc => match val {
            Val::Proc(process) => process < processes,
            Val::Con(_) | Val::Int(_) => false,
        },
        Sort::Int => match val {
            Val::Int(_) => true,
            Val::Con(_) | Val::Proc(_) => false,
        },
    }
}

fn declared_sort(decls: &[Decl], number: u16) -> Option<Sort>
    ensures { result ≡ declared_sort decls.now number }
{
    match decls.get(number as usize) {
        Some(decl) => Some(decl.sort),
        None => None,
    }
}

fn is_declared(protocol: &Protocol, processes: u32, sort: Option<Sort>, val: Val) -> bool
    ensures { result ≡ is_declared (signature_of protocol.now) processes sort val }
{
    match sort {
        Some(sort) => is_of_sort(protocol, processes, sort, val),
        None => false,
    }
}

/// Whether the slot is there, with a value of its sort, where there are `processes` processes.
pub fn slot_takes(protocol: &Protocol, processes: u32, slot: Slot, val: Val) -> bool
    ensures { result ≡ slot_takes protocol.now processes slot val }
{
    match slot {
        Slot::Global(global) => {
            let sort = declared_sort(protocol.globals.as_slice(), global);
            is_declared(protocol, processes, sort, val)
        }
        Slot::Cell(array, process) => {
            let sort = declared_sort(protocol.arrays.as_slice(), array);
            process < processes && is_declared(protocol, processes, sort, val)
        }
    }
}

fn slot_before(a: Slot, b: Slot) -> bool
    ensures { result ≡ slot_before a b }
{
    match a {
        Slot::Global(g) => match b {
            Slot::Global(h) => g < h,
            Slot::Cell(_, _) => true,
        },
        Slot::Cell(array, process) => match b {
            Slot::Global(_) => false,
            Slot::Cell(other, next) => array < other || (array == other && process < next),
        },
    }
}

/// Whether the picks rise strictly by slot: globals before cells, cells by array and then by process.
pub fn picks_rise(picks: &[Chosen]) -> bool
    ensures { result ≡ picks_rise picks.now }
{
    for at in 1..picks.len() {
        if !slot_before(picks[at - 1].slot, picks[at].slot) {
            return false;
        }
    }
    true
}

fn are_processes(processes: u32, params: &[u32]) -> bool
    ensures { result ≡ list_all (λ i. nat_lt i processes) params.now }
{
    params.iter().all(|param| *param < processes)
}

fn slots_take(protocol: &Protocol, processes: u32, picks: &[Chosen]) -> bool
    ensures { result ≡ list_all (λ c. slot_takes protocol.now processes c.slot c.val) picks.now }
{
    picks.iter().all(|pick| slot_takes(protocol, processes, pick.slot, pick.val))
}

fn fits_transition(
    protocol: &Protocol,
    processes: u32,
    transition: &Transition,
    params: &[u32],
    picks: &[Chosen],
) -> bool
    ensures { result ≡ fits_transition protocol.now processes (Some transition.now) params.now picks.now }
{
    params.len() == transition.params as usize
        && are_processes(processes, params)
        && picks_rise(picks)
        && slots_take(protocol, processes, picks)
}

/// Whether the event speaks of what the protocol and its `processes` processes have: a process; or a transition, as
/// many parameters as it has, all of them processes, and picks that rise strictly by slot, each with a slot that is
/// there and a value of its sort. What the event speaks of need not be legal.
pub fn fits_event(protocol: &Protocol, processes: u32, event: &Event) -> bool
    ensures { IsTrue result ↔ FitsEvent protocol.now processes event.now }
{
    match event {
        Event::Crash { process } => *process < processes,
        Event::Fire {
            transition,
            params,
            picks,
        } => {
            match protocol.transitions.get(*transition as usize) {
                Some(transition) => {
                    fits_transition(
                        protocol,
                        processes,
                        transition,
                        params.as_slice(),
                        picks.as_slice(),
                    )
                }
                None => false,
            }
        }
    }
}

/// Whether each of the events does.
pub fn fit_events(protocol: &Protocol, processes: u32, events: &[Event]) -> bool
    ensures { IsTrue result ↔ All (FitsEvent protocol.now processes) events.now }
{
    events
        .iter()
        .all(|event| fits_event(protocol, processes, event))
}
