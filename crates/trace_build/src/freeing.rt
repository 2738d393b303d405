//! The steps replayed, each after the crashes of those that block it. Up to the first step that is blocked this is the run
//! without crashes, so that step and its first process are where the run without crashes fails.

ghost use Rattle.std.specs.Prelude.{◌≡◌, ◌+◌, ◌≤◌, ◌++◌, length, slice_get, option_map, All, OnOk, IfOk};
ghost use Rattle.std.specs.Option.{option_or};
ghost use Rattle.cub_proto.specs.Configuration.{process_count};
ghost use Rattle.cub_proto.specs.Legal.{IsStart, AreLegal, after_all};
ghost use Rattle.replay.specs.Bound.{most_events};
ghost use Rattle.replay.specs.FitsEvent.{FitsEvent};
ghost use Rattle.replay.specs.FitsStart.{FitsStart};
ghost use Rattle.replay.specs.Machine.{after_events};
ghost use Rattle.trace_laws.specs.Blocked.{blocked, freed, with_crashes};
ghost use Rattle.trace_laws.specs.Leads.{LeadsTo, first_blocked};

use crate::blocking::{blocked, push_crashes, push_event};
use cub_base::{Items, Memory};
use cub_proto::{Event, Events, Plain, Protocol, State};
use replay::{Machine, StartFault};
use std::alloc::Global;

/// Events with the crashes that they need, and where they fail without.
#[derive(Debug, Drop)]
pub struct Freed {
    pub events: Events,
    pub plain: Option<Plain>,
}

// Replays legal events.
fn replay_all(machine: &mut Machine, events: &[Event])
    requires legal { AreLegal machine.old.protocol machine.old.state events.now }
    requires fits { All (FitsEvent machine.old.protocol (process_count machine.old.state)) events.now }
    requires room { machine.old.accepted + length events.now ≤ most_events }
    ensures { machine.new ≡ after_events machine.old events.now (length events.now) }
{
    match machine.run(events) {
        Ok(()) => (),
        Err(_) => unreachable!(),
    }
}

// Appends the crashes of those that block the step, and the step, and replays them. It tells the first that blocks it.
fn free_step(
    alloc: Global,
    protocol: &Protocol,
    machine: &mut Machine,
    events: &mut Events,
    step: Event,
) -> Result<Option<u32>, Memory>
    requires same { machine.old.protocol ≡ protocol.now }
    requires legal { AreLegal protocol.now machine.old.state (freed protocol.now machine.old.state step) }
    requires fits { All (FitsEvent protocol.now (process_count machine.old.state)) (freed protocol.now machine.old.state step) }
    requires room { machine.old.accepted + length (freed protocol.now machine.old.state step) ≤ most_events }
    ensures state { OnOk result (machine.new ≡ after_events machine.old (freed protocol.now machine.old.state step) (length (freed protocol.now machine.old.state step))) }
    ensures events { OnOk result (events.new ≡ events.old ++ freed protocol.now machine.old.state step) }
    ensures first { IfOk result (λ first. first ≡ slice_get (blocked protocol.now machine.old.state step) 0) }
{
    let from = events.len();
    let list = blocked(alloc, protocol, machine.state(), &step)?;
    push_crashes(events, list.as_slice())?;
    push_event(events, step)?;
    replay_all(machine, &events.as_slice()[from..]);
    Ok(list.as_slice().first().copied())
}

fn started(protocol: &Protocol, start: State) -> Result<Machine<'_>, Memory>
    requires fits { FitsStart protocol.now start }
    requires start { IsStart protocol.now start }
    ensures { IfOk result (λ m. m ≡ record { protocol = protocol.now; state = start; accepted = 0 }) }
{
    match Machine::new(protocol, start) {
        Ok(machine) => Ok(machine),
        Err(StartFault::Not { .. }) => unreachable!(),
        Err(StartFault::Memory) => Err(Memory),
    }
}

// What was first told, or where this step fails.
fn first_of(plain: Option<Plain>, step: u32, process: Option<u32>) -> Option<Plain>
    ensures { result ≡ option_or plain (option_map (λ i. record { step = step; process = i }) process) }
{
    match plain {
        Some(plain) => Some(plain),
        None => match process {
            Some(process) => Some(Plain { step, process }),
            None => None,
        },
    }
}

/// The steps with the crashes before each of those that block it, and the first step that is blocked with its first process.
pub fn with_crashes(
    alloc: Global,
    protocol: &Protocol,
    start: State,
    steps: Events,
    goal: u32,
    places: &[u32],
) -> Result<Freed, Memory>
    requires fits { FitsStart protocol.now start }
    requires start { IsStart protocol.now start }
    requires leads { LeadsTo protocol.now start steps goal places.now }
    requires few { length steps + process_count start ≤ most_events }
    ensures events { IfOk result (λ f. f.events ≡ with_crashes protocol.now start steps) }
    ensures plain { IfOk result (λ f. f.plain ≡ first_blocked protocol.now start steps 0) }
{
    let mut events = Items::with_room(alloc, steps.len())?;
    let mut plain = None;
    let mut number = 0;
    let mut machine = started(protocol, start)?;
    for step in steps.into_vec() {
        let first = free_step(alloc, protocol, &mut machine, &mut events, step)?;
        plain = first_of(plain, number, first);
        number += 1;
    }
    Ok(Freed { events, plain })
}
