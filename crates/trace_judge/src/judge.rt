//! The replay of a trace: its start state, its events, its unsafe line, its heading, and with crashes its plain line.

ghost use Rattle.std.specs.Prelude.{◌≡◌, ◌↔◌, IsTrue, OnOk, IfOk, IfErr, ℕ, List, Option, Some, Err, filter, not, All, length, ◌≤◌};
ghost use Rattle.std.specs.List.{list_any};
ghost use Rattle.cub_proto.specs.Configuration.{process_count};
ghost use Rattle.replay.specs.Bound.{most_events};
ghost use Rattle.replay.specs.FitsEvent.{FitsEvent};
ghost use Rattle.replay.specs.FitsStart.{FitsStart};
ghost use Rattle.replay.specs.Start.{first_unstarted};
ghost use Rattle.trace_judge.specs.Trace.{MayReplay, AreEvents};
ghost use Rattle.trace_judge.specs.Judge.{IsUnsafeRun, IsAccepted, IsRefused};
ghost use Rattle.trace_judge.specs.Plain.{is_step, first_fault, heading_fits, is_other, is_told, fails_plainly};
ghost use Rattle.trace_judge.specs.declared.judge.Refusal.TheVariants as Refusal;

use cub_proto::{Event, Plain, Protocol, State, Trace};
use replay::{Machine, Refused, StartFault, StepFault};

/// Why a trace is refused: the first of these.
#[derive(Clone, Copy)]
pub enum Refusal {
    /// The start formula is false at this process, and at no earlier one.
    NoStart { process: u32 },
    /// The first event that is not legal, and its fault.
    NoStep { refused: Refused },
    /// The named processes do not make the named unsafe conjunction true.
    NoGoal,
    /// The heading says that there are crashes, and there are none, or the other way round.
    NoHeading,
    /// The steps alone do not fail as the trace says.
    NoPlain,
    Memory,
}

// The start and the events, and the unsafe line at their end.
fn unsafe_run(
    protocol: &Protocol,
    start: State,
    events: &[Event],
    goal: u32,
    places: &[u32],
) -> Result<(), Refusal>
    requires { MayReplay protocol.now start events.now }
    ensures ok { OnOk result (IsUnsafeRun protocol.now start events.now goal places.now) }
    ensures refused { (plain : Option Plain) → IfErr result (IsRefused protocol.now start events.now goal places.now plain) }
{
    let mut machine = match Machine::new(protocol, start) {
        Ok(machine) => machine,
        Err(StartFault::Not { process }) => return Err(Refusal::NoStart { process }),
        Err(StartFault::Memory) => return Err(Refusal::Memory),
    };
    if let Err(refused) = machine.run(events) {
        return Err(Refusal::NoStep { refused });
    }
    if machine.ends_unsafe(goal, places) {
        Ok(())
    } else {
        Err(Refusal::NoGoal)
    }
}

fn is_step(event: &Event) -> bool
    ensures { result ≡ is_step event.now }
{
    match event {
        Event::Crash { .. } => false,
        Event::Fire { .. } => true,
    }
}

fn has_crash(events: &[Event]) -> bool
    ensures { result ≡ list_any (λ e. not (is_step e)) events.now }
{
    events.iter().any(|event| !is_step(event))
}

fn heading_fits(plain: Option<Plain>, events: &[Event]) -> bool
    ensures { result ≡ heading_fits plain events.now }
{
    match plain {
        Some(_) => has_crash(events),
        None => !has_crash(events),
    }
}

// The first fault of the steps without the crashes.
fn first_fault(machine: &mut Machine, events: &[Event]) -> Option<Refused>
    requires fits { All (FitsEvent machine.old.protocol (process_count machine.old.state)) events.now }
    requires fresh { machine.old.accepted ≡ 0 }
    requires few { length events.now ≤ most_events }
    ensures { result ≡ first_fault machine.old.protocol machine.old.state (filter is_step events.now) 0 }
{
    let mut number = 0;
    for event in events {
        if is_step(event) {
            if let Err(fault) = machine.step(event) {
                return Some(Refused { number, fault });
            }
            number += 1;
        }
    }
    None
}

fn is_other(fault: StepFault, process: u32) -> bool
    ensures { result ≡ is_other fault process }
{
    match fault {
        StepFault::Other { process: blocking } => blocking == process,
        _ => false,
    }
}

fn is_told(refused: Option<Refused>, plain: Plain) -> bool
    ensures { result ≡ is_told refused plain }
{
    match refused {
        Some(refused) => refused.number == plain.step && is_other(refused.fault, plain.process),
        None => false,
    }
}

// Whether the steps alone fail as the trace says.
fn fails_plainly(
    protocol: &Protocol,
    start: State,
    events: &[Event],
    plain: Plain,
) -> Result<bool, Refusal>
    requires { MayReplay protocol.now start events.now }
    ensures value { IfOk result (λ fails. fails ≡ fails_plainly protocol.now start events.now plain) }
    ensures refused { (goal : ℕ) → (places : List ℕ) → IfErr result (IsRefused protocol.now start events.now goal places (Some plain)) }
{
    let mut machine = match Machine::new(protocol, start) {
        Ok(machine) => machine,
        Err(StartFault::Not { process }) => return Err(Refusal::NoStart { process }),
        Err(StartFault::Memory) => return Err(Refusal::Memory),
    };
    Ok(is_told(first_fault(&mut machine, events), plain))
}

/// Replays the trace on the protocol.
pub fn replayed(protocol: &Protocol, trace: Trace) -> Result<(), Refusal>
    requires { MayReplay protocol.now trace.start trace.events }
    ensures ok { OnOk result (IsAccepted protocol.now trace.start trace.events trace.goal trace.places trace.plain) }
    ensures refused { IfErr result (IsRefused protocol.now trace.start trace.events trace.goal trace.places trace.plain) }
{
    let Trace {
        start,
        events,
        goal,
        places,
        plain,
    } = trace;
    let twin = match start.copy() {
        Ok(twin) => twin,
        Err(_) => return Err(Refusal::Memory),
    };
    if let Err(refusal) = unsafe_run(protocol, start, events.as_slice(), goal, places.as_slice()) {
        return Err(refusal);
    }
    if !heading_fits(plain, events.as_slice()) {
        return Err(Refusal::NoHeading);
    }
    match plain {
        None => Ok(()),
        Some(plain) => match fails_plainly(protocol, twin, events.as_slice(), plain) {
            Ok(true) => Ok(()),
            Ok(false) => Err(Refusal::NoPlain),
            Err(refusal) => Err(refusal),
        },
    }
}
