//! The machine. It keeps the state twice, so that a step takes no memory: the values after a transition are computed
//! from one copy and written into the other. Integers are small at the start and a step adds little to them, so no sum
//! of a replay leaves its type.

ghost use Rattle.std.specs.Prelude.{◌≡◌, ◌<◌, ◌≤◌, ◌+◌, ◌↔◌, ℕ, length, Some, All, IsTrue, IsOk, OnOk, OnErr, IfOk, IfErr, Err};
ghost use Rattle.std.specs.Result.{result_err};

use crate::fault::{Refused, StartFault, StepFault};
use crate::start::first_unstarted;
use crate::step::apply;
use crate::unsafe_state::satisfies;
use cub_proto::{Event, Protocol, State};
use std::marker::Model;

/// A replay: a state of a protocol, and how many events led to it.
#[derive(Debug, Drop)]
pub struct Machine<'a> {
    protocol: &'a Protocol,
    state: State,
    twin: State,
    accepted: u32,
}

impl<'a> Model for Machine<'a> {
    ghost use Rattle.replay.specs.Machine.{Replay, IsReady};

    ghost Value = { Replay };

    ghost view = { λ m. record { protocol = m.protocol.now; state = m.state; accepted = m.accepted } };

    ghost invariant = { λ m. IsReady m.protocol.now m.state m.twin m.accepted };
}

impl<'a> Machine<'a> {
    ghost use Rattle.cub_proto.specs.Configuration.{process_count};
    ghost use Rattle.cub_proto.specs.StateOf.{IsStateOf};
    ghost use Rattle.cub_proto.specs.Legal.{IsStart, IsLegal, AreLegal, after};
    ghost use Rattle.replay.specs.declared.fault.StartFault.TheVariants as StartFault;
    ghost use Rattle.replay.specs.Bound.{most_events};
    ghost use Rattle.replay.specs.FitsStart.{FitsStart};
    ghost use Rattle.replay.specs.FitsEvent.{FitsEvent};
    ghost use Rattle.replay.specs.Fault.{fault_at};
    ghost use Rattle.replay.specs.Start.{first_unstarted};
    ghost use Rattle.replay.specs.Machine.{MakesUnsafe, IsFirstRefused, after_events};

    /// A replay from a start state.
    pub fn new(protocol: &'a Protocol, state: State) -> Result<Machine<'a>, StartFault>
        requires { FitsStart protocol.now state }
        ensures ok { IfOk result (λ m. m ≡ record { protocol = protocol.now; state = state; accepted = 0 }) }
        ensures start { OnOk result (IsStart protocol.now state) }
        ensures fault { (i : ℕ) → result ≡ Err (StartFault.Not i) → first_unstarted protocol.now state ≡ Some i }
    {
        if let Some(process) = first_unstarted(protocol, &state) {
            return Err(StartFault::Not { process });
        }
        match state.copy() {
            Ok(twin) => Ok(Machine {
                protocol,
                state,
                twin,
                accepted: 0,
            }),
            Err(_) => Err(StartFault::Memory),
        }
    }

    /// Replays the event if it is legal, and else names its first fault and changes nothing. It takes no memory. At most
    /// 131,072 events are replayed.
    pub fn step(&mut self, event: &Event) -> Result<(), StepFault>
        requires fits { FitsEvent self.old.protocol (process_count self.old.state) event.now }
        requires room { self.old.accepted < most_events }
        ensures fault { result_err result ≡ fault_at self.old.protocol self.old.state event.now }
        ensures legal { IsOk result ↔ IsLegal self.old.protocol self.old.state event.now }
        ensures ok { OnOk result (self.new ≡ record self.old {
          state = after self.old.protocol self.old.state event.now;
          accepted = self.old.accepted + 1;
        }) }
        ensures err { OnErr result (self.new ≡ self.old) }
    {
        match apply(self.protocol, &mut self.state, &mut self.twin, event) {
            Ok(()) => {
                self.accepted += 1;
                Ok(())
            }
            Err(fault) => Err(fault),
        }
    }

    /// Replays the events in order, up to the first that is refused.
    pub fn run(&mut self, events: &[Event]) -> Result<(), Refused>
        requires fits { All (FitsEvent self.old.protocol (process_count self.old.state)) events.now }
        requires room { self.old.accepted + length events.now ≤ most_events }
        ensures legal { OnOk result (AreLegal self.old.protocol self.old.state events.now) }
        ensures ok { OnOk result (self.new ≡ after_events self.old events.now (length events.now)) }
        ensures refused { IfErr result (IsFirstRefused self.old self.new events.now) }
    {
        for (number, event) in events.iter().enumerate() {
            if let Err(fault) = self.step(event) {
                return Err(Refused {
                    number: number as u32,
                    fault,
                });
            }
        }
        Ok(())
    }

    /// Whether the processes are distinct, alive and as many as the unsafe conjunction with that number has places, and
    /// make it true. It is false where there is no such conjunction.
    pub fn ends_unsafe(&self, goal: u32, places: &[u32]) -> bool
        ensures { IsTrue result ↔ MakesUnsafe self.now.protocol self.now.state goal places.now }
    {
        match self.protocol.goals.get(goal as usize) {
            Some(goal) => satisfies(self.protocol, &self.state, goal, places),
            None => false,
        }
    }

    /// The state that the events left.
    pub fn state(&self) -> &State
        ensures value { result.now ≡ self.now.state }
        ensures state_of { IsStateOf self.now.protocol self.now.state }
    {
        &self.state
    }

    /// How many events were replayed.
    pub fn accepted(&self) -> u32
        ensures value { result ≡ self.now.accepted }
        ensures few { result ≤ most_events }
    {
        self.accepted
    }
}
