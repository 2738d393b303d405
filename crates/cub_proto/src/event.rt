//! Events, and the runs that a trace tells.

use crate::state::{Slot, State, Val};
use cub_base::Items;

/// A value picked for a slot whose update gives any value.
#[derive(Clone, Copy, Debug, PartialEq, Eq)]
pub struct Chosen {
    pub slot: Slot,
    pub val: Val,
}

/// Processes of a state, from 0.
pub type Processes = Items<u32>;
/// The picks of an event, rising by slot.
pub type Picked = Items<Chosen>;

/// The crash of a process, or a transition with its parameters and picks.
#[derive(Debug, Drop)]
pub enum Event {
    Crash {
        process: u32,
    },
    Fire {
        transition: u16,
        params: Processes,
        picks: Picked,
    },
}

pub type Events = Items<Event>;

/// Where a run without its crashes fails first: the number of the step, counted from 0 among the steps alone, and the
/// first process at which the universal guard is false there.
#[derive(Clone, Copy, Debug, PartialEq, Eq)]
pub struct Plain {
    pub step: u32,
    pub process: u32,
}

/// A run to an unsafe state: the start, the events, the number of the unsafe conjunction and its processes.
/// `plain` is there where the run has crashes.
#[derive(Debug, Drop)]
pub struct Trace {
    pub start: State,
    pub events: Events,
    pub goal: u32,
    pub places: Processes,
    pub plain: Option<Plain>,
}
