//! Replays the events of a run one by one from a start state: which are legal, what state they leave, and why the first
//! that is not legal is refused.
#![tactic(auto)]

// Why a start state or an event is refused.
mod fault;

pub use fault::{Refused, StartFault, StepFault};

// Whether events may be given to a machine.
mod fits;

pub use fits::{fit_events, fits_event, picks_rise, slot_takes};

// States to begin with.
mod start;

pub use start::{first_state, is_start_value, set_start};

// The machine: a start state, events, what they left.
mod machine;

pub use machine::Machine;

// Its parts: the first fault of an event, its effect, one event, unsafe states.
mod effect;
mod fault_at;
mod step;
#[cfg(test)]
mod tests;
mod unsafe_state;
