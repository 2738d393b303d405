//! Why a replay refuses a start state or an event.

use cub_proto::Slot;

/// Why a state starts no replay.
#[derive(Clone, Copy, Debug, PartialEq, Eq)]
pub enum StartFault {
    /// The first process at which the start formula is false.
    Not { process: u32 },
    Memory,
}

/// Why an event is not legal: the first reason in this order.
#[derive(Clone, Copy, Debug, PartialEq, Eq)]
pub enum StepFault {
    /// The dead process of a crash, or the first dead parameter.
    Dead { process: u32 },
    /// The first parameter equal to an earlier one.
    Equal { process: u32 },
    /// No alternative of the guard is true.
    Guard,
    /// The first alive process that is no parameter, for which no alternative of the universal guard is true.
    Other { process: u32 },
    /// The slot of the first pick that is not allowed.
    Pick { slot: Slot },
}

/// The first event of a list that is refused: its number, from 0, and its fault.
#[derive(Clone, Copy, Debug, PartialEq, Eq)]
pub struct Refused {
    pub number: u32,
    pub fault: StepFault,
}
