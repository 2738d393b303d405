//! The states with which a replay may begin, and the first process at which a start formula is false.

ghost use Rattle.std.specs.Prelude.{◌≡◌, ◌<◌, ◌∷◌, [], nat_le, IsTrue, IfOk};
ghost use Rattle.cub_proto.specs.Configuration.{process_count, put};
ghost use Rattle.cub_proto.specs.StateOf.{IsStateOf, first_state};
ghost use Rattle.replay.specs.Bound.{size_of, greatest_start};
ghost use Rattle.replay.specs.FitsStart.{FitsStart, is_start_value};
ghost use Rattle.cub_proto.specs.Truth.{any_true};
ghost use Rattle.replay.specs.Start.{first_unstarted};

use crate::fits::slot_takes;
use cub_base::Memory;
use cub_proto::{Protocol, Slot, State, Val, any_holds};
use std::alloc::Global;

const GREATEST_START: u64 = 1_152_921_504_606_846_976;

/// The state of so many processes where all are alive and each value is the first constructor, process 0 or 0.
pub fn first_state(alloc: Global, protocol: &Protocol, processes: u32) -> Result<State, Memory>
    requires { 0 < processes }
    ensures value { IfOk result (λ s. s ≡ first_state protocol.now processes) }
    ensures fits { IfOk result (FitsStart protocol.now) }
{
    State::new(alloc, protocol, processes)
}

fn is_small(val: Val) -> bool
    ensures { result ≡ nat_le (size_of val) greatest_start }
{
    match val {
        Val::Int(integer) => integer.unsigned_abs() <= GREATEST_START,
        Val::Con(_) | Val::Proc(_) => true,
    }
}

/// Whether a replay may begin with the value at the slot, where there are `processes` processes: the slot is there, the
/// value is of its sort, and an integer is at most 2^60 in size.
pub fn is_start_value(protocol: &Protocol, processes: u32, slot: Slot, val: Val) -> bool
    ensures { result ≡ is_start_value protocol.now processes slot val }
{
    slot_takes(protocol, processes, slot, val) && is_small(val)
}

/// Changes the value at a slot of a state with which a replay may begin.
pub fn set_start(protocol: &Protocol, state: &mut State, slot: Slot, val: Val)
    requires state { FitsStart protocol.now state.old }
    requires value { IsTrue (is_start_value protocol.now (process_count state.old) slot val) }
    ensures set { state.new ≡ put state.old slot val }
    ensures fits { FitsStart protocol.now state.new }
{
    state.set(slot, val);
}

fn begins(protocol: &Protocol, state: &State, process: u32) -> bool
    requires state_of { IsStateOf protocol.now state.now }
    requires process { process < process_count state.now }
    ensures { result ≡ any_true state.now (process ∷ []) protocol.now.start }
{
    any_holds(state, protocol.start.as_slice(), &[process])
}

/// The first process at which the start formula is false.
pub fn first_unstarted(protocol: &Protocol, state: &State) -> Option<u32>
    requires { IsStateOf protocol.now state.now }
    ensures { result ≡ first_unstarted protocol.now state.now }
{
    for process in 0..state.processes() {
        if !begins(protocol, state, process) {
            return Some(process);
        }
    }
    None
}
