//! Whether named processes make an unsafe conjunction true.

ghost use Rattle.std.specs.Prelude.{◌≡◌, ◌↔◌, IsTrue};
ghost use Rattle.cub_proto.specs.Fits.{goal_fits};
ghost use Rattle.cub_proto.specs.StateOf.{IsStateOf, signature_of};
ghost use Rattle.cub_proto.specs.Meets.{Satisfies};
ghost use Rattle.cub_proto.specs.Legal.{AreDistinctAlive};

use crate::fault_at::{first_dead, first_repeat};
use cub_proto::{Goal, Protocol, State, all_hold};

fn are_distinct_alive(state: &State, processes: &[u32]) -> bool
    ensures { IsTrue result ↔ AreDistinctAlive state.now processes.now }
{
    match first_dead(state, processes) {
        Some(_) => false,
        None => match first_repeat(processes) {
            Some(_) => false,
            None => true,
        },
    }
}

/// Whether the processes, one for each place, satisfy the conjunction.
pub fn satisfies(protocol: &Protocol, state: &State, goal: &Goal, places: &[u32]) -> bool
    requires state_of { IsStateOf protocol.now state.now }
    requires fits { IsTrue (goal_fits (signature_of protocol.now) goal.now) }
    ensures { IsTrue result ↔ Satisfies state.now places.now goal.now.width goal.now.lits }
{
    if places.len() != goal.width as usize {
        return false;
    }
    if !are_distinct_alive(state, places) {
        return false;
    }
    all_hold(state, goal.lits.as_slice(), places)
}
