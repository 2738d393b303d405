//! The step that a label names.

ghost use Rattle.std.specs.Prelude.{◌≡◌, IfOk};
ghost use Rattle.cub_proto.specs.StateOf.{IsStateOf};
ghost use Rattle.cub_cube.specs.Rename.{along};
ghost use Rattle.trace_laws.specs.Standing.{step_by};

use crate::picking::picks_by;
use crate::standing::process_at;
use cub_base::{Items, Memory};
use cub_proto::{Event, Processes, Protocol, State};
use piece_choices::Label;
use std::alloc::{AllocError, Global};

fn along(alloc: Global, places: &[u8], processes: &[u32]) -> Result<Processes, AllocError>
    ensures { IfOk result (λ list. list ≡ along places.now processes.now) }
{
    let mut list = Items::with_room(alloc, places.len())?;
    for place in places {
        list.push(process_at(processes, *place))?;
    }
    Ok(list)
}

/// The firing that the label names, where item `p` of `processes` is the process at place `p` of its piece. It is the same in
/// all states of so many processes.
pub fn step_by(
    alloc: Global,
    protocol: &Protocol,
    state: &State,
    label: &Label,
    processes: &[u32],
) -> Result<Event, Memory>
    requires { IsStateOf protocol.now state.now }
    ensures { IfOk result (λ e. e ≡ step_by state.now label.now processes.now) }
{
    let params = along(alloc, label.params.as_slice(), processes)?;
    let picks = picks_by(alloc, protocol, state, label.choices.as_slice(), processes)?;
    Ok(Event::Fire {
        transition: label.transition,
        params,
        picks,
    })
}
