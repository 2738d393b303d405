//! What a choice says: the literals of its way and the value of its term.

ghost use Rattle.std.specs.Prelude.{◌≡◌, ◌++◌, ◌<◌, length, Some, IsTrue, OnOk};
ghost use Rattle.std.specs.List.{list_all};
ghost use Rattle.cub_proto.specs.StateOf.{signature_of};
ghost use Rattle.cub_proto.specs.Fits.{literal_fits, place_fits, update_fits};
ghost use Rattle.cub_proto.specs.Effect.{update_of};
ghost use Rattle.cub_cube.specs.Rename.{value_within};
ghost use Rattle.cub_cube.specs.Step.{target_of};
ghost use Rattle.updates.specs.Ways.{way_value};
ghost use Rattle.updates.specs.Chosen.{reading_places, lits_by, choice_lits, value_by, chosen_value, taken, taken_value};
ghost use Rattle.updates.specs.Allowed.{way_fits};

use crate::choice::Choice;
use crate::ways::{push_way, update_of, way_value};
use cub_base::Places;
use cub_cube::renamed_value;
use cub_proto::{Lits, Protocol, Target, Term, Update, Value};
use std::alloc::{AllocError, Global};

fn target_of(term: Term) -> Target
    ensures { result ≡ target_of term }
{
    match term {
        Term::Global(global) => Target::Global(global),
        Term::Cell(array, _) => Target::Array(array),
    }
}

fn copied(alloc: Global, params: &[u8]) -> Places
    requires { length params.now < 12 }
    ensures { result ≡ params.now }
{
    let mut places = Places::new(alloc);
    for place in params {
        places.push(*place);
    }
    places
}

/// The places at which a term's update is read: those of the parameters, and for a cell its own behind them.
pub fn reading_places(alloc: Global, params: &[u8], term: Term) -> Places
    requires { length params.now < 12 }
    ensures { result ≡ reading_places params.now term }
{
    let mut places = copied(alloc, params);
    if let Term::Cell(_, place) = term {
        places.push(place);
    }
    places
}

fn value_by(alloc: Global, update: &Update, params: &[u8], choice: &Choice) -> Value
    requires few { length params.now < 12 }
    requires within { IsTrue (value_within (length (reading_places params.now choice.now.term)) (way_value update.now choice.now.branch)) }
    ensures { result ≡ value_by (Some update.now) params.now choice.now }
{
    let places = reading_places(alloc, params, choice.term);
    renamed_value(places.as_slice(), &way_value(update, choice.branch))
}

/// The value of the chosen branch at the places of the cube, perhaps `?`.
pub fn chosen_value(
    alloc: Global,
    protocol: &Protocol,
    updates: &[Update],
    params: &[u8],
    choice: &Choice,
) -> Value
    requires few { length params.now < 12 }
    requires fit { IsTrue (list_all (update_fits (signature_of protocol.now) (length params.now)) updates.now) }
    ensures { result ≡ chosen_value updates.now params.now choice.now }
{
    match update_of(updates, target_of(choice.term)) {
        Some(update) => value_by(alloc, update, params, choice),
        None => Value::Read(choice.term),
    }
}

fn taken(pick: Option<Value>, value: Value) -> Value
    ensures { result ≡ taken pick value }
{
    match value {
        Value::Any => pick.unwrap_or(Value::Any),
        Value::Con(_) | Value::Read(_) | Value::Proc(_) | Value::Sum { .. } => value,
    }
}

/// The value that the term takes: for `?` the pick.
pub fn taken_value(
    alloc: Global,
    protocol: &Protocol,
    updates: &[Update],
    params: &[u8],
    choice: &Choice,
) -> Value
    requires few { length params.now < 12 }
    requires fit { IsTrue (list_all (update_fits (signature_of protocol.now) (length params.now)) updates.now) }
    ensures { result ≡ taken_value updates.now params.now choice.now }
{
    taken(
        choice.pick,
        chosen_value(alloc, protocol, updates, params, choice),
    )
}

fn push_lits_by(
    protocol: &Protocol,
    lits: &mut Lits,
    update: &Update,
    params: &[u8],
    choice: &Choice,
) -> Result<(), AllocError>
    requires few { length params.now < 12 }
    requires fits { IsTrue (list_all (λ b. list_all (literal_fits (signature_of protocol.now) (length (reading_places params.now choice.now.term))) b.cond) update.now.branches) }
    requires way { IsTrue (way_fits (Some update.now) choice.now) }
    ensures { OnOk result (lits.new ≡ lits.old ++ lits_by (signature_of protocol.now) (Some update.now) params.now choice.now) }
{
    let places = reading_places(lits.allocator(), params, choice.term);
    push_way(
        protocol,
        lits,
        places.as_slice(),
        update.branches.as_slice(),
        choice.branch,
        choice.fails.as_slice(),
    )
}

/// Appends the literals of the chosen way, at the places of the cube.
pub fn push_choice(
    protocol: &Protocol,
    lits: &mut Lits,
    updates: &[Update],
    params: &[u8],
    choice: &Choice,
) -> Result<(), AllocError>
    requires few { length params.now < 12 }
    requires fit { IsTrue (list_all (update_fits (signature_of protocol.now) (length params.now)) updates.now) }
    requires way { IsTrue (way_fits (update_of updates.now (target_of choice.now.term)) choice.now) }
    ensures { OnOk result (lits.new ≡ lits.old ++ choice_lits (signature_of protocol.now) updates.now params.now choice.now) }
{
    match update_of(updates, target_of(choice.term)) {
        Some(update) => push_lits_by(protocol, lits, update, params, choice),
        None => Ok(()),
    }
}
