//! The literals of a way through the branches of an update, at the places where the update is read. They are appended to a
//! list that the caller has, so a search that goes back and forth takes no memory for them.

ghost use Rattle.std.specs.Prelude.{◌≡◌, ◌++◌, ◌<◌, ◌^◌, true, length, slice_index_or, IsTrue, OnOk};
ghost use Rattle.std.specs.List.{list_all};
ghost use Rattle.std.specs.Option.{option_copied};
ghost use Rattle.cub_proto.specs.StateOf.{signature_of};
ghost use Rattle.cub_proto.specs.Fits.{literal_fits};
ghost use Rattle.cub_proto.specs.Negation.{negated};
ghost use Rattle.cub_proto.specs.Effect.{update_of};
ghost use Rattle.cub_cube.specs.Rename.{renamed, renamed_all, is_within};
ghost use Rattle.cub_cube.specs.Replace.{constant};
ghost use Rattle.updates.specs.Ways.{way, failing, condition, way_lits, way_value};
ghost use Rattle.updates.specs.Allowed.{are_failures, is_way};

use cub_cube::renamed;
use cub_proto::{Branch, Lit, Lits, Protocol, Target, Update, Value};
use std::alloc::AllocError;

/// The update of a target, if there is one.
pub fn update_of(updates: &[Update], target: Target) -> Option<&Update>
    ensures { option_copied result ≡ update_of updates.now target }
{
    for update in updates {
        if update.target == target {
            return Some(update);
        }
    }
    None
}

/// Appends the literals at the places of the renaming.
pub fn push_renamed(lits: &mut Lits, places: &[u8], more: &[Lit]) -> Result<(), AllocError>
    requires { IsTrue (list_all (is_within (length places.now)) more.now) }
    ensures { OnOk result (lits.new ≡ lits.old ++ renamed_all places.now more.now) }
{
    for lit in more {
        lits.push(renamed(places, lit))?;
    }
    Ok(())
}

/// The condition of a branch; the last value, whose number is that of the branches, has none.
pub fn condition(branches: &[Branch], number: u8) -> &[Lit]
    ensures { result.now ≡ condition branches.now number }
{
    match branches.get(number as usize) {
        Some(branch) => branch.cond.as_slice(),
        None => &[],
    }
}

/// The value of a branch, or the last one.
pub fn way_value(update: &Update, number: u8) -> Value
    ensures { result ≡ way_value update.now number }
{
    match update.branches.get(number as usize) {
        Some(branch) => branch.value,
        None => update.last,
    }
}

/// The negation of the literal with that number, at the places where the update is read.
fn failing_literal(protocol: &Protocol, places: &[u8], branch: &Branch, fail: u8) -> Lit
    requires few { length places.now < 2 ^ 16 }
    requires fits { IsTrue (list_all (literal_fits (signature_of protocol.now) (length places.now)) branch.now.cond) }
    requires within { fail < length branch.now.cond }
    ensures { result ≡ renamed places.now (negated (signature_of protocol.now) (slice_index_or branch.now.cond fail (constant true))) }
{
    let lit = branch.cond.as_slice()[fail as usize];
    renamed(
        places,
        &cub_proto::negated(protocol, places.len() as u16, &lit),
    )
}

/// Appends the negation of the failing literal of each condition, at the places where the update is read.
pub fn push_failing(
    protocol: &Protocol,
    lits: &mut Lits,
    places: &[u8],
    branches: &[Branch],
    fails: &[u8],
) -> Result<(), AllocError>
    requires few { length places.now < 2 ^ 16 }
    requires fits { IsTrue (list_all (λ b. list_all (literal_fits (signature_of protocol.now) (length places.now)) b.cond) branches.now) }
    requires within { IsTrue (are_failures branches.now fails.now) }
    ensures { OnOk result (lits.new ≡ lits.old ++ renamed_all places.now (failing (signature_of protocol.now) branches.now fails.now)) }
{
    for at in 0..branches.len() {
        lits.push(failing_literal(protocol, places, &branches[at], fails[at]))?;
    }
    Ok(())
}

/// Appends the literals of a way, at the places where the update is read.
pub fn push_way(
    protocol: &Protocol,
    lits: &mut Lits,
    places: &[u8],
    branches: &[Branch],
    branch: u8,
    fails: &[u8],
) -> Result<(), AllocError>
    requires few { length places.now < 2 ^ 16 }
    requires fits { IsTrue (list_all (λ b. list_all (literal_fits (signature_of protocol.now) (length places.now)) b.cond) branches.now) }
    requires way { IsTrue (is_way branches.now branch fails.now) }
    ensures { OnOk result (lits.new ≡ lits.old ++ renamed_all places.now (way_lits (signature_of protocol.now) branches.now (way branch fails.now))) }
{
    let earlier = &branches[..branch as usize];
    push_renamed(lits, places, condition(branches, branch))?;
    push_failing(protocol, lits, places, earlier, fails)
}
