//! What a firing writes. All values are computed in the old state, so the updates go into a copy of it first; picks are
//! put over them, since their slots are those that an update leaves as they are; then the updated slots go back, and
//! state and copy agree again. A step thus costs what the cells of the updated arrays cost, twice, and never the rest.

ghost use Rattle.std.specs.Prelude.{◌≡◌, ◌+◌, ◌+ℤ◌, ◌≤◌, ◌<◌, ◌^◌, [], ◌∷◌, ◌++◌, Some, None, length, unsigned_abs, All, IsTrue};
ghost use Rattle.cub_proto.specs.declared.state.Slot.TheVariants as Slot;
ghost use Rattle.cub_proto.specs.declared.transition.Target.TheVariants as Target;
ghost use Rattle.cub_proto.specs.Configuration.{process_count, value_at, cells_of, HasSlot, put};
ghost use Rattle.cub_proto.specs.Effect.{settled, updated, cell_after, fired, picked};
ghost use Rattle.replay.specs.Reads.{ReadsValue, ReadsUpdate, ReadsTarget, ReadsUpdates};
ghost use Rattle.replay.specs.Writes.{SameShape, HasTarget, with_cells, new_cells, written_at, written, placed, copied_at, copied};
ghost use Rattle.cub_proto.specs.Fits.{targets_rise};
ghost use Rattle.cub_proto.specs.Legal.{picks_rise};
ghost use Rattle.replay.specs.Fault.{is_allowed};

use crate::fault_at::{counting, widened};
use cub_proto::{
    Chosen, Slot, State, Target, Update, Val, Value, integer_at, process_at, term_value,
};

fn sum(a: i64, b: i64) -> i64
    requires { unsigned_abs a + unsigned_abs b ≤ 2 ^ 62 }
    ensures { result ≡ a +ℤ b }
{
    a + b
}

/// What the value gives; the old value for `?`.
fn settled(state: &State, places: &[u32], value: Value, old: Val) -> Val
    requires { ReadsValue state.now places.now value }
    ensures { result ≡ settled state.now places.now value None old }
{
    match value {
        Value::Con(constructor) => Val::Con(constructor),
        Value::Read(term) => term_value(state, term, places),
        Value::Proc(side) => Val::Proc(process_at(state, side, places)),
        Value::Sum { base, add } => Val::Int(sum(integer_at(state, base, places), add)),
        Value::Any => old,
    }
}

fn updated(state: &State, places: &[u32], update: &Update, old: Val) -> Val
    requires { ReadsUpdate state.now places.now update.now }
    ensures { result ≡ updated state.now places.now (Some update.now) None old }
{
    settled(state, places, counting(state, places, update), old)
}

fn cell_after(state: &State, params: &[u32], update: &Update, array: u16, process: u32) -> Val
    requires few { length params.now ≤ 3 }
    requires slot { HasSlot state.now (Slot.Cell array process) }
    requires process { process < process_count state.now }
    requires reads { ReadsUpdate state.now (params.now ++ process ∷ []) update.now }
    ensures { result ≡ cell_after state.now params.now (Some update.now) (λ _. None) array process (value_at state.now (Slot.Cell array process)) }
{
    let old = state.get(Slot::Cell(array, process));
    if state.alive(process) {
        updated(state, widened(params, process).as_slice(), update, old)
    } else {
        old
    }
}

fn write_cells(state: &State, next: &mut State, params: &[u32], update: &Update, array: u16)
    requires few { length params.now ≤ 3 }
    requires target { HasTarget state.now (Target.Array array) }
    requires reads { ReadsTarget state.now params.now update.now (Target.Array array) }
    requires shape { SameShape state.now next.old }
    ensures { next.new ≡ with_cells next.old array (new_cells state.now params.now update.now array) }
{
    for process in 0..state.processes() {
        let val = cell_after(state, params, update, array, process);
        next.set(Slot::Cell(array, process), val);
    }
}

fn write_update(state: &State, next: &mut State, params: &[u32], update: &Update)
    requires few { length params.now ≤ 3 }
    requires target { HasTarget state.now update.now.target }
    requires reads { ReadsTarget state.now params.now update.now update.now.target }
    requires shape { SameShape state.now next.old }
    ensures { next.new ≡ written_at state.now params.now update.now next.old update.now.target }
{
    match update.target {
        Target::Global(global) => {
            let old = state.get(Slot::Global(global));
            next.set(Slot::Global(global), updated(state, params, update, old));
        }
        Target::Array(array) => write_cells(state, next, params, update, array),
    }
}

/// Writes the updates into `next` as they are in `state`.
pub fn write_updates(state: &State, next: &mut State, params: &[u32], updates: &[Update])
    requires few { length params.now ≤ 3 }
    requires reads { ReadsUpdates state.now params.now updates.now }
    requires shape { SameShape state.now next.old }
    ensures { next.new ≡ written state.now params.now next.old updates.now }
{
    for update in updates {
        write_update(state, next, params, update);
    }
}

/// Puts the picks into their slots.
pub fn place_picks(next: &mut State, picks: &[Chosen])
    requires { All (λ c. HasSlot next.old c.slot) picks.now }
    ensures { next.new ≡ placed next.old picks.now }
{
    for pick in picks {
        next.set(pick.slot, pick.val);
    }
}

fn copy_cells(from: &State, to: &mut State, array: u16)
    requires target { HasTarget from.now (Target.Array array) }
    requires shape { SameShape from.now to.old }
    ensures { to.new ≡ with_cells to.old array (cells_of from.now array) }
{
    for process in 0..from.processes() {
        let slot = Slot::Cell(array, process);
        to.set(slot, from.get(slot));
    }
}

fn copy_target(from: &State, to: &mut State, target: Target)
    requires target { HasTarget from.now target }
    requires shape { SameShape from.now to.old }
    ensures { to.new ≡ copied_at from.now to.old target }
{
    match target {
        Target::Global(global) => to.set(Slot::Global(global), from.get(Slot::Global(global))),
        Target::Array(array) => copy_cells(from, to, array),
    }
}

/// Copies the slots of the updates' targets.
pub fn copy_targets(from: &State, to: &mut State, updates: &[Update])
    requires targets { All (λ u. HasTarget from.now u.target) updates.now }
    requires shape { SameShape from.now to.old }
    ensures { to.new ≡ copied from.now to.old updates.now }
{
    for update in updates {
        copy_target(from, to, update.target);
    }
}

/// Fires the updates with the picks, in both states.
pub fn fire(
    state: &mut State,
    twin: &mut State,
    updates: &[Update],
    params: &[u32],
    picks: &[Chosen],
)
    requires few { length params.now ≤ 3 }
    requires twin { twin.old ≡ state.old }
    requires reads { ReadsUpdates state.old params.now updates.now }
    requires targets { IsTrue (targets_rise updates.now) }
    requires rising { IsTrue (picks_rise picks.now) }
    requires allowed { All (λ c. IsTrue (is_allowed state.old updates.now params.now c)) picks.now }
    ensures state { state.new ≡ fired state.old params.now updates.now (picked picks.now) }
    ensures twin { twin.new ≡ state.new }
{
    write_updates(state, twin, params, updates);
    place_picks(twin, picks);
    copy_targets(twin, state, updates);
}
