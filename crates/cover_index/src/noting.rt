//! What is kept beside the cubes: who retired them, and the summaries of groups of them.

ghost use Rattle.std.specs.Prelude.{◌≡◌, ◌∷◌, ◌++◌, ◌*◌, ◌^◌, ◌/◌, ◌<◌, ◌≤◌, [], length, map, nat_lt, if◌then◌else◌, OnOk, OnErr};
ghost use Rattle.cover_index.specs.Asked.{summary_at, AreKept, Joins};

use crate::parts::{GROUP, LARGER};
use cub_base::Memory;
use subsume::Summary;

// Joins the summary to the one with that number, or puts it behind the last.
fn join_at(groups: &mut Vec<Summary>, at: usize, own: &Summary) -> Result<(), Memory>
    requires { at ≤ length groups.old.items }
    ensures kept { AreKept groups.old.items groups.new.items }
    ensures there { OnOk result (at < length groups.new.items) }
    ensures joined { OnOk result (Joins own.now (summary_at groups.new.items at)) }
{
    if at < groups.len() {
        groups[at] = groups[at].join(own);
        return Ok(());
    }
    match groups.push(*own) {
        Ok(()) => Ok(()),
        Err(_) => Err(Memory),
    }
}

/// Notes one more cube, which none has retired, by its summary. Refused, only groups may have changed, to summaries of more
/// cubes.
pub(crate) fn note(
    retired: &mut Vec<u32>,
    groups: &mut Vec<Summary>,
    larger: &mut Vec<Summary>,
    number: u32,
    own: &Summary,
) -> Result<(), Memory>
    requires groups_room { number ≤ 64 * length groups.old.items }
    requires larger_room { number ≤ 4096 * length larger.old.items }
    ensures retired_ok { OnOk result (retired.new.items ≡ retired.old.items ++ 0 ∷ []) }
    ensures retired_err { OnErr result (retired.new.items ≡ retired.old.items) }
    ensures groups_kept { AreKept groups.old.items groups.new.items }
    ensures larger_kept { AreKept larger.old.items larger.new.items }
    ensures groups_there { OnOk result (number / 64 < length groups.new.items) }
    ensures larger_there { OnOk result (number / 4096 < length larger.new.items) }
    ensures groups_joined { OnOk result (Joins own.now (summary_at groups.new.items (number / 64))) }
    ensures larger_joined { OnOk result (Joins own.now (summary_at larger.new.items (number / 4096))) }
{
    join_at(groups, (number / GROUP) as usize, own)?;
    join_at(larger, (number / LARGER) as usize, own)?;
    match retired.push(0) {
        Ok(()) => Ok(()),
        Err(_) => Err(Memory),
    }
}

// The cube that retired another, if it is one of the first.
fn kept_by(by: u32, count: u32) -> u32
    ensures { result ≡ (if nat_lt by count then by else 0) }
{
    if by < count { by } else { 0 }
}

/// Takes back what cubes from `count` on have retired.
pub(crate) fn revive(retired: &mut [u32], count: u32)
    ensures { retired.new ≡ map (λ by. if nat_lt by count then by else 0) retired.old }
{
    for by in retired.iter_mut() {
        *by = kept_by(*by, count);
    }
}

/// The number of groups of that size for so many cubes.
pub(crate) fn groups_of(count: usize, size: u32) -> usize
    requires few { count < 2 ^ 32 }
    requires some { 0 < size }
    ensures room { count ≤ size * result }
{
    let size = size as usize;
    (count + (size - 1)) / size
}
