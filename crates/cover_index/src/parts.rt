//! Parts of a list that are passed over whole. The cubes are in groups of 64 and in larger ones of 4096, each with one
//! summary; a group is a segment of the list. A walk goes from part to part: a larger group, a group, or the cubes of a group that have to be looked at.

ghost use Rattle.std.specs.Prelude.{◌≡◌, ◌+◌, ◌-◌, ◌*◌, ◌/◌, ◌%◌, ◌<◌, ◌≤◌, ℕ, List, length, IsTrue, All};
ghost use Rattle.cub_proto.specs.declared.protocol.Protocol.{Protocol};
ghost use Rattle.cub_cube.specs.declared.cube.Cube.{Cube};
ghost use Rattle.cub_cube.specs.Cover.{DoesCover};
ghost use Rattle.cub_cube.specs.Meaning.{IsConsistent};
ghost use Rattle.log_form.specs.Pieces.{IsAskable};
ghost use Rattle.log_form.specs.Links.{cube_at};
ghost use Rattle.subsume.specs.Summary.{IsOf};
ghost use Rattle.cover_index.specs.Asked.{AreGrouped, AreMet};

use crate::candidates::passes_over;
use subsume::Summary;

/// The number of cubes of a group.
pub(crate) const GROUP: u32 = 64;

/// The number of cubes of a larger group.
pub(crate) const LARGER: u32 = 4096;

// The end of the group of that size in which the number lies, or `upto` if that comes first.
fn part_end(at: u32, size: u32, upto: u32) -> u32
    requires inside { at < upto }
    requires some { 0 < size }
    ensures further { at < result }
    ensures within { result ≤ upto }
    ensures part { (i : ℕ) → at ≤ i → i < result → i / size ≡ at / size }
    ensures near { result ≤ at + (size - at % size) }
{
    let left = size - at % size;
    if upto - at <= left { upto } else { at + left }
}

/// The next part from `at` on for a cube that others may cover: no cube from `at` up to the first number covers it, and
/// those from there up to the second have to be looked at.
pub(crate) fn next_above(
    groups: &[Summary],
    larger: &[Summary],
    at: u32,
    upto: u32,
    own: &Summary,
    consistent: bool,
) -> (u32, u32)
    requires inside { at < upto }
    requires groups { upto ≤ 64 * length groups.now }
    requires larger { upto ≤ 4096 * length larger.now }
    ensures from { at ≤ result.0 }
    ensures order { result.0 ≤ result.1 }
    ensures further { at < result.1 }
    ensures within { result.1 ≤ upto }
    ensures near { result.1 ≤ result.0 + (64 - result.0 % 64) }
    ensures none { (p : Protocol) (cubes : List Cube) (c : Cube) → upto ≤ length cubes → All (IsAskable p) cubes
        → AreGrouped p 64 cubes groups.now → AreGrouped p 4096 cubes larger.now → IsOf p c own.now → IsAskable p c
        → (IsTrue consistent → IsConsistent p c.width c.lits)
        → (i : ℕ) → at ≤ i → i < result.0 → DoesCover p (cube_at cubes i) c → ⊥ }
{
    let end = part_end(at, LARGER, upto);
    if passes_over(consistent, &larger[(at / LARGER) as usize], own) {
        return (end, end);
    }
    let end = part_end(at, GROUP, upto);
    if passes_over(consistent, &groups[(at / GROUP) as usize], own) {
        return (end, end);
    }
    (at, end)
}

/// The next part from `at` on for a cube that may cover others: it covers no cube from `at` up to the first number, and
/// those from there up to the second have to be looked at. Of the first `met` cubes it is known that some state meets each.
pub(crate) fn next_below(
    groups: &[Summary],
    larger: &[Summary],
    at: u32,
    upto: u32,
    own: &Summary,
    met: u32,
) -> (u32, u32)
    requires inside { at < upto }
    requires groups { upto ≤ 64 * length groups.now }
    requires larger { upto ≤ 4096 * length larger.now }
    ensures from { at ≤ result.0 }
    ensures order { result.0 ≤ result.1 }
    ensures further { at < result.1 }
    ensures within { result.1 ≤ upto }
    ensures near { result.1 ≤ result.0 + (64 - result.0 % 64) }
    ensures none { (p : Protocol) (cubes : List Cube) (c : Cube) → upto ≤ length cubes → All (IsAskable p) cubes
        → AreGrouped p 64 cubes groups.now → AreGrouped p 4096 cubes larger.now → IsOf p c own.now → IsAskable p c
        → AreMet p cubes met
        → (i : ℕ) → at ≤ i → i < result.0 → DoesCover p c (cube_at cubes i) → ⊥ }
{
    let end = part_end(at, LARGER, upto);
    if passes_over(end <= met, own, &larger[(at / LARGER) as usize]) {
        return (end, end);
    }
    let end = part_end(at, GROUP, upto);
    if passes_over(end <= met, own, &groups[(at / GROUP) as usize]) {
        return (end, end);
    }
    (at, end)
}
