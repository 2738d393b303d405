//! Searches in a few cubes for those that cover a given one, which is loaded.

ghost use Rattle.std.specs.Prelude.{◌≡◌, ◌+◌, ◌<◌, ◌≤◌, ℕ, false, length, slice_index, IsTrue};
ghost use Rattle.cub_cube.specs.Cover.{DoesCover};
ghost use Rattle.log_form.specs.Pieces.{IsAskable};
ghost use Rattle.log_form.specs.Links.{cube_at, IsFirstCover};
ghost use Rattle.subsume.specs.Summary.{IsSummary, IsCandidate};
ghost use Rattle.cover_index.specs.Counted.{RisesIf, RisesForCovers};
ghost use Rattle.cover_index.specs.Asked.{IsAsked, AreSummedTo};
ghost use Rattle.cover_index.specs.Columns.{AreFilled, NeedsMore, lacks};
ghost use Rattle.cub_proto.specs.Truth.{has_bit};
ghost use Rattle.subsume.specs.declared.summary.Summary.{Summary};

use crate::candidates::covers_asked;
use crate::columns::{met, next_beyond};
use crate::summaries::Summaries;
use cub_base::Places;
use cub_cube::Cube;
use cub_proto::Protocol;
use subsume::Summary;
use theory::Scratch;

// The cubes that need a mark which the loaded cube does not offer, where some state meets it. Without that nothing is passed
// over, since a cube that no state meets is covered whatever it offers.
fn told_apart(consistent: bool, summaries: &Summaries, lacking: &[u64]) -> u64
    requires { length lacking.now ≡ 64 }
    ensures { (own : Summary) → AreFilled lacking.now (lacks own) → (i : ℕ) → i < length summaries.now → IsTrue (has_bit result i) → IsTrue consistent × NeedsMore summaries.now i own }
{
    if !consistent {
        return 0;
    }
    met(summaries.needs(), lacking)
}

/// The first cube from one number up to another that covers the loaded one. The words of `lacking` are filled for the marks
/// that it does not offer.
pub(crate) fn first_among(
    scratch: &mut Scratch,
    protocol: &Protocol,
    cubes: &[Cube],
    summaries: &Summaries,
    from: u32,
    upto: u32,
    cube: &Cube,
    own: &Summary,
    lacking: &[u64],
    consistent: bool,
) -> Option<(u32, Places)>
    requires asked { IsAsked protocol.now cube.now own.now consistent scratch.old }
    requires lacking { AreFilled lacking.now (lacks own.now) }
    requires summed { AreSummedTo protocol.now upto cubes.now summaries.now }
    requires few { upto ≤ 64 }
    ensures asked { IsAsked protocol.now cube.now own.now consistent scratch.new }
    ensures first { IsFirstCover protocol.now cubes.now from upto cube.now result }
    ensures tests { RisesForCovers protocol.now cubes.now from upto cube.now scratch.old.tests scratch.new.tests }
{
    let all = summaries.as_slice();
    let apart = told_apart(consistent, summaries, lacking);
    let mut at = from;
    while at < upto {
        let i = next_beyond(apart, at, upto);
        if i == upto {
            return None;
        }
        let big = &cubes[i as usize];
        let summary = &all[i as usize];
        match covers_asked(scratch, protocol, big, summary, cube, own, consistent) {
            Some(places) => return Some((i, places)),
            None => {}
        }
        at = i + 1;
    }
    None
}

// Whether the cube covers the loaded one, if none has retired it.
fn covers_live(
    scratch: &mut Scratch,
    protocol: &Protocol,
    big: &Cube,
    summary: &Summary,
    retired: u32,
    cube: &Cube,
    own: &Summary,
    consistent: bool,
) -> bool
    requires asked { IsAsked protocol.now cube.now own.now consistent scratch.old }
    requires fit { IsAskable protocol.now big.now }
    requires summary { IsSummary protocol.now big.now summary.now }
    ensures asked { IsAsked protocol.now cube.now own.now consistent scratch.new }
    ensures does { IsTrue result → DoesCover protocol.now big.now cube.now }
    ensures none { result ≡ false → retired ≡ 0 → DoesCover protocol.now big.now cube.now → ⊥ }
    ensures tests { RisesIf (IsCandidate protocol.now big.now cube.now) scratch.old.tests scratch.new.tests }
{
    if retired != 0 {
        return false;
    }
    match covers_asked(scratch, protocol, big, summary, cube, own, consistent) {
        Some(_) => true,
        None => false,
    }
}

/// Whether a cube from one number up to another that none has retired covers the loaded one. The numbers of the list begin
/// with `base` at the first of the cubes.
pub(crate) fn some_among(
    scratch: &mut Scratch,
    protocol: &Protocol,
    cubes: &[Cube],
    summaries: &Summaries,
    retired: &[u32],
    base: u32,
    from: u32,
    upto: u32,
    cube: &Cube,
    own: &Summary,
    lacking: &[u64],
    consistent: bool,
) -> bool
    requires asked { IsAsked protocol.now cube.now own.now consistent scratch.old }
    requires lacking { AreFilled lacking.now (lacks own.now) }
    requires few { upto ≤ 64 }
    requires summed { AreSummedTo protocol.now upto cubes.now summaries.now }
    requires retired { base + upto ≤ length retired.now }
    ensures asked { IsAsked protocol.now cube.now own.now consistent scratch.new }
    ensures some { IsTrue result → (i : ℕ) × (from ≤ i) × (i < upto) × DoesCover protocol.now (cube_at cubes.now i) cube.now }
    ensures none { result ≡ false → (i : ℕ) → from ≤ i → i < upto → slice_index retired.now (base + i) ≡ 0 → DoesCover protocol.now (cube_at cubes.now i) cube.now → ⊥ }
    ensures tests { RisesForCovers protocol.now cubes.now from upto cube.now scratch.old.tests scratch.new.tests }
{
    let all = summaries.as_slice();
    let apart = told_apart(consistent, summaries, lacking);
    let mut at = from;
    while at < upto {
        let i = next_beyond(apart, at, upto);
        if i == upto {
            return false;
        }
        let big = &cubes[i as usize];
        let summary = &all[i as usize];
        let by = retired[base as usize + i as usize];
        if covers_live(scratch, protocol, big, summary, by, cube, own, consistent) {
            return true;
        }
        at = i + 1;
    }
    false
}
