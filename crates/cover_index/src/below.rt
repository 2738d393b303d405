//! Searches in a few cubes for those that a given one covers. Each of them is a small cube here, so it matters whether some
//! state meets it: that is found out once for each cube, and the number of the first that are all met is kept.

ghost use Rattle.std.specs.Prelude.{◌≡◌, ◌^◌, ◌<◌, ◌≤◌, ℕ, length, All, IsTrue};
ghost use Rattle.log_form.specs.Pieces.{IsAskable};
ghost use Rattle.log_form.specs.Links.{IsFirstUnder};
ghost use Rattle.theory.specs.Made.{IsFor};
ghost use Rattle.subsume.specs.Summary.{IsSummary};
ghost use Rattle.cover_index.specs.Counted.{RisesForUnder};
ghost use Rattle.cover_index.specs.Asked.{AreSummedTo, AreMet};
ghost use Rattle.cover_index.specs.Columns.{AreFilled, OffersLess, needs};
ghost use Rattle.cub_proto.specs.Truth.{has_bit};
ghost use Rattle.subsume.specs.declared.summary.Summary.{Summary};

use crate::candidates::covers_listed;
use crate::columns::{met as met_by, next_beyond};
use crate::summaries::Summaries;
use cub_base::Places;
use cub_cube::Cube;
use cub_proto::Protocol;
use subsume::{Summary, load_small};
use theory::Scratch;

/// How many of the first cubes are each met by some state: all, or those before the first that is not. Of the first `met`
/// it is known.
pub(crate) fn count_met(scratch: &mut Scratch, protocol: &Protocol, cubes: &[Cube], met: u32) -> u32
    requires made { IsFor protocol.now scratch.old }
    requires askable { All (IsAskable protocol.now) cubes.now }
    requires few { length cubes.now < 2 ^ 32 }
    requires within { met ≤ length cubes.now }
    requires known { AreMet protocol.now cubes.now met }
    ensures made { IsFor protocol.now scratch.new }
    ensures tests { scratch.new.tests ≡ scratch.old.tests }
    ensures within { result ≤ length cubes.now }
    ensures known { AreMet protocol.now cubes.now result }
{
    for i in met..cubes.len() as u32 {
        if !load_small(scratch, protocol, &cubes[i as usize]) {
            return i;
        }
    }
    cubes.len() as u32
}

// The cubes that do not offer a mark which the given cube needs, where some state meets each of them.
fn told_apart(are_met: bool, summaries: &Summaries, needing: &[u64]) -> u64
    requires { length needing.now ≡ 64 }
    ensures { (own : Summary) → AreFilled needing.now (needs own) → (i : ℕ) → i < length summaries.now → IsTrue (has_bit result i) → IsTrue are_met × OffersLess summaries.now i own }
{
    if !are_met {
        return 0;
    }
    met_by(summaries.lacks(), needing)
}

/// The first cube from one number up to another that the given one covers. The words of `needing` are filled for the marks that
/// it needs. Of the first `met` cubes it is known that some state meets each.
pub(crate) fn first_among(
    scratch: &mut Scratch,
    protocol: &Protocol,
    cubes: &[Cube],
    summaries: &Summaries,
    from: u32,
    upto: u32,
    cube: &Cube,
    own: &Summary,
    needing: &[u64],
    met: u32,
) -> Option<(u32, Places)>
    requires made { IsFor protocol.now scratch.old }
    requires fit { IsAskable protocol.now cube.now }
    requires own { IsSummary protocol.now cube.now own.now }
    requires needing { AreFilled needing.now (needs own.now) }
    requires few { upto ≤ 64 }
    requires summed { AreSummedTo protocol.now upto cubes.now summaries.now }
    requires met { AreMet protocol.now cubes.now met }
    ensures made { IsFor protocol.now scratch.new }
    ensures first { IsFirstUnder protocol.now cubes.now from upto cube.now result }
    ensures tests { RisesForUnder protocol.now cubes.now from upto cube.now scratch.old.tests scratch.new.tests }
{
    let all = summaries.as_slice();
    let apart = told_apart(upto <= met, summaries, needing);
    let mut at = from;
    while at < upto {
        let i = next_beyond(apart, at, upto);
        if i == upto {
            return None;
        }
        let small = &cubes[i as usize];
        let summary = &all[i as usize];
        match covers_listed(scratch, protocol, cube, own, small, summary, i < met) {
            Some(places) => return Some((i, places)),
            None => {}
        }
        at = i + 1;
    }
    None
}
