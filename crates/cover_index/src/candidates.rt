//! Single tests of pairs of cubes. A pair is passed over where the summaries allow no cover and some state meets the small
//! cube; each pair that is tested is one of a candidate.

ghost use Rattle.std.specs.Prelude.{◌≡◌, ◌↔◌, ◌^◌, ◌<◌, ◌&&◌, ℕ, not, MatchOption, IsTrue, false};
ghost use Rattle.cub_proto.specs.Truth.{has_bit};
ghost use Rattle.subsume.specs.declared.summary.Summary.{Summary};
ghost use Rattle.subsume.specs.Marks.{IsPart};
ghost use Rattle.cub_proto.specs.declared.protocol.Protocol.{Protocol};
ghost use Rattle.cub_cube.specs.declared.cube.Cube.{Cube};
ghost use Rattle.cub_cube.specs.Cover.{DoesCover, CoversLeast};
ghost use Rattle.cub_cube.specs.Meaning.{IsConsistent};
ghost use Rattle.log_form.specs.Pieces.{IsAskable};
ghost use Rattle.theory.specs.Made.{IsFor};
ghost use Rattle.subsume.specs.Summary.{IsSummary, IsOf, IsCandidate};
ghost use Rattle.cover_index.specs.Counted.{RisesIf};
ghost use Rattle.cover_index.specs.Asked.{IsAsked, needs_key, offers_key};

use cub_base::Places;
use cub_cube::Cube;
use cub_proto::Protocol;
use subsume::{Summary, covers_loaded, load_small, may_cover};
use theory::Scratch;

/// Whether no cube of the first summary covers one of the second, where `met` says that some state meets each of these.
/// Without that nothing is passed over, since a cube that no state meets is covered whatever it offers.
pub(crate) fn passes_over(met: bool, big: &Summary, small: &Summary) -> bool
    ensures none { IsTrue result → (p : Protocol) (d c : Cube) → IsOf p d big.now → IsOf p c small.now → IsAskable p d → IsAskable p c → (IsTrue met → IsConsistent p c.width c.lits) → DoesCover p d c → ⊥ }
    ensures candidate { result ≡ false → (p : Protocol) (d c : Cube) → IsSummary p d big.now → IsSummary p c small.now → IsAskable p d → (met ≡ false → IsConsistent p c.width c.lits → ⊥) → IsCandidate p d c }
{
    if !met {
        return false;
    }
    !may_cover(big, small)
}

/// The least injection by which the big cube covers the loaded one.
pub(crate) fn covers_asked(
    scratch: &mut Scratch,
    protocol: &Protocol,
    big: &Cube,
    summary: &Summary,
    cube: &Cube,
    own: &Summary,
    consistent: bool,
) -> Option<Places>
    requires asked { IsAsked protocol.now cube.now own.now consistent scratch.old }
    requires fit { IsAskable protocol.now big.now }
    requires summary { IsSummary protocol.now big.now summary.now }
    ensures asked { IsAsked protocol.now cube.now own.now consistent scratch.new }
    ensures exact { MatchOption result (DoesCover protocol.now big.now cube.now → ⊥) (λ r. CoversLeast protocol.now big.now cube.now r) }
    ensures tests { RisesIf (IsCandidate protocol.now big.now cube.now) scratch.old.tests scratch.new.tests }
{
    if passes_over(consistent, summary, own) {
        return None;
    }
    covers_loaded(scratch, protocol, cube, consistent, big)
}

/// The least injection by which the cube covers the small one. `met` says that some state meets the small one; otherwise
/// that is found out.
pub(crate) fn covers_listed(
    scratch: &mut Scratch,
    protocol: &Protocol,
    cube: &Cube,
    own: &Summary,
    small: &Cube,
    summary: &Summary,
    met: bool,
) -> Option<Places>
    requires made { IsFor protocol.now scratch.old }
    requires fit { IsAskable protocol.now cube.now }
    requires own { IsSummary protocol.now cube.now own.now }
    requires small_fit { IsAskable protocol.now small.now }
    requires summary { IsSummary protocol.now small.now summary.now }
    requires met { IsTrue met → IsConsistent protocol.now small.now.width small.now.lits }
    ensures made { IsFor protocol.now scratch.new }
    ensures exact { MatchOption result (DoesCover protocol.now cube.now small.now → ⊥) (λ r. CoversLeast protocol.now cube.now small.now r) }
    ensures tests { RisesIf (IsCandidate protocol.now cube.now small.now) scratch.old.tests scratch.new.tests }
{
    if passes_over(met, own, summary) {
        return None;
    }
    let consistent = load_small(scratch, protocol, small);
    if passes_over(consistent, own, summary) {
        return None;
    }
    covers_loaded(scratch, protocol, small, consistent, cube)
}
