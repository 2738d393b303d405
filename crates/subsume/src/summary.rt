//! Summaries: what all of some cubes need to cover another, and what they offer to be covered, as marks. A cube that covers
//! one that some state meets needs nothing that this one does not offer, so a pair of cubes, or all pairs of two groups,
//! can be passed over by a few words. A cube that no state meets is covered whatever it offers: summaries say nothing of it.

ghost use Rattle.std.specs.Prelude.{◌≡◌, ◌↔◌, IsTrue, false};
ghost use Rattle.std.specs.List.{list_all};
ghost use Rattle.cub_proto.specs.declared.protocol.Protocol.{Protocol};
ghost use Rattle.cub_proto.specs.StateOf.{signature_of};
ghost use Rattle.cub_proto.specs.Fits.{literal_fits};
ghost use Rattle.cub_cube.specs.declared.cube.Cube.{Cube};
ghost use Rattle.cub_cube.specs.Cover.{DoesCover};
ghost use Rattle.cub_cube.specs.Meaning.{IsConsistent};
ghost use Rattle.log_form.specs.Pieces.{IsAskable};
ghost use Rattle.subsume.specs.Summary.{IsSummary, IsOf, MayCover, IsCandidate, joined, nothing, common, either, filled};

use crate::marks::{Marks, marks_of};
use cub_cube::Cube;
use cub_proto::Protocol;

/// What some cubes need and offer.
#[derive(Clone, Copy, Debug, PartialEq, Eq)]
pub struct Summary {
    /// Marks that each of the cubes has.
    pub needs: Marks,
    /// Marks that some of the cubes offer.
    pub offers: Marks,
}

fn filled(word: u64) -> Marks
    ensures { result ≡ filled word }
{
    Marks {
        globals: word,
        arrays: word,
        members: word,
        constructors: word,
        pairs: word,
        joint: word,
        values: word,
    }
}

fn common(m: &Marks, n: &Marks) -> Marks
    ensures { result ≡ common m.now n.now }
{
    Marks {
        globals: m.globals & n.globals,
        arrays: m.arrays & n.arrays,
        members: m.members & n.members,
        constructors: m.constructors & n.constructors,
        pairs: m.pairs & n.pairs,
        joint: m.joint & n.joint,
        values: m.values & n.values,
    }
}

fn either(m: &Marks, n: &Marks) -> Marks
    ensures { result ≡ either m.now n.now }
{
    Marks {
        globals: m.globals | n.globals,
        arrays: m.arrays | n.arrays,
        members: m.members | n.members,
        constructors: m.constructors | n.constructors,
        pairs: m.pairs | n.pairs,
        joint: m.joint | n.joint,
        values: m.values | n.values,
    }
}

impl Summary {
    ghost use Rattle.std.specs.Prelude.{◌≡◌};
    ghost use Rattle.cub_proto.specs.declared.protocol.Protocol.{Protocol};
    ghost use Rattle.cub_cube.specs.declared.cube.Cube.{Cube};
    ghost use Rattle.subsume.specs.Summary.{IsSummary, IsOf, joined, nothing};

    /// The summary of one cube.
    pub fn of(protocol: &Protocol, cube: &Cube) -> Summary
        ensures value { IsSummary protocol.now cube.now result }
        ensures own { IsOf protocol.now cube.now result }
    {
        let (needs, offers) = marks_of(protocol, cube.lits.as_slice());
        Summary { needs, offers }
    }

    /// The summary of no cubes.
    pub fn nothing() -> Summary
        ensures { result ≡ nothing }
    {
        Summary {
            needs: filled(u64::MAX),
            offers: filled(0),
        }
    }

    /// The summary of the cubes of both.
    pub fn join(&self, other: &Summary) -> Summary
        ensures value { result ≡ joined self.now other.now }
        ensures first { (p : Protocol) (c : Cube) → IsOf p c self.now → IsOf p c result }
        ensures second { (p : Protocol) (c : Cube) → IsOf p c other.now → IsOf p c result }
    {
        Summary {
            needs: common(&self.needs, &other.needs),
            offers: either(&self.offers, &other.offers),
        }
    }
}

/// Whether some cube of the first summary may cover one of the second. Where it is false, none covers one that some state
/// meets; where it is true for the summaries of two cubes, the first is a candidate for covering the second.
pub fn may_cover(big: &Summary, small: &Summary) -> bool
    ensures value { IsTrue result ↔ MayCover big.now small.now }
    ensures none { result ≡ false → (p : Protocol) (d c : Cube) → IsOf p d big.now → IsOf p c small.now → IsAskable p d → IsAskable p c → IsConsistent p c.width c.lits → DoesCover p d c → ⊥ }
    ensures candidate { IsTrue result → (p : Protocol) (d c : Cube) → IsSummary p d big.now → IsSummary p c small.now → IsAskable p d → IsCandidate p d c }
{
    big.needs.are_among(&small.offers)
}
