//! What the log asks of the theory of literals and of pre-images, as traits over the scratch. So the log is proved
//! whatever decides these questions; each answer is exact.

ghost use Rattle.std.specs.Prelude.{◌↔◌, ◌<◌, ◌++◌, [], ◌∷◌, List, IsTrue, IfOk, IfSome, IfNone};
ghost use Rattle.cub_cube.specs.declared.cube.Cube.{Cube};
ghost use Rattle.cub_cube.specs.Meaning.{IsConsistent};
ghost use Rattle.cub_cube.specs.Cover.{DoesCover};
ghost use Rattle.cub_cube.specs.Starts.{IsStartCube};
ghost use Rattle.log_form.specs.Pieces.{IsAskable, IsExpandable};
ghost use Rattle.log_form.specs.Forms.{IsForm};
ghost use Rattle.log_steps.specs.Readable.{IsReadable};

use cub_base::{Memory, Places};
use cub_cube::Cube;
use cub_proto::Protocol;
use log_form::PreImages;
use std::alloc::Global;
use subsume::MadeFor;

/// Questions about cubes.
pub trait Decisions: MadeFor {
    ghost use Rattle.log_steps.specs.Chosen.{FormRelation};

    // which form of a piece is chosen: the piece, the renaming, the form
    ghost chosen: { FormRelation };

    /// Whether some state meets the cube.
    fn consistent(&mut self, protocol: &Protocol, cube: &Cube) -> bool
        requires made { Self.made_for self.old protocol.now }
        requires fit { IsAskable protocol.now cube.now }
        ensures value { IsTrue result ↔ IsConsistent protocol.now cube.now.width cube.now.lits }
        ensures made { Self.made_for self.new protocol.now };

    /// Whether a start state meets the cube.
    fn meets_start(&mut self, protocol: &Protocol, cube: &Cube) -> bool
        requires made { Self.made_for self.old protocol.now }
        requires fit { IsAskable protocol.now cube.now }
        ensures value { IsTrue result ↔ IsStartCube protocol.now cube.now }
        ensures made { Self.made_for self.new protocol.now };

    /// Whether the first cube covers the second.
    fn covers(&mut self, protocol: &Protocol, big: &Cube, small: &Cube) -> bool
        requires made { Self.made_for self.old protocol.now }
        requires big { IsAskable protocol.now big.now }
        requires small { IsAskable protocol.now small.now }
        ensures value { IsTrue result ↔ DoesCover protocol.now big.now small.now }
        ensures made { Self.made_for self.new protocol.now };

    /// The cube with literals left out and its places in another order, where the meaning stays, and the renaming: item
    /// `p` is the place of the given cube for place `p` of the answer.
    fn form(&mut self, protocol: &Protocol, cube: Cube) -> Result<(Cube, Places), Memory>
        requires made { Self.made_for self.old protocol.now }
        requires fit { IsAskable protocol.now cube }
        ensures value { IfOk result (λ f. IsForm protocol.now cube f.1 f.0) }
        ensures chosen { IfOk result (λ f. chosen protocol.now cube f.1 f.0) }
        ensures made { Self.made_for self.new protocol.now };

    /// Whether the last cube is a form of the first by the renaming, chosen or not. It need not be in normal form, and
    /// the places need not be places of the piece.
    fn is_form(&mut self, protocol: &Protocol, piece: &Cube, places: &Places, cube: &Cube) -> bool
        requires made { Self.made_for self.old protocol.now }
        requires piece { IsAskable protocol.now piece.now }
        requires cube { IsReadable protocol.now cube.now }
        ensures value { IsTrue result ↔ IsForm protocol.now piece.now places.now cube.now }
        ensures made { Self.made_for self.new protocol.now };
}

/// Pre-images by the relation `M`: the pieces of a cube one by one, so that no list of them need be held.
pub trait Expands<M: PreImages>: Decisions {
    ghost use Rattle.std.specs.Prelude.{List, ℕ};
    ghost use Rattle.cub_proto.specs.declared.protocol.Protocol.{Protocol};
    ghost use Rattle.cub_cube.specs.declared.cube.Cube.{Cube};

    /// How far the pieces of a cube were gone through.
    type Walk: Drop;

    // the pieces of the cube that were given so far
    ghost given: { Self.Walk → Protocol → Cube → List Cube → Type 0 };

    // falls with each piece
    ghost left: { Self.Walk → ℕ };

    /// Nothing is given yet.
    fn begin(
        &mut self,
        alloc: Global,
        protocol: &Protocol,
        cube: &Cube,
    ) -> Result<Self::Walk, Memory>
        requires made { Self.made_for self.old protocol.now }
        requires fit { IsExpandable protocol.now cube.now }
        ensures none { IfOk result (λ walk. given walk protocol.now cube.now []) }
        ensures made { Self.made_for self.new protocol.now };

    /// The next piece of the cube that the walk goes through; none where all were given. After want of memory the walk is
    /// to be dropped.
    fn next(
        &mut self,
        protocol: &Protocol,
        cube: &Cube,
        walk: &mut Self::Walk,
    ) -> Result<Option<Cube>, Memory>
        requires made { Self.made_for self.old protocol.now }
        requires fit { IsExpandable protocol.now cube.now }
        requires walk { (done : List Cube) × given walk.old protocol.now cube.now done }
        ensures piece { IfOk result (λ next. IfSome next (λ x. (done : List Cube) → given walk.old protocol.now cube.now done → given walk.new protocol.now cube.now (done ++ x ∷ []))) }
        ensures askable { IfOk result (λ next. IfSome next (λ x. IsAskable protocol.now x)) }
        ensures less { IfOk result (λ next. IfSome next (λ _. left walk.new < left walk.old)) }
        ensures all { IfOk result (λ next. IfNone next ((done : List Cube) → given walk.old protocol.now cube.now done → M.pieces protocol.now cube.now done)) }
        ensures made { Self.made_for self.new protocol.now };
}
