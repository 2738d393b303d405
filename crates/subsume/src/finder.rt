//! Lists of cubes that are searched for covering. The log keeps the cubes of its nodes in such a list, and asks which of
//! them cover a cube and which of them a cube covers; how the list is searched is the business of its type.

ghost use Rattle.std.specs.Prelude.{◌≡◌, ◌∷◌, ◌++◌, ◌↔◌, ◌-◌, ◌^◌, ◌<◌, ◌≤◌, length, take, IsTrue, OnOk, OnErr, IfOk, IfErr};
ghost use Rattle.cub_cube.specs.Cover.{DoesCover, IsCovered};
ghost use Rattle.log_form.specs.Pieces.{IsAskable};
ghost use Rattle.log_form.specs.Links.{cube_at, IsFirstCover, IsFirstUnder};

use cub_base::{Memory, Places};
use cub_cube::Cube;
use cub_proto::Protocol;

/// What a scratch was made for.
pub trait MadeFor {
    ghost use Rattle.cub_proto.specs.declared.protocol.Protocol.{Protocol};

    ghost made_for: { Self → Protocol → Type 0 };
}

/// A list of cubes with searches, over scratches of the type `S`. A finder serves protocols; an empty one serves each.
pub trait Finder<S: MadeFor> {
    ghost use Rattle.std.specs.Prelude.{List, [], ◌≡◌};
    ghost use Rattle.cub_proto.specs.declared.protocol.Protocol.{Protocol};
    ghost use Rattle.cub_cube.specs.declared.cube.Cube.{Cube};

    ghost list: { Self → List Cube };

    ghost serves: { Self → Protocol → Type 0 };

    /// Appends the cube and answers its number. Refused, it hands the cube back.
    fn push(&mut self, protocol: &Protocol, cube: Cube) -> Result<u32, (Cube, Memory)>
        requires serves { serves self.old protocol.now }
        requires fit { IsAskable protocol.now cube }
        requires room { length (list self.old) < 2 ^ 32 - 1 }
        ensures number { IfOk result (λ number. number ≡ length (list self.old)) }
        ensures ok { OnOk result (list self.new ≡ list self.old ++ cube ∷ []) }
        ensures err { OnErr result (list self.new ≡ list self.old) }
        ensures back { IfErr result (λ e. e.0 ≡ cube) }
        ensures serves { serves self.new protocol.now };

    /// The first cube from the number `start` on that covers the given one, with the least places.
    fn find(
        &mut self,
        scratch: &mut S,
        protocol: &Protocol,
        start: u32,
        cube: &Cube,
    ) -> Option<(u32, Places)>
        requires serves { serves self.old protocol.now }
        requires made { S.made_for scratch.old protocol.now }
        requires fit { IsAskable protocol.now cube.now }
        ensures first { IsFirstCover protocol.now (list self.old) start (length (list self.old)) cube.now result }
        ensures same { list self.new ≡ list self.old }
        ensures serves { serves self.new protocol.now }
        ensures made { S.made_for scratch.new protocol.now };

    /// The first cube from the number `start` on that the given one covers, with the least places.
    fn under(
        &mut self,
        scratch: &mut S,
        protocol: &Protocol,
        start: u32,
        cube: &Cube,
    ) -> Option<(u32, Places)>
        requires serves { serves self.old protocol.now }
        requires made { S.made_for scratch.old protocol.now }
        requires fit { IsAskable protocol.now cube.now }
        ensures first { IsFirstUnder protocol.now (list self.old) start (length (list self.old)) cube.now result }
        ensures same { list self.new ≡ list self.old }
        ensures serves { serves self.new protocol.now }
        ensures made { S.made_for scratch.new protocol.now };

    /// Whether some cube covers the given one.
    fn is_covered(&mut self, scratch: &mut S, protocol: &Protocol, cube: &Cube) -> bool
        requires serves { serves self.old protocol.now }
        requires made { S.made_for scratch.old protocol.now }
        requires fit { IsAskable protocol.now cube.now }
        ensures value { IsTrue result ↔ IsCovered protocol.now (list self.old) cube.now }
        ensures same { list self.new ≡ list self.old }
        ensures serves { serves self.new protocol.now }
        ensures made { S.made_for scratch.new protocol.now };

    /// The number of cubes.
    fn count(&self) -> u32
        ensures { result ≡ length (list self.now) };

    /// The cube with that number.
    fn cube(&self, number: u32) -> &Cube
        requires { number < length (list self.now) }
        ensures { result.now ≡ cube_at (list self.now) number };

    /// Says that a later cube covers the cube with that number, so that `is_covered` may pass over it.
    fn retire(&mut self, protocol: &Protocol, number: u32, by: u32)
        requires serves { serves self.old protocol.now }
        requires later { number < by }
        requires inside { by < length (list self.old) }
        requires covers { DoesCover protocol.now (cube_at (list self.old) by) (cube_at (list self.old) number) }
        ensures same { list self.new ≡ list self.old }
        ensures serves { serves self.new protocol.now };

    /// Keeps the first `count` cubes.
    fn cut(&mut self, count: u32)
        requires { count ≤ length (list self.old) }
        ensures kept { list self.new ≡ take count (list self.old) }
        ensures serves { (p : Protocol) → serves self.old p → serves self.new p };

    ghost empty_serves: { (finder : Self) (p : Protocol) → list finder ≡ [] → serves finder p };
}
