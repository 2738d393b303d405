//! The obligations on start states.

ghost use Rattle.std.specs.Prelude.{◌≡◌, ◌↔◌, ◌<◌, ◌^◌, ℕ, All, length, IsTrue, MatchOption};
ghost use Rattle.cub_cube.specs.Starts.{IsStartCube};
ghost use Rattle.theory.specs.Made.{IsFor};
ghost use Rattle.pieces.specs.Jobs.{IsExpandable};
ghost use Rattle.cert_check.specs.First.{IsFirstWithout};
ghost use Rattle.cert_check.specs.Obligations.{StartHolds};
ghost use Rattle.cert_check.specs.Refusal.{StartsHold};

use cub_cube::Cube;
use cub_proto::Protocol;
use theory::{Scratch, with_start};

// Whether some start state meets the cube.
fn meets_start(scratch: &mut Scratch, protocol: &Protocol, cube: &Cube) -> bool
    requires made { IsFor protocol.now scratch.old }
    requires fit { IsExpandable protocol.now cube.now }
    ensures made { IsFor protocol.now scratch.new }
    ensures exact { IsTrue result ↔ IsStartCube protocol.now cube.now }
{
    with_start(scratch, protocol, cube)
}

/// The first cube that some start state meets.
pub fn first_started(scratch: &mut Scratch, protocol: &Protocol, cubes: &[Cube]) -> Option<u32>
    requires made { IsFor protocol.now scratch.old }
    requires fit { All (IsExpandable protocol.now) cubes.now }
    requires few { length cubes.now < 2 ^ 32 }
    ensures made { IsFor protocol.now scratch.new }
    ensures first { MatchOption result (StartsHold protocol.now cubes.now) (λ k. IsFirstWithout (StartHolds protocol.now cubes.now) k) }
{
    for k in 0..cubes.len() as u32 {
        if meets_start(scratch, protocol, &cubes[k as usize]) {
            return Some(k);
        }
    }
    None
}
