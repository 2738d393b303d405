//! Whether one cube of a list covers a conjunction, which is closed once for all of them.

ghost use Rattle.std.specs.Prelude.{◌≡◌, ◌↔◌, ◌≤◌, All, IsTrue};
ghost use Rattle.cub_cube.specs.Cover.{IsCovered};
ghost use Rattle.cub_cube.specs.Meaning.{IsConsistent};
ghost use Rattle.theory_laws.specs.Fitting.{AreFitting};
ghost use Rattle.theory.specs.Made.{IsFor};
ghost use Rattle.pieces.specs.Jobs.{IsExpandable};
ghost use Rattle.cert_check.specs.Injections.{IsReady, cube_of};

use crate::injections::covers;
use cub_cube::Cube;
use cub_proto::{Lit, Protocol};
use theory::{Scratch, load};

// Whether one of the cubes covers the loaded conjunction.
fn some_covers(
    scratch: &mut Scratch,
    protocol: &Protocol,
    cubes: &[Cube],
    width: u8,
    lits: &[Lit],
) -> bool
    requires ready { IsReady protocol.now width lits.now scratch.old }
    requires fit { All (IsExpandable protocol.now) cubes.now }
    requires narrow { width ≤ 12 }
    ensures made { IsFor protocol.now scratch.new }
    ensures exact { IsTrue result ↔ IsCovered protocol.now cubes.now (cube_of width lits.now) }
{
    for k in 0..cubes.len() {
        if covers(scratch, protocol, width, lits, &cubes[k]) {
            return true;
        }
    }
    false
}

/// Whether one of the cubes covers the conjunction, where some state meets it.
pub fn is_covered(
    scratch: &mut Scratch,
    protocol: &Protocol,
    cubes: &[Cube],
    width: u8,
    lits: &[Lit],
) -> bool
    requires made { IsFor protocol.now scratch.old }
    requires fit { All (IsExpandable protocol.now) cubes.now }
    requires fitting { AreFitting protocol.now width lits.now }
    ensures made { IsFor protocol.now scratch.new }
    ensures exact { IsTrue result ↔ (IsConsistent protocol.now width lits.now → IsCovered protocol.now cubes.now (cube_of width lits.now)) }
{
    if !load(scratch, protocol, width, lits) {
        return true;
    }
    some_covers(scratch, protocol, cubes, width, lits)
}
