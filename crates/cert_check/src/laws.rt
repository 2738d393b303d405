//! Laws of refusals, as contracts of calls that do nothing.

ghost use Rattle.std.specs.Prelude.{◌≡◌, ◌≢◌, List};
ghost use Rattle.cub_proto.specs.declared.cover.CoverLine.{CoverLine};
ghost use Rattle.cub_proto.specs.declared.protocol.Protocol.{Protocol};
ghost use Rattle.cub_cube.specs.declared.cube.Cube.{Cube};
ghost use Rattle.piece_laws.specs.Test.{PassesTest, PassesLines};
ghost use Rattle.cert_check.specs.declared.refused.Refused.{Refused};
ghost use Rattle.cert_check.specs.Refusal.{FailsFirst, FailsFirstOrExtra};

/// What is refused does not pass the test of its version.
pub fn refusals_exclude_the_test()
    ensures test { (p : Protocol) (cubes : List Cube) (r : Refused) → r ≢ Refused.Memory → FailsFirst p cubes r → PassesTest p cubes → ⊥ }
    ensures lines { (p : Protocol) (cubes : List Cube) (lines : List CoverLine) (r : Refused) → r ≢ Refused.Memory
        → FailsFirstOrExtra p cubes lines r → PassesLines p cubes lines → ⊥ }
{}

/// A certificate has one refusal at most.
pub fn refusals_are_one()
    ensures test { (p : Protocol) (cubes : List Cube) (r q : Refused) → r ≢ Refused.Memory → q ≢ Refused.Memory
        → FailsFirst p cubes r → FailsFirst p cubes q → r ≡ q }
    ensures lines { (p : Protocol) (cubes : List Cube) (lines : List CoverLine) (r q : Refused) → r ≢ Refused.Memory → q ≢ Refused.Memory
        → FailsFirstOrExtra p cubes lines r → FailsFirstOrExtra p cubes lines q → r ≡ q }
{}
