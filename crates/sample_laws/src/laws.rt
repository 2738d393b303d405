//! Laws, as contracts of calls that do nothing.

ghost use Rattle.std.specs.Prelude.{ℕ, ◌≤◌};
ghost use Rattle.cub_proto.specs.declared.protocol.Protocol.{Protocol};
ghost use Rattle.cub_proto.specs.Meets.{IsSafe};
ghost use Rattle.sample_gen.specs.Sample.{IsSample};

/// The sample protocol is safe, whatever its number of levels: of two alive processes one is on the lowest level.
pub fn sample_is_safe()
    ensures { (top : ℕ) (p : Protocol) → 2 ≤ top → IsSample top p → IsSafe p }
{}
