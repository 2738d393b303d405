//! Start states. A start state is built of a solution of the cube's literals together with those of the start conjunction
//! at each of its places. A process beyond the places has the cells of process 0, and the start conjunction compares no
//! process global with a place, so it is true there too. So the question about all numbers of processes is one of
//! consistency at the places alone.

ghost use Rattle.std.specs.Prelude.{◌≡◌, ◌↔◌, IsTrue, IfOk, IfSome};
ghost use Rattle.cub_proto.specs.Legal.{IsStart};
ghost use Rattle.cub_proto.specs.Meets.{Satisfies};
ghost use Rattle.theory_laws.specs.Fitting.{AreFitting};
ghost use Rattle.theory_laws.specs.Built.{own_places};
ghost use Rattle.theory_laws.specs.Chosen.{IsChosenState};
ghost use Rattle.cub_cube.specs.Starts.{MeetsStart};
ghost use Rattle.theory_laws.specs.Start.{start_width, with_start_literals};
ghost use Rattle.theory_laws.specs.Small.{HasSmallIntegers};
ghost use Rattle.theory.specs.Made.{IsFor, IsKept};

use cub_base::Memory;
use cub_cube::Cube;
use cub_proto::{Protocol, State};
use std::alloc::Global;
use theory::{Scratch, state_with_start, with_start};

/// Whether some start state of the protocol meets the cube.
pub fn meets_start(scratch: &mut Scratch, protocol: &Protocol, cube: &Cube) -> bool
    requires made { IsFor protocol.now scratch.old }
    requires fitting { AreFitting protocol.now cube.now.width cube.now.lits }
    ensures kept { IsKept scratch.old scratch.new }
    ensures made { IsFor protocol.now scratch.new }
    ensures exact { IsTrue result ↔ MeetsStart protocol.now cube.now.width cube.now.lits }
{
    with_start(scratch, protocol, cube)
}

/// The chosen start state that meets the cube, or None where no start state does. Its first processes satisfy the cube.
pub fn start_state(
    alloc: Global,
    scratch: &mut Scratch,
    protocol: &Protocol,
    cube: &Cube,
) -> Result<Option<State>, Memory>
    requires made { IsFor protocol.now scratch.old }
    requires fitting { AreFitting protocol.now cube.now.width cube.now.lits }
    ensures kept { IsKept scratch.old scratch.new }
    ensures made { IsFor protocol.now scratch.new }
    ensures none { result ≡ Ok None → MeetsStart protocol.now cube.now.width cube.now.lits → ⊥ }
    ensures chosen { IfOk result (λ found. IfSome found (IsChosenState protocol.now (start_width cube.now.width) (with_start_literals protocol.now cube.now.width cube.now.lits))) }
    ensures start { IfOk result (λ found. IfSome found (IsStart protocol.now)) }
    ensures satisfied { IfOk result (λ found. IfSome found (λ s. Satisfies s (own_places (start_width cube.now.width)) (start_width cube.now.width) cube.now.lits)) }
    ensures small { IfOk result (λ found. IfSome found HasSmallIntegers) }
{
    state_with_start(alloc, scratch, protocol, cube)
}
