//! The chosen start state of a cube that some start state meets.

ghost use Rattle.std.specs.Prelude.{◌≤◌, IfOk};
ghost use Rattle.cub_proto.specs.Configuration.{process_count};
ghost use Rattle.cub_proto.specs.Legal.{IsStart};
ghost use Rattle.cub_proto.specs.Meets.{Satisfies};
ghost use Rattle.cub_cube.specs.Starts.{IsStartCube};
ghost use Rattle.log_form.specs.Pieces.{IsFit, widest, greatest_expanded};
ghost use Rattle.replay.specs.FitsStart.{FitsStart};
ghost use Rattle.theory.specs.Made.{IsFor, IsKept};
ghost use Rattle.theory_laws.specs.Built.{own_places};
ghost use Rattle.theory_laws.specs.Small.{HasSmallIntegers};
ghost use Rattle.trace_build.specs.First.{IsChosenStart};

use cub_base::Memory;
use cub_cube::Cube;
use cub_proto::{Protocol, State};
use start_check::start_state;
use std::alloc::Global;
use theory::Scratch;

/// The chosen start state of the cube. It has at most 75 processes: 11 places, and one for each process global.
pub fn chosen_start(
    alloc: Global,
    scratch: &mut Scratch,
    protocol: &Protocol,
    cube: &Cube,
) -> Result<State, Memory>
    requires made { IsFor protocol.now scratch.old }
    requires fit { IsFit protocol.now widest greatest_expanded cube.now }
    requires meets { IsStartCube protocol.now cube.now }
    ensures kept { IsKept scratch.old scratch.new }
    ensures made { IsFor protocol.now scratch.new }
    ensures chosen { IfOk result (IsChosenStart protocol.now cube.now) }
    ensures start { IfOk result (IsStart protocol.now) }
    ensures satisfied { IfOk result (λ s. Satisfies s (own_places cube.now.width) cube.now.width cube.now.lits) }
    ensures few { IfOk result (λ s. process_count s ≤ 75) }
    ensures small { IfOk result HasSmallIntegers }
    ensures fits { IfOk result (FitsStart protocol.now) }
{
    match start_state(alloc, scratch, protocol, cube)? {
        Some(state) => Ok(state),
        None => unreachable!(),
    }
}
