//! The pieces of a cube one by one. The search for them goes down all choices and cannot rest in between, so the cubes of
//! all pieces are listed when a walk begins, without their labels. The list is turned round: the next cube is the last one,
//! and is taken off without being copied.

ghost use Rattle.std.specs.Prelude.{◌≡◌, [], ◌∷◌, ◌++◌, ◌<◌, List, length, reverse, OnOk, IfOk, IfSome, IfNone};
ghost use Rattle.cub_cube.specs.declared.cube.Cube.{Cube};
ghost use Rattle.theory.specs.Made.{IsFor};
ghost use Rattle.log_form.specs.Pieces.{IsAskable, IsExpandable};
ghost use Rattle.predecessors.specs.Predecessors.{ArePieceCubes};

use crate::relation::Predecessors;
use cub_base::{Items, Memory};
use cub_cube::{Cube, Cubes};
use cub_proto::Protocol;
use log_steps::Expands;
use pieces::{Receiver, Work, each_piece};
use std::alloc::{AllocError, Global};
use theory::Scratch;

/// The cubes of pieces that are still to be given, the next one last.
#[derive(Drop)]
pub struct PieceWalk {
    rest: Cubes,
}

// The cubes of the pieces that were handed on, in order.
#[derive(Drop)]
struct PieceCubes {
    cubes: Cubes,
}

impl Receiver for PieceCubes {
    ghost takes = { λ old x new. new.cubes ≡ old.cubes ++ x.cube ∷ [] };

    fn take(&mut self, _transition: u16, _work: &Work, cube: Cube) -> Result<(), Memory> {
        push(&mut self.cubes, cube)?;
        Ok(())
    }
}

fn push(cubes: &mut Cubes, cube: Cube) -> Result<(), AllocError>
    ensures { OnOk result (cubes.new ≡ cubes.old ++ cube ∷ []) }
{
    cubes.push(cube)?;
    Ok(())
}

// The cubes of all pieces of the cube, in order.
fn piece_cubes(
    alloc: Global,
    scratch: &mut Scratch,
    protocol: &Protocol,
    cube: &Cube,
) -> Result<Cubes, Memory>
    requires made { IsFor protocol.now scratch.old }
    requires fit { IsExpandable protocol.now cube.now }
    ensures made { IsFor protocol.now scratch.new }
    ensures value { IfOk result (λ cubes. ArePieceCubes protocol.now cube.now cubes) }
{
    let mut listed = PieceCubes {
        cubes: Items::new(alloc),
    };
    each_piece(scratch, protocol, cube, &mut listed)?;
    let PieceCubes { cubes } = listed;
    Ok(cubes)
}

fn turned_round(cubes: Cubes) -> Cubes
    ensures { result ≡ reverse cubes }
{
    let mut cubes = cubes.into_vec();
    cubes.reverse();
    Items::from_vec(cubes)
}

impl Expands<Predecessors> for Scratch {
    ghost use Rattle.std.specs.Prelude.{length};
    ghost use Rattle.predecessors.specs.Walks.{AreGiven};

    type Walk = PieceWalk;

    ghost given = { λ walk p c done. AreGiven p c walk.rest done };

    ghost left = { λ walk. length walk.rest };

    fn begin(
        &mut self,
        alloc: Global,
        protocol: &Protocol,
        cube: &Cube,
    ) -> Result<PieceWalk, Memory> {
        let cubes = piece_cubes(alloc, self, protocol, cube)?;
        let rest = turned_round(cubes);
        Ok(PieceWalk { rest })
    }

    fn next(
        &mut self,
        _protocol: &Protocol,
        _cube: &Cube,
        walk: &mut PieceWalk,
    ) -> Result<Option<Cube>, Memory> {
        match walk.rest.pop() {
            Some(cube) => Ok(Some(cube)),
            None => Ok(None),
        }
    }
}
