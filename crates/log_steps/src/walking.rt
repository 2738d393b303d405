//! The whole list of the pieces of a cube. Judging goes through the pieces one by one and needs no such list; a list that is
//! given, as a journal gives one, is compared with it.

ghost use Rattle.std.specs.Prelude.{◌≡◌, ◌+◌, All, IfOk};
ghost use Rattle.log_form.specs.Pieces.{IsAskable, IsExpandable};
ghost use Rattle.log_steps.specs.Pieces.{AreItsPieces};

use crate::deciding::Expands;
use crate::judging::push;
use cub_base::{Items, Memory};
use cub_cube::Cube;
use cub_proto::Protocol;
use log_form::{Numbered, NumberedList, PreImages};
use std::alloc::Global;

/// The number of the next piece. A search with 2 ^ 64 pieces of one cube would want memory long before.
pub fn next_number(number: u64) -> Result<u64, Memory>
    ensures { IfOk result (λ next. next ≡ number + 1) }
{
    match number.checked_add(1) {
        Some(next) => Ok(next),
        None => Err(Memory),
    }
}

/// The pieces of the cube, in order, with their numbers.
pub fn pieces_of<M: PreImages, S: Expands<M>>(
    alloc: Global,
    scratch: &mut S,
    protocol: &Protocol,
    cube: &Cube,
) -> Result<NumberedList, Memory>
    requires made { S.made_for scratch.old protocol.now }
    requires fit { IsExpandable protocol.now cube.now }
    ensures value { IfOk result (λ list. AreItsPieces M.pieces protocol.now cube.now list) }
    ensures fit { IfOk result (λ list. All (λ x. IsAskable protocol.now x.cube) list) }
    ensures made { S.made_for scratch.new protocol.now }
{
    let mut walk = scratch.begin(alloc, protocol, cube)?;
    let mut list = Items::new(alloc);
    let mut number = 0;
    while let Some(piece) = scratch.next(protocol, cube, &mut walk)? {
        let piece = Numbered {
            number,
            cube: piece,
        };
        push(&mut list, piece)?;
        number = next_number(number)?;
    }
    Ok(list)
}
