//! What the first event treats: the unsafe conjunctions that some state meets, as cubes in normal form, each with its number
//! among all.

ghost use Rattle.std.specs.Prelude.{All, IfOk};
ghost use Rattle.log_form.specs.Numbering.{AreRoots};
ghost use Rattle.log_form.specs.Pieces.{IsAskable};

use crate::deciding::Decisions;
use crate::judging::push;
use cub_base::{Items, Memory};
use cub_cube::Cube;
use cub_proto::Protocol;
use log_form::{Numbered, NumberedList};
use std::alloc::Global;

/// The consistent unsafe conjunctions of the protocol.
pub fn consistent_goals<S: Decisions>(
    alloc: Global,
    scratch: &mut S,
    protocol: &Protocol,
) -> Result<NumberedList, Memory>
    requires made { S.made_for scratch.old protocol.now }
    ensures value { IfOk result (λ list. AreRoots protocol.now list) }
    ensures fit { IfOk result (λ list. All (λ x. IsAskable protocol.now x.cube) list) }
    ensures made { S.made_for scratch.new protocol.now }
{
    let mut list = Items::new(alloc);
    let mut number = 0;
    for goal in protocol.goals.as_slice() {
        let cube = Cube::of(alloc, protocol, goal.width, goal.lits.as_slice())?;
        if scratch.consistent(protocol, &cube) {
            push(&mut list, Numbered { number, cube })?;
        }
        number += 1;
    }
    Ok(list)
}
