//! The walk along a chain: the step of each link but the last, with the processes that stand at the places of its piece.

ghost use Rattle.std.specs.Prelude.{◌≡◌, ◌+◌, ◌<◌, ◌≤◌, length, slice_get, Some, IfOk};
ghost use Rattle.cub_proto.specs.StateOf.{IsStateOf};
ghost use Rattle.pieces.specs.Jobs.{IsExpandable};
ghost use Rattle.theory.specs.Made.{IsFor, IsKept};
ghost use Rattle.theory_laws.specs.Built.{own_places};
ghost use Rattle.trace_laws.specs.Standing.{standing};
ghost use Rattle.trace_laws.specs.Chain.{IsPieceOf, NamesPiece, NamesGoal, IsChain};
ghost use Rattle.trace_laws.specs.Along.{IsStepOf, IsStepBy, EndsAt, StepsAlong};
ghost use Rattle.trace_build.specs.First.{first_places};

use crate::blocking::push_event;
use crate::label::label_at;
use crate::standing::{Standing, standing};
use crate::steps::step_by;
use arrayvec::ArrayVec;
use cub_base::{Items, Memory};
use cub_cube::Cube;
use cub_proto::{Event, Events, Processes, Protocol, State};
use log_form::Origin;
use std::alloc::Global;
use theory::Scratch;
use trace_laws::Link;

/// The steps along a chain, the unsafe conjunction at its end, and the processes at the places of that.
#[derive(Debug, Drop)]
pub struct Walked {
    pub steps: Events,
    pub goal: u32,
    pub places: Processes,
}

// The step of the piece with that number.
fn piece_step(
    alloc: Global,
    scratch: &mut Scratch,
    protocol: &Protocol,
    state: &State,
    link: &Link,
    next: &Cube,
    number: u64,
    processes: &[u32],
) -> Result<Event, Memory>
    requires made { IsFor protocol.now scratch.old }
    requires state_of { IsStateOf protocol.now state.now }
    requires fit { IsExpandable protocol.now next.now }
    requires named { IsPieceOf protocol.now number link.now next.now }
    ensures kept { IsKept scratch.old scratch.new }
    ensures made { IsFor protocol.now scratch.new }
    ensures step { IfOk result (IsStepOf protocol.now state.now next.now number processes.now) }
{
    match label_at(scratch, protocol, next, number)? {
        Some(label) => step_by(alloc, protocol, state, &label, processes),
        None => unreachable!(),
    }
}

// The step of the link, where the processes stand at the places of its piece of the next cube.
fn link_step(
    alloc: Global,
    scratch: &mut Scratch,
    protocol: &Protocol,
    state: &State,
    link: &Link,
    next: &Cube,
    processes: &[u32],
) -> Result<Event, Memory>
    requires made { IsFor protocol.now scratch.old }
    requires state_of { IsStateOf protocol.now state.now }
    requires fit { IsExpandable protocol.now next.now }
    requires named { NamesPiece protocol.now link.now next.now link.now.origin }
    ensures kept { IsKept scratch.old scratch.new }
    ensures made { IsFor protocol.now scratch.new }
    ensures step { IfOk result (IsStepBy protocol.now state.now next.now link.now.origin processes.now) }
{
    match link.origin {
        Origin::Piece { piece, .. } => piece_step(
            alloc, scratch, protocol, state, link, next, piece, processes,
        ),
        Origin::Root { .. } => unreachable!(),
    }
}

// The process with the number of each place.
fn own_processes(width: u8) -> Standing
    requires { width ≤ 11 }
    ensures { result.items ≡ own_places width }
{
    let mut list = ArrayVec::new();
    for process in 0..u32::from(width) {
        list.push(process);
    }
    list
}

// The walk at the end of the chain, after the given steps.
fn ended(
    alloc: Global,
    protocol: &Protocol,
    link: &Link,
    steps: Events,
    processes: &[u32],
) -> Result<Walked, Memory>
    requires named { NamesGoal protocol.now link.now link.now.origin }
    ensures steps { IfOk result (λ walk. walk.steps ≡ steps) }
    ensures ends { IfOk result (λ walk. EndsAt link.now.origin (standing link.now.places processes.now) walk.goal walk.places) }
{
    let standing = standing(link.places.as_slice(), processes);
    match link.origin {
        Origin::Root { goal } => {
            let places = Items::from_slice(alloc, standing.as_slice())?;
            Ok(Walked {
                steps,
                goal,
                places,
            })
        }
        Origin::Piece { .. } => unreachable!(),
    }
}

/// Walks along the chain. At first the process with the number of each place of the first cube stands there.
pub fn walk(
    alloc: Global,
    scratch: &mut Scratch,
    protocol: &Protocol,
    state: &State,
    chain: &[Link],
) -> Result<Walked, Memory>
    requires made { IsFor protocol.now scratch.old }
    requires state_of { IsStateOf protocol.now state.now }
    requires chain { IsChain protocol.now chain.now }
    ensures kept { IsKept scratch.old scratch.new }
    ensures made { IsFor protocol.now scratch.new }
    ensures along { IfOk result (λ walk. StepsAlong protocol.now state.now chain.now (first_places chain.now) walk.steps walk.goal walk.places) }
{
    let mut steps = Items::with_room(alloc, chain.len())?;
    let mut processes = own_processes(chain[0].cube.width);
    for at in 0..chain.len() - 1 {
        let link = &chain[at];
        let next = &chain[at + 1].cube;
        let mut standing = standing(link.places.as_slice(), processes.as_slice());
        let step = link_step(
            alloc,
            scratch,
            protocol,
            state,
            link,
            next,
            standing.as_slice(),
        )?;
        push_event(&mut steps, step)?;
        standing.truncate(next.width as usize);
        processes = standing;
    }
    ended(
        alloc,
        protocol,
        &chain[chain.len() - 1],
        steps,
        processes.as_slice(),
    )
}
