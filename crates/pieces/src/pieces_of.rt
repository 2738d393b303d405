//! The pieces of a cube: the transitions one after the other, each by one walk.

ghost use Rattle.std.specs.Prelude.{◌≡◌, ◌<◌, ◌≤◌, nat_le, Some, IsTrue, List, OnOk, IfOk, length, slice_get};
ghost use Rattle.std.specs.List.{list_all};
ghost use Rattle.cub_cube.specs.Mentions.{terms_in};
ghost use Rattle.theory.specs.Made.{IsFor, IsKept};
ghost use Rattle.piece_choices.specs.declared.piece.Piece.{Piece};
ghost use Rattle.piece_choices.specs.Pieces.{candidates_by, candidates, IsPossible, ArePieces};
ghost use Rattle.piece_steps.specs.Steps.{first_draft, steps_of};
ghost use Rattle.pieces.specs.Handed.{TakesAll, Hands};
ghost use Rattle.pieces.specs.Jobs.{IsExpandable, IsJob, as_step, by_number};

use crate::job::Job;
use crate::receiver::Receiver;
use crate::step::Step;
use crate::steps::fill_steps;
use crate::walk::walk;
use crate::work::Work;
use cub_base::{Items, Memory};
use cub_cube::Cube;
use cub_proto::{Protocol, Term, Transition};
use piece_choices::Pieces;
use theory::Scratch;

// Hands on the pieces by the transition of the job.
fn walk_all<R: Receiver>(
    job: &Job,
    scratch: &mut Scratch,
    work: &mut Work,
    receiver: &mut R,
) -> Result<(), Memory>
    requires made { IsFor job.now.protocol scratch.old }
    requires job { IsJob job.now }
    requires steps { job.now.steps ≡ steps_of job.now.transition job.now.cube.width (terms_in job.now.cube.lits) }
    requires first { work.old ≡ first_draft job.now.cube.width (terms_in job.now.cube.lits) }
    ensures kept { IsKept scratch.old scratch.new }
    ensures made { IsFor job.now.protocol scratch.new }
    ensures same { OnOk result (work.new ≡ work.old) }
    ensures handed { OnOk result (Hands (IsPossible job.now.protocol) R.takes (candidates_by job.now.protocol job.now.cube job.now.number job.now.transition) receiver.old receiver.new) }
{
    walk(job, scratch, work, 0, 0, receiver)
}

// The transition with that number.
fn transition_at(protocol: &Protocol, number: u16) -> &Transition
    requires { number < length protocol.now.transitions }
    ensures value { slice_get protocol.now.transitions number ≡ Some result.now }
    ensures few { result.now.params ≤ 3 }
    ensures short { IsTrue (list_all (λ u. nat_le (length u.branches) 64) result.now.updates) }
{
    &protocol.transitions.as_slice()[number as usize]
}

// Hands on the pieces by one transition. The steps are made anew in the same vector.
fn hand_on_by<R: Receiver>(
    scratch: &mut Scratch,
    protocol: &Protocol,
    cube: &Cube,
    number: u16,
    terms: &[Term],
    steps: &mut Vec<Step>,
    work: &mut Work,
    receiver: &mut R,
) -> Result<(), Memory>
    requires made { IsFor protocol.now scratch.old }
    requires fit { IsExpandable protocol.now cube.now }
    requires there { number < length protocol.now.transitions }
    requires terms { terms.now ≡ terms_in cube.now.lits }
    requires first { work.old ≡ first_draft cube.now.width (terms_in cube.now.lits) }
    ensures kept { IsKept scratch.old scratch.new }
    ensures made { IsFor protocol.now scratch.new }
    ensures same { OnOk result (work.new ≡ work.old) }
    ensures handed { OnOk result (Hands (IsPossible protocol.now) R.takes (by_number protocol.now cube.now number) receiver.old receiver.new) }
{
    let transition = transition_at(protocol, number);
    fill_steps(steps, transition, cube.width, terms)?;
    let job = Job {
        protocol,
        cube,
        number,
        transition,
        terms,
        steps: steps.as_slice(),
    };
    walk_all(&job, scratch, work, receiver)
}

// Hands on the pieces by each transition.
fn hand_on_all<R: Receiver>(
    scratch: &mut Scratch,
    protocol: &Protocol,
    cube: &Cube,
    terms: &[Term],
    work: &mut Work,
    receiver: &mut R,
) -> Result<(), Memory>
    requires made { IsFor protocol.now scratch.old }
    requires fit { IsExpandable protocol.now cube.now }
    requires terms { terms.now ≡ terms_in cube.now.lits }
    requires first { work.old ≡ first_draft cube.now.width (terms_in cube.now.lits) }
    ensures kept { IsKept scratch.old scratch.new }
    ensures made { IsFor protocol.now scratch.new }
    ensures handed { OnOk result (Hands (IsPossible protocol.now) R.takes (candidates protocol.now cube.now) receiver.old receiver.new) }
{
    let mut steps = Vec::new(cube.lits.allocator());
    for number in 0..protocol.transitions.len() {
        hand_on_by(
            scratch,
            protocol,
            cube,
            number as u16,
            terms,
            &mut steps,
            work,
            receiver,
        )?;
    }
    Ok(())
}

/// Hands the pieces of the cube on to the receiver, in order, and holds none of them.
pub fn each_piece<R: Receiver>(
    scratch: &mut Scratch,
    protocol: &Protocol,
    cube: &Cube,
    receiver: &mut R,
) -> Result<(), Memory>
    requires made { IsFor protocol.now scratch.old }
    requires fit { IsExpandable protocol.now cube.now }
    ensures kept { IsKept scratch.old scratch.new }
    ensures made { IsFor protocol.now scratch.new }
    ensures handed { OnOk result ((list : List Piece) × ArePieces protocol.now cube.now list × TakesAll R.takes receiver.old list receiver.new) }
{
    let alloc = cube.lits.allocator();
    let terms = cub_cube::terms_in(alloc, cube.lits.as_slice())?;
    let mut work = Work::new(alloc, cube.width, terms.as_slice())?;
    hand_on_all(
        scratch,
        protocol,
        cube,
        terms.as_slice(),
        &mut work,
        receiver,
    )
}

/// The pieces of the cube, in order, with their labels. A piece's number is its place in the list.
pub fn pieces(scratch: &mut Scratch, protocol: &Protocol, cube: &Cube) -> Result<Pieces, Memory>
    requires made { IsFor protocol.now scratch.old }
    requires fit { IsExpandable protocol.now cube.now }
    ensures kept { IsKept scratch.old scratch.new }
    ensures made { IsFor protocol.now scratch.new }
    ensures value { IfOk result (λ list. ArePieces protocol.now cube.now list) }
{
    let mut list = Items::new(cube.lits.allocator());
    each_piece(scratch, protocol, cube, &mut list)?;
    Ok(list)
}
