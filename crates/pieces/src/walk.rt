//! The walk through all choices: backtracking over one work record. Each step is a level; its options are taken in order,
//! and undone by cutting the record back. Where a step has a choice and no state meets the literals so far, the draft is given
//! up with all choices behind it: every piece behind it would have these literals.

ghost use Rattle.std.specs.Prelude.{◌≡◌, ◌<◌, ◌≤◌, ◌+◌, ◌*◌, ◌-◌, ◌^◌, ◌↔◌, [], false, drop, length, OnOk, IsTrue};
ghost use Rattle.std.specs.List.{flat_map};
ghost use Rattle.cub_proto.specs.StateOf.{signature_of};
ghost use Rattle.cub_cube.specs.Kept.{Keeps};
ghost use Rattle.cub_cube.specs.Meaning.{IsConsistent};
ghost use Rattle.theory_laws.specs.Fitting.{AreFitting};
ghost use Rattle.theory.specs.Made.{IsFor, IsKept};
ghost use Rattle.piece_choices.specs.Pieces.{IsPossible};
ghost use Rattle.pieces.specs.Options.{options, option_at};
ghost use Rattle.pieces.specs.Jobs.{Stands, as_step, term_number, step_at, behind};
ghost use Rattle.pieces.specs.Marks.{mark_of};
ghost use Rattle.pieces.specs.Handed.{Hands};
ghost use Rattle.pieces.specs.Alone.{may_be_met};

use crate::alone::{may_be_met, says_more};
use crate::idle::next_choice;
use crate::job::Job;
use crate::options::{option_count, take_option};
use crate::receiver::Receiver;
use crate::step::Step;
use crate::whole::whole_cube;
use crate::work::{Mark, Work};
use cub_base::Memory;
use cub_proto::Lit;
use theory::Scratch;

// The number of the term whose choice a step may change, or 0.
fn term_of(step: Step) -> usize
    ensures { result ≡ term_number (as_step step) }
{
    match step {
        Step::Branch(i) | Step::Fail(i, _) | Step::Choose(i) => i,
        Step::Param | Step::Guard | Step::Other(_) | Step::Late(_) => 0,
    }
}

// Whether some state meets the literals.
fn is_met(job: &Job, scratch: &mut Scratch, width: u8, lits: &[Lit]) -> bool
    requires made { IsFor job.now.protocol scratch.old }
    requires fitting { AreFitting job.now.protocol width lits.now }
    ensures kept { IsKept scratch.old scratch.new }
    ensures made { IsFor job.now.protocol scratch.new }
    ensures exact { IsTrue result ↔ IsConsistent job.now.protocol width lits.now }
{
    theory::are_consistent(scratch, job.protocol, width, lits, &[])
}

// Whether there may be pieces behind the draft, whose next step has so many options. It is not asked where no literal came
// since the last test but such as compare places, which were looked at when they came, nor where there is no choice: one more
// step costs less than a test.
fn may_go_on(
    job: &Job,
    scratch: &mut Scratch,
    work: &Work,
    at: usize,
    count: usize,
    tested: usize,
) -> bool
    requires made { IsFor job.now.protocol scratch.old }
    requires stands { Stands job.now (drop at job.now.steps) work.now }
    ensures kept { IsKept scratch.old scratch.new }
    ensures made { IsFor job.now.protocol scratch.new }
    ensures none { result ≡ false → Keeps (IsPossible job.now.protocol) (behind job.now (drop at job.now.steps) work.now) [] }
{
    if count < 2 || !says_more(work.lits.as_slice(), tested) {
        return true;
    }
    is_met(job, scratch, work.width, work.lits.as_slice())
}

// How many literals need no test any more where the draft is gone on with.
fn tested_now(work: &Work, count: usize, tested: usize) -> usize {
    if count < 2 { tested } else { work.lits.len() }
}

// Hands on the piece of a whole draft, if it is one.
fn hand_on<R: Receiver>(
    job: &Job,
    scratch: &mut Scratch,
    work: &mut Work,
    receiver: &mut R,
) -> Result<(), Memory>
    requires made { IsFor job.now.protocol scratch.old }
    requires stands { Stands job.now [] work.old }
    ensures kept { IsKept scratch.old scratch.new }
    ensures made { IsFor job.now.protocol scratch.new }
    ensures same { OnOk result (work.new ≡ work.old) }
    ensures handed { OnOk result (Hands (IsPossible job.now.protocol) R.takes (behind job.now [] work.old) receiver.old receiver.new) }
{
    match whole_cube(job, scratch, work)? {
        Some(cube) => receiver.take(job.number, work, cube),
        None => Ok(()),
    }
}

// What to cut back to after an option of the step with that number.
fn mark_at(job: &Job, work: &Work, at: usize) -> Mark
    requires { at < length job.now.steps }
    ensures mark { result ≡ mark_of (term_number (step_at job.now at)) work.now }
    ensures short { at + 1 < 2 ^ 64 }
{
    let steps = job.steps;
    work.mark(term_of(steps[at]))
}

// Whether no step is to go.
fn is_end(job: &Job, at: usize) -> bool
    ensures { IsTrue result ↔ (at ≡ length job.now.steps) }
{
    at == job.steps.len()
}

// Whether no literal that came since the mark is false by itself.
fn is_open(work: &Work, mark: &Mark) -> bool
    ensures { result ≡ may_be_met (drop mark.now.lits work.now.lits) }
{
    may_be_met(work.lits.as_slice(), mark.lits)
}

// Goes on with one option of a step, unless it brought a literal that no state meets, and undoes it.
#[cycle(walk)]
fn attempt<R: Receiver>(
    job: &Job,
    scratch: &mut Scratch,
    work: &mut Work,
    at: usize,
    k: usize,
    tested: usize,
    receiver: &mut R,
) -> Result<(), Memory>
    requires made { IsFor job.now.protocol scratch.old }
    requires there { at < length job.now.steps }
    requires stands { Stands job.now (drop at job.now.steps) work.old }
    requires inside { k < options (signature_of job.now.protocol) job.now.transition job.now.cube.width (step_at job.now at) work.old }
    ensures kept { IsKept scratch.old scratch.new }
    ensures made { IsFor job.now.protocol scratch.new }
    ensures same { OnOk result (work.new ≡ work.old) }
    ensures handed { OnOk result (Hands (IsPossible job.now.protocol) R.takes (flat_map (behind job.now (drop (at + 1) job.now.steps)) (option_at (signature_of job.now.protocol) job.now.transition job.now.cube.width (step_at job.now at) work.old k)) receiver.old receiver.new) }
{
    let mark = mark_at(job, work, at);
    if !take_option(job, work, at, k)? {
        return Ok(());
    }
    if !is_open(work, &mark) {
        work.cut(&mark);
        return Ok(());
    }
    walk(job, scratch, work, at + 1, tested, receiver)?;
    work.cut(&mark);
    Ok(())
}

/// Hands on the pieces behind a draft with the steps from that number on to go, in order. So many of its first literals were
/// tested already.
#[cycle(walk)]
pub(crate) fn walk<R: Receiver>(
    job: &Job,
    scratch: &mut Scratch,
    work: &mut Work,
    at: usize,
    tested: usize,
    receiver: &mut R,
) -> Result<(), Memory>
    requires made { IsFor job.now.protocol scratch.old }
    requires there { at ≤ length job.now.steps }
    requires stands { Stands job.now (drop at job.now.steps) work.old }
    ensures kept { IsKept scratch.old scratch.new }
    ensures made { IsFor job.now.protocol scratch.new }
    ensures same { OnOk result (work.new ≡ work.old) }
    ensures handed { OnOk result (Hands (IsPossible job.now.protocol) R.takes (behind job.now (drop at job.now.steps) work.old) receiver.old receiver.new) }
{
    let next = next_choice(job, work, at);
    if is_end(job, next) {
        return hand_on(job, scratch, work, receiver);
    }
    let count = option_count(job, work, next);
    if !may_go_on(job, scratch, work, next, count, tested) {
        return Ok(());
    }
    let tested = tested_now(work, count, tested);
    for k in 0..count {
        attempt(job, scratch, work, next, k, tested, receiver)?;
    }
    Ok(())
}
