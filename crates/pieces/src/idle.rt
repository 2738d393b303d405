//! Steps that leave a draft as it is: the universal guard at a place that is a parameter or not there, the way of a term that
//! has no update, a condition behind the branch, the pick of a term whose value is fixed. Most steps are idle, so they are
//! passed over in one loop.

ghost use Rattle.std.specs.Prelude.{◌≡◌, ◌<◌, ◌≤◌, ◌-◌, drop, length, IsTrue};
ghost use Rattle.std.specs.Option.{option_copied};
ghost use Rattle.cub_proto.specs.StateOf.{signature_of};
ghost use Rattle.pieces.specs.Idle.{has_no_branch, has_no_fail, is_idle};
ghost use Rattle.pieces.specs.Jobs.{IsReady, Stands, as_step, step_at, behind};

use crate::job::Job;
use crate::options::{is_free, is_late, is_other, update_at};
use crate::step::Step;
use crate::work::Work;
use cub_proto::{Protocol, Transition, Update};

fn has_no_branch(update: Option<&Update>) -> bool
    ensures { result ≡ has_no_branch (option_copied update.entry) }
{
    match update {
        Some(_) => false,
        None => true,
    }
}

fn has_no_fail(update: Option<&Update>, branch: u8, b: u8) -> bool
    ensures { result ≡ has_no_fail (option_copied update.entry) branch b }
{
    match update {
        Some(_) => b >= branch,
        None => true,
    }
}

// Whether the step leaves the draft as it is.
fn is_idle(protocol: &Protocol, transition: &Transition, step: Step, work: &Work) -> bool
    requires { IsReady protocol.now transition.now (as_step step) work.now }
    ensures { result ≡ is_idle transition.now (as_step step) work.now }
{
    match step {
        Step::Param | Step::Guard => false,
        Step::Other(q) => !is_other(work, q),
        Step::Branch(i) => has_no_branch(update_at(transition, work, i)),
        Step::Fail(i, b) => {
            has_no_fail(update_at(transition, work, i), work.choices[i].branch, b)
        }
        Step::Choose(i) => !is_free(transition, work, i),
        Step::Late(j) => !is_late(work, j),
    }
}

// Whether the step with that number leaves the draft as it is.
fn is_idle_at(job: &Job, work: &Work, at: usize) -> bool
    requires there { at < length job.now.steps }
    requires stands { Stands job.now (drop at job.now.steps) work.now }
    ensures { result ≡ is_idle job.now.transition (step_at job.now at) work.now }
{
    is_idle(job.protocol, job.transition, job.steps[at], work)
}

/// The number of the first step from that one on that does not leave the draft as it is; past the last where there is none.
pub(crate) fn next_choice(job: &Job, work: &Work, at: usize) -> usize
    requires there { at ≤ length job.now.steps }
    requires stands { Stands job.now (drop at job.now.steps) work.now }
    ensures later { at ≤ result }
    ensures there { result ≤ length job.now.steps }
    ensures stands { Stands job.now (drop result job.now.steps) work.now }
    ensures same { behind job.now (drop at job.now.steps) work.now ≡ behind job.now (drop result job.now.steps) work.now }
{
    let mut next = at;
    while next < job.steps.len() && is_idle_at(job, work, next) {
        next += 1;
    }
    next
}
