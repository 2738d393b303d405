//! The options of a step: how many there are, and taking one of them.

ghost use Rattle.std.specs.Prelude.{◌≡◌, ◌<◌, ◌≤◌, ◌+◌, ◌-◌, ◌++◌, ◌∷◌, [], ◌&&◌, true, false, not, nat_lt, if◌then◌else◌, drop, length, Some, slice_index_or, IfOk, OnOk, IsTrue};
ghost use Rattle.std.specs.List.{list_all};
ghost use Rattle.std.specs.Option.{option_copied};
ghost use Rattle.cub_proto.specs.declared.literal.Sort.TheVariants as Sort;
ghost use Rattle.cub_proto.specs.Signature.{signature, sort_of};
ghost use Rattle.cub_proto.specs.StateOf.{signature_of};
ghost use Rattle.cub_proto.specs.Fits.{is_any, update_fits};
ghost use Rattle.cub_cube.specs.Step.{target_of};
ghost use Rattle.cub_cube.specs.Rename.{is_within};
ghost use Rattle.updates.specs.Chosen.{chosen_value};
ghost use Rattle.piece_choices.specs.Placings.{is_among};
ghost use Rattle.piece_choices.specs.Picks.{pick};
ghost use Rattle.piece_steps.specs.Steps.{choice_at, at_place, at_new_place, Guard, Other, Branch, Fail, Choose, Late, Param};
ghost use Rattle.pieces.specs.Options.{update_at, place_option, permit_option, branch_count, branch_option, fail_count, fail_option, value_count, process_at, value_at, value_option, options, option_at};
ghost use Rattle.pieces.specs.Marks.{mark_of, cut_back};
ghost use Rattle.pieces.specs.Jobs.{IsReady, Stands, as_step, step_at, term_number};

use crate::job::Job;
use crate::step::Step;
use crate::work::Work;
use cub_proto::{PSide, Protocol, Sort, Target, Term, Transition, Update, Value};
use std::alloc::AllocError;
use updates::{condition, update_of, way_value};

fn target_of(term: Term) -> Target
    ensures { result ≡ target_of term }
{
    match term {
        Term::Global(global) => Target::Global(global),
        Term::Cell(array, _) => Target::Array(array),
    }
}

// The update of the term with that number.
pub(crate) fn update_at<'a>(transition: &'a Transition, work: &Work, i: usize) -> Option<&'a Update>
    requires { i < length work.now.choices }
    ensures { option_copied result ≡ update_at transition.now work.now i }
{
    update_of(
        transition.updates.as_slice(),
        target_of(work.choices[i].term),
    )
}

// Whether the place is one of the cube and the parameters, and no parameter.
pub(crate) fn is_other(work: &Work, q: u8) -> bool
    ensures { result ≡ (nat_lt q work.now.inner && not (is_among work.now.params q)) }
{
    q < work.inner && !is_param(work.params.as_slice(), q)
}

fn is_param(params: &[u8], q: u8) -> bool
    ensures { result ≡ is_among params.now q }
{
    params.iter().any(|x| *x == q)
}

// Whether there is a new place of a pick with that number.
pub(crate) fn is_late(work: &Work, j: usize) -> bool
    requires { work.now.inner ≤ work.now.width }
    ensures { result ≡ nat_lt (work.now.inner + j) work.now.width }
{
    j < usize::from(work.width - work.inner)
}

fn late_place(inner: u8, j: usize) -> u8
    requires { inner + j < 256 }
    ensures { result ≡ inner + j }
{
    (usize::from(inner) + j) as u8
}

fn is_any(value: Value) -> bool
    ensures { result ≡ is_any value }
{
    matches!(value, Value::Any)
}

// Whether the chosen value of the term with that number is `?`. Places make no difference to that.
pub(crate) fn is_free(transition: &Transition, work: &Work, i: usize) -> bool
    requires { i < length work.now.choices }
    ensures { result ≡ is_any (chosen_value transition.now.updates work.now.params (choice_at work.now i)) }
{
    match update_at(transition, work, i) {
        Some(update) => is_any(way_value(update, work.choices[i].branch)),
        None => false,
    }
}

fn branch_count(update: Option<&Update>) -> usize
    requires { branch_count (option_copied update) ≤ 65 }
    ensures { result ≡ branch_count (option_copied update.entry) }
{
    match update {
        Some(update) => update.branches.len() + 1,
        None => 1,
    }
}

fn fail_count(update: Option<&Update>, branch: u8, b: u8) -> usize
    ensures { result ≡ fail_count (option_copied update.entry) branch b }
{
    match update {
        Some(update) if b < branch => condition(update.branches.as_slice(), b).len(),
        _ => 1,
    }
}

fn permit_count(transition: &Transition, asked: bool) -> usize
    ensures { result ≡ (if asked then length transition.now.others else 1) }
{
    if asked { transition.others.len() } else { 1 }
}

fn free_count(protocol: &Protocol, transition: &Transition, work: &Work, i: usize) -> usize
    requires there { i < length work.now.choices }
    requires few { length work.now.params < 12 }
    requires fit { IsTrue (list_all (update_fits (signature_of protocol.now) (length work.now.params)) transition.now.updates) }
    ensures { result ≡ (if is_any (chosen_value transition.now.updates work.now.params (choice_at work.now i)) then value_count (signature_of protocol.now) work.now.width (choice_at work.now i).term (sort_of (signature_of protocol.now) (choice_at work.now i).term) else 1) }
{
    if is_free(transition, work, i) {
        value_count(protocol, work.width, work.choices[i].term)
    } else {
        1
    }
}

// How many values there are for a term.
fn value_count(protocol: &Protocol, width: u8, term: Term) -> usize
    ensures { result ≡ value_count (signature_of protocol.now) width term (sort_of (signature_of protocol.now) term) }
{
    let declared = protocol.declared();
    match declared.sort_of(term) {
        Some(Sort::Fin(sort)) => declared.constructors_of(Sort::Fin(sort)),
        Some(Sort::Proc) => process_count(width, term),
        Some(Sort::Int) | None => 0,
    }
}

fn process_count(width: u8, term: Term) -> usize
    ensures { result ≡ value_count (signature [] [] []) width term (Some Sort.Proc) }
{
    match term {
        Term::Global(_) => usize::from(width) + 2,
        Term::Cell(_, _) => 0,
    }
}

// The process with that number that a global can take, and the width of the cube with it: its old value, the places, a new
// place.
fn process_at(width: u8, global: u16, k: usize) -> (Value, u8)
    requires { width < 255 }
    ensures { pick result.1 result.0 ≡ process_at width global k }
{
    if k == 0 {
        return (Value::Proc(PSide::Global(global)), width);
    }
    if k <= usize::from(width) {
        return (Value::Proc(PSide::Place((k - 1) as u8)), width);
    }
    (Value::Proc(PSide::Place(width)), width + 1)
}

// The value with that number for a term, and the width of the cube with it.
fn value_at(protocol: &Protocol, width: u8, term: Term, k: usize) -> (Value, u8)
    requires narrow { width < 255 }
    requires there { k < value_count (signature_of protocol.now) width term (sort_of (signature_of protocol.now) term) }
    ensures { pick result.1 result.0 ≡ value_at width term (sort_of (signature_of protocol.now) term) k }
{
    match protocol.declared().sort_of(term) {
        Some(Sort::Fin(_)) => (Value::Con(k as u8), width),
        Some(Sort::Proc) => match term {
            Term::Global(global) => process_at(width, global, k),
            Term::Cell(_, _) => (Value::Any, width),
        },
        Some(Sort::Int) | None => (Value::Any, width),
    }
}

// Takes the place of a parameter with that number, if it is free.
fn take_place(cube_width: u8, work: &mut Work, k: usize) -> bool
    requires few { length work.old.params < 12 }
    requires narrow { work.old.inner < 255 }
    ensures option { place_option cube_width work.old k ≡ (if result then work.new ∷ [] else []) }
    ensures same { result ≡ false → work.new ≡ work.old }
{
    if k >= usize::from(cube_width) {
        work.place_new();
        return true;
    }
    if is_param(work.params.as_slice(), k as u8) {
        return false;
    }
    work.place(k as u8);
    true
}

fn take_other(transition: &Transition, work: &mut Work, q: u8, k: usize) -> Result<(), AllocError>
    requires few { length work.old.params < 12 }
    requires there { IsTrue (nat_lt q work.old.inner && not (is_among work.old.params q)) → k < length transition.now.others }
    requires within { IsTrue (nat_lt q work.old.inner && not (is_among work.old.params q)) → IsTrue (list_all (is_within (length (work.old.params ++ q ∷ []))) (slice_index_or transition.now.others k [])) }
    requires small { length transition.now.others ≤ 64 }
    ensures { OnOk result (permit_option (nat_lt q work.old.inner && not (is_among work.old.params q)) transition.now work.old q k ≡ work.new ∷ []) }
{
    if is_other(work, q) {
        work.permit(transition, q, k as u8)?;
    }
    Ok(())
}

fn take_late(transition: &Transition, work: &mut Work, j: usize, k: usize) -> Result<(), AllocError>
    requires few { length work.old.params < 12 }
    requires order { work.old.inner ≤ work.old.width }
    requires narrow { work.old.width ≤ 255 }
    requires there { IsTrue (nat_lt (work.old.inner + j) work.old.width) → k < length transition.now.others }
    requires within { IsTrue (nat_lt (work.old.inner + j) work.old.width) → IsTrue (list_all (is_within (length (work.old.params ++ (work.old.inner + j) ∷ []))) (slice_index_or transition.now.others k [])) }
    requires small { length transition.now.others ≤ 64 }
    ensures { OnOk result (permit_option (nat_lt (work.old.inner + j) work.old.width) transition.now work.old (work.old.inner + j) k ≡ work.new ∷ []) }
{
    if is_late(work, j) {
        let q = late_place(work.inner, j);
        work.permit(transition, q, k as u8)?;
    }
    Ok(())
}

fn take_branch(
    protocol: &Protocol,
    transition: &Transition,
    work: &mut Work,
    i: usize,
    k: usize,
) -> Result<(), AllocError>
    requires there { i < length work.old.choices }
    requires few { length work.old.params < 12 }
    requires fit { IsTrue (list_all (update_fits (signature_of protocol.now) (length work.old.params)) transition.now.updates) }
    requires inside { k < branch_count (update_at transition.now work.old i) }
    ensures { OnOk result (branch_option (update_at transition.now work.old i) work.old i k ≡ work.new ∷ []) }
{
    if let Some(update) = update_at(transition, work, i) {
        work.take_branch(update, i, k as u8)?;
    }
    Ok(())
}

fn take_fail(
    protocol: &Protocol,
    transition: &Transition,
    work: &mut Work,
    i: usize,
    b: u8,
    k: usize,
) -> Result<(), AllocError>
    requires there { i < length work.old.choices }
    requires few { length work.old.params < 12 }
    requires fit { IsTrue (list_all (update_fits (signature_of protocol.now) (length work.old.params)) transition.now.updates) }
    requires inside { k < fail_count (update_at transition.now work.old i) (choice_at work.old i).branch b }
    ensures { OnOk result (fail_option (signature_of protocol.now) (update_at transition.now work.old i) work.old i b k ≡ work.new ∷ []) }
{
    if let Some(update) = update_at(transition, work, i) {
        if b < work.choices[i].branch {
            let cond = condition(update.branches.as_slice(), b);
            work.take_fail(protocol, i, cond, k as u8)?;
        }
    }
    Ok(())
}

fn take_value(protocol: &Protocol, transition: &Transition, work: &mut Work, i: usize, k: usize)
    requires there { i < length work.old.choices }
    requires few { length work.old.params < 12 }
    requires narrow { work.old.width < 255 }
    requires fit { IsTrue (list_all (update_fits (signature_of protocol.now) (length work.old.params)) transition.now.updates) }
    requires inside { IsTrue (is_any (chosen_value transition.now.updates work.old.params (choice_at work.old i))) → k < value_count (signature_of protocol.now) work.old.width (choice_at work.old i).term (sort_of (signature_of protocol.now) (choice_at work.old i).term) }
    ensures { value_option (signature_of protocol.now) transition.now work.old i k ≡ work.new ∷ [] }
{
    if is_free(transition, work, i) {
        let (value, width) = value_at(protocol, work.width, work.choices[i].term, k);
        work.take_pick(i, value, width);
    }
}

// How many options the step has.
fn options_of(
    protocol: &Protocol,
    transition: &Transition,
    width: u8,
    step: Step,
    work: &Work,
) -> usize
    requires { IsReady protocol.now transition.now (as_step step) work.now }
    ensures { result ≡ options (signature_of protocol.now) transition.now width (as_step step) work.now }
{
    match step {
        Step::Param => usize::from(width) + 1,
        Step::Guard => transition.guard.len(),
        Step::Other(q) => permit_count(transition, is_other(work, q)),
        Step::Branch(i) => branch_count(update_at(transition, work, i)),
        Step::Fail(i, b) => fail_count(update_at(transition, work, i), work.choices[i].branch, b),
        Step::Choose(i) => free_count(protocol, transition, work, i),
        Step::Late(j) => permit_count(transition, is_late(work, j)),
    }
}

// Takes the option with that number of a step that has one for each number.
fn take(
    protocol: &Protocol,
    transition: &Transition,
    width: u8,
    step: Step,
    work: &mut Work,
    k: usize,
) -> Result<bool, AllocError>
    requires ready { IsReady protocol.now transition.now (as_step step) work.old }
    requires inside { k < options (signature_of protocol.now) transition.now width (as_step step) work.old }
    ensures option { IfOk result (λ taken. option_at (signature_of protocol.now) transition.now width (as_step step) work.old k ≡ (if taken then work.new ∷ [] else [])) }
    ensures same { result ≡ Ok false → work.new ≡ work.old }
{
    match step {
        Step::Param => return Ok(take_place(width, work, k)),
        Step::Guard => work.take_guard(transition, k as u8)?,
        Step::Other(q) => take_other(transition, work, q, k)?,
        Step::Branch(i) => take_branch(protocol, transition, work, i, k)?,
        Step::Fail(i, b) => take_fail(protocol, transition, work, i, b, k)?,
        Step::Choose(i) => take_value(protocol, transition, work, i, k),
        Step::Late(j) => take_late(transition, work, j, k)?,
    }
    Ok(true)
}

/// How many options the step with that number has.
pub(crate) fn option_count(job: &Job, work: &Work, at: usize) -> usize
    requires there { at < length job.now.steps }
    requires stands { Stands job.now (drop at job.now.steps) work.now }
    ensures { result ≡ options (signature_of job.now.protocol) job.now.transition job.now.cube.width (step_at job.now at) work.now }
{
    options_of(
        job.protocol,
        job.transition,
        job.cube.width,
        job.steps[at],
        work,
    )
}

fn take_at(job: &Job, work: &mut Work, at: usize, k: usize) -> Result<bool, AllocError>
    requires there { at < length job.now.steps }
    requires stands { Stands job.now (drop at job.now.steps) work.old }
    requires inside { k < options (signature_of job.now.protocol) job.now.transition job.now.cube.width (step_at job.now at) work.old }
    ensures option { IfOk result (λ taken. option_at (signature_of job.now.protocol) job.now.transition job.now.cube.width (step_at job.now at) work.old k ≡ (if taken then work.new ∷ [] else [])) }
    ensures same { result ≡ Ok false → work.new ≡ work.old }
{
    take(
        job.protocol,
        job.transition,
        job.cube.width,
        job.steps[at],
        work,
        k,
    )
}

/// Takes the option with that number of a step. It may be none: then the record stays as it was.
pub(crate) fn take_option(
    job: &Job,
    work: &mut Work,
    at: usize,
    k: usize,
) -> Result<bool, AllocError>
    requires there { at < length job.now.steps }
    requires stands { Stands job.now (drop at job.now.steps) work.old }
    requires inside { k < options (signature_of job.now.protocol) job.now.transition job.now.cube.width (step_at job.now at) work.old }
    ensures option { IfOk result (λ taken. option_at (signature_of job.now.protocol) job.now.transition job.now.cube.width (step_at job.now at) work.old k ≡ (if taken then work.new ∷ [] else [])) }
    ensures same { result ≡ Ok false → work.new ≡ work.old }
    ensures stands { result ≡ Ok true → Stands job.now (drop (at + 1) job.now.steps) work.new }
    ensures back { OnOk result (cut_back (mark_of (term_number (step_at job.now at)) work.old) work.new ≡ work.old) }
{
    take_at(job, work, at, k)
}
