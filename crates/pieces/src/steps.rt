//! The list of steps for a transition and a cube, made anew in one vector for each transition.

ghost use Rattle.std.specs.Prelude.{◌≡◌, ◌≤◌, ◌+◌, ◌++◌, ◌∷◌, [], map, replicate, length, nat_le, IsTrue, OnOk};
ghost use Rattle.std.specs.List.{flat_map, range_with_len, list_all};
ghost use Rattle.std.specs.Option.{option_map_or};
ghost use Rattle.cub_base.specs.Numbered.{map_from};
ghost use Rattle.cub_proto.specs.Effect.{update_of};
ghost use Rattle.cub_cube.specs.Step.{target_of};
ghost use Rattle.piece_steps.specs.Steps.{Param, Guard, Other, Branch, Fail, Choose, Late, way_steps, steps_of};
ghost use Rattle.pieces.specs.Jobs.{as_step};

use crate::step::Step;
use cub_proto::{Target, Term, Transition, Update};
use std::alloc::AllocError;
use updates::update_of;

fn push_params(steps: &mut Vec<Step>, count: u8) -> Result<(), AllocError>
    ensures { OnOk result (map as_step steps.new.items ≡ map as_step steps.old.items ++ replicate count Param) }
{
    for _parameter in 0..count {
        steps.push(Step::Param)?;
    }
    Ok(())
}

fn push_others(steps: &mut Vec<Step>, count: u8) -> Result<(), AllocError>
    ensures { OnOk result (map as_step steps.new.items ≡ map as_step steps.old.items ++ map (λ q. Other q) (range_with_len 0 count)) }
{
    for q in 0..count {
        steps.push(Step::Other(q))?;
    }
    Ok(())
}

fn push_fails(steps: &mut Vec<Step>, i: usize, count: usize) -> Result<(), AllocError>
    requires { count ≤ 64 }
    ensures { OnOk result (map as_step steps.new.items ≡ map as_step steps.old.items ++ map (Fail i) (range_with_len 0 count)) }
{
    for b in 0..count {
        steps.push(Step::Fail(i, b as u8))?;
    }
    Ok(())
}

fn target_of(term: Term) -> Target
    ensures { result ≡ target_of term }
{
    match term {
        Term::Global(global) => Target::Global(global),
        Term::Cell(array, _) => Target::Array(array),
    }
}

// How many branches the update of the term has.
fn branches_of(transition: &Transition, term: Term) -> usize
    requires { IsTrue (list_all (λ u. nat_le (length u.branches) 64) transition.now.updates) }
    ensures value { result ≡ option_map_or (λ u. length u.branches) (update_of transition.now.updates (target_of term)) 0 }
    ensures few { result ≤ 64 }
{
    match update_of(transition.updates.as_slice(), target_of(term)) {
        Some(update) => update.branches.len(),
        None => 0,
    }
}

fn push_way(
    steps: &mut Vec<Step>,
    transition: &Transition,
    i: usize,
    term: Term,
) -> Result<(), AllocError>
    requires { IsTrue (list_all (λ u. nat_le (length u.branches) 64) transition.now.updates) }
    ensures { OnOk result (map as_step steps.new.items ≡ map as_step steps.old.items ++ way_steps transition.now i term) }
{
    let count = branches_of(transition, term);
    steps.push(Step::Branch(i))?;
    push_fails(steps, i, count)
}

fn push_ways(
    steps: &mut Vec<Step>,
    transition: &Transition,
    terms: &[Term],
) -> Result<(), AllocError>
    requires { IsTrue (list_all (λ u. nat_le (length u.branches) 64) transition.now.updates) }
    ensures { OnOk result (map as_step steps.new.items ≡ map as_step steps.old.items ++ flat_map (λ xs. xs) (map_from (way_steps transition.now) 0 terms.now)) }
{
    for i in 0..terms.len() {
        push_way(steps, transition, i, terms[i])?;
    }
    Ok(())
}

fn push_chooses(steps: &mut Vec<Step>, count: usize) -> Result<(), AllocError>
    ensures { OnOk result (map as_step steps.new.items ≡ map as_step steps.old.items ++ map (λ i. Choose i) (range_with_len 0 count)) }
{
    for i in 0..count {
        steps.push(Step::Choose(i))?;
    }
    Ok(())
}

fn push_lates(steps: &mut Vec<Step>, count: usize) -> Result<(), AllocError>
    ensures { OnOk result (map as_step steps.new.items ≡ map as_step steps.old.items ++ map (λ j. Late j) (range_with_len 0 count)) }
{
    for j in 0..count {
        steps.push(Step::Late(j))?;
    }
    Ok(())
}

/// Puts the steps for the transition and a cube of that width with these terms in place of what the vector had.
pub(crate) fn fill_steps(
    steps: &mut Vec<Step>,
    transition: &Transition,
    width: u8,
    terms: &[Term],
) -> Result<(), AllocError>
    requires few { width + transition.now.params ≤ 255 }
    requires short { IsTrue (list_all (λ u. nat_le (length u.branches) 64) transition.now.updates) }
    ensures { OnOk result (map as_step steps.new.items ≡ steps_of transition.now width terms.now) }
{
    steps.clear();
    push_params(steps, transition.params)?;
    steps.push(Step::Guard)?;
    push_others(steps, width + transition.params)?;
    push_ways(steps, transition, terms)?;
    push_chooses(steps, terms.len())?;
    push_lates(steps, terms.len())
}
