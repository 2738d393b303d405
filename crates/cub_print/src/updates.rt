//! Updates and transitions. An array is updated for the variable `_0`.

ghost use Rattle.std.specs.Prelude.{◌≡◌, ◌<◌, ◌-◌, ◌++◌, ◌∷◌, [], OnOk, flat_map};
ghost use Rattle.std.specs.List.{range_with_len};
ghost use Rattle.cub_print.specs.Mark.{spelled, blank, name};
ghost use Rattle.cub_print.specs.Terms.{place_name};
ghost use Rattle.cub_print.specs.Printed.{value_marks, target_marks, branch_marks, assigned_marks, update_marks, formula_marks, parameter_marks, grouped_marks, is_trivial, universal_marks, guard_marks, heading_marks, requires_marks, effect_marks, transition_marks};

use crate::literals::{put_conjunction, put_formula};
use crate::terms::{put_constructor, put_integer, put_place, put_process, put_term};
use cub_base::Text;
use cub_proto::{Branch, Lits, Protocol, Target, Term, Transition, Update, Value};
use std::alloc::AllocError;

fn put_value(
    out: &mut Text,
    protocol: &Protocol,
    params: u8,
    target: Target,
    value: Value,
) -> Result<(), AllocError>
    ensures { OnOk result (out.new ≡ out.old ++ spelled (value_marks protocol.now params target value)) }
{
    match value {
        Value::Con(constructor) => match protocol.declared().target_sort(target) {
            Some(sort) => put_constructor(out, protocol, sort, u32::from(constructor)),
            None => out.extend(&[]),
        },
        Value::Read(term) => put_term(out, protocol, params, term),
        Value::Proc(side) => put_process(out, protocol, params, side),
        Value::Sum { base, add } => put_integer(out, protocol, params, base, add),
        Value::Any => out.extend(b"?"),
    }
}

fn put_target(
    out: &mut Text,
    protocol: &Protocol,
    params: u8,
    target: Target,
) -> Result<(), AllocError>
    ensures { OnOk result (out.new ≡ out.old ++ spelled (target_marks protocol.now params target)) }
{
    match target {
        Target::Global(global) => put_term(out, protocol, params, Term::Global(global)),
        Target::Array(array) => put_term(out, protocol, params, Term::Cell(array, params)),
    }
}

fn put_branch(
    out: &mut Text,
    protocol: &Protocol,
    params: u8,
    target: Target,
    branch: &Branch,
) -> Result<(), AllocError>
    ensures { OnOk result (out.new ≡ out.old ++ spelled (branch_marks protocol.now params target branch.now)) }
{
    out.extend(b"| ")?;
    put_conjunction(out, protocol, params, branch.cond.as_slice())?;
    out.extend(b" : ")?;
    put_value(out, protocol, params, target, branch.value)?;
    out.extend(b" ")
}

fn put_branches(
    out: &mut Text,
    protocol: &Protocol,
    params: u8,
    target: Target,
    branches: &[Branch],
) -> Result<(), AllocError>
    ensures { OnOk result (out.new ≡ out.old ++ spelled (flat_map (branch_marks protocol.now params target) branches.now)) }
{
    for branch in branches {
        put_branch(out, protocol, params, target, branch)?;
    }
    Ok(())
}

fn put_assigned(
    out: &mut Text,
    protocol: &Protocol,
    params: u8,
    update: &Update,
) -> Result<(), AllocError>
    ensures { OnOk result (out.new ≡ out.old ++ spelled (assigned_marks protocol.now params update.now update.now.branches)) }
{
    if update.branches.is_empty() {
        return put_value(out, protocol, params, update.target, update.last);
    }
    out.extend(b"case ")?;
    put_branches(
        out,
        protocol,
        params,
        update.target,
        update.branches.as_slice(),
    )?;
    out.extend(b"| _ : ")?;
    put_value(out, protocol, params, update.target, update.last)
}

fn put_update(
    out: &mut Text,
    protocol: &Protocol,
    params: u8,
    update: &Update,
) -> Result<(), AllocError>
    ensures { OnOk result (out.new ≡ out.old ++ spelled (update_marks protocol.now params update.now)) }
{
    put_target(out, protocol, params, update.target)?;
    out.extend(b" := ")?;
    put_assigned(out, protocol, params, update)?;
    out.extend(b"; ")
}

fn put_updates(
    out: &mut Text,
    protocol: &Protocol,
    params: u8,
    updates: &[Update],
) -> Result<(), AllocError>
    ensures { OnOk result (out.new ≡ out.old ++ spelled (flat_map (update_marks protocol.now params) updates.now)) }
{
    for update in updates {
        put_update(out, protocol, params, update)?;
    }
    Ok(())
}

fn is_trivial(conjs: &[Lits]) -> bool
    ensures { result ≡ is_trivial conjs.now }
{
    match conjs {
        [only] => only.is_empty(),
        _ => false,
    }
}

fn put_group(
    out: &mut Text,
    protocol: &Protocol,
    params: u8,
    conjs: &[Lits],
) -> Result<(), AllocError>
    ensures { OnOk result (out.new ≡ out.old ++ spelled (grouped_marks (formula_marks protocol.now params conjs.now))) }
{
    out.extend(b"(")?;
    put_formula(out, protocol, params, conjs)?;
    out.extend(b")")
}

#[tactic(auto, unfolding(crate::specs::Printed::universal_marks))]
fn put_universal(
    out: &mut Text,
    protocol: &Protocol,
    transition: &Transition,
) -> Result<(), AllocError>
    ensures { OnOk result (out.new ≡ out.old ++ spelled (universal_marks protocol.now transition.now)) }
{
    out.extend(b"forall_other _0. ")?;
    put_group(
        out,
        protocol,
        transition.params,
        transition.others.as_slice(),
    )
}

fn put_guard(out: &mut Text, protocol: &Protocol, transition: &Transition) -> Result<(), AllocError>
    ensures { OnOk result (out.new ≡ out.old ++ spelled (guard_marks protocol.now transition.now)) }
{
    let params = transition.params;
    if is_trivial(transition.others.as_slice()) {
        return put_formula(out, protocol, params, transition.guard.as_slice());
    }
    put_group(out, protocol, params, transition.guard.as_slice())?;
    out.extend(b" && ")?;
    put_universal(out, protocol, transition)
}

fn put_next_parameter(out: &mut Text, params: u8, place: u8) -> Result<(), AllocError>
    ensures { OnOk result (out.new ≡ out.old ++ spelled (blank ∷ name (place_name params place) ∷ [])) }
{
    out.extend(b" ")?;
    put_place(out, params, place)
}

fn put_further_parameters(out: &mut Text, params: u8) -> Result<(), AllocError>
    requires { 0 < params }
    ensures { OnOk result (out.new ≡ out.old ++ spelled (flat_map (λ place. blank ∷ name (place_name params place) ∷ []) (range_with_len 1 (params - 1)))) }
{
    for place in 1..params {
        put_next_parameter(out, params, place)?;
    }
    Ok(())
}

/// `(_1 _2)`: so many parameters.
pub fn put_parameters(out: &mut Text, params: u8) -> Result<(), AllocError>
    ensures { OnOk result (out.new ≡ out.old ++ spelled (parameter_marks params)) }
{
    if params == 0 {
        return out.extend(b"()");
    }
    out.extend(b"(")?;
    put_place(out, params, 0)?;
    put_further_parameters(out, params)?;
    out.extend(b")")
}

#[tactic(auto, unfolding(crate::specs::Printed::heading_marks))]
fn put_heading(out: &mut Text, transition: &Transition) -> Result<(), AllocError>
    ensures { OnOk result (out.new ≡ out.old ++ spelled (heading_marks transition.now)) }
{
    out.extend(b"transition ")?;
    out.extend(transition.name.as_slice())?;
    out.extend(b" ")?;
    put_parameters(out, transition.params)?;
    out.extend(b" ")
}

#[tactic(auto, unfolding(crate::specs::Printed::requires_marks))]
fn put_requires(
    out: &mut Text,
    protocol: &Protocol,
    transition: &Transition,
) -> Result<(), AllocError>
    ensures { OnOk result (out.new ≡ out.old ++ spelled (requires_marks protocol.now transition.now)) }
{
    out.extend(b"requires { ")?;
    put_guard(out, protocol, transition)?;
    out.extend(b" } ")
}

#[tactic(auto, unfolding(crate::specs::Printed::effect_marks))]
fn put_effect(
    out: &mut Text,
    protocol: &Protocol,
    transition: &Transition,
) -> Result<(), AllocError>
    ensures { OnOk result (out.new ≡ out.old ++ spelled (effect_marks protocol.now transition.now)) }
{
    out.extend(b"{ ")?;
    put_updates(
        out,
        protocol,
        transition.params,
        transition.updates.as_slice(),
    )?;
    out.extend(b"}\n")
}

/// A transition and the end of its line.
pub fn put_transition(
    out: &mut Text,
    protocol: &Protocol,
    transition: &Transition,
) -> Result<(), AllocError>
    ensures { OnOk result (out.new ≡ out.old ++ spelled (transition_marks protocol.now transition.now)) }
{
    put_heading(out, transition)?;
    put_requires(out, protocol, transition)?;
    put_effect(out, protocol, transition)
}
