//! One literal, back through a step.

ghost use Rattle.std.specs.Prelude.{◌≡◌, ◌++◌, ◌<◌, [], ◌∷◌, length, map, All, IsTrue, IfOk, OnOk};
ghost use Rattle.std.specs.List.{list_all, list_any};
ghost use Rattle.cub_proto.specs.StateOf.{signature_of};
ghost use Rattle.cub_proto.specs.Fits.{literal_fits, is_bounded, update_fits};
ghost use Rattle.cub_cube.specs.Mentions.{terms_of, process_side_terms, integer_side_terms};
ghost use Rattle.updates.specs.Chosen.{same_term, taken_value};
ghost use Rattle.updates.specs.Allowed.{choice_fits, every_place};
ghost use Rattle.updates.specs.Sides.{most_bound};
ghost use Rattle.updates.specs.Through.{is_false_alone, mentions, branch_lits, literal_before, saying, through_answer, has_choice, updates_of, params_of};

use crate::answer::Through;
use crate::choice::{Choice, Choices};
use crate::chosen::{push_choice, taken_value};
use crate::values::replaced;
use cub_base::{Items, Memory, Places};
use cub_cube::is_true_alone;
use cub_proto::{ISide, Lit, Lits, PSide, Protocol, Term, Update, Value};
use std::alloc::{AllocError, Global};
use std::cmp::Ordering;

fn is_same(a: Term, b: Term) -> bool
    ensures { result ≡ same_term a b }
{
    cub_proto::compare_terms(a, b) == Ordering::Equal
}

fn process_side_mentions(side: PSide, term: Term) -> bool
    ensures { result ≡ list_any (λ u. same_term u term) (process_side_terms side) }
{
    match side {
        PSide::Global(global) => is_same(Term::Global(global), term),
        PSide::Place(_) => false,
    }
}

fn integer_side_mentions(side: ISide, term: Term) -> bool
    ensures { result ≡ list_any (λ u. same_term u term) (integer_side_terms side) }
{
    match side {
        ISide::Zero => false,
        ISide::At(other) => is_same(other, term),
    }
}

/// Whether the literal speaks of the term.
pub fn mentions(lit: &Lit, term: Term) -> bool
    ensures { result ≡ mentions lit.now term }
{
    match *lit {
        Lit::FinIn { term: own, .. } => is_same(own, term),
        Lit::FinEq { a, b } | Lit::FinNe { a, b } => is_same(a, term) || is_same(b, term),
        Lit::ProcEq { a, b } | Lit::ProcNe { a, b } => {
            process_side_mentions(a, term) || process_side_mentions(b, term)
        }
        Lit::Diff { a, b, .. } => integer_side_mentions(a, term) || integer_side_mentions(b, term),
    }
}

/// Whether the literal is false by itself: its negation is true by itself.
pub fn is_false_alone(protocol: &Protocol, width: u16, lit: &Lit) -> bool
    requires { IsTrue (literal_fits (signature_of protocol.now) width lit.now) }
    ensures { result ≡ is_false_alone (signature_of protocol.now) lit.now }
{
    is_true_alone(protocol, &cub_proto::negated(protocol, width, lit))
}

fn terms_of(alloc: Global, choices: &[Choice]) -> Result<Vec<Term>, AllocError>
    ensures { IfOk result (λ terms. terms.items ≡ map (λ c. c.term) choices.now) }
{
    let mut terms = Vec::with_capacity(alloc, choices.len())?;
    for choice in choices {
        terms.push(choice.term)?;
    }
    Ok(terms)
}

fn values_of(
    alloc: Global,
    protocol: &Protocol,
    updates: &[Update],
    params: &[u8],
    choices: &[Choice],
) -> Result<Vec<Value>, AllocError>
    requires few { length params.now < 12 }
    requires fit { IsTrue (list_all (update_fits (signature_of protocol.now) (length params.now)) updates.now) }
    ensures { IfOk result (λ values. values.items ≡ map (taken_value updates.now params.now) choices.now) }
{
    let mut values = Vec::with_capacity(alloc, choices.len())?;
    for choice in choices {
        values.push(taken_value(alloc, protocol, updates, params, choice))?;
    }
    Ok(values)
}

fn push_mentioned(
    protocol: &Protocol,
    lits: &mut Lits,
    updates: &[Update],
    params: &[u8],
    choice: &Choice,
    lit: &Lit,
) -> Result<(), AllocError>
    requires few { length params.now < 12 }
    requires fit { IsTrue (list_all (update_fits (signature_of protocol.now) (length params.now)) updates.now) }
    requires allowed { IsTrue (choice_fits (signature_of protocol.now) every_place updates.now params.now choice.now) }
    ensures { OnOk result (lits.new ≡ lits.old ++ branch_lits (signature_of protocol.now) updates.now params.now (choice.now ∷ []) lit.now) }
{
    if mentions(lit, choice.term) {
        push_choice(protocol, lits, updates, params, choice)?;
    }
    Ok(())
}

fn push_branches(
    protocol: &Protocol,
    lits: &mut Lits,
    updates: &[Update],
    params: &[u8],
    choices: &[Choice],
    lit: &Lit,
) -> Result<(), AllocError>
    requires few { length params.now < 12 }
    requires fit { IsTrue (list_all (update_fits (signature_of protocol.now) (length params.now)) updates.now) }
    requires allowed { IsTrue (list_all (choice_fits (signature_of protocol.now) every_place updates.now params.now) choices.now) }
    ensures { OnOk result (lits.new ≡ lits.old ++ branch_lits (signature_of protocol.now) updates.now params.now choices.now lit.now) }
{
    for choice in choices {
        push_mentioned(protocol, lits, updates, params, choice, lit)?;
    }
    Ok(())
}

fn push_saying(protocol: &Protocol, lits: &mut Lits, lit: &Lit) -> Result<(), AllocError>
    ensures { OnOk result (lits.new ≡ lits.old ++ saying (signature_of protocol.now) lit.now) }
{
    if !is_true_alone(protocol, lit) {
        lits.push(*lit)?;
    }
    Ok(())
}

fn literal_before(
    alloc: Global,
    protocol: &Protocol,
    updates: &[Update],
    params: &[u8],
    choices: &[Choice],
    lit: &Lit,
) -> Result<Lit, AllocError>
    requires few { length params.now < 12 }
    requires fit { IsTrue (list_all (update_fits (signature_of protocol.now) (length params.now)) updates.now) }
    requires inside { All (λ q. q < every_place) params.now }
    requires fits { IsTrue (literal_fits (signature_of protocol.now) every_place lit.now) }
    requires bounded { IsTrue (is_bounded most_bound lit.now) }
    requires allowed { IsTrue (list_all (choice_fits (signature_of protocol.now) every_place updates.now params.now) choices.now) }
    requires has { IsTrue (list_all (has_choice choices.now) (terms_of lit.now)) }
    ensures value { IfOk result (λ before. before ≡ literal_before (signature_of protocol.now) updates.now params.now choices.now lit.now) }
    ensures fits { IfOk result (λ before. IsTrue (literal_fits (signature_of protocol.now) every_place before)) }
{
    let terms = terms_of(alloc, choices)?;
    let values = values_of(alloc, protocol, updates, params, choices)?;
    Ok(replaced(protocol, 256, terms.as_slice(), values.as_slice(), lit))
}

fn through_updates(
    alloc: Global,
    protocol: &Protocol,
    updates: &[Update],
    params: &[u8],
    choices: &[Choice],
    lit: &Lit,
) -> Result<Through, AllocError>
    requires few { length params.now < 12 }
    requires fit { IsTrue (list_all (update_fits (signature_of protocol.now) (length params.now)) updates.now) }
    requires inside { All (λ q. q < every_place) params.now }
    requires fits { IsTrue (literal_fits (signature_of protocol.now) every_place lit.now) }
    requires bounded { IsTrue (is_bounded most_bound lit.now) }
    requires allowed { IsTrue (list_all (choice_fits (signature_of protocol.now) every_place updates.now params.now) choices.now) }
    requires has { IsTrue (list_all (has_choice choices.now) (terms_of lit.now)) }
    ensures { IfOk result (λ answer. answer ≡ through_answer (signature_of protocol.now) updates.now params.now choices.now lit.now) }
{
    let before = literal_before(alloc, protocol, updates, params, choices, lit)?;
    if is_false_alone(protocol, 256, &before) {
        return Ok(Through::Never);
    }
    let mut lits = Items::new(alloc);
    push_branches(protocol, &mut lits, updates, params, choices, lit)?;
    push_saying(protocol, &mut lits, &before)?;
    Ok(Through::Lits(lits))
}

fn updates_at(protocol: &Protocol, transition: u16) -> &[Update]
    requires { transition < length protocol.now.transitions }
    ensures value { result.now ≡ updates_of protocol.now transition }
    ensures fit { IsTrue (list_all (update_fits (signature_of protocol.now) (params_of protocol.now transition)) (updates_of protocol.now transition)) }
    ensures few { params_of protocol.now transition < 12 }
{
    protocol.transitions.as_slice()[transition as usize]
        .updates
        .as_slice()
}

/// The literals of the chosen ways for the terms of the literal, and the literal as it is before the step; `Never` where
/// that is false by itself. A literal that is true by itself before the step is left out. `places` has one place for each
/// parameter, and each term of the literal has a choice.
pub fn through(
    protocol: &Protocol,
    transition: u16,
    choices: &Choices,
    lit: &Lit,
    places: &Places,
) -> Result<Through, Memory>
    requires there { transition < length protocol.now.transitions }
    requires one_each { length places.now ≡ params_of protocol.now transition }
    requires inside { All (λ q. q < every_place) places.now }
    requires fits { IsTrue (literal_fits (signature_of protocol.now) every_place lit.now) }
    requires bounded { IsTrue (is_bounded most_bound lit.now) }
    requires allowed { IsTrue (list_all (choice_fits (signature_of protocol.now) every_place (updates_of protocol.now transition) places.now) choices.now) }
    requires has { IsTrue (list_all (has_choice choices.now) (terms_of lit.now)) }
    ensures { IfOk result (λ answer. answer ≡ through_answer (signature_of protocol.now) (updates_of protocol.now transition) places.now choices.now lit.now) }
{
    let updates = updates_at(protocol, transition);
    let params = places.as_slice();
    let choices = choices.as_slice();
    let answer = through_updates(places.allocator(), protocol, updates, params, choices, lit)?;
    Ok(answer)
}
