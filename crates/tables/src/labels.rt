//! Labels of pieces, as they are written.

use crate::answers::{push_count, push_places};
use cub_proto::{PSide, Protocol, Slot, Term, Val, Value};
use piece_choices::Label;
use std::alloc::AllocError;
use text_lines::{push, push_process, push_slot, push_value, slot_sort};
use updates::Choice;

fn slot_of(term: Term) -> Slot {
    match term {
        Term::Global(global) => Slot::Global(global),
        Term::Cell(array, place) => Slot::Cell(array, u32::from(place)),
    }
}

// Appends numbers, as `(0 2)`.
fn push_numbers(out: &mut Vec<u8>, numbers: &[u8]) -> Result<(), AllocError> {
    push(out, b"(")?;
    for (at, number) in numbers.iter().enumerate() {
        if at > 0 {
            push(out, b" ")?;
        }
        push_count(out, u64::from(*number))?;
    }
    push(out, b")")
}

fn push_pick(
    out: &mut Vec<u8>,
    protocol: &Protocol,
    term: Term,
    pick: Value,
) -> Result<(), AllocError> {
    match pick {
        Value::Con(constructor) => {
            let sort = slot_sort(protocol, slot_of(term));
            push_value(out, protocol, sort, Val::Con(constructor))
        }
        Value::Proc(PSide::Place(place)) => push_process(out, u32::from(place)),
        Value::Proc(PSide::Global(global)) => push_slot(out, protocol, Slot::Global(global)),
        _ => push(out, b"no pick"),
    }
}

fn push_choice(out: &mut Vec<u8>, protocol: &Protocol, choice: &Choice) -> Result<(), AllocError> {
    push(out, b", ")?;
    push_slot(out, protocol, slot_of(choice.term))?;
    push(out, b" by ")?;
    push_count(out, u64::from(choice.branch))?;
    push(out, b" ")?;
    push_numbers(out, choice.fails.as_slice())?;
    match choice.pick {
        Some(pick) => {
            push(out, b" picks ")?;
            push_pick(out, protocol, choice.term, pick)
        }
        None => Ok(()),
    }
}

// Appends the name of the transition, or its number where there is none.
fn push_name(out: &mut Vec<u8>, protocol: &Protocol, number: u16) -> Result<(), AllocError> {
    match protocol.transitions.get(number as usize) {
        Some(transition) => push(out, transition.name.as_slice()),
        None => push_count(out, u64::from(number)),
    }
}

/// Appends the label: the transition with its parameters, the number of the guard's conjunction, those of the universal
/// guard's, and for each term the branch, the failing literals and the pick.
pub fn push_label(out: &mut Vec<u8>, protocol: &Protocol, label: &Label) -> Result<(), AllocError> {
    push_name(out, protocol, label.transition)?;
    push_places(out, label.params.as_slice())?;
    push(out, b" guard ")?;
    push_count(out, u64::from(label.guard))?;
    push(out, b" others ")?;
    push_numbers(out, label.others.as_slice())?;
    for choice in label.choices.as_slice() {
        push_choice(out, protocol, choice)?;
    }
    Ok(())
}
