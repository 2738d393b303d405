//! Lines of the replay of a trace.

ghost use Rattle.std.specs.Prelude.{◌≡◌, ◌++◌, not, count_by, IfOk, OnOk};
ghost use Rattle.trace_judge.specs.Plain.{is_step};
ghost use Rattle.answer_lines.specs.Lines.{process_words, name_at, slot_words, fault_words, refusal_words, refusal_line, replays_line};

use crate::answer::{Answer, begun, put, put_number};
use cub_base::{Memory, Text};
use cub_proto::{Decl, Event, Protocol, Slot};
use replay::StepFault;
use std::alloc::Global;
use trace_judge::Refusal;

fn put_process(text: &mut Text, process: u32) -> Result<(), Memory>
    ensures { OnOk result (text.new ≡ text.old ++ process_words process) }
{
    put(text, b"#")?;
    put_number(text, u64::from(process) + 1)
}

fn put_name(text: &mut Text, decls: &[Decl], number: u16) -> Result<(), Memory>
    ensures { OnOk result (text.new ≡ text.old ++ name_at decls.now number) }
{
    match decls.get(number as usize) {
        Some(decl) => put(text, decl.name.as_slice()),
        None => Ok(()),
    }
}

fn put_slot(text: &mut Text, protocol: &Protocol, slot: Slot) -> Result<(), Memory>
    ensures { OnOk result (text.new ≡ text.old ++ slot_words protocol.now slot) }
{
    match slot {
        Slot::Global(global) => put_name(text, protocol.globals.as_slice(), global),
        Slot::Cell(array, process) => {
            put_name(text, protocol.arrays.as_slice(), array)?;
            put(text, b"[")?;
            put_process(text, process)?;
            put(text, b"]")
        }
    }
}

fn put_fault(text: &mut Text, protocol: &Protocol, fault: StepFault) -> Result<(), Memory>
    ensures { OnOk result (text.new ≡ text.old ++ fault_words protocol.now fault) }
{
    match fault {
        StepFault::Dead { process } => {
            put(text, b"dead ")?;
            put_process(text, process)
        }
        StepFault::Equal { process } => {
            put(text, b"equal ")?;
            put_process(text, process)
        }
        StepFault::Guard => put(text, b"guard"),
        StepFault::Other { process } => {
            put(text, b"other ")?;
            put_process(text, process)
        }
        StepFault::Pick { slot } => {
            put(text, b"pick ")?;
            put_slot(text, protocol, slot)
        }
    }
}

fn put_refusal(text: &mut Text, protocol: &Protocol, refusal: Refusal) -> Result<(), Memory>
    ensures { OnOk result (text.new ≡ text.old ++ refusal_words protocol.now refusal) }
{
    match refusal {
        Refusal::NoStart { process } => {
            put(text, b"start ")?;
            put_process(text, process)
        }
        Refusal::NoStep { refused } => {
            put(text, b"event ")?;
            put_number(text, u64::from(refused.number) + 1)?;
            put(text, b": ")?;
            put_fault(text, protocol, refused.fault)
        }
        Refusal::NoGoal => put(text, b"unsafe"),
        Refusal::NoHeading => put(text, b"heading"),
        Refusal::NoPlain => put(text, b"plain"),
        Refusal::Memory => Ok(()),
    }
}

/// Status 9, where the trace is refused.
pub fn at_refusal(alloc: Global, protocol: &Protocol, refusal: Refusal) -> Result<Answer, Memory>
    ensures { IfOk result (λ answer. (answer.status ≡ 9) × (answer.text ≡ refusal_line protocol.now refusal)) }
{
    let mut text = begun(alloc, b"REFUSED ")?;
    put_refusal(&mut text, protocol, refusal)?;
    put(&mut text, b"\n")?;
    Ok(Answer { status: 9, text })
}

fn is_step(event: &Event) -> bool
    ensures { result ≡ is_step event.now }
{
    match event {
        Event::Crash { .. } => false,
        Event::Fire { .. } => true,
    }
}

fn steps(events: &[Event]) -> usize
    ensures { result ≡ count_by is_step events.now }
{
    events.iter().filter(|event| is_step(event)).count()
}

fn crashes(events: &[Event]) -> usize
    ensures { result ≡ count_by (λ e. not (is_step e)) events.now }
{
    events.iter().filter(|event| !is_step(event)).count()
}

/// Status 0, where the trace is accepted.
pub fn at_accepted(alloc: Global, events: &[Event]) -> Result<Answer, Memory>
    ensures { IfOk result (λ answer. (answer.status ≡ 0) × (answer.text ≡ replays_line events.now)) }
{
    let mut text = begun(alloc, b"REPLAYS steps ")?;
    put_number(&mut text, steps(events) as u64)?;
    put(&mut text, b" crashes ")?;
    put_number(&mut text, crashes(events) as u64)?;
    put(&mut text, b"\n")?;
    Ok(Answer { status: 0, text })
}
