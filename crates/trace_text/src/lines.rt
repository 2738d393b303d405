//! The lines of a trace, one by one. Each is read loosely from its words; then what it tells is tested and written again,
//! and the line stands where both are equal. So whatever is accepted is written as it should be, and the only thing to
//! prove of the loose reading is that it finds what was written.

ghost use Rattle.std.specs.Prelude.{◌≡◌, ℕ, ◌<◌, ◌≤◌, Bool, IfOk, IfSome, IfNone, bytes_eq, length, nat_lt, nat_le, IsTrue, not, count_by, List, ◌+◌, ◌↔◌, slice_get};
ghost use Rattle.std.specs.List.{list_all};
ghost use Rattle.cub_proto.specs.declared.event.Event.{Event};
ghost use Rattle.cub_proto.specs.declared.event.Plain.{Plain};
ghost use Rattle.cub_proto.specs.declared.state.Val.{Val};
ghost use Rattle.replay.specs.Bound.{size_of, greatest_start};
ghost use Rattle.text_lines.specs.Spelling.{entry_text};
ghost use Rattle.trace_text.specs.Text.{has_any, heading_text, count_text, event_text, goal_text, plain_text};
ghost use Rattle.trace_text.specs.Lawful.{is_empty, picks_are_lawful, is_lawful_event, has_places, is_lawful_goal, steps_in, is_lawful_plain};
ghost use Rattle.trace_text.specs.Place.{TakesValue, TakesCount, TakesEvent, TakesGoal, TakesPlain, begins, begins_event};

use crate::told::{event_told, goal_places, goal_told, plain_told};
use crate::writer::{heading_text, push_count, push_event, push_goal, push_plain};
use cub_proto::{Chosen, Event, Plain, Processes, Protocol, Slot, Val};
use replay::{fits_event, is_start_value};
use std::alloc::{AllocError, Global};
use text_lines::{counted, entry_value, is_word, next_word, push_entry};

const GREATEST_START: u64 = 1_152_921_504_606_846_976;

const MOST_PROCESSES: u32 = 128;

/// Whether the word stands at the front.
pub fn begins(front: &[u8], text: &[u8]) -> bool
    ensures { result ≡ begins front.now text.now }
{
    let (first, _) = text.split_at(front.len().min(text.len()));
    first == front
}

/// Whether the text reads as an event.
pub fn begins_event(text: &[u8]) -> bool
    ensures { result ≡ begins_event text.now }
{
    begins(b"step ", text) || begins(b"crash ", text)
}

/// Whether the line is a heading, and then whether it is the one with crashes.
pub fn heading_of(line: &[u8]) -> Option<bool>
    ensures found { IfSome result (λ crashes. line.now ≡ heading_text crashes) }
    ensures none { IfNone result ((crashes : Bool) → line.now ≡ heading_text crashes → ⊥) }
{
    if is_word(line, heading_text(false)) {
        return Some(false);
    }
    if is_word(line, heading_text(true)) {
        return Some(true);
    }
    None
}

fn count_is_written(alloc: Global, less: u32, line: &[u8]) -> Result<bool, AllocError>
    ensures { IfOk result (λ same. same ≡ bytes_eq (count_text (less + 1)) line.now) }
{
    let mut written = Vec::new(alloc);
    push_count(&mut written, less)?;
    Ok(is_word(written.as_slice(), line))
}

/// The number of processes.
pub fn count_of(alloc: Global, line: &[u8]) -> Result<Option<u32>, AllocError>
    ensures found { IfOk result (λ o. IfSome o (λ n. TakesCount line.now n)) }
    ensures none { IfOk result (λ o. IfNone o ((n : ℕ) → TakesCount line.now n → ⊥)) }
{
    let (_, rest) = next_word(line);
    let (word, _) = next_word(rest);
    let less = counted(word);
    if less >= MOST_PROCESSES {
        return Ok(None);
    }
    if !count_is_written(alloc, less, line)? {
        return Ok(None);
    }
    Ok(Some(less + 1))
}

fn entry_is_written(
    alloc: Global,
    protocol: &Protocol,
    slot: Slot,
    val: Val,
    line: &[u8],
) -> Result<bool, AllocError>
    ensures { IfOk result (λ same. same ≡ bytes_eq (entry_text protocol.now slot val) line.now) }
{
    let mut written = Vec::new(alloc);
    push_entry(&mut written, protocol, slot, val)?;
    Ok(is_word(written.as_slice(), line))
}

/// The value that the line gives to the slot, where there are so many processes.
pub fn value_of(
    alloc: Global,
    protocol: &Protocol,
    processes: u32,
    slot: Slot,
    line: &[u8],
) -> Result<Option<Val>, AllocError>
    requires { processes ≤ 128 }
    ensures found { IfOk result (λ o. IfSome o (λ v. TakesValue protocol.now processes slot line.now v)) }
    ensures none { IfOk result (λ o. IfNone o ((v : Val) → TakesValue protocol.now processes slot line.now v → ⊥)) }
{
    let val = entry_value(protocol, slot, line);
    if !is_start_value(protocol, processes, slot, val) {
        return Ok(None);
    }
    if !entry_is_written(alloc, protocol, slot, val, line)? {
        return Ok(None);
    }
    Ok(Some(val))
}

fn is_small(val: Val) -> bool
    ensures { result ≡ nat_le (size_of val) greatest_start }
{
    match val {
        Val::Int(integer) => integer.unsigned_abs() <= GREATEST_START,
        Val::Con(_) | Val::Proc(_) => true,
    }
}

fn are_small(picks: &[Chosen]) -> bool
    ensures { result ≡ list_all (λ c. nat_le (size_of c.val) greatest_start) picks.now }
{
    picks.iter().all(|pick| is_small(pick.val))
}

fn is_empty(picks: &[Chosen]) -> bool
    ensures { result ≡ is_empty picks.now }
{
    match picks {
        [] => true,
        [_, ..] => false,
    }
}

fn picks_are_lawful(any: bool, event: &Event) -> bool
    ensures { result ≡ picks_are_lawful any event.now }
{
    match event {
        Event::Crash { process: _ } => true,
        Event::Fire {
            transition: _,
            params: _,
            picks,
        } => {
            let picks = picks.as_slice();
            (is_empty(picks) || any) && are_small(picks)
        }
    }
}

/// Whether the event speaks of what the protocol and its processes have, with picks only where some update can give any
/// value, which is told.
pub fn is_lawful_event(protocol: &Protocol, any: bool, processes: u32, event: &Event) -> bool
    requires { any ≡ has_any protocol.now }
    ensures { IsTrue result ↔ IsTrue (is_lawful_event protocol.now processes event.now) }
{
    fits_event(protocol, processes, event) && picks_are_lawful(any, event)
}

fn event_is_written(
    alloc: Global,
    protocol: &Protocol,
    event: &Event,
    line: &[u8],
) -> Result<bool, AllocError>
    ensures { IfOk result (λ same. same ≡ bytes_eq (event_text protocol.now event.now) line.now) }
{
    let mut written = Vec::new(alloc);
    push_event(&mut written, protocol, event)?;
    Ok(is_word(written.as_slice(), line))
}

/// The event of the line, where there are so many processes, and it is told whether some update can give any value.
pub fn event_of(
    alloc: Global,
    protocol: &Protocol,
    any: bool,
    processes: u32,
    line: &[u8],
) -> Result<Option<Event>, AllocError>
    requires few { processes ≤ 128 }
    requires any { any ≡ has_any protocol.now }
    ensures found { IfOk result (λ o. IfSome o (λ e. TakesEvent protocol.now processes line.now e)) }
    ensures none { IfOk result (λ o. IfNone o ((e : Event) → TakesEvent protocol.now processes line.now e → ⊥)) }
{
    let Some(event) = event_told(alloc, protocol, line)? else {
        return Ok(None);
    };
    if !is_lawful_event(protocol, any, processes, &event) {
        return Ok(None);
    }
    if !event_is_written(alloc, protocol, &event, line)? {
        return Ok(None);
    }
    Ok(Some(event))
}

fn are_processes(processes: u32, places: &[u32]) -> bool
    ensures { result ≡ list_all (λ i. nat_lt i processes) places.now }
{
    places.iter().all(|place| *place < processes)
}

fn has_places(protocol: &Protocol, goal: u32, places: &[u32]) -> bool
    ensures { result ≡ has_places (slice_get protocol.now.goals goal) places.now }
{
    match protocol.goals.get(goal as usize) {
        None => false,
        Some(goal) => places.len() == goal.width as usize,
    }
}

fn is_lawful_goal(protocol: &Protocol, processes: u32, goal: u32, places: &[u32]) -> bool
    ensures { result ≡ is_lawful_goal protocol.now processes goal places.now }
{
    has_places(protocol, goal, places) && are_processes(processes, places)
}

fn goal_is_written(
    alloc: Global,
    goal: u32,
    places: &[u32],
    line: &[u8],
) -> Result<bool, AllocError>
    ensures { IfOk result (λ same. same ≡ bytes_eq (goal_text goal places.now) line.now) }
{
    let mut written = Vec::new(alloc);
    push_goal(&mut written, goal, places)?;
    Ok(is_word(written.as_slice(), line))
}

/// The unsafe conjunction and the processes of the line, where there are so many processes.
pub fn goal_of(
    alloc: Global,
    protocol: &Protocol,
    processes: u32,
    line: &[u8],
) -> Result<Option<(u32, Processes)>, AllocError>
    requires { processes ≤ 128 }
    ensures found { IfOk result (λ o. IfSome o (λ x. TakesGoal protocol.now processes line.now x.0 x.1)) }
    ensures none { IfOk result (λ o. IfNone o ((goal : ℕ) (places : List ℕ) → TakesGoal protocol.now processes line.now goal places → ⊥)) }
{
    let goal = goal_told(line);
    let places = goal_places(alloc, protocol, line)?;
    if !is_lawful_goal(protocol, processes, goal, places.as_slice()) {
        return Ok(None);
    }
    if !goal_is_written(alloc, goal, places.as_slice(), line)? {
        return Ok(None);
    }
    Ok(Some((goal, places)))
}

fn plain_is_written(alloc: Global, plain: &Plain, line: &[u8]) -> Result<bool, AllocError>
    ensures { IfOk result (λ same. same ≡ bytes_eq (plain_text plain.now) line.now) }
{
    let mut written = Vec::new(alloc);
    push_plain(&mut written, plain)?;
    Ok(is_word(written.as_slice(), line))
}

/// How many of the events are steps.
pub fn steps_in(events: &[Event]) -> usize
    ensures { result ≡ steps_in events.now }
{
    let mut steps: usize = 0;
    for event in events {
        if let Event::Fire { .. } = event {
            steps += 1;
        }
    }
    steps
}

/// Where the line says that the steps alone fail, where there are so many processes.
pub fn plain_of(
    alloc: Global,
    processes: u32,
    events: &[Event],
    line: &[u8],
) -> Result<Option<Plain>, AllocError>
    requires few { length events.now ≤ 131072 }
    requires processes { processes ≤ 128 }
    ensures found { IfOk result (λ o. IfSome o (λ at. TakesPlain processes events.now line.now at)) }
    ensures none { IfOk result (λ o. IfNone o ((at : Plain) → TakesPlain processes events.now line.now at → ⊥)) }
{
    let plain = plain_told(line);
    if plain.step as usize >= steps_in(events) || plain.process >= processes {
        return Ok(None);
    }
    if !plain_is_written(alloc, &plain, line)? {
        return Ok(None);
    }
    Ok(Some(plain))
}
