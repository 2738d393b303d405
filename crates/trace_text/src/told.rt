//! Lines of a trace read loosely, from their words alone.

ghost use Rattle.std.specs.Prelude.{◌≡◌, ◌++◌, IfOk, slice_get};
ghost use Rattle.trace_text.specs.Told.{pick_told, behind_pick, picks_told, firing_told, event_told, places_told, goal_told, goal_places, plain_told};

use cub_base::Items;
use cub_proto::{Chosen, Event, Picked, Plain, Processes, Protocol};
use std::alloc::{AllocError, Global};
use text_lines::{
    behind_words, counted, entry_value, is_word, next_word, processes_in, slot_in, slot_words,
    transition_number,
};

fn pick_told(protocol: &Protocol, bytes: &[u8]) -> Chosen
    ensures { result ≡ pick_told protocol.now bytes.now }
{
    let slot = slot_in(protocol, bytes);
    Chosen {
        slot,
        val: entry_value(protocol, slot, bytes),
    }
}

fn behind_pick<'a>(protocol: &Protocol, bytes: &'a [u8]) -> &'a [u8]
    ensures { result.now ≡ behind_pick protocol.now bytes.now }
{
    let slot = slot_in(protocol, bytes);
    let (_, rest) = next_word(behind_words(slot_words(slot) + 1, bytes));
    rest
}

fn picks_told(
    alloc: Global,
    protocol: &Protocol,
    most: usize,
    bytes: &[u8],
) -> Result<Picked, AllocError>
    ensures { IfOk result (λ picks. picks ≡ picks_told protocol.now most bytes.now) }
{
    let mut picks = Items::new(alloc);
    let mut rest = bytes;
    for _ in 0..most {
        let (word, _) = next_word(rest);
        if is_word(word, b"") {
            return Ok(picks);
        }
        picks.push(pick_told(protocol, rest))?;
        let (_, behind) = next_word(behind_pick(protocol, rest));
        rest = behind;
    }
    Ok(picks)
}

fn firing_told(
    alloc: Global,
    protocol: &Protocol,
    number: u16,
    bytes: &[u8],
) -> Result<Option<Event>, AllocError>
    ensures { IfOk result (λ event. event ≡ firing_told protocol.now number (slice_get protocol.now.transitions number) bytes.now) }
{
    let Some(transition) = protocol.transitions.get(number as usize) else {
        return Ok(None);
    };
    let count = transition.params as usize;
    let params = processes_in(alloc, count, bytes)?;
    let (_, rest) = next_word(behind_words(count, bytes));
    let picks = picks_told(alloc, protocol, bytes.len(), rest)?;
    Ok(Some(Event::Fire {
        transition: number,
        params,
        picks,
    }))
}

/// The event that the line tells, where its second word is a transition or its first is `crash`.
pub fn event_told(
    alloc: Global,
    protocol: &Protocol,
    line: &[u8],
) -> Result<Option<Event>, AllocError>
    ensures { IfOk result (λ event. event ≡ event_told protocol.now line.now) }
{
    let (first, rest) = next_word(line);
    let (second, behind) = next_word(rest);
    if is_word(first, b"crash") {
        return Ok(Some(Event::Crash {
            process: counted(second),
        }));
    }
    let number = transition_number(protocol.transitions.as_slice(), second);
    firing_told(alloc, protocol, number, behind)
}

/// The number of the unsafe conjunction that the line tells.
pub fn goal_told(line: &[u8]) -> u32
    ensures { result ≡ goal_told line.now }
{
    let (_, rest) = next_word(line);
    let (number, _) = next_word(rest);
    counted(number)
}

/// The processes that the line tells, as many as that unsafe conjunction has places.
pub fn goal_places(alloc: Global, protocol: &Protocol, line: &[u8]) -> Result<Processes, AllocError>
    ensures { IfOk result (λ places. places ≡ goal_places protocol.now line.now) }
{
    let (_, rest) = next_word(line);
    let (_, behind) = next_word(rest);
    match protocol.goals.get(goal_told(line) as usize) {
        None => Ok(Items::new(alloc)),
        Some(goal) => processes_in(alloc, goal.width as usize, behind),
    }
}

/// Where the line tells that the steps alone fail.
pub fn plain_told(line: &[u8]) -> Plain
    ensures { result ≡ plain_told line.now }
{
    let (_, rest) = next_word(line);
    let (step, behind) = next_word(rest);
    let (process, _) = next_word(behind);
    Plain {
        step: counted(step),
        process: counted(process),
    }
}
