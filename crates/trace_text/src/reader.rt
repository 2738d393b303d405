//! Reading a trace: line by line, up to the end or the first line that may not stand where it stands.

ghost use Rattle.std.specs.Prelude.{◌≡◌, ℕ, ◌+◌, ◌<◌, ◌≤◌, ◌^◌, [], ◌∷◌, ◌++◌, length, Bool, true, false, All, IsTrue, IfOk, IfErr, OnOk, IfSome, IfNone, Some, None, Result, Ok, Err};
ghost use Rattle.cub_proto.specs.declared.protocol.Protocol.{Protocol};
ghost use Rattle.cub_proto.specs.declared.event.Trace.{Trace};
ghost use Rattle.cub_proto.specs.Configuration.{process_count};
ghost use Rattle.replay.specs.Bound.{most_events};
ghost use Rattle.replay.specs.FitsStart.{FitsStart};
ghost use Rattle.trace_text.specs.declared.fault.TraceFault.TheVariants.{Fault};
ghost use Rattle.text_lines.specs.Line.{line_at};
ghost use Rattle.trace_text.specs.Text.{has_any, trace_text};
ghost use Rattle.trace_text.specs.Lawful.{is_lawful_event, is_lawful_goal, is_lawful_plain, is_lawful_end, IsLawful};
ghost use Rattle.trace_text.specs.Place.{Heading, Version, Count, Events, PlainLine, Closing, Done, behind_globals, behind_goal, trace_of, begins_event, TraceReads, GoesOn, IsFaultOf};

use crate::fault::TraceFault;
use crate::lines::{begins_event, count_of, event_of, goal_of, heading_of, plain_of};
use crate::start::read_start;
use crate::writer::{has_any, version_text};
use cub_base::Items;
use cub_proto::{Event, Events, Plain, Processes, Protocol, State, Trace};
use std::alloc::Global;
use text_lines::{cut_line, is_word};

const MOST_EVENTS: usize = 131_072;

/// A line without its line feed, and the text behind it.
#[derive(Clone, Copy, Debug)]
pub struct Cut<'a> {
    pub bytes: &'a [u8],
    pub rest: &'a [u8],
}

/// The first line, if there is one.
pub fn next_line(text: &[u8]) -> Option<Cut<'_>>
    ensures some { IfSome result (λ cut. line_at text.now ≡ Some (cut.bytes.now, cut.rest.now)) }
    ensures none { IfNone result (line_at text.now ≡ None) }
    ensures room { IfSome result (λ cut. length cut.rest.now < length text.now) }
{
    match cut_line(text) {
        Some((bytes, rest)) => Some(Cut { bytes, rest }),
        None => None,
    }
}

fn read_heading(text: &[u8]) -> Result<(bool, &[u8]), TraceFault>
    ensures room { IfOk result (λ x. length x.1.now < length text.now) }
    ensures ok { IfOk result (λ x. (p : Protocol) → GoesOn p (Version x.0) 2 x.1.now Heading 1 text.now) }
    ensures err { IfErr result (λ f. (p : Protocol) → IsFaultOf p Heading 1 text.now f) }
{
    let Some(cut) = next_line(text) else {
        return Err(TraceFault::Fault { line: 1, kind: 1 });
    };
    let Some(crashes) = heading_of(cut.bytes) else {
        return Err(TraceFault::Fault { line: 1, kind: 1 });
    };
    Ok((crashes, cut.rest))
}

fn read_version<'a>(protocol: &Protocol, text: &'a [u8]) -> Result<&'a [u8], TraceFault>
    ensures room { IfOk result (λ rest. length rest.now < length text.now) }
    ensures ok { IfOk result (λ rest. (crashes : Bool) → GoesOn protocol.now (Count crashes) 3 rest.now (Version crashes) 2 text.now) }
    ensures err { IfErr result (λ f. (crashes : Bool) → IsFaultOf protocol.now (Version crashes) 2 text.now f) }
{
    let Some(cut) = next_line(text) else {
        return Err(TraceFault::Fault { line: 2, kind: 1 });
    };
    if !is_word(cut.bytes, version_text(has_any(protocol))) {
        return Err(TraceFault::Fault { line: 2, kind: 1 });
    }
    Ok(cut.rest)
}

fn read_count(alloc: Global, text: &[u8]) -> Result<(u32, &[u8]), TraceFault>
    ensures some { IfOk result (λ x. 0 < x.0) }
    ensures few { IfOk result (λ x. x.0 ≤ 128) }
    ensures room { IfOk result (λ x. length x.1.now < length text.now) }
    ensures ok { IfOk result (λ x. (p : Protocol) (crashes : Bool) → GoesOn p (behind_globals p crashes x.0 []) 4 x.1.now (Count crashes) 3 text.now) }
    ensures err { IfErr result (λ f. (p : Protocol) (crashes : Bool) → IsFaultOf p (Count crashes) 3 text.now f) }
{
    let Some(cut) = next_line(text) else {
        return Err(TraceFault::Fault { line: 3, kind: 2 });
    };
    let Some(processes) = count_of(alloc, cut.bytes)? else {
        return Err(TraceFault::Fault { line: 3, kind: 2 });
    };
    Ok((processes, cut.rest))
}

fn read_event<'a>(
    alloc: Global,
    protocol: &Protocol,
    any: bool,
    start: &State,
    events: &Events,
    line: u32,
    text: &'a [u8],
) -> Result<(Event, &'a [u8]), TraceFault>
    requires any { any ≡ has_any protocol.now }
    requires few { process_count start.now ≤ 128 }
    requires more { length events.now < most_events }
    requires begins { begins_event text.now ≡ true }
    ensures lawful { IfOk result (λ x. IsTrue (is_lawful_event protocol.now (process_count start.now) x.0)) }
    ensures room { IfOk result (λ x. length x.1.now < length text.now) }
    ensures ok { IfOk result (λ x. (crashes : Bool)
        → GoesOn protocol.now (Events crashes start.now (events.now ++ x.0 ∷ [])) (line + 1) x.1.now (Events crashes start.now events.now) line text.now) }
    ensures err { IfErr result (λ f. (crashes : Bool) → IsFaultOf protocol.now (Events crashes start.now events.now) line text.now f) }
{
    let Some(cut) = next_line(text) else {
        return Err(TraceFault::Fault { line, kind: 4 });
    };
    let Some(event) = event_of(alloc, protocol, any, start.processes(), cut.bytes)? else {
        return Err(TraceFault::Fault { line, kind: 4 });
    };
    Ok((event, cut.rest))
}

fn read_events<'a>(
    alloc: Global,
    protocol: &Protocol,
    any: bool,
    start: &State,
    line: u32,
    text: &'a [u8],
) -> Result<(Events, u32, &'a [u8]), TraceFault>
    requires any { any ≡ has_any protocol.now }
    requires few { process_count start.now ≤ 128 }
    requires room { line + length text.now < 2 ^ 32 }
    ensures lawful { IfOk result (λ x. All (λ e. IsTrue (is_lawful_event protocol.now (process_count start.now) e)) x.0) }
    ensures few { IfOk result (λ x. length x.0 ≤ most_events) }
    ensures end { IfOk result (λ x. length x.0 < most_events → begins_event x.2.now ≡ false) }
    ensures room { IfOk result (λ x. x.1 + length x.2.now ≤ line + length text.now) }
    ensures ok { IfOk result (λ x. (crashes : Bool)
        → GoesOn protocol.now (Events crashes start.now x.0) x.1 x.2.now (Events crashes start.now []) line text.now) }
    ensures err { IfErr result (λ f. (crashes : Bool) → IsFaultOf protocol.now (Events crashes start.now []) line text.now f) }
{
    let mut events = Items::new(alloc);
    let mut at = line;
    let mut rest = text;
    for _ in 0..MOST_EVENTS {
        if !begins_event(rest) {
            return Ok((events, at, rest));
        }
        let (event, behind) = read_event(alloc, protocol, any, start, &events, at, rest)?;
        events.push(event)?;
        at += 1;
        rest = behind;
    }
    Ok((events, at, rest))
}

fn read_goal<'a>(
    alloc: Global,
    protocol: &Protocol,
    start: &State,
    events: &Events,
    line: u32,
    text: &'a [u8],
) -> Result<(u32, Processes, &'a [u8]), TraceFault>
    requires few { process_count start.now ≤ 128 }
    requires end { length events.now < most_events → begins_event text.now ≡ false }
    ensures lawful { IfOk result (λ x. IsTrue (is_lawful_goal protocol.now (process_count start.now) x.0 x.1)) }
    ensures room { IfOk result (λ x. length x.2.now < length text.now) }
    ensures ok { IfOk result (λ x. (crashes : Bool)
        → GoesOn protocol.now (behind_goal crashes start.now events.now x.0 x.1) (line + 1) x.2.now (Events crashes start.now events.now) line text.now) }
    ensures err { IfErr result (λ f. (crashes : Bool) → IsFaultOf protocol.now (Events crashes start.now events.now) line text.now f) }
{
    let kind = if begins_event(text) { 4 } else { 5 };
    let Some(cut) = next_line(text) else {
        return Err(TraceFault::Fault { line, kind });
    };
    let Some((goal, places)) = goal_of(alloc, protocol, start.processes(), cut.bytes)? else {
        return Err(TraceFault::Fault { line, kind });
    };
    Ok((goal, places, cut.rest))
}

fn read_plain<'a>(
    alloc: Global,
    start: &State,
    events: &Events,
    goal: u32,
    places: &Processes,
    line: u32,
    text: &'a [u8],
) -> Result<(Plain, &'a [u8]), TraceFault>
    requires few { process_count start.now ≤ 128 }
    requires few_events { length events.now ≤ most_events }
    ensures lawful { IfOk result (λ x. IsTrue (is_lawful_plain (process_count start.now) events.now x.0)) }
    ensures room { IfOk result (λ x. length x.1.now < length text.now) }
    ensures ok { IfOk result (λ x. (p : Protocol)
        → GoesOn p (Closing (trace_of start.now events.now goal places.now (Some x.0))) (line + 1) x.1.now
        (PlainLine (trace_of start.now events.now goal places.now None)) line text.now) }
    ensures err { IfErr result (λ f. (p : Protocol) → IsFaultOf p (PlainLine (trace_of start.now events.now goal places.now None)) line text.now f) }
{
    let Some(cut) = next_line(text) else {
        return Err(TraceFault::Fault { line, kind: 5 });
    };
    let Some(plain) = plain_of(alloc, start.processes(), events.as_slice(), cut.bytes)? else {
        return Err(TraceFault::Fault { line, kind: 5 });
    };
    Ok((plain, cut.rest))
}

fn read_closing<'a>(
    alloc: Global,
    crashes: bool,
    start: &State,
    events: &Events,
    goal: u32,
    places: &Processes,
    line: u32,
    text: &'a [u8],
) -> Result<(Option<Plain>, u32, &'a [u8]), TraceFault>
    requires few { process_count start.now ≤ 128 }
    requires few_events { length events.now ≤ most_events }
    requires room { line + length text.now < 2 ^ 32 }
    ensures lawful { IfOk result (λ x. IsTrue (is_lawful_end (process_count start.now) events.now x.0)) }
    ensures room { IfOk result (λ x. x.1 + length x.2.now ≤ line + length text.now) }
    ensures ok { IfOk result (λ x. (p : Protocol)
        → GoesOn p (Closing (trace_of start.now events.now goal places.now x.0)) x.1 x.2.now
        (behind_goal crashes start.now events.now goal places.now) line text.now) }
    ensures err { IfErr result (λ f. (p : Protocol) → IsFaultOf p (behind_goal crashes start.now events.now goal places.now) line text.now f) }
{
    if !crashes {
        return Ok((None, line, text));
    }
    let (plain, rest) = read_plain(alloc, start, events, goal, places, line, text)?;
    Ok((Some(plain), line + 1, rest))
}

fn read_end(line: u32, text: &[u8]) -> Result<&[u8], TraceFault>
    ensures room { IfOk result (λ rest. length rest.now < length text.now) }
    ensures ok { IfOk result (λ rest. (p : Protocol) (t : Trace) → GoesOn p (Done t) (line + 1) rest.now (Closing t) line text.now) }
    ensures err { IfErr result (λ f. (p : Protocol) (t : Trace) → IsFaultOf p (Closing t) line text.now f) }
{
    let Some(cut) = next_line(text) else {
        return Err(TraceFault::Fault { line, kind: 5 });
    };
    if !is_word(cut.bytes, b"end") {
        return Err(TraceFault::Fault { line, kind: 5 });
    }
    Ok(cut.rest)
}

fn read_nothing(line: u32, text: &[u8]) -> Result<(), TraceFault>
    ensures ok { OnOk result ((p : Protocol) (t : Trace) → TraceReads p (Done t) line text.now (Ok t)) }
    ensures err { IfErr result (λ f. (p : Protocol) (t : Trace) → IsFaultOf p (Done t) line text.now f) }
{
    if text.is_empty() {
        Ok(())
    } else {
        Err(TraceFault::Fault { line, kind: 6 })
    }
}

/// The trace that the text is the text of, or its first fault.
/// The trace stands in the memory that the protocol stands in.
pub fn read(protocol: &Protocol, text: &[u8]) -> Result<Trace, TraceFault>
    requires { length text.now + 1 < 2 ^ 32 }
    // The answer is the one reading of the text.
    ensures trace { IfOk result (λ t. TraceReads protocol.now Heading 1 text.now (Ok t)) }
    ensures fault { IfErr result (IsFaultOf protocol.now Heading 1 text.now) }
    // The trace may be replayed, and the text is its text.
    ensures lawful { IfOk result (IsLawful protocol.now) }
    ensures text { IfOk result (λ t. text.now ≡ trace_text protocol.now t) }
{
    let alloc = protocol.sorts.allocator();
    let (crashes, rest) = read_heading(text)?;
    let rest = read_version(protocol, rest)?;
    let (processes, rest) = read_count(alloc, rest)?;
    let (start, line, rest) = read_start(alloc, protocol, processes, 4, rest)?;
    let (events, line, rest) = read_events(alloc, protocol, has_any(protocol), &start, line, rest)?;
    let (goal, places, rest) = read_goal(alloc, protocol, &start, &events, line, rest)?;
    let line = line + 1;
    let (plain, line, rest) = read_closing(
        alloc, crashes, &start, &events, goal, &places, line, rest,
    )?;
    let rest = read_end(line, rest)?;
    read_nothing(line + 1, rest)?;
    Ok(Trace {
        start,
        events,
        goal,
        places,
        plain,
    })
}
