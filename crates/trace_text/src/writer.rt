//! Writing a trace, a line after another.

ghost use Rattle.std.specs.Prelude.{◌≡◌, ◌+◌, ◌<◌, ◌≤◌, ◌^◌, [], ◌∷◌, ◌++◌, length, flat_map, map, codes, decimal, is_some, OnOk, IfOk};
ghost use Rattle.std.specs.List.{join_by, list_any};
ghost use Rattle.cub_proto.specs.Configuration.{process_count, cells_of};
ghost use Rattle.cub_proto.specs.Fits.{takes_any};
ghost use Rattle.cub_proto.specs.StateOf.{IsStateOf};
ghost use Rattle.text_lines.specs.Line.{ended, text_of};
ghost use Rattle.trace_text.specs.Text.{has_any, heading_text, version_text, count_text, global_lines, cell_lines, array_lines, start_lines, pick_text, picks_text, transition_name, event_text, goal_text, plain_text, plain_lines, trace_text};

use cub_base::Memory;
use cub_proto::{
    Chosen, Event, Plain, Protocol, Slot, State, Trace, Transition, Update, Val, takes_any,
};
use std::alloc::{AllocError, Global};
use text_lines::{push, push_entry, push_number, push_process, push_processes};

fn updates_take_any(updates: &[Update]) -> bool
    ensures { result ≡ list_any takes_any updates.now }
{
    updates.iter().any(|update| takes_any(update))
}

fn transitions_take_any(transitions: &[Transition]) -> bool
    ensures { result ≡ list_any (λ t. list_any takes_any t.updates) transitions.now }
{
    transitions.iter().any(|transition| updates_take_any(transition.updates.as_slice()))
}

/// Whether some update of the protocol can give any value.
pub fn has_any(protocol: &Protocol) -> bool
    ensures { result ≡ has_any protocol.now }
{
    transitions_take_any(protocol.transitions.as_slice())
}

/// The first line.
pub fn heading_text(crashes: bool) -> &'static [u8]
    ensures { result.now ≡ heading_text crashes }
{
    if crashes {
        b"UNSAFE WITH CRASHES"
    } else {
        b"UNSAFE"
    }
}

/// The second line.
pub fn version_text(picks: bool) -> &'static [u8]
    ensures { result.now ≡ version_text picks }
{
    if picks { b"trace 2" } else { b"trace 1" }
}

/// Appends the line of the number of processes, one less of which is given.
pub fn push_count(out: &mut Vec<u8>, less: u32) -> Result<(), AllocError>
    ensures { OnOk result (out.new.items ≡ out.old.items ++ count_text (less + 1)) }
{
    push(out, b"processes ")?;
    push_number(out, less)
}

fn push_pick(out: &mut Vec<u8>, protocol: &Protocol, pick: &Chosen) -> Result<(), AllocError>
    ensures { OnOk result (out.new.items ≡ out.old.items ++ pick_text protocol.now pick.now) }
{
    push_entry(out, protocol, pick.slot, pick.val)
}

fn push_other_picks(
    out: &mut Vec<u8>,
    protocol: &Protocol,
    picks: &[Chosen],
) -> Result<(), AllocError>
    ensures { OnOk result (out.new.items ≡ out.old.items ++ flat_map (λ c. codes " && " ++ pick_text protocol.now c) picks.now) }
{
    for pick in picks {
        push(out, b" && ")?;
        push_pick(out, protocol, pick)?;
    }
    Ok(())
}

fn push_picks(out: &mut Vec<u8>, protocol: &Protocol, picks: &[Chosen]) -> Result<(), AllocError>
    ensures { OnOk result (out.new.items ≡ out.old.items ++ picks_text protocol.now picks.now) }
{
    match picks {
        [] => Ok(()),
        [first, rest @ ..] => {
            push(out, b" with ")?;
            push_pick(out, protocol, first)?;
            push_other_picks(out, protocol, rest)
        }
    }
}

fn transition_name(protocol: &Protocol, number: u16) -> &[u8]
    ensures { result.now ≡ transition_name protocol.now number }
{
    match protocol.transitions.get(number as usize) {
        Some(transition) => transition.name.as_slice(),
        None => b"",
    }
}

/// Appends what the line of the event says.
pub fn push_event(out: &mut Vec<u8>, protocol: &Protocol, event: &Event) -> Result<(), AllocError>
    ensures { OnOk result (out.new.items ≡ out.old.items ++ event_text protocol.now event.now) }
{
    match event {
        Event::Crash { process } => {
            push(out, b"crash ")?;
            push_process(out, *process)
        }
        Event::Fire {
            transition,
            params,
            picks,
        } => {
            push(out, b"step ")?;
            push(out, transition_name(protocol, *transition))?;
            push_processes(out, params.as_slice())?;
            push_picks(out, protocol, picks.as_slice())
        }
    }
}

/// Appends what the unsafe line says.
pub fn push_goal(out: &mut Vec<u8>, goal: u32, places: &[u32]) -> Result<(), AllocError>
    ensures { OnOk result (out.new.items ≡ out.old.items ++ goal_text goal places.now) }
{
    push(out, b"unsafe ")?;
    push_number(out, goal)?;
    push(out, b" ")?;
    push_processes(out, places)
}

/// Appends what the plain line says.
pub fn push_plain(out: &mut Vec<u8>, plain: &Plain) -> Result<(), AllocError>
    ensures { OnOk result (out.new.items ≡ out.old.items ++ plain_text plain.now) }
{
    push(out, b"plain ")?;
    push_number(out, plain.step)?;
    push(out, b" ")?;
    push_process(out, plain.process)
}

fn end_line(out: &mut Vec<u8>) -> Result<(), AllocError>
    ensures { OnOk result (out.new.items ≡ out.old.items ++ 10 ∷ []) }
{
    push(out, b"\n")
}

fn push_heading(
    out: &mut Vec<u8>,
    protocol: &Protocol,
    crashes: bool,
    less: u32,
) -> Result<(), AllocError>
    ensures { OnOk result (out.new.items ≡ out.old.items ++ text_of (heading_text crashes ∷ version_text (has_any protocol.now) ∷ count_text (less + 1) ∷ [])) }
{
    push(out, heading_text(crashes))?;
    end_line(out)?;
    push(out, version_text(has_any(protocol)))?;
    end_line(out)?;
    push_count(out, less)?;
    end_line(out)
}

fn push_globals(out: &mut Vec<u8>, protocol: &Protocol, globals: &[Val]) -> Result<(), AllocError>
    requires { length globals.now ≤ 64 }
    ensures { OnOk result (out.new.items ≡ out.old.items ++ text_of (global_lines protocol.now globals.now)) }
{
    for (global, val) in globals.iter().enumerate() {
        push_entry(out, protocol, Slot::Global(global as u16), *val)?;
        end_line(out)?;
    }
    Ok(())
}

fn push_cells(
    out: &mut Vec<u8>,
    protocol: &Protocol,
    array: u16,
    cells: &[Val],
) -> Result<(), AllocError>
    requires { length cells.now < 2 ^ 32 }
    ensures { OnOk result (out.new.items ≡ out.old.items ++ text_of (cell_lines protocol.now array cells.now)) }
{
    for (process, val) in cells.iter().enumerate() {
        push_entry(out, protocol, Slot::Cell(array, process as u32), *val)?;
        end_line(out)?;
    }
    Ok(())
}

fn push_arrays(out: &mut Vec<u8>, protocol: &Protocol, start: &State) -> Result<(), AllocError>
    requires state { IsStateOf protocol.now start.now }
    requires few { process_count start.now < 2 ^ 32 }
    ensures { OnOk result (out.new.items ≡ out.old.items ++ text_of (array_lines protocol.now 0 start.now.arrays)) }
{
    for array in 0..protocol.arrays.len() {
        push_cells(out, protocol, array as u16, start.cells(array as u16))?;
    }
    Ok(())
}

fn push_start(out: &mut Vec<u8>, protocol: &Protocol, start: &State) -> Result<(), AllocError>
    requires state { IsStateOf protocol.now start.now }
    requires few { process_count start.now < 2 ^ 32 }
    ensures { OnOk result (out.new.items ≡ out.old.items ++ text_of (start_lines protocol.now start.now)) }
{
    push_globals(out, protocol, start.globals())?;
    push_arrays(out, protocol, start)
}

fn push_events(out: &mut Vec<u8>, protocol: &Protocol, events: &[Event]) -> Result<(), AllocError>
    ensures { OnOk result (out.new.items ≡ out.old.items ++ text_of (map (event_text protocol.now) events.now)) }
{
    for event in events {
        push_event(out, protocol, event)?;
        end_line(out)?;
    }
    Ok(())
}

fn push_plain_line(out: &mut Vec<u8>, plain: &Option<Plain>) -> Result<(), AllocError>
    ensures { OnOk result (out.new.items ≡ out.old.items ++ text_of (plain_lines plain.now)) }
{
    match plain {
        None => Ok(()),
        Some(plain) => {
            push_plain(out, plain)?;
            end_line(out)
        }
    }
}

fn push_end(out: &mut Vec<u8>, trace: &Trace) -> Result<(), AllocError>
    ensures { OnOk result (out.new.items ≡ out.old.items
        ++ text_of (goal_text trace.now.goal trace.now.places ∷ [] ++ plain_lines trace.now.plain ++ codes "end" ∷ [])) }
{
    push_goal(out, trace.goal, trace.places.as_slice())?;
    end_line(out)?;
    push_plain_line(out, &trace.plain)?;
    push(out, b"end")?;
    end_line(out)
}

/// The text of the trace. Its start is a state of the protocol; whether the trace replays is not asked.
pub fn write(protocol: &Protocol, trace: &Trace) -> Result<Vec<u8>, Memory>
    requires { IsStateOf protocol.now trace.now.start }
    ensures { IfOk result (λ text. text.items ≡ trace_text protocol.now trace.now) }
{
    let mut out = Vec::new(protocol.sorts.allocator());
    let less = trace.start.processes() - 1;
    push_heading(&mut out, protocol, trace.plain.is_some(), less)?;
    push_start(&mut out, protocol, &trace.start)?;
    push_events(&mut out, protocol, trace.events.as_slice())?;
    push_end(&mut out, trace)?;
    Ok(out)
}
