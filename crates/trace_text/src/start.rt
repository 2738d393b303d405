//! The start values of a trace: a line a global, then a line an array and process.

ghost use Rattle.std.specs.Prelude.{◌≡◌, ◌+◌, ◌<◌, ◌≤◌, ◌^◌, [], length, Bool, IfOk, IfErr, Result, Ok, Err, OnOk};
ghost use Rattle.cub_proto.specs.declared.state.Slot.TheVariants as Slot;
ghost use Rattle.cub_proto.specs.Configuration.{process_count};
ghost use Rattle.cub_proto.specs.StateOf.{first_state};
ghost use Rattle.replay.specs.FitsStart.{FitsStart};
ghost use Rattle.trace_text.specs.declared.fault.TraceFault.TheVariants.{Memory};
ghost use Rattle.trace_text.specs.Place.{behind_globals, behind_arrays, GoesOn, IsFaultOf};
ghost use Rattle.trace_text.specs.Place.{Events};
ghost use Rattle.trace_text.specs.Values.{TakenHere, IsNoValue, at_globals, at_arrays, at_cells};

use crate::fault::TraceFault;
use crate::lines::value_of;
use crate::reader::next_line;
use cub_proto::{Protocol, Slot, State, Val};
use replay::{first_state, set_start};
use std::alloc::Global;

// The value of the next line, which is that of the slot.
fn read_value<'a>(
    alloc: Global,
    protocol: &Protocol,
    processes: u32,
    slot: Slot,
    line: u32,
    text: &'a [u8],
) -> Result<(Val, &'a [u8]), TraceFault>
    requires { processes ≤ 128 }
    ensures ok { IfOk result (λ x. TakenHere protocol.now processes slot text.now x.0 x.1.now) }
    ensures err { IfErr result (IsNoValue protocol.now processes slot line text.now) }
{
    let Some(cut) = next_line(text) else {
        return Err(TraceFault::Fault { line, kind: 3 });
    };
    let Some(val) = value_of(alloc, protocol, processes, slot, cut.bytes)? else {
        return Err(TraceFault::Fault { line, kind: 3 });
    };
    Ok((val, cut.rest))
}

// The lines of the globals, into the state.
fn read_globals<'a>(
    alloc: Global,
    protocol: &Protocol,
    state: &mut State,
    line: u32,
    text: &'a [u8],
) -> Result<(u32, &'a [u8]), TraceFault>
    requires fits { FitsStart protocol.now state.old }
    requires few { process_count state.old ≤ 128 }
    requires room { line + length text.now < 2 ^ 32 }
    ensures fits { FitsStart protocol.now state.new }
    ensures count { process_count state.new ≡ process_count state.old }
    ensures room { IfOk result (λ x. x.0 + length x.1.now ≤ line + length text.now) }
    ensures ok { IfOk result (λ x. (crashes : Bool)
        → GoesOn protocol.now (at_arrays protocol.now crashes (process_count state.new) state.new 0) x.0 x.1.now
        (at_globals protocol.now crashes (process_count state.old) state.old 0) line text.now) }
    ensures err { IfErr result (λ f. (crashes : Bool)
        → IsFaultOf protocol.now (at_globals protocol.now crashes (process_count state.old) state.old 0) line text.now f) }
{
    let mut at = line;
    let mut rest = text;
    for global in 0..protocol.globals.len() {
        let slot = Slot::Global(global as u16);
        let (val, behind) = read_value(alloc, protocol, state.processes(), slot, at, rest)?;
        set_start(protocol, state, slot, val);
        at += 1;
        rest = behind;
    }
    Ok((at, rest))
}

// The lines of an array.
fn read_cells<'a>(
    alloc: Global,
    protocol: &Protocol,
    array: u16,
    state: &mut State,
    line: u32,
    text: &'a [u8],
) -> Result<(u32, &'a [u8]), TraceFault>
    requires fits { FitsStart protocol.now state.old }
    requires few { process_count state.old ≤ 128 }
    requires array { array < length protocol.now.arrays }
    requires room { line + length text.now < 2 ^ 32 }
    ensures fits { FitsStart protocol.now state.new }
    ensures count { process_count state.new ≡ process_count state.old }
    ensures room { IfOk result (λ x. x.0 + length x.1.now ≤ line + length text.now) }
    ensures ok { IfOk result (λ x. (crashes : Bool)
        → GoesOn protocol.now (at_arrays protocol.now crashes (process_count state.new) state.new (array + 1)) x.0 x.1.now
        (at_arrays protocol.now crashes (process_count state.old) state.old array) line text.now) }
    ensures err { IfErr result (λ f. (crashes : Bool)
        → IsFaultOf protocol.now (at_arrays protocol.now crashes (process_count state.old) state.old array) line text.now f) }
{
    let mut at = line;
    let mut rest = text;
    for process in 0..state.processes() {
        let slot = Slot::Cell(array, process);
        let (val, behind) = read_value(alloc, protocol, state.processes(), slot, at, rest)?;
        set_start(protocol, state, slot, val);
        at += 1;
        rest = behind;
    }
    Ok((at, rest))
}

// The lines of all arrays.
fn read_arrays<'a>(
    alloc: Global,
    protocol: &Protocol,
    state: &mut State,
    line: u32,
    text: &'a [u8],
) -> Result<(u32, &'a [u8]), TraceFault>
    requires fits { FitsStart protocol.now state.old }
    requires few { process_count state.old ≤ 128 }
    requires room { line + length text.now < 2 ^ 32 }
    ensures fits { FitsStart protocol.now state.new }
    ensures count { process_count state.new ≡ process_count state.old }
    ensures room { IfOk result (λ x. x.0 + length x.1.now ≤ line + length text.now) }
    ensures ok { IfOk result (λ x. (crashes : Bool)
        → GoesOn protocol.now (Events crashes state.new []) x.0 x.1.now
        (at_arrays protocol.now crashes (process_count state.old) state.old 0) line text.now) }
    ensures err { IfErr result (λ f. (crashes : Bool)
        → IsFaultOf protocol.now (at_arrays protocol.now crashes (process_count state.old) state.old 0) line text.now f) }
{
    let mut at = line;
    let mut rest = text;
    for array in 0..protocol.arrays.len() {
        let (next, behind) = read_cells(alloc, protocol, array as u16, state, at, rest)?;
        at = next;
        rest = behind;
    }
    Ok((at, rest))
}

fn first(alloc: Global, protocol: &Protocol, processes: u32) -> Result<State, TraceFault>
    requires { 0 < processes }
    ensures fits { IfOk result (FitsStart protocol.now) }
    ensures count { IfOk result (λ state. process_count state ≡ processes) }
    ensures err { IfErr result (λ f. f ≡ Memory) }
{
    match first_state(alloc, protocol, processes) {
        Ok(state) => Ok(state),
        Err(_) => Err(TraceFault::Memory),
    }
}

/// The start state of so many processes, and what stands behind its lines.
pub fn read_start<'a>(
    alloc: Global,
    protocol: &Protocol,
    processes: u32,
    line: u32,
    text: &'a [u8],
) -> Result<(State, u32, &'a [u8]), TraceFault>
    requires some { 0 < processes }
    requires few { processes ≤ 128 }
    requires room { line + length text.now < 2 ^ 32 }
    ensures fits { IfOk result (λ x. FitsStart protocol.now x.0) }
    ensures count { IfOk result (λ x. process_count x.0 ≡ processes) }
    ensures room { IfOk result (λ x. x.1 + length x.2.now ≤ line + length text.now) }
    ensures ok { IfOk result (λ x. (crashes : Bool)
        → GoesOn protocol.now (Events crashes x.0 []) x.1 x.2.now (behind_globals protocol.now crashes processes []) line text.now) }
    ensures err { IfErr result (λ f. (crashes : Bool)
        → IsFaultOf protocol.now (behind_globals protocol.now crashes processes []) line text.now f) }
{
    let mut state = first(alloc, protocol, processes)?;
    let (at, rest) = read_globals(alloc, protocol, &mut state, line, text)?;
    let (at, rest) = read_arrays(alloc, protocol, &mut state, at, rest)?;
    Ok((state, at, rest))
}
