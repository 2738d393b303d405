//! Answers, as they are written to the line of a row.

ghost use Rattle.cub_proto.specs.StateOf.{IsStateOf};

use cub_base::Places;
use cub_cube::Cube;
use cub_proto::{Protocol, Slot, State, Val};
use cube_text::push_cube;
use itoa::Buffer;
use std::alloc::AllocError;
use text_lines::{push, push_entry, push_process};

/// Appends `yes` or `no`.
pub fn push_yes(out: &mut Vec<u8>, yes: bool) -> Result<(), AllocError> {
    if yes {
        push(out, b"yes")
    } else {
        push(out, b"no")
    }
}

/// Appends the number.
pub fn push_count(out: &mut Vec<u8>, count: u64) -> Result<(), AllocError> {
    push(out, Buffer::new().format(count).as_bytes())
}

fn push_other_places(out: &mut Vec<u8>, places: &[u8]) -> Result<(), AllocError> {
    for place in places {
        push(out, b" ")?;
        push_process(out, u32::from(*place))?;
    }
    Ok(())
}

fn push_joined(out: &mut Vec<u8>, places: &[u8]) -> Result<(), AllocError> {
    match places {
        [] => Ok(()),
        [first, others @ ..] => {
            push_process(out, u32::from(*first))?;
            push_other_places(out, others)
        }
    }
}

/// Appends the places, as `(#2 #1)`.
pub fn push_places(out: &mut Vec<u8>, places: &[u8]) -> Result<(), AllocError> {
    push(out, b"(")?;
    push_joined(out, places)?;
    push(out, b")")
}

/// Appends the places, or `none`.
pub fn push_cover(out: &mut Vec<u8>, cover: &Option<Places>) -> Result<(), AllocError> {
    match cover {
        Some(places) => push_places(out, places.as_slice()),
        None => push(out, b"none"),
    }
}

/// Appends the number and the places, or `none`.
pub fn push_found(out: &mut Vec<u8>, found: &Option<(u32, Places)>) -> Result<(), AllocError> {
    match found {
        Some((number, places)) => {
            push_count(out, u64::from(*number))?;
            push(out, b" ")?;
            push_places(out, places.as_slice())
        }
        None => push(out, b"none"),
    }
}

/// Appends the renaming and the cube.
pub fn push_renamed(
    out: &mut Vec<u8>,
    protocol: &Protocol,
    places: &Places,
    cube: &Cube,
) -> Result<(), AllocError> {
    push_places(out, places.as_slice())?;
    push(out, b": ")?;
    push_cube(out, protocol, cube)
}

// Appends whether each process is alive.
fn push_living(out: &mut Vec<u8>, state: &State) -> Result<(), AllocError> {
    for process in 0..state.processes() {
        if state.alive(process) {
            push(out, b" alive")?;
        } else {
            push(out, b" dead")?;
        }
    }
    Ok(())
}

fn push_value(
    out: &mut Vec<u8>,
    protocol: &Protocol,
    slot: Slot,
    values: &[Val],
    number: u32,
) -> Result<(), AllocError> {
    match values.get(number as usize) {
        Some(value) => {
            push(out, b"; ")?;
            push_entry(out, protocol, slot, *value)
        }
        None => Ok(()),
    }
}

fn push_globals(out: &mut Vec<u8>, protocol: &Protocol, state: &State) -> Result<(), AllocError> {
    for global in 0..protocol.globals.len() as u16 {
        let slot = Slot::Global(global);
        push_value(out, protocol, slot, state.globals(), u32::from(global))?;
    }
    Ok(())
}

fn push_cells(
    out: &mut Vec<u8>,
    protocol: &Protocol,
    array: u16,
    cells: &[Val],
    count: u32,
) -> Result<(), AllocError> {
    for process in 0..count {
        push_value(out, protocol, Slot::Cell(array, process), cells, process)?;
    }
    Ok(())
}

fn push_arrays(out: &mut Vec<u8>, protocol: &Protocol, state: &State) -> Result<(), AllocError>
    requires { IsStateOf protocol.now state.now }
{
    let count = state.processes();
    for array in 0..protocol.arrays.len() {
        push_cells(
            out,
            protocol,
            array as u16,
            state.cells(array as u16),
            count,
        )?;
    }
    Ok(())
}

/// Appends the state: its number of processes, who of them is alive, globals and cells.
pub fn push_state(out: &mut Vec<u8>, protocol: &Protocol, state: &State) -> Result<(), AllocError>
    requires { IsStateOf protocol.now state.now }
{
    push_count(out, u64::from(state.processes()))?;
    push_living(out, state)?;
    push_globals(out, protocol, state)?;
    push_arrays(out, protocol, state)
}
