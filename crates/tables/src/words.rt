//! The parts of a row: its command, its sides between ` ; `, numbers, places and cubes.

ghost use Rattle.std.specs.Prelude.{IfOk};
ghost use Rattle.theory_laws.specs.Fitting.{AreFitting};
ghost use Rattle.log_form.specs.Pieces.{IsAskable};

use crate::failed::Failed;
use crate::fitting::{is_askable, is_fitting};
use cub_base::Places;
use cub_cube::Cube;
use cub_proto::Protocol;
use cube_text::{CubeFault, before, onward, read_cube};
use std::alloc::Global;
use text_lines::natural;

/// The widest cube that a row may name. Calls refuse a cube that is too wide for them themselves.
pub const WIDEST_NAMED: u8 = 12;

/// The bytes before the first blank, and those behind it.
pub fn first_word(text: &[u8]) -> (&[u8], &[u8]) {
    let front = before(b' ', text);
    match onward(b' ', text) {
        [] => (front, &[]),
        [_, back @ ..] => (front, back),
    }
}

// The bytes without a blank at their end.
fn without_blank(text: &[u8]) -> Result<&[u8], Failed> {
    match text {
        [front @ .., b' '] => Ok(front),
        _ => Err(Failed::Row),
    }
}

/// The two sides of the first ` ; `.
pub fn sides(text: &[u8]) -> Result<(&[u8], &[u8]), Failed> {
    let front = without_blank(before(b';', text))?;
    match onward(b';', text) {
        [b';', b' ', back @ ..] => Ok((front, back)),
        _ => Err(Failed::Row),
    }
}

/// The number that the text is.
pub fn number(text: &[u8]) -> Result<u32, Failed> {
    let number = match natural(text) {
        Some(number) => number,
        None => return Err(Failed::Row),
    };
    match u32::try_from(number) {
        Ok(number) => Ok(number),
        Err(_) => Err(Failed::Row),
    }
}

/// The small number that the text is.
pub fn small_number(text: &[u8]) -> Result<u8, Failed> {
    match u8::try_from(number(text)?) {
        Ok(number) => Ok(number),
        Err(_) => Err(Failed::Row),
    }
}

// The place that the text counts from 1.
fn place(text: &[u8]) -> Result<u8, Failed> {
    let number = small_number(text)?;
    if number == 0 {
        return Err(Failed::Row);
    }
    Ok(number - 1)
}

/// The places that the text counts from 1, between blanks.
pub fn places(alloc: Global, text: &[u8]) -> Result<Places, Failed> {
    let mut list = Places::new(alloc);
    let mut rest = text;
    for _turn in 0..13 {
        if rest.is_empty() {
            return Ok(list);
        }
        if list.len() == 12 {
            return Err(Failed::Row);
        }
        let (word, behind) = first_word(rest);
        list.push(place(word)?);
        rest = behind;
    }
    Err(Failed::Row)
}

/// The cube that the text reads as.
pub fn cube(protocol: &Protocol, text: &[u8]) -> Result<Cube, Failed> {
    match read_cube(protocol, text, WIDEST_NAMED) {
        Ok(cube) => Ok(cube),
        Err(CubeFault::Memory) => Err(Failed::Memory),
        Err(_) => Err(Failed::Row),
    }
}

/// The cube that the text reads as, if it may be decided.
pub fn fitting_cube(protocol: &Protocol, text: &[u8]) -> Result<Cube, Failed>
    ensures { IfOk result (λ c. AreFitting protocol.now c.width c.lits) }
{
    let cube = cube(protocol, text)?;
    if !is_fitting(protocol, &cube) {
        return Err(Failed::Unfit);
    }
    Ok(cube)
}

/// The cube that the text reads as, if it may stand in a list.
pub fn askable_cube(protocol: &Protocol, text: &[u8]) -> Result<Cube, Failed>
    ensures { IfOk result (IsAskable protocol.now) }
{
    let cube = cube(protocol, text)?;
    if !is_askable(protocol, &cube) {
        return Err(Failed::Unfit);
    }
    Ok(cube)
}
