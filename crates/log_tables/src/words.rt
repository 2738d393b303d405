//! The parts of a row: its command, its sides between ` ; `, numbers, places and cubes.

use crate::failed::Failed;
use cub_base::Places;
use cub_cube::Cube;
use cub_proto::{Budget, Protocol};
use cube_text::{CubeFault, before, onward, read_cube};
use std::alloc::Global;
use text_lines::natural;

/// The widest cube that a row may name. Calls refuse a cube that is too wide for them themselves.
pub const WIDEST_NAMED: u8 = 12;

/// The bytes before the first blank, and those behind it.
pub fn first_word(text: &[u8]) -> (&[u8], &[u8]) {
    let front = before(b' ', text);
    match onward(b' ', text) {
        [] => (front, &[]),
        [_, back @ ..] => (front, back),
    }
}

// The bytes without a blank at their end.
fn without_blank(text: &[u8]) -> Result<&[u8], Failed> {
    match text {
        [front @ .., b' '] => Ok(front),
        _ => Err(Failed::Row),
    }
}

/// What stands before the first ` ; `, and what behind it; nothing stands behind where there is none.
pub fn first_side(text: &[u8]) -> Result<(&[u8], &[u8]), Failed> {
    match onward(b';', text) {
        [] => Ok((text, &[])),
        [b';', b' ', back @ ..] => Ok((without_blank(before(b';', text))?, back)),
        _ => Err(Failed::Row),
    }
}

/// The number that the text is.
pub fn long_number(text: &[u8]) -> Result<u64, Failed> {
    match natural(text) {
        Some(number) => Ok(number),
        None => Err(Failed::Row),
    }
}

/// The number of 32 bits that the text is.
pub fn number(text: &[u8]) -> Result<u32, Failed> {
    match u32::try_from(long_number(text)?) {
        Ok(number) => Ok(number),
        Err(_) => Err(Failed::Row),
    }
}

// The small number that the text is.
fn small_number(text: &[u8]) -> Result<u8, Failed> {
    match u8::try_from(long_number(text)?) {
        Ok(number) => Ok(number),
        Err(_) => Err(Failed::Row),
    }
}

// The place that the text is, as `#2`.
fn place(text: &[u8]) -> Result<u8, Failed> {
    match text {
        [b'#', digits @ ..] => {
            let number = small_number(digits)?;
            if number == 0 {
                return Err(Failed::Row);
            }
            Ok(number - 1)
        }
        _ => Err(Failed::Row),
    }
}

/// The places that the text is, as `#2 #1`.
pub fn places(alloc: Global, text: &[u8]) -> Result<Places, Failed> {
    let mut list = Places::new(alloc);
    let mut rest = text;
    for _turn in 0..13 {
        if rest.is_empty() {
            return Ok(list);
        }
        if list.len() == 12 {
            return Err(Failed::Row);
        }
        let (word, behind) = first_word(rest);
        list.push(place(word)?);
        rest = behind;
    }
    Err(Failed::Row)
}

/// The cube that the text reads as.
pub fn cube(protocol: &Protocol, text: &[u8]) -> Result<Cube, Failed> {
    match read_cube(protocol, text, WIDEST_NAMED) {
        Ok(cube) => Ok(cube),
        Err(CubeFault::Memory) => Err(Failed::Memory),
        Err(_) => Err(Failed::Row),
    }
}

/// The budget that the two words are.
pub fn budget(cubes: &[u8], width: &[u8]) -> Result<Budget, Failed> {
    let cubes = number(cubes)?;
    let width = small_number(width)?;
    if cubes < 1 || 65_536 < cubes {
        return Err(Failed::Unfit);
    }
    if width < 1 || 8 < width {
        return Err(Failed::Unfit);
    }
    Ok(Budget { cubes, width })
}
