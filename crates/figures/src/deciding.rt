//! The theory: whether some state meets a cube, and what a cube entails.

ghost use Rattle.std.specs.Prelude.{◌≤◌};

use crate::failed::Failed;
use crate::fitting::{are_fitting, fits};
use crate::literals::{Kind, at_places, entailed};
use crate::parts::protocol;
use cub_cube::Cube;
use std::alloc::Global;
use theory::Scratch;

/// Asks whether some state meets the cube of that kind and width; counts how often one does.
pub fn consistent(alloc: Global, kind: Kind, places: u8, times: u32) -> Result<u64, Failed>
    requires { places ≤ 11 }
{
    let protocol = protocol(alloc)?;
    let lits = at_places(alloc, kind, places)?;
    let cube = Cube::of(alloc, &protocol, places, lits.as_slice())?;
    if !are_fitting(&protocol, cube.width, cube.lits.as_slice()) {
        return Err(Failed::Size);
    }
    let mut scratch = Scratch::new(alloc, &protocol)?;
    let mut count = 0u64;
    for _done in 0..times {
        let is = theory::consistent(&mut scratch, &protocol, &cube);
        count = count.wrapping_add(u64::from(is));
    }
    Ok(count)
}

/// Asks whether the cube of that kind and width entails a literal; counts how often it does.
pub fn entails(alloc: Global, kind: Kind, places: u8, times: u32) -> Result<u64, Failed>
    requires { places ≤ 11 }
{
    let protocol = protocol(alloc)?;
    let lits = at_places(alloc, kind, places)?;
    let lit = entailed(kind);
    let cube = Cube::of(alloc, &protocol, places, lits.as_slice())?;
    if !are_fitting(&protocol, cube.width, cube.lits.as_slice()) {
        return Err(Failed::Size);
    }
    if !fits(&protocol, cube.width, &lit) {
        return Err(Failed::Size);
    }
    let mut scratch = Scratch::new(alloc, &protocol)?;
    let mut count = 0u64;
    for _done in 0..times {
        let does = theory::entails(&mut scratch, &protocol, &cube, &lit);
        count = count.wrapping_add(u64::from(does));
    }
    Ok(count)
}
