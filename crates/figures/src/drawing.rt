//! Cubes that are drawn, the same in each run: at each of four places, three of four cells have one constructor.

ghost use Rattle.std.specs.Prelude.{IfOk};
ghost use Rattle.log_form.specs.Pieces.{IsAskable};

use crate::failed::Failed;
use crate::fitting::is_askable;
use crate::parts::finite;
use cub_base::Items;
use cub_cube::Cube;
use cub_proto::{Lit, Lits, Protocol};
use std::alloc::{AllocError, Global};

/// The next number below 16, of Knuth's linear generator.
fn next(seed: &mut u64) -> u64 {
    *seed = seed
        .wrapping_mul(6364136223846793005)
        .wrapping_add(1442695040888963407);
    *seed >> 60
}

// The constructor of a cell, if it has one.
fn push_cell(lits: &mut Lits, number: u8, drawn: u64) -> Result<(), AllocError> {
    if drawn < 4 {
        return Ok(());
    }
    lits.push(Lit::FinIn {
        term: finite(number),
        mask: 1u64 << (drawn % 4),
    })?;
    Ok(())
}

fn literals(alloc: Global, seed: &mut u64) -> Result<Lits, AllocError> {
    let mut lits = Items::new(alloc);
    for number in 0..16u8 {
        let drawn = next(seed);
        push_cell(&mut lits, number, drawn)?;
    }
    Ok(lits)
}

/// The next cube.
pub fn draw(alloc: Global, protocol: &Protocol, seed: &mut u64) -> Result<Cube, Failed>
    ensures { IfOk result (IsAskable protocol.now) }
{
    let lits = literals(alloc, seed)?;
    let cube = Cube::of(alloc, protocol, 4, lits.as_slice())?;
    if !is_askable(protocol, &cube) {
        return Err(Failed::Size);
    }
    Ok(cube)
}

/// Draws cubes and does no more; counts their literals.
pub fn draw_alone(alloc: Global, times: u32) -> Result<u64, Failed> {
    let protocol = crate::parts::protocol(alloc)?;
    let mut seed = 1u64;
    let mut count = 0u64;
    for _done in 0..times {
        let cube = draw(alloc, &protocol, &mut seed)?;
        count = count.wrapping_add(cube.lits.len() as u64);
    }
    Ok(count)
}
