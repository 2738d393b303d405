//! Covering of one cube by another. The big cube names what stands at each place of the small one, in the other order, so
//! that the injection that is found is the last of all.

ghost use Rattle.std.specs.Prelude.{◌≤◌};

use crate::failed::Failed;
use crate::fitting::{are_fitting, is_askable};
use crate::parts::protocol;
use cub_base::Items;
use cub_cube::Cube;
use cub_proto::{Lit, Lits, Term};
use std::alloc::{AllocError, Global};
use theory::Scratch;

// At the place, the two first arrays have the constructors that tell which of eight it is, or may have one more.
fn push_at(lits: &mut Lits, place: u8, told: u8, more: u64) -> Result<(), AllocError> {
    lits.push(Lit::FinIn {
        term: Term::Cell(0, place),
        mask: (1u64 << (told % 4)) | more,
    })?;
    lits.push(Lit::FinIn {
        term: Term::Cell(1, place),
        mask: 1u64 << (told / 4 % 4),
    })?;
    Ok(())
}

// Each place tells its own number.
fn small(alloc: Global, places: u8) -> Result<Lits, AllocError> {
    let mut lits = Items::new(alloc);
    for place in 0..places {
        push_at(&mut lits, place, place, 0)?;
    }
    Ok(lits)
}

// Each place tells the number of its opposite.
fn big(alloc: Global, places: u8) -> Result<Lits, AllocError> {
    let mut lits = Items::new(alloc);
    for place in 0..places {
        push_at(&mut lits, place, places - 1 - place, 8)?;
    }
    Ok(lits)
}

/// Asks whether a cube of so many places covers another; counts how often it does.
pub fn covers(alloc: Global, places: u8, times: u32) -> Result<u64, Failed> {
    let protocol = protocol(alloc)?;
    let big_lits = big(alloc, places)?;
    let big = Cube::of(alloc, &protocol, places, big_lits.as_slice())?;
    let small_lits = small(alloc, places)?;
    let small = Cube::of(alloc, &protocol, places, small_lits.as_slice())?;
    if !is_askable(&protocol, &big) {
        return Err(Failed::Size);
    }
    if !are_fitting(&protocol, small.width, small.lits.as_slice()) {
        return Err(Failed::Size);
    }
    let mut scratch = Scratch::new(alloc, &protocol)?;
    let mut count = 0u64;
    for _done in 0..times {
        let found = subsume::covers(&mut scratch, &protocol, &big, &small).is_some();
        count = count.wrapping_add(u64::from(found));
    }
    Ok(count)
}
