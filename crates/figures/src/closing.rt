//! The closures by themselves: integer differences and finite terms.

ghost use Rattle.std.specs.Prelude.{◌≡◌, length};
ghost use Rattle.theory_laws.specs.Fitting.{AreFitting, term_numbers};

use crate::failed::Failed;
use crate::fitting::are_fitting;
use crate::literals::{Kind, conjunction, steps};
use crate::parts::protocol;
use cub_proto::{Lit, Protocol};
use diff_close::DiffScratch;
use fin_dom::FinScratch;
use std::alloc::Global;

// Whether the literals close.
fn closes(protocol: &Protocol, scratch: &mut DiffScratch, lits: &[Lit]) -> bool
    requires room { scratch.old.room ≡ 104 }
    requires fitting { AreFitting protocol.now 11 lits.now }
    ensures { scratch.new.room ≡ 104 }
{
    let _protocol = protocol;
    scratch.close(&[], lits).is_ok()
}

/// Closes the steps of so many integer terms; counts how often they have a solution.
pub fn close(alloc: Global, terms: u8, times: u32) -> Result<u64, Failed> {
    let protocol = protocol(alloc)?;
    let lits = steps(alloc, terms)?;
    if !are_fitting(&protocol, 11, lits.as_slice()) {
        return Err(Failed::Size);
    }
    let mut scratch = DiffScratch::new(alloc, 104)?;
    let mut count = 0u64;
    for _done in 0..times {
        count = count.wrapping_add(u64::from(closes(&protocol, &mut scratch, lits.as_slice())));
    }
    Ok(count)
}

// Whether the literals have a solution.
fn solves(protocol: &Protocol, scratch: &mut FinScratch, lits: &[Lit]) -> bool
    requires size { length scratch.old ≡ term_numbers protocol.now }
    requires fitting { AreFitting protocol.now 11 lits.now }
    ensures { length scratch.new ≡ length scratch.old }
{
    scratch.solve(protocol, lits, &[])
}

/// Solves the conjunction of that kind over so many finite terms; counts how often it has a solution.
pub fn solve(alloc: Global, kind: Kind, terms: u8, times: u32) -> Result<u64, Failed> {
    let protocol = protocol(alloc)?;
    let lits = conjunction(alloc, kind, terms)?;
    if !are_fitting(&protocol, 11, lits.as_slice()) {
        return Err(Failed::Size);
    }
    let mut scratch = FinScratch::new(alloc, 64 + 16 * protocol.arrays.len() as u16)?;
    let mut count = 0u64;
    for _done in 0..times {
        count = count.wrapping_add(u64::from(solves(&protocol, &mut scratch, lits.as_slice())));
    }
    Ok(count)
}
