//! The terms that literals mention, in order. The list is short, so a new term's place is found by going through it.

ghost use Rattle.std.specs.Prelude.{◌≡◌, ◌≢◌, ℕ, ◌<◌, ◌≤◌, length, slice_index_or, fold, false, IsTrue, IfOk, OnOk};
ghost use Rattle.cub_proto.specs.Order.{term_cmp};
ghost use Rattle.cub_cube.specs.Mentions.{process_side_terms, integer_side_terms, terms_of, with_term, terms_in};

use cub_base::{Items, Memory};
use cub_proto::{ISide, Lit, PSide, Term};
use std::alloc::{AllocError, Global};
use std::cmp::Ordering;

fn place_of(terms: &[Term], term: Term) -> usize
    ensures within { result ≤ length terms.now }
    ensures before { (k : ℕ) → k < result → term_cmp term (slice_index_or terms.now k term) ≡ Ordering.Greater }
    ensures at { result < length terms.now → term_cmp term (slice_index_or terms.now result term) ≢ Ordering.Greater }
{
    for (place, other) in terms.iter().enumerate() {
        if cub_proto::compare_terms(term, *other) != Ordering::Greater {
            return place;
        }
    }
    terms.len()
}

fn stands_at(terms: &[Term], place: usize, term: Term) -> bool
    ensures there { IsTrue result → place < length terms.now }
    ensures same { IsTrue result → slice_index_or terms.now place term ≡ term }
    ensures other { result ≡ false → place < length terms.now → slice_index_or terms.now place term ≢ term }
{
    place < terms.len() && terms[place] == term
}

fn add_term(terms: &mut Vec<Term>, term: Term) -> Result<(), AllocError>
    ensures { OnOk result (terms.new.items ≡ with_term terms.old.items term) }
{
    let place = place_of(terms.as_slice(), term);
    if stands_at(terms.as_slice(), place, term) {
        return Ok(());
    }
    terms.insert(place, term)?;
    Ok(())
}

fn add_process_side(terms: &mut Vec<Term>, side: PSide) -> Result<(), AllocError>
    ensures { OnOk result (terms.new.items ≡ fold with_term terms.old.items (process_side_terms side)) }
{
    match side {
        PSide::Global(global) => add_term(terms, Term::Global(global)),
        PSide::Place(_) => Ok(()),
    }
}

fn add_integer_side(terms: &mut Vec<Term>, side: ISide) -> Result<(), AllocError>
    ensures { OnOk result (terms.new.items ≡ fold with_term terms.old.items (integer_side_terms side)) }
{
    match side {
        ISide::Zero => Ok(()),
        ISide::At(term) => add_term(terms, term),
    }
}

fn add_terms_of(terms: &mut Vec<Term>, lit: &Lit) -> Result<(), AllocError>
    ensures { OnOk result (terms.new.items ≡ fold with_term terms.old.items (terms_of lit.now)) }
{
    match *lit {
        Lit::FinIn { term, .. } => add_term(terms, term),
        Lit::FinEq { a, b } | Lit::FinNe { a, b } => {
            add_term(terms, a)?;
            add_term(terms, b)
        }
        Lit::ProcEq { a, b } | Lit::ProcNe { a, b } => {
            add_process_side(terms, a)?;
            add_process_side(terms, b)
        }
        Lit::Diff { a, b, .. } => {
            add_integer_side(terms, a)?;
            add_integer_side(terms, b)
        }
    }
}

/// The terms that the literals mention, rising, each once. A process global is a term, a place is none.
pub fn terms_in(alloc: Global, lits: &[Lit]) -> Result<Items<Term>, Memory>
    ensures { IfOk result (λ terms. terms ≡ terms_in lits.now) }
{
    let mut terms = Vec::new(alloc);
    for lit in lits {
        add_terms_of(&mut terms, lit)?;
    }
    Ok(Items::from_vec(terms))
}
