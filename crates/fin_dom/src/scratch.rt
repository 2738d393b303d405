//! The scratch of finite terms: made once, then used for any number of conjunctions. A call costs a write of the whole
//! table, a pass over the literals, and two passes over the links; only open links are searched.

ghost use Rattle.std.specs.Prelude.{◌≡◌, ◌++◌, ◌↔◌, ◌-◌, ◌^◌, List, length, replicate, slice_index, All, IsTrue, false, IfOk};
ghost use Rattle.cub_proto.specs.StateOf.{signature_of};
ghost use Rattle.fin_dom.specs.Solution.{HasSolution, IsLeastSolution};
ghost use Rattle.fin_dom.specs.Table.{con_of, terms_fit, has_entry, number_of};
ghost use Rattle.fin_dom.specs.Gathered.{AreGathered};
ghost use Rattle.fin_dom.specs.Links.{AreMasks, link_fits, Narrows, IsRefuted};

use crate::gather::{clear, gather};
use crate::narrow::narrow_all;
use crate::search::search;
use crate::{bits, terms};
use cub_base::{Items, Memory};
use cub_proto::{Lit, Protocol, Term};
use std::alloc::Global;
use std::marker::Model;

// Narrows by the links of both lists. False where nothing is left to some term.
fn narrow_both(masks: &mut [u64], lits: &[Lit], more: &[Lit]) -> bool
    requires masks { AreMasks masks.old }
    requires fit { All (λ lit. IsTrue (link_fits (length masks.old) lit)) lits.now }
    requires more_fit { All (λ lit. IsTrue (link_fits (length masks.old) lit)) more.now }
    ensures size { length masks.new ≡ length masks.old }
    ensures narrows { IsTrue result → Narrows (lits.now ++ more.now) masks.old masks.new }
    ensures none { result ≡ false → IsRefuted (lits.now ++ more.now) masks.old }
{
    if !narrow_all(masks, lits) {
        return false;
    }
    narrow_all(masks, more)
}

// Fills the table. True where some constructors satisfy the literals: then the table tells the least.
fn fill(protocol: &Protocol, masks: &mut [u64], lits: &[Lit], more: &[Lit]) -> bool
    requires fit { All (λ lit. IsTrue (terms_fit (signature_of protocol.now) (length masks.old) lit)) lits.now }
    requires more_fit { All (λ lit. IsTrue (terms_fit (signature_of protocol.now) (length masks.old) lit)) more.now }
    ensures size { length masks.new ≡ length masks.old }
    ensures exact { IsTrue result ↔ HasSolution (signature_of protocol.now) (lits.now ++ more.now) }
    ensures least { IsTrue result → IsLeastSolution (signature_of protocol.now) (lits.now ++ more.now) (con_of masks.new) }
{
    clear(masks);
    if !gather(protocol, masks, lits) {
        return false;
    }
    if !gather(protocol, masks, more) {
        return false;
    }
    if !narrow_both(masks, lits, more) {
        return false;
    }
    if !narrow_both(masks, lits, more) {
        return false;
    }
    search(masks, 0, lits, more)
}

// Fills the table with what each literal says of a term alone. False where that leaves nothing to a term.
fn fill_domains(protocol: &Protocol, masks: &mut [u64], lits: &[Lit]) -> bool
    requires { All (λ lit. IsTrue (terms_fit (signature_of protocol.now) (length masks.old) lit)) lits.now }
    ensures size { length masks.new ≡ length masks.old }
    ensures gathered { IsTrue result → AreGathered (signature_of protocol.now) lits.now masks.new }
    ensures none { result ≡ false → HasSolution (signature_of protocol.now) lits.now → ⊥ }
{
    let table = masks;
    clear(table);
    gather(protocol, table, lits)
}

/// Masks of the constructors that are left to the terms of the last call of `solve` or `gather`.
#[derive(Debug, Drop)]
pub struct FinScratch {
    masks: Vec<u64>,
}

impl Model for FinScratch {
    ghost use Rattle.std.specs.Prelude.{List, ℕ};

    ghost Value = { List ℕ };

    ghost view = { λ s. s.masks.items };
}

impl FinScratch {
    /// A scratch for terms with numbers below `terms`: global `g` has number `g`, and the cell of array `a` at place `p`
    /// has number `64 + 16 a + p`. All bits are left to each number.
    pub fn new(alloc: Global, terms: u16) -> Result<FinScratch, Memory>
        ensures { IfOk result (λ masks. masks ≡ replicate terms (2 ^ 64 - 1)) }
    {
        let masks = Items::filled(alloc, u64::MAX, terms as usize)?;
        Ok(FinScratch {
            masks: masks.into_vec(),
        })
    }

    /// Whether the finite literals of both lists have a solution. Where they do, `con` then gives the least one; else
    /// what it gives has no use.
    pub fn solve(&mut self, protocol: &Protocol, lits: &[Lit], more: &[Lit]) -> bool
        requires fit { All (λ lit. IsTrue (terms_fit (signature_of protocol.now) (length self.old) lit)) lits.now }
        requires more_fit { All (λ lit. IsTrue (terms_fit (signature_of protocol.now) (length self.old) lit)) more.now }
        ensures made { length self.new ≡ length self.old }
        ensures exact { IsTrue result ↔ HasSolution (signature_of protocol.now) (lits.now ++ more.now) }
        ensures least { IsTrue result → IsLeastSolution (signature_of protocol.now) (lits.now ++ more.now) (con_of self.new) }
    {
        fill(protocol, self.masks.as_mut_slice(), lits, more)
    }

    /// Takes in what the literals say of each term alone: memberships, and that the terms of equalities and disequalities
    /// have constructors of their sorts. False where that leaves nothing to a term.
    pub fn gather(&mut self, protocol: &Protocol, lits: &[Lit]) -> bool
        requires { All (λ lit. IsTrue (terms_fit (signature_of protocol.now) (length self.old) lit)) lits.now }
        ensures made { length self.new ≡ length self.old }
        ensures gathered { IsTrue result → AreGathered (signature_of protocol.now) lits.now self.new }
        ensures none { result ≡ false → HasSolution (signature_of protocol.now) lits.now → ⊥ }
    {
        fill_domains(protocol, self.masks.as_mut_slice(), lits)
    }

    /// What is left to the term.
    pub fn left(&self, term: Term) -> u64
        requires { IsTrue (has_entry (length self.now) term) }
        ensures { result ≡ slice_index self.now (number_of term) }
    {
        self.masks[terms::number(term)]
    }

    /// The least constructor that is left to the term: that of the least solution after `solve` was true, so 0 for a term
    /// that no literal mentions.
    pub fn con(&self, term: Term) -> u8
        ensures { result ≡ con_of self.now term }
    {
        if !terms::has_entry(self.masks.len(), term) {
            return 0;
        }
        bits::low(self.masks[terms::number(term)])
    }
}
