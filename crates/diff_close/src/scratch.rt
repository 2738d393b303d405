//! Closing the integer literals of two lists.
//!
//! The terms are numbered first, and then the literals are taken as constraints over these numbers, one after another,
//! each made when it is read. So nothing is stored but the table, of which only the corner of the mentioned terms is
//! touched, and a call takes no memory.

ghost use Rattle.std.specs.Prelude.{◌≡◌, ◌≤◌, [], ◌++◌, List, All, ℤ, pos, ◌-ℤ◌, ◌≤ℤ◌, IfOk, OnOk, OnErr};
ghost use Rattle.cub_proto.specs.declared.literal.Lit.{Lit};
ghost use Rattle.diff_close.specs.Literals.{HasSolution, IsNegativeCycle, IsLeastBound, IsChosen, MentionAtMost, HasSmallBound};
ghost use Rattle.diff_close.specs.Scratch.{IsClosureOf, IsClosed};

use crate::literals::Literals;
use crate::names::{is_same_side, name_all, node};
use cub_base::Memory;
use cub_proto::{ISide, Lit, Term};
use diff_core::{Cycle, Differences};
use std::alloc::Global;
use std::marker::Model;

/// A scratch that closes the integer literals of lists, one after another.
#[derive(Drop)]
pub struct DiffScratch {
    room: usize,
    names: Vec<Term>,
    differences: Differences,
}

impl Model for DiffScratch {
    ghost use Rattle.std.specs.Prelude.{vec_capacity};
    ghost use Rattle.diff_close.specs.Scratch.{Scratch};
    ghost use Rattle.diff_close.specs.IsScratch.{IsScratch};

    ghost Value = { Scratch };

    ghost view = { λ s. record { room = s.room; names = s.names.items; closing = s.differences } };

    ghost invariant = { λ s. IsScratch s.room (vec_capacity s.names) s.names.items };
}

impl DiffScratch {
    /// A scratch for literals that mention at most so many integer terms. Later calls take no memory.
    pub fn new(alloc: Global, terms: u16) -> Result<DiffScratch, Memory>
        requires { terms ≤ 104 }
        ensures { IfOk result (λ scratch. scratch.room ≡ terms) }
    {
        let room = terms as usize;
        let names = Vec::with_capacity(alloc, room)?;
        let differences = Differences::new(alloc)?;
        Ok(DiffScratch {
            room,
            names,
            differences,
        })
    }

    /// Closes the integer literals of both lists; literals of other kinds are passed over.
    pub fn close(&mut self, lits: &[Lit], more: &[Lit]) -> Result<(), Cycle>
        requires terms { MentionAtMost self.old.room (lits.now ++ more.now) }
        requires bounds { All HasSmallBound (lits.now ++ more.now) }
        ensures room { self.new.room ≡ self.old.room }
        ensures closure { OnOk result (IsClosureOf (lits.now ++ more.now) self.new) }
        ensures solved { OnOk result (HasSolution (lits.now ++ more.now)) }
        ensures refuted { OnErr result (HasSolution (lits.now ++ more.now) → ⊥) }
        ensures cycle { OnErr result (IsNegativeCycle (lits.now ++ more.now) self.new.closing.cycle) }
    {
        self.names.clear();
        name_all(&mut self.names, lits);
        name_all(&mut self.names, more);
        let terms = self.names.as_slice();
        let literals = Literals { terms, lits, more };
        self.differences.close(terms.len() + 1, &literals)
    }

    /// After a refusal, the numbers of the literals of the cycle, in its order, counted through both lists.
    pub fn cycle(&self) -> &[u64]
        ensures { result.now ≡ self.now.closing.cycle }
    {
        self.differences.cycle()
    }

    /// The least entailed bound of `a - b`, or None where none is entailed. For use after an `Ok`.
    pub fn bound(&self, a: ISide, b: ISide) -> Option<i64>
        requires { IsClosed self.now }
        ensures { (lits : List Lit) → IsClosureOf lits self.now → IsLeastBound lits a b result }
    {
        let terms = self.names.as_slice();
        let first = node(terms, &a);
        let second = node(terms, &b);
        if is_same_side(&a, &b) {
            return Some(0);
        }
        if first > terms.len() {
            return None;
        }
        if second > terms.len() {
            return None;
        }
        self.differences.bound(first, second)
    }

    /// The chosen solution at a side: the least sum of a path that ends there, less that of zero. For use after an `Ok`.
    pub fn value(&self, a: ISide) -> i64
        requires { IsClosed self.now }
        ensures chosen { (lits : List Lit) → IsClosureOf lits self.now → IsChosen lits a result }
        ensures at_least { (pos 0 -ℤ result) ≤ℤ pos 29554872554618880 }
        ensures at_most { result ≤ℤ pos 29554872554618880 }
    {
        let terms = self.names.as_slice();
        let here = node(terms, &a);
        let zero = self.differences.least_sum(0);
        if here > terms.len() {
            return 0 - zero;
        }
        self.differences.least_sum(here) - zero
    }
}
