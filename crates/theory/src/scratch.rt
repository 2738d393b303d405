//! The scratch of the theory of literals. It is made once for a protocol, and holds all tables that the calls need, so
//! that none of them takes memory. The start literals are kept at the places 0 to 10, place by place, so that those of
//! the first places are a part of one slice.

ghost use Rattle.std.specs.Prelude.{◌≡◌, [], ◌∷◌, MatchOption, ◌+◌, ◌-◌, ◌*◌, ◌^◌, ◌++◌, ◌↔◌, min, List, length, map, IfOk, IsTrue};
ghost use Rattle.std.specs.List.{flat_map, range_with_len, list_all};
ghost use Rattle.cub_proto.specs.declared.literal.Lit.{Lit};
ghost use Rattle.cub_cube.specs.Rename.{renamed_all, is_within};
ghost use Rattle.theory_laws.specs.Start.{has_start, at_each_place, start_at, start_of};
ghost use Rattle.theory.specs.Theory.{Theory};
ghost use Rattle.theory.specs.Made.{IsFor, start_size};

use cub_base::{Items, Memory};
use cub_cube::renamed;
use cub_proto::{Lit, Lits, Protocol};
use diff_close::DiffScratch;
use fin_dom::FinScratch;
use proc_eq::ProcScratch;
use std::alloc::{AllocError, Global};
use std::marker::Model;

/// The greatest width of a conjunction.
pub const GREATEST_WIDTH: u8 = 11;

/// Tables for deciding literals, made for one protocol. It also counts covering tests.
#[derive(Drop)]
pub struct Scratch {
    pub(crate) has_start: bool,
    pub(crate) each: usize,
    pub(crate) start: Vec<Lit>,
    pub(crate) tests: u64,
    pub(crate) domains: FinScratch,
    pub(crate) masks: FinScratch,
    pub(crate) classes: ProcScratch,
    pub(crate) trial: ProcScratch,
    pub(crate) integers: DiffScratch,
}

impl Model for Scratch {
    ghost use Rattle.theory.specs.Theory.{Theory};

    ghost Value = { Theory };

    ghost view = { λ s. record { has_start = s.has_start; each = s.each; start = s.start.items; tests = s.tests; domains = s.domains; masks = s.masks; classes = s.classes; trial = s.trial; integers = s.integers } };
}

// Appends the literals at place q.
fn push_at(all: &mut Lits, conj: &[Lit], q: u8) -> Result<(), AllocError>
    requires { IsTrue (list_all (is_within 1) conj.now) }
    ensures { IfOk result (λ _. all.new ≡ all.old ++ renamed_all (q ∷ []) conj.now) }
{
    let places = [q];
    for lit in conj {
        all.push(renamed(&places, lit))?;
    }
    Ok(())
}

// The literals at each of the places 0 to 10.
fn at_all_places(alloc: Global, conj: &[Lit]) -> Result<Lits, AllocError>
    requires { IsTrue (list_all (is_within 1) conj.now) }
    ensures { IfOk result (λ all. all ≡ at_each_place conj.now 11) }
{
    let mut all = Items::new(alloc);
    for q in 0..GREATEST_WIDTH {
        push_at(&mut all, conj, q)?;
    }
    Ok(all)
}

// The literals of the start conjunction, if there is one.
fn start_literals(protocol: &Protocol) -> Option<&Lits>
    ensures { MatchOption result (protocol.now.start ≡ []) (λ conj. (more : List (List Lit)) × (protocol.now.start ≡ conj.now ∷ more)) }
{
    protocol.start.get(0)
}

impl Scratch {
    ghost use Rattle.std.specs.Prelude.{◌≡◌, ◌+◌, min};
    ghost use Rattle.theory.specs.Made.{IsFor};

    /// A scratch for conjunctions over the protocol. Later calls take no memory, but for those that make a state.
    pub fn new(alloc: Global, protocol: &Protocol) -> Result<Scratch, Memory>
        ensures made { IfOk result (λ s. IsFor protocol.now s) }
        ensures count { IfOk result (λ s. s.tests ≡ 0) }
    {
        let terms = 64 + 16 * protocol.arrays.len() as u16;
        let start = all_start_literals(alloc, protocol)?;
        Ok(Scratch {
            has_start: !protocol.start.is_empty(),
            each: start_size(protocol),
            start: start.into_vec(),
            tests: 0,
            domains: FinScratch::new(alloc, terms)?,
            masks: FinScratch::new(alloc, terms)?,
            classes: ProcScratch::new(alloc)?,
            trial: ProcScratch::new(alloc)?,
            integers: DiffScratch::new(alloc, 104)?,
        })
    }

    /// The number of covering tests that were counted.
    pub fn tests(&self) -> u64
        ensures { result ≡ self.now.tests }
    {
        self.tests
    }

    /// Counts a covering test. The count stands still at the greatest u64.
    pub fn tick(&mut self)
        ensures { self.new ≡ record self.old { tests = min (self.old.tests + 1) (2 ^ 64 - 1) } }
    {
        self.tests = self.tests.saturating_add(1);
    }
}

// The number of literals of the start conjunction.
fn start_size(protocol: &Protocol) -> usize
    ensures { result ≡ start_size protocol.now.start }
{
    match start_literals(protocol) {
        Some(conj) => conj.len(),
        None => 0,
    }
}

// The start literals at each of the places 0 to 10.
fn all_start_literals(alloc: Global, protocol: &Protocol) -> Result<Lits, AllocError>
    ensures { IfOk result (λ all. all ≡ start_at protocol.now 11) }
{
    match start_literals(protocol) {
        Some(conj) => at_all_places(alloc, conj.as_slice()),
        None => Ok(Items::new(alloc)),
    }
}
