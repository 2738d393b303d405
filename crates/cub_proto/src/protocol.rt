//! Protocols. The type keeps that its parts fit each other, so whoever holds a protocol knows it.

ghost use Rattle.std.specs.Prelude.{◌≡◌, ◌↔◌, All, IsTrue};
ghost use Rattle.std.specs.List.{list_all};
ghost use Rattle.cub_proto.specs.Signature.{signature};
ghost use Rattle.cub_proto.specs.Fits.{counts_fit, sorts_fit, names_are_distinct, global_fits, array_fits, start_fits, goal_fits, transition_fits};

use crate::declared::Declared;
use crate::literal::{Conjs, Lits, Sort};
use crate::transition::Transitions;
use crate::{copies, distinct, parts};
use cub_base::{Items, Memory, Name};
use std::alloc::{AllocError, Global};

/// The constructors of an enumeration, in declared order.
pub type Cons = Items<Name>;

/// An enumeration.
#[derive(Debug, Drop)]
pub struct SortDecl {
    pub name: Name,
    pub cons: Cons,
}

/// A global or an array.
#[derive(Debug, Drop)]
pub struct Decl {
    pub name: Name,
    pub sort: Sort,
}

/// An unsafe conjunction with its number of places.
#[derive(Debug, Drop)]
pub struct Goal {
    pub width: u8,
    pub lits: Lits,
}

pub type SortDecls = Items<SortDecl>;

pub type Decls = Items<Decl>;

pub type Goals = Items<Goal>;

/// A protocol. Sort 0 is `bool`; in `start`, which has at most one conjunction (none means that there is no start
/// state), the place 0 is each process in turn.
#[derive(Debug, Drop)]
pub struct Protocol {
    pub sorts: SortDecls,
    pub globals: Decls,
    pub arrays: Decls,
    pub start: Conjs,
    pub goals: Goals,
    pub transitions: Transitions,
    pub ghost few: { IsTrue (counts_fit sorts globals arrays goals transitions) },
    pub ghost sorts_fit: { IsTrue (sorts_fit sorts) },
    pub ghost distinct: { IsTrue (names_are_distinct sorts globals arrays transitions) },
    pub ghost globals_fit: { All (λ d. IsTrue (global_fits sorts d)) globals },
    pub ghost arrays_fit: { All (λ d. IsTrue (array_fits sorts d)) arrays },
    pub ghost start_fits: { IsTrue (start_fits (signature sorts globals arrays) start) },
    pub ghost goals_fit: { All (λ g. IsTrue (goal_fits (signature sorts globals arrays) g)) goals },
    pub ghost transitions_fit: { All (λ t. IsTrue (transition_fits (signature sorts globals arrays) t)) transitions },
}

/// Why no protocol was made.
#[derive(Clone, Copy, Debug, PartialEq, Eq)]
pub enum NotProtocol {
    /// The parts don't fit each other, or there are too many of something.
    Unfit,
    /// Memory ran out.
    Memory,
}

impl From<AllocError> for NotProtocol {
    ghost use Rattle.std.specs.Prelude.{◌≡◌};
    ghost use Rattle.cub_proto.specs.declared.protocol.NotProtocol.{NotProtocol};

    ghost from_gives = { λ error result. result ≡ NotProtocol.Memory };

    fn from(_error: AllocError) -> NotProtocol {
        NotProtocol::Memory
    }
}

impl Protocol {
    ghost use Rattle.std.specs.Prelude.{◌≡◌, OnOk, IfOk};
    ghost use Rattle.cub_proto.specs.Parts.{AreParts, HasParts};
    ghost use Rattle.cub_proto.specs.StateOf.{signature_of};

    /// The protocol of these parts, where they fit. Names are compared by a set, so that long lists cost no more than
    /// their bytes.
    pub fn try_new(
        alloc: Global,
        sorts: SortDecls,
        globals: Decls,
        arrays: Decls,
        start: Conjs,
        goals: Goals,
        transitions: Transitions,
    ) -> Result<Protocol, NotProtocol>
        ensures ok { OnOk result (AreParts sorts globals arrays start goals transitions) }
        ensures value { IfOk result (λ p. HasParts p sorts globals arrays start goals transitions) }
        ensures unfit { result ≡ Err NotProtocol.Unfit → AreParts sorts globals arrays start goals transitions → ⊥ }
    {
        if !counts_fit(&sorts, &globals, &arrays, &goals, &transitions) {
            return Err(NotProtocol::Unfit);
        }
        if !parts::sorts_fit(sorts.as_slice()) {
            return Err(NotProtocol::Unfit);
        }
        let distinct = distinct::names_are_distinct(
            alloc,
            sorts.as_slice(),
            globals.as_slice(),
            arrays.as_slice(),
            transitions.as_slice(),
        )?;
        if !distinct {
            return Err(NotProtocol::Unfit);
        }
        if !parts::globals_fit(sorts.as_slice(), globals.as_slice()) {
            return Err(NotProtocol::Unfit);
        }
        if !parts::arrays_fit(sorts.as_slice(), arrays.as_slice()) {
            return Err(NotProtocol::Unfit);
        }
        if !start_fits(&sorts, &globals, &arrays, &start) {
            return Err(NotProtocol::Unfit);
        }
        if !goals_fit(&sorts, &globals, &arrays, &goals) {
            return Err(NotProtocol::Unfit);
        }
        if !transitions_fit(&sorts, &globals, &arrays, &transitions) {
            return Err(NotProtocol::Unfit);
        }
        Ok(Protocol {
            sorts,
            globals,
            arrays,
            start,
            goals,
            transitions,
        })
    }

    /// An equal protocol.
    pub fn copy(&self) -> Result<Protocol, Memory>
        ensures { IfOk result (λ p. p ≡ self.now) }
    {
        let alloc = self.sorts.allocator();
        let sorts = copies::copied_sorts(alloc, self.sorts.as_slice())?;
        let globals = copies::copied_decls(alloc, self.globals.as_slice())?;
        let arrays = copies::copied_decls(alloc, self.arrays.as_slice())?;
        let start = copies::copied_conjs(alloc, self.start.as_slice())?;
        let goals = copies::copied_goals(alloc, self.goals.as_slice())?;
        let transitions = copies::copied_transitions(alloc, self.transitions.as_slice())?;
        Ok(Protocol {
            sorts,
            globals,
            arrays,
            start,
            goals,
            transitions,
        })
    }

    /// What the protocol declares, lent.
    pub fn declared(&self) -> Declared<'_>
        ensures { result ≡ signature_of self.now }
    {
        Declared::new(
            self.sorts.as_slice(),
            self.globals.as_slice(),
            self.arrays.as_slice(),
        )
    }
}

fn counts_fit(
    sorts: &SortDecls,
    globals: &Decls,
    arrays: &Decls,
    goals: &Goals,
    transitions: &Transitions,
) -> bool
    ensures { result ≡ counts_fit sorts.now globals.now arrays.now goals.now transitions.now }
{
    parts::counts_fit(
        sorts.as_slice(),
        globals.as_slice(),
        arrays.as_slice(),
        goals.as_slice(),
        transitions.as_slice(),
    )
}

fn start_fits(sorts: &SortDecls, globals: &Decls, arrays: &Decls, start: &Conjs) -> bool
    ensures { result ≡ start_fits (signature sorts.now globals.now arrays.now) start.now }
{
    let declared = Declared::new(sorts.as_slice(), globals.as_slice(), arrays.as_slice());
    parts::start_fits(&declared, start.as_slice())
}

fn all_goals_fit(sorts: &SortDecls, globals: &Decls, arrays: &Decls, goals: &Goals) -> bool
    ensures { result ≡ list_all (goal_fits (signature sorts.now globals.now arrays.now)) goals.now }
{
    let declared = Declared::new(sorts.as_slice(), globals.as_slice(), arrays.as_slice());
    parts::goals_fit(&declared, goals.as_slice())
}

fn goals_fit(sorts: &SortDecls, globals: &Decls, arrays: &Decls, goals: &Goals) -> bool
    ensures { IsTrue result ↔ All (λ g. IsTrue (goal_fits (signature sorts.now globals.now arrays.now) g)) goals.now }
{
    all_goals_fit(sorts, globals, arrays, goals)
}

fn all_transitions_fit(
    sorts: &SortDecls,
    globals: &Decls,
    arrays: &Decls,
    transitions: &Transitions,
) -> bool
    ensures { result ≡ list_all (transition_fits (signature sorts.now globals.now arrays.now)) transitions.now }
{
    let declared = Declared::new(sorts.as_slice(), globals.as_slice(), arrays.as_slice());
    parts::transitions_fit(&declared, transitions.as_slice())
}

fn transitions_fit(
    sorts: &SortDecls,
    globals: &Decls,
    arrays: &Decls,
    transitions: &Transitions,
) -> bool
    ensures { IsTrue result ↔ All (λ t. IsTrue (transition_fits (signature sorts.now globals.now arrays.now) t)) transitions.now }
{
    all_transitions_fit(sorts, globals, arrays, transitions)
}
