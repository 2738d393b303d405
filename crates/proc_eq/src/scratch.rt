//! The scratch of equality of processes: made once, then used for any number of conjunctions. A call costs a pass over
//! the literals, and a pass over 75 labels for each equality that is new.

ghost use Rattle.std.specs.Prelude.{◌≡◌, ◌≤◌, ◌++◌, ◌↔◌, [], List, All, IsTrue, false, IfOk};
ghost use Rattle.cub_proto.specs.declared.literal.Lit.{Lit};
ghost use Rattle.proc_eq.specs.Solution.{side_fits, sides_fit, HasSolution, Forces};

use crate::{choice, labels};
use cub_base::Memory;
use cub_proto::{Lit, PSide};
use std::alloc::Global;
use std::marker::Model;

/// The classes of sides that the literals of the last call of `close` force to be one process.
#[derive(Debug, Drop)]
pub struct ProcScratch {
    width: u8,
    labels: Vec<u8>,
    processes: Vec<u8>,
}

impl Model for ProcScratch {
    ghost use Rattle.std.specs.Prelude.{◌≡◌, length};
    ghost use Rattle.proc_eq.specs.Classes.{Classes};

    ghost Value = { Classes };

    ghost view = { λ s. record { width = s.width; labels = s.labels.items; processes = s.processes.items } };

    ghost invariant = { λ s. (length s.labels.items ≡ 75) × (length s.processes.items ≡ 75) };
}

impl ProcScratch {
    ghost use Rattle.proc_eq.specs.Classes.{entry_of, IsClosureOf};
    ghost use Rattle.proc_eq.specs.Choice.{IsLeastChoice};

    /// A scratch that holds the classes of no literals over no places.
    pub fn new(alloc: Global) -> Result<ProcScratch, Memory>
        ensures { IfOk result (IsClosureOf []) }
    {
        let mut table = vec![in alloc; 0u8; 75]?;
        labels::reset(&mut table);
        let processes = vec![in alloc; 0u8; 75]?;
        Ok(ProcScratch {
            width: 0,
            labels: table,
            processes,
        })
    }

    /// Whether the process literals of both lists hold for some processes, distinct ones at the places below `width`.
    /// Where they do, the scratch then holds their classes; else it holds no classes of use.
    pub fn close(&mut self, lits: &[Lit], more: &[Lit], width: u8) -> bool
        requires narrow { width ≤ 11 }
        requires fit { All (λ lit. IsTrue (sides_fit width lit)) lits.now }
        requires more_fit { All (λ lit. IsTrue (sides_fit width lit)) more.now }
        ensures width { self.new.width ≡ width }
        ensures exact { IsTrue result ↔ HasSolution width (lits.now ++ more.now) }
        ensures closed { IsTrue result → IsClosureOf (lits.now ++ more.now) self.new }
    {
        self.width = width;
        labels::close(self.labels.as_mut_slice(), width, lits, more)
    }

    /// Whether the literals force the two sides to be one process.
    pub fn same(&self, a: PSide, b: PSide) -> bool
        requires a_fits { IsTrue (side_fits 11 a) }
        requires b_fits { IsTrue (side_fits 11 b) }
        ensures { (lits : List Lit) → IsClosureOf lits self.now → IsTrue result ↔ Forces self.now.width lits a b }
    {
        labels::entry(self.labels.as_slice(), a) == labels::entry(self.labels.as_slice(), b)
    }

    /// Chooses a process for each side: its own number for a place, and else, class by class in the order of the
    /// globals, the least process that no disequality forbids. `lits` and `more` are the lists that were closed.
    pub fn choose(&mut self, lits: &[Lit], more: &[Lit])
        requires closed { IsClosureOf (lits.now ++ more.now) self.old }
        requires narrow { self.old.width ≤ 11 }
        requires fit { All (λ lit. IsTrue (sides_fit self.old.width lit)) lits.now }
        requires more_fit { All (λ lit. IsTrue (sides_fit self.old.width lit)) more.now }
        ensures width { self.new.width ≡ self.old.width }
        ensures labels { self.new.labels ≡ self.old.labels }
        ensures chosen { IsLeastChoice self.new.width (lits.now ++ more.now) (entry_of self.new.processes) }
    {
        choice::choose(
            self.labels.as_slice(),
            self.processes.as_mut_slice(),
            lits,
            more,
        );
    }

    /// The process that was chosen for the side.
    pub fn process(&self, side: PSide) -> u8
        requires { IsTrue (side_fits 11 side) }
        ensures { result ≡ entry_of self.now.processes side }
    {
        labels::entry(self.processes.as_slice(), side)
    }
}
