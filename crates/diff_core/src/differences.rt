//! Closing a list of constraints: its closure, or a cycle with a negative sum.

ghost use Rattle.std.specs.Prelude.{◌≡◌, ◌<◌, ◌≤◌, List, [], ℤ, pos, ◌-ℤ◌, ◌≤ℤ◌, OnOk, OnErr, IfOk};
ghost use Rattle.diff_core.specs.declared.constraint.Constraint.{Constraint};
ghost use Rattle.diff_core.specs.Constraints.{AreInRange, HasSolution, IsNegativeCycle, AreProper, IsLeastBound, IsLeastSum};
ghost use Rattle.diff_core.specs.Table.{IsClosureOf};

use crate::closure::Closure;
use crate::constraint::Constraints;
use crate::search::CycleFinder;
use cub_base::Memory;
use std::alloc::Global;
use std::marker::Model;

/// No integers satisfy the constraints.
#[derive(Clone, Copy, Debug, PartialEq, Eq)]
pub struct Cycle;

/// A scratch that closes lists of constraints, one after another.
#[derive(Drop)]
pub struct Differences {
    closure: Closure,
    finder: CycleFinder,
}

impl Model for Differences {
    ghost use Rattle.diff_core.specs.Closing.{Closing};

    ghost Value = { Closing };

    ghost view = { λ s. record { table = s.closure; cycle = s.finder } };
}

impl Differences {
    /// Later calls take no memory.
    pub fn new(alloc: Global) -> Result<Differences, Memory>
        ensures { IfOk result (λ scratch. (scratch.table.nodes ≡ 0) × (scratch.cycle ≡ [])) }
    {
        let closure = Closure::new(alloc)?;
        let finder = CycleFinder::new(alloc)?;
        Ok(Differences { closure, finder })
    }

    /// Closes a list of constraints over this many nodes.
    pub fn close<C: Constraints>(&mut self, nodes: usize, constraints: &C) -> Result<(), Cycle>
        requires few { nodes ≤ 105 }
        requires range { AreInRange nodes (C.list constraints.now) }
        ensures nodes { self.new.table.nodes ≡ nodes }
        ensures closure { OnOk result (IsClosureOf (C.list constraints.now) self.new.table) }
        ensures solved { OnOk result (HasSolution (C.list constraints.now)) }
        ensures refuted { OnErr result (HasSolution (C.list constraints.now) → ⊥) }
        ensures cycle { OnErr result (IsNegativeCycle (C.list constraints.now) self.new.cycle) }
        ensures proper { OnErr result (AreProper (C.list constraints.now) self.new.cycle) }
    {
        self.closure.reset(nodes);
        let taken = self.closure.take_all(constraints);
        if taken == constraints.count() {
            return Ok(());
        }
        self.finder.find(&self.closure, constraints, taken);
        Err(Cycle)
    }

    /// The numbers of the constraints of the cycle, in its order, after a refusal.
    pub fn cycle(&self) -> &[u64]
        ensures { result.now ≡ self.now.cycle }
    {
        self.finder.cycle()
    }

    /// The least entailed bound of `a - b`, or None where none is entailed.
    pub fn bound(&self, a: usize, b: usize) -> Option<i64>
        requires a_in { a < self.now.table.nodes }
        requires b_in { b < self.now.table.nodes }
        ensures { (cs : List Constraint) → IsClosureOf cs self.now.table → IsLeastBound cs a b result }
    {
        self.closure.bound(a, b)
    }

    /// The least sum of a path that ends at node `a`.
    pub fn least_sum(&self, a: usize) -> i64
        requires { a < self.now.table.nodes }
        ensures least { (cs : List Constraint) → IsClosureOf cs self.now.table → IsLeastSum cs a result }
        ensures at_most { result ≤ℤ pos 0 }
        ensures at_least { (pos 0 -ℤ result) ≤ℤ pos 29554872554618880 }
    {
        self.closure.least_sum(a)
    }
}
