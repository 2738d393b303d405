//! The closure of difference constraints, one constraint at a time.
//!
//! A table has for each two nodes the least bound of their difference that the constraints so far entail. One more
//! constraint `a - b <= d` is passed over where the table entails it, is a contradiction where the way back from a
//! to b makes a negative cycle with it, and else lowers each entry i, j to the way over it, where that is less. No
//! row or column that the step reads changes in it, so it is done in place. The cost is the square of the number of
//! nodes for each constraint that lowers something, and one look-up for each other one. Of the large table only the
//! corner of the nodes in use is ever touched.
//!
//! (Incremental transitive closure with least sums: the inner step of Floyd's and Warshall's algorithm.)

ghost use Rattle.std.specs.Prelude.{◌≡◌, ◌≢◌, ℕ, ◌+◌, ◌*◌, ◌<◌, ◌≤◌, ◌⊎◌, ℤ, pos, ◌+ℤ◌, ◌-ℤ◌, ◌≤ℤ◌, ◌<ℤ◌, List, [], ◌∷◌, ◌++◌, length, take, IsTrue, false, slice_index_or, IfOk};
ghost use Rattle.diff_core.specs.declared.constraint.Constraint.{Constraint};
ghost use Rattle.diff_core.specs.Constraints.{constraint_at, AreInRange, HasSolution, IsLeastBound, IsLeastSum};
ghost use Rattle.diff_core.specs.Table.{cell, far, IsClosureOf, IsFresh, IsNear, ClosesNegative, IsTable};
ghost use Rattle.diff_core.specs.Relaxes.{Lowers, Relaxes, Step};

use crate::constraint::{Constraint, Constraints};
use cub_base::Memory;
use std::alloc::Global;
use std::marker::Model;

/// The most nodes that a table has room for.
pub const NODES: usize = 105;

/// No bound: above each sum of bounds.
pub(crate) const FAR: i64 = 1152921504606846976;

/// The least entailed bounds of the differences of up to 105 nodes.
#[derive(Drop)]
pub struct Closure {
    nodes: usize,
    entries: Vec<i64>,
}

impl Model for Closure {
    ghost use Rattle.diff_core.specs.Table.{Table, IsTable};

    ghost Value = { Table };

    ghost view = { λ s. record { nodes = s.nodes; entries = s.entries.items } };

    ghost invariant = { λ s. IsTable s.nodes s.entries.items };
}

impl Closure {
    // The rows of the table.
    pub(crate) fn entries(&self) -> &[i64]
        ensures entries { result.now ≡ self.now.entries }
        ensures table { IsTable self.now.nodes self.now.entries }
    {
        let _ = &self.nodes;
        &self.entries
    }

    // How many nodes the table has.
    pub(crate) fn nodes(&self) -> usize
        ensures { result ≡ self.now.nodes }
    {
        self.nodes
    }

    /// A table with no nodes. Later calls take no memory.
    pub fn new(alloc: Global) -> Result<Closure, Memory>
        ensures { IfOk result (λ t. t.nodes ≡ 0) }
    {
        let entries = vec![in alloc; 0; NODES * NODES]?;
        Ok(Closure { nodes: 0, entries })
    }

    /// Begins anew with this many nodes, and no constraint.
    pub fn reset(&mut self, nodes: usize)
        requires { nodes ≤ 105 }
        ensures nodes { self.new.nodes ≡ nodes }
        ensures closure { IsClosureOf [] self.new }
    {
        clear(&mut self.entries, nodes);
        self.nodes = nodes;
    }

    /// Takes one constraint more, or says that it contradicts those so far, and then leaves the table as it is.
    pub fn take(&mut self, con: &Constraint) -> bool
        requires left_in { con.now.left < self.old.nodes }
        requires right_in { con.now.right < self.old.nodes }
        requires at_least { (pos 0 -ℤ con.now.bound) ≤ℤ pos 281474976710656 }
        requires at_most { con.now.bound ≤ℤ pos 281474976710656 }
        ensures nodes { self.new.nodes ≡ self.old.nodes }
        ensures taken { IsTrue result → (cs : List Constraint) → IsClosureOf cs self.old → IsClosureOf (cs ++ con.now ∷ []) self.new }
        ensures refuted { result ≡ false → (cs : List Constraint) → IsClosureOf cs self.old → HasSolution (cs ++ con.now ∷ []) → ⊥ }
        ensures kept { result ≡ false → self.new ≡ self.old }
        ensures near { result ≡ false → IsNear self.old con.now }
        ensures negative { result ≡ false → ClosesNegative self.old con.now }
    {
        if entry(&self.entries, con.left, con.right) <= con.bound {
            return true;
        }
        if is_cycle(entry(&self.entries, con.right, con.left), con.bound) {
            return false;
        }
        relax(&mut self.entries, self.nodes, con);
        true
    }

    /// Takes constraints in order, as far as none contradicts those before it, and answers how many it has taken.
    pub fn take_all<C: Constraints>(&mut self, constraints: &C) -> usize
        requires empty { IsClosureOf [] self.old }
        requires range { AreInRange self.old.nodes (C.list constraints.now) }
        ensures nodes { self.new.nodes ≡ self.old.nodes }
        ensures count { result ≤ length (C.list constraints.now) }
        ensures taken { IsClosureOf (take result (C.list constraints.now)) self.new }
        ensures near { result < length (C.list constraints.now) → IsNear self.new (constraint_at (C.list constraints.now) result) }
        ensures negative { result < length (C.list constraints.now) → ClosesNegative self.new (constraint_at (C.list constraints.now) result) }
    {
        let count = constraints.count();
        for k in 0..count {
            let con = constraints.get(k);
            if !self.take(&con) {
                return k;
            }
        }
        count
    }

    /// The least entailed bound of `a - b`, or None where none is entailed.
    pub fn bound(&self, a: usize, b: usize) -> Option<i64>
        requires a_in { a < self.now.nodes }
        requires b_in { b < self.now.nodes }
        ensures { (cs : List Constraint) → IsClosureOf cs self.now → IsLeastBound cs a b result }
    {
        let least = entry(&self.entries, a, b);
        if least < FAR { Some(least) } else { None }
    }

    /// The least sum of a path that ends at node `a`.
    pub fn least_sum(&self, a: usize) -> i64
        requires { a < self.now.nodes }
        ensures least { (cs : List Constraint) → IsClosureOf cs self.now → IsLeastSum cs a result }
        ensures at_most { result ≤ℤ pos 0 }
        ensures at_least { (pos 0 -ℤ result) ≤ℤ pos 29554872554618880 }
    {
        row_least(&self.entries, self.nodes, a)
    }
}

// Entry i, j.
pub(crate) fn entry(entries: &[i64], i: usize, j: usize) -> i64
    requires size { length entries.now ≡ 11025 }
    requires i_in { i < 105 }
    requires j_in { j < 105 }
    ensures { result ≡ cell entries.now i j }
{
    entries[i * NODES + j]
}

// Entry `at` falls to `first` and entry `from` together, where that is less.
fn lower(entries: &mut [i64], at: usize, from: usize, first: i64)
    requires at_in { at < length entries.old }
    requires from_in { from < length entries.old }
    requires at_least { (pos 0 -ℤ first) ≤ℤ far }
    requires at_most { first ≤ℤ far }
    requires rest_at_least { (pos 0 -ℤ slice_index_or entries.old from (pos 0)) ≤ℤ far }
    ensures lowers { Lowers (slice_index_or entries.old at (pos 0)) (slice_index_or entries.new at (pos 0)) first (slice_index_or entries.old from (pos 0)) }
    ensures others { (k : ℕ) → k ≢ at → slice_index_or entries.new k (pos 0) ≡ slice_index_or entries.old k (pos 0) }
{
    let rest = entries[from];
    if rest < FAR {
        let sum = first + rest;
        if sum < entries[at] {
            entries[at] = sum;
        }
    }
}

// Lowers row `i` by the way over the constraint.
fn lower_row(entries: &mut [i64], nodes: usize, i: usize, con: &Constraint)
    requires size { length entries.old ≡ 11025 }
    requires few { nodes ≤ 105 }
    requires i_in { i < nodes }
    requires left_in { con.now.left < nodes }
    requires right_in { con.now.right < nodes }
    requires other { i ≢ con.now.right }
    requires at_least { (pos 0 -ℤ (cell entries.old i con.now.left +ℤ con.now.bound)) ≤ℤ far }
    requires at_most { (cell entries.old i con.now.left +ℤ con.now.bound) ≤ℤ far }
    requires row_at_least { (j : ℕ) → j < nodes → (pos 0 -ℤ cell entries.old con.now.right j) ≤ℤ far }
    ensures row { (j : ℕ) → j < nodes → Lowers (cell entries.old i j) (cell entries.new i j) (cell entries.old i con.now.left +ℤ con.now.bound) (cell entries.old con.now.right j) }
    ensures others { (k j : ℕ) → k < nodes → j < nodes → k ≢ i → cell entries.new k j ≡ cell entries.old k j }
{
    let first = entries[i * NODES + con.left] + con.bound;
    for j in 0..nodes {
        lower(entries, i * NODES + j, con.right * NODES + j, first);
    }
}

// Lowers all rows by the way over the constraint.
fn relax(entries: &mut [i64], nodes: usize, con: &Constraint)
    requires size { length entries.old ≡ 11025 }
    requires few { nodes ≤ 105 }
    requires step { Step nodes 281474976710656 far (cell entries.old) con.now.left con.now.right con.now.bound }
    ensures { Relaxes nodes far (cell entries.old) (cell entries.new) con.now.left con.now.right con.now.bound }
{
    for i in 0..nodes {
        if i != con.right && entries[i * NODES + con.left] < FAR {
            lower_row(entries, nodes, i, con);
        }
    }
}

// Whether the way back, `back`, makes a negative cycle with a constraint of this bound.
fn is_cycle(back: i64, bound: i64) -> bool
    requires small { (pos 0 -ℤ far) ≤ℤ back }
    requires at_least { (pos 0 -ℤ far) ≤ℤ bound }
    requires at_most { bound ≤ℤ far }
    ensures near { IsTrue result → back <ℤ far }
    ensures negative { IsTrue result → (back +ℤ bound) <ℤ pos 0 }
    ensures none { result ≡ false → back <ℤ far → pos 0 ≤ℤ (back +ℤ bound) }
{
    if back >= FAR {
        return false;
    }
    back + bound < 0
}

// Clears the row of node `i` in the corner of the first nodes: 0 at the node itself, and no bound elsewhere.
fn clear_row(entries: &mut [i64], nodes: usize, i: usize)
    requires size { length entries.old ≡ 11025 }
    requires few { nodes ≤ 105 }
    requires i_in { i < nodes }
    ensures row { (j : ℕ) → j < nodes → (i ≡ j → cell entries.new i j ≡ pos 0) × (i ≢ j → cell entries.new i j ≡ far) }
    ensures others { (k j : ℕ) → k < nodes → j < nodes → k ≢ i → cell entries.new k j ≡ cell entries.old k j }
{
    for j in 0..nodes {
        entries[i * NODES + j] = FAR;
    }
    entries[i * NODES + i] = 0;
}

// Clears the corner of the first nodes.
fn clear(entries: &mut [i64], nodes: usize)
    requires size { length entries.old ≡ 11025 }
    requires few { nodes ≤ 105 }
    ensures { IsFresh nodes far (cell entries.new) }
{
    for i in 0..nodes {
        clear_row(entries, nodes, i);
    }
}

// The least of the first entries of a row, or 0 where none is less.
fn row_least(entries: &[i64], nodes: usize, i: usize) -> i64
    requires size { length entries.now ≡ 11025 }
    requires few { nodes ≤ 105 }
    requires i_in { i < nodes }
    requires diagonal { cell entries.now i i ≡ pos 0 }
    ensures reached { (j : ℕ) × (j < nodes) × (cell entries.now i j ≡ result) }
    ensures below { (j : ℕ) → j < nodes → result ≤ℤ cell entries.now i j }
    ensures at_most { result ≤ℤ pos 0 }
{
    let mut least = 0;
    for j in 0..nodes {
        let entry = entries[i * NODES + j];
        if entry < least {
            least = entry;
        }
    }
    least
}
