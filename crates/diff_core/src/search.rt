//! The cycle of a contradiction: a shortest path in a closed table, found backwards from its end.
//!
//! A table has the least sums of paths and not the paths. Once a constraint contradicts those before it, a path from
//! its left node back to its right one is wanted, whose constraints are all tight: the least sum to the end falls by
//! exactly their bounds. A greedy walk along tight constraints can go round for ever where a cycle has the sum 0, so
//! nodes are marked backwards from the end, each once, with the constraint by which the path goes on; the way from
//! one node to the next is then to a node that was marked before. The cost is at most the number of nodes times that
//! of the constraints, and is paid only after a contradiction, in place of a second table that keeps paths with sums.

ghost use Rattle.std.specs.Prelude.{◌≡◌, ◌≢◌, ℕ, ◌+◌, ◌*◌, ◌<◌, ◌≤◌, ℤ, pos, ◌+ℤ◌, ◌-ℤ◌, ◌≤ℤ◌, ◌<ℤ◌, List, [], ◌∷◌, ◌++◌, length, take, IsTrue, IfOk, false, slice_index, slice_set};
ghost use Rattle.diff_core.specs.declared.constraint.Constraint.{Constraint};
ghost use Rattle.diff_core.specs.Constraints.{constraint_at, IsInRange, AreInRange, IsNegativeCycle, AreProper};
ghost use Rattle.diff_core.specs.Closure.{IsClosure};
ghost use Rattle.diff_core.specs.Table.{cell, far, IsTable, IsClosureOf, IsNear, ClosesNegative};
ghost use Rattle.diff_core.specs.Search.{IsTight, IsSearch, IsDoneAt, HasArrived};

use crate::closure::{Closure, FAR, NODES, entry};
use crate::constraint::{Constraint, Constraints};
use cub_base::Memory;
use std::alloc::Global;
use std::marker::Model;

// Whether a shortest path to the target goes over the constraint.
fn is_tight(entries: &[i64], nodes: usize, target: usize, con: &Constraint) -> bool
    requires table { IsTable nodes entries.now }
    requires target_in { target < nodes }
    requires range { IsInRange nodes con.now }
    ensures yes { IsTrue result → IsTight (cell entries.now) target con.now }
    ensures no { result ≡ false → cell entries.now target con.now.left <ℤ far → IsTight (cell entries.now) target con.now → ⊥ }
{
    let onward = entry(entries, target, con.left);
    if onward >= FAR {
        return false;
    }
    con.bound + onward == entry(entries, target, con.right)
}

// Marks the right node of constraint `number`, where it is tight, leads to a marked node and that one is not marked.
fn mark(
    rank: &mut [usize],
    next: &mut [u64],
    entries: &[i64],
    nodes: usize,
    target: usize,
    con: &Constraint,
    number: usize,
    steps: usize,
) -> bool
    requires rank_size { length rank.old ≡ 105 }
    requires next_size { length next.old ≡ 105 }
    requires table { IsTable nodes entries.now }
    requires target_in { target < nodes }
    requires range { IsInRange nodes con.now }
    requires few { steps ≤ 105 }
    ensures tight { IsTrue result → IsTight (cell entries.now) target con.now }
    ensures marked { IsTrue result → 0 < slice_index rank.old con.now.left }
    ensures fresh { IsTrue result → slice_index rank.old con.now.right ≡ 0 }
    ensures rank { IsTrue result → rank.new ≡ slice_set rank.old con.now.right (steps + 1) }
    ensures next { IsTrue result → next.new ≡ slice_set next.old con.now.right number }
    ensures rank_kept { result ≡ false → rank.new ≡ rank.old }
    ensures next_kept { result ≡ false → next.new ≡ next.old }
    ensures done { result ≡ false → IsDoneAt far (cell entries.now) target (slice_index rank.old) con.now }
{
    if rank[con.left] == 0 {
        return false;
    }
    if rank[con.right] != 0 {
        return false;
    }
    if !is_tight(entries, nodes, target, con) {
        return false;
    }
    rank[con.right] = steps + 1;
    next[con.right] = number as u64;
    true
}

// Tries each of the first constraints once, and answers how many nodes are marked then.
#[allow(clippy::too_many_arguments)]
fn pass<C: Constraints>(
    rank: &mut [usize],
    next: &mut [u64],
    entries: &[i64],
    nodes: usize,
    target: usize,
    constraints: &C,
    tried: usize,
    steps: usize,
) -> usize
    requires rank_size { length rank.old ≡ 105 }
    requires next_size { length next.old ≡ 105 }
    requires table { IsTable nodes entries.now }
    requires target_in { target < nodes }
    requires tried_in { tried ≤ length (C.list constraints.now) }
    requires range { AreInRange nodes (C.list constraints.now) }
    requires search { IsSearch (take tried (C.list constraints.now)) (cell entries.now) nodes target steps (slice_index rank.old) (slice_index next.old) }
    ensures rank_size { length rank.new ≡ 105 }
    ensures next_size { length next.new ≡ 105 }
    ensures search { IsSearch (take tried (C.list constraints.now)) (cell entries.now) nodes target result (slice_index rank.new) (slice_index next.new) }
    ensures more { steps ≤ result }
    ensures done { result ≡ steps → (k : ℕ) → k < tried → IsDoneAt far (cell entries.now) target (slice_index rank.new) (constraint_at (C.list constraints.now) k) }
{
    let mut marked = steps;
    for k in 0..tried {
        let con = constraints.get(k);
        if mark(rank, next, entries, nodes, target, &con, k, marked) {
            marked += 1;
        }
    }
    marked
}

// Marks the target alone.
fn begin(rank: &mut [usize], target: usize)
    requires size { length rank.old ≡ 105 }
    requires target_in { target < 105 }
    ensures size { length rank.new ≡ 105 }
    ensures one { slice_index rank.new target ≡ 1 }
    ensures others { (x : ℕ) → x < 105 → x ≢ target → slice_index rank.new x ≡ 0 }
{
    for x in rank.iter_mut() {
        *x = 0;
    }
    rank[target] = 1;
}

// Marks nodes backwards from the target, until `from` is marked, which has a path by the first constraints.
#[allow(clippy::too_many_arguments)]
fn search<C: Constraints>(
    rank: &mut [usize],
    next: &mut [u64],
    entries: &[i64],
    nodes: usize,
    target: usize,
    from: usize,
    constraints: &C,
    tried: usize,
)
    requires rank_size { length rank.old ≡ 105 }
    requires next_size { length next.old ≡ 105 }
    requires table { IsTable nodes entries.now }
    requires target_in { target < nodes }
    requires from_in { from < nodes }
    requires tried_in { tried ≤ length (C.list constraints.now) }
    requires range { AreInRange nodes (C.list constraints.now) }
    requires closure { IsClosure (take tried (C.list constraints.now)) nodes far (cell entries.now) }
    requires near { cell entries.now target from <ℤ far }
    ensures rank_size { length rank.new ≡ 105 }
    ensures next_size { length next.new ≡ 105 }
    ensures search { (steps : ℕ) × IsSearch (take tried (C.list constraints.now)) (cell entries.now) nodes target steps (slice_index rank.new) (slice_index next.new) }
    ensures reached { 0 < slice_index rank.new from }
{
    begin(rank, target);
    let mut steps = 1;
    while rank[from] == 0 {
        steps = pass(
            rank,
            next,
            entries,
            nodes,
            target,
            constraints,
            tried,
            steps,
        );
    }
}

// Writes the cycle that constraint `failed` makes with the path that the search has found, and answers its length.
fn write_cycle<C: Constraints>(
    out: &mut [u64],
    rank: &[usize],
    next: &[u64],
    nodes: usize,
    constraints: &C,
    failed: usize,
) -> usize
    requires out_size { length out.old ≡ 105 }
    requires rank_size { length rank.now ≡ 105 }
    requires next_size { length next.now ≡ 105 }
    requires few { nodes ≤ 105 }
    requires failed_in { failed < length (C.list constraints.now) }
    requires range { AreInRange nodes (C.list constraints.now) }
    requires arrived { HasArrived (C.list constraints.now) nodes failed (slice_index rank.now) (slice_index next.now) }
    ensures few { result ≤ 105 }
    ensures cycle { IsNegativeCycle (C.list constraints.now) (take result out.new) }
    ensures proper { AreProper (C.list constraints.now) (take result out.new) }
{
    let con = constraints.get(failed);
    out[0] = failed as u64;
    let mut length = 1;
    let mut node = con.left;
    while node != con.right {
        let number = next[node];
        out[length] = number;
        length += 1;
        node = constraints.get(number as usize).left;
    }
    length
}

// Finds the cycle of a contradiction, and keeps it.
#[derive(Drop)]
pub struct CycleFinder {
    rank: Vec<usize>,
    next: Vec<u64>,
    cycle: Vec<u64>,
    length: usize,
}

impl Model for CycleFinder {
    ghost use Rattle.std.specs.Prelude.{◌≡◌, ◌≤◌, ℕ, List, length, take};
    ghost use Rattle.diff_core.specs.Sizes.{AreSizes};

    ghost Value = { List ℕ };

    ghost view = { λ s. take s.length s.cycle.items };

    ghost invariant = { λ s. AreSizes s.rank.items s.next.items s.cycle.items s.length };
}

impl CycleFinder {
    // With no cycle yet. Later calls take no memory.
    pub fn new(alloc: Global) -> Result<CycleFinder, Memory>
        ensures { IfOk result (λ cycle. cycle ≡ []) }
    {
        let rank = vec![in alloc; 0; NODES]?;
        let next = vec![in alloc; 0; NODES]?;
        let cycle = vec![in alloc; 0; NODES]?;
        Ok(CycleFinder {
            rank,
            next,
            cycle,
            length: 0,
        })
    }

    // The cycle that constraint `failed` makes with those before it.
    pub fn find<C: Constraints>(&mut self, closure: &Closure, constraints: &C, failed: usize)
        requires failed_in { failed < length (C.list constraints.now) }
        requires range { AreInRange closure.now.nodes (C.list constraints.now) }
        requires closure { IsClosureOf (take failed (C.list constraints.now)) closure.now }
        requires near { IsNear closure.now (constraint_at (C.list constraints.now) failed) }
        requires negative { ClosesNegative closure.now (constraint_at (C.list constraints.now) failed) }
        ensures cycle { IsNegativeCycle (C.list constraints.now) self.new }
        ensures proper { AreProper (C.list constraints.now) self.new }
    {
        let con = constraints.get(failed);
        let nodes = closure.nodes();
        search(
            &mut self.rank,
            &mut self.next,
            closure.entries(),
            nodes,
            con.right,
            con.left,
            constraints,
            failed,
        );
        self.length = write_cycle(
            &mut self.cycle,
            &self.rank,
            &self.next,
            nodes,
            constraints,
            failed,
        );
    }

    // The cycle that was found last.
    pub fn cycle(&self) -> &[u64]
        ensures { result.now ≡ self.now }
    {
        &self.cycle[..self.length]
    }
}
