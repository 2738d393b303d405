//! Labels of sides. A side is numbered (11 places, then 64 globals) and labelled by the least number of its class; an
//! equality relabels one class. With 75 sides this is shorter than a union-find and as fast, and the labels are
//! themselves processes that satisfy the equalities, which is the proof that nothing else is forced.

ghost use Rattle.std.specs.Prelude.{◌≡◌, ◌↔◌, ℕ, ◌+◌, ◌<◌, ◌≤◌, ◌++◌, ◌∷◌, [], List, length, slice_index, All, IsTrue, false, if◌then◌else◌, ◌==◌};
ghost use Rattle.std.specs.List.{list_all};
ghost use Rattle.cub_proto.specs.declared.literal.PSide.{PSide};
ghost use Rattle.cub_proto.specs.declared.literal.Lit.{Lit};
ghost use Rattle.cub_proto.specs.declared.literal.Lit.TheVariants.{ProcEq};
ghost use Rattle.proc_eq.specs.Solution.{side_fits, sides_fit, Solves, HasSolution};
ghost use Rattle.proc_eq.specs.Classes.{node_of, entry_of, AreClosureOf};
ghost use Rattle.proc_eq.specs.Merged.{is_disequality_true, AreMerged};

use cub_proto::{Lit, PSide};

/// The number of a side.
pub fn node(side: PSide) -> usize
    requires { IsTrue (side_fits 11 side) }
    ensures value { result ≡ node_of side }
    ensures within { result < 75 }
{
    match side {
        PSide::Place(place) => place as usize,
        PSide::Global(global) => 11 + global as usize,
    }
}

/// The entry of a side in a table by number.
pub fn entry(table: &[u8], side: PSide) -> u8
    requires size { length table.now ≡ 75 }
    requires fit { IsTrue (side_fits 11 side) }
    ensures { result ≡ entry_of table.now side }
{
    table[node(side)]
}

/// Gives each side its own label: the classes of no literals.
pub fn reset(labels: &mut [u8])
    requires { length labels.old ≡ 75 }
    ensures size { length labels.new ≡ 75 }
    ensures own { (i : ℕ) → i < 75 → slice_index labels.new i ≡ i }
{
    for i in 0..75u8 {
        labels[i as usize] = i;
    }
}

// Gives the sides labelled `other` the label `least`.
fn relabel(labels: &mut [u8], least: u8, other: u8)
    ensures size { length labels.new ≡ length labels.old }
    ensures each { (i : ℕ) → i < length labels.old → slice_index labels.new i ≡ (if slice_index labels.old i == other then least else slice_index labels.old i) }
{
    for label in labels.iter_mut() {
        if *label == other {
            *label = least;
        }
    }
}

// Takes in that two sides are one process. False where this needs two places to be one.
fn join(labels: &mut [u8], width: u8, a: PSide, b: PSide) -> bool
    requires narrow { width ≤ 11 }
    requires size { length labels.old ≡ 75 }
    requires a_fits { IsTrue (side_fits width a) }
    requires b_fits { IsTrue (side_fits width b) }
    ensures size { length labels.new ≡ 75 }
    ensures joined { IsTrue result → (lits : List Lit) → AreMerged width lits labels.old → AreMerged width (lits ++ ProcEq a b ∷ []) labels.new }
    ensures none { result ≡ false → (lits : List Lit) → AreMerged width lits labels.old → (v : PSide → ℕ) → Solves width lits v → v a ≡ v b → ⊥ }
{
    let left = entry(labels, a);
    let right = entry(labels, b);
    let least = left.min(right);
    let other = left.max(right);
    if least == other {
        return true;
    }
    if other < width {
        return false;
    }
    relabel(labels, least, other);
    true
}

// Takes in a literal if it is an equality. False where no processes make it true.
fn take(labels: &mut [u8], width: u8, lit: &Lit) -> bool
    requires narrow { width ≤ 11 }
    requires size { length labels.old ≡ 75 }
    requires fits { IsTrue (sides_fit width lit.now) }
    ensures size { length labels.new ≡ 75 }
    ensures taken { IsTrue result → (lits : List Lit) → AreMerged width lits labels.old → AreMerged width (lits ++ lit.now ∷ []) labels.new }
    ensures none { result ≡ false → (lits : List Lit) → AreMerged width lits labels.old → (v : PSide → ℕ) → Solves width (lits ++ lit.now ∷ []) v → ⊥ }
{
    match lit {
        Lit::ProcEq { a, b } => join(labels, width, *a, *b),
        _ => true,
    }
}

// Takes in the equalities of a list, behind those of another. False where no processes satisfy the literals.
fn take_all(labels: &mut [u8], width: u8, more: &[Lit]) -> bool
    requires narrow { width ≤ 11 }
    requires size { length labels.old ≡ 75 }
    requires fits { All (λ lit. IsTrue (sides_fit width lit)) more.now }
    ensures size { length labels.new ≡ 75 }
    ensures taken { IsTrue result → (lits : List Lit) → AreMerged width lits labels.old → AreMerged width (lits ++ more.now) labels.new }
    ensures none { result ≡ false → (lits : List Lit) → AreMerged width lits labels.old → (v : PSide → ℕ) → Solves width (lits ++ more.now) v → ⊥ }
{
    for lit in more {
        if !take(labels, width, lit) {
            return false;
        }
    }
    true
}

// Whether the sides of a disequality have different labels; other literals pass.
fn differs(labels: &[u8], lit: &Lit) -> bool
    requires size { length labels.now ≡ 75 }
    requires fits { IsTrue (sides_fit 11 lit.now) }
    ensures { result ≡ is_disequality_true (entry_of labels.now) lit.now }
{
    match lit {
        Lit::ProcNe { a, b } => entry(labels, *a) != entry(labels, *b),
        _ => true,
    }
}

// Whether the sides of each disequality have different labels.
fn all_differ(labels: &[u8], lits: &[Lit]) -> bool
    requires size { length labels.now ≡ 75 }
    requires fits { All (λ lit. IsTrue (sides_fit 11 lit)) lits.now }
    ensures { result ≡ list_all (is_disequality_true (entry_of labels.now)) lits.now }
{
    lits.iter().all(|lit| differs(labels, lit))
}

/// Labels the sides by their classes. False where no processes satisfy the literals of both lists.
pub fn close(labels: &mut [u8], width: u8, lits: &[Lit], more: &[Lit]) -> bool
    requires size { length labels.old ≡ 75 }
    requires narrow { width ≤ 11 }
    requires fit { All (λ lit. IsTrue (sides_fit width lit)) lits.now }
    requires more_fit { All (λ lit. IsTrue (sides_fit width lit)) more.now }
    ensures size { length labels.new ≡ 75 }
    ensures exact { IsTrue result ↔ HasSolution width (lits.now ++ more.now) }
    ensures closed { IsTrue result → AreClosureOf width (lits.now ++ more.now) labels.new }
{
    reset(labels);
    if !take_all(labels, width, lits) {
        return false;
    }
    if !take_all(labels, width, more) {
        return false;
    }
    if !all_differ(labels, lits) {
        return false;
    }
    all_differ(labels, more)
}
