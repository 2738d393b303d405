//! Processes for the sides, chosen class by class in the order of the sides' numbers. Process `n` is forbidden to a class
//! where a disequality holds it apart from an earlier class that has process `n`; an earlier class has a process that is
//! not above its own number, so the search for the least one ends.

ghost use Rattle.std.specs.Prelude.{◌≡◌, ℕ, ◌<◌, ◌≤◌, ◌++◌, length, slice_index, All, IsTrue};
ghost use Rattle.std.specs.List.{list_any};
ghost use Rattle.proc_eq.specs.Solution.{side_fits, sides_fit};
ghost use Rattle.proc_eq.specs.Classes.{entry_of, AreLabels};
ghost use Rattle.proc_eq.specs.Chosen.{forbids_by, forbids, IsLeastFree, AreChosen};

use crate::labels::entry;
use cub_proto::{Lit, PSide};

// Whether `a` is in the class `own` and `b` in an earlier class that has process `n`.
fn forbids_by(labels: &[u8], processes: &[u8], own: u8, n: u8, a: PSide, b: PSide) -> bool
    requires labels { length labels.now ≡ 75 }
    requires processes { length processes.now ≡ 75 }
    requires own { own < 75 }
    requires a_fits { IsTrue (side_fits 11 a) }
    requires b_fits { IsTrue (side_fits 11 b) }
    ensures { result ≡ forbids_by labels.now processes.now own n a b }
{
    let other = entry(labels, b);
    if other >= own {
        return false;
    }
    entry(labels, a) == own && processes[other as usize] == n
}

// Whether the literal forbids process `n` to the class `own`.
fn forbids(labels: &[u8], processes: &[u8], own: u8, n: u8, lit: &Lit) -> bool
    requires labels { length labels.now ≡ 75 }
    requires processes { length processes.now ≡ 75 }
    requires own { own < 75 }
    requires fits { IsTrue (sides_fit 11 lit.now) }
    ensures { result ≡ forbids labels.now processes.now own n lit.now }
{
    match lit {
        Lit::ProcNe { a, b } => {
            forbids_by(labels, processes, own, n, *a, *b)
                || forbids_by(labels, processes, own, n, *b, *a)
        }
        _ => false,
    }
}

// Whether a literal of the list forbids process `n` to the class `own`.
fn any_forbids(labels: &[u8], processes: &[u8], own: u8, n: u8, lits: &[Lit]) -> bool
    requires labels { length labels.now ≡ 75 }
    requires processes { length processes.now ≡ 75 }
    requires own { own < 75 }
    requires fit { All (λ lit. IsTrue (sides_fit 11 lit)) lits.now }
    ensures { result ≡ list_any (forbids labels.now processes.now own n) lits.now }
{
    lits.iter()
        .any(|lit| forbids(labels, processes, own, n, lit))
}

// Whether a literal of either list forbids process `n` to the class `own`.
fn is_forbidden(labels: &[u8], processes: &[u8], own: u8, n: u8, lits: &[Lit], more: &[Lit]) -> bool
    requires labels { length labels.now ≡ 75 }
    requires processes { length processes.now ≡ 75 }
    requires own { own < 75 }
    requires fit { All (λ lit. IsTrue (sides_fit 11 lit)) lits.now }
    requires more_fit { All (λ lit. IsTrue (sides_fit 11 lit)) more.now }
    ensures { result ≡ list_any (forbids labels.now processes.now own n) (lits.now ++ more.now) }
{
    any_forbids(labels, processes, own, n, lits) || any_forbids(labels, processes, own, n, more)
}

// The least process that no literal forbids to the class `own`.
fn least_free(labels: &[u8], processes: &[u8], own: u8, lits: &[Lit], more: &[Lit]) -> u8
    requires labels { length labels.now ≡ 75 }
    requires processes { length processes.now ≡ 75 }
    requires own { own < 75 }
    requires fit { All (λ lit. IsTrue (sides_fit 11 lit)) lits.now }
    requires more_fit { All (λ lit. IsTrue (sides_fit 11 lit)) more.now }
    requires low { (k : ℕ) → k < own → slice_index processes.now k ≤ k }
    ensures low { result ≤ own }
    ensures least { IsLeastFree labels.now processes.now (lits.now ++ more.now) own result }
{
    let mut n = 0;
    while is_forbidden(labels, processes, own, n, lits, more) {
        n += 1;
    }
    n
}

// The process of the side with the number `own`, where those of the earlier sides are chosen.
fn next_process(labels: &[u8], processes: &[u8], own: u8, lits: &[Lit], more: &[Lit]) -> u8
    requires labels { length labels.now ≡ 75 }
    requires chosen { AreChosen labels.now processes.now (lits.now ++ more.now) own }
    requires own { own < 75 }
    requires fit { All (λ lit. IsTrue (sides_fit 11 lit)) lits.now }
    requires more_fit { All (λ lit. IsTrue (sides_fit 11 lit)) more.now }
    requires low { slice_index labels.now own ≤ own }
    ensures low { result ≤ own }
    ensures same { slice_index labels.now own < own → result ≡ slice_index processes.now (slice_index labels.now own) }
    ensures place { slice_index labels.now own ≡ own → own < 11 → result ≡ own }
    ensures least { slice_index labels.now own ≡ own → 11 ≤ own → IsLeastFree labels.now processes.now (lits.now ++ more.now) own result }
{
    let label = labels[own as usize];
    if label < own {
        return processes[label as usize];
    }
    if own < 11 {
        return own;
    }
    least_free(labels, processes, own, lits, more)
}

/// Chooses the processes of all sides.
pub fn choose(labels: &[u8], processes: &mut [u8], lits: &[Lit], more: &[Lit])
    requires labels { length labels.now ≡ 75 }
    requires processes { length processes.old ≡ 75 }
    requires low { (i : ℕ) → slice_index labels.now i ≤ i }
    requires places { (p : ℕ) → p < 11 → slice_index labels.now p ≡ p }
    requires fit { All (λ lit. IsTrue (sides_fit 11 lit)) lits.now }
    requires more_fit { All (λ lit. IsTrue (sides_fit 11 lit)) more.now }
    ensures { AreChosen labels.now processes.new (lits.now ++ more.now) 75 }
{
    for own in 0..75u8 {
        processes[own as usize] = next_process(labels, processes, own, lits, more);
    }
}
