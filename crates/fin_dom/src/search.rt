//! Search for the least constructors, by backtracking over the terms of open links in the order of terms. A term that no
//! open link has takes its least constructor. Each branch leaves one constructor to a term; a link between that term and
//! a later one narrows the later one when it is reached, so a branch fails as soon as nothing is left.

ghost use Rattle.std.specs.Prelude.{◌≡◌, ℕ, ◌<◌, ◌≤◌, ◌++◌, length, slice_index, All, IsTrue, false, nat_lt, min, if◌then◌else◌};
ghost use Rattle.fin_dom.specs.Table.{number_of};
ghost use Rattle.std.specs.List.{list_all};
ghost use Rattle.fin_dom.specs.Links.{AreMasks, link_fits, is_passed, is_decided, IsLeastFill, IsRefuted};

use crate::bits;
use crate::narrow::{is_settled, narrowed};
use crate::terms::number;
use cub_proto::{Lit, Term};

// The lesser of `at` and the number of a term, if that is not before `from`.
fn sooner(from: usize, at: usize, term: Term) -> usize
    ensures { result ≡ (if nat_lt (number_of term) from then at else min at (number_of term)) }
{
    let n = number(term);
    if n < from { at } else { at.min(n) }
}

// The lesser of `at` and the least number, from `from` on, of a term of the literal if it is open.
fn next_of(masks: &[u64], from: usize, at: usize, lit: &Lit) -> usize
    requires masks { AreMasks masks.now }
    requires fits { IsTrue (link_fits (length masks.now) lit.now) }
    requires from { from ≤ at }
    ensures low { from ≤ result }
    ensures high { result ≤ at }
    ensures passed { IsTrue (is_passed masks.now from result lit.now) }
{
    match lit {
        Lit::FinEq { a, b } | Lit::FinNe { a, b } => {
            if is_settled(masks, lit) {
                at
            } else {
                sooner(from, sooner(from, at, *a), *b)
            }
        }
        _ => at,
    }
}

// The lesser of `at` and the least number, from `from` on, of a term of an open link.
fn next_open(masks: &[u64], from: usize, at: usize, lits: &[Lit]) -> usize
    requires masks { AreMasks masks.now }
    requires fit { All (λ lit. IsTrue (link_fits (length masks.now) lit)) lits.now }
    requires from { from ≤ at }
    ensures low { from ≤ result }
    ensures high { result ≤ at }
    ensures passed { IsTrue (list_all (is_passed masks.now from result) lits.now) }
{
    let mut next = at;
    for lit in lits {
        next = next_of(masks, from, next, lit);
    }
    next
}

/// Leaves one constructor to each term of an open link, where that can be done so that the links are true: then the
/// least ones. Where it cannot, the masks stay. The numbers before `from` are decided.
#[cycle(search)]
pub fn search(masks: &mut [u64], from: usize, lits: &[Lit], more: &[Lit]) -> bool
    requires masks { AreMasks masks.old }
    requires fit { All (λ lit. IsTrue (link_fits (length masks.old) lit)) lits.now }
    requires more_fit { All (λ lit. IsTrue (link_fits (length masks.old) lit)) more.now }
    requires from { from ≤ length masks.old }
    requires decided { IsTrue (list_all (is_decided masks.old from) (lits.now ++ more.now)) }
    ensures size { length masks.new ≡ length masks.old }
    ensures kept { (n : ℕ) → n < from → slice_index masks.new n ≡ slice_index masks.old n }
    ensures restored { result ≡ false → (n : ℕ) → slice_index masks.new n ≡ slice_index masks.old n }
    ensures least { IsTrue result → IsLeastFill (lits.now ++ more.now) masks.old masks.new }
    ensures none { result ≡ false → IsRefuted (lits.now ++ more.now) masks.old }
{
    let first = next_open(masks, from, masks.len(), lits);
    let at = next_open(masks, from, first, more);
    if at >= masks.len() {
        return true;
    }
    try_each(masks, from, at, lits, more)
}

// Tries each constructor of the number `at` in turn.
#[cycle(search)]
fn try_each(masks: &mut [u64], from: usize, at: usize, lits: &[Lit], more: &[Lit]) -> bool
    requires masks { AreMasks masks.old }
    requires fit { All (λ lit. IsTrue (link_fits (length masks.old) lit)) lits.now }
    requires more_fit { All (λ lit. IsTrue (link_fits (length masks.old) lit)) more.now }
    requires from { from ≤ at }
    requires inside { at < length masks.old }
    requires decided { IsTrue (list_all (is_decided masks.old from) (lits.now ++ more.now)) }
    requires passed { IsTrue (list_all (is_passed masks.old from at) (lits.now ++ more.now)) }
    ensures size { length masks.new ≡ length masks.old }
    ensures kept { (n : ℕ) → n < from → slice_index masks.new n ≡ slice_index masks.old n }
    ensures restored { result ≡ false → (n : ℕ) → slice_index masks.new n ≡ slice_index masks.old n }
    ensures least { IsTrue result → IsLeastFill (lits.now ++ more.now) masks.old masks.new }
    ensures none { result ≡ false → IsRefuted (lits.now ++ more.now) masks.old }
{
    let whole = masks[at];
    let first = narrowed(masks, at, lits, whole);
    let mut left = narrowed(masks, at, more, first);
    while left != 0 {
        let constructor = bits::low(left);
        masks[at] = bits::bit(constructor);
        if search(masks, at + 1, lits, more) {
            return true;
        }
        left = bits::without(left, constructor);
    }
    masks[at] = whole;
    false
}
