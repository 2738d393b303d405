//! Masks narrowed by equalities and disequalities. For each number a link leaves the constructors to which the other side
//! has an answer; where no link joins two undecided terms this alone decides, without search.

ghost use Rattle.std.specs.Prelude.{◌≡◌, ℕ, ◌<◌, ◌≤◌, ◌&&◌, [], ◌∷◌, length, slice_index, slice_set, All, IsTrue, false};
ghost use Rattle.std.specs.List.{list_all};
ghost use Rattle.cub_proto.specs.Truth.{has_bit};
ghost use Rattle.fin_dom.specs.Table.{number_of};
ghost use Rattle.fin_dom.specs.Links.{AreMasks, link_fits, is_link_true, IsWithin, is_settled, is_single, agrees_equal, agrees_other, agrees, Narrows, IsRefuted};

use crate::bits;
use crate::terms::number;
use cub_proto::{Lit, Term};

// What an equality of the number `a` with the number `b` leaves to the number `i` of a mask.
fn narrowed_equal(masks: &[u64], i: usize, a: usize, b: usize, mask: u64) -> u64
    requires masks { AreMasks masks.now }
    requires b_in { b < length masks.now }
    ensures { (c : ℕ) → has_bit result c ≡ (has_bit mask c && agrees_equal masks.now i c a b) }
{
    if a != i || b == i {
        mask
    } else {
        bits::both(mask, masks[b])
    }
}

// What a disequality leaves.
fn narrowed_other(masks: &[u64], i: usize, a: usize, b: usize, mask: u64) -> u64
    requires masks { AreMasks masks.now }
    requires b_in { b < length masks.now }
    ensures { (c : ℕ) → has_bit result c ≡ (has_bit mask c && agrees_other masks.now i c a b) }
{
    if a != i {
        return mask;
    }
    if b == i {
        0
    } else {
        bits::apart(mask, masks[b])
    }
}

// What a literal leaves to the number `i` of a mask.
fn narrowed_by(masks: &[u64], i: usize, lit: &Lit, mask: u64) -> u64
    requires masks { AreMasks masks.now }
    requires fits { IsTrue (link_fits (length masks.now) lit.now) }
    ensures { (c : ℕ) → has_bit result c ≡ (has_bit mask c && agrees masks.now i c lit.now) }
{
    match lit {
        Lit::FinEq { a, b } => {
            let half = narrowed_equal(masks, i, number(*a), number(*b), mask);
            narrowed_equal(masks, i, number(*b), number(*a), half)
        }
        Lit::FinNe { a, b } => {
            let half = narrowed_other(masks, i, number(*a), number(*b), mask);
            narrowed_other(masks, i, number(*b), number(*a), half)
        }
        _ => mask,
    }
}

/// What the literals leave to the number `i` of a mask.
pub fn narrowed(masks: &[u64], i: usize, lits: &[Lit], mask: u64) -> u64
    requires masks { AreMasks masks.now }
    requires fit { All (λ lit. IsTrue (link_fits (length masks.now) lit)) lits.now }
    ensures { (c : ℕ) → has_bit result c ≡ (has_bit mask c && list_all (agrees masks.now i c) lits.now) }
{
    let mut left = mask;
    for lit in lits {
        left = narrowed_by(masks, i, lit, left);
    }
    left
}

/// Whether whatever is left makes the literal true.
pub fn is_settled(masks: &[u64], lit: &Lit) -> bool
    requires masks { AreMasks masks.now }
    requires fits { IsTrue (link_fits (length masks.now) lit.now) }
    ensures { result ≡ is_settled masks.now lit.now }
{
    match lit {
        Lit::FinEq { a, b } => {
            let (first, second) = (number(*a), number(*b));
            first == second || (masks[first] == masks[second] && bits::is_single(masks[first]))
        }
        Lit::FinNe { a, b } => masks[number(*a)] & masks[number(*b)] == 0,
        _ => true,
    }
}

// Narrows the number `i` by a literal. False where nothing is left to it.
fn narrow_side(masks: &mut [u64], i: usize, lit: &Lit) -> bool
    requires masks { AreMasks masks.old }
    requires inside { i < length masks.old }
    requires fits { IsTrue (link_fits (length masks.old) lit.now) }
    ensures narrows { IsTrue result → Narrows (lit.now ∷ []) masks.old masks.new }
    ensures none { result ≡ false → IsRefuted (lit.now ∷ []) masks.old }
{
    let left = narrowed_by(masks, i, lit, masks[i]);
    if left == 0 {
        return false;
    }
    masks[i] = left;
    true
}

// Narrows both sides of a literal.
fn narrow_sides(masks: &mut [u64], lit: &Lit) -> bool
    requires masks { AreMasks masks.old }
    requires fits { IsTrue (link_fits (length masks.old) lit.now) }
    ensures narrows { IsTrue result → Narrows (lit.now ∷ []) masks.old masks.new }
    ensures none { result ≡ false → IsRefuted (lit.now ∷ []) masks.old }
{
    match lit {
        Lit::FinEq { a, b } | Lit::FinNe { a, b } => {
            if !narrow_side(masks, number(*a), lit) {
                return false;
            }
            narrow_side(masks, number(*b), lit)
        }
        _ => true,
    }
}

/// Narrows both sides of each literal, once, in order. False where nothing is left to some side.
pub fn narrow_all(masks: &mut [u64], lits: &[Lit]) -> bool
    requires masks { AreMasks masks.old }
    requires fit { All (λ lit. IsTrue (link_fits (length masks.old) lit)) lits.now }
    ensures narrows { IsTrue result → Narrows lits.now masks.old masks.new }
    ensures none { result ≡ false → IsRefuted lits.now masks.old }
{
    for lit in lits {
        if !narrow_sides(masks, lit) {
            return false;
        }
    }
    true
}
