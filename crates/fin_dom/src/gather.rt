//! The table of masks filled by the literals: a membership narrows its term, and each term of an equality or disequality
//! keeps the constructors of its sort. A term that no literal mentions keeps all bits.

ghost use Rattle.std.specs.Prelude.{◌≡◌, ℕ, ◌<◌, ◌&&◌, ◌-◌, ◌^◌, ◌++◌, ◌∷◌, [], List, length, slice_index, All, IsTrue, false};
ghost use Rattle.cub_proto.specs.StateOf.{signature_of};
ghost use Rattle.cub_proto.specs.declared.literal.Lit.{Lit};
ghost use Rattle.cub_proto.specs.declared.literal.Term.{Term};
ghost use Rattle.cub_proto.specs.Truth.{has_bit};
ghost use Rattle.fin_dom.specs.Solution.{HasSolution};
ghost use Rattle.fin_dom.specs.Table.{has_entry, terms_fit};
ghost use Rattle.fin_dom.specs.Gathered.{Meets, IsLeft, HasBoth, AreBothMet, AreGathered};

use crate::bits;
use crate::terms::number;
use cub_proto::{Lit, Protocol, Term, full_mask};

/// Leaves all bits to each number.
pub fn clear(masks: &mut [u64])
    ensures size { length masks.new ≡ length masks.old }
    ensures all { (n : ℕ) → n < length masks.old → slice_index masks.new n ≡ 2 ^ 64 - 1 }
{
    for mask in masks.iter_mut() {
        *mask = u64::MAX;
    }
}

// Leaves to a number what is in the mask. False, and nothing changed, where that is nothing.
fn meet(masks: &mut [u64], i: usize, mask: u64) -> bool
    requires { i < length masks.old }
    ensures size { length masks.new ≡ length masks.old }
    ensures met { IsTrue result → Meets i mask masks.old masks.new }
    ensures none { result ≡ false → (c : ℕ) → IsTrue (has_bit (slice_index masks.old i) c) → IsTrue (has_bit mask c) → ⊥ }
{
    let left = bits::both(masks[i], mask);
    if left == 0 {
        return false;
    }
    masks[i] = left;
    true
}

// Leaves to the terms of a link the constructors of their sorts. False where that is nothing.
fn meet_sides(protocol: &Protocol, masks: &mut [u64], a: Term, b: Term) -> bool
    requires a_in { IsTrue (has_entry (length masks.old) a) }
    requires b_in { IsTrue (has_entry (length masks.old) b) }
    ensures size { length masks.new ≡ length masks.old }
    ensures met { IsTrue result → AreBothMet (signature_of protocol.now) a b masks.old masks.new }
    ensures none { result ≡ false → (v : Term → ℕ) → HasBoth (signature_of protocol.now) v a b → IsLeft masks.old v a → IsLeft masks.old v b → ⊥ }
{
    if !meet(masks, number(a), full_mask(protocol, a)) {
        return false;
    }
    meet(masks, number(b), full_mask(protocol, b))
}

// Takes in a literal. False where no constructors satisfy it together with the earlier ones.
fn gather_one(protocol: &Protocol, masks: &mut [u64], lit: &Lit) -> bool
    requires fits { IsTrue (terms_fit (signature_of protocol.now) (length masks.old) lit.now) }
    ensures size { length masks.new ≡ length masks.old }
    ensures gathered { IsTrue result → (lits : List Lit) → AreGathered (signature_of protocol.now) lits masks.old → AreGathered (signature_of protocol.now) (lits ++ lit.now ∷ []) masks.new }
    ensures none { result ≡ false → (lits : List Lit) → AreGathered (signature_of protocol.now) lits masks.old → HasSolution (signature_of protocol.now) (lits ++ lit.now ∷ []) → ⊥ }
{
    match lit {
        Lit::FinIn { term, mask } => meet(masks, number(*term), *mask),
        Lit::FinEq { a, b } => meet_sides(protocol, masks, *a, *b),
        Lit::FinNe { a, b } => meet_sides(protocol, masks, *a, *b),
        _ => true,
    }
}

/// Takes in the literals of a list, behind those of another. False where no constructors satisfy them.
pub fn gather(protocol: &Protocol, masks: &mut [u64], more: &[Lit]) -> bool
    requires { All (λ lit. IsTrue (terms_fit (signature_of protocol.now) (length masks.old) lit)) more.now }
    ensures size { length masks.new ≡ length masks.old }
    ensures gathered { IsTrue result → (lits : List Lit) → AreGathered (signature_of protocol.now) lits masks.old → AreGathered (signature_of protocol.now) (lits ++ more.now) masks.new }
    ensures none { result ≡ false → (lits : List Lit) → AreGathered (signature_of protocol.now) lits masks.old → HasSolution (signature_of protocol.now) (lits ++ more.now) → ⊥ }
{
    for lit in more {
        if !gather_one(protocol, masks, lit) {
            return false;
        }
    }
    true
}
