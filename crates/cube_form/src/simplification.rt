//! Literals that say nothing beyond the others. A pre-image joins what a transition asks for with what was asked for
//! behind it, so literals come that follow from others; a cube without them has fewer literals to test where it is
//! looked for among many. Each literal is tried once, so for n literals n conjunctions of n - 1 are decided; where some
//! state meets the cube, each of them only in the part (finite terms, processes, integers) that the literal speaks of.

ghost use Rattle.std.specs.Prelude.{◌≡◌, ◌⊎◌, ◌↔◌, ◌<◌, ◌≤◌, length, IsTrue};
ghost use Rattle.std.specs.List.{list_all, remove, insert};
ghost use Rattle.std.specs.Vec.{vec_len, vec_capacity};
ghost use Rattle.cub_proto.specs.Signature.{Signature};
ghost use Rattle.cub_proto.specs.StateOf.{signature_of};
ghost use Rattle.cub_proto.specs.Fits.{literal_fits, is_bounded};
ghost use Rattle.cub_proto.specs.Negation.{negated};
ghost use Rattle.cub_cube.specs.Meaning.{IsConsistent};
ghost use Rattle.theory_laws.specs.Fitting.{AreFitting, greatest_size};
ghost use Rattle.theory_laws.specs.Entailed.{Entails};
ghost use Rattle.theory.specs.Made.{IsFor, IsKept};
ghost use Rattle.cube_form.specs.Simple.{IsIdle, Drops, IsSimplified};

use cub_base::Items;
use cub_cube::Cube;
use cub_proto::{Lit, Protocol, negated};
use theory::{Scratch, are_consistent, follows, load, stay_consistent};

// Whether the negation of the literal has a bound that can be decided.
fn can_be_negated(lit: &Lit) -> bool
    ensures { IsTrue result → IsTrue (is_bounded greatest_size lit.now) → (sig : Signature) → IsTrue (is_bounded greatest_size (negated sig lit.now)) }
{
    match lit {
        Lit::Diff { bound, .. } => *bound < 281474976710655,
        _ => true,
    }
}

// Whether the literals entail one more, where they are known to be met by some state or not.
fn is_entailed(
    scratch: &mut Scratch,
    protocol: &Protocol,
    width: u8,
    others: &[Lit],
    lit: &Lit,
    are_met: bool,
) -> bool
    requires made { IsFor protocol.now scratch.old }
    requires fitting { AreFitting protocol.now width others.now }
    requires fits { IsTrue (literal_fits (signature_of protocol.now) width lit.now) }
    requires bounded { IsTrue (is_bounded greatest_size lit.now) }
    requires met { IsTrue are_met → IsConsistent protocol.now width others.now }
    ensures kept { IsKept scratch.old scratch.new }
    ensures made { IsFor protocol.now scratch.new }
    ensures exact { IsTrue result ↔ Entails protocol.now width others.now lit.now }
{
    if !are_met || !can_be_negated(lit) {
        return follows_from(scratch, protocol, width, others, lit);
    }
    let negation = [negated(protocol, width as u16, lit)];
    !stay_consistent(scratch, protocol, width, others, &negation)
}

// Whether the literals entail one more.
fn follows_from(
    scratch: &mut Scratch,
    protocol: &Protocol,
    width: u8,
    others: &[Lit],
    lit: &Lit,
) -> bool
    requires made { IsFor protocol.now scratch.old }
    requires fitting { AreFitting protocol.now width others.now }
    requires fits { IsTrue (literal_fits (signature_of protocol.now) width lit.now) }
    ensures kept { IsKept scratch.old scratch.new }
    ensures made { IsFor protocol.now scratch.new }
    ensures exact { IsTrue result ↔ Entails protocol.now width others.now lit.now }
{
    if !load(scratch, protocol, width, others) {
        return true;
    }
    follows(scratch, protocol, width, others, lit)
}

// Puts a literal back that was taken out, so there is room for it.
fn put_back(lits: &mut Vec<Lit>, at: usize, lit: Lit)
    requires inside { at ≤ vec_len lits.old }
    requires room { vec_len lits.old < vec_capacity lits.old }
    ensures { lits.new.items ≡ insert lits.old.items at lit }
{
    match lits.insert(at, lit) {
        Ok(()) => {}
        Err(_) => unreachable!(),
    }
}

// Drops the literal with that number if all others entail it.
fn drop_if_idle(
    scratch: &mut Scratch,
    protocol: &Protocol,
    width: u8,
    lits: &mut Vec<Lit>,
    at: usize,
    are_met: bool,
)
    requires made { IsFor protocol.now scratch.old }
    requires fitting { AreFitting protocol.now width lits.old.items }
    requires inside { at < length lits.old.items }
    requires met { IsTrue are_met → IsConsistent protocol.now width lits.old.items }
    ensures kept { IsKept scratch.old scratch.new }
    ensures made { IsFor protocol.now scratch.new }
    ensures exact { (IsIdle protocol.now width lits.old.items at × (lits.new.items ≡ remove lits.old.items at)) ⊎ ((IsIdle protocol.now width lits.old.items at → ⊥) × (lits.new.items ≡ lits.old.items)) }
{
    let lit = lits.remove(at);
    if !is_entailed(scratch, protocol, width, lits.as_slice(), &lit, are_met) {
        put_back(lits, at, lit);
    }
}

// Drops each literal that the others that are left entail, from the last to the first.
fn drop_idle(
    scratch: &mut Scratch,
    protocol: &Protocol,
    width: u8,
    lits: &mut Vec<Lit>,
    are_met: bool,
)
    requires made { IsFor protocol.now scratch.old }
    requires fitting { AreFitting protocol.now width lits.old.items }
    requires met { IsTrue are_met → IsConsistent protocol.now width lits.old.items }
    ensures kept { IsKept scratch.old scratch.new }
    ensures made { IsFor protocol.now scratch.new }
    ensures exact { Drops protocol.now width (length lits.old.items) lits.old.items lits.new.items }
{
    let mut at = lits.len();
    while at > 0 {
        at -= 1;
        drop_if_idle(scratch, protocol, width, lits, at, are_met);
    }
}

/// The cube without the literals that its others entail: each in turn, from the last to the first, is dropped where all
/// that are left beside it entail it. It takes no memory.
pub fn simplify(scratch: &mut Scratch, protocol: &Protocol, cube: Cube) -> Cube
    requires made { IsFor protocol.now scratch.old }
    requires fitting { AreFitting protocol.now cube.width cube.lits }
    ensures kept { IsKept scratch.old scratch.new }
    ensures made { IsFor protocol.now scratch.new }
    ensures exact { IsSimplified protocol.now cube result }
{
    let Cube { width, lits } = cube;
    let are_met = are_consistent(scratch, protocol, width, lits.as_slice(), &[]);
    let mut lits = lits.into_vec();
    drop_idle(scratch, protocol, width, &mut lits, are_met);
    Cube {
        width,
        lits: Items::from_vec(lits),
    }
}
