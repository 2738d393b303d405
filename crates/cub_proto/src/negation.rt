//! Negations. The negation of each literal is one literal, so pre-images and unsafe conjunctions stay conjunctions.

ghost use Rattle.std.specs.Prelude.{◌≡◌, ◌-◌, ◌^◌, ◌<◌, ◌≤◌, IsTrue};
ghost use Rattle.cub_proto.specs.Signature.{constructors_at};
ghost use Rattle.cub_proto.specs.StateOf.{signature_of};
ghost use Rattle.cub_proto.specs.Fits.{literal_fits};
ghost use Rattle.cub_proto.specs.Negation.{negated};

use crate::literal::{Lit, Term};
use crate::protocol::Protocol;

/// The mask of as many constructors.
fn all_constructors(count: usize) -> u64
    requires { count ≤ 64 }
    ensures { result ≡ 2 ^ count - 1 }
{
    if count == 64 {
        u64::MAX
    } else {
        (1u64 << count) - 1
    }
}

/// The mask of all constructors of a term's sort; 0 where it is not finite.
pub fn full_mask(protocol: &Protocol, term: Term) -> u64
    ensures { result ≡ 2 ^ constructors_at (signature_of protocol.now) term - 1 }
{
    all_constructors(protocol.declared().constructors_at(term))
}

/// The negation of a literal that fits the protocol at some width.
pub fn negated(protocol: &Protocol, width: u16, lit: &Lit) -> Lit
    requires { IsTrue (literal_fits (signature_of protocol.now) width lit.now) }
    ensures { result ≡ negated (signature_of protocol.now) lit.now }
{
    match *lit {
        Lit::FinIn { term, mask } => Lit::FinIn {
            term,
            mask: full_mask(protocol, term) - mask,
        },
        Lit::FinEq { a, b } => Lit::FinNe { a, b },
        Lit::FinNe { a, b } => Lit::FinEq { a, b },
        Lit::ProcEq { a, b } => Lit::ProcNe { a, b },
        Lit::ProcNe { a, b } => Lit::ProcEq { a, b },
        Lit::Diff { a, b, bound } => Lit::Diff {
            a: b,
            b: a,
            bound: -1 - bound,
        },
    }
}
