//! The first fault so far. Tests run in any order, and each tells its faults; what is kept is the first by token, and of
//! several at one token the one with the least code. So no test needs to know what stands before it in the text.

ghost use Rattle.std.specs.Prelude.{◌≡◌};
ghost use Rattle.cub_names.specs.Checked.{fault, rank, before, earlier, first_of_all};
ghost use Rattle.cub_names.specs.Declarations.{at_each};

use crate::fault::{Fault, TypeKind};
use cub_parse::Leaf;

fn rank(kind: TypeKind) -> u8
    ensures { result ≡ rank kind }
{
    match kind {
        TypeKind::T01 => 1,
        TypeKind::T02 => 2,
        TypeKind::T03 => 3,
        TypeKind::T04 => 4,
        TypeKind::T05 => 5,
        TypeKind::T06 => 6,
        TypeKind::T07 => 7,
        TypeKind::T08 => 8,
        TypeKind::T09 => 9,
        TypeKind::T10 => 10,
        TypeKind::T11 => 11,
        TypeKind::T12 => 12,
        TypeKind::T13 => 13,
        TypeKind::T14 => 14,
        TypeKind::T15 => 15,
        TypeKind::T16 => 16,
        TypeKind::T17 => 17,
        TypeKind::T18 => 18,
        TypeKind::T19 => 19,
        TypeKind::T20 => 20,
    }
}

fn comes_before(a: Fault, b: Fault) -> bool
    ensures { result ≡ before a b }
{
    a.token < b.token || (a.token == b.token && rank(a.kind) < rank(b.kind))
}

fn earlier(first: Option<Fault>, new: Fault) -> Option<Fault>
    ensures { result ≡ earlier first new }
{
    match first {
        None => Some(new),
        Some(old) => {
            if comes_before(new, old) {
                Some(new)
            } else {
                Some(old)
            }
        }
    }
}

/// A fault stands at the token.
pub fn tell(first: &mut Option<Fault>, token: u32, kind: TypeKind)
    ensures { first.new ≡ earlier first.old (fault token kind) }
{
    *first = earlier(*first, Fault { token, kind });
}

/// The fault stands at each of the leaves.
pub fn tell_each(first: &mut Option<Fault>, kind: TypeKind, leaves: &[Leaf])
    ensures { first.new ≡ first_of_all first.old (at_each kind leaves.now) }
{
    for leaf in leaves {
        tell(first, leaf.number, kind);
    }
}
