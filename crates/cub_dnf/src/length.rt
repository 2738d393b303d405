//! Exact lengths of normal forms, cut where every limit on their sums is passed. Lengths of joins are products, so no
//! list is built for them.

ghost use Rattle.std.specs.Prelude.{◌≡◌, ◌+◌, ◌*◌, ℕ, min, length, map};
ghost use Rattle.cub_proto.specs.Signature.{Signature};
ghost use Rattle.cub_dnf.specs.Lists.{list_of, all_joins, chained};

use crate::formula::Formula;

/// Where counting stops: one more than the most unsafe conjunctions of a protocol.
pub const MOST_COUNTED: u32 = 4097;

/// The number of conjunctions in the list of the formula, or with `false` in that of its negation, cut at 4,097.
/// It depends on nothing that is declared.
#[cycle(count)]
pub fn count(formula: &Formula, holds: bool) -> u32
    ensures { (sig : Signature) → result ≡ min 4097 (length (list_of sig holds formula.now)) }
{
    match formula {
        Formula::Const(value) => u32::from(*value == holds),
        Formula::One(_) => 1,
        Formula::IntEq { .. } => if holds { 1 } else { 2 },
        Formula::Not(part) => count(part.get(), !holds),
        Formula::All(parts) => {
            if holds {
                joined_count(parts.as_slice(), true)
            } else {
                chained_count(parts.as_slice(), false)
            }
        }
        Formula::Any(parts) => {
            if holds {
                chained_count(parts.as_slice(), true)
            } else {
                joined_count(parts.as_slice(), false)
            }
        }
    }
}

#[cycle(count)]
fn joined_count(parts: &[Formula], holds: bool) -> u32
    ensures { (sig : Signature) → result ≡ min 4097 (length (all_joins (map (list_of sig holds) parts.now))) }
{
    let mut found = 1;
    for part in parts {
        let next = count(part, holds);
        found = cut_product(found, next);
    }
    found
}

#[cycle(count)]
fn chained_count(parts: &[Formula], holds: bool) -> u32
    ensures { (sig : Signature) → result ≡ min 4097 (length (chained (map (list_of sig holds) parts.now))) }
{
    let mut found = 0;
    for part in parts {
        let next = count(part, holds);
        found = cut_sum(found, next);
    }
    found
}

fn cut_product(a: u32, b: u32) -> u32
    ensures { result ≡ min 4097 (a * b) }
{
    (u64::from(a) * u64::from(b)).min(u64::from(MOST_COUNTED)) as u32
}

fn cut_sum(a: u32, b: u32) -> u32
    ensures { result ≡ min 4097 (a + b) }
{
    (u64::from(a) + u64::from(b)).min(u64::from(MOST_COUNTED)) as u32
}
