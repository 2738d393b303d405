//! Lists of conjunctions with their sizes. Sizes of joins and chains follow from the sizes of their parts, also where a
//! part is far above the limits, so a list is kept only where it is within them, and none above them is ever made. A
//! factor without conjunctions makes a join empty however long the others are. The cost is that of one pass, with at
//! most 64 conjunctions of 64 literals at hand for a formula that is being gone through.

ghost use Rattle.std.specs.Prelude.{◌≡◌, ◌+◌, ◌*◌, ◌==◌, min, max, [], ◌∷◌, ◌++◌, map, List, IfOk, OnOk, if◌then◌else◌};
ghost use Rattle.cub_proto.specs.declared.literal.Lit.{Lit};
ghost use Rattle.cub_dnf.specs.Lists.{joins};
ghost use Rattle.cub_dnf.specs.Measured.{measured, are_within, joined_width, joined_list, chained_list, together};

use cub_base::Items;
use cub_proto::{Conjs, Lit, Lits};
use std::alloc::{AllocError, Global};

/// The number of conjunctions and the most literals in one, each cut at 65, and the list where both are at most 64.
#[derive(Debug, Drop)]
pub struct Measured {
    pub count: u8,
    pub width: u8,
    pub list: Option<Conjs>,
}

impl Measured {
    /// The list without conjunctions, or the list of the empty one.
    pub fn constant(alloc: Global, value: bool) -> Result<Measured, AllocError>
        ensures { IfOk result (λ m. m ≡ measured (if value then [] ∷ [] else [])) }
    {
        let mut list = Items::new(alloc);
        if !value {
            return Ok(Measured {
                count: 0,
                width: 0,
                list: Some(list),
            });
        }
        list.push(Items::new(alloc))?;
        Ok(Measured {
            count: 1,
            width: 0,
            list: Some(list),
        })
    }

    /// The list of one literal.
    pub fn literal(alloc: Global, lit: Lit) -> Result<Measured, AllocError>
        ensures { IfOk result (λ m. m ≡ measured ((lit ∷ []) ∷ [])) }
    {
        let list = one_conjunction(alloc, &[lit])?;
        Ok(Measured {
            count: 1,
            width: 1,
            list: Some(list),
        })
    }

    /// The list of two literals that both hold.
    pub fn both(alloc: Global, a: Lit, b: Lit) -> Result<Measured, AllocError>
        ensures { IfOk result (λ m. m ≡ measured ((a ∷ b ∷ []) ∷ [])) }
    {
        let list = one_conjunction(alloc, &[a, b])?;
        Ok(Measured {
            count: 1,
            width: 2,
            list: Some(list),
        })
    }

    /// The list of two literals of which one holds.
    pub fn either(alloc: Global, a: Lit, b: Lit) -> Result<Measured, AllocError>
        ensures { IfOk result (λ m. m ≡ measured ((a ∷ []) ∷ (b ∷ []) ∷ [])) }
    {
        let mut list = one_conjunction(alloc, &[a])?;
        list.push(Items::from_slice(alloc, &[b])?)?;
        Ok(Measured {
            count: 2,
            width: 1,
            list: Some(list),
        })
    }

    /// All joins of a conjunction of this list with one of the other.
    pub fn joined(self, alloc: Global, right: Measured) -> Result<Measured, AllocError>
        ensures { IfOk result (λ m. (a b : List (List Lit)) → self ≡ measured a → right ≡ measured b → m ≡ measured (joins a b)) }
    {
        let count = cut_product(self.count, right.count);
        let width = joined_width(count, self.width, right.width);
        let list = joined_list(alloc, count, width, self.list, right.list)?;
        Ok(Measured { count, width, list })
    }

    /// This list and then the other.
    pub fn chained(self, right: Measured) -> Result<Measured, AllocError>
        ensures { IfOk result (λ m. (a b : List (List Lit)) → self ≡ measured a → right ≡ measured b → m ≡ measured (a ++ b)) }
    {
        let count = cut_sum(self.count, right.count);
        let width = self.width.max(right.width);
        let list = chained_list(count, width, self.list, right.list)?;
        Ok(Measured { count, width, list })
    }
}

fn one_conjunction(alloc: Global, lits: &[Lit]) -> Result<Conjs, AllocError>
    ensures { IfOk result (λ list. list ≡ lits.now ∷ []) }
{
    let mut list = Items::new(alloc);
    list.push(Items::from_slice(alloc, lits)?)?;
    Ok(list)
}

fn cut_product(a: u8, b: u8) -> u8
    ensures { result ≡ min 65 (a * b) }
{
    (u16::from(a) * u16::from(b)).min(65) as u8
}

fn cut_sum(a: u8, b: u8) -> u8
    ensures { result ≡ min 65 (a + b) }
{
    (u16::from(a) + u16::from(b)).min(65) as u8
}

fn joined_width(count: u8, left: u8, right: u8) -> u8
    ensures { result ≡ joined_width count left right }
{
    if count == 0 { 0 } else { cut_sum(left, right) }
}

fn are_within(count: u8, width: u8) -> bool
    ensures { result ≡ are_within count width }
{
    count <= 64 && width <= 64
}

fn joined_list(
    alloc: Global,
    count: u8,
    width: u8,
    left: Option<Conjs>,
    right: Option<Conjs>,
) -> Result<Option<Conjs>, AllocError>
    ensures { IfOk result (λ list. list ≡ joined_list count width left right) }
{
    if count == 0 {
        return Ok(Some(Items::new(alloc)));
    }
    if !are_within(count, width) {
        return Ok(None);
    }
    match (left, right) {
        (Some(left), Some(right)) => Ok(Some(join(left, right)?)),
        _ => Ok(None),
    }
}

fn chained_list(
    count: u8,
    width: u8,
    left: Option<Conjs>,
    right: Option<Conjs>,
) -> Result<Option<Conjs>, AllocError>
    ensures { IfOk result (λ list. list ≡ chained_list count width left right) }
{
    if !are_within(count, width) {
        return Ok(None);
    }
    match (left, right) {
        (Some(left), Some(right)) => Ok(Some(chain(left, right)?)),
        _ => Ok(None),
    }
}

fn chain(left: Conjs, right: Conjs) -> Result<Conjs, AllocError>
    ensures { IfOk result (λ list. list ≡ left ++ right) }
{
    let mut list = left;
    list.append(right)?;
    Ok(list)
}

/// Where the right factor is one conjunction, it goes behind each on the left, in place.
fn join(left: Conjs, right: Conjs) -> Result<Conjs, AllocError>
    ensures { IfOk result (λ list. list ≡ joins left right) }
{
    match right.as_slice() {
        [only] => extended(left, only.as_slice()),
        _ => products(left.allocator(), left.as_slice(), right.as_slice()),
    }
}

fn extended(left: Conjs, tail: &[Lit]) -> Result<Conjs, AllocError>
    ensures { IfOk result (λ list. list ≡ map (λ c. c ++ tail.now) left) }
{
    let mut list = Items::with_room(left.allocator(), left.len())?;
    for conj in left.into_vec() {
        let mut longer = conj;
        longer.extend(tail)?;
        list.push(longer)?;
    }
    Ok(list)
}

fn products(alloc: Global, left: &[Lits], right: &[Lits]) -> Result<Conjs, AllocError>
    ensures { IfOk result (λ list. list ≡ joins left.now right.now) }
{
    let mut list = Items::new(alloc);
    for conj in left {
        push_joins(&mut list, conj.as_slice(), right)?;
    }
    Ok(list)
}

fn push_joins(list: &mut Conjs, front: &[Lit], right: &[Lits]) -> Result<(), AllocError>
    ensures { OnOk result (list.new ≡ list.old ++ map (λ d. front.now ++ d) right.now) }
{
    for conj in right {
        let joined = joined_conjunction(list.allocator(), front, conj.as_slice())?;
        list.push(joined)?;
    }
    Ok(())
}

fn joined_conjunction(alloc: Global, front: &[Lit], back: &[Lit]) -> Result<Lits, AllocError>
    ensures { IfOk result (λ lits. lits ≡ front.now ++ back.now) }
{
    let mut lits = Items::with_room(alloc, front.len() + back.len())?;
    lits.extend(front)?;
    lits.extend(back)?;
    Ok(lits)
}
