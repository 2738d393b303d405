//! The normal form of a conjunction: masks on one term become one, of several bounds on one difference the least stays,
//! what is true by itself is dropped, and the rest rises. It is made by insertion into one list with room for all
//! literals. The place is looked for from the end, so a list that is nearly in order takes linear time, and any other
//! at most one move for each pair of its literals, which are few.

ghost use Rattle.std.specs.Prelude.{◌≡◌, ◌≢◌, ◌-◌, ◌<◌, ◌≤◌, drop, slice_index_or, slice_get, length, option_map, false, IsTrue, IfOk, OnOk, All};
ghost use Rattle.std.specs.List.{list_all};
ghost use Rattle.std.specs.Ordering.{is_lt};
ghost use Rattle.cub_proto.specs.StateOf.{signature_of};
ghost use Rattle.cub_proto.specs.Order.{lit_cmp, term_cmp, process_side_cmp, integer_side_cmp};
ghost use Rattle.cub_cube.specs.Normal.{ordered, full_mask, is_true_alone, subject, subject_cmp, joined, inserted, placed, normal_form, subjects_rise, are_two_places, mask_of, bound_of, has_ordered_sides, is_plain, is_normal};
ghost use Rattle.cub_cube.specs.Rename.{is_within, renamed_all};

use crate::renaming::renamed;
use cub_base::{Items, Memory};
use cub_proto::{Lit, Lits, PSide, Protocol};
use std::alloc::{AllocError, Global};
use std::cmp::Ordering;

/// The literal with the smaller side of an equality first.
pub fn ordered(lit: &Lit) -> Lit
    ensures { result ≡ ordered lit.now }
{
    match *lit {
        Lit::FinEq { a, b } if cub_proto::compare_terms(a, b) == Ordering::Greater => Lit::FinEq {
            a: b,
            b: a,
        },
        Lit::FinNe { a, b } if cub_proto::compare_terms(a, b) == Ordering::Greater => Lit::FinNe {
            a: b,
            b: a,
        },
        Lit::ProcEq { a, b } if cub_proto::compare_process_sides(a, b) == Ordering::Greater =>
            Lit::ProcEq { a: b, b: a },
        Lit::ProcNe { a, b } if cub_proto::compare_process_sides(a, b) == Ordering::Greater =>
            Lit::ProcNe { a: b, b: a },
        other => other,
    }
}

fn are_two_places(a: PSide, b: PSide) -> bool
    ensures { result ≡ are_two_places a b }
{
    match (a, b) {
        (PSide::Place(p), PSide::Place(q)) => p != q,
        _ => false,
    }
}

/// Whether the literal is true by itself: a mask of all constructors, an equality of equal sides, two different
/// places, or a difference of equal sides with a bound of at least 0. It is false by itself where its negation is
/// true by itself.
pub fn is_true_alone(protocol: &Protocol, lit: &Lit) -> bool
    ensures { result ≡ is_true_alone (signature_of protocol.now) lit.now }
{
    match *lit {
        Lit::FinIn { term, mask } => mask == cub_proto::full_mask(protocol, term),
        Lit::FinEq { a, b } => cub_proto::compare_terms(a, b) == Ordering::Equal,
        Lit::FinNe { .. } => false,
        Lit::ProcEq { a, b } => cub_proto::compare_process_sides(a, b) == Ordering::Equal,
        Lit::ProcNe { a, b } => are_two_places(a, b),
        Lit::Diff { a, b, bound } => cub_proto::compare_integer_sides(a, b) == Ordering::Equal
            && bound >= 0,
    }
}

fn subject(lit: &Lit) -> Lit
    ensures { result ≡ subject lit.now }
{
    match *lit {
        Lit::FinIn { term, .. } => Lit::FinIn { term, mask: 0 },
        Lit::Diff { a, b, .. } => Lit::Diff { a, b, bound: 0 },
        other => other,
    }
}

/// The order of what two literals speak of: masks and bounds don't count.
pub fn compare_subjects(a: &Lit, b: &Lit) -> Ordering
    ensures { result ≡ subject_cmp a.now b.now }
{
    cub_proto::compare_lits(&subject(a), &subject(b))
}

fn mask_of(lit: &Lit) -> u64
    ensures { result ≡ mask_of lit.now }
{
    match *lit {
        Lit::FinIn { mask, .. } => mask,
        _ => 0,
    }
}

fn bound_of(lit: &Lit) -> i64
    ensures { result ≡ bound_of lit.now }
{
    match *lit {
        Lit::Diff { bound, .. } => bound,
        _ => 0,
    }
}

/// Two literals of one subject as one.
pub fn joined(lit: &Lit, other: &Lit) -> Lit
    ensures { result ≡ joined lit.now other.now }
{
    match *lit {
        Lit::FinIn { term, mask } => Lit::FinIn {
            term,
            mask: mask & mask_of(other),
        },
        Lit::Diff { a, b, bound } => Lit::Diff {
            a,
            b,
            bound: bound.min(bound_of(other)),
        },
        same => same,
    }
}

// how many literals stand at or before the place of `lit`, in a rising list
fn count_up_to(form: &[Lit], lit: &Lit) -> usize
    ensures within { result ≤ length form.now }
    ensures after { All (λ m. subject_cmp lit.now m ≡ Ordering.Less) (drop result form.now) }
    ensures before { 0 < result → subject_cmp lit.now (slice_index_or form.now (result - 1) lit.now) ≢ Ordering.Less }
{
    let mut count = form.len();
    while count > 0 && compare_subjects(lit, &form[count - 1]) == Ordering::Less {
        count -= 1;
    }
    count
}

// whether the literal before that place has the subject of `lit`
fn has_subject_before(form: &[Lit], place: usize, lit: &Lit) -> bool
    requires { place ≤ length form.now }
    ensures there { IsTrue result → 0 < place }
    ensures same { IsTrue result → subject_cmp lit.now (slice_index_or form.now (place - 1) lit.now) ≡ Ordering.Equal }
    ensures other { result ≡ false → 0 < place → subject_cmp lit.now (slice_index_or form.now (place - 1) lit.now) ≢ Ordering.Equal }
{
    place > 0 && compare_subjects(lit, &form[place - 1]) == Ordering::Equal
}

fn insert(form: &mut Vec<Lit>, lit: Lit) -> Result<(), AllocError>
    requires { IsTrue (subjects_rise form.old.items) }
    ensures { OnOk result (form.new.items ≡ inserted form.old.items lit) }
{
    let count = count_up_to(form.as_slice(), &lit);
    if has_subject_before(form.as_slice(), count, &lit) {
        form[count - 1] = joined(&form[count - 1], &lit);
        return Ok(());
    }
    form.insert(count, lit)?;
    Ok(())
}

fn place(protocol: &Protocol, form: &mut Vec<Lit>, lit: &Lit) -> Result<(), AllocError>
    requires { IsTrue (subjects_rise form.old.items) }
    ensures { OnOk result (form.new.items ≡ placed (signature_of protocol.now) form.old.items lit.now) }
{
    if is_true_alone(protocol, lit) {
        return Ok(());
    }
    insert(form, ordered(lit))
}

/// The normal form of a conjunction.
pub fn normal_form(alloc: Global, protocol: &Protocol, lits: &[Lit]) -> Result<Lits, Memory>
    ensures { IfOk result (λ form. form ≡ normal_form (signature_of protocol.now) lits.now) }
{
    let mut form = Vec::with_capacity(alloc, lits.len())?;
    for lit in lits {
        place(protocol, &mut form, lit)?;
    }
    Ok(Items::from_vec(form))
}

/// The normal form of a conjunction at the places of a renaming.
pub fn renamed_form(
    alloc: Global,
    protocol: &Protocol,
    places: &[u8],
    lits: &[Lit],
) -> Result<Lits, Memory>
    requires { IsTrue (list_all (is_within (length places.now)) lits.now) }
    ensures { IfOk result (λ form. form ≡ normal_form (signature_of protocol.now) (renamed_all places.now lits.now)) }
{
    let mut form = Vec::with_capacity(alloc, lits.len())?;
    for lit in lits {
        place(protocol, &mut form, &renamed(places, lit))?;
    }
    Ok(Items::from_vec(form))
}

fn has_ordered_sides(lit: &Lit) -> bool
    ensures { result ≡ has_ordered_sides lit.now }
{
    match *lit {
        Lit::FinEq { a, b } | Lit::FinNe { a, b } => cub_proto::compare_terms(a, b)
            != Ordering::Greater,
        Lit::ProcEq { a, b } | Lit::ProcNe { a, b } => cub_proto::compare_process_sides(a, b)
            != Ordering::Greater,
        Lit::FinIn { .. } | Lit::Diff { .. } => true,
    }
}

fn is_plain(protocol: &Protocol, lit: &Lit) -> bool
    ensures { result ≡ is_plain (signature_of protocol.now) lit.now }
{
    has_ordered_sides(lit) && !is_true_alone(protocol, lit)
}

fn is_below(lit: &Lit, other: &Lit) -> bool
    ensures { result ≡ is_lt (subject_cmp lit.now other.now) }
{
    compare_subjects(lit, other) == Ordering::Less
}

fn subjects_rise(lits: &[Lit]) -> bool
    ensures { result ≡ subjects_rise lits.now }
{
    for at in 1..lits.len() {
        if !is_below(&lits[at - 1], &lits[at]) {
            return false;
        }
    }
    true
}

fn are_plain(protocol: &Protocol, lits: &[Lit]) -> bool
    ensures { result ≡ list_all (is_plain (signature_of protocol.now)) lits.now }
{
    lits.iter().all(|lit| is_plain(protocol, lit))
}

/// Whether the literals are a normal form: then it is theirs.
pub fn is_normal(protocol: &Protocol, lits: &[Lit]) -> bool
    ensures { result ≡ is_normal (signature_of protocol.now) lits.now }
{
    are_plain(protocol, lits) && subjects_rise(lits)
}
