//! Sides that a name gives, alone or with an index. A process variable stands before all else of its name.

ghost use Rattle.std.specs.Prelude.{◌≡◌, IfSome, IsTrue, None};
ghost use Rattle.cub_names.specs.Checked.{first_of_all};
ghost use Rattle.cub_names.specs.Meaning.{what_fits};
ghost use Rattle.cub_names.specs.Sides.{sort_of_side, is_small, what_is_small, global_side, cell_side, plain_value, plain, index_place, indexed, named, place_at, what_at};

use crate::fault::{Fault, TypeKind};
use crate::first::tell;
use crate::meaning::What;
use crate::names::Names;
use crate::scope::{Local, place_of};
use cub_parse::Leaf;
use cub_proto::{ISide, PSide, Sort, Term};

/// A side: a constructor of a type, a finite term with the number of its type, a process, or an integer term plus a
/// constant.
#[derive(Clone, Copy, Debug)]
pub enum Side {
    Con(u16, u8),
    Fin(u16, Term),
    Proc(PSide),
    Int(ISide, i64),
}

/// The sort of the side.
pub fn sort_of_side(side: Side) -> Sort
    ensures { result ≡ sort_of_side side }
{
    match side {
        Side::Con(sort, _) | Side::Fin(sort, _) => Sort::Fin(sort),
        Side::Proc(_) => Sort::Proc,
        Side::Int(_, _) => Sort::Int,
    }
}

fn global_side(global: u16, sort: Sort) -> Side
    ensures value { result ≡ global_side global sort }
    ensures small { IsTrue (is_small result) }
{
    match sort {
        Sort::Fin(number) => Side::Fin(number, Term::Global(global)),
        Sort::Proc => Side::Proc(PSide::Global(global)),
        Sort::Int => Side::Int(ISide::At(Term::Global(global)), 0),
    }
}

fn cell_side(
    first: &mut Option<Fault>,
    token: u32,
    array: u16,
    place: u8,
    sort: Sort,
) -> Option<Side>
    ensures value { result ≡ (cell_side token array place sort).value }
    ensures first { first.new ≡ first_of_all first.old (cell_side token array place sort).faults }
    ensures small { IfSome result (λ side. IsTrue (is_small side)) }
{
    let cell = Term::Cell(array, place);
    match sort {
        Sort::Fin(number) => Some(Side::Fin(number, cell)),
        Sort::Int => Some(Side::Int(ISide::At(cell), 0)),
        Sort::Proc => {
            tell(first, token, TypeKind::T13);
            None
        }
    }
}

fn plain_value(first: &mut Option<Fault>, token: u32, what: Option<What>) -> Option<Side>
    requires { IfSome what (λ w. IsTrue (what_is_small w)) }
    ensures value { result ≡ (plain_value token what).value }
    ensures first { first.new ≡ first_of_all first.old (plain_value token what).faults }
    ensures small { IfSome result (λ side. IsTrue (is_small side)) }
{
    match what {
        Some(What::Con(sort, number)) => Some(Side::Con(sort, number)),
        Some(What::Global(global, sort)) => Some(global_side(global, sort)),
        Some(What::Array(_, _)) => {
            tell(first, token, TypeKind::T13);
            None
        }
        None => {
            tell(first, token, TypeKind::T01);
            None
        }
    }
}

fn plain(
    first: &mut Option<Fault>,
    token: u32,
    place: Option<u8>,
    what: Option<What>,
) -> Option<Side>
    requires { IfSome what (λ w. IsTrue (what_is_small w)) }
    ensures value { result ≡ (plain token place what).value }
    ensures first { first.new ≡ first_of_all first.old (plain token place what).faults }
    ensures small { IfSome result (λ side. IsTrue (is_small side)) }
{
    match place {
        Some(place) => Some(Side::Proc(PSide::Place(place))),
        None => plain_value(first, token, what),
    }
}

fn index_place(
    first: &mut Option<Fault>,
    token: u32,
    place: Option<u8>,
    what: Option<What>,
) -> Option<u8>
    ensures value { result ≡ (index_place token place what).value }
    ensures first { first.new ≡ first_of_all first.old (index_place token place what).faults }
{
    if place.is_some() {
        return place;
    }
    let kind = match what {
        Some(_) => TypeKind::T04,
        None => TypeKind::T01,
    };
    tell(first, token, kind);
    None
}

/// The place of the variable that the leaf names.
pub fn place_at(names: &Names, scope: &[Local], leaf: &Leaf) -> Option<u8>
    ensures { result ≡ place_at names.now scope.now leaf.now }
{
    place_of(names.text(), scope, names.word(leaf))
}

/// What the leaf names, a variable aside.
pub fn what_at(names: &Names, leaf: &Leaf) -> Option<What>
    ensures value { result ≡ what_at names.now leaf.now }
    ensures fits { IfSome result (λ what. IsTrue (what_fits names.now.sig what)) }
    ensures small { IfSome result (λ what. IsTrue (what_is_small what)) }
{
    names.stands_for(names.word(leaf))
}

fn cell_at(
    names: &Names,
    scope: &[Local],
    first: &mut Option<Fault>,
    token: u32,
    array: u16,
    sort: Sort,
    index: &Leaf,
) -> Option<Side>
    ensures value { result ≡ (indexed token None (Some (What.Array array sort)) (index_place index.now.number (place_at names.now scope.now index.now) (what_at names.now index.now))).value }
    ensures first { first.new ≡ first_of_all first.old (indexed token None (Some (What.Array array sort)) (index_place index.now.number (place_at names.now scope.now index.now) (what_at names.now index.now))).faults }
    ensures small { IfSome result (λ side. IsTrue (is_small side)) }
{
    let place = place_at(names, scope, index);
    let what = what_at(names, index);
    match index_place(first, index.number, place, what) {
        Some(place) => cell_side(first, token, array, place, sort),
        None => None,
    }
}

fn indexed(
    names: &Names,
    scope: &[Local],
    first: &mut Option<Fault>,
    name: &Leaf,
    index: &Leaf,
) -> Option<Side>
    ensures value { result ≡ (named names.now scope.now name.now (Some index.now)).value }
    ensures first { first.new ≡ first_of_all first.old (named names.now scope.now name.now (Some index.now)).faults }
    ensures small { IfSome result (λ side. IsTrue (is_small side)) }
{
    let place = place_at(names, scope, name);
    let what = what_at(names, name);
    match (place, what) {
        (None, Some(What::Array(array, sort))) => {
            cell_at(names, scope, first, name.number, array, sort, index)
        }
        (None, None) => {
            tell(first, name.number, TypeKind::T01);
            None
        }
        _ => {
            tell(first, name.number, TypeKind::T13);
            None
        }
    }
}

/// The side that a name gives, with an index or without.
pub fn named(
    names: &Names,
    scope: &[Local],
    first: &mut Option<Fault>,
    name: &Leaf,
    index: Option<Leaf>,
) -> Option<Side>
    ensures value { result ≡ (named names.now scope.now name.now index).value }
    ensures first { first.new ≡ first_of_all first.old (named names.now scope.now name.now index).faults }
    ensures small { IfSome result (λ side. IsTrue (is_small side)) }
{
    match index {
        Some(index) => indexed(names, scope, first, name, &index),
        None => {
            let place = place_at(names, scope, name);
            plain(first, name.number, place, what_at(names, name))
        }
    }
}
