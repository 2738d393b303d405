//! Expected values: the answers of an independent program, which takes its definitions from the same rules. Each cube is
//! given with the cube without idle literals, the named cube and the old places.

ghost use Rattle.std.specs.Prelude.{◌≡◌, IsTrue};
ghost use Rattle.std.specs.List.{list_all};
ghost use Rattle.cub_proto.specs.StateOf.{signature_of};
ghost use Rattle.cub_proto.specs.Fits.{literal_fits, is_bounded};
ghost use Rattle.log_form.specs.Pieces.{IsAskable, greatest_asked};

use crate::{form, is_form, simplify};
use cub_base::{Items, Name, Places};
use cub_cube::{Cube, is_normal};
use cub_proto::{Decl, Decls, ISide, Lit, PSide, Protocol, Sort, SortDecl, SortDecls, Term};
use std::alloc::{AllocError, Global};
use std::process::Abort;
use std::test::Fail;
use theory::Scratch;

fn name(alloc: Global, bytes: &[u8]) -> Result<Name, AllocError> {
    Items::from_slice(alloc, bytes)
}

// `bool`, and `t` with three constructors
fn sorts(alloc: Global) -> Result<SortDecls, AllocError> {
    let mut cons = Items::new(alloc);
    cons.push(name(alloc, b"False")?)?;
    cons.push(name(alloc, b"True")?)?;
    let mut more = Items::new(alloc);
    more.push(name(alloc, b"P")?)?;
    more.push(name(alloc, b"Q")?)?;
    more.push(name(alloc, b"R")?)?;
    let mut sorts = Items::new(alloc);
    sorts.push(SortDecl {
        name: name(alloc, b"bool")?,
        cons,
    })?;
    sorts.push(SortDecl {
        name: name(alloc, b"t")?,
        cons: more,
    })?;
    Ok(sorts)
}

fn decls(alloc: Global, list: &[(&[u8], Sort)]) -> Result<Decls, AllocError> {
    let mut decls = Items::new(alloc);
    for (bytes, sort) in list {
        decls.push(Decl {
            name: name(alloc, *bytes)?,
            sort: *sort,
        })?;
    }
    Ok(decls)
}

// globals F, G : t, X, Y : int, W, V : proc; arrays A : t, N : int
fn protocol(alloc: Global) -> Result<Protocol, Fail> {
    let sorts = sorts(alloc)?;
    let globals = decls(
        alloc,
        &[
            (b"F", Sort::Fin(1)),
            (b"G", Sort::Fin(1)),
            (b"X", Sort::Int),
            (b"Y", Sort::Int),
            (b"W", Sort::Proc),
            (b"V", Sort::Proc),
        ],
    )?;
    let arrays = decls(alloc, &[(b"A", Sort::Fin(1)), (b"N", Sort::Int)])?;
    let none = Items::new(alloc);
    Ok(Protocol::try_new(
        alloc,
        sorts,
        globals,
        arrays,
        none,
        Items::new(alloc),
        Items::new(alloc),
    )?)
}

const F: Term = Term::Global(0);

const G: Term = Term::Global(1);

const X: ISide = ISide::At(Term::Global(2));

const Y: ISide = ISide::At(Term::Global(3));

const W: PSide = PSide::Global(4);

const V: PSide = PSide::Global(5);

fn a(place: u8) -> Term {
    Term::Cell(0, place)
}

fn n(place: u8) -> ISide {
    ISide::At(Term::Cell(1, place))
}

fn at(place: u8) -> PSide {
    PSide::Place(place)
}

fn member(term: Term, mask: u64) -> Lit {
    Lit::FinIn { term, mask }
}

fn alike(a: Term, b: Term) -> Lit {
    Lit::FinEq { a, b }
}

fn unlike(a: Term, b: Term) -> Lit {
    Lit::FinNe { a, b }
}

fn same(a: PSide, b: PSide) -> Lit {
    Lit::ProcEq { a, b }
}

fn other(a: PSide, b: PSide) -> Lit {
    Lit::ProcNe { a, b }
}

fn diff(a: ISide, b: ISide, bound: i64) -> Lit {
    Lit::Diff { a, b, bound }
}

fn fits(protocol: &Protocol, width: u8, lit: &Lit) -> bool
    ensures { result ≡ literal_fits (signature_of protocol.now) width lit.now }
{
    cub_proto::literal_fits(&protocol.declared(), u16::from(width), lit)
}

fn all_fit(protocol: &Protocol, width: u8, lits: &[Lit]) -> bool
    ensures { result ≡ list_all (literal_fits (signature_of protocol.now) width) lits.now }
{
    lits.iter().all(|lit| fits(protocol, width, lit))
}

fn are_bounded(lits: &[Lit]) -> bool
    ensures { result ≡ list_all (is_bounded greatest_asked) lits.now }
{
    lits.iter()
        .all(|lit| cub_proto::is_bounded(281474976710655, lit))
}

// Whether the cube may be asked about.
fn may_ask(protocol: &Protocol, cube: &Cube) -> bool
    ensures { IsTrue result → IsAskable protocol.now cube.now }
{
    cube.width <= 11
        && all_fit(protocol, cube.width, cube.lits.as_slice())
        && is_normal(protocol, cube.lits.as_slice())
        && are_bounded(cube.lits.as_slice())
}

fn cube(alloc: Global, width: u8, lits: &[Lit]) -> Result<Cube, AllocError> {
    Ok(Cube {
        width,
        lits: Items::from_slice(alloc, lits)?,
    })
}

fn form_is(
    rt: &(impl Abort + AllocGlobal),
    width: u8,
    lits: &[Lit],
    simple: &[Lit],
    named: &[Lit],
    places: &[u8],
) -> Result<(), Fail> {
    let protocol = protocol(rt.alloc())?;
    let mut scratch = Scratch::new(rt.alloc(), &protocol)?;
    let given = cube(rt.alloc(), width, lits)?;
    assert!(rt; may_ask(&protocol, &given));
    let simplified = simplify(&mut scratch, &protocol, given.copy()?);
    assert_eq!(rt; simplified.width, width);
    assert_eq!(rt; simplified.lits.as_slice(), simple);
    let (found, renaming) = form(&mut scratch, &protocol, given.copy()?)?;
    assert_eq!(rt; found.width, width);
    assert_eq!(rt; found.lits.as_slice(), named);
    assert_eq!(rt; renaming.as_slice(), places);
    assert!(rt; may_ask(&protocol, &found));
    assert!(rt; is_form(&mut scratch, &protocol, &given, &renaming, &found));
    Ok(())
}

#[test]
fn what_others_entail_is_dropped(rt: HostRuntime) -> Result<(), Fail> {
    form_is(
        &rt,
        0,
        &[
            diff(X, ISide::Zero, 0),
            diff(X, Y, 0),
            diff(Y, ISide::Zero, 0),
        ],
        &[diff(X, Y, 0), diff(Y, ISide::Zero, 0)],
        &[diff(X, Y, 0), diff(Y, ISide::Zero, 0)],
        &[],
    )?;
    form_is(
        &rt,
        1,
        &[alike(F, G), alike(F, a(0)), alike(G, a(0))],
        &[alike(F, G), alike(F, a(0))],
        &[alike(F, G), alike(F, a(0))],
        &[0],
    )?;
    form_is(
        &rt,
        0,
        &[member(F, 1), member(G, 6), unlike(F, G)],
        &[member(F, 1), member(G, 6)],
        &[member(F, 1), member(G, 6)],
        &[],
    )?;
    form_is(
        &rt,
        2,
        &[same(W, at(0)), same(V, at(1)), other(W, V)],
        &[same(W, at(0)), same(V, at(1))],
        &[same(W, at(0)), same(V, at(1))],
        &[0, 1],
    )?;
    form_is(
        &rt,
        0,
        &[member(F, 0), diff(X, Y, -1), diff(Y, X, -1)],
        &[member(F, 0)],
        &[member(F, 0)],
        &[],
    )?;
    form_is(
        &rt,
        0,
        &[
            diff(X, ISide::Zero, 281474976710655),
            diff(X, Y, 0),
            diff(Y, ISide::Zero, 3),
        ],
        &[diff(X, Y, 0), diff(Y, ISide::Zero, 3)],
        &[diff(X, Y, 0), diff(Y, ISide::Zero, 3)],
        &[],
    )?;
    Ok(())
}

#[test]
fn places_go_by_what_is_said_of_each_alone(rt: HostRuntime) -> Result<(), Fail> {
    form_is(
        &rt,
        3,
        &[
            member(a(0), 4),
            member(a(1), 2),
            member(a(2), 1),
            diff(n(0), n(2), 5),
        ],
        &[
            member(a(0), 4),
            member(a(1), 2),
            member(a(2), 1),
            diff(n(0), n(2), 5),
        ],
        &[
            member(a(0), 1),
            member(a(1), 2),
            member(a(2), 4),
            diff(n(2), n(0), 5),
        ],
        &[2, 1, 0],
    )?;
    form_is(
        &rt,
        3,
        &[
            member(a(0), 3),
            member(a(1), 3),
            alike(a(0), a(2)),
            diff(n(0), ISide::Zero, -2),
            diff(n(1), ISide::Zero, 0),
        ],
        &[
            member(a(0), 3),
            member(a(1), 3),
            alike(a(0), a(2)),
            diff(n(0), ISide::Zero, -2),
            diff(n(1), ISide::Zero, 0),
        ],
        &[
            member(a(1), 3),
            member(a(2), 3),
            alike(a(0), a(1)),
            diff(n(1), ISide::Zero, -2),
            diff(n(2), ISide::Zero, 0),
        ],
        &[2, 0, 1],
    )?;
    form_is(
        &rt,
        4,
        &[
            member(a(1), 2),
            member(a(3), 2),
            alike(F, a(1)),
            same(W, at(2)),
            other(V, at(3)),
        ],
        &[
            member(a(1), 2),
            member(a(3), 2),
            alike(F, a(1)),
            same(W, at(2)),
            other(V, at(3)),
        ],
        &[
            member(a(1), 2),
            member(a(2), 2),
            alike(F, a(1)),
            same(W, at(3)),
            other(V, at(2)),
        ],
        &[0, 1, 3, 2],
    )?;
    form_is(&rt, 3, &[], &[], &[], &[0, 1, 2])?;
    form_is(
        &rt,
        3,
        &[unlike(a(0), a(1)), unlike(a(0), a(2)), unlike(a(1), a(2))],
        &[unlike(a(0), a(1)), unlike(a(0), a(2)), unlike(a(1), a(2))],
        &[unlike(a(0), a(1)), unlike(a(0), a(2)), unlike(a(1), a(2))],
        &[0, 1, 2],
    )?;
    form_is(
        &rt,
        2,
        &[diff(n(0), ISide::Zero, 4), diff(n(1), n(1), -2)],
        &[diff(n(1), n(1), -2)],
        &[diff(n(1), n(1), -2)],
        &[0, 1],
    )?;
    Ok(())
}

#[test]
fn literals_go_and_places_move(rt: HostRuntime) -> Result<(), Fail> {
    form_is(
        &rt,
        5,
        &[
            member(a(2), 5),
            member(a(3), 2),
            same(W, V),
            same(V, at(0)),
            other(V, at(4)),
        ],
        &[member(a(2), 5), member(a(3), 2), same(W, V), same(V, at(0))],
        &[member(a(2), 2), member(a(3), 5), same(W, V), same(V, at(4))],
        &[1, 4, 3, 2, 0],
    )?;
    form_is(
        &rt,
        3,
        &[
            member(F, 4),
            member(a(0), 1),
            alike(F, a(1)),
            unlike(F, a(0)),
            same(V, at(0)),
        ],
        &[
            member(F, 4),
            member(a(0), 1),
            alike(F, a(1)),
            same(V, at(0)),
        ],
        &[
            member(F, 4),
            member(a(1), 1),
            alike(F, a(2)),
            same(V, at(1)),
        ],
        &[2, 0, 1],
    )?;
    form_is(
        &rt,
        5,
        &[
            member(G, 5),
            member(a(0), 4),
            member(a(3), 5),
            alike(F, G),
            alike(a(3), a(4)),
            same(V, at(0)),
            other(V, at(3)),
            diff(Y, n(2), 0),
        ],
        &[
            member(G, 5),
            member(a(0), 4),
            member(a(3), 5),
            alike(F, G),
            alike(a(3), a(4)),
            same(V, at(0)),
            diff(Y, n(2), 0),
        ],
        &[
            member(G, 5),
            member(a(2), 4),
            member(a(3), 5),
            alike(F, G),
            alike(a(1), a(3)),
            same(V, at(2)),
            diff(Y, n(4), 0),
        ],
        &[1, 4, 0, 3, 2],
    )?;
    form_is(
        &rt,
        5,
        &[
            member(a(0), 1),
            member(a(3), 6),
            same(W, at(0)),
            other(W, at(2)),
        ],
        &[member(a(0), 1), member(a(3), 6), same(W, at(0))],
        &[member(a(3), 1), member(a(4), 6), same(W, at(3))],
        &[1, 2, 4, 0, 3],
    )?;
    Ok(())
}

#[test]
fn literals_go_and_places_move_further(rt: HostRuntime) -> Result<(), Fail> {
    form_is(
        &rt,
        5,
        &[
            member(F, 5),
            member(G, 6),
            member(a(2), 1),
            same(W, at(3)),
            other(W, at(4)),
            diff(Y, X, -1),
            diff(n(2), Y, 1),
        ],
        &[
            member(F, 5),
            member(G, 6),
            member(a(2), 1),
            same(W, at(3)),
            diff(Y, X, -1),
            diff(n(2), Y, 1),
        ],
        &[
            member(F, 5),
            member(G, 6),
            member(a(3), 1),
            same(W, at(4)),
            diff(Y, X, -1),
            diff(n(3), Y, 1),
        ],
        &[0, 1, 4, 2, 3],
    )?;
    form_is(
        &rt,
        4,
        &[
            member(a(0), 1),
            member(a(1), 2),
            member(a(3), 2),
            alike(G, a(0)),
            same(V, at(1)),
            other(V, at(3)),
            diff(X, n(1), 1),
        ],
        &[
            member(a(0), 1),
            member(a(1), 2),
            member(a(3), 2),
            alike(G, a(0)),
            same(V, at(1)),
            diff(X, n(1), 1),
        ],
        &[
            member(a(1), 1),
            member(a(2), 2),
            member(a(3), 2),
            alike(G, a(1)),
            same(V, at(3)),
            diff(X, n(3), 1),
        ],
        &[2, 0, 3, 1],
    )?;
    form_is(
        &rt,
        4,
        &[
            member(F, 1),
            member(a(3), 1),
            alike(F, G),
            alike(G, a(1)),
            alike(G, a(3)),
            diff(Y, X, -3),
            diff(n(0), Y, -1),
            diff(n(2), n(1), -3),
        ],
        &[
            member(F, 1),
            member(a(3), 1),
            alike(F, G),
            alike(G, a(1)),
            diff(Y, X, -3),
            diff(n(0), Y, -1),
            diff(n(2), n(1), -3),
        ],
        &[
            member(F, 1),
            member(a(1), 1),
            alike(F, G),
            alike(G, a(2)),
            diff(Y, X, -3),
            diff(n(0), n(2), -3),
            diff(n(3), Y, -1),
        ],
        &[2, 3, 1, 0],
    )?;
    Ok(())
}

#[test]
fn literals_go_and_places_move_again(rt: HostRuntime) -> Result<(), Fail> {
    form_is(
        &rt,
        4,
        &[
            member(F, 6),
            member(G, 1),
            member(a(0), 5),
            member(a(1), 3),
            same(W, at(1)),
            diff(ISide::Zero, n(2), -1),
            diff(n(0), n(3), 1),
            diff(n(1), ISide::Zero, 0),
            diff(n(1), n(2), 0),
        ],
        &[
            member(F, 6),
            member(G, 1),
            member(a(0), 5),
            member(a(1), 3),
            same(W, at(1)),
            diff(ISide::Zero, n(2), -1),
            diff(n(0), n(3), 1),
            diff(n(1), ISide::Zero, 0),
        ],
        &[
            member(F, 6),
            member(G, 1),
            member(a(1), 3),
            member(a(2), 5),
            same(W, at(1)),
            diff(ISide::Zero, n(3), -1),
            diff(n(1), ISide::Zero, 0),
            diff(n(2), n(0), 1),
        ],
        &[3, 1, 0, 2],
    )?;
    form_is(
        &rt,
        5,
        &[
            member(a(0), 2),
            member(a(1), 2),
            member(a(2), 1),
            member(a(3), 2),
            unlike(a(0), a(2)),
            other(W, at(1)),
        ],
        &[
            member(a(0), 2),
            member(a(1), 2),
            member(a(2), 1),
            member(a(3), 2),
            other(W, at(1)),
        ],
        &[
            member(a(1), 1),
            member(a(2), 2),
            member(a(3), 2),
            member(a(4), 2),
            other(W, at(4)),
        ],
        &[4, 2, 0, 3, 1],
    )?;
    form_is(
        &rt,
        4,
        &[
            member(a(1), 2),
            member(a(3), 1),
            unlike(G, a(2)),
            unlike(G, a(3)),
            unlike(a(1), a(3)),
            diff(Y, X, 2),
            diff(n(2), n(1), -1),
        ],
        &[
            member(a(1), 2),
            member(a(3), 1),
            unlike(G, a(2)),
            unlike(G, a(3)),
            diff(Y, X, 2),
            diff(n(2), n(1), -1),
        ],
        &[
            member(a(1), 1),
            member(a(2), 2),
            unlike(G, a(1)),
            unlike(G, a(3)),
            diff(Y, X, 2),
            diff(n(3), n(2), -1),
        ],
        &[0, 3, 1, 2],
    )?;
    Ok(())
}

#[test]
fn inconsistent_cubes_keep_what_makes_them_so(rt: HostRuntime) -> Result<(), Fail> {
    form_is(
        &rt,
        2,
        &[
            member(a(1), 5),
            alike(F, a(1)),
            unlike(F, a(1)),
            same(at(0), at(1)),
        ],
        &[alike(F, a(1)), unlike(F, a(1))],
        &[alike(F, a(1)), unlike(F, a(1))],
        &[0, 1],
    )?;
    form_is(
        &rt,
        2,
        &[
            alike(a(0), a(1)),
            same(V, at(0)),
            other(W, at(1)),
            other(V, at(0)),
        ],
        &[same(V, at(0)), other(V, at(0))],
        &[same(V, at(1)), other(V, at(1))],
        &[1, 0],
    )?;
    form_is(
        &rt,
        1,
        &[
            member(F, 4),
            alike(G, a(0)),
            unlike(F, G),
            unlike(G, a(0)),
            diff(ISide::Zero, Y, 2),
            diff(X, Y, -2),
        ],
        &[alike(G, a(0)), unlike(G, a(0))],
        &[alike(G, a(0)), unlike(G, a(0))],
        &[0],
    )?;
    Ok(())
}

fn answers(
    rt: &(impl Abort + AllocGlobal),
    piece: &Cube,
    places: &[u8],
    width: u8,
    lits: &[Lit],
    expected: bool,
) -> Result<(), Fail> {
    let protocol = protocol(rt.alloc())?;
    let mut scratch = Scratch::new(rt.alloc(), &protocol)?;
    let given = cube(rt.alloc(), width, lits)?;
    let mut renaming = Places::new(rt.alloc());
    for place in places {
        if renaming.len() < 12 {
            renaming.push(*place);
        }
    }
    assert!(rt; may_ask(&protocol, piece));
    assert!(rt; may_ask(&protocol, &given));
    assert_eq!(rt;
        is_form(&mut scratch, &protocol, piece, &renaming, &given),
        expected
    );
    Ok(())
}

#[test]
fn some_literals_with_the_meaning_are_a_form(rt: HostRuntime) -> Result<(), Fail> {
    let p = member(F, 1);
    let q = member(a(0), 1);
    let link = alike(F, a(0));
    let bound = diff(n(0), n(2), 5);
    let piece = cube(rt.alloc(), 3, &[p, q, link, bound])?;
    answers(&rt, &piece, &[0, 1, 2], 3, &[p, q, link, bound], true)?;
    answers(&rt, &piece, &[0, 1, 2], 3, &[p, q, bound], true)?;
    answers(&rt, &piece, &[0, 1, 2], 3, &[p, link, bound], true)?;
    answers(&rt, &piece, &[0, 1, 2], 3, &[p, q, link], false)?;
    answers(&rt, &piece, &[0, 1, 2], 3, &[link, bound], false)?;
    let further = [p, q, member(a(1), 3), bound];
    answers(&rt, &piece, &[0, 1, 2], 3, &further, false)?;
    let wider = [p, q, diff(n(0), n(2), 6)];
    answers(&rt, &piece, &[0, 1, 2], 3, &wider, false)
}

#[test]
fn a_renaming_goes_from_the_form_to_the_piece(rt: HostRuntime) -> Result<(), Fail> {
    let p = member(F, 1);
    let lits = [p, member(a(0), 1), alike(F, a(0)), diff(n(0), n(2), 5)];
    let piece = cube(rt.alloc(), 3, &lits)?;
    let renamed = [p, member(a(1), 1), diff(n(1), n(0), 5)];
    answers(&rt, &piece, &[2, 0, 1], 3, &renamed, true)?;
    answers(&rt, &piece, &[1, 2, 0], 3, &renamed, false)?;
    answers(&rt, &piece, &[0, 1], 2, &[p, member(a(0), 1)], false)?;
    answers(&rt, &piece, &[0, 1, 1], 3, &lits, false)?;
    answers(&rt, &piece, &[0, 1], 3, &lits, false)?;
    answers(&rt, &piece, &[0, 1, 3], 3, &lits, false)?;
    answers(&rt, &piece, &[0, 1, 2, 3], 3, &lits, false)
}

#[test]
fn an_inconsistent_piece_has_inconsistent_forms(rt: HostRuntime) -> Result<(), Fail> {
    let none = member(F, 0);
    let piece = cube(rt.alloc(), 2, &[none, member(a(1), 1)])?;
    answers(&rt, &piece, &[0, 1], 2, &[none], true)?;
    answers(&rt, &piece, &[1, 0], 2, &[none, member(a(0), 1)], true)?;
    answers(&rt, &piece, &[0, 1], 2, &[member(a(1), 1)], false)
}
