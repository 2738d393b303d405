//! Normal forms and renamings whose expected values come from an independent program.

ghost use Rattle.std.specs.Prelude.{◌≡◌};

use crate::{Cube, terms_in};
use cub_base::{Items, Name};
use cub_proto::{Decl, Decls, ISide, Lit, PSide, Protocol, Sort, SortDecl, SortDecls, Term};
use std::alloc::{AllocError, Global};
use std::process::Abort;
use std::test::Fail;

fn name(alloc: Global, bytes: &[u8]) -> Result<Name, AllocError> {
    Items::from_slice(alloc, bytes)
}

// `bool`, and `t` with three constructors
fn sorts(alloc: Global) -> Result<SortDecls, AllocError> {
    let mut cons = Items::new(alloc);
    cons.push(name(alloc, b"False")?)?;
    cons.push(name(alloc, b"True")?)?;
    let mut more = Items::new(alloc);
    more.push(name(alloc, b"P")?)?;
    more.push(name(alloc, b"Q")?)?;
    more.push(name(alloc, b"R")?)?;
    let mut sorts = Items::new(alloc);
    sorts.push(SortDecl {
        name: name(alloc, b"bool")?,
        cons,
    })?;
    sorts.push(SortDecl {
        name: name(alloc, b"t")?,
        cons: more,
    })?;
    Ok(sorts)
}

fn decls(alloc: Global, list: &[(&[u8], Sort)]) -> Result<Decls, AllocError> {
    let mut decls = Items::new(alloc);
    for (bytes, sort) in list {
        decls.push(Decl {
            name: name(alloc, *bytes)?,
            sort: *sort,
        })?;
    }
    Ok(decls)
}

// globals F, G : t, X, Y : int, W, V : proc; arrays A : t, N : int
fn protocol(alloc: Global) -> Result<Protocol, Fail> {
    let sorts = sorts(alloc)?;
    let globals = decls(
        alloc,
        &[
            (b"F", Sort::Fin(1)),
            (b"G", Sort::Fin(1)),
            (b"X", Sort::Int),
            (b"Y", Sort::Int),
            (b"W", Sort::Proc),
            (b"V", Sort::Proc),
        ],
    )?;
    let arrays = decls(alloc, &[(b"A", Sort::Fin(1)), (b"N", Sort::Int)])?;
    let none = Items::new(alloc);
    Ok(Protocol::try_new(
        alloc,
        sorts,
        globals,
        arrays,
        none,
        Items::new(alloc),
        Items::new(alloc),
    )?)
}

const F: Term = Term::Global(0);

const G: Term = Term::Global(1);

const X: ISide = ISide::At(Term::Global(2));

const W: PSide = PSide::Global(4);

const V: PSide = PSide::Global(5);

fn a(place: u8) -> Term
    ensures { result ≡ Term.Cell 0 place }
{
    Term::Cell(0, place)
}

fn n(place: u8) -> ISide
    ensures { result ≡ ISide.At (Term.Cell 1 place) }
{
    ISide::At(Term::Cell(1, place))
}

fn normal(rt: &(impl Abort + AllocGlobal), lits: &[Lit], want: &[Lit]) -> Result<(), Fail> {
    let protocol = protocol(rt.alloc())?;
    let cube = Cube::of(rt.alloc(), &protocol, 3, lits)?;
    assert_eq!(rt; cube.width, 3);
    assert_eq!(rt; cube.lits.as_slice(), want);
    let copy = cube.copy()?;
    assert_eq!(rt; copy.lits.as_slice(), want);
    Ok(())
}

#[test]
fn masks_and_bounds_are_joined(rt: HostRuntime) -> Result<(), Fail> {
    let masks = [
        Lit::FinIn {
            term: a(1),
            mask: 3,
        },
        Lit::FinIn { term: F, mask: 7 },
        Lit::FinIn {
            term: a(1),
            mask: 6,
        },
    ];
    normal(
        &rt,
        &masks,
        &[Lit::FinIn {
            term: a(1),
            mask: 2,
        }],
    )?;
    let bounds = [
        Lit::Diff {
            a: X,
            b: ISide::Zero,
            bound: 5,
        },
        Lit::Diff {
            a: X,
            b: X,
            bound: 0,
        },
        Lit::Diff {
            a: ISide::Zero,
            b: X,
            bound: -4,
        },
        Lit::Diff {
            a: X,
            b: ISide::Zero,
            bound: 3,
        },
        Lit::Diff {
            a: X,
            b: ISide::Zero,
            bound: 4,
        },
    ];
    normal(
        &rt,
        &bounds,
        &[
            Lit::Diff {
                a: ISide::Zero,
                b: X,
                bound: -4,
            },
            Lit::Diff {
                a: X,
                b: ISide::Zero,
                bound: 3,
            },
        ],
    )
}

#[test]
fn sides_are_ordered_and_false_literals_stay(rt: HostRuntime) -> Result<(), Fail> {
    let sides = [
        Lit::FinEq { a: a(1), b: F },
        Lit::ProcNe {
            a: PSide::Place(2),
            b: PSide::Place(0),
        },
        Lit::FinNe { a: G, b: F },
        Lit::ProcEq {
            a: PSide::Place(1),
            b: W,
        },
        Lit::FinEq { a: F, b: a(1) },
        Lit::ProcNe {
            a: PSide::Place(1),
            b: PSide::Place(1),
        },
        Lit::ProcNe { a: V, b: W },
    ];
    let want = [
        Lit::FinEq { a: F, b: a(1) },
        Lit::FinNe { a: F, b: G },
        Lit::ProcEq {
            a: W,
            b: PSide::Place(1),
        },
        Lit::ProcNe { a: W, b: V },
        Lit::ProcNe {
            a: PSide::Place(1),
            b: PSide::Place(1),
        },
    ];
    normal(&rt, &sides, &want)?;
    let falses = [
        Lit::Diff {
            a: ISide::Zero,
            b: ISide::Zero,
            bound: -1,
        },
        Lit::FinNe { a: F, b: F },
        Lit::FinEq { a: G, b: G },
        Lit::ProcEq { a: W, b: W },
        Lit::FinIn { term: F, mask: 0 },
        Lit::Diff {
            a: n(0),
            b: n(0),
            bound: -2,
        },
    ];
    let stay = [
        Lit::FinIn { term: F, mask: 0 },
        Lit::FinNe { a: F, b: F },
        Lit::Diff {
            a: ISide::Zero,
            b: ISide::Zero,
            bound: -1,
        },
        Lit::Diff {
            a: n(0),
            b: n(0),
            bound: -2,
        },
    ];
    normal(&rt, &falses, &stay)
}

#[test]
fn renamed_cubes_are_normal_again(rt: HostRuntime) -> Result<(), Fail> {
    let protocol = protocol(rt.alloc())?;
    let lits = [
        Lit::FinIn {
            term: a(0),
            mask: 1,
        },
        Lit::FinEq { a: a(0), b: a(1) },
        Lit::ProcEq {
            a: W,
            b: PSide::Place(1),
        },
        Lit::ProcNe {
            a: PSide::Place(0),
            b: V,
        },
        Lit::Diff {
            a: n(1),
            b: ISide::Zero,
            bound: -1,
        },
        Lit::Diff {
            a: n(0),
            b: X,
            bound: 7,
        },
    ];
    let want = [
        Lit::FinIn {
            term: a(3),
            mask: 1,
        },
        Lit::FinEq { a: a(1), b: a(3) },
        Lit::ProcEq {
            a: W,
            b: PSide::Place(1),
        },
        Lit::ProcNe {
            a: V,
            b: PSide::Place(3),
        },
        Lit::Diff {
            a: n(1),
            b: ISide::Zero,
            bound: -1,
        },
        Lit::Diff {
            a: n(3),
            b: X,
            bound: 7,
        },
    ];
    let cube = Cube {
        width: 2,
        lits: Items::from_slice(rt.alloc(), &lits)?,
    };
    let renamed = cube.renamed(&protocol, 4, &[3, 1])?.lits;
    assert_eq!(rt; renamed.as_slice(), want.as_slice());
    assert!(rt; crate::is_normal(&protocol, renamed.as_slice()));
    let terms = terms_in(rt.alloc(), renamed.as_slice())?;
    let mentioned = [
        Term::Global(2),
        Term::Global(4),
        Term::Global(5),
        a(1),
        a(3),
        Term::Cell(1, 1),
        Term::Cell(1, 3),
    ];
    assert_eq!(rt; terms.as_slice(), mentioned.as_slice());
    Ok(())
}
