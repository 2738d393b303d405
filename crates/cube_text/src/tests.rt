//! Texts of cubes, with what another program said of each; one cube written; widths at the limit of a journal.

use crate::{CubeFault, print_cube, read_cube};
use cub_base::{Items, Name};
use cub_cube::Cube;
use cub_proto::{Decl, Decls, Lit, Protocol, Sort, SortDecl, SortDecls, Term};
use std::alloc::{AllocError, Global};
use std::process::Abort;
use std::test::Fail;

// A line is a text between bars, and what becomes of it where cubes have at most 8 places.
const TEXTS: &str = "\
|cube 0: true| => ok\n\
|cube 2: true| => ok\n\
|cube 8: true| => ok\n\
|cube 9: true| => Unknown\n\
|cube 12: true| => Unknown\n\
|cube 300: true| => Unknown\n\
|cube 99999999999999999999: true| => Unknown\n\
|cube 00: true| => Form\n\
|cube 01: true| => Form\n\
|cube -1: true| => Form\n\
|cube 0:true| => Form\n\
|cube 0:  true| => Form\n\
|cube 0: true | => Form\n\
| cube 0: true| => Form\n\
|cube 0: | => Form\n\
|cube 0| => Form\n\
|cub 0: true| => Form\n\
|cube 0: True| => Form\n\
|cube 0: F = P| => ok\n\
|cube 0: F = P && true| => Form\n\
|cube 0: F in {P,Q}| => ok\n\
|cube 0: F in {Q,P}| => Order\n\
|cube 0: F in {P,P}| => Order\n\
|cube 0: F in {P}| => Order\n\
|cube 0: F in {}| => ok\n\
|cube 0: F in {P,Q,R}| => Order\n\
|cube 0: F in {P, Q}| => Form\n\
|cube 0: F in {P,}| => Form\n\
|cube 0: F in {,P}| => Form\n\
|cube 0: F in P| => Form\n\
|cube 0: F in {S}| => Unknown\n\
|cube 0: X in {P}| => Unknown\n\
|cube 0: F <> P| => Unknown\n\
|cube 0: P = F| => Unknown\n\
|cube 0: F = False| => Unknown\n\
|cube 0: F = F| => Order\n\
|cube 0: F <> F| => ok\n\
|cube 0: F = X| => Unknown\n\
|cube 0: F = W| => Unknown\n\
|cube 1: F = A[#1]| => ok\n\
|cube 1: A[#1] = F| => Order\n\
|cube 1: F <> A[#1]| => ok\n\
|cube 1: A[#1] = P| => ok\n\
|cube 1: A[#2] = P| => Unknown\n\
|cube 1: A[#0] = P| => Unknown\n\
|cube 1: A[#01] = P| => Form\n\
|cube 1: A[1] = P| => Form\n\
|cube 1: A[#1 = P| => Form\n\
|cube 1: A = P| => Unknown\n\
|cube 1: F[#1] = P| => Unknown\n\
|cube 2: A[#1] = A[#2]| => ok\n\
|cube 2: A[#2] = A[#1]| => Order\n\
|cube 2: A[#1] = A[#1]| => Order\n\
|cube 1: W = #1| => ok\n\
|cube 1: W <> #1| => ok\n\
|cube 1: #1 = W| => Form\n\
|cube 2: #1 = #2| => ok\n\
|cube 2: #1 <> #2| => Order\n\
|cube 2: #2 = #1| => Order\n\
|cube 1: #1 = #1| => Order\n\
|cube 1: W = #2| => Unknown\n\
|cube 1: W = #0| => Unknown\n\
|cube 1: F = #1| => Unknown\n\
|cube 0: W = V| => ok\n\
|cube 0: V = W| => Order\n\
|cube 0: W <> V| => ok\n\
|cube 0: W = X| => Unknown\n\
|cube 0: W = F| => Unknown\n\
|cube 0: W = W| => Order\n\
|cube 0: X = Y| => Unknown\n\
|cube 0: X = P| => Unknown\n\
|cube 0: X - Y <= 3| => ok\n\
|cube 0: X - 0 <= 3| => ok\n\
|cube 0: 0 - X <= -3| => ok\n\
|cube 0: 0 - 0 <= -1| => ok\n\
|cube 0: X - X <= 0| => Order\n\
|cube 0: X - X <= -1| => ok\n\
|cube 0: X - Y <= -0| => Form\n\
|cube 0: X - Y <= 03| => Form\n\
|cube 0: X - Y <= +3| => Form\n\
|cube 0: X - Y < 3| => Form\n\
|cube 0: X - F <= 3| => Unknown\n\
|cube 1: N[#1] - X <= 3| => ok\n\
|cube 1: X - N[#1] <= 3| => ok\n\
|cube 0: X - Y <= 140000000000000| => ok\n\
|cube 0: X - Y <= -140000000000000| => ok\n\
|cube 0: X - Y <= 140000000000001| => Unknown\n\
|cube 0: X - Y <= -140000000000001| => Unknown\n\
|cube 0: X - Y <= 99999999999999999999| => Unknown\n\
|cube 0: X - 1 <= 3| => Form\n\
|cube 0: X = 3| => Form\n\
|cube 0: X - Y <= 3 && X - 0 <= 2| => Order\n\
|cube 0: X - 0 <= 2 && X - Y <= 3| => ok\n\
|cube 0: X - 0 <= 2 && X - 0 <= 3| => Order\n\
|cube 1: F = P && A[#1] = Q| => ok\n\
|cube 1: A[#1] = Q && F = P| => Order\n\
|cube 1: F = P && F = P| => Order\n\
|cube 1: F = P&& A[#1] = Q| => Form\n\
|cube 1: F = P & A[#1] = Q| => Form\n\
|cube 1: F = P && | => Form\n\
|cube 1:  && F = P| => Form\n\
|cube 1: F = P && && F = P| => Form\n\
|cube 2: F in {P,Q} && A[#1] = Q && A[#2] in {} && F <> A[#1] && W = #1 && W <> #2 && X - Y <= -7| => ok\n\
|cube 1: F = nosuch| => Unknown\n\
|cube 1: nosuch = P| => Unknown\n\
|cube 1: nosuch - X <= 1| => Unknown\n\
|cube 1: F = P && nosuch| => Form\n\
|cube 1: F = nosuch && F == P| => Form\n\
|cube 9: F = P && G| => Form\n\
|cube 9: F in {Q,P}| => Unknown\n\
|cube 0: F in {Q,P} && nosuch = P| => Unknown";

fn names(alloc: Global, list: &str) -> Result<Items<Name>, AllocError> {
    let mut names = Items::new(alloc);
    for name in list.split(" ") {
        names.push(Items::from_slice(alloc, name.as_bytes())?)?;
    }
    Ok(names)
}

fn decl(alloc: Global, name: &str, sort: Sort) -> Result<Decl, AllocError> {
    let name = Items::from_slice(alloc, name.as_bytes())?;
    Ok(Decl { name, sort })
}

fn sorts(alloc: Global) -> Result<SortDecls, AllocError> {
    let mut sorts = Items::new(alloc);
    let name = Items::from_slice(alloc, b"bool")?;
    let cons = names(alloc, "False True")?;
    sorts.push(SortDecl { name, cons })?;
    let name = Items::from_slice(alloc, b"t")?;
    let cons = names(alloc, "P Q R")?;
    sorts.push(SortDecl { name, cons })?;
    Ok(sorts)
}

fn globals(alloc: Global) -> Result<Decls, AllocError> {
    let mut globals = Items::new(alloc);
    globals.push(decl(alloc, "X", Sort::Int)?)?;
    globals.push(decl(alloc, "Y", Sort::Int)?)?;
    globals.push(decl(alloc, "F", Sort::Fin(1))?)?;
    globals.push(decl(alloc, "W", Sort::Proc)?)?;
    globals.push(decl(alloc, "V", Sort::Proc)?)?;
    Ok(globals)
}

// Two integers, a value of three constructors, two processes, an array of values and one of integers.
fn protocol(rt: &impl Abort, alloc: Global) -> Result<Protocol, Fail> {
    let mut arrays = Items::new(alloc);
    arrays.push(decl(alloc, "A", Sort::Fin(1))?)?;
    arrays.push(decl(alloc, "N", Sort::Int)?)?;
    let made = Protocol::try_new(
        alloc,
        sorts(alloc)?,
        globals(alloc)?,
        arrays,
        Items::new(alloc),
        Items::new(alloc),
        Items::new(alloc),
    );
    Ok(made.expect(rt, "a protocol"))
}

fn shown(read: &Result<Cube, CubeFault>) -> &'static str {
    match read {
        Ok(_) => "ok",
        Err(CubeFault::Form) => "Form",
        Err(CubeFault::Unknown) => "Unknown",
        Err(CubeFault::Order) => "Order",
        Err(CubeFault::Memory) => "memory",
    }
}

#[test]
fn texts(rt: HostRuntime) -> Result<(), Fail> {
    let protocol = protocol(&rt, rt.alloc())?;
    let mut rows = 0_usize;
    for line in TEXTS.lines() {
        let (front, want) = line.split_once("| => ").expect(&rt, line);
        let (_, text) = front.split_once("|").expect(&rt, line);
        let read = read_cube(&protocol, text.as_bytes(), 8);
        assert_eq!(rt; shown(&read), want, "{line}");
        if let Ok(cube) = read {
            let written = print_cube(&protocol, &cube)?;
            assert_eq!(rt; written.as_slice(), text.as_bytes(), "{line}");
        }
        rows = rows.saturating_add(1);
    }
    assert_eq!(rt; rows, 111);
    Ok(())
}

#[test]
fn widths(rt: HostRuntime) -> Result<(), Fail> {
    let protocol = protocol(&rt, rt.alloc())?;
    assert!(rt; read_cube(&protocol, b"cube 11: A[#11] = P", 11).is_ok());
    assert_eq!(rt;
        shown(&read_cube(&protocol, b"cube 12: true", 11)),
        "Unknown"
    );
    assert!(rt; read_cube(&protocol, b"cube 9: true", 11).is_ok());
    assert_eq!(rt;
        shown(&read_cube(&protocol, b"cube 11: A[#12] = P", 11)),
        "Unknown"
    );
    Ok(())
}

#[test]
fn literals_of_a_text(rt: HostRuntime) -> Result<(), Fail> {
    let protocol = protocol(&rt, rt.alloc())?;
    let cube = read_cube(&protocol, b"cube 2: F = Q && A[#2] in {P,R}", 8).expect(&rt, "a cube");
    assert_eq!(rt; cube.width, 2);
    let lits = [
        Lit::FinIn {
            term: Term::Global(2),
            mask: 2,
        },
        Lit::FinIn {
            term: Term::Cell(0, 1),
            mask: 5,
        },
    ];
    assert_eq!(rt; cube.lits.as_slice(), lits.as_slice());
    Ok(())
}
