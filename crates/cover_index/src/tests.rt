//! Lists are built step by step, and asked between the steps. The expected answers are those of the plain finder, which
//! goes through its list.

ghost use Rattle.std.specs.Prelude.{◌≡◌, ◌≤◌, IsTrue, IfOk};
ghost use Rattle.std.specs.List.{list_all};
ghost use Rattle.cub_proto.specs.StateOf.{signature_of};
ghost use Rattle.cub_proto.specs.Fits.{literal_fits, is_bounded};
ghost use Rattle.log_form.specs.Pieces.{IsAskable, greatest_asked};
ghost use Rattle.theory.specs.Made.{IsFor};

use crate::Index;
use cub_base::{Items, Memory, Name, Places};
use cub_cube::{Cube, is_normal};
use cub_proto::{Decl, Decls, ISide, Lit, Protocol, Sort, SortDecl, SortDecls, Term};
use std::alloc::{AllocError, Global};
use std::process::Abort;
use std::test::Fail;
use subsume::{Finder, Scan};
use theory::Scratch;

// What is done to a list. Cubes are made of numbers.
#[derive(Clone, Copy)]
enum Step {
    // so many cubes, from that number on
    Push(u32, u32),
    Cut(u32),
    // the first later cube that covers the cube with that number retires it
    Retire(u32),
    // so many cubes, from that number on, asked from that place of the list on
    Ask(u32, u32, u32),
}

fn name(alloc: Global, bytes: &[u8]) -> Result<Name, AllocError> {
    Items::from_slice(alloc, bytes)
}

// `bool`, and `t` with three constructors
fn sorts(alloc: Global) -> Result<SortDecls, AllocError> {
    let mut cons = Items::new(alloc);
    cons.push(name(alloc, b"False")?)?;
    cons.push(name(alloc, b"True")?)?;
    let mut more = Items::new(alloc);
    more.push(name(alloc, b"P")?)?;
    more.push(name(alloc, b"Q")?)?;
    more.push(name(alloc, b"R")?)?;
    let mut sorts = Items::new(alloc);
    sorts.push(SortDecl {
        name: name(alloc, b"bool")?,
        cons,
    })?;
    sorts.push(SortDecl {
        name: name(alloc, b"t")?,
        cons: more,
    })?;
    Ok(sorts)
}

fn decls(alloc: Global, list: &[(&[u8], Sort)]) -> Result<Decls, AllocError> {
    let mut decls = Items::new(alloc);
    for (bytes, sort) in list {
        decls.push(Decl {
            name: name(alloc, *bytes)?,
            sort: *sort,
        })?;
    }
    Ok(decls)
}

// globals F : t, X : int; arrays A : t, B : bool
fn protocol(alloc: Global) -> Result<Protocol, Fail> {
    let sorts = sorts(alloc)?;
    let globals = decls(alloc, &[(b"F", Sort::Fin(1)), (b"X", Sort::Int)])?;
    let arrays = decls(alloc, &[(b"A", Sort::Fin(1)), (b"B", Sort::Fin(0))])?;
    Ok(Protocol::try_new(
        alloc,
        sorts,
        globals,
        arrays,
        Items::new(alloc),
        Items::new(alloc),
        Items::new(alloc),
    )?)
}

fn fits(protocol: &Protocol, width: u8, lit: &Lit) -> bool
    ensures { result ≡ literal_fits (signature_of protocol.now) width lit.now }
{
    cub_proto::literal_fits(&protocol.declared(), u16::from(width), lit)
}

fn all_fit(protocol: &Protocol, width: u8, lits: &[Lit]) -> bool
    ensures { result ≡ list_all (literal_fits (signature_of protocol.now) width) lits.now }
{
    lits.iter().all(|lit| fits(protocol, width, lit))
}

fn are_bounded(lits: &[Lit]) -> bool
    ensures { result ≡ list_all (is_bounded greatest_asked) lits.now }
{
    lits.iter()
        .all(|lit| cub_proto::is_bounded(281474976710655, lit))
}

// Whether the cube may be asked about.
fn may_ask(protocol: &Protocol, cube: &Cube) -> bool
    ensures { IsTrue result → IsAskable protocol.now cube.now }
{
    cube.width <= 11
        && all_fit(protocol, cube.width, cube.lits.as_slice())
        && is_normal(protocol, cube.lits.as_slice())
        && are_bounded(cube.lits.as_slice())
}

// A term and a mask of its constructors, by a number below 32; none where the term is to be free.
fn member(term: Term, number: u32) -> Option<Lit> {
    let mask = match number % 32 {
        0..=5 => 1,
        6..=11 => 2,
        12 => 3,
        _ => return None,
    };
    Some(Lit::FinIn { term, mask })
}

// Literals that give X the value `number`: of the cubes from `EXACT` on none covers another.
fn exact(alloc: Global, number: u32) -> Result<Vec<Lit>, AllocError> {
    let x = ISide::At(Term::Global(1));
    let value = i64::from(number);
    let mut lits = Vec::new(alloc);
    lits.push(Lit::Diff {
        a: x,
        b: ISide::Zero,
        bound: value,
    })?;
    lits.push(Lit::Diff {
        a: ISide::Zero,
        b: x,
        bound: -value,
    })?;
    Ok(lits)
}

const EXACT: u32 = 10000;

// The literals of the cube with that number. Now and then no state meets it.
fn literals(alloc: Global, number: u32) -> Result<Vec<Lit>, AllocError> {
    if number >= EXACT {
        return exact(alloc, number);
    }
    let mixed = number.wrapping_mul(2654435761) ^ (number >> 3);
    let mut lits = Vec::new(alloc);
    for place in 0..3 {
        let part = mixed >> (u32::from(place) * 9);
        lits.extend(member(Term::Cell(0, place), part))?;
        lits.extend(member(Term::Cell(1, place), part >> 5))?;
    }
    lits.extend(member(Term::Global(0), mixed >> 26))?;
    if number % 5 == 1 {
        lits.push(Lit::Diff {
            a: ISide::At(Term::Global(1)),
            b: ISide::Zero,
            bound: 3,
        })?;
    }
    if number % 37 == 36 {
        lits.push(Lit::Diff {
            a: ISide::Zero,
            b: ISide::Zero,
            bound: -1,
        })?;
    }
    Ok(lits)
}

// The cube with that number.
fn cube(rt: &(impl Abort + AllocGlobal), protocol: &Protocol, number: u32) -> Result<Cube, Fail>
    ensures { IfOk result (IsAskable protocol.now) }
{
    let lits = literals(rt.alloc(), number)?;
    let width = 1 + (number % 3) as u8;
    let few = lits.iter().filter(|lit| fits(protocol, width, *lit));
    let mut kept = Vec::new(rt.alloc());
    for lit in few {
        kept.push(*lit)?;
    }
    let cube = Cube::of(rt.alloc(), protocol, width, kept.as_slice())?;
    assert!(rt; may_ask(protocol, &cube));
    Ok(cube)
}

// A number, with its places.
fn note(answers: &mut Vec<u64>, found: Option<(u32, Places)>) -> Result<(), AllocError> {
    match found {
        Some((number, places)) => {
            answers.push(u64::from(number) + 1)?;
            for place in places.as_slice() {
                answers.push(u64::from(*place))?;
            }
        }
        None => answers.push(0)?,
    }
    Ok(())
}

// Notes what the list answers to the cube.
fn ask<F: Finder<Scratch>>(
    scratch: &mut Scratch,
    protocol: &Protocol,
    finder: &mut F,
    start: u32,
    cube: &Cube,
    answers: &mut Vec<u64>,
) -> Result<(), AllocError>
    requires serves { F.serves finder.old protocol.now }
    requires made { IsFor protocol.now scratch.old }
    requires fit { IsAskable protocol.now cube.now }
    ensures serves { F.serves finder.new protocol.now }
    ensures made { IsFor protocol.now scratch.new }
{
    let found = finder.find(scratch, protocol, start, cube);
    note(answers, found)?;
    let found = finder.under(scratch, protocol, start, cube);
    note(answers, found)?;
    let covered = finder.is_covered(scratch, protocol, cube);
    answers.push(covered as u64)?;
    Ok(())
}

// The first later cube that covers the cube with that number retires it.
fn retire<F: Finder<Scratch>>(
    scratch: &mut Scratch,
    protocol: &Protocol,
    finder: &mut F,
    number: u32,
) -> Result<(), Memory>
    requires serves { F.serves finder.old protocol.now }
    requires made { IsFor protocol.now scratch.old }
    ensures serves { F.serves finder.new protocol.now }
    ensures made { IsFor protocol.now scratch.new }
{
    if number >= finder.count() {
        return Ok(());
    }
    let cube = finder.cube(number).copy()?;
    if !may_ask(protocol, &cube) {
        return Ok(());
    }
    match finder.find(scratch, protocol, number + 1, &cube) {
        Some((by, _places)) => finder.retire(protocol, number, by),
        None => {}
    }
    Ok(())
}

// Appends so many cubes, from that number on.
fn push_all<F: Finder<Scratch>>(
    rt: &(impl Abort + AllocGlobal),
    protocol: &Protocol,
    finder: &mut F,
    from: u32,
    count: u32,
) -> Result<(), Fail>
    requires serves { F.serves finder.old protocol.now }
    ensures serves { F.serves finder.new protocol.now }
{
    for i in 0..count {
        let cube = cube(rt, protocol, from.wrapping_add(i))?;
        if finder.count() < 1000 {
            match finder.push(protocol, cube) {
                Ok(_number) => {}
                Err((_cube, memory)) => return Err(memory.into()),
            }
        }
    }
    Ok(())
}

// Notes what the list answers to so many cubes, from that number on.
fn ask_all<F: Finder<Scratch>>(
    rt: &(impl Abort + AllocGlobal),
    scratch: &mut Scratch,
    protocol: &Protocol,
    finder: &mut F,
    from: u32,
    count: u32,
    start: u32,
    answers: &mut Vec<u64>,
) -> Result<(), Fail>
    requires serves { F.serves finder.old protocol.now }
    requires made { IsFor protocol.now scratch.old }
    ensures serves { F.serves finder.new protocol.now }
    ensures made { IsFor protocol.now scratch.new }
{
    for i in 0..count {
        let cube = cube(rt, protocol, from.wrapping_add(i))?;
        ask(scratch, protocol, finder, start, &cube, answers)?;
    }
    Ok(())
}

// Does what the step says.
fn go<F: Finder<Scratch>>(
    rt: &(impl Abort + AllocGlobal),
    scratch: &mut Scratch,
    protocol: &Protocol,
    finder: &mut F,
    step: Step,
    answers: &mut Vec<u64>,
) -> Result<(), Fail>
    requires serves { F.serves finder.old protocol.now }
    requires made { IsFor protocol.now scratch.old }
    ensures serves { F.serves finder.new protocol.now }
    ensures made { IsFor protocol.now scratch.new }
{
    match step {
        Step::Push(from, count) => push_all(rt, protocol, finder, from, count)?,
        Step::Cut(count) => {
            if count <= finder.count() {
                finder.cut(count);
            }
        }
        Step::Retire(number) => retire(scratch, protocol, finder, number)?,
        Step::Ask(from, count, start) => {
            ask_all(rt, scratch, protocol, finder, from, count, start, answers)?
        }
    }
    Ok(())
}

// The answers of a list to the steps.
fn answers<F: Finder<Scratch>>(
    rt: &(impl Abort + AllocGlobal),
    protocol: &Protocol,
    finder: &mut F,
    steps: &[Step],
) -> Result<Vec<u64>, Fail>
    requires serves { F.serves finder.old protocol.now }
    ensures serves { F.serves finder.new protocol.now }
{
    let mut scratch = Scratch::new(rt.alloc(), protocol)?;
    let mut answers = Vec::new(rt.alloc());
    for step in steps {
        go(rt, &mut scratch, protocol, finder, *step, &mut answers)?;
    }
    Ok(answers)
}

// Retirements of cubes that the questions may meet, cuts in the middle of a segment, at its end and to nothing; at last
// questions that are covered in several groups in turn, of which some are then cut.
const STEPS: [Step; 40] = [
    Step::Ask(7, 3, 0),
    Step::Push(0, 70),
    Step::Ask(500, 40, 0),
    Step::Retire(0),
    Step::Retire(1),
    Step::Retire(2),
    Step::Retire(5),
    Step::Retire(9),
    Step::Retire(13),
    Step::Ask(0, 30, 3),
    Step::Push(300, 90),
    Step::Retire(20),
    Step::Retire(64),
    Step::Retire(70),
    Step::Ask(290, 40, 66),
    Step::Cut(100),
    Step::Ask(0, 60, 0),
    Step::Push(1000, 30),
    Step::Ask(990, 40, 90),
    Step::Cut(64),
    Step::Ask(40, 40, 0),
    Step::Push(2000, 5),
    Step::Ask(1990, 40, 2),
    Step::Cut(0),
    Step::Push(10000, 330),
    Step::Ask(10320, 2, 0),
    Step::Ask(10250, 2, 0),
    Step::Ask(10180, 2, 0),
    Step::Ask(10120, 9, 0),
    Step::Ask(10000, 3, 0),
    Step::Ask(10250, 9, 300),
    Step::Cut(150),
    Step::Ask(10120, 80, 0),
    Step::Push(10500, 120),
    Step::Ask(10590, 40, 0),
    Step::Push(5000, 40),
    Step::Ask(10140, 9, 0),
    Step::Retire(3),
    Step::Retire(140),
    Step::Ask(10136, 9, 0),
];

// What two lists do after one was shared with the other.
const MORE: [Step; 4] = [
    Step::Cut(40),
    Step::Push(3000, 50),
    Step::Retire(41),
    Step::Ask(2990, 60, 0),
];

const OTHER: [Step; 3] = [
    Step::Push(4000, 20),
    Step::Retire(3),
    Step::Ask(3990, 60, 10),
];

#[test]
fn an_index_answers_as_a_scan(rt: HostRuntime) -> Result<(), Fail> {
    let protocol = protocol(rt.alloc())?;
    let mut index = Index::new(rt.alloc());
    let mut scan = Scan::new(rt.alloc());
    let of_index = answers(&rt, &protocol, &mut index, &STEPS)?;
    let of_scan = answers(&rt, &protocol, &mut scan, &STEPS)?;
    assert!(rt; of_scan.len() > 1000);
    assert_eq!(rt; of_index.as_slice(), of_scan.as_slice());
    Ok(())
}

#[test]
fn lists_that_share_change_apart(rt: HostRuntime) -> Result<(), Fail> {
    let protocol = protocol(rt.alloc())?;
    let first = &STEPS[..15];
    let mut index = Index::new(rt.alloc());
    let mut scan = Scan::new(rt.alloc());
    let mut other_scan = Scan::new(rt.alloc());
    answers(&rt, &protocol, &mut index, first)?;
    answers(&rt, &protocol, &mut scan, first)?;
    answers(&rt, &protocol, &mut other_scan, first)?;
    let mut other = index.share()?;
    let of_index = answers(&rt, &protocol, &mut index, &MORE)?;
    let of_other = answers(&rt, &protocol, &mut other, &OTHER)?;
    let of_scan = answers(&rt, &protocol, &mut scan, &MORE)?;
    let of_other_scan = answers(&rt, &protocol, &mut other_scan, &OTHER)?;
    assert_eq!(rt; of_index.as_slice(), of_scan.as_slice());
    assert_eq!(rt; of_other.as_slice(), of_other_scan.as_slice());
    Ok(())
}
