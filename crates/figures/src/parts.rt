//! The protocol whose literals are closed, solved and covered: 16 integer globals, 4 arrays over an enumeration of 4
//! constructors, and 8 integer arrays. At 11 places it has 104 integer terms, the most that a protocol may have.

ghost use Rattle.std.specs.Prelude.{◌<◌, ◌≤◌};

use crate::failed::Failed;
use cub_base::{Items, Name};
use cub_proto::{Decl, Decls, ISide, Lit, Protocol, Sort, SortDecl, SortDecls, Term};
use std::alloc::{AllocError, Global};

fn names(alloc: Global, words: &[&[u8]]) -> Result<Items<Name>, AllocError> {
    let mut list = Items::new(alloc);
    for word in words {
        list.push(Items::from_slice(alloc, word)?)?;
    }
    Ok(list)
}

fn sorts(alloc: Global) -> Result<SortDecls, AllocError> {
    let mut list = Items::new(alloc);
    list.push(SortDecl {
        name: Items::from_slice(alloc, b"bool")?,
        cons: names(alloc, &[b"False", b"True"])?,
    })?;
    list.push(SortDecl {
        name: Items::from_slice(alloc, b"t")?,
        cons: names(alloc, &[b"P", b"Q", b"R", b"S"])?,
    })?;
    Ok(list)
}

// Declarations of that sort, named by the letter and a second one.
fn declare(
    alloc: Global,
    list: &mut Decls,
    letter: u8,
    sort: Sort,
    count: u8,
) -> Result<(), AllocError>
    requires { count ≤ 16 }
{
    for number in 0..count {
        let bytes = [letter, b'a' + number];
        let name = Items::from_slice(alloc, bytes.as_slice())?;
        list.push(Decl { name, sort })?;
    }
    Ok(())
}

/// The protocol. It has no start formula, no unsafe conjunction and no transition.
pub fn protocol(alloc: Global) -> Result<Protocol, Failed> {
    let mut globals = Items::new(alloc);
    declare(alloc, &mut globals, b'N', Sort::Int, 16)?;
    let mut arrays = Items::new(alloc);
    declare(alloc, &mut arrays, b'A', Sort::Fin(1), 4)?;
    declare(alloc, &mut arrays, b'M', Sort::Int, 8)?;
    let protocol = Protocol::try_new(
        alloc,
        sorts(alloc)?,
        globals,
        arrays,
        Items::new(alloc),
        Items::new(alloc),
        Items::new(alloc),
    )?;
    Ok(protocol)
}

/// The integer term with that number, globals first, then place by place.
pub fn integer(number: u8) -> Term {
    if number < 16 {
        return Term::Global(u16::from(number));
    }
    Term::Cell(4 + u16::from((number - 16) % 8), (number - 16) / 8)
}

/// The integer cell with that number, of the first two integer arrays, place by place.
pub fn integer_cell(number: u8) -> Term {
    Term::Cell(4 + u16::from(number % 2), number / 2)
}

/// The finite cell with that number, place by place.
pub fn finite(number: u8) -> Term {
    Term::Cell(u16::from(number % 4), number / 4)
}

/// `a - b <= bound`.
pub fn difference(a: Term, b: Term, bound: i64) -> Lit {
    Lit::Diff {
        a: ISide::At(a),
        b: ISide::At(b),
        bound,
    }
}

/// Two constructors, which ones by the number.
pub fn mask(number: u8) -> u64 {
    match number % 4 {
        0 => 3,
        1 => 6,
        2 => 12,
        _ => 9,
    }
}
