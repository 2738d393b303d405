//! The levels, and literals on them.

ghost use Rattle.std.specs.Prelude.{◌≡◌, ◌≤◌, ◌<◌, ◌+◌, ◌-◌, ◌^◌, ◌++◌, [], ◌∷◌, IfOk, map};
ghost use Rattle.std.specs.List.{range_with_len};
ghost use Rattle.std.specs.Fmt.{decimal};
ghost use Rattle.sample_gen.specs.Sample.{level_name, bool_sort, level_sort, sorts, arrays, is_on, is_not_on};

use cub_base::{Items, Name};
use cub_proto::{Conjs, Cons, Decl, Decls, Lit, Sort, SortDecl, SortDecls, Term};
use itoa::Buffer;
use std::alloc::{AllocError, Global};

// A word and a number.
pub fn numbered(alloc: Global, word: &[u8], number: u8) -> Result<Name, AllocError>
    ensures { IfOk result (λ name. name ≡ word.now ++ decimal number) }
{
    let mut name = Items::from_slice(alloc, word)?;
    let mut buffer = Buffer::new();
    name.extend(buffer.format(number).as_bytes())?;
    Ok(name)
}

// The names of the levels 0 to `top`.
fn level_names(alloc: Global, top: u8) -> Result<Cons, AllocError>
    requires { top ≤ 63 }
    ensures { IfOk result (λ names. names ≡ map level_name (range_with_len 0 (top + 1))) }
{
    let mut names = Items::with_room(alloc, 64)?;
    for level in 0..top + 1 {
        names.push(numbered(alloc, b"L", level)?)?;
    }
    Ok(names)
}

fn bool_sort(alloc: Global) -> Result<SortDecl, AllocError>
    ensures { IfOk result (λ d. d ≡ bool_sort) }
{
    let mut cons = Items::with_room(alloc, 2)?;
    cons.push(Items::from_slice(alloc, b"False")?)?;
    cons.push(Items::from_slice(alloc, b"True")?)?;
    let name = Items::from_slice(alloc, b"bool")?;
    Ok(SortDecl { name, cons })
}

fn level_sort(alloc: Global, top: u8) -> Result<SortDecl, AllocError>
    requires { top ≤ 63 }
    ensures { IfOk result (λ d. d ≡ level_sort top) }
{
    let cons = level_names(alloc, top)?;
    let name = Items::from_slice(alloc, b"level")?;
    Ok(SortDecl { name, cons })
}

// The two sorts.
pub fn sorts(alloc: Global, top: u8) -> Result<SortDecls, AllocError>
    requires { top ≤ 63 }
    ensures { IfOk result (λ list. list ≡ sorts top) }
{
    let mut list = Items::with_room(alloc, 2)?;
    list.push(bool_sort(alloc)?)?;
    list.push(level_sort(alloc, top)?)?;
    Ok(list)
}

// The one array.
pub fn arrays(alloc: Global) -> Result<Decls, AllocError>
    ensures { IfOk result (λ list. list ≡ arrays) }
{
    let mut list = Items::with_room(alloc, 1)?;
    let name = Items::from_slice(alloc, b"A")?;
    list.push(Decl {
        name,
        sort: Sort::Fin(1),
    })?;
    Ok(list)
}

// The place is on the level.
pub fn is_on(place: u8, level: u8) -> Lit
    requires { level ≤ 63 }
    ensures { result ≡ is_on place level }
{
    Lit::FinIn {
        term: Term::Cell(0, place),
        mask: 1u64 << level,
    }
}

// The mask of all levels.
fn all_levels(top: u8) -> u64
    requires { top ≤ 63 }
    ensures { result ≡ 2 ^ (top + 1) - 1 }
{
    if top == 63 {
        u64::MAX
    } else {
        (1u64 << (top + 1)) - 1
    }
}

// The place is on another level than 1.
pub fn is_not_on_one(place: u8, top: u8) -> Lit
    requires low { 2 ≤ top }
    requires high { top ≤ 63 }
    ensures { result ≡ is_not_on top place 1 }
{
    Lit::FinIn {
        term: Term::Cell(0, place),
        mask: all_levels(top) - 2,
    }
}

// The formula that is the one literal.
pub fn one_literal(alloc: Global, lit: Lit) -> Result<Conjs, AllocError>
    ensures { IfOk result (λ conjs. conjs ≡ (lit ∷ []) ∷ []) }
{
    let mut conj = Items::with_room(alloc, 1)?;
    conj.push(lit)?;
    let mut conjs = Items::with_room(alloc, 1)?;
    conjs.push(conj)?;
    Ok(conjs)
}

// The formula that is always true.
pub fn always(alloc: Global) -> Result<Conjs, AllocError>
    ensures { IfOk result (λ conjs. conjs ≡ [] ∷ []) }
{
    let mut conjs = Items::with_room(alloc, 1)?;
    conjs.push(Items::new(alloc))?;
    Ok(conjs)
}
