//! Expected values: another program's answers.

ghost use Rattle.std.specs.Prelude.{◌≡◌, length, All, IsTrue};
ghost use Rattle.cub_proto.specs.StateOf.{signature_of};
ghost use Rattle.fin_dom.specs.Table.{terms_fit};

use crate::FinScratch;
use crate::terms::has_entry;
use cub_base::{Items, Name};
use cub_proto::{Decl, Lit, Protocol, Sort, SortDecl, Term, full_mask};
use std::alloc::{AllocError, Global};
use std::process::Abort;
use std::test::Fail;

fn names(alloc: Global, words: &[&[u8]]) -> Result<Items<Name>, AllocError> {
    let mut list = Items::new(alloc);
    for word in words {
        list.push(Items::from_slice(alloc, word)?)?;
    }
    Ok(list)
}

fn sort(alloc: Global, name: &[u8], constructors: &[&[u8]]) -> Result<SortDecl, AllocError> {
    Ok(SortDecl {
        name: Items::from_slice(alloc, name)?,
        cons: names(alloc, constructors)?,
    })
}

fn decl(alloc: Global, name: &[u8], sort: u16) -> Result<Decl, AllocError> {
    Ok(Decl {
        name: Items::from_slice(alloc, name)?,
        sort: Sort::Fin(sort),
    })
}

// Sorts of 2, 3 and 4 constructors; a global of each, and an array of the second.
fn protocol(alloc: Global) -> Result<Protocol, Fail> {
    let mut sorts = Items::new(alloc);
    sorts.push(sort(alloc, b"bool", &[b"False", b"True"])?)?;
    sorts.push(sort(alloc, b"t", &[b"P", b"Q", b"R"])?)?;
    sorts.push(sort(alloc, b"u", &[b"U", b"V", b"W", b"X"])?)?;
    let mut globals = Items::new(alloc);
    globals.push(decl(alloc, b"F", 1)?)?;
    globals.push(decl(alloc, b"K", 2)?)?;
    globals.push(decl(alloc, b"B", 0)?)?;
    let mut arrays = Items::new(alloc);
    arrays.push(decl(alloc, b"A", 1)?)?;
    let protocol = Protocol::try_new(
        alloc,
        sorts,
        globals,
        arrays,
        Items::new(alloc),
        Items::new(alloc),
        Items::new(alloc),
    )?;
    Ok(protocol)
}

fn fits(protocol: &Protocol, lit: &Lit) -> bool
    ensures { IsTrue result → IsTrue (terms_fit (signature_of protocol.now) 96 lit.now) }
{
    match lit {
        Lit::FinIn { term, mask } => has_entry(96, *term) && *mask <= full_mask(protocol, *term),
        Lit::FinEq { a, b } => has_entry(96, *a) && has_entry(96, *b),
        Lit::FinNe { a, b } => has_entry(96, *a) && has_entry(96, *b),
        _ => true,
    }
}

fn all_fit(protocol: &Protocol, lits: &[Lit]) -> bool
    ensures { IsTrue result → All (λ lit. IsTrue (terms_fit (signature_of protocol.now) 96 lit)) lits.now }
{
    lits.iter().all(|lit| fits(protocol, lit))
}

const F: Term = Term::Global(0);

const K: Term = Term::Global(1);

fn cell(place: u8) -> Term {
    Term::Cell(0, place)
}

fn among(term: Term, mask: u64) -> Lit {
    Lit::FinIn { term, mask }
}

fn same(a: Term, b: Term) -> Lit {
    Lit::FinEq { a, b }
}

fn other(a: Term, b: Term) -> Lit {
    Lit::FinNe { a, b }
}

// Whether the literals have a solution, and then the constructors of F, K, B, A[#1], A[#2] and A[#3].
fn check(
    rt: &impl Abort,
    scratch: &mut FinScratch,
    protocol: &Protocol,
    lits: &[Lit],
    more: &[Lit],
    want: Option<&[u8]>,
)
    requires { length scratch.old ≡ 96 }
    ensures { length scratch.new ≡ 96 }
{
    assert!(rt; all_fit(protocol, lits));
    assert!(rt; all_fit(protocol, more));
    let found = scratch.solve(protocol, lits, more);
    assert_eq!(rt; found, want.is_some());
    if let Some(constructors) = want {
        let terms = [F, K, Term::Global(2), cell(0), cell(1), cell(2)];
        for (term, constructor) in terms.iter().zip(constructors) {
            assert_eq!(rt; scratch.con(*term), *constructor);
        }
        assert_eq!(rt; scratch.con(Term::Global(64)), 0);
    }
}

#[test]
fn finds_the_least_solution(rt: HostRuntime) -> Result<(), Fail> {
    let protocol = protocol(rt.alloc())?;
    let mut scratch = FinScratch::new(rt.alloc(), 96)?;
    let (a, b, c) = (cell(0), cell(1), cell(2));
    check(
        &rt,
        &mut scratch,
        &protocol,
        &[among(F, 6)],
        &[among(K, 10)],
        Some(&[1, 1, 0, 0, 0, 0]),
    );
    check(
        &rt,
        &mut scratch,
        &protocol,
        &[among(F, 6)],
        &[among(F, 1)],
        None,
    );
    let triangle = [other(F, a), other(F, b), other(a, b)];
    check(
        &rt,
        &mut scratch,
        &protocol,
        &triangle,
        &[],
        Some(&[0, 0, 0, 1, 2, 0]),
    );
    let fourth = [other(a, c), other(b, c), other(F, c)];
    check(&rt, &mut scratch, &protocol, &triangle, &fourth, None);
    let chain = [same(F, c), among(c, 4), other(a, c)];
    check(
        &rt,
        &mut scratch,
        &protocol,
        &chain,
        &[other(a, b), among(b, 1)],
        Some(&[2, 0, 0, 1, 0, 2]),
    );
    let around = [
        other(a, b),
        other(b, c),
        same(a, c),
        among(a, 3),
        among(b, 1),
    ];
    check(
        &rt,
        &mut scratch,
        &protocol,
        &around,
        &[],
        Some(&[0, 0, 0, 1, 0, 1]),
    );
    let back = [
        other(a, b),
        other(a, c),
        among(b, 3),
        among(c, 3),
        other(b, c),
    ];
    check(
        &rt,
        &mut scratch,
        &protocol,
        &[],
        &back,
        Some(&[0, 0, 0, 2, 0, 1]),
    );
    check(&rt, &mut scratch, &protocol, &[other(F, F)], &[], None);
    check(
        &rt,
        &mut scratch,
        &protocol,
        &[same(F, F)],
        &[],
        Some(&[0, 0, 0, 0, 0, 0]),
    );
    check(
        &rt,
        &mut scratch,
        &protocol,
        &[],
        &[],
        Some(&[0, 0, 0, 0, 0, 0]),
    );
    Ok(())
}
