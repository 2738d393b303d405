//! Lists of formulas and of their negations, and the limits; another program made the expected values.

use crate::{DnfFault, Formula, Formulas, count, fits, normal};
use cub_base::{Boxed, Items, Name};
use cub_proto::{Decl, Decls, ISide, Lit, Lits, Protocol, Sort, SortDecl, SortDecls, Term};
use std::alloc::{AllocError, Global};
use std::fmt::Write;
use std::process::Abort;
use std::test::Fail;

fn name(alloc: Global, bytes: &[u8]) -> Result<Name, AllocError> {
    Items::from_slice(alloc, bytes)
}

fn sorts(alloc: Global) -> Result<SortDecls, AllocError> {
    let mut truths = Items::new(alloc);
    truths.push(name(alloc, b"False")?)?;
    truths.push(name(alloc, b"True")?)?;
    let mut cons = Items::new(alloc);
    cons.push(name(alloc, b"P")?)?;
    cons.push(name(alloc, b"Q")?)?;
    cons.push(name(alloc, b"R")?)?;
    let mut sorts = Items::new(alloc);
    sorts.push(SortDecl {
        name: name(alloc, b"bool")?,
        cons: truths,
    })?;
    sorts.push(SortDecl {
        name: name(alloc, b"t")?,
        cons,
    })?;
    Ok(sorts)
}

fn globals(alloc: Global) -> Result<Decls, AllocError> {
    let mut globals = Items::new(alloc);
    for (bytes, sort) in [(b"F", Sort::Fin(1)), (b"X", Sort::Int), (b"Y", Sort::Int)] {
        globals.push(Decl {
            name: name(alloc, bytes)?,
            sort,
        })?;
    }
    Ok(globals)
}

fn protocol(alloc: Global) -> Result<Protocol, Fail> {
    let none = Items::new(alloc);
    let made = Protocol::try_new(
        alloc,
        sorts(alloc)?,
        globals(alloc)?,
        none,
        Items::new(alloc),
        Items::new(alloc),
        Items::new(alloc),
    )?;
    Ok(made)
}

// `F` is one of the constructors of the mask.
fn is_in(mask: u64) -> Formula {
    Formula::One(Lit::FinIn {
        term: Term::Global(0),
        mask,
    })
}

fn x() -> ISide {
    ISide::At(Term::Global(1))
}

fn y() -> ISide {
    ISide::At(Term::Global(2))
}

fn equation() -> Formula {
    Formula::IntEq {
        a: x(),
        b: y(),
        bound: 3,
    }
}

fn pair(alloc: Global, a: Formula, b: Formula) -> Result<Formulas, AllocError> {
    let mut parts = Items::new(alloc);
    parts.push(a)?;
    parts.push(b)?;
    Ok(parts)
}

fn repeated(alloc: Global, mask: u64, count: u32) -> Result<Formulas, AllocError> {
    let mut parts = Items::new(alloc);
    for _ in 0..count {
        parts.push(is_in(mask))?;
    }
    Ok(parts)
}

// So many factors of two alternatives each.
fn power(alloc: Global, factors: u32) -> Result<Formula, AllocError> {
    let mut parts = Items::new(alloc);
    for _ in 0..factors {
        parts.push(Formula::Any(pair(alloc, is_in(1), is_in(2))?))?;
    }
    Ok(Formula::All(parts))
}

fn negation(alloc: Global, part: Formula) -> Result<Formula, AllocError> {
    Ok(Formula::Not(Boxed::new(alloc, part)?))
}

fn show_lits(out: &mut String, lits: &Lits) -> Result<(), AllocError> {
    for lit in lits.as_slice() {
        match lit {
            Lit::FinIn { term: _, mask } => write!(out, " F{mask}")?,
            Lit::Diff { a, b: _, bound } => {
                let side = if *a == x() { "X" } else { "Y" };
                write!(out, " {side}{bound}")?;
            }
            _ => write!(out, " other")?,
        }
    }
    Ok(())
}

// The conjunctions, each behind a bar.
fn shown(
    rt: &impl Abort,
    alloc: Global,
    protocol: &Protocol,
    formula: &Formula,
) -> Result<String, Fail> {
    assert!(rt; fits(&protocol.declared(), 0, formula));
    let mut out = String::new(alloc);
    for lits in normal(protocol, 0, formula)?.as_slice() {
        write!(out, "|")?;
        show_lits(&mut out, lits)?;
    }
    Ok(out)
}

// The length of the list or its refusal, and the exact length.
fn measured(
    rt: &impl Abort,
    alloc: Global,
    protocol: &Protocol,
    formula: &Formula,
) -> Result<String, Fail> {
    assert!(rt; fits(&protocol.declared(), 0, formula));
    let exact = count(formula, true);
    let text = match normal(protocol, 0, formula) {
        Ok(list) => {
            let len = list.len();
            format!(in alloc; "{len} of {exact}")?
        }
        Err(DnfFault::TooMany) => format!(in alloc; "too many of {exact}")?,
        Err(DnfFault::TooWide) => format!(in alloc; "too wide of {exact}")?,
        Err(DnfFault::Memory) => format!(in alloc; "memory")?,
    };
    Ok(text)
}

fn two_pairs(alloc: Global) -> Result<Formula, AllocError> {
    let at_most = Formula::One(Lit::Diff {
        a: x(),
        b: y(),
        bound: 5,
    });
    let left = Formula::All(pair(alloc, is_in(1), is_in(2))?);
    let right = Formula::All(pair(alloc, is_in(2), at_most)?);
    Ok(Formula::Any(pair(alloc, left, right)?))
}

fn mixed(alloc: Global) -> Result<Formula, AllocError> {
    let other = Formula::Any(pair(alloc, is_in(2), is_in(4))?);
    let one = Formula::Any(pair(alloc, is_in(1), equation())?);
    Ok(Formula::All(pair(alloc, one, negation(alloc, other)?)?))
}

// The formula's list, and the list of its negation.
fn expect_lists(
    rt: &impl Abort,
    alloc: Global,
    formula: Formula,
    own: &str,
    opposite: &str,
) -> Result<(), Fail> {
    let protocol = protocol(alloc)?;
    let list = shown(rt, alloc, &protocol, &formula)?;
    assert_eq!(rt; list.as_str(), own);
    let negated = negation(alloc, formula)?;
    let list = shown(rt, alloc, &protocol, &negated)?;
    assert_eq!(rt; list.as_str(), opposite);
    Ok(())
}

fn expect_size(rt: &impl Abort, alloc: Global, formula: Formula, want: &str) -> Result<(), Fail> {
    let protocol = protocol(alloc)?;
    let size = measured(rt, alloc, &protocol, &formula)?;
    assert_eq!(rt; size.as_str(), want);
    Ok(())
}

#[test]
fn lists_and_lists_of_negations(rt: HostRuntime) -> Result<(), Fail> {
    let alloc = rt.alloc();
    let formula = two_pairs(alloc)?;
    expect_lists(
        &rt,
        alloc,
        formula,
        "| F1 F2| F2 X5",
        "| F6 F5| F6 Y-6| F5 F5| F5 Y-6",
    )?;
    expect_lists(&rt, alloc, equation(), "| X3 Y-3", "| X2| Y-4")?;
    let formula = mixed(alloc)?;
    expect_lists(
        &rt,
        alloc,
        formula,
        "| F1 F5 F3| X3 Y-3 F5 F3",
        "| F6 X2| F6 Y-4| F2| F4",
    )
}

fn wide_beside(alloc: Global, others: u32) -> Result<Formula, AllocError> {
    let wide = Formula::All(repeated(alloc, 1, 65)?);
    let others = Formula::Any(repeated(alloc, 1, others)?);
    Ok(Formula::Any(pair(alloc, wide, others)?))
}

fn none_of(alloc: Global, factors: u32) -> Result<Formula, AllocError> {
    let parts = pair(alloc, power(alloc, factors)?, Formula::Const(false))?;
    Ok(Formula::All(parts))
}

#[test]
fn limits_and_exact_lengths(rt: HostRuntime) -> Result<(), Fail> {
    let alloc = rt.alloc();
    let rows = [
        (6, "64 of 64"),
        (7, "too many of 128"),
        (12, "too many of 4096"),
        (13, "too many of 4097"),
    ];
    for (factors, want) in rows {
        expect_size(&rt, alloc, power(alloc, factors)?, want)?;
        expect_size(&rt, alloc, none_of(alloc, factors)?, "0 of 0")?;
    }
    for (parts, want) in [(64, "1 of 1"), (65, "too wide of 1")] {
        let formula = Formula::All(repeated(alloc, 1, parts)?);
        expect_size(&rt, alloc, formula, want)?;
    }
    for (parts, want) in [(63, "too wide of 64"), (64, "too many of 65")] {
        expect_size(&rt, alloc, wide_beside(alloc, parts)?, want)?;
    }
    Ok(())
}
