//! Literals back through a step, with values from an independent program, and that memory at hand is enough.

use crate::{condition, mentions, push_renamed, update_of, value_in, way_value};
use cub_base::Items;
use cub_proto::{Branch, ISide, Lit, PSide, Target, Term, Update, Value};
use std::alloc::{AllocError, Global};
use std::test::Fail;

const X: Term = Term::Global(0);

const A0: Term = Term::Cell(0, 0);

fn branch(alloc: Global, cond: &[Lit], value: Value) -> Result<Branch, AllocError> {
    let cond = Items::from_slice(alloc, cond)?;
    Ok(Branch { cond, value })
}

// the cell of a process: Q where it is P, else as it is
fn update(alloc: Global) -> Result<Update, AllocError> {
    let mut branches = Items::new(alloc);
    branches.push(branch(alloc, &[Lit::FinIn { term: A0, mask: 1 }], Value::Con(1))?)?;
    Ok(Update {
        target: Target::Array(0),
        branches,
        last: Value::Read(A0),
    })
}

#[test]
fn branches_have_their_values(rt: HostRuntime) -> Result<(), Fail> {
    let update = update(rt.alloc())?;
    assert_eq!(rt; way_value(&update, 0), Value::Con(1));
    assert_eq!(rt; way_value(&update, 1), Value::Read(A0));
    assert_eq!(rt; condition(update.branches.as_slice(), 0).len(), 1);
    assert_eq!(rt; condition(update.branches.as_slice(), 1).len(), 0);
    Ok(())
}

#[test]
fn an_update_is_found_by_its_target(rt: HostRuntime) -> Result<(), Fail> {
    let mut updates = Vec::new(rt.alloc());
    updates.push(update(rt.alloc())?)?;
    assert!(rt; update_of(updates.as_slice(), Target::Array(0)).is_some());
    assert!(rt; update_of(updates.as_slice(), Target::Global(0)).is_none());
    Ok(())
}

#[test]
fn literals_mention_their_terms(rt: HostRuntime) {
    let both = Lit::Diff {
        a: ISide::At(X),
        b: ISide::Zero,
        bound: 3,
    };
    let process = Lit::ProcEq {
        a: PSide::Global(0),
        b: PSide::Place(0),
    };
    assert!(rt; mentions(&both, X));
    assert!(rt; mentions(&process, X));
    assert!(rt; !mentions(&process, A0));
}

#[test]
fn a_term_that_is_not_there_keeps_its_value(rt: HostRuntime) {
    assert_eq!(rt; value_in(&[X], &[Value::Con(1)], X), Value::Con(1));
    assert_eq!(rt; value_in(&[X], &[Value::Con(1)], A0), Value::Read(A0));
}

#[test]
fn renamed_literals_are_appended(rt: HostRuntime) -> Result<(), Fail> {
    let mut lits = Items::new(rt.alloc());
    push_renamed(&mut lits, &[4], &[Lit::FinIn { term: A0, mask: 1 }])?;
    let expected = Lit::FinIn {
        term: Term::Cell(0, 4),
        mask: 1,
    };
    assert_eq!(rt; lits.as_slice(), [expected].as_slice());
    Ok(())
}
