//! The canonical text of a protocol with most forms of the language; another program made the expected text.

use crate::print;
use cub_base::{Items, Name};
use cub_proto::{
    Branch, Conjs, Decl, Decls, Goal, Goals, ISide, Lit, Lits, PSide, Protocol, Sort, SortDecl,
    SortDecls, Target, Term, Transition, Transitions, Update, Updates, Value,
};
use std::alloc::{AllocError, Global};
use std::test::Fail;

fn name(alloc: Global, bytes: &[u8]) -> Result<Name, AllocError> {
    Items::from_slice(alloc, bytes)
}

fn sort(alloc: Global, bytes: &[u8], a: &[u8], b: &[u8]) -> Result<SortDecl, AllocError> {
    let mut cons = Items::new(alloc);
    cons.push(name(alloc, a)?)?;
    cons.push(name(alloc, b)?)?;
    Ok(SortDecl {
        name: name(alloc, bytes)?,
        cons,
    })
}

fn sorts(alloc: Global) -> Result<SortDecls, AllocError> {
    let mut sorts = Items::new(alloc);
    sorts.push(sort(alloc, b"bool", b"False", b"True")?)?;
    sorts.push(sort(alloc, b"t", b"Idle", b"Crit")?)?;
    Ok(sorts)
}

fn decl(alloc: Global, bytes: &[u8], sort: Sort) -> Result<Decl, AllocError> {
    Ok(Decl {
        name: name(alloc, bytes)?,
        sort,
    })
}

fn globals(alloc: Global) -> Result<Decls, AllocError> {
    let mut globals = Items::new(alloc);
    globals.push(decl(alloc, b"X", Sort::Int)?)?;
    globals.push(decl(alloc, b"W", Sort::Proc)?)?;
    Ok(globals)
}

fn arrays(alloc: Global) -> Result<Decls, AllocError> {
    let mut arrays = Items::new(alloc);
    arrays.push(decl(alloc, b"A", Sort::Fin(1))?)?;
    Ok(arrays)
}

// The cell at the place is one of the constructors of the mask.
fn cell(place: u8, mask: u64) -> Lit {
    Lit::FinIn {
        term: Term::Cell(0, place),
        mask,
    }
}

fn x() -> ISide {
    ISide::At(Term::Global(0))
}

fn x_at_most(bound: i64) -> Lit {
    Lit::Diff {
        a: x(),
        b: ISide::Zero,
        bound,
    }
}

fn x_at_least_one() -> Lit {
    Lit::Diff {
        a: ISide::Zero,
        b: x(),
        bound: -1,
    }
}

fn lits(alloc: Global, list: &[Lit]) -> Result<Lits, AllocError> {
    Items::from_slice(alloc, list)
}

fn one(alloc: Global, list: &[Lit]) -> Result<Conjs, AllocError> {
    let mut conjs = Items::new(alloc);
    conjs.push(lits(alloc, list)?)?;
    Ok(conjs)
}

fn goals(alloc: Global) -> Result<Goals, AllocError> {
    let apart = Lit::ProcNe {
        a: PSide::Global(1),
        b: PSide::Place(0),
    };
    let first = [cell(0, 2), cell(1, 2), apart, x_at_most(2_000_000_000)];
    let mut goals = Items::new(alloc);
    goals.push(Goal {
        width: 2,
        lits: lits(alloc, &first)?,
    })?;
    goals.push(Goal {
        width: 0,
        lits: lits(alloc, &[x_at_most(-2_000_000_001)])?,
    })?;
    Ok(goals)
}

fn update(alloc: Global, global: u16, last: Value) -> Update {
    Update {
        target: Target::Global(global),
        branches: Items::new(alloc),
        last,
    }
}

fn updates(alloc: Global) -> Result<Updates, AllocError> {
    let here = Lit::ProcEq {
        a: PSide::Place(0),
        b: PSide::Place(2),
    };
    let mut branches = Items::new(alloc);
    branches.push(Branch {
        cond: lits(alloc, &[here])?,
        value: Value::Con(1),
    })?;
    let mut updates = Items::new(alloc);
    let less = Value::Sum { base: x(), add: -1 };
    updates.push(update(alloc, 0, less))?;
    updates.push(update(alloc, 1, Value::Any))?;
    updates.push(Update {
        target: Target::Array(0),
        branches,
        last: Value::Read(Term::Cell(0, 2)),
    })?;
    Ok(updates)
}

fn transitions(alloc: Global) -> Result<Transitions, AllocError> {
    let own = Lit::ProcEq {
        a: PSide::Global(1),
        b: PSide::Place(1),
    };
    let mut guard = one(alloc, &[cell(0, 1), x_at_most(6)])?;
    guard.push(lits(alloc, &[own])?)?;
    let others = one(alloc, &[cell(2, 1)])?;
    let mut transitions = Items::new(alloc);
    transitions.push(Transition {
        name: name(alloc, b"enter")?,
        params: 2,
        guard,
        others,
        updates: updates(alloc)?,
    })?;
    Ok(transitions)
}

fn protocol(alloc: Global) -> Result<Protocol, Fail> {
    let start = one(alloc, &[cell(0, 1), x_at_most(1), x_at_least_one()])?;
    let made = Protocol::try_new(
        alloc,
        sorts(alloc)?,
        globals(alloc)?,
        arrays(alloc)?,
        start,
        goals(alloc)?,
        transitions(alloc)?,
    )?;
    Ok(made)
}

const EXPECTED: &str = "type t = Idle | Crit
var X : int
var W : proc
array A[proc] : t
init (_1) { A[_1] = Idle && X <= 1 && 0 <= X - 1 }
unsafe (_1 _2) { A[_1] = Crit && A[_2] = Crit && W <> _1 && X - 1000000000 <= 1000000000 }
unsafe () { X + 1000000000 < -1000000000 }
transition enter (_1 _2) requires { (A[_1] = Idle && X <= 6 || W = _2) && forall_other _0. (A[_0] = Idle) } { X := X - 1; W := ?; A[_0] := case | _1 = _0 : Crit | _ : A[_0]; }
";

#[test]
fn canonical_text(rt: HostRuntime) -> Result<(), Fail> {
    let protocol = protocol(rt.alloc())?;
    let text = print(&protocol)?;
    assert_eq!(rt; text.as_slice(), EXPECTED.as_bytes());
    Ok(())
}
