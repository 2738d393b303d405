//! A protocol of two transitions, made and refused; a state of it, read and changed.

use crate::{
    Conjs, Decl, Decls, Event, Goal, Goals, Lit, Lits, Protocol, Slot, Sort, SortDecl, SortDecls,
    State, Target, Term, Transition, Transitions, Update, Val, Value, holds,
};
use cub_base::{Items, Name};
use std::alloc::{AllocError, Global};
use std::test::Fail;

fn name(alloc: Global, bytes: &[u8]) -> Result<Name, AllocError> {
    Items::from_slice(alloc, bytes)
}

fn names(alloc: Global, first: &[u8], second: &[u8]) -> Result<Items<Name>, AllocError> {
    let mut list = Items::new(alloc);
    list.push(name(alloc, first)?)?;
    list.push(name(alloc, second)?)?;
    Ok(list)
}

fn one_conjunction(alloc: Global, lits: &[Lit]) -> Result<Conjs, AllocError> {
    let mut conjs = Items::new(alloc);
    conjs.push(Items::from_slice(alloc, lits)?)?;
    Ok(conjs)
}

fn sorts(alloc: Global) -> Result<SortDecls, AllocError> {
    let mut sorts = Items::new(alloc);
    sorts.push(SortDecl {
        name: name(alloc, b"bool")?,
        cons: names(alloc, b"False", b"True")?,
    })?;
    sorts.push(SortDecl {
        name: name(alloc, b"t")?,
        cons: names(alloc, b"Idle", b"Crit")?,
    })?;
    Ok(sorts)
}

fn arrays(alloc: Global) -> Result<Decls, AllocError> {
    let mut arrays = Items::new(alloc);
    arrays.push(Decl {
        name: name(alloc, b"A")?,
        sort: Sort::Fin(1),
    })?;
    Ok(arrays)
}

fn at(place: u8, mask: u64) -> Lit {
    Lit::FinIn {
        term: Term::Cell(0, place),
        mask,
    }
}

fn goals(alloc: Global) -> Result<Goals, AllocError> {
    let lits: Lits = Items::from_slice(alloc, [at(0, 2), at(1, 2)].as_slice())?;
    let mut goals = Items::new(alloc);
    goals.push(Goal { width: 2, lits })?;
    Ok(goals)
}

fn enter(alloc: Global, target: Target) -> Result<Transitions, AllocError> {
    let mut updates = Items::new(alloc);
    updates.push(Update {
        target,
        branches: Items::new(alloc),
        last: Value::Con(1),
    })?;
    let mut transitions = Items::new(alloc);
    transitions.push(Transition {
        name: name(alloc, b"enter")?,
        params: 1,
        guard: one_conjunction(alloc, [at(0, 1)].as_slice())?,
        others: one_conjunction(alloc, [].as_slice())?,
        updates,
    })?;
    Ok(transitions)
}

fn protocol(alloc: Global, target: Target) -> Result<Option<Protocol>, AllocError> {
    let made = Protocol::try_new(
        alloc,
        sorts(alloc)?,
        Items::new(alloc),
        arrays(alloc)?,
        one_conjunction(alloc, [at(0, 1)].as_slice())?,
        goals(alloc)?,
        enter(alloc, target)?,
    );
    Ok(made.ok())
}

#[test]
fn parts_that_fit_make_a_protocol(rt: HostRuntime) -> Result<(), Fail> {
    let alloc = rt.alloc();
    let made = protocol(alloc, Target::Array(0))?;
    assert!(rt; made.is_some());
    let refused = protocol(alloc, Target::Array(1))?;
    assert!(rt; refused.is_none());
    if let Some(protocol) = made {
        let copy = protocol.copy()?;
        assert_eq!(rt; copy.goals.len(), 1);
        let mut state = State::new(alloc, &copy, 3)?;
        assert_eq!(rt; state.processes(), 3);
        assert!(rt; state.alive(2));
        state.kill(2);
        assert!(rt; !state.alive(2));
        let again = state.copy()?;
        assert_eq!(rt; again.processes(), 3);
    }
    Ok(())
}
