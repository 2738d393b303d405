//! Replays of one protocol with a universal guard and a step that picks a process. What is expected was worked out with
//! a plain program that explores states one by one.

use crate::{
    Machine, Refused, StartFault, StepFault, first_state, fit_events, is_start_value, set_start,
};
use cub_base::{Items, Name};
use cub_proto::{
    Branch, Chosen, Decl, Event, Goal, Lit, PSide, Protocol, Slot, Sort, SortDecl, Target, Term,
    Transition, Update, Val, Value,
};
use std::alloc::{AllocError, Global};
use std::test::Fail;

fn list<T: Copy>(alloc: Global, items: &[T]) -> Result<Items<T>, AllocError> {
    Items::from_slice(alloc, items)
}

fn just<T: Drop>(alloc: Global, item: T) -> Result<Items<T>, AllocError> {
    let mut items = Items::new(alloc);
    items.push(item)?;
    Ok(items)
}

fn both<T: Drop>(alloc: Global, first: T, second: T) -> Result<Items<T>, AllocError> {
    let mut items = just(alloc, first)?;
    items.push(second)?;
    Ok(items)
}

fn sort(alloc: Global, name: Name, first: &[u8], second: &[u8]) -> Result<SortDecl, AllocError> {
    let cons = both(alloc, list(alloc, first)?, list(alloc, second)?)?;
    Ok(SortDecl { name, cons })
}

const OWNER: PSide = PSide::Global(0);

fn cell_in(place: u8, mask: u64) -> Lit {
    Lit::FinIn {
        term: Term::Cell(0, place),
        mask,
    }
}

fn same(a: PSide, b: PSide) -> Lit {
    Lit::ProcEq { a, b }
}

/// The owner enters while all others are idle. Behind the branch that counts stands another one that is true.
fn enter(alloc: Global) -> Result<Transition, AllocError> {
    let enters = Branch {
        cond: just(alloc, same(PSide::Place(0), PSide::Place(1)))?,
        value: Value::Con(1),
    };
    let stays = Branch {
        cond: Items::new(alloc),
        value: Value::Read(Term::Cell(0, 1)),
    };
    let update = Update {
        target: Target::Array(0),
        branches: both(alloc, enters, stays)?,
        last: Value::Con(1),
    };
    Ok(Transition {
        name: list(alloc, b"enter")?,
        params: 1,
        guard: just(alloc, just(alloc, same(OWNER, PSide::Place(0)))?)?,
        others: just(alloc, just(alloc, cell_in(1, 1))?)?,
        updates: just(alloc, update)?,
    })
}

/// Any process becomes the owner.
fn pass(alloc: Global) -> Result<Transition, AllocError> {
    let update = Update {
        target: Target::Global(0),
        branches: Items::new(alloc),
        last: Value::Any,
    };
    Ok(Transition {
        name: list(alloc, b"pass")?,
        params: 0,
        guard: just(alloc, Items::new(alloc))?,
        others: just(alloc, Items::new(alloc))?,
        updates: just(alloc, update)?,
    })
}

fn protocol(alloc: Global) -> Result<Option<Protocol>, AllocError> {
    let bools = sort(alloc, list(alloc, b"bool")?, b"False", b"True")?;
    let colors = sort(alloc, list(alloc, b"t")?, b"Idle", b"Crit")?;
    let owner = Decl {
        name: list(alloc, b"X")?,
        sort: Sort::Proc,
    };
    let cells = Decl {
        name: list(alloc, b"A")?,
        sort: Sort::Fin(1),
    };
    let goal = Goal {
        width: 2,
        lits: list(alloc, [cell_in(0, 2), cell_in(1, 1)].as_slice())?,
    };
    let made = Protocol::try_new(
        alloc,
        both(alloc, bools, colors)?,
        just(alloc, owner)?,
        just(alloc, cells)?,
        just(alloc, just(alloc, cell_in(0, 1))?)?,
        just(alloc, goal)?,
        both(alloc, enter(alloc)?, pass(alloc)?)?,
    );
    Ok(made.ok())
}

#[derive(Clone, Copy)]
enum Step {
    Crash(u32),
    Enter(u32),
    Pass(u32),
    EnterAndPass(u32),
}

fn event(alloc: Global, step: Step) -> Result<Event, AllocError> {
    let (transition, process) = match step {
        Step::Crash(process) => return Ok(Event::Crash { process }),
        Step::Enter(process) | Step::EnterAndPass(process) => (0, Some(process)),
        Step::Pass(_) => (1, None),
    };
    let mut params = Items::new(alloc);
    if let Some(process) = process {
        params.push(process)?;
    }
    let mut picks = Items::new(alloc);
    if let Step::Pass(process) | Step::EnterAndPass(process) = step {
        picks.push(Chosen {
            slot: Slot::Global(0),
            val: Val::Proc(process),
        })?;
    }
    Ok(Event::Fire {
        transition,
        params,
        picks,
    })
}

/// What came of a replay with three processes, of which the second is the owner at the start.
#[derive(Clone, Copy, Debug, PartialEq, Eq)]
enum Outcome {
    Unfit,
    Refused(Refused),
    Ends(bool),
}

fn replayed(
    protocol: &Protocol,
    alloc: Global,
    events: &[Event],
    places: &[u32],
) -> Result<Outcome, StartFault> {
    let mut state = first_state(alloc, protocol, 3).map_err(|_memory| StartFault::Memory)?;
    let owner = Slot::Global(0);
    if !is_start_value(protocol, 3, owner, Val::Proc(1))
        || events.len() > 9
        || !fit_events(protocol, 3, events)
    {
        return Ok(Outcome::Unfit);
    }
    set_start(protocol, &mut state, owner, Val::Proc(1));
    let mut machine = Machine::new(protocol, state)?;
    match machine.run(events) {
        Ok(()) => Ok(Outcome::Ends(machine.ends_unsafe(0, places))),
        Err(refused) => Ok(Outcome::Refused(refused)),
    }
}

fn outcome_of(
    protocol: &Protocol,
    alloc: Global,
    steps: &[Step],
    places: &[u32],
) -> Result<Outcome, Fail> {
    let mut events = Items::new(alloc);
    for step in steps {
        events.push(event(alloc, *step)?)?;
    }
    Ok(replayed(protocol, alloc, events.as_slice(), places)?)
}

fn refused(number: u32, fault: StepFault) -> Outcome {
    Outcome::Refused(Refused { number, fault })
}

#[test]
fn replays_as_worked_out(rt: HostRuntime) -> Result<(), Fail> {
    let alloc = rt.alloc();
    let protocol = protocol(alloc)?.ok_or("no protocol")?;
    let owner = StepFault::Pick {
        slot: Slot::Global(0),
    };
    let cases = [
        (
            [Step::Enter(1), Step::Pass(0), Step::Crash(2)],
            [1, 0],
            Outcome::Ends(true),
        ),
        (
            [Step::Enter(1), Step::Pass(0), Step::Crash(2)],
            [1, 2],
            Outcome::Ends(false),
        ),
        (
            [Step::Enter(1), Step::Pass(0), Step::Crash(2)],
            [1, 1],
            Outcome::Ends(false),
        ),
        (
            [Step::Enter(1), Step::Pass(0), Step::Crash(2)],
            [0, 1],
            Outcome::Ends(false),
        ),
        (
            [Step::Enter(1), Step::Pass(0), Step::Enter(0)],
            [1, 0],
            refused(2, StepFault::Other { process: 1 }),
        ),
        (
            [Step::Pass(2), Step::Crash(2), Step::Enter(2)],
            [1, 0],
            refused(2, StepFault::Dead { process: 2 }),
        ),
        (
            [Step::Crash(0), Step::Pass(0), Step::Crash(0)],
            [1, 0],
            refused(1, owner),
        ),
        (
            [Step::EnterAndPass(1), Step::Pass(0), Step::Crash(0)],
            [1, 0],
            refused(0, owner),
        ),
        (
            [Step::Enter(0), Step::Pass(0), Step::Crash(0)],
            [1, 0],
            refused(0, StepFault::Guard),
        ),
        (
            [Step::Enter(1), Step::Pass(3), Step::Crash(0)],
            [1, 0],
            Outcome::Unfit,
        ),
    ];
    for (steps, places, expected) in cases {
        assert_eq!(rt;
            outcome_of(&protocol, alloc, steps.as_slice(), places.as_slice())?,
            expected
        );
    }
    Ok(())
}
