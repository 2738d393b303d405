//! The sample of two levels, part by part, and the masks and names of the greatest one.

use crate::sample;
use cub_proto::{Lit, PSide, Target, Term, Value};
use std::test::Fail;

#[test]
fn parts_of_two_levels(rt: HostRuntime) -> Result<(), Fail> {
    let p = sample(rt.alloc(), 2)?;
    assert_eq!(rt; p.sorts.len(), 2);
    assert_eq!(rt; p.globals.len(), 0);
    assert_eq!(rt; p.arrays.len(), 1);
    assert_eq!(rt; p.transitions.len(), 2);
    let goal = p.goals.get(0).expect(&rt, "a goal");
    assert_eq!(rt; goal.width, 2);
    let both = [
        Lit::FinIn {
            term: Term::Cell(0, 0),
            mask: 4,
        },
        Lit::FinIn {
            term: Term::Cell(0, 1),
            mask: 4,
        },
    ];
    assert_eq!(rt; goal.lits.as_slice(), both.as_slice());
    Ok(())
}

#[test]
fn second_step(rt: HostRuntime) -> Result<(), Fail> {
    let p = sample(rt.alloc(), 2)?;
    let step = p.transitions.get(1).expect(&rt, "a step");
    assert_eq!(rt; step.name.as_slice(), b"up2".as_slice());
    assert_eq!(rt; step.params, 1);
    let guard = step.guard.get(0).expect(&rt, "a guard");
    assert_eq!(rt;
        guard.as_slice(),
        [Lit::FinIn {
            term: Term::Cell(0, 0),
            mask: 2
        }]
        .as_slice()
    );
    let others = step.others.get(0).expect(&rt, "a universal guard");
    assert_eq!(rt;
        others.as_slice(),
        [Lit::FinIn {
            term: Term::Cell(0, 1),
            mask: 5
        }]
        .as_slice()
    );
    let update = step.updates.get(0).expect(&rt, "an update");
    assert_eq!(rt; update.target, Target::Array(0));
    assert_eq!(rt; update.last, Value::Read(Term::Cell(0, 1)));
    let branch = update.branches.get(0).expect(&rt, "a branch");
    assert_eq!(rt; branch.value, Value::Con(2));
    assert_eq!(rt;
        branch.cond.as_slice(),
        [Lit::ProcEq {
            a: PSide::Place(0),
            b: PSide::Place(1)
        }]
        .as_slice()
    );
    Ok(())
}

#[test]
fn greatest(rt: HostRuntime) -> Result<(), Fail> {
    let p = sample(rt.alloc(), 63)?;
    let levels = p.sorts.get(1).expect(&rt, "a type");
    assert_eq!(rt; levels.cons.len(), 64);
    assert_eq!(rt;
        levels.cons.get(63).expect(&rt, "a level").as_slice(),
        b"L63".as_slice()
    );
    assert_eq!(rt; p.transitions.len(), 63);
    let second = p.transitions.get(1).expect(&rt, "a step");
    let others = second.others.get(0).expect(&rt, "a universal guard");
    assert_eq!(rt;
        others.as_slice(),
        [Lit::FinIn {
            term: Term::Cell(0, 1),
            mask: 18446744073709551613
        }]
        .as_slice()
    );
    let last = p.transitions.get(62).expect(&rt, "a step");
    assert_eq!(rt; last.name.as_slice(), b"up63".as_slice());
    assert_eq!(rt;
        last.others.get(0).expect(&rt, "no universal guard").len(),
        0
    );
    Ok(())
}
