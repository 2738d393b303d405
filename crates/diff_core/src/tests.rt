//! Systems over five nodes, whose bounds and solutions come from a program of its own.

ghost use Rattle.std.specs.Prelude.{◌≡◌, length};

use crate::constraint::{Constraint, Stored, is_in_range};
use crate::differences::Differences;
use std::process::Abort;
use std::test::Fail;

fn agrees(
    rt: &impl Abort,
    scratch: &mut Differences,
    constraints: &[Constraint],
    bounds: &[Option<i64>; 25],
    values: &[i64; 5],
) {
    assert!(rt; is_in_range(constraints, 5));
    let closed = scratch.close(5, &Stored(constraints));
    assert!(rt; closed.is_ok());
    for a in 0..5 {
        for b in 0..5 {
            assert_eq!(rt; scratch.bound(a, b), bounds[a * 5 + b], "{a} - {b}");
        }
        assert_eq!(rt;
            scratch.least_sum(a) - scratch.least_sum(0),
            values[a],
            "{a}"
        );
    }
}

fn refuses(rt: &impl Abort, scratch: &mut Differences, constraints: &[Constraint]) {
    assert!(rt; is_in_range(constraints, 5));
    let closed = scratch.close(5, &Stored(constraints));
    assert!(rt; closed.is_err());
    assert!(rt; !scratch.cycle().is_empty());
}

#[test]
fn closes_1(rt: HostRuntime) -> Result<(), Fail> {
    let constraints = [
        Constraint {
            left: 1,
            right: 3,
            bound: 6,
        },
        Constraint {
            left: 0,
            right: 0,
            bound: 4,
        },
        Constraint {
            left: 0,
            right: 2,
            bound: 5,
        },
        Constraint {
            left: 0,
            right: 4,
            bound: -1,
        },
        Constraint {
            left: 0,
            right: 0,
            bound: 2,
        },
        Constraint {
            left: 3,
            right: 0,
            bound: -1,
        },
        Constraint {
            left: 0,
            right: 4,
            bound: 2,
        },
    ];
    let bounds = [
        Some(0),
        None,
        Some(5),
        None,
        Some(-1),
        Some(5),
        Some(0),
        Some(10),
        Some(6),
        Some(4),
        None,
        None,
        Some(0),
        None,
        None,
        Some(-1),
        None,
        Some(4),
        Some(0),
        Some(-2),
        None,
        None,
        None,
        None,
        Some(0),
    ];
    let values = [0, 1, 1, -1, 1];
    agrees(
        &rt,
        &mut Differences::new(rt.alloc())?,
        &constraints,
        &bounds,
        &values,
    );
    Ok(())
}

#[test]
fn closes_2(rt: HostRuntime) -> Result<(), Fail> {
    let constraints = [
        Constraint {
            left: 4,
            right: 0,
            bound: 5,
        },
        Constraint {
            left: 2,
            right: 4,
            bound: 6,
        },
        Constraint {
            left: 1,
            right: 0,
            bound: 5,
        },
        Constraint {
            left: 4,
            right: 1,
            bound: 1,
        },
        Constraint {
            left: 0,
            right: 4,
            bound: 7,
        },
        Constraint {
            left: 0,
            right: 4,
            bound: -4,
        },
    ];
    let bounds = [
        Some(0),
        Some(-3),
        None,
        None,
        Some(-4),
        Some(5),
        Some(0),
        None,
        None,
        Some(1),
        Some(11),
        Some(7),
        Some(0),
        None,
        Some(6),
        None,
        None,
        None,
        Some(0),
        None,
        Some(5),
        Some(1),
        None,
        None,
        Some(0),
    ];
    let values = [0, 4, 4, 4, 4];
    agrees(
        &rt,
        &mut Differences::new(rt.alloc())?,
        &constraints,
        &bounds,
        &values,
    );
    Ok(())
}

#[test]
fn closes_3(rt: HostRuntime) -> Result<(), Fail> {
    let constraints = [
        Constraint {
            left: 4,
            right: 3,
            bound: 5,
        },
        Constraint {
            left: 3,
            right: 0,
            bound: -3,
        },
        Constraint {
            left: 2,
            right: 3,
            bound: 7,
        },
        Constraint {
            left: 0,
            right: 0,
            bound: 7,
        },
        Constraint {
            left: 2,
            right: 4,
            bound: 6,
        },
        Constraint {
            left: 3,
            right: 2,
            bound: 7,
        },
        Constraint {
            left: 3,
            right: 2,
            bound: -4,
        },
    ];
    let bounds = [
        Some(0),
        None,
        None,
        None,
        None,
        None,
        Some(0),
        None,
        None,
        None,
        Some(4),
        None,
        Some(0),
        Some(7),
        Some(6),
        Some(-3),
        None,
        Some(-4),
        Some(0),
        Some(2),
        Some(2),
        None,
        Some(1),
        Some(5),
        Some(0),
    ];
    let values = [0, 0, 0, -4, 0];
    agrees(
        &rt,
        &mut Differences::new(rt.alloc())?,
        &constraints,
        &bounds,
        &values,
    );
    Ok(())
}

#[test]
fn refuses_4(rt: HostRuntime) -> Result<(), Fail> {
    let constraints = [
        Constraint {
            left: 2,
            right: 1,
            bound: 5,
        },
        Constraint {
            left: 0,
            right: 3,
            bound: -4,
        },
        Constraint {
            left: 1,
            right: 2,
            bound: -2,
        },
        Constraint {
            left: 1,
            right: 3,
            bound: 2,
        },
        Constraint {
            left: 3,
            right: 0,
            bound: -2,
        },
        Constraint {
            left: 3,
            right: 3,
            bound: 4,
        },
        Constraint {
            left: 2,
            right: 1,
            bound: 2,
        },
        Constraint {
            left: 4,
            right: 2,
            bound: 7,
        },
    ];
    refuses(&rt, &mut Differences::new(rt.alloc())?, &constraints);
    Ok(())
}

#[test]
fn refuses_5(rt: HostRuntime) -> Result<(), Fail> {
    let constraints = [
        Constraint {
            left: 4,
            right: 4,
            bound: 6,
        },
        Constraint {
            left: 0,
            right: 3,
            bound: 8,
        },
        Constraint {
            left: 4,
            right: 3,
            bound: 2,
        },
        Constraint {
            left: 3,
            right: 3,
            bound: -3,
        },
        Constraint {
            left: 3,
            right: 3,
            bound: -4,
        },
        Constraint {
            left: 1,
            right: 0,
            bound: -1,
        },
    ];
    refuses(&rt, &mut Differences::new(rt.alloc())?, &constraints);
    Ok(())
}

#[test]
fn refuses_6(rt: HostRuntime) -> Result<(), Fail> {
    let constraints = [
        Constraint {
            left: 1,
            right: 0,
            bound: 1,
        },
        Constraint {
            left: 4,
            right: 0,
            bound: -3,
        },
        Constraint {
            left: 0,
            right: 4,
            bound: -2,
        },
        Constraint {
            left: 4,
            right: 0,
            bound: 1,
        },
        Constraint {
            left: 4,
            right: 0,
            bound: -3,
        },
        Constraint {
            left: 1,
            right: 4,
            bound: 2,
        },
        Constraint {
            left: 1,
            right: 2,
            bound: 1,
        },
        Constraint {
            left: 4,
            right: 2,
            bound: 3,
        },
    ];
    refuses(&rt, &mut Differences::new(rt.alloc())?, &constraints);
    Ok(())
}
