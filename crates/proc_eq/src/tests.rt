//! Expected values: another program's answers.

ghost use Rattle.std.specs.Prelude.{◌≡◌, ◌≤◌, All, IsTrue};
ghost use Rattle.proc_eq.specs.Solution.{side_fits, sides_fit};

use crate::ProcScratch;
use cub_proto::{Lit, PSide};
use std::process::Abort;
use std::test::Fail;

fn side_fits(side: PSide, width: u8) -> bool
    ensures { result ≡ side_fits width side }
{
    match side {
        PSide::Global(global) => global < 64,
        PSide::Place(place) => place < width,
    }
}

fn sides_fit(lit: &Lit, width: u8) -> bool
    ensures { result ≡ sides_fit width lit.now }
{
    match lit {
        Lit::ProcEq { a, b } | Lit::ProcNe { a, b } => side_fits(*a, width) && side_fits(*b, width),
        _ => true,
    }
}

fn all_fit(lits: &[Lit], width: u8) -> bool
    ensures { IsTrue result → All (λ lit. IsTrue (sides_fit width lit)) lits.now }
{
    lits.iter().all(|lit| sides_fit(lit, width))
}

fn global(number: u16) -> PSide {
    PSide::Global(number)
}

fn place(number: u8) -> PSide {
    PSide::Place(number)
}

fn same(a: PSide, b: PSide) -> Lit {
    Lit::ProcEq { a, b }
}

fn other(a: PSide, b: PSide) -> Lit {
    Lit::ProcNe { a, b }
}

// Whether the literals hold, and then the processes of the first globals.
fn check(
    rt: &impl Abort,
    scratch: &mut ProcScratch,
    lits: &[Lit],
    more: &[Lit],
    width: u8,
    want: Option<&[u8]>,
) {
    assert!(rt; width <= 11);
    assert!(rt; all_fit(lits, width));
    assert!(rt; all_fit(more, width));
    if !scratch.close(lits, more, width) {
        assert!(rt; want.is_none());
        return;
    }
    scratch.choose(lits, more);
    let Some(processes) = want else {
        assert!(rt; false);
        return;
    };
    for (number, process) in processes.iter().enumerate() {
        assert!(rt; number < 64);
        assert_eq!(rt; scratch.process(PSide::Global(number as u16)), *process);
    }
    for number in 0..width {
        assert_eq!(rt; scratch.process(PSide::Place(number)), number);
    }
}

#[test]
fn closes_and_chooses(rt: HostRuntime) -> Result<(), Fail> {
    let mut scratch = ProcScratch::new(rt.alloc())?;
    let lits = [
        same(global(0), place(1)),
        other(global(1), place(0)),
        other(global(0), global(1)),
        same(global(1), global(2)),
    ];
    let more = [other(global(2), global(3)), other(global(3), place(0))];
    check(&rt, &mut scratch, &lits, &more, 2, Some(&[1, 2, 2, 1, 0]));
    let more = [same(global(0), place(0))];
    check(&rt, &mut scratch, &lits, &more, 2, None);
    let lits = [
        same(global(0), global(1)),
        same(global(1), global(2)),
        other(global(0), global(2)),
    ];
    check(&rt, &mut scratch, &lits, &[], 2, None);
    let lits = [
        other(global(0), global(1)),
        other(global(0), global(2)),
        other(global(1), global(2)),
        same(global(3), global(2)),
    ];
    check(&rt, &mut scratch, &lits, &[], 0, Some(&[0, 1, 2, 2]));
    let lits = [
        other(place(0), place(2)),
        other(global(5), place(0)),
        other(global(5), place(1)),
        other(global(5), place(2)),
        other(global(4), global(5)),
    ];
    check(&rt, &mut scratch, &[], &lits, 3, Some(&[0, 0, 0, 0, 0, 3]));
    check(
        &rt,
        &mut scratch,
        &[other(place(0), place(0))],
        &[],
        1,
        None,
    );
    check(
        &rt,
        &mut scratch,
        &[same(place(0), place(0))],
        &[],
        1,
        Some(&[]),
    );
    check(&rt, &mut scratch, &[], &[same(place(0), place(1))], 2, None);
    Ok(())
}

// Whether the two sides are forced to be one process.
fn is_one(rt: &impl Abort, scratch: &ProcScratch, a: PSide, b: PSide) -> bool {
    assert!(rt; side_fits(a, 11));
    assert!(rt; side_fits(b, 11));
    scratch.same(a, b)
}

#[test]
fn tells_what_is_one(rt: HostRuntime) -> Result<(), Fail> {
    let mut scratch = ProcScratch::new(rt.alloc())?;
    assert!(rt; is_one(&rt, &scratch, global(7), global(7)));
    assert!(rt; !is_one(&rt, &scratch, place(0), place(1)));
    let lits = [same(global(0), global(1)), other(global(2), global(0))];
    let more = [same(global(1), place(1))];
    assert!(rt; all_fit(&lits, 2));
    assert!(rt; all_fit(&more, 2));
    assert!(rt; scratch.close(&lits, &more, 2));
    assert!(rt; is_one(&rt, &scratch, global(0), place(1)));
    assert!(rt; !is_one(&rt, &scratch, global(2), place(1)));
    assert!(rt; !is_one(&rt, &scratch, global(2), place(0)));
    Ok(())
}
