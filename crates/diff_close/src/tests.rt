//! Systems over zero and four integer globals, whose bounds, values and cycles come from a program that is no part of
//! this one. Where a system is refused, one cycle alone is negative, and it is told from the literal that closes it.

ghost use Rattle.std.specs.Prelude.{◌≡◌, All, IsTrue};
ghost use Rattle.diff_close.specs.Literals.{IsAmong, MentionsOnly, HasSmallBound};
ghost use Rattle.diff_close.specs.Scratch.{IsClosed};

use crate::names::node;
use crate::scratch::DiffScratch;
use cub_proto::{ISide, Lit, Term};
use std::process::Abort;
use std::test::Fail;

// Zero is side 0, and the globals are the sides 1 to 4.
fn side(number: u16) -> ISide {
    if number == 0 {
        return ISide::Zero;
    }
    ISide::At(Term::Global(number))
}

// The side with that number.
fn numbered(number: usize) -> ISide {
    match number {
        0 => ISide::Zero,
        1 => ISide::At(Term::Global(1)),
        2 => ISide::At(Term::Global(2)),
        3 => ISide::At(Term::Global(3)),
        _ => ISide::At(Term::Global(4)),
    }
}

fn diff(a: u16, b: u16, bound: i64) -> Lit {
    Lit::Diff {
        a: side(a),
        b: side(b),
        bound,
    }
}

// A literal that nothing satisfies, but not one of integers.
fn other() -> Lit {
    Lit::FinIn {
        term: Term::Global(1),
        mask: 0,
    }
}

fn is_among(terms: &[Term], side: &ISide) -> bool
    ensures { IsTrue result → IsAmong terms.now side.now }
{
    if node(terms, side) > terms.len() {
        return false;
    }
    true
}

fn fits(terms: &[Term], literal: &Lit) -> bool
    ensures only { IsTrue result → MentionsOnly terms.now literal.now }
    ensures small { IsTrue result → HasSmallBound literal.now }
{
    match literal {
        Lit::Diff { a, b, bound } => {
            if !is_among(terms, a) {
                return false;
            }
            if !is_among(terms, b) {
                return false;
            }
            if *bound <= -100 {
                return false;
            }
            *bound < 100
        }
        _ => true,
    }
}

fn all_fit(terms: &[Term], lits: &[Lit]) -> bool
    ensures only { IsTrue result → All (MentionsOnly terms.now) lits.now }
    ensures small { IsTrue result → All HasSmallBound lits.now }
{
    lits.iter().all(|literal| fits(terms, literal))
}

fn close(rt: &impl Abort, scratch: &mut DiffScratch, lits: &[Lit], more: &[Lit]) -> bool
    requires { scratch.old.room ≡ 4 }
    ensures room { scratch.new.room ≡ 4 }
    ensures closed { IsTrue result → IsClosed scratch.new }
{
    let terms = [
        Term::Global(1),
        Term::Global(2),
        Term::Global(3),
        Term::Global(4),
    ];
    let fits = all_fit(&terms, lits);
    assert!(rt; fits);
    let more_fits = all_fit(&terms, more);
    assert!(rt; more_fits);
    scratch.close(lits, more).is_ok()
}

fn closes(
    rt: &impl Abort,
    scratch: &mut DiffScratch,
    lits: &[Lit],
    more: &[Lit],
    bounds: &[[Option<i64>; 5]],
    values: &[i64],
)
    requires { scratch.old.room ≡ 4 }
    ensures { scratch.new.room ≡ 4 }
{
    let closed = close(rt, scratch, lits, more);
    assert!(rt; closed);
    for (a, row) in bounds.iter().enumerate() {
        for (b, bound) in row.iter().enumerate() {
            let found = scratch.bound(numbered(a), numbered(b));
            assert_eq!(rt; found, *bound, "{a} - {b}");
        }
    }
    for (a, value) in values.iter().enumerate() {
        assert_eq!(rt; scratch.value(numbered(a)), *value, "{a}");
    }
}

fn refuses(rt: &impl Abort, scratch: &mut DiffScratch, lits: &[Lit], more: &[Lit], cycle: &[u64])
    requires { scratch.old.room ≡ 4 }
    ensures { scratch.new.room ≡ 4 }
{
    let closed = close(rt, scratch, lits, more);
    assert!(rt; !closed);
    assert_eq!(rt; scratch.cycle(), cycle);
}

#[test]
fn closes_systems(rt: HostRuntime) -> Result<(), Fail> {
    let mut scratch = DiffScratch::new(rt.alloc(), 4)?;
    closes(
        &rt,
        &mut scratch,
        &[diff(0, 4, 6), diff(0, 1, -2), other(), diff(0, 0, 7)],
        &[diff(1, 2, -2), other(), diff(0, 2, 2)],
        &[
            [Some(0), Some(-2), Some(-4), None, Some(6)],
            [None, Some(0), Some(-2), None, None],
            [None, None, Some(0), None, None],
            [None, None, None, Some(0), None],
            [None, None, None, None, Some(0)],
        ],
        &[0, 2, 4, 4, 4],
    );
    refuses(
        &rt,
        &mut scratch,
        &[diff(1, 4, -2), diff(2, 2, 0), diff(0, 3, 0)],
        &[other(), diff(2, 0, 1), diff(3, 2, -3), diff(2, 0, 3)],
        &[5, 2, 4],
    );
    closes(
        &rt,
        &mut scratch,
        &[diff(0, 0, 4), diff(2, 3, 1), diff(4, 2, -3)],
        &[diff(1, 2, 2), diff(0, 1, 4), diff(3, 0, -4)],
        &[
            [Some(0), Some(4), Some(6), Some(7), None],
            [Some(-1), Some(0), Some(2), Some(3), None],
            [Some(-3), Some(1), Some(0), Some(1), None],
            [Some(-4), Some(0), Some(2), Some(0), None],
            [Some(-6), Some(-2), Some(-3), Some(-2), Some(0)],
        ],
        &[0, -1, -3, -4, -6],
    );
    refuses(
        &rt,
        &mut scratch,
        &[diff(4, 4, 6), diff(0, 1, 1), diff(1, 2, -5)],
        &[diff(1, 0, 4), diff(0, 0, -3), diff(4, 2, 6)],
        &[4],
    );
    refuses(
        &rt,
        &mut scratch,
        &[diff(0, 4, 2), diff(2, 3, -5), diff(1, 1, 7), diff(3, 1, 0)],
        &[diff(3, 0, -5), diff(4, 3, 2)],
        &[5, 0, 4],
    );
    closes(
        &rt,
        &mut scratch,
        &[],
        &[],
        &[
            [Some(0), None, None, None, None],
            [None, Some(0), None, None, None],
            [None, None, Some(0), None, None],
            [None, None, None, Some(0), None],
            [None, None, None, None, Some(0)],
        ],
        &[0, 0, 0, 0, 0],
    );
    Ok(())
}
