//! The obligations on goals. A goal that no state meets asks for nothing, but counts.

ghost use Rattle.std.specs.Prelude.{◌≡◌, ◌↔◌, ◌+◌, All, Some, None, IsTrue, MatchOption, slice_get};
ghost use Rattle.theory.specs.Made.{IsFor};
ghost use Rattle.pieces.specs.Jobs.{IsExpandable};
ghost use Rattle.cert_check.specs.declared.keys.Key.TheVariants as Key;
ghost use Rattle.cert_check.specs.First.{IsFirstWithout};
ghost use Rattle.cert_check.specs.Keys.{lines_rise};
ghost use Rattle.cert_check.specs.Obligations.{GoalCovered, GoalNamed, IsOwed};
ghost use Rattle.cert_check.specs.Refusal.{GoalsCovered, GoalsNamed};
ghost use Rattle.cert_check.specs.Walked.{HasCome};

use crate::covering::is_covered;
use crate::cursor::Cursor;
use crate::keys::Key;
use crate::naming::is_named;
use cub_cube::Cube;
use cub_proto::{CoverLine, Goal, Protocol};
use theory::{Scratch, load};

// Whether one cube covers the goal, where some state meets it.
fn goal_covered(
    scratch: &mut Scratch,
    protocol: &Protocol,
    cubes: &[Cube],
    n: u32,
    goal: &Goal,
) -> bool
    requires made { IsFor protocol.now scratch.old }
    requires fit { All (IsExpandable protocol.now) cubes.now }
    requires its { slice_get protocol.now.goals n ≡ Some goal.now }
    ensures made { IsFor protocol.now scratch.new }
    ensures exact { IsTrue result ↔ GoalCovered protocol.now cubes.now n }
{
    is_covered(scratch, protocol, cubes, goal.width, goal.lits.as_slice())
}

/// The first goal that no cube covers.
pub fn first_uncovered(scratch: &mut Scratch, protocol: &Protocol, cubes: &[Cube]) -> Option<u32>
    requires made { IsFor protocol.now scratch.old }
    requires fit { All (IsExpandable protocol.now) cubes.now }
    ensures made { IsFor protocol.now scratch.new }
    ensures first { MatchOption result (GoalsCovered protocol.now cubes.now) (λ n. IsFirstWithout (GoalCovered protocol.now cubes.now) n) }
{
    let goals = protocol.goals.as_slice();
    for n in 0..goals.len() as u32 {
        if !goal_covered(scratch, protocol, cubes, n, &goals[n as usize]) {
            return Some(n);
        }
    }
    None
}

// Whether a line names a cube that covers the goal, where some state meets it.
fn goal_named(
    scratch: &mut Scratch,
    protocol: &Protocol,
    cubes: &[Cube],
    lines: &[CoverLine],
    cursor: &mut Cursor,
    n: u32,
    goal: &Goal,
) -> bool
    requires made { IsFor protocol.now scratch.old }
    requires fit { All (IsExpandable protocol.now) cubes.now }
    requires rise { IsTrue (lines_rise lines.now) }
    requires its { slice_get protocol.now.goals n ≡ Some goal.now }
    requires come { HasCome (IsOwed protocol.now cubes.now) lines.now (Key.Goal n) cursor.old }
    ensures made { IsFor protocol.now scratch.new }
    ensures come { HasCome (IsOwed protocol.now cubes.now) lines.now (Key.Goal (n + 1)) cursor.new }
    ensures exact { IsTrue result ↔ GoalNamed protocol.now cubes.now lines.now n }
{
    let lits = goal.lits.as_slice();
    if !load(scratch, protocol, goal.width, lits) {
        return true;
    }
    is_named(
        scratch,
        protocol,
        cubes,
        lines,
        cursor,
        Key::Goal { goal: n },
        goal.width,
        lits,
    )
}

/// The first goal for which no line names a cube that covers it. If there is none, the cursor stands before the pieces.
pub fn first_unnamed(
    scratch: &mut Scratch,
    protocol: &Protocol,
    cubes: &[Cube],
    lines: &[CoverLine],
    cursor: &mut Cursor,
) -> Option<u32>
    requires made { IsFor protocol.now scratch.old }
    requires fit { All (IsExpandable protocol.now) cubes.now }
    requires rise { IsTrue (lines_rise lines.now) }
    requires come { HasCome (IsOwed protocol.now cubes.now) lines.now (Key.Goal 0) cursor.old }
    ensures made { IsFor protocol.now scratch.new }
    ensures come { result ≡ None → HasCome (IsOwed protocol.now cubes.now) lines.now (Key.Piece 0 0) cursor.new }
    ensures first { MatchOption result (GoalsNamed protocol.now cubes.now lines.now) (λ n. IsFirstWithout (GoalNamed protocol.now cubes.now lines.now) n) }
{
    let goals = protocol.goals.as_slice();
    for n in 0..goals.len() as u32 {
        if !goal_named(
            scratch,
            protocol,
            cubes,
            lines,
            cursor,
            n,
            &goals[n as usize],
        ) {
            return Some(n);
        }
    }
    None
}
