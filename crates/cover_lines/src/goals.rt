//! The lines of the unsafe conjunctions that some state meets.

ghost use Rattle.std.specs.Prelude.{◌≡◌, ◌<◌, ◌++◌, length, Some, slice_get, OnOk};
ghost use Rattle.cub_cube.specs.Goals.{goal_cube};
ghost use Rattle.cub_cube.specs.Cover.{IsCovered};
ghost use Rattle.theory.specs.Made.{IsFor};
ghost use Rattle.cover_lines.specs.Added.{IsPossibleGoal, AddsGoalLine, AreGoalsCovered, AddsGoalLines};

use crate::covering::{first_cover, push};
use cub_base::Memory;
use cub_cube::Cube;
use cub_proto::{CoverLine, CoverLines, Goal, Protocol};
use std::alloc::Global;
use subsume::Finder;
use theory::{Scratch, consistent};

// Appends the line of the goal with that number, where some state meets it.
fn push_goal_line<F: Finder<Scratch>>(
    alloc: Global,
    scratch: &mut Scratch,
    protocol: &Protocol,
    finder: &mut F,
    number: u32,
    goal: &Goal,
    lines: &mut CoverLines,
) -> Result<(), Memory>
    requires made { IsFor protocol.now scratch.old }
    requires serves { F.serves finder.old protocol.now }
    requires its { slice_get protocol.now.goals number ≡ Some goal.now }
    requires covered { IsPossibleGoal protocol.now goal.now → IsCovered protocol.now (F.list finder.old) (goal_cube protocol.now goal.now) }
    ensures line { OnOk result (AddsGoalLine protocol.now (F.list finder.old) number goal.now lines.old lines.new) }
    ensures same { F.list finder.new ≡ F.list finder.old }
    ensures serves { F.serves finder.new protocol.now }
    ensures made { IsFor protocol.now scratch.new }
{
    let cube = Cube::of(alloc, protocol, goal.width, goal.lits.as_slice())?;
    if !consistent(scratch, protocol, &cube) {
        return Ok(());
    }
    let (by, places) = first_cover(scratch, protocol, finder, &cube);
    let line = CoverLine::Unsafe {
        goal: number,
        by,
        places,
    };
    push(lines, line)?;
    Ok(())
}

/// Appends a line for each goal that some state meets, in order.
pub fn push_goal_lines<F: Finder<Scratch>>(
    alloc: Global,
    scratch: &mut Scratch,
    protocol: &Protocol,
    finder: &mut F,
    lines: &mut CoverLines,
) -> Result<(), Memory>
    requires made { IsFor protocol.now scratch.old }
    requires serves { F.serves finder.old protocol.now }
    requires covered { AreGoalsCovered protocol.now (F.list finder.old) }
    ensures lines { OnOk result (AddsGoalLines protocol.now (F.list finder.old) protocol.now.goals lines.old lines.new) }
    ensures same { F.list finder.new ≡ F.list finder.old }
    ensures serves { F.serves finder.new protocol.now }
    ensures made { IsFor protocol.now scratch.new }
{
    let goals = protocol.goals.as_slice();
    for number in 0..goals.len() {
        push_goal_line(
            alloc,
            scratch,
            protocol,
            finder,
            number as u32,
            &goals[number],
            lines,
        )?;
    }
    Ok(())
}
