//! Lists of drawn cubes, and searches for what covers a cube that is drawn next, or what it covers. Nearly none is found, so
//! that a search goes to the end of the list.

ghost use Rattle.std.specs.Prelude.{◌≡◌, []};
ghost use Rattle.theory.specs.Made.{IsFor};

use crate::drawing::draw;
use crate::failed::Failed;
use crate::parts::protocol;
use cub_proto::Protocol;
use std::alloc::Global;
use subsume::Finder;
use theory::Scratch;

/// What is asked of a list.
#[derive(Clone, Copy, Debug, PartialEq, Eq)]
pub enum Question {
    Find,
    IsCovered,
    Under,
}

// Appends the next drawn cube.
fn push<F: Finder<Scratch>>(
    alloc: Global,
    protocol: &Protocol,
    finder: &mut F,
    seed: &mut u64,
) -> Result<(), Failed>
    requires { F.serves finder.old protocol.now }
    ensures { F.serves finder.new protocol.now }
{
    let cube = draw(alloc, protocol, seed)?;
    if finder.count() == u32::MAX {
        return Err(Failed::Size);
    }
    match finder.push(protocol, cube) {
        Ok(_number) => Ok(()),
        Err((_cube, _memory)) => Err(Failed::Memory),
    }
}

// Appends so many.
fn fill<F: Finder<Scratch>>(
    alloc: Global,
    protocol: &Protocol,
    finder: &mut F,
    seed: &mut u64,
    cubes: u32,
) -> Result<(), Failed>
    requires { F.serves finder.old protocol.now }
    ensures { F.serves finder.new protocol.now }
{
    for _done in 0..cubes {
        push(alloc, protocol, finder, seed)?;
    }
    Ok(())
}

// Whether the list has a cube that covers the next drawn one, or that it covers.
fn ask<F: Finder<Scratch>>(
    alloc: Global,
    scratch: &mut Scratch,
    protocol: &Protocol,
    finder: &mut F,
    seed: &mut u64,
    question: Question,
) -> Result<bool, Failed>
    requires made { IsFor protocol.now scratch.old }
    requires serves { F.serves finder.old protocol.now }
    ensures made { IsFor protocol.now scratch.new }
    ensures serves { F.serves finder.new protocol.now }
{
    let cube = draw(alloc, protocol, seed)?;
    let found = match question {
        Question::Find => finder.find(scratch, protocol, 0, &cube).is_some(),
        Question::IsCovered => finder.is_covered(scratch, protocol, &cube),
        Question::Under => finder.under(scratch, protocol, 0, &cube).is_some(),
    };
    Ok(found)
}

/// Fills the empty list with so many cubes and asks; adds the covering tests to how often something was found.
pub fn search<F: Finder<Scratch>>(
    alloc: Global,
    finder: &mut F,
    cubes: u32,
    question: Question,
    times: u32,
) -> Result<u64, Failed>
    requires { F.list finder.old ≡ [] }
{
    let protocol = protocol(alloc)?;
    let mut seed = 1u64;
    let mut scratch = Scratch::new(alloc, &protocol)?;
    fill(alloc, &protocol, finder, &mut seed, cubes)?;
    let mut count = 0u64;
    for _done in 0..times {
        let found = ask(alloc, &mut scratch, &protocol, finder, &mut seed, question)?;
        count = count.wrapping_add(u64::from(found));
    }
    Ok(count.wrapping_add(scratch.tests()))
}
