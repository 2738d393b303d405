//! Rows on theory and start_check: whether some state, or some start state, meets a cube, what a cube entails, and which
//! states are chosen.

ghost use Rattle.theory_laws.specs.Fitting.{AreFitting};
ghost use Rattle.theory.specs.Made.{IsFor};

use crate::answers::{push_state, push_yes};
use crate::failed::Failed;
use crate::fitting::fits;
use crate::words::{cube, fitting_cube, sides};
use cub_cube::Cube;
use cub_proto::{Lit, Protocol};
use std::alloc::Global;
use text_lines::push;
use theory::Scratch;

/// What is asked of a cube.
#[derive(Clone, Copy)]
pub enum Deciding {
    Consistent,
    Entails,
    State,
    WithStart,
    MeetsStart,
    StartState,
}

// The only literal of the cube, which is as wide as another.
fn only_literal(cube: &Cube, width: u8) -> Result<Lit, Failed> {
    if cube.width != width {
        return Err(Failed::Row);
    }
    match cube.lits.as_slice() {
        [lit] => Ok(*lit),
        _ => Err(Failed::Row),
    }
}

// `entails CUBE ; LITERAL`, the literal as a cube of that width with no other.
fn entails(
    protocol: &Protocol,
    scratch: &mut Scratch,
    text: &[u8],
    out: &mut Vec<u8>,
) -> Result<(), Failed>
    requires { IsFor protocol.now scratch.old }
    ensures { IsFor protocol.now scratch.new }
{
    let (front, back) = sides(text)?;
    let small = fitting_cube(protocol, front)?;
    let lit = only_literal(&cube(protocol, back)?, small.width)?;
    if !fits(protocol, small.width, &lit) {
        return Err(Failed::Unfit);
    }
    let does = theory::entails(scratch, protocol, &small, &lit);
    push_yes(out, does)?;
    Ok(())
}

// `state CUBE`
fn state(
    alloc: Global,
    protocol: &Protocol,
    scratch: &mut Scratch,
    cube: &Cube,
    out: &mut Vec<u8>,
) -> Result<(), Failed>
    requires made { IsFor protocol.now scratch.old }
    requires fitting { AreFitting protocol.now cube.now.width cube.now.lits }
    ensures { IsFor protocol.now scratch.new }
{
    match theory::state_of(alloc, scratch, protocol, cube)? {
        Some(state) => push_state(out, protocol, &state)?,
        None => push(out, b"none")?,
    }
    Ok(())
}

// `start_state CUBE`
fn start_state(
    alloc: Global,
    protocol: &Protocol,
    scratch: &mut Scratch,
    cube: &Cube,
    out: &mut Vec<u8>,
) -> Result<(), Failed>
    requires made { IsFor protocol.now scratch.old }
    requires fitting { AreFitting protocol.now cube.now.width cube.now.lits }
    ensures { IsFor protocol.now scratch.new }
{
    match start_check::start_state(alloc, scratch, protocol, cube)? {
        Some(state) => push_state(out, protocol, &state)?,
        None => push(out, b"none")?,
    }
    Ok(())
}

// Whether the tests hold that are answered with yes or no.
fn holds(ask: Deciding, protocol: &Protocol, scratch: &mut Scratch, cube: &Cube) -> bool
    requires made { IsFor protocol.now scratch.old }
    requires fitting { AreFitting protocol.now cube.now.width cube.now.lits }
    ensures { IsFor protocol.now scratch.new }
{
    match ask {
        Deciding::WithStart => theory::with_start(scratch, protocol, cube),
        Deciding::MeetsStart => start_check::meets_start(scratch, protocol, cube),
        _ => theory::consistent(scratch, protocol, cube),
    }
}

// Asks what is asked of a cube alone.
fn decide_cube(
    alloc: Global,
    ask: Deciding,
    protocol: &Protocol,
    scratch: &mut Scratch,
    text: &[u8],
    out: &mut Vec<u8>,
) -> Result<(), Failed>
    requires { IsFor protocol.now scratch.old }
    ensures { IsFor protocol.now scratch.new }
{
    let cube = fitting_cube(protocol, text)?;
    match ask {
        Deciding::State => state(alloc, protocol, scratch, &cube, out),
        Deciding::StartState => start_state(alloc, protocol, scratch, &cube, out),
        _ => {
            let yes = holds(ask, protocol, scratch, &cube);
            push_yes(out, yes)?;
            Ok(())
        }
    }
}

/// Asks, and appends the answer.
pub fn decide(
    alloc: Global,
    ask: Deciding,
    protocol: &Protocol,
    scratch: &mut Scratch,
    text: &[u8],
    out: &mut Vec<u8>,
) -> Result<(), Failed>
    requires { IsFor protocol.now scratch.old }
    ensures { IsFor protocol.now scratch.new }
{
    match ask {
        Deciding::Entails => entails(protocol, scratch, text, out),
        _ => decide_cube(alloc, ask, protocol, scratch, text, out),
    }
}
