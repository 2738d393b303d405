//! Rows on cube_form and on the normal form: the forms that a search gives its cubes, and which forms a log admits.

ghost use Rattle.theory.specs.Made.{IsFor};

use crate::answers::{push_renamed, push_yes};
use crate::failed::Failed;
use crate::words::{askable_cube, cube, fitting_cube, places, sides};
use cub_base::Items;
use cub_cube::Cube;
use cub_proto::{Lits, Protocol};
use cube_text::push_cube;
use std::alloc::Global;
use theory::Scratch;

/// What is made or asked of a cube.
#[derive(Clone, Copy)]
pub enum Forming {
    Normal,
    Simplify,
    NormalName,
    Form,
    IsForm,
}

// Appends the literals of the cube that a text reads as. Its width is answered.
fn gather(protocol: &Protocol, text: &[u8], lits: &mut Lits) -> Result<u8, Failed> {
    let cube = cube(protocol, text)?;
    lits.extend(cube.lits.as_slice())?;
    Ok(cube.width)
}

// `normal CUBE ; CUBE`: the normal form of the literals of both, as wide as the first.
fn normal(
    alloc: Global,
    protocol: &Protocol,
    text: &[u8],
    out: &mut Vec<u8>,
) -> Result<(), Failed> {
    let (front, back) = sides(text)?;
    let mut lits = Items::new(alloc);
    let width = gather(protocol, front, &mut lits)?;
    gather(protocol, back, &mut lits)?;
    let cube = Cube::of(alloc, protocol, width, lits.as_slice())?;
    push_cube(out, protocol, &cube)?;
    Ok(())
}

// `simplify CUBE`
fn simplify(
    protocol: &Protocol,
    scratch: &mut Scratch,
    text: &[u8],
    out: &mut Vec<u8>,
) -> Result<(), Failed>
    requires { IsFor protocol.now scratch.old }
    ensures { IsFor protocol.now scratch.new }
{
    let cube = fitting_cube(protocol, text)?;
    let simple = cube_form::simplify(scratch, protocol, cube);
    push_cube(out, protocol, &simple)?;
    Ok(())
}

// `normal_name CUBE`
fn normal_name(protocol: &Protocol, text: &[u8], out: &mut Vec<u8>) -> Result<(), Failed> {
    let cube = askable_cube(protocol, text)?;
    match cube_form::normal_name(protocol, cube) {
        Ok((named, places)) => {
            push_renamed(out, protocol, &places, &named)?;
            Ok(())
        }
        Err((_cube, _memory)) => Err(Failed::Memory),
    }
}

// `form CUBE`
fn form(
    protocol: &Protocol,
    scratch: &mut Scratch,
    text: &[u8],
    out: &mut Vec<u8>,
) -> Result<(), Failed>
    requires { IsFor protocol.now scratch.old }
    ensures { IsFor protocol.now scratch.new }
{
    let cube = askable_cube(protocol, text)?;
    let (formed, places) = cube_form::form(scratch, protocol, cube)?;
    push_renamed(out, protocol, &places, &formed)?;
    Ok(())
}

// `is_form PIECE ; PLACES ; CUBE`
fn is_form(
    alloc: Global,
    protocol: &Protocol,
    scratch: &mut Scratch,
    text: &[u8],
    out: &mut Vec<u8>,
) -> Result<(), Failed>
    requires { IsFor protocol.now scratch.old }
    ensures { IsFor protocol.now scratch.new }
{
    let (front, back) = sides(text)?;
    let (renaming, last) = sides(back)?;
    let piece = askable_cube(protocol, front)?;
    let places = places(alloc, renaming)?;
    let cube = askable_cube(protocol, last)?;
    let is = cube_form::is_form(scratch, protocol, &piece, &places, &cube);
    push_yes(out, is)?;
    Ok(())
}

/// Makes or asks, and appends the answer.
pub fn form_by(
    alloc: Global,
    ask: Forming,
    protocol: &Protocol,
    scratch: &mut Scratch,
    text: &[u8],
    out: &mut Vec<u8>,
) -> Result<(), Failed>
    requires { IsFor protocol.now scratch.old }
    ensures { IsFor protocol.now scratch.new }
{
    match ask {
        Forming::Normal => normal(alloc, protocol, text, out),
        Forming::Simplify => simplify(protocol, scratch, text, out),
        Forming::NormalName => normal_name(protocol, text, out),
        Forming::Form => form(protocol, scratch, text, out),
        Forming::IsForm => is_form(alloc, protocol, scratch, text, out),
    }
}
