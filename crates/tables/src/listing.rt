//! Rows on lists of cubes: of the plain one that a section keeps.

ghost use Rattle.std.specs.Prelude.{◌≡◌, ◌<◌, ◌≤◌, length, IsTrue, IfOk};
ghost use Rattle.cub_cube.specs.Cover.{DoesCover};
ghost use Rattle.theory.specs.Made.{IsFor};
ghost use Rattle.log_form.specs.Links.{cube_at};
ghost use Rattle.subsume.specs.Scanned.{IsServing};

use crate::answers::{push_count, push_found, push_yes};
use crate::failed::Failed;
use crate::fitting::is_fitting;
use crate::words::{askable_cube, first_word, number, sides};
use cub_proto::Protocol;
use cube_text::push_cube;
use std::alloc::Global;
use subsume::{Finder, Scan};
use text_lines::push;
use theory::Scratch;

/// What is asked of a list, or done to it.
#[derive(Clone, Copy)]
pub enum Listing {
    Push,
    Find,
    Under,
    IsCovered,
    Retire,
    Cut,
    Count,
    Cube,
}

// `push CUBE`
fn push_to<F: Finder<Scratch>>(
    protocol: &Protocol,
    finder: &mut F,
    text: &[u8],
    out: &mut Vec<u8>,
) -> Result<(), Failed>
    requires { F.serves finder.old protocol.now }
    ensures { F.serves finder.new protocol.now }
{
    let cube = askable_cube(protocol, text)?;
    if finder.count() == u32::MAX {
        return Err(Failed::Unfit);
    }
    match finder.push(protocol, cube) {
        Ok(number) => {
            push_count(out, u64::from(number))?;
            Ok(())
        }
        Err((_cube, _memory)) => Err(Failed::Memory),
    }
}

// `find START ; CUBE` and `under START ; CUBE`
fn search<F: Finder<Scratch>>(
    ask: Listing,
    protocol: &Protocol,
    scratch: &mut Scratch,
    finder: &mut F,
    text: &[u8],
    out: &mut Vec<u8>,
) -> Result<(), Failed>
    requires made { IsFor protocol.now scratch.old }
    requires serves { F.serves finder.old protocol.now }
    ensures made { IsFor protocol.now scratch.new }
    ensures serves { F.serves finder.new protocol.now }
{
    let (front, back) = sides(text)?;
    let start = number(front)?;
    let cube = askable_cube(protocol, back)?;
    let found = match ask {
        Listing::Find => finder.find(scratch, protocol, start, &cube),
        _ => finder.under(scratch, protocol, start, &cube),
    };
    push_found(out, &found)?;
    Ok(())
}

// `is_covered CUBE`
fn is_covered<F: Finder<Scratch>>(
    protocol: &Protocol,
    scratch: &mut Scratch,
    finder: &mut F,
    text: &[u8],
    out: &mut Vec<u8>,
) -> Result<(), Failed>
    requires made { IsFor protocol.now scratch.old }
    requires serves { F.serves finder.old protocol.now }
    ensures made { IsFor protocol.now scratch.new }
    ensures serves { F.serves finder.new protocol.now }
{
    let cube = askable_cube(protocol, text)?;
    let is = finder.is_covered(scratch, protocol, &cube);
    push_yes(out, is)?;
    Ok(())
}

// Whether one cube of the list covers another, as it is tested here.
fn is_cover<F: Finder<Scratch>>(
    protocol: &Protocol,
    scratch: &mut Scratch,
    finder: &F,
    number: u32,
    by: u32,
) -> bool
    requires made { IsFor protocol.now scratch.old }
    requires inside { number < length (F.list finder.now) }
    requires by { by < length (F.list finder.now) }
    ensures made { IsFor protocol.now scratch.new }
    ensures covers { IsTrue result → DoesCover protocol.now (cube_at (F.list finder.now) by) (cube_at (F.list finder.now) number) }
{
    let big = finder.cube(by);
    let small = finder.cube(number);
    if !is_fitting(protocol, big) {
        return false;
    }
    if !is_fitting(protocol, small) {
        return false;
    }
    match subsume::covers(scratch, protocol, big, small) {
        Some(_) => true,
        None => false,
    }
}

// `retire NUMBER BY`. What no later cube covers is not retired.
fn retire<F: Finder<Scratch>>(
    protocol: &Protocol,
    scratch: &mut Scratch,
    finder: &mut F,
    text: &[u8],
    out: &mut Vec<u8>,
) -> Result<(), Failed>
    requires made { IsFor protocol.now scratch.old }
    requires serves { F.serves finder.old protocol.now }
    ensures made { IsFor protocol.now scratch.new }
    ensures serves { F.serves finder.new protocol.now }
{
    let (front, back) = first_word(text);
    let number = number(front)?;
    let by = crate::words::number(back)?;
    if by >= finder.count() {
        return Err(Failed::Unfit);
    }
    if number >= by {
        return Err(Failed::Unfit);
    }
    if !is_cover(protocol, scratch, finder, number, by) {
        return Err(Failed::Unfit);
    }
    finder.retire(protocol, number, by);
    push(out, b"done")?;
    Ok(())
}

// `cut COUNT`
fn cut<F: Finder<Scratch>>(
    protocol: &Protocol,
    finder: &mut F,
    text: &[u8],
    out: &mut Vec<u8>,
) -> Result<(), Failed>
    requires { F.serves finder.old protocol.now }
    ensures { F.serves finder.new protocol.now }
{
    let _protocol = protocol;
    let count = number(text)?;
    if count > finder.count() {
        return Err(Failed::Unfit);
    }
    finder.cut(count);
    push(out, b"done")?;
    Ok(())
}

// `cube NUMBER`
fn show<F: Finder<Scratch>>(
    protocol: &Protocol,
    finder: &F,
    text: &[u8],
    out: &mut Vec<u8>,
) -> Result<(), Failed> {
    let number = number(text)?;
    if number >= finder.count() {
        return Err(Failed::Unfit);
    }
    push_cube(out, protocol, finder.cube(number))?;
    Ok(())
}

// Asks one list.
fn ask_one<F: Finder<Scratch>>(
    ask: Listing,
    protocol: &Protocol,
    scratch: &mut Scratch,
    finder: &mut F,
    text: &[u8],
    out: &mut Vec<u8>,
) -> Result<(), Failed>
    requires made { IsFor protocol.now scratch.old }
    requires serves { F.serves finder.old protocol.now }
    ensures made { IsFor protocol.now scratch.new }
    ensures serves { F.serves finder.new protocol.now }
{
    match ask {
        Listing::Push => push_to(protocol, finder, text, out),
        Listing::Find => search(ask, protocol, scratch, finder, text, out),
        Listing::Under => search(ask, protocol, scratch, finder, text, out),
        Listing::IsCovered => is_covered(protocol, scratch, finder, text, out),
        Listing::Retire => retire(protocol, scratch, finder, text, out),
        Listing::Cut => cut(protocol, finder, text, out),
        Listing::Cube => show(protocol, finder, text, out),
        Listing::Count => {
            push_count(out, u64::from(finder.count()))?;
            Ok(())
        }
    }
}

/// Asks the list, and appends the answer.
pub fn list_by(
    alloc: Global,
    ask: Listing,
    protocol: &Protocol,
    scratch: &mut Scratch,
    scan: &mut Scan,
    text: &[u8],
    out: &mut Vec<u8>,
) -> Result<(), Failed>
    requires made { IsFor protocol.now scratch.old }
    requires scan { IsServing protocol.now scan.old }
    ensures made { IsFor protocol.now scratch.new }
    ensures scan { IsServing protocol.now scan.new }
{
    let mut plain = Vec::new(alloc);
    ask_one(ask, protocol, scratch, scan, text, &mut plain)?;
    push(out, plain.as_slice())?;
    Ok(())
}
