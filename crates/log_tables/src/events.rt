//! Events that a row gives: `NODE NEEDED`, with `roots` for the node of the first event, and then ` ; PIECE (PLACES) CUBE`
//! for each item.

ghost use Rattle.std.specs.Prelude.{All, IfOk};
ghost use Rattle.log_steps.specs.Readable.{IsReadable};

use crate::failed::Failed;
use crate::fitting::is_readable;
use crate::words::{cube, first_side, first_word, long_number, number, places};
use cub_base::Items;
use cub_cube::Cube;
use cub_proto::Protocol;
use cube_core::{Added, AddedList, LogEvent};
use cube_text::{before, onward};
use std::alloc::Global;
use text_lines::is_word;

// The cube that the text reads as, if it may stand in a given event.
fn readable_cube(protocol: &Protocol, text: &[u8]) -> Result<Cube, Failed>
    ensures { IfOk result (IsReadable protocol.now) }
{
    let cube = cube(protocol, text)?;
    if !is_readable(protocol, &cube) {
        return Err(Failed::Unfit);
    }
    Ok(cube)
}

// What stands between the brackets at the front, and what behind them and a blank.
fn bracketed(text: &[u8]) -> Result<(&[u8], &[u8]), Failed> {
    let inner = match text {
        [b'(', inner @ ..] => inner,
        _ => return Err(Failed::Row),
    };
    match onward(b')', inner) {
        [b')', b' ', back @ ..] => Ok((before(b')', inner), back)),
        _ => Err(Failed::Row),
    }
}

// The item that the text is.
fn item(alloc: Global, protocol: &Protocol, text: &[u8]) -> Result<Added, Failed>
    ensures { IfOk result (λ a. IsReadable protocol.now a.cube) }
{
    let (piece, behind) = first_word(text);
    let (inner, back) = bracketed(behind)?;
    let piece = long_number(piece)?;
    let places = places(alloc, inner)?;
    let cube = readable_cube(protocol, back)?;
    Ok(Added {
        piece,
        places,
        cube,
    })
}

// The items that the text has between ` ; `.
fn items(alloc: Global, protocol: &Protocol, text: &[u8]) -> Result<AddedList, Failed>
    ensures { IfOk result (All (λ a. IsReadable protocol.now a.cube)) }
{
    let mut list = Items::new(alloc);
    let mut rest = text;
    for _turn in 0..text.len() {
        let (part, behind) = first_side(rest)?;
        let one = item(alloc, protocol, part)?;
        list.push(one)?;
        rest = behind;
        if rest.is_empty() {
            return Ok(list);
        }
    }
    Ok(list)
}

// The node that the word names; none for the roots.
fn node(word: &[u8]) -> Result<Option<u32>, Failed> {
    if is_word(word, b"roots") {
        return Ok(None);
    }
    Ok(Some(number(word)?))
}

/// The event that the text gives, if its cubes may be asked about.
pub fn event(alloc: Global, protocol: &Protocol, text: &[u8]) -> Result<LogEvent, Failed>
    ensures { IfOk result (λ e. All (λ a. IsReadable protocol.now a.cube) e.added) }
{
    let (front, back) = first_side(text)?;
    let (word, needed) = first_word(front);
    let node = node(word)?;
    let needed = long_number(needed)?;
    let added = items(alloc, protocol, back)?;
    Ok(LogEvent {
        node,
        added,
        needed,
    })
}
