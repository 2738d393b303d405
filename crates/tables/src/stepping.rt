//! Rows on pieces: `pieces CUBE`. Behind the line of the row, each piece has one of its own.

ghost use Rattle.theory.specs.Made.{IsFor};

use crate::answers::push_count;
use crate::failed::Failed;
use crate::labels::push_label;
use crate::words::cube;
use cub_proto::Protocol;
use cube_text::push_cube;
use piece_choices::Piece;
use pieces::is_expandable;
use std::alloc::AllocError;
use text_lines::push;
use theory::Scratch;

fn push_piece(out: &mut Vec<u8>, protocol: &Protocol, piece: &Piece) -> Result<(), AllocError> {
    push(out, b"\n  ")?;
    push_label(out, protocol, &piece.label)?;
    push(out, b": ")?;
    push_cube(out, protocol, &piece.cube)
}

/// Lists the pieces of the cube, and appends their number and them.
pub fn list_pieces(
    protocol: &Protocol,
    scratch: &mut Scratch,
    text: &[u8],
    out: &mut Vec<u8>,
) -> Result<(), Failed>
    requires { IsFor protocol.now scratch.old }
    ensures { IsFor protocol.now scratch.new }
{
    let cube = cube(protocol, text)?;
    if !is_expandable(protocol, &cube) {
        return Err(Failed::Unfit);
    }
    let list = pieces::pieces(scratch, protocol, &cube)?;
    push_count(out, list.len() as u64)?;
    for piece in list.as_slice() {
        push_piece(out, protocol, piece)?;
    }
    Ok(())
}
