//! Rows on cube_text: `read WIDEST TEXT`. The text is what follows the second blank, to the end of the line.

use crate::failed::Failed;
use crate::words::{first_word, small_number};
use cub_proto::Protocol;
use cube_text::{CubeFault, push_cube, read_cube};
use text_lines::push;

/// Reads the cube, and appends it written again, or its fault.
pub fn read(protocol: &Protocol, text: &[u8], out: &mut Vec<u8>) -> Result<(), Failed> {
    let (widest, text) = first_word(text);
    match read_cube(protocol, text, small_number(widest)?) {
        Ok(cube) => push_cube(out, protocol, &cube)?,
        Err(CubeFault::Form) => push(out, b"Form")?,
        Err(CubeFault::Unknown) => push(out, b"Unknown")?,
        Err(CubeFault::Order) => push(out, b"Order")?,
        Err(CubeFault::Memory) => return Err(Failed::Memory),
    }
    Ok(())
}
