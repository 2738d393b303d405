//! Rows on texts of protocols: `text TEXT`, where `~` stands for the end of each line.

use crate::failed::Failed;
use answer_lines::at_protocol_fault;
use protocol_text::{PROTOCOL_LIMIT, TextFault, read_protocol};
use std::alloc::Global;
use text_lines::push;

// The text with its lines ended.
fn ended(alloc: Global, row: &[u8]) -> Result<Vec<u8>, Failed> {
    let mut text = Vec::new(alloc);
    for byte in row {
        let byte = if *byte == b'~' { b'\n' } else { *byte };
        text.push(byte)?;
    }
    Ok(text)
}

/// Reads the protocol, and appends that it is accepted, or its first fault with its place.
pub fn text(alloc: Global, row: &[u8], out: &mut Vec<u8>) -> Result<(), Failed> {
    let text = ended(alloc, row)?;
    if text.len() as u64 > PROTOCOL_LIMIT {
        return Err(Failed::Row);
    }
    match read_protocol(alloc, text.as_slice()) {
        Ok(_protocol) => push(out, b"accepted")?,
        Err(TextFault::Memory) => return Err(Failed::Memory),
        Err(TextFault::Fault { code, line, column }) => {
            let answer = at_protocol_fault(alloc, code, line, column)?;
            push(out, front(answer.text.as_slice()))?;
        }
    }
    Ok(())
}

// The line without its end.
fn front(line: &[u8]) -> &[u8] {
    match line {
        [front @ .., b'\n'] => front,
        _ => line,
    }
}
