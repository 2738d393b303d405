//! Texts of several lines in one row: `~` stands for the end of each line.

use std::alloc::{AllocError, Global};

/// The text with its lines ended.
pub fn ended(alloc: Global, row: &[u8]) -> Result<Vec<u8>, AllocError> {
    let mut text = Vec::new(alloc);
    for byte in row {
        let byte = if *byte == b'~' { b'\n' } else { *byte };
        text.push(byte)?;
    }
    Ok(text)
}

/// Appends the text in one line.
pub fn push_in_line(out: &mut Vec<u8>, text: &[u8]) -> Result<(), AllocError> {
    for byte in text {
        let byte = if *byte == b'\n' { b'~' } else { *byte };
        out.push(byte)?;
    }
    Ok(())
}
