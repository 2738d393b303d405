//! Parts of answers, as they are written to the line of a row.

use crate::failed::Failed;
use cube_core::AdmitFault;
use itoa::Buffer;
use std::alloc::AllocError;
use text_lines::{push, push_process};

/// Appends the number.
pub fn push_count(out: &mut Vec<u8>, count: u64) -> Result<(), AllocError> {
    push(out, Buffer::new().format(count).as_bytes())
}

/// Appends the word, a blank, and the number.
pub fn push_named(out: &mut Vec<u8>, name: &[u8], number: u64) -> Result<(), AllocError> {
    push(out, name)?;
    push(out, b" ")?;
    push_count(out, number)
}

fn push_other_places(out: &mut Vec<u8>, places: &[u8]) -> Result<(), AllocError> {
    for place in places {
        push(out, b" ")?;
        push_process(out, u32::from(*place))?;
    }
    Ok(())
}

fn push_joined(out: &mut Vec<u8>, places: &[u8]) -> Result<(), AllocError> {
    match places {
        [] => Ok(()),
        [first, others @ ..] => {
            push_process(out, u32::from(*first))?;
            push_other_places(out, others)
        }
    }
}

/// Appends the places, as `(#2 #1)`.
pub fn push_places(out: &mut Vec<u8>, places: &[u8]) -> Result<(), AllocError> {
    push(out, b"(")?;
    push_joined(out, places)?;
    push(out, b")")
}

/// Appends a kind of fault and its line, as `J3 at line 5`.
pub fn push_fault(out: &mut Vec<u8>, letter: &[u8], kind: u8, line: u32) -> Result<(), AllocError> {
    push(out, letter)?;
    push_count(out, u64::from(kind))?;
    push(out, b" at line ")?;
    push_count(out, u64::from(line))
}

/// Appends why an event is refused.
pub fn push_refused(out: &mut Vec<u8>, fault: AdmitFault) -> Result<(), Failed> {
    match fault {
        AdmitFault::Not { added: None } => push(out, b"refused")?,
        AdmitFault::Not { added: Some(added) } => push_named(out, b"refused", u64::from(added))?,
        AdmitFault::Memory => return Err(Failed::Memory),
    }
    Ok(())
}
