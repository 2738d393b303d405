//! An answer is made whole before any of it is written, so want of memory leaves nothing written.

ghost use Rattle.std.specs.Prelude.{◌≡◌, ◌++◌, IfOk, OnOk};
ghost use Rattle.std.specs.Fmt.{decimal};

use cub_base::{Items, Memory, Text};
use std::alloc::Global;

/// A status, and the text that is written with it.
#[derive(Drop)]
pub struct Answer {
    pub status: u8,
    pub text: Text,
}

/// A text that begins so.
pub fn begun(alloc: Global, words: &[u8]) -> Result<Text, Memory>
    ensures { IfOk result (λ text. text ≡ words.now) }
{
    Ok(Items::from_slice(alloc, words)?)
}

/// Appends the bytes.
pub fn put(text: &mut Text, words: &[u8]) -> Result<(), Memory>
    ensures { OnOk result (text.new ≡ text.old ++ words.now) }
{
    text.extend(words)?;
    Ok(())
}

/// Appends the number.
pub fn put_number(text: &mut Text, number: u64) -> Result<(), Memory>
    ensures { OnOk result (text.new ≡ text.old ++ decimal number) }
{
    let digits = number.to_string(text.allocator())?;
    put(text, digits.as_str().as_bytes())
}
