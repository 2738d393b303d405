//! Numbers as great as a piece has, each with one spelling: read by std, written again by `itoa`, and compared.

ghost use Rattle.std.specs.Prelude.{◌≡◌};
ghost use Rattle.journal_text.specs.Numbers.{number_of};

use itoa::Buffer;
use std::str;

/// The number below 2^128 that the bytes spell, if they spell one.
pub fn number(bytes: &[u8]) -> Option<u128>
    ensures { result ≡ number_of bytes.now }
{
    let Ok(text) = str::from_utf8(bytes) else {
        return None;
    };
    let Ok(number) = text.parse::<u128>() else {
        return None;
    };
    if Buffer::new().format(number).as_bytes() == bytes {
        Some(number)
    } else {
        None
    }
}
