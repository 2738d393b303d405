//! Numbers as great as one likes, each with one spelling: read by std, written again by `itoa`, and compared.

ghost use Rattle.std.specs.Prelude.{◌≡◌, Option};
ghost use Rattle.cert_text.specs.Numbers.{number_of, is_below, is_same};

use itoa::Buffer;
use std::str;

/// The number below 2^128 that the bytes spell, if they spell one.
pub fn number(bytes: &[u8]) -> Option<u128>
    ensures { result ≡ number_of bytes.now }
{
    let Ok(text) = str::from_utf8(bytes) else {
        return None;
    };
    let Ok(number) = text.parse::<u128>() else {
        return None;
    };
    if Buffer::new().format(number).as_bytes() == bytes {
        Some(number)
    } else {
        None
    }
}

/// Whether the number is less than one that was read. One that could not be read is greater than all.
pub fn is_below(number: u128, read: Option<u128>) -> bool
    ensures { result ≡ is_below number read }
{
    match read {
        None => true,
        Some(read) => number < read,
    }
}

/// Whether the number is the one that was read.
pub fn is_same(number: u128, read: Option<u128>) -> bool
    ensures { result ≡ is_same number read }
{
    match read {
        None => false,
        Some(read) => number == read,
    }
}
