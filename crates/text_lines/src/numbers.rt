//! Numbers, each with one spelling: read by std, written again by `itoa`, and compared.

ghost use Rattle.std.specs.Prelude.{◌≡◌};
ghost use Rattle.text_lines.specs.Number.{natural_of, negative, positive, integer_of, counted};

use itoa::Buffer;
use std::str;

/// The number that the bytes spell, if they spell one.
pub fn natural(bytes: &[u8]) -> Option<u64>
    ensures { result ≡ natural_of bytes.now }
{
    let Ok(text) = str::from_utf8(bytes) else {
        return None;
    };
    let Ok(number) = text.parse::<u64>() else {
        return None;
    };
    if Buffer::new().format(number).as_bytes() == bytes {
        Some(number)
    } else {
        None
    }
}

const LIMIT: u64 = 9_223_372_036_854_775_808;

fn negative(number: u64) -> Option<i64>
    ensures { result ≡ negative number }
{
    if 0 < number && number < LIMIT {
        Some(-(number as i64))
    } else {
        None
    }
}

fn positive(number: u64) -> Option<i64>
    ensures { result ≡ positive number }
{
    if number < LIMIT {
        Some(number as i64)
    } else {
        None
    }
}

/// The integer below 2^63 in size that the bytes spell, if they spell one.
pub fn integer(bytes: &[u8]) -> Option<i64>
    ensures { result ≡ integer_of bytes.now }
{
    match bytes {
        [] => None,
        [first, rest @ ..] => {
            if *first == b'-' {
                negative(natural(rest)?)
            } else {
                positive(natural(bytes)?)
            }
        }
    }
}

/// What is written as a number counted from 1, counted from 0. It is 0 where no number is written, and no greater than a
/// `u32` holds; whoever writes it again sees whether it was so.
pub fn counted(bytes: &[u8]) -> u32
    ensures { result ≡ counted bytes.now }
{
    let number = natural(bytes).unwrap_or(0);
    number.saturating_sub(1).min(4_294_967_295) as u32
}
