//! Numbers: the value of a run of digits, or that it is above the limit. The loop stops at the first digit with which
//! the limit is passed, since no further digit makes the number smaller; so the value never leaves a machine word.

ghost use Rattle.std.specs.Prelude.{◌≡◌, ◌<◌, ◌≤◌, length, IfSome, IfNone};
ghost use Rattle.std.specs.List.{prefix_len};
ghost use Rattle.std.specs.Char.{is_ascii_digit};
ghost use Rattle.cub_lexer.specs.Number.{value_of};

/// No number of a text is greater.
pub const NUMBER_LIMIT: u32 = 1_000_000_000;

/// The number that the digits spell, leading zeros allowed, if it is within the limit.
pub fn number_value(digits: &[u8]) -> Option<u32>
    ensures found { IfSome result (λ value. (value ≡ value_of digits.now) × (value ≤ 1000000000)) }
    ensures none { IfNone result (1000000000 < value_of digits.now) }
{
    let mut value: u64 = 0;
    for digit in digits {
        value = 10 * value + u64::from(digit.saturating_sub(b'0'));
        if value > u64::from(NUMBER_LIMIT) {
            return None;
        }
    }
    Some(value as u32)
}

/// How many digits stand at the front.
pub fn digit_bytes(bytes: &[u8]) -> usize
    ensures value { result ≡ prefix_len is_ascii_digit bytes.now }
    ensures within { result ≤ length bytes.now }
{
    for (at, byte) in bytes.iter().enumerate() {
        if !byte.is_ascii_digit() {
            return at;
        }
    }
    bytes.len()
}
