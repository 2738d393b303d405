//! Numbers among the words.

ghost use Rattle.std.specs.Prelude.{◌≡◌, ◌≤◌, IfSome};
ghost use Rattle.std.specs.List.{list_all};
ghost use Rattle.std.specs.Char.{is_ascii_digit};
ghost use Rattle.cub_words.specs.Words.{is_number, number_within};

use cub_lexer::number_value;

fn are_digits(word: &[u8]) -> bool
    ensures { result ≡ list_all is_ascii_digit word.now }
{
    word.iter().all(|byte| byte.is_ascii_digit())
}

fn is_number(word: &[u8]) -> bool
    ensures { result ≡ is_number word.now }
{
    word.len() >= 1 && word.len() <= 9 && are_digits(word)
}

/// The number that the word is in decimal digits, one to nine, where it is within the range; none where it is another word.
/// Leading zeros are allowed.
pub fn number_within(least: u32, greatest: u32, word: &[u8]) -> Option<u32>
    requires { greatest ≤ 1000000000 }
    ensures value { result ≡ number_within least greatest word.now }
    ensures within { IfSome result (λ number. (least ≤ number) × (number ≤ greatest)) }
{
    if !is_number(word) {
        return None;
    }
    match number_value(word) {
        Some(number) if least <= number && number <= greatest => Some(number),
        _ => None,
    }
}
