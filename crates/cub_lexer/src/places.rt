//! Lines and columns, and the bytes of a token.

ghost use Rattle.std.specs.Prelude.{◌≡◌, ◌+◌, ◌^◌, ◌<◌, ◌≤◌, length};
ghost use Rattle.cub_lexer.specs.Place.{line_at, column_at};
ghost use Rattle.cub_lexer.specs.Spans.{text_of};

use crate::token::Token;

/// The line and the column, both from 1 on, of the place behind the first `at` bytes.
pub fn place(text: &[u8], at: u32) -> (u32, u32)
    requires within { at ≤ length text.now }
    requires room { length text.now + 1 < 2 ^ 32 }
    ensures line { result.0 ≡ line_at text.now at }
    ensures column { result.1 ≡ column_at text.now at }
{
    let mut line: u32 = 1;
    let mut column: u32 = 1;
    for byte in &text[..at as usize] {
        if *byte == b'\n' {
            line += 1;
            column = 1;
        } else {
            column += 1;
        }
    }
    (line, column)
}

/// The bytes of a token of the text. Where the token is none of this text, what there is at its place.
pub fn token_text(text: &[u8], token: Token) -> &[u8]
    ensures { result.now ≡ text_of text.now token }
{
    let at = text.len().min(token.at as usize);
    let (_, rest) = text.split_at(at);
    let len = rest.len().min(token.len as usize);
    let (front, _) = rest.split_at(len);
    front
}
