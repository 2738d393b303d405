//! Signs of one and of two bytes.

ghost use Rattle.std.specs.Prelude.{◌≡◌};
ghost use Rattle.cub_lexer.specs.Lexeme.{one_byte, two_bytes};

use crate::token::TokenKind;

#[tactic(auto, unfolding(crate::specs::Lexeme::one_byte))]
pub fn one_byte(byte: u8) -> Option<TokenKind>
    ensures { result ≡ one_byte byte }
{
    match byte {
        b'{' => Some(TokenKind::BraceOpen),
        b'}' => Some(TokenKind::BraceClose),
        b'(' => Some(TokenKind::ParenOpen),
        b')' => Some(TokenKind::ParenClose),
        b'[' => Some(TokenKind::BracketOpen),
        b']' => Some(TokenKind::BracketClose),
        b'|' => Some(TokenKind::Bar),
        b':' => Some(TokenKind::Colon),
        b';' => Some(TokenKind::Semicolon),
        b'.' => Some(TokenKind::Dot),
        b',' => Some(TokenKind::Comma),
        b'=' => Some(TokenKind::Equal),
        b'<' => Some(TokenKind::Less),
        b'>' => Some(TokenKind::Greater),
        b'+' => Some(TokenKind::Plus),
        b'-' => Some(TokenKind::Minus),
        b'*' => Some(TokenKind::Star),
        b'?' => Some(TokenKind::Question),
        _ => None,
    }
}

#[tactic(auto, unfolding(crate::specs::Lexeme::two_bytes))]
pub fn two_bytes(byte: u8, next: u8) -> Option<TokenKind>
    ensures { result ≡ two_bytes byte next }
{
    match (byte, next) {
        (b':', b'=') => Some(TokenKind::Assign),
        (b'<', b'>') => Some(TokenKind::NotEqual),
        (b'<', b'=') => Some(TokenKind::LessOrEqual),
        (b'>', b'=') => Some(TokenKind::GreaterOrEqual),
        (b'&', b'&') => Some(TokenKind::And),
        (b'|', b'|') => Some(TokenKind::Or),
        _ => None,
    }
}
