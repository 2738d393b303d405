//! Words: which reserved word the bytes are, or the underscore alone, or a name. A chain of comparisons, each of which
//! looks at the length first, so a name of another length costs no reading of bytes.

ghost use Rattle.std.specs.Prelude.{◌≡◌, ◌<◌, ◌≤◌, length, bytes_eq};
ghost use Rattle.std.specs.List.{prefix_len};
ghost use Rattle.cub_base.specs.Name.{is_name_byte};
ghost use Rattle.cub_lexer.specs.Lexeme.{word_kind};

use crate::token::TokenKind;
use cub_base::is_name_byte;

fn is_word(bytes: &[u8], word: &[u8]) -> bool
    ensures { result ≡ bytes_eq bytes.now word.now }
{
    bytes == word
}

#[tactic(auto, unfolding(crate::specs::Lexeme::word_kind))]
pub fn word_kind(bytes: &[u8]) -> TokenKind
    ensures { result ≡ word_kind bytes.now }
{
    if is_word(bytes, b"type") {
        return TokenKind::TypeWord;
    }
    if is_word(bytes, b"var") {
        return TokenKind::VarWord;
    }
    if is_word(bytes, b"array") {
        return TokenKind::ArrayWord;
    }
    if is_word(bytes, b"init") {
        return TokenKind::InitWord;
    }
    if is_word(bytes, b"unsafe") {
        return TokenKind::UnsafeWord;
    }
    if is_word(bytes, b"invariant") {
        return TokenKind::InvariantWord;
    }
    if is_word(bytes, b"transition") {
        return TokenKind::TransitionWord;
    }
    if is_word(bytes, b"requires") {
        return TokenKind::RequiresWord;
    }
    if is_word(bytes, b"forall_other") {
        return TokenKind::ForallOtherWord;
    }
    if is_word(bytes, b"case") {
        return TokenKind::CaseWord;
    }
    if is_word(bytes, b"not") {
        return TokenKind::NotWord;
    }
    if is_word(bytes, b"proc") {
        return TokenKind::ProcWord;
    }
    if is_word(bytes, b"bool") {
        return TokenKind::BoolWord;
    }
    if is_word(bytes, b"int") {
        return TokenKind::IntWord;
    }
    if is_word(bytes, b"_") {
        return TokenKind::Underscore;
    }
    TokenKind::Name
}

/// How many bytes from the front can stand in a word.
pub fn name_bytes(bytes: &[u8]) -> usize
    ensures value { result ≡ prefix_len is_name_byte bytes.now }
    ensures within { result ≤ length bytes.now }
{
    for (at, byte) in bytes.iter().enumerate() {
        if !is_name_byte(*byte) {
            return at;
        }
    }
    bytes.len()
}
