//! The codes of faults as they are written.

ghost use Rattle.std.specs.Prelude.{◌≡◌};
ghost use Rattle.answer_lines.specs.Codes.{words_code, lexical_code, grammar_code, typing_code, text_code};

use cub_lexer::LexKind;
use cub_parse::ParseKind;
use cub_types::TypeKind;
use cub_words::WordsKind;
use protocol_text::TextCode;

/// Of words.
pub fn words_code(kind: WordsKind) -> &'static [u8]
    ensures { result.now ≡ words_code kind }
{
    match kind {
        WordsKind::U1 => b"U1",
        WordsKind::U2 => b"U2",
        WordsKind::U3 => b"U3",
        WordsKind::U4 => b"U4",
        WordsKind::U5 => b"U5",
        WordsKind::U6 => b"U6",
        WordsKind::U7 => b"U7",
        WordsKind::U8 => b"U8",
        WordsKind::U9 => b"U9",
    }
}

fn lexical_code(kind: LexKind) -> &'static [u8]
    ensures { result.now ≡ lexical_code kind }
{
    match kind {
        LexKind::L1 => b"L1",
        LexKind::L2 => b"L2",
        LexKind::L3 => b"L3",
        LexKind::L4 => b"L4",
    }
}

fn grammar_code(kind: ParseKind) -> &'static [u8]
    ensures { result.now ≡ grammar_code kind }
{
    match kind {
        ParseKind::P1 => b"P1",
        ParseKind::P2 => b"P2",
    }
}

fn typing_code(kind: TypeKind) -> &'static [u8]
    ensures { result.now ≡ typing_code kind }
{
    match kind {
        TypeKind::T01 => b"T01",
        TypeKind::T02 => b"T02",
        TypeKind::T03 => b"T03",
        TypeKind::T04 => b"T04",
        TypeKind::T05 => b"T05",
        TypeKind::T06 => b"T06",
        TypeKind::T07 => b"T07",
        TypeKind::T08 => b"T08",
        TypeKind::T09 => b"T09",
        TypeKind::T10 => b"T10",
        TypeKind::T11 => b"T11",
        TypeKind::T12 => b"T12",
        TypeKind::T13 => b"T13",
        TypeKind::T14 => b"T14",
        TypeKind::T15 => b"T15",
        TypeKind::T16 => b"T16",
        TypeKind::T17 => b"T17",
        TypeKind::T18 => b"T18",
        TypeKind::T19 => b"T19",
        TypeKind::T20 => b"T20",
    }
}

/// Of a protocol's text.
pub fn text_code(code: TextCode) -> &'static [u8]
    ensures { result.now ≡ text_code code }
{
    match code {
        TextCode::Lexical(kind) => lexical_code(kind),
        TextCode::Grammar(kind) => grammar_code(kind),
        TextCode::Typing(kind) => typing_code(kind),
    }
}
