//! The first fault of a text: a code of the lexer, the parser or the typing, and the place where it stands.

use cub_lexer::LexKind;
use cub_parse::ParseKind;
use cub_types::TypeKind;
use thiserror::Error;

/// What is wrong.
#[derive(Clone, Copy, Debug, PartialEq, Eq)]
pub enum TextCode {
    Lexical(LexKind),
    Grammar(ParseKind),
    Typing(TypeKind),
}

/// The first fault of a text, or want of memory.
#[derive(Clone, Copy, Debug, PartialEq, Eq, Error)]
pub enum TextFault {
    /// Lines count from 1, columns from 1 by bytes.
    #[error("{code:?} at {line}:{column}")]
    Fault {
        code: TextCode,
        line: u32,
        column: u32,
    },
    #[error("out of memory")]
    Memory,
}
