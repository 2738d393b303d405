//! What a token is: its kind and where it stands. Its text is the slice of the bytes at that place.

/// The kind of a token: one for each reserved word and each sign, and the two that have a text of their own.
#[derive(Clone, Copy, Debug, PartialEq, Eq)]
pub enum TokenKind {
    /// A name that is no reserved word.
    Name,
    /// A run of digits.
    Number,
    /// `type`
    TypeWord,
    /// `var`
    VarWord,
    /// `array`
    ArrayWord,
    /// `init`
    InitWord,
    /// `unsafe`
    UnsafeWord,
    /// `invariant`
    InvariantWord,
    /// `transition`
    TransitionWord,
    /// `requires`
    RequiresWord,
    /// `forall_other`
    ForallOtherWord,
    /// `case`
    CaseWord,
    /// `not`
    NotWord,
    /// `proc`
    ProcWord,
    /// `bool`
    BoolWord,
    /// `int`
    IntWord,
    /// `{`
    BraceOpen,
    /// `}`
    BraceClose,
    /// `(`
    ParenOpen,
    /// `)`
    ParenClose,
    /// `[`
    BracketOpen,
    /// `]`
    BracketClose,
    /// `|`
    Bar,
    /// `:`
    Colon,
    /// `;`
    Semicolon,
    /// `.`
    Dot,
    /// `,`, which no rule of the grammar uses.
    Comma,
    /// `:=`
    Assign,
    /// `=`
    Equal,
    /// `<>`
    NotEqual,
    /// `<`
    Less,
    /// `<=`
    LessOrEqual,
    /// `>`
    Greater,
    /// `>=`
    GreaterOrEqual,
    /// `&&`
    And,
    /// `||`
    Or,
    /// `+`
    Plus,
    /// `-`
    Minus,
    /// `*`
    Star,
    /// `?`
    Question,
    /// `_` alone
    Underscore,
}

/// A token: its kind, the number of bytes before it, and its length in bytes.
#[derive(Clone, Copy, Debug, PartialEq, Eq)]
pub struct Token {
    pub kind: TokenKind,
    pub at: u32,
    pub len: u32,
}
