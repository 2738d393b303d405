//! Laws of printed texts, each the contract of a function that does nothing.

ghost use Rattle.cub_print.specs.Tokens.{MarksAreRead};

/// The lexer reads the bytes of marks that stand apart as their words.
pub fn marks_are_read()
    ensures { MarksAreRead }
{}
