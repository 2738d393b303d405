//! The tokens of a protocol text, exactly: the tokens, or the first fault with its place.
#![tactic(auto)]

// Tokens and faults.
mod fault;
mod token;

pub use fault::{LexFault, LexKind};
pub use token::{Token, TokenKind};

// Reading a text.
mod comments;
mod lexer;
mod numbers;
mod signs;
mod words;

pub use lexer::{lex, one_reading};
pub use numbers::{NUMBER_LIMIT, number_value};

// What holds of words.
mod laws;

pub use laws::reserved_words_are_no_names;

// What stands where.
mod places;

pub use places::{place, token_text};

#[cfg(test)]
mod tests;
