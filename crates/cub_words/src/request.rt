//! What the words ask for, and what can be wrong with them.

use cub_proto::Budget;
use thiserror::Error;

/// What the words ask for. The files are named as in the words.
#[derive(Clone, Copy, Debug, PartialEq, Eq)]
pub enum Command<'a> {
    /// Search; 1 to 16 workers, a certificate of version 1 or 2.
    Check {
        file: &'a str,
        budget: Budget,
        workers: u8,
        format: u8,
    },
    /// Check a certificate.
    Verify {
        file: &'a str,
        cert: &'a str,
    },
    /// Run a trace.
    Replay {
        file: &'a str,
        trace: &'a str,
    },
    /// The canonical text.
    Print {
        file: &'a str,
    },
    /// Search in the sample protocol with 2 to 63 levels.
    Sample {
        levels: u8,
        budget: Budget,
        workers: u8,
    },
}

/// What is wrong with a word.
#[derive(Clone, Copy, Debug, PartialEq, Eq)]
pub enum WordsKind {
    /// There are no words. The number is 1.
    U1,
    /// The first word is no command.
    U2,
    /// There are too few names. The number is that of the words and one more.
    U3,
    /// One name too many.
    U4,
    /// The word is empty, or begins with a dash and is no option.
    U5,
    /// An option at the end without its value. The number is the option's.
    U6,
    /// A value, or the number of levels, that is no number of 1 to 9 digits in its range. The number is that of the word
    /// with the value.
    U7,
    /// An option that was given before.
    U8,
    /// An option that the command does not have.
    U9,
}

/// The first fault of the words. `word` is the number of the word, counted from 1.
#[derive(Clone, Copy, Debug, PartialEq, Eq, Error)]
#[error("{kind:?} at word {word}")]
pub struct WordsFault {
    pub word: usize,
    pub kind: WordsKind,
}
