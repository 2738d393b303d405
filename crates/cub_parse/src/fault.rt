//! Why a text has no tree.

ghost use Rattle.std.specs.Prelude.{◌≡◌};

use std::alloc::{AllocError, AllocFailed};
use thiserror::Error;

/// What is wrong at a token.
#[derive(Clone, Copy, Debug, PartialEq, Eq)]
pub enum ParseKind {
    /// The tokens before this one begin a sentence, and with it they do not. The end counts as a token.
    P1,
    /// This token opens the 65th level.
    P2,
}

/// The first fault of a text, or want of memory.
#[derive(Clone, Copy, Debug, PartialEq, Eq, Error)]
pub enum ParseFault {
    /// `token` is the number of the token, counted from 0; the end has the number of tokens.
    #[error("{kind:?} at token {token}")]
    Fault { token: u32, kind: ParseKind },
    #[error("out of memory")]
    Memory,
}

/// Where a reader stops: a fault with the number of tokens left there, or want of memory.
#[derive(Clone, Copy, Debug)]
pub enum Stop {
    At(ParseKind, usize),
    Memory,
}

impl From<AllocError> for Stop {
    ghost use Rattle.cub_parse.specs.declared.fault.Stop.TheVariants.{Memory};

    ghost from_gives = { λ _ e. e ≡ Memory };

    fn from(_error: AllocError) -> Stop {
        Stop::Memory
    }
}

impl<T: Drop> From<AllocFailed<T>> for Stop {
    ghost use Rattle.cub_parse.specs.declared.fault.Stop.TheVariants.{Memory};

    ghost from_gives = { λ _ e. e ≡ Memory };

    fn from(_error: AllocFailed<T>) -> Stop {
        Stop::Memory
    }
}
