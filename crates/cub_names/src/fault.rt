//! The faults of typing.

use std::alloc::{AllocError, AllocFailed};
use thiserror::Error;

/// What is wrong at a token.
#[derive(Clone, Copy, Debug, PartialEq, Eq)]
pub enum TypeKind {
    /// A name that is known nowhere.
    T01,
    /// A name declared twice, a process variable with a declared name, or the variable of a `forall_other` with the
    /// name of a parameter.
    T02,
    /// Sorts differ.
    T03,
    /// An array index that is no process variable.
    T04,
    /// A sum with two terms, with a term after `-`, or with a part that is no integer.
    T05,
    /// A product.
    T06,
    /// An order on a sort that is not integer.
    T07,
    /// A process global compared with the variable of `init`.
    T08,
    /// A global or cell updated twice, or an array updated for a variable and once more.
    T09,
    /// `forall_other` elsewhere than allowed.
    T10,
    /// A side alone that is not boolean.
    T11,
    /// An array of processes.
    T12,
    /// A name of another kind stands here.
    T13,
    /// A start formula with more than one conjunction.
    T14,
    /// The constants of one side are above the limit.
    T15,
    /// A limit on a count.
    T16,
    /// A normal form, a condition or a list of branches above its limit.
    T17,
    /// A declared name that begins with `_`.
    T18,
    /// `?` for an integer, or for more processes than a transition may pick.
    T19,
    /// A part that is not built; no text is answered so.
    T20,
}

/// A fault at the token with that number, counted from 0.
#[derive(Clone, Copy, Debug, PartialEq, Eq)]
pub struct Fault {
    pub token: u32,
    pub kind: TypeKind,
}

/// Why a tree is no protocol: its fault, or want of memory.
#[derive(Clone, Copy, Debug, PartialEq, Eq, Error)]
pub enum TypeFault {
    /// `token` is the number of the token, counted from 0.
    #[error("{kind:?} at token {token}")]
    Fault { token: u32, kind: TypeKind },
    #[error("out of memory")]
    Memory,
}

impl From<AllocError> for TypeFault {
    ghost use Rattle.std.specs.Prelude.{◌≡◌};
    ghost use Rattle.cub_names.specs.declared.fault.TypeFault.TheVariants.{Memory};

    ghost from_gives = { λ _ e. e ≡ Memory };

    fn from(_error: AllocError) -> TypeFault {
        TypeFault::Memory
    }
}

impl<T: Drop> From<AllocFailed<T>> for TypeFault {
    ghost use Rattle.std.specs.Prelude.{◌≡◌};
    ghost use Rattle.cub_names.specs.declared.fault.TypeFault.TheVariants.{Memory};

    ghost from_gives = { λ _ e. e ≡ Memory };

    fn from(_error: AllocFailed<T>) -> TypeFault {
        TypeFault::Memory
    }
}
