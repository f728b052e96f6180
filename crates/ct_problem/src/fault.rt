// What is wrong with a text.
ghost use Rattle.std.specs.Prelude.{◌≡◌};
ghost use Rattle.ct_problem.specs.declared.fault.ReadFault.TheVariants.{NoMemory};

use std::alloc::{AllocError, AllocFailed};
use thiserror::Error;

/// What a fault is. Where several of the kinds from `TooMany` on fit one token, the first of them is reported.
#[derive(Clone, Copy, Debug, PartialEq, Eq, Error)]
pub enum BadKind {
    /// More than 2^26 bytes.
    #[error("TooLong")]
    TooLong,
    /// A byte with which no token and no gap begins.
    #[error("BadByte")]
    BadByte,
    /// The text ends where a token or a line is expected.
    #[error("Unfinished")]
    Unfinished,
    /// A token that can't stand there.
    #[error("Syntax")]
    Syntax,
    /// A line, or an expression of a `gens` list, past the number of its kind.
    #[error("TooMany")]
    TooMany,
    /// A declared name of more than 32 bytes.
    #[error("NameTooLong")]
    NameTooLong,
    /// A declared name that stands already, or `S` or `D`.
    #[error("DuplicateName")]
    DuplicateName,
    /// A name that was not declared before.
    #[error("UnknownName")]
    UnknownName,
    /// A name, or an operator, of a kind that can't stand there.
    #[error("WrongKind")]
    WrongKind,
    /// A number past 2^127 - 1.
    #[error("NumberTooLarge")]
    NumberTooLarge,
    /// A quotient of numbers whose second is 0.
    #[error("ZeroDenominator")]
    ZeroDenominator,
    /// An exponent past 4095.
    #[error("ExponentTooLarge")]
    ExponentTooLarge,
    /// A parenthesis inside 64 others.
    #[error("TooDeep")]
    TooDeep,
    /// An order past 8 or a degree past 12.
    #[error("OutOfRange")]
    OutOfRange,
    /// A range whose second number is below the first.
    #[error("EmptyRange")]
    EmptyRange,
    /// A problem without a line that the command needs.
    #[error("Missing")]
    Missing,
    /// Something behind the `end` line.
    #[error("TrailingText")]
    TrailingText,
}

/// The first fault of a text: its kind, and the place of the token where it shows.
#[derive(Clone, Copy, Debug, PartialEq, Eq, Error)]
#[error("{kind} at {offset}")]
pub struct BadInput {
    pub kind: BadKind,
    pub offset: usize,
}

/// Why a text is not read.
#[derive(Clone, Copy, Debug, PartialEq, Eq, Error)]
pub enum ReadFault {
    #[error("{0}")]
    Bad(BadInput),
    #[error("out of memory")]
    NoMemory,
}

impl From<AllocError> for ReadFault {
    ghost from_gives = { λ _ e. e ≡ NoMemory };

    fn from(_: AllocError) -> ReadFault {
        ReadFault::NoMemory
    }
}

impl<T: Drop> From<AllocFailed<T>> for ReadFault {
    ghost from_gives = { λ _ e. e ≡ NoMemory };

    fn from(_: AllocFailed<T>) -> ReadFault {
        ReadFault::NoMemory
    }
}
