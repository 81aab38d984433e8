// Where reading stops.
ghost use Rattle.std.specs.Prelude.{◌≡◌};
ghost use Rattle.lang_reader.specs.declared.stop.ReadFailed.TheVariants.{NoMemory};

use lang_base::NoMemory;
use std::alloc::{AllocError, AllocFailed};

/// Why reading stops.
#[derive(Clone, Copy, PartialEq, Eq)]
pub enum Cause {
    /// No program goes on so.
    Unexpected,
    /// A string is ill-formed.
    BadString,
    /// Digits are no integer, or a segment isn't from 1 to 32.
    BadNumber,
    /// A pattern is no path.
    BadPattern,
    /// A block or an expression nests too deep.
    TooDeep,
}

/// Why reading stops, and how many tokens are left there, the refused one with them: none at the end.
#[derive(Clone, Copy)]
pub struct Stop {
    pub cause: Cause,
    pub left: u64,
}

/// Why nothing was read.
#[derive(Drop)]
pub enum ReadFailed {
    /// Memory ran out.
    NoMemory,
    /// Reading stopped there.
    At(Stop),
}

impl From<AllocError> for ReadFailed {
    ghost from_gives = { λ _ e. e ≡ NoMemory };

    fn from(_: AllocError) -> ReadFailed {
        ReadFailed::NoMemory
    }
}

impl<T: Drop> From<AllocFailed<T>> for ReadFailed {
    ghost from_gives = { λ _ e. e ≡ NoMemory };

    fn from(_: AllocFailed<T>) -> ReadFailed {
        ReadFailed::NoMemory
    }
}

impl From<NoMemory> for ReadFailed {
    ghost from_gives = { λ _ e. e ≡ NoMemory };

    fn from(_: NoMemory) -> ReadFailed {
        ReadFailed::NoMemory
    }
}
