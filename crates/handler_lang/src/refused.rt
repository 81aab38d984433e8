// Refusals of programs.
ghost use Rattle.std.specs.Prelude.{◌≡◌};
ghost use Rattle.handler_lang.specs.Numbers.{refusal_number};
ghost use Rattle.handler_lang.specs.declared.refused.ProgramRefused.TheVariants.{NoMemory};

use lang_base::NoMemory;
use std::alloc::{AllocError, AllocFailed};

/// Why a text is refused as a program, and the place of the byte where, counted from 0. Of the refusals that a text
/// could have it is the one at the least byte.
#[derive(Clone, Copy, PartialEq, Eq, Debug)]
pub enum ProgramRefused {
    /// Memory ran out. Nothing is known of the text.
    NoMemory,
    /// At the first byte of a token with which no program goes on, or at the text's end.
    Unexpected(u64),
    /// At the opening `"` of an ill-formed string.
    BadString(u64),
    /// At the first digit of what is no integer, or of the integer of a `path` that isn't from 1 to 32.
    BadNumber(u64),
    /// At the opening `"` of a pattern that is no path.
    BadPattern(u64),
    /// At the `{` of a block or the first byte of an expression that is the 33rd of those open there.
    TooDeep(u64),
    /// The text has more than 65,536 bytes; the place is 65,536.
    TooLong(u64),
}

impl ProgramRefused {
    /// The refusal's number, from 1 to 6; 0 for want of memory.
    pub fn number(self) -> u64
        ensures { result ≡ refusal_number self }
    {
        match self {
            ProgramRefused::NoMemory => 0,
            ProgramRefused::Unexpected(_) => 1,
            ProgramRefused::BadString(_) => 2,
            ProgramRefused::BadNumber(_) => 3,
            ProgramRefused::BadPattern(_) => 4,
            ProgramRefused::TooDeep(_) => 5,
            ProgramRefused::TooLong(_) => 6,
        }
    }
}

impl From<AllocError> for ProgramRefused {
    ghost from_gives = { λ _ e. e ≡ NoMemory };

    fn from(_: AllocError) -> ProgramRefused {
        ProgramRefused::NoMemory
    }
}

impl<T: Drop> From<AllocFailed<T>> for ProgramRefused {
    ghost from_gives = { λ _ e. e ≡ NoMemory };

    fn from(_: AllocFailed<T>) -> ProgramRefused {
        ProgramRefused::NoMemory
    }
}

impl From<NoMemory> for ProgramRefused {
    ghost from_gives = { λ _ e. e ≡ NoMemory };

    fn from(_: NoMemory) -> ProgramRefused {
        ProgramRefused::NoMemory
    }
}
