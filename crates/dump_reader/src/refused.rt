// Refusals of dumps.
ghost use Rattle.std.specs.Prelude.{◌≡◌};
ghost use Rattle.dump_reader.specs.Refusals.{line_refused, refusal_number};
ghost use Rattle.dump_reader.specs.declared.refused.DumpRefused.TheVariants.{NoMemory};

use dump_words::ProgramRefused;
use lang_core::NoMemory;
use std::alloc::AllocError;

/// Why a text is refused as a dump, and the first line where, counted from 1. A line is tested in the order of these.
#[derive(Clone, Copy, PartialEq, Eq, Debug)]
pub enum DumpRefused {
    /// Memory ran out. Nothing is known of the text.
    NoMemory,
    /// The line isn't UTF-8.
    Text(u64),
    /// The line isn't of its form, or can't stand behind the lines before it; or the text ends before the last service
    /// does, in the line before.
    Shape(u64),
    /// The line names a service, or in its service an entry, the call that an entry comes from, a call or a row's table and
    /// key, that a line before it names.
    Twice(u64),
    /// The line is a row that belongs before the row before it.
    Rows(u64),
    /// The line is a program that can't be read, and why.
    Program(u64, ProgramRefused),
    /// The text has more than 67,108,864 bytes; whatever they are, this is told.
    TooLong,
}

impl DumpRefused {
    /// The refusal's number, from 1 to 7.
    pub fn number(self) -> u64
        ensures { result ≡ refusal_number self }
    {
        match self {
            DumpRefused::NoMemory => 1,
            DumpRefused::Text(_) => 2,
            DumpRefused::Shape(_) => 3,
            DumpRefused::Twice(_) => 4,
            DumpRefused::Rows(_) => 5,
            DumpRefused::Program(_, _) => 6,
            DumpRefused::TooLong => 7,
        }
    }

    /// The line that it names, from 1; 0 where it names none.
    pub fn line(self) -> u64
        ensures { result ≡ line_refused self }
    {
        match self {
            DumpRefused::NoMemory => 0,
            DumpRefused::Text(line) => line,
            DumpRefused::Shape(line) => line,
            DumpRefused::Twice(line) => line,
            DumpRefused::Rows(line) => line,
            DumpRefused::Program(line, _) => line,
            DumpRefused::TooLong => 0,
        }
    }
}

impl From<AllocError> for DumpRefused {
    ghost from_gives = { λ _ e. e ≡ NoMemory };

    fn from(_: AllocError) -> DumpRefused {
        DumpRefused::NoMemory
    }
}

impl From<NoMemory> for DumpRefused {
    ghost from_gives = { λ _ e. e ≡ NoMemory };

    fn from(_: NoMemory) -> DumpRefused {
        DumpRefused::NoMemory
    }
}

/// The reason alone, without what is refused, which is dropped here so that no caller has to drop it on one of its ways.
pub(crate) fn without<T: Drop, E>(_: T, why: E) -> E
    ensures { result ≡ why }
{
    why
}
