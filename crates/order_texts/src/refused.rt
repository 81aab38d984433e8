// Why a text is none that an order can come with.
ghost use Rattle.std.specs.Prelude.{◌≡◌};
ghost use Rattle.authorise_rules.specs.Refusals.{line_refused};
ghost use Rattle.order_texts.specs.Texts.{place_refused};

use authorise_rules::RulesRefused;
use handler_lang::ProgramRefused;

/// Why no order is made of a text.
#[derive(Clone, Copy, PartialEq, Eq)]
pub enum TextFault {
    /// It is no program: the byte at which it is none, counted from 0.
    Program(u64),
    /// It is no rules: the first line that is none, counted from 1.
    Rules(u64),
}

/// The byte of a text at which it is refused as a program, counted from 0; 0 for want of memory.
pub fn place_refused(refused: ProgramRefused) -> u64
    ensures { result ≡ place_refused refused }
{
    match refused {
        ProgramRefused::NoMemory => 0,
        ProgramRefused::Unexpected(at)
        | ProgramRefused::BadString(at)
        | ProgramRefused::BadNumber(at)
        | ProgramRefused::BadPattern(at)
        | ProgramRefused::TooDeep(at)
        | ProgramRefused::TooLong(at) => at,
    }
}

/// The line of a text at which it is refused as rules, counted from 1; 0 for want of memory.
pub fn line_refused(refused: RulesRefused) -> u64
    ensures { result ≡ line_refused refused }
{
    match refused {
        RulesRefused::NoMemory => 0,
        RulesRefused::BadVerb(line)
        | RulesRefused::BadKind(line)
        | RulesRefused::BadField(line)
        | RulesRefused::TooMany(line) => line,
    }
}
