// Refusals of rules.
ghost use Rattle.std.specs.Prelude.{◌≡◌};
ghost use Rattle.authorise_rules.specs.Reading.{refusal_number};
ghost use Rattle.authorise_rules.specs.declared.refused.RulesRefused.TheVariants.{NoMemory};

use lang_core::NoMemory;
use std::alloc::AllocError;

/// Why a text is refused as rules, and the first line where, counted from 1. A line is tested in the order of these:
/// its verb, its kind, then whether it is a rule at all, and last whether it is one too many.
#[derive(Clone, Copy, PartialEq, Eq, Debug)]
pub enum RulesRefused {
    /// Memory ran out. Nothing is known of the text.
    NoMemory,
    /// The line's first part is neither `allow` nor `deny`.
    BadVerb(u64),
    /// The line has a second part, which is neither a kind nor `any`.
    BadKind(u64),
    /// The line hasn't five parts with one space between two, or its third is no sender, its fourth names no users or
    /// its fifth is no path.
    BadField(u64),
    /// The line is the 257th rule.
    TooMany(u64),
}

impl RulesRefused {
    /// The refusal's number, from 1 to 4; 0 for want of memory.
    pub fn number(self) -> u64
        ensures { result ≡ refusal_number self }
    {
        match self {
            RulesRefused::NoMemory => 0,
            RulesRefused::BadVerb(_) => 1,
            RulesRefused::BadKind(_) => 2,
            RulesRefused::BadField(_) => 3,
            RulesRefused::TooMany(_) => 4,
        }
    }
}

impl From<AllocError> for RulesRefused {
    ghost from_gives = { λ _ e. e ≡ NoMemory };

    fn from(_: AllocError) -> RulesRefused {
        RulesRefused::NoMemory
    }
}

impl From<NoMemory> for RulesRefused {
    ghost from_gives = { λ _ e. e ≡ NoMemory };

    fn from(_: NoMemory) -> RulesRefused {
        RulesRefused::NoMemory
    }
}
