// The words with which a service refuses: the one place where each is spelled, with its status and whether it has a number.
ghost use Rattle.std.specs.Prelude.{◌≡◌, find};
ghost use Rattle.std.specs.Option.{option_copied};
ghost use Rattle.repair_messages.specs.Refusals.{has_number, is_spelled, word_said, word_status, word_text};

/// Why a service refuses, in one word.
#[derive(Clone, Copy, PartialEq, Eq)]
pub enum RefusalWord {
    /// There was no memory for it.
    NoMemory,
    /// There is as much as there may be: this much.
    Full,
    /// A call of this number is in flight, or its entry never ran.
    NotYet,
    /// A call was deleted with this version.
    Gone,
    /// There is no flight of this number, or it waits for something else.
    NoFlight,
    /// The rule of this number denies it; 0 where no rule matches.
    Denied,
    /// No call has this number, or it has no such answer.
    Unknown,
    /// The service never had that post.
    Foreign,
    /// There is no request of this number.
    NoSuchRequest,
    /// The post isn't held, or isn't there.
    NotHeld,
    /// The request of this number comes from a call.
    NotOutside,
    /// The entry of this number is folded, or a call of this number is a folded entry's.
    TooOld,
    /// The entry of this number isn't quiet, so that it can't be folded.
    NotQuiet,
    /// There is no program of this number.
    NoSuchProgram,
}

/// A refusal: its word, and what it carries, or 0.
#[derive(Clone, Copy, PartialEq, Eq)]
pub struct Refusal {
    pub word: RefusalWord,
    pub number: u64,
}

/// The words that a reply may say. That a service never had a post, or has no such flight, it tells nobody else.
const SAID: [RefusalWord; 12] = [
    RefusalWord::NoMemory,
    RefusalWord::Full,
    RefusalWord::NotYet,
    RefusalWord::Gone,
    RefusalWord::Denied,
    RefusalWord::Unknown,
    RefusalWord::NoSuchRequest,
    RefusalWord::NotHeld,
    RefusalWord::NotOutside,
    RefusalWord::TooOld,
    RefusalWord::NotQuiet,
    RefusalWord::NoSuchProgram,
];

fn spelled<'a>(words: &'a [RefusalWord], text: &str) -> Option<&'a RefusalWord>
    ensures { option_copied result ≡ find (is_spelled text.now) words.now }
{
    words.iter().find(|word| word.text() == text)
}

impl RefusalWord {
    /// The word that a reply spells so; None where no word that a reply may say is spelled so.
    pub fn said(text: &str) -> Option<RefusalWord>
        ensures { result ≡ word_said text.now }
    {
        spelled(SAID.as_slice(), text).copied()
    }

    /// How it is spelled.
    pub fn text(self) -> &'static str
        ensures { result.now ≡ word_text self }
    {
        match self {
            RefusalWord::NoMemory => "nomemory",
            RefusalWord::Full => "full",
            RefusalWord::NotYet => "notyet",
            RefusalWord::Gone => "gone",
            RefusalWord::NoFlight => "noflight",
            RefusalWord::Denied => "denied",
            RefusalWord::Unknown => "unknown",
            RefusalWord::Foreign => "foreign",
            RefusalWord::NoSuchRequest => "nosuchrequest",
            RefusalWord::NotHeld => "notheld",
            RefusalWord::NotOutside => "notoutside",
            RefusalWord::TooOld => "tooold",
            RefusalWord::NotQuiet => "notquiet",
            RefusalWord::NoSuchProgram => "nosuchprogram",
        }
    }

    /// Whether a number stands behind it.
    pub fn has_number(self) -> bool
        ensures { result ≡ has_number self }
    {
        match self {
            RefusalWord::NoMemory | RefusalWord::Foreign | RefusalWord::NotHeld => false,
            _ => true,
        }
    }

    /// The status of an HTTP reply that refuses so; 500 where no reply does.
    pub fn status(self) -> u16
        ensures { result ≡ word_status self }
    {
        match self {
            RefusalWord::Denied => 403,
            RefusalWord::Unknown | RefusalWord::NoSuchRequest | RefusalWord::NoSuchProgram => 404,
            RefusalWord::NotYet | RefusalWord::NotHeld | RefusalWord::NotOutside => 409,
            RefusalWord::TooOld | RefusalWord::NotQuiet => 409,
            RefusalWord::Gone => 410,
            RefusalWord::NoMemory => 503,
            RefusalWord::Full => 507,
            RefusalWord::NoFlight | RefusalWord::Foreign => 500,
        }
    }
}
