// Why events of a service are refused. A refused event changes nothing.
ghost use Rattle.std.specs.Prelude.{◌≡◌};
ghost use Rattle.service_events.specs.Refusals.{answer_refusal, answer_refused, arrive_refusal, call_refusal, call_word, give_refusal, give_refused, order_refusal, post_refusal, set_refused, take_refusal};

use crate::answers::{PostReply, PostWord};
use lang_core::NoMemory;
use repair_messages::{Refusal, RefusalWord};

/// Why a live request was refused.
#[derive(Clone, Copy, PartialEq, Eq)]
pub enum ArriveRefused {
    /// There was no memory for it.
    NoMemory,
    /// The service has as many entries and flights as it may have, or its journal weighs what it may weigh: this much.
    Full(u64),
    /// It is a call of this number which is in flight, or whose entry never ran.
    NotYet(u64),
    /// It is a call that was deleted with this version.
    Gone(u64),
}

/// Why an answer or a failure went to no flight.
#[derive(Clone, Copy, PartialEq, Eq)]
pub enum CallRefused {
    /// There was no memory for it; the flight waits as before.
    NoMemory,
    /// There is no flight of this number, or it waits for something else.
    NoFlight(u64),
}

/// Why a version of a call wasn't taken.
#[derive(Clone, Copy, PartialEq, Eq)]
pub enum TakeRefused {
    /// There was no memory for it.
    NoMemory,
    /// The journal weighs what it may weigh, or there is no place for a new entry: there is this much.
    Full(u64),
    /// The call, which has this number, is in flight.
    NotYet(u64),
    /// The rule of this number denies it; 0 where no rule matches.
    Denied(u32),
    /// The call's entry, which has this number, is folded.
    TooOld(u64),
}

/// Why a token wasn't taken.
#[derive(Clone, Copy, PartialEq, Eq)]
pub enum AnswerRefused {
    /// There was no memory for it.
    NoMemory,
    /// No call to that service has this number.
    Unknown(u64),
    /// The rule of this number denies it; 0 where no rule matches.
    Denied(u32),
    /// The call of this number is one of a folded entry.
    TooOld(u64),
}

/// Why an answer wasn't given.
#[derive(Clone, Copy, PartialEq, Eq)]
pub enum GiveRefused {
    /// There was no memory for it.
    NoMemory,
    /// The call of this number has no answer of that version.
    Unknown(u64),
}

/// Why what came back of a post wasn't noted.
#[derive(Clone, Copy, PartialEq, Eq)]
pub enum PostRefused {
    /// There was no memory for it.
    NoMemory,
    /// The service never had that post, or the reply is to another one.
    Foreign,
}

/// Why an order was refused.
#[derive(Clone, Copy, PartialEq, Eq)]
pub enum OrderRefused {
    /// There was no memory for it.
    NoMemory,
    /// There is no request of this number.
    NoSuchRequest(u64),
    /// The rule of this number denies it; 0 where no rule matches.
    Denied(u32),
    /// The journal weighs what it may weigh, or there is no place for a new entry: there is this much.
    Full(u64),
    /// The post isn't held, or isn't there.
    NotHeld,
    /// The request of this number comes from a call.
    NotOutside(u64),
    /// The request of this number is folded.
    TooOld(u64),
    /// The request of this number would be folded, and isn't quiet: it is stale, its reply is due, or one of its calls isn't
    /// acknowledged or owes a fetch.
    NotQuiet(u64),
    /// There is no program of this number.
    NoSuchProgram(u64),
}

impl From<NoMemory> for ArriveRefused {
    ghost use Rattle.service_events.specs.declared.refusals.ArriveRefused.{ArriveRefused};

    ghost from_gives = { λ _ why. why ≡ ArriveRefused.NoMemory };

    fn from(_: NoMemory) -> ArriveRefused {
        ArriveRefused::NoMemory
    }
}

impl From<NoMemory> for CallRefused {
    ghost use Rattle.service_events.specs.declared.refusals.CallRefused.{CallRefused};

    ghost from_gives = { λ _ why. why ≡ CallRefused.NoMemory };

    fn from(_: NoMemory) -> CallRefused {
        CallRefused::NoMemory
    }
}

impl From<NoMemory> for TakeRefused {
    ghost use Rattle.service_events.specs.declared.refusals.TakeRefused.{TakeRefused};

    ghost from_gives = { λ _ why. why ≡ TakeRefused.NoMemory };

    fn from(_: NoMemory) -> TakeRefused {
        TakeRefused::NoMemory
    }
}

impl From<NoMemory> for AnswerRefused {
    ghost use Rattle.service_events.specs.declared.refusals.AnswerRefused.{AnswerRefused};

    ghost from_gives = { λ _ why. why ≡ AnswerRefused.NoMemory };

    fn from(_: NoMemory) -> AnswerRefused {
        AnswerRefused::NoMemory
    }
}

impl From<NoMemory> for GiveRefused {
    ghost use Rattle.service_events.specs.declared.refusals.GiveRefused.{GiveRefused};

    ghost from_gives = { λ _ why. why ≡ GiveRefused.NoMemory };

    fn from(_: NoMemory) -> GiveRefused {
        GiveRefused::NoMemory
    }
}

impl From<NoMemory> for PostRefused {
    ghost use Rattle.service_events.specs.declared.refusals.PostRefused.{PostRefused};

    ghost from_gives = { λ _ why. why ≡ PostRefused.NoMemory };

    fn from(_: NoMemory) -> PostRefused {
        PostRefused::NoMemory
    }
}

impl From<NoMemory> for OrderRefused {
    ghost use Rattle.service_events.specs.declared.refusals.OrderRefused.{OrderRefused};

    ghost from_gives = { λ _ why. why ≡ OrderRefused.NoMemory };

    fn from(_: NoMemory) -> OrderRefused {
        OrderRefused::NoMemory
    }
}

fn refusal(word: RefusalWord, number: u64) -> Refusal
    ensures { result ≡ record { word = word; number = number } }
{
    Refusal { word, number }
}

fn refused_post(word: PostWord, number: u64) -> PostReply
    ensures { result ≡ PostReply.Refused word number }
{
    PostReply::Refused { word, number }
}

impl ArriveRefused {
    /// In a word, with what it carries.
    pub fn refusal(self) -> Refusal
        ensures { result ≡ arrive_refusal self }
    {
        match self {
            ArriveRefused::NoMemory => refusal(RefusalWord::NoMemory, 0),
            ArriveRefused::Full(count) => refusal(RefusalWord::Full, count),
            ArriveRefused::NotYet(number) => refusal(RefusalWord::NotYet, number),
            ArriveRefused::Gone(version) => refusal(RefusalWord::Gone, version),
        }
    }

    /// The number under which the caller keeps why its call was refused: the place of the refusal among these, from 1.
    pub fn call_word(self) -> u16
        ensures { result ≡ call_word self }
    {
        match self {
            ArriveRefused::NoMemory => 1,
            ArriveRefused::Full(_) => 2,
            ArriveRefused::NotYet(_) => 3,
            ArriveRefused::Gone(_) => 4,
        }
    }
}

impl CallRefused {
    /// In a word, with what it carries.
    pub fn refusal(self) -> Refusal
        ensures { result ≡ call_refusal self }
    {
        match self {
            CallRefused::NoMemory => refusal(RefusalWord::NoMemory, 0),
            CallRefused::NoFlight(flight) => refusal(RefusalWord::NoFlight, flight),
        }
    }
}

impl TakeRefused {
    /// In a word, with what it carries.
    pub fn refusal(self) -> Refusal
        ensures { result ≡ take_refusal self }
    {
        match self {
            TakeRefused::NoMemory => refusal(RefusalWord::NoMemory, 0),
            TakeRefused::Full(count) => refusal(RefusalWord::Full, count),
            TakeRefused::NotYet(number) => refusal(RefusalWord::NotYet, number),
            TakeRefused::Denied(rule) => refusal(RefusalWord::Denied, u64::from(rule)),
            TakeRefused::TooOld(id) => refusal(RefusalWord::TooOld, id),
        }
    }

    /// What comes back of the post that brought the version.
    pub fn post_reply(self) -> PostReply
        ensures { result ≡ set_refused self }
    {
        match self {
            TakeRefused::NoMemory => refused_post(PostWord::NoMemory, 0),
            TakeRefused::Full(count) => refused_post(PostWord::Full, count),
            TakeRefused::NotYet(number) => refused_post(PostWord::NotYet, number),
            TakeRefused::Denied(rule) => refused_post(PostWord::Denied, u64::from(rule)),
            TakeRefused::TooOld(id) => refused_post(PostWord::TooOld, id),
        }
    }
}

impl AnswerRefused {
    /// In a word, with what it carries.
    pub fn refusal(self) -> Refusal
        ensures { result ≡ answer_refusal self }
    {
        match self {
            AnswerRefused::NoMemory => refusal(RefusalWord::NoMemory, 0),
            AnswerRefused::Unknown(number) => refusal(RefusalWord::Unknown, number),
            AnswerRefused::Denied(rule) => refusal(RefusalWord::Denied, u64::from(rule)),
            AnswerRefused::TooOld(number) => refusal(RefusalWord::TooOld, number),
        }
    }

    /// What comes back of the post that brought the token.
    pub fn post_reply(self) -> PostReply
        ensures { result ≡ answer_refused self }
    {
        match self {
            AnswerRefused::NoMemory => refused_post(PostWord::NoMemory, 0),
            AnswerRefused::Unknown(number) => refused_post(PostWord::Unknown, number),
            AnswerRefused::Denied(rule) => refused_post(PostWord::Denied, u64::from(rule)),
            AnswerRefused::TooOld(number) => refused_post(PostWord::TooOld, number),
        }
    }
}

impl GiveRefused {
    /// In a word, with what it carries.
    pub fn refusal(self) -> Refusal
        ensures { result ≡ give_refusal self }
    {
        match self {
            GiveRefused::NoMemory => refusal(RefusalWord::NoMemory, 0),
            GiveRefused::Unknown(number) => refusal(RefusalWord::Unknown, number),
        }
    }

    /// What comes back of the fetch.
    pub fn post_reply(self) -> PostReply
        ensures { result ≡ give_refused self }
    {
        match self {
            GiveRefused::NoMemory => refused_post(PostWord::NoMemory, 0),
            GiveRefused::Unknown(number) => refused_post(PostWord::Unknown, number),
        }
    }
}

impl PostRefused {
    /// In a word, with what it carries.
    pub fn refusal(self) -> Refusal
        ensures { result ≡ post_refusal self }
    {
        match self {
            PostRefused::NoMemory => refusal(RefusalWord::NoMemory, 0),
            PostRefused::Foreign => refusal(RefusalWord::Foreign, 0),
        }
    }
}

impl OrderRefused {
    /// In a word, with what it carries.
    pub fn refusal(self) -> Refusal
        ensures { result ≡ order_refusal self }
    {
        match self {
            OrderRefused::NoMemory => refusal(RefusalWord::NoMemory, 0),
            OrderRefused::NoSuchRequest(id) => refusal(RefusalWord::NoSuchRequest, id),
            OrderRefused::Denied(rule) => refusal(RefusalWord::Denied, u64::from(rule)),
            OrderRefused::Full(count) => refusal(RefusalWord::Full, count),
            OrderRefused::NotHeld => refusal(RefusalWord::NotHeld, 0),
            OrderRefused::NotOutside(id) => refusal(RefusalWord::NotOutside, id),
            OrderRefused::TooOld(id) => refusal(RefusalWord::TooOld, id),
            OrderRefused::NotQuiet(id) => refusal(RefusalWord::NotQuiet, id),
            OrderRefused::NoSuchProgram(number) => refusal(RefusalWord::NoSuchProgram, number),
        }
    }
}
