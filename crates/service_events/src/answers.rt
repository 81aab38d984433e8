// What events of a service answer.
ghost use Rattle.std.specs.Prelude.{◌≡◌};
ghost use Rattle.service_events.specs.Refusals.{refusing_post};

use journal_rows::About;
use lang_core::{Copied, FaultNote, NoMemory};
use repair_messages::{Ack, AnswerMessage, Confirm, RefusalWord, SetMessage};
use std::alloc::Global;

/// What became of a live request.
#[derive(Drop)]
pub enum Arrived {
    /// It was committed as the entry of this number; its answer is the row of this index in the journal, and of a call
    /// also what goes back to its caller.
    Done {
        index: u64,
        id: u64,
        answer: Option<AnswerMessage>,
    },
    /// It is a flight of this number, and this call is to be sent.
    Call {
        flight: u64,
        set: SetMessage,
    },
    /// It is a call that has an entry, whose last answer this is.
    Known(AnswerMessage),
}

/// A version of a call was acknowledged.
#[derive(Drop)]
pub struct Taken {
    pub ack: Ack,
    /// The number of the rule that allowed it; None where it was known, or one above it.
    pub rule: Option<u32>,
}

/// A token was confirmed.
#[derive(Drop)]
pub struct Heard {
    pub confirm: Confirm,
    /// The number of the rule that allowed it; None where it told nothing new.
    pub rule: Option<u32>,
}

/// Why a receiver refused a post.
#[derive(Clone, Copy, PartialEq, Eq)]
pub enum PostWord {
    NoMemory,
    Full,
    NotYet,
    Denied,
    Unknown,
    TooOld,
}

/// What came back of a post.
#[derive(Drop)]
pub enum PostReply {
    /// The version was acknowledged.
    Acked(Ack),
    /// The token was confirmed.
    Confirmed(Confirm),
    /// The answer that was fetched.
    Given(AnswerMessage),
    /// The receiver refused it, with what its refusal carries.
    Refused { word: PostWord, number: u64 },
    /// The exchange failed.
    Lost(FaultNote),
}

/// What became of a post.
#[derive(Clone, Copy, PartialEq, Eq)]
pub enum Posted {
    /// The version was acknowledged.
    Acked,
    /// The token was confirmed.
    Confirmed,
    /// The answer was fetched, and is held.
    Saw,
    /// The answer was fetched, and isn't above the one that is held.
    Knew,
    /// It was refused, and isn't sent again before somebody retries it or it has a new version or answer.
    Held,
    /// It stays to be sent.
    Left,
}

/// What an accepted order is about, and the rule that allowed it.
#[derive(Clone, Copy, PartialEq, Eq)]
pub struct Ordered {
    pub about: About,
    pub rule: u32,
}

impl PostWord {
    /// Which of these a receiver's word is; None where it refuses no post.
    pub fn refusing(word: RefusalWord) -> Option<PostWord>
        ensures { result ≡ refusing_post word }
    {
        match word {
            RefusalWord::NoMemory => Some(PostWord::NoMemory),
            RefusalWord::Full => Some(PostWord::Full),
            RefusalWord::NotYet => Some(PostWord::NotYet),
            RefusalWord::Denied => Some(PostWord::Denied),
            RefusalWord::Unknown => Some(PostWord::Unknown),
            RefusalWord::TooOld => Some(PostWord::TooOld),
            _ => None,
        }
    }
}

impl Copied for Arrived {
    fn copied(&self, alloc: Global) -> Result<Arrived, NoMemory> {
        match self {
            Arrived::Done { index, id, answer } => Ok(Arrived::Done {
                index: *index,
                id: *id,
                answer: Copied::copied(answer, alloc)?,
            }),
            Arrived::Call { flight, set } => Ok(Arrived::Call {
                flight: *flight,
                set: set.copied(alloc)?,
            }),
            Arrived::Known(answer) => Ok(Arrived::Known(answer.copied(alloc)?)),
        }
    }
}

impl Copied for Taken {
    fn copied(&self, alloc: Global) -> Result<Taken, NoMemory> {
        Ok(Taken {
            ack: self.ack.copied(alloc)?,
            rule: self.rule,
        })
    }
}

impl Copied for Heard {
    fn copied(&self, alloc: Global) -> Result<Heard, NoMemory> {
        Ok(Heard {
            confirm: self.confirm.copied(alloc)?,
            rule: self.rule,
        })
    }
}

impl Copied for PostReply {
    fn copied(&self, alloc: Global) -> Result<PostReply, NoMemory> {
        match self {
            PostReply::Acked(ack) => Ok(PostReply::Acked(ack.copied(alloc)?)),
            PostReply::Confirmed(confirm) => Ok(PostReply::Confirmed(confirm.copied(alloc)?)),
            PostReply::Given(answer) => Ok(PostReply::Given(answer.copied(alloc)?)),
            PostReply::Refused { word, number } => Ok(PostReply::Refused {
                word: *word,
                number: *number,
            }),
            PostReply::Lost(fault) => Ok(PostReply::Lost(fault.copied(alloc)?)),
        }
    }
}
