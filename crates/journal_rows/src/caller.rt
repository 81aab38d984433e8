// Rows on the calls that a service makes.
use lang_core::{Copied, Name, NoMemory, Request, Response, Same, Shared, Text};
use repair_messages::copied_pair;
use std::alloc::Global;

/// How an answer to an own call was seen.
#[derive(Clone, Copy, PartialEq, Eq)]
pub enum SawHow {
    /// In reply to the live call.
    Live,
    /// By a fetch, for it was announced.
    Fetch,
}

/// How an acknowledgement came.
#[derive(Clone, Copy, PartialEq, Eq)]
pub enum AckHow {
    /// With a live answer of this answer version.
    WithAnswer(u64),
    /// In reply to a post.
    ToPost,
}

/// A version of a call was named: it is to be sent.
pub struct SentRow {
    /// The call's number: 1, 2, 3 and so on by first appearance.
    pub number: u64,
    pub dest: Name,
    /// The call's version: 1, 2, 3 and so on.
    pub version: u64,
    /// What the call asks from this version on; None where it is to have no effect, for good.
    pub desired: Option<Shared<Request>>,
}

impl Drop for SentRow {
    fn drop(self) {
        let Self {
            number: _,
            dest: _,
            version: _,
            desired: _,
        } = self;
    }
}

/// A version of a call was seen to be acknowledged.
#[derive(Clone, Copy, PartialEq, Eq)]
pub struct SawAckRow {
    /// The call's number.
    pub number: u64,
    pub version: u64,
    pub how: AckHow,
}

/// A token announced an answer to a call, and was noted.
pub struct NotedRow {
    /// The call's number.
    pub number: u64,
    /// The version of the answer that is announced.
    pub answer_version: u64,
    /// For whom the token was sent.
    pub who: Text,
    /// The number of the rule that allowed it, from 1.
    pub rule: u32,
}

impl Drop for NotedRow {
    fn drop(self) {
        let Self {
            number: _,
            answer_version: _,
            who: _,
            rule: _,
        } = self;
    }
}

/// An answer to a call was seen.
pub struct SawAnswerRow {
    /// The call's number.
    pub number: u64,
    pub answer_version: u64,
    /// The version of the call that it answers.
    pub version: u64,
    pub response: Response,
    pub how: SawHow,
    /// For whom the token that announced it was sent; of a live one the callee's name.
    pub who: Text,
    /// The number of the rule that allowed that token, from 1; 0 where it was live.
    pub rule: u32,
}

impl Drop for SawAnswerRow {
    fn drop(self) {
        let Self {
            number: _,
            answer_version: _,
            version: _,
            response: _,
            how: _,
            who: _,
            rule: _,
        } = self;
    }
}

/// A token that announced an answer to a call was confirmed.
#[derive(Clone, Copy, PartialEq, Eq)]
pub struct ConfirmedRow {
    /// The call's number.
    pub number: u64,
    pub answer_version: u64,
}

impl Copied for SentRow {
    fn copied(&self, alloc: Global) -> Result<SentRow, NoMemory> {
        let (dest, desired) = copied_pair(alloc, &self.dest, &self.desired)?;
        Ok(SentRow {
            number: self.number,
            dest,
            version: self.version,
            desired,
        })
    }
}

impl Copied for NotedRow {
    fn copied(&self, alloc: Global) -> Result<NotedRow, NoMemory> {
        Ok(NotedRow {
            number: self.number,
            answer_version: self.answer_version,
            who: self.who.copied(alloc)?,
            rule: self.rule,
        })
    }
}

impl Copied for SawAnswerRow {
    fn copied(&self, alloc: Global) -> Result<SawAnswerRow, NoMemory> {
        let (response, who) = copied_pair(alloc, &self.response, &self.who)?;
        Ok(SawAnswerRow {
            number: self.number,
            answer_version: self.answer_version,
            version: self.version,
            response,
            how: self.how,
            who,
            rule: self.rule,
        })
    }
}

impl Same for SentRow {
    fn is(&self, other: &SentRow) -> bool {
        self.number == other.number
            && self.dest.is(&other.dest)
            && self.version == other.version
            && self.desired.is(&other.desired)
    }
}

impl Same for NotedRow {
    fn is(&self, other: &NotedRow) -> bool {
        self.number == other.number
            && self.answer_version == other.answer_version
            && self.who.is(&other.who)
            && self.rule == other.rule
    }
}

impl Same for SawAnswerRow {
    fn is(&self, other: &SawAnswerRow) -> bool {
        self.number == other.number
            && self.answer_version == other.answer_version
            && self.version == other.version
            && self.response.is(&other.response)
            && self.how == other.how
            && self.who.is(&other.who)
            && self.rule == other.rule
    }
}
