// What goes between a caller and the service that it calls.
use crate::pairs::copied_pair;
use lang_core::{Copied, Name, NoMemory, Request, Response, Same, Text};
use std::alloc::Global;

/// A version of a call, from its caller to the service that it calls. A live call is one of version 1 that names no
/// neighbours.
#[derive(Drop)]
pub struct SetMessage {
    /// The service that makes the call.
    pub caller: Name,
    /// The service that is called.
    pub dest: Name,
    /// The caller's number for the call, from 1.
    pub number: u64,
    /// Which version of the call this is, from 1.
    pub version: u64,
    /// What the call asks from this version on; None where it is to have no effect, for good.
    pub desired: Option<Request>,
    /// The caller's next wanted call to the same service, by its number, where this one is posted as new.
    pub before: Option<u64>,
    /// The caller's previous wanted call to the same service, by its number, where this one is posted as new.
    pub after: Option<u64>,
    /// For whom it is sent, from 1 to 64 visible characters.
    pub who: Text,
}

/// An answer to a call, from the service that was called to its caller: live, or fetched.
#[derive(Drop)]
pub struct AnswerMessage {
    /// The service that made the call.
    pub caller: Name,
    /// The service that was called.
    pub callee: Name,
    /// The number of the callee's entry, from 1.
    pub id: u64,
    /// The caller's number for the call, from 1.
    pub number: u64,
    /// Which answer of that entry this is, from 1.
    pub answer_version: u64,
    /// The version of the call that it answers, from 1.
    pub version: u64,
    /// What is answered.
    pub response: Response,
    /// The callee's name, whoever had it announced.
    pub who: Text,
}

/// Announces that a call has another answer, from the service that was called to its caller, who fetches it.
#[derive(Drop)]
pub struct TokenMessage {
    /// The service that made the call.
    pub caller: Name,
    /// The service that was called.
    pub callee: Name,
    /// The number of the callee's entry, from 1.
    pub id: u64,
    /// The caller's number for the call, from 1.
    pub number: u64,
    /// Which answer of that entry is announced, from 1.
    pub answer_version: u64,
    /// For whom it is sent, from 1 to 64 visible characters.
    pub who: Text,
}

/// Asks for an answer that was announced, from the caller to the service that was called.
#[derive(Drop)]
pub struct Fetch {
    /// The service that made the call.
    pub caller: Name,
    /// The service that was called.
    pub callee: Name,
    /// The caller's number for the call, from 1.
    pub number: u64,
    /// Which answer is asked for, from 1.
    pub answer_version: u64,
}

/// Says that a version of a call was taken, or one above it before.
pub struct Ack {
    /// The service that makes the call.
    pub caller: Name,
    /// The service that is called.
    pub dest: Name,
    /// The caller's number for the call, from 1.
    pub number: u64,
    /// The version of the message that this acknowledges.
    pub version: u64,
}

impl Drop for Ack {
    fn drop(self) {
        let Self {
            caller: _,
            dest: _,
            number: _,
            version: _,
        } = self;
    }
}

/// Says that a token was noted, or that it told nothing new.
#[derive(Drop)]
pub struct Confirm {
    /// The service that made the call.
    pub caller: Name,
    /// The service that was called.
    pub callee: Name,
    /// The caller's number for the call, from 1.
    pub number: u64,
    /// The version of the answer that was announced.
    pub answer_version: u64,
}

impl Copied for SetMessage {
    fn copied(&self, alloc: Global) -> Result<SetMessage, NoMemory> {
        let (caller, dest) = copied_pair(alloc, &self.caller, &self.dest)?;
        let (desired, who) = copied_pair(alloc, &self.desired, &self.who)?;
        Ok(SetMessage {
            caller,
            dest,
            number: self.number,
            version: self.version,
            desired,
            before: self.before,
            after: self.after,
            who,
        })
    }
}

impl Copied for AnswerMessage {
    fn copied(&self, alloc: Global) -> Result<AnswerMessage, NoMemory> {
        let (caller, callee) = copied_pair(alloc, &self.caller, &self.callee)?;
        let (response, who) = copied_pair(alloc, &self.response, &self.who)?;
        Ok(AnswerMessage {
            caller,
            callee,
            id: self.id,
            number: self.number,
            answer_version: self.answer_version,
            version: self.version,
            response,
            who,
        })
    }
}

impl Copied for TokenMessage {
    fn copied(&self, alloc: Global) -> Result<TokenMessage, NoMemory> {
        let (caller, callee) = copied_pair(alloc, &self.caller, &self.callee)?;
        let who = self.who.copied(alloc)?;
        Ok(TokenMessage {
            caller,
            callee,
            id: self.id,
            number: self.number,
            answer_version: self.answer_version,
            who,
        })
    }
}

impl Copied for Fetch {
    fn copied(&self, alloc: Global) -> Result<Fetch, NoMemory> {
        let (caller, callee) = copied_pair(alloc, &self.caller, &self.callee)?;
        Ok(Fetch {
            caller,
            callee,
            number: self.number,
            answer_version: self.answer_version,
        })
    }
}

impl Copied for Ack {
    fn copied(&self, alloc: Global) -> Result<Ack, NoMemory> {
        let (caller, dest) = copied_pair(alloc, &self.caller, &self.dest)?;
        Ok(Ack {
            caller,
            dest,
            number: self.number,
            version: self.version,
        })
    }
}

impl Copied for Confirm {
    fn copied(&self, alloc: Global) -> Result<Confirm, NoMemory> {
        let (caller, callee) = copied_pair(alloc, &self.caller, &self.callee)?;
        Ok(Confirm {
            caller,
            callee,
            number: self.number,
            answer_version: self.answer_version,
        })
    }
}

impl Same for SetMessage {
    fn is(&self, other: &SetMessage) -> bool {
        self.caller.is(&other.caller)
            && self.dest.is(&other.dest)
            && self.number == other.number
            && self.version == other.version
            && self.desired.is(&other.desired)
            && self.before.is(&other.before)
            && self.after.is(&other.after)
            && self.who.is(&other.who)
    }
}

impl Same for AnswerMessage {
    fn is(&self, other: &AnswerMessage) -> bool {
        self.caller.is(&other.caller)
            && self.callee.is(&other.callee)
            && self.id == other.id
            && self.number == other.number
            && self.answer_version == other.answer_version
            && self.version == other.version
            && self.response.is(&other.response)
            && self.who.is(&other.who)
    }
}

impl Same for TokenMessage {
    fn is(&self, other: &TokenMessage) -> bool {
        self.caller.is(&other.caller)
            && self.callee.is(&other.callee)
            && self.id == other.id
            && self.number == other.number
            && self.answer_version == other.answer_version
            && self.who.is(&other.who)
    }
}

impl Same for Fetch {
    fn is(&self, other: &Fetch) -> bool {
        self.caller.is(&other.caller)
            && self.callee.is(&other.callee)
            && self.number == other.number
            && self.answer_version == other.answer_version
    }
}

impl Same for Ack {
    fn is(&self, other: &Ack) -> bool {
        self.caller.is(&other.caller)
            && self.dest.is(&other.dest)
            && self.number == other.number
            && self.version == other.version
    }
}

impl Same for Confirm {
    fn is(&self, other: &Confirm) -> bool {
        self.caller.is(&other.caller)
            && self.callee.is(&other.callee)
            && self.number == other.number
            && self.answer_version == other.answer_version
    }
}
