// Rows on entries, and on what other services call for.
ghost use Rattle.std.specs.Prelude.{◌≡◌, ◌↔◌, IsTrue};

use lang_base::both;
use lang_core::{Copied, Inputs, Name, NoMemory, Origin, Request, Response, Same, Shared, Text};
use repair_messages::copied_pair;
use std::alloc::Global;

/// An entry was made.
pub struct AskedRow {
    /// The entry's number: 1, 2, 3 and so on.
    pub id: u64,
    pub origin: Origin,
    /// What was asked first, and what its runs draw from outside, both of which the entry holds too.
    pub request: Shared<Request>,
    pub inputs: Shared<Inputs>,
    /// The program under which it came, by its number.
    pub program: u64,
}

impl Drop for AskedRow {
    fn drop(self) {
        let Self {
            id: _,
            origin: _,
            request: _,
            inputs: _,
            program: _,
        } = self;
    }
}

/// How a version of a caller's call was taken.
#[derive(Clone, Copy, PartialEq, Eq)]
pub enum TookHow {
    /// As a live call.
    Live,
    /// By a message that repairs.
    Message,
}

/// A version of a caller's call was taken, live with the commit of its entry or by a message.
pub struct TookRow {
    pub caller: Name,
    /// The caller's number for the call.
    pub number: u64,
    pub version: u64,
    /// What the call asks from this version on; None where it is to have no effect.
    pub desired: Option<Shared<Request>>,
    pub how: TookHow,
    /// For whom the message was sent.
    pub who: Text,
    /// The number of the rule that allowed it, from 1; 0 where it was live.
    pub rule: u32,
}

impl Drop for TookRow {
    fn drop(self) {
        let Self {
            caller: _,
            number: _,
            version: _,
            desired: _,
            how: _,
            who: _,
            rule: _,
        } = self;
    }
}

/// A message with a version of a caller's call was acknowledged.
pub struct AckedRow {
    pub caller: Name,
    /// The caller's number for the call.
    pub number: u64,
    pub version: u64,
}

impl Drop for AckedRow {
    fn drop(self) {
        let Self {
            caller: _,
            number: _,
            version: _,
        } = self;
    }
}

/// An entry has an answer that it didn't have before.
pub struct AnsweredRow {
    /// The entry's number.
    pub id: u64,
    pub origin: Origin,
    /// Which answer of the entry this is: 1, 2, 3 and so on.
    pub answer_version: u64,
    /// The version of the call that it answers; 0 where the entry comes from outside.
    pub version: u64,
    pub response: Response,
    /// Whether it was given to a live request, and not made by a repair step.
    pub live: bool,
}

impl Drop for AnsweredRow {
    fn drop(self) {
        let Self {
            id: _,
            origin: _,
            answer_version: _,
            version: _,
            response: _,
            live: _,
        } = self;
    }
}

/// A caller confirmed an answer.
pub struct WasConfirmedRow {
    pub caller: Name,
    /// The caller's number for the call.
    pub number: u64,
    pub answer_version: u64,
}

impl Drop for WasConfirmedRow {
    fn drop(self) {
        let Self {
            caller: _,
            number: _,
            answer_version: _,
        } = self;
    }
}

impl Copied for AskedRow {
    fn copied(&self, alloc: Global) -> Result<AskedRow, NoMemory> {
        let asked = both(self.request.copied(alloc), self.inputs.copied(alloc));
        let (origin, asked) = both(self.origin.copied(alloc), asked)?;
        Ok(AskedRow {
            id: self.id,
            origin,
            request: asked.0,
            inputs: asked.1,
            program: self.program,
        })
    }
}

impl Copied for TookRow {
    fn copied(&self, alloc: Global) -> Result<TookRow, NoMemory> {
        let (caller, who) = copied_pair(alloc, &self.caller, &self.who)?;
        let desired = Copied::copied(&self.desired, alloc)?;
        Ok(TookRow {
            caller,
            number: self.number,
            version: self.version,
            desired,
            how: self.how,
            who,
            rule: self.rule,
        })
    }
}

impl Copied for AckedRow {
    fn copied(&self, alloc: Global) -> Result<AckedRow, NoMemory> {
        Ok(AckedRow {
            caller: self.caller.copied(alloc)?,
            number: self.number,
            version: self.version,
        })
    }
}

impl Copied for AnsweredRow {
    fn copied(&self, alloc: Global) -> Result<AnsweredRow, NoMemory> {
        let (origin, response) = copied_pair(alloc, &self.origin, &self.response)?;
        Ok(AnsweredRow {
            id: self.id,
            origin,
            answer_version: self.answer_version,
            version: self.version,
            response,
            live: self.live,
        })
    }
}

impl Copied for WasConfirmedRow {
    fn copied(&self, alloc: Global) -> Result<WasConfirmedRow, NoMemory> {
        Ok(WasConfirmedRow {
            caller: self.caller.copied(alloc)?,
            number: self.number,
            answer_version: self.answer_version,
        })
    }
}

fn same_inputs(left: &Inputs, right: &Inputs) -> bool
    ensures { IsTrue result ↔ (left.now ≡ right.now) }
{
    *left == *right
}

impl Same for AskedRow {
    fn is(&self, other: &AskedRow) -> bool {
        self.id == other.id
            && self.origin.is(&other.origin)
            && self.request.is(&other.request)
            && same_inputs(self.inputs.get(), other.inputs.get())
            && self.program == other.program
    }
}

impl Same for TookRow {
    fn is(&self, other: &TookRow) -> bool {
        self.caller.is(&other.caller)
            && self.number == other.number
            && self.version == other.version
            && self.desired.is(&other.desired)
            && self.how == other.how
            && self.who.is(&other.who)
            && self.rule == other.rule
    }
}

impl Same for AckedRow {
    fn is(&self, other: &AckedRow) -> bool {
        self.caller.is(&other.caller)
            && self.number == other.number
            && self.version == other.version
    }
}

impl Same for AnsweredRow {
    fn is(&self, other: &AnsweredRow) -> bool {
        self.id == other.id
            && self.origin.is(&other.origin)
            && self.answer_version == other.answer_version
            && self.version == other.version
            && self.response.is(&other.response)
            && self.live == other.live
    }
}

impl Same for WasConfirmedRow {
    fn is(&self, other: &WasConfirmedRow) -> bool {
        self.caller.is(&other.caller)
            && self.number == other.number
            && self.answer_version == other.answer_version
    }
}
