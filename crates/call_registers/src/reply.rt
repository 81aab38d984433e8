// A reply: what is kept of the answer to one call of another service.
ghost use Rattle.std.specs.Prelude.{◌≡◌};
ghost use Rattle.call_registers.specs.Replies.{with_taken, with_answer, with_confirm, made_due, released, changed};

use crate::register::Hold;
use lang_core::{Copied, Name, NoMemory, Text};
use lang_lists::Numbered;
use repair_messages::copied_pair;
use std::alloc::Global;

/// What is kept of the answer to a call of another service.
#[derive(Drop)]
pub struct Reply {
    /// The number of the call's entry.
    pub id: u64,
    /// The service that made the call.
    pub caller: Name,
    /// The caller's number for the call.
    pub number: u64,
    /// The version of the call that was taken last.
    pub version: u64,
    /// The version of the entry's last answer, from 1; 0 before the first.
    pub answer_version: u64,
    /// Whether the caller wants the call.
    pub wanted: bool,
    /// Whether the answer has to be sent by a message: it is wanted, and the last that was said of it is neither that it
    /// went to a live request nor that this very answer was confirmed.
    pub due: bool,
    /// Why its post isn't sent, if it was refused.
    pub held: Option<Hold>,
    /// For whom its post is sent: the service's own name at first.
    pub repair_who: Text,
    /// The index in the journal of what was last said of it.
    pub since: u64,
}

impl Numbered for Reply {
    ghost number = { λ p. p.id };

    fn number(&self) -> u64 {
        self.id
    }
}

impl Copied for Reply {
    fn copied(&self, alloc: Global) -> Result<Reply, NoMemory> {
        let (caller, repair_who) = copied_pair(alloc, &self.caller, &self.repair_who)?;
        Ok(Reply {
            id: self.id,
            caller,
            number: self.number,
            version: self.version,
            answer_version: self.answer_version,
            wanted: self.wanted,
            due: self.due,
            held: self.held,
            repair_who,
            since: self.since,
        })
    }
}

/// A change of a reply. None takes memory.
#[derive(Drop)]
pub(crate) enum ReplyChange {
    /// This version of the call was taken.
    Take {
        version: u64,
        wanted: bool,
    },
    /// The entry has this answer, to this version of the call.
    Answer {
        answer_version: u64,
        version: u64,
        since: u64,
    },
    /// This answer was confirmed.
    Confirm {
        answer_version: u64,
        since: u64,
    },
    /// The call was acknowledged by a message.
    Due {
        since: u64,
    },
    /// The post was refused.
    Hold(Hold),
    /// The post is sent again, for this user.
    Release(Text),
}

fn take(reply: &mut Reply, version: u64, wanted: bool)
    ensures { reply.new ≡ with_taken version wanted reply.old }
{
    reply.version = version;
    reply.wanted = wanted;
    reply.due = reply.due && wanted;
}

fn answer(reply: &mut Reply, answer_version: u64, version: u64, since: u64)
    ensures { reply.new ≡ with_answer answer_version version since reply.old }
{
    reply.version = version;
    reply.answer_version = answer_version;
    reply.due = reply.wanted;
    reply.held = None;
    reply.since = since;
}

fn confirm(reply: &mut Reply, answer_version: u64, since: u64)
    ensures { reply.new ≡ with_confirm answer_version since reply.old }
{
    reply.due = reply.wanted && answer_version != reply.answer_version;
    reply.since = since;
}

fn make_due(reply: &mut Reply, since: u64)
    ensures { reply.new ≡ made_due since reply.old }
{
    reply.due = reply.wanted;
    reply.since = since;
}

fn release(reply: &mut Reply, who: Text)
    ensures { reply.new ≡ released who reply.old }
{
    reply.held = None;
    reply.repair_who = who;
}

/// Changes the reply so.
pub(crate) fn apply(reply: &mut Reply, change: ReplyChange)
    ensures { reply.new ≡ changed change reply.old }
{
    match change {
        ReplyChange::Take { version, wanted } => take(reply, version, wanted),
        ReplyChange::Answer {
            answer_version,
            version,
            since,
        } => answer(reply, answer_version, version, since),
        ReplyChange::Confirm {
            answer_version,
            since,
        } => confirm(reply, answer_version, since),
        ReplyChange::Due { since } => make_due(reply, since),
        ReplyChange::Hold(hold) => reply.held = Some(hold),
        ReplyChange::Release(who) => release(reply, who),
    }
}
