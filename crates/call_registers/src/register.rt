// A register: what is kept of one call.
ghost use Rattle.std.specs.Prelude.{◌≡◌, IfOk};
ghost use Rattle.call_registers.specs.Registers.{first_register, sent_anew, held_version, is_done_with, is_news, is_newer, owes_fetch, with_answer, with_note, released, changed};

use lang_base::both;
use lang_core::{Copied, FaultNote, Name, NoMemory, Request, Response, Text};
use repair_messages::copied_pair;
use std::alloc::Global;

/// An answer that was seen.
#[derive(Drop)]
pub struct Answer {
    /// Which answer of the callee's entry it is, from 1.
    pub answer_version: u64,
    /// The version of the call that it answers.
    pub version: u64,
    pub response: Response,
}

/// Why a post isn't sent again until somebody asks for it.
#[derive(Clone, Copy, PartialEq, Eq)]
pub enum Hold {
    /// The receiver's rule of this number denied it; 0 where no rule matched.
    Rule(u64),
    /// The receiver doesn't know what it speaks of.
    Unknown,
    /// What it speaks of is folded at the receiver: the entry of this number, or the call of this number.
    TooOld(u64),
}

/// Why a call went on without an answer.
#[derive(Clone, Copy, PartialEq, Eq)]
pub enum Why {
    /// The exchange failed.
    Lost(FaultNote),
    /// The callee refused it, with this number of a refusal and what that refusal carries.
    Refused { word: u16, number: u64 },
    /// The request that made the call had changed its calls too often.
    Changes,
}

/// What is kept of one of the service's own calls.
pub struct Register {
    /// The call's number, from 1, never used again.
    pub number: u64,
    /// The service that is called.
    pub dest: Name,
    /// Which version of the call this is, from 1; it rises by 1 with each change of what it asks.
    pub version: u64,
    /// What the call asks; None where it is to have no effect, for good.
    pub desired: Option<Request>,
    /// The greatest version that was seen to be acknowledged, or 0.
    pub acked: u64,
    /// The answer of the greatest answer version that was seen.
    pub answer: Option<Answer>,
    /// The version of the last answer that was announced, or 0. Where it is above that of the answer that was seen, and the
    /// call is wanted, that answer is to be fetched.
    pub noted: u64,
    /// For whom the token was sent that announced it: at first the service's own name.
    pub noted_who: Text,
    /// The number of the rule that allowed that token, or 0.
    pub noted_rule: u32,
    /// The index in the journal at which it was noted, or 0.
    pub noted_since: u64,
    /// Why it went on without an answer, if it did.
    pub told: Option<Why>,
    /// Why its post isn't sent, if it was refused.
    pub held: Option<Hold>,
    /// For whom its post is sent: the service's own name at first, which is the user of its calls.
    pub repair_who: Text,
    /// The index in the journal at which its last version was named.
    pub since: u64,
}

impl Drop for Register {
    fn drop(self) {
        let Self {
            number: _,
            dest: _,
            version: _,
            desired: _,
            acked: _,
            answer: _,
            noted: _,
            noted_who: _,
            noted_rule: _,
            noted_since: _,
            told: _,
            held: _,
            repair_who: _,
            since: _,
        } = self;
    }
}

impl Copied for Answer {
    fn copied(&self, alloc: Global) -> Result<Answer, NoMemory> {
        Ok(Answer {
            answer_version: self.answer_version,
            version: self.version,
            response: self.response.copied(alloc)?,
        })
    }
}

impl Copied for Register {
    fn copied(&self, alloc: Global) -> Result<Register, NoMemory> {
        let users = copied_pair(alloc, &self.repair_who, &self.noted_who);
        let (dest, users) = both(self.dest.copied(alloc), users)?;
        let (desired, answer) = copied_pair(alloc, &self.desired, &self.answer)?;
        Ok(Register {
            number: self.number,
            dest,
            version: self.version,
            desired,
            acked: self.acked,
            answer,
            noted: self.noted,
            noted_who: users.1,
            noted_rule: self.noted_rule,
            noted_since: self.noted_since,
            told: self.told,
            held: self.held,
            repair_who: users.0,
            since: self.since,
        })
    }
}

/// The register of a new call. Its request's user is the service itself, for whom it is posted too.
pub(crate) fn new_register(
    alloc: Global,
    number: u64,
    dest: &Name,
    request: &Request,
    since: u64,
) -> Result<Register, NoMemory>
    ensures { IfOk result (λ register. register ≡ first_register number dest.now request.now since) }
{
    let (repair_who, noted_who) = copied_pair(alloc, &request.who, &request.who)?;
    let (dest, request) = copied_pair(alloc, dest, request)?;
    Ok(Register {
        number,
        dest,
        version: 1,
        desired: Some(request),
        acked: 0,
        answer: None,
        noted: 0,
        noted_who,
        noted_rule: 0,
        noted_since: 0,
        told: None,
        held: None,
        repair_who,
        since,
    })
}

/// A change of a register that takes no memory.
#[derive(Drop)]
pub enum RegisterChange {
    /// A new version, which asks this from this index of the journal on.
    Send {
        desired: Option<Request>,
        since: u64,
    },
    /// This version was acknowledged.
    Ack(u64),
    /// This answer was seen.
    SeeAnswer(Answer),
    /// A token for this user announced an answer of this version, which this rule allowed, at this index of the journal.
    Note {
        answer_version: u64,
        who: Text,
        rule: u32,
        since: u64,
    },
    /// The call goes on without an answer.
    Tell(Why),
    /// The post was refused.
    Hold(Hold),
    /// The post is sent again, for this user.
    Release(Text),
}

fn send_anew(register: &mut Register, desired: Option<Request>, since: u64)
    ensures { register.new ≡ sent_anew desired since register.old }
{
    register.version = register.version.saturating_add(1);
    register.desired = desired;
    register.held = None;
    register.since = since;
}

/// Whether an answer of this version is newer than the one that is held.
pub fn is_newer(held: &Option<Answer>, answer_version: u64) -> bool
    ensures { result ≡ is_newer held.now answer_version }
{
    match held {
        None => true,
        Some(held) => held.answer_version < answer_version,
    }
}

/// The version of the answer that is held, or 0.
pub fn held_version(held: &Option<Answer>) -> u64
    ensures { result ≡ held_version held.now }
{
    match held {
        None => 0,
        Some(held) => held.answer_version,
    }
}

/// Whether a token that announces an answer of this version tells anything new: it is above the answer that is held, and
/// above the one that was noted.
pub fn is_news(register: &Register, answer_version: u64) -> bool
    ensures { result ≡ is_news register.now answer_version }
{
    held_version(&register.answer).max(register.noted) < answer_version
}

/// Whether an answer is to be fetched: one was noted that is above the one that is held, and the call is wanted.
pub fn owes_fetch(register: &Register) -> bool
    ensures { result ≡ owes_fetch register.now }
{
    register.desired.is_some() && held_version(&register.answer) < register.noted
}

/// Whether nothing of a call is on its way: its last version is acknowledged, and it owes no fetch.
pub fn is_done_with(register: &Register) -> bool
    ensures { result ≡ is_done_with register.now }
{
    register.acked >= register.version && !owes_fetch(register)
}

// The answer is held where its answer version is the greatest so far.
fn see_answer(register: &mut Register, answer: Answer)
    ensures { register.new ≡ with_answer answer register.old }
{
    if is_newer(&register.answer, answer.answer_version) {
        register.answer = Some(answer);
    }
}

fn note(register: &mut Register, answer_version: u64, who: Text, rule: u32, since: u64)
    ensures { register.new ≡ with_note answer_version who rule since register.old }
{
    register.noted = answer_version;
    register.noted_who = who;
    register.noted_rule = rule;
    register.noted_since = since;
}

fn release(register: &mut Register, who: Text)
    ensures { register.new ≡ released who register.old }
{
    register.held = None;
    register.repair_who = who;
}

/// Changes the register so.
pub(crate) fn apply(register: &mut Register, change: RegisterChange)
    ensures { register.new ≡ changed change register.old }
{
    match change {
        RegisterChange::Send { desired, since } => send_anew(register, desired, since),
        RegisterChange::Ack(version) => register.acked = register.acked.max(version),
        RegisterChange::SeeAnswer(answer) => see_answer(register, answer),
        RegisterChange::Note {
            answer_version,
            who,
            rule,
            since,
        } => note(register, answer_version, who, rule, since),
        RegisterChange::Tell(why) => register.told = Some(why),
        RegisterChange::Hold(hold) => register.held = Some(hold),
        RegisterChange::Release(who) => release(register, who),
    }
}
