// The keys of the calls that are to be posted: of those that wait for an acknowledgement, and of those of which an answer is to be
// fetched.
ghost use Rattle.std.specs.Prelude.{◌≡◌, ◌+◌, ◌≤◌, [], length, None, IfOk, IfSome, OnOk};
ghost use Rattle.std.specs.List.{Contains};
ghost use Rattle.lang_lists.specs.Ages.{weigh, each_once, of_code, IsExchanged, IsRising};
ghost use Rattle.lang_lists.specs.Keys.{text_key};
ghost use Rattle.call_registers.specs.Waiting.{fetch_key, waiting_key};

use crate::register::{Register, owes_fetch};
use lang_core::{Name, NoMemory};
use lang_lists::{AgeKey, AgeQueue, text_key};
use std::alloc::Global;
use std::marker::Model;

/// The keys of a call, in both queues.
#[derive(Clone, Copy)]
pub(crate) struct CallKeys {
    pub(crate) waiting: Option<AgeKey>,
    pub(crate) fetched: Option<AgeKey>,
}

// The key of a call whose last version isn't acknowledged.
fn waiting_key(register: &Register) -> Option<AgeKey>
    ensures { result ≡ waiting_key register.now }
{
    if register.acked < register.version {
        Some(AgeKey {
            code: text_key(register.dest.text()),
            since: register.since,
            number: register.number,
        })
    } else {
        None
    }
}

// The key of a call of which an answer is to be fetched.
fn fetch_key(register: &Register) -> Option<AgeKey>
    ensures { result ≡ fetch_key register.now }
{
    if owes_fetch(register) {
        Some(AgeKey {
            code: text_key(register.dest.text()),
            since: register.noted_since,
            number: register.number,
        })
    } else {
        None
    }
}

/// The keys of a call, as far as it has any.
pub(crate) fn keys_of(register: &Register) -> CallKeys
    ensures waiting { result.waiting ≡ waiting_key register.now }
    ensures fetched { result.fetched ≡ fetch_key register.now }
{
    CallKeys {
        waiting: waiting_key(register),
        fetched: fetch_key(register),
    }
}

/// Of a call that isn't there yet.
pub(crate) fn no_keys() -> CallKeys
    ensures waiting { result.waiting ≡ None }
    ensures fetched { result.fetched ≡ None }
{
    CallKeys {
        waiting: None,
        fetched: None,
    }
}

/// Both queues. Contracts see their keys, and for how many each has places.
pub(crate) struct CallQueues {
    waiting: AgeQueue,
    fetched: AgeQueue,
}

impl Drop for CallQueues {
    fn drop(self) {
        let Self {
            waiting: _,
            fetched: _,
        } = self;
    }
}

impl Model for CallQueues {
    ghost use Rattle.std.specs.Prelude.{min};
    ghost use Rattle.call_registers.specs.Waiting.{KeptQueues};

    ghost Value = { KeptQueues };

    ghost view = { λ q. record { waiting = q.waiting.keys; fetched = q.fetched.keys; places = min q.waiting.places q.fetched.places } };
}

impl CallQueues {
    /// No keys.
    pub(crate) fn new(alloc: Global) -> CallQueues
        ensures waiting { result.waiting ≡ [] }
        ensures fetched { result.fetched ≡ [] }
    {
        CallQueues {
            waiting: AgeQueue::new(alloc),
            fetched: AgeQueue::new(alloc),
        }
    }

    /// Sees to it that there are so many places in each. Refused, the keys stay.
    pub(crate) fn make_places(&mut self, places: usize) -> Result<(), NoMemory>
        ensures waiting { self.new.waiting ≡ self.old.waiting }
        ensures fetched { self.new.fetched ≡ self.old.fetched }
        ensures ok { OnOk result (places ≤ self.new.places) }
        ensures places { self.old.places ≤ self.new.places }
    {
        self.waiting.make_places(places)?;
        self.fetched.make_places(places)
    }

    /// The keys of the calls that wait for an acknowledgement, to services whose names have the key of this name, the oldest
    /// first.
    pub(crate) fn waiting(&self, dest: &Name) -> &[AgeKey]
        ensures keys { result.now ≡ of_code (text_key dest.now) self.now.waiting }
        ensures rising { IsRising result.now }
    {
        self.waiting.of_code(text_key(dest.text()))
    }

    /// The keys of the calls of which an answer is to be fetched, from services whose names have the key of this name, the
    /// oldest first.
    pub(crate) fn fetched(&self, dest: &Name) -> &[AgeKey]
        ensures keys { result.now ≡ of_code (text_key dest.now) self.now.fetched }
        ensures rising { IsRising result.now }
    {
        self.fetched.of_code(text_key(dest.text()))
    }

    /// Takes the ones out, which have to be there, and puts the others in, for which there have to be places.
    pub(crate) fn exchange(&mut self, before: CallKeys, after: CallKeys)
        requires there_waiting { IfSome before.waiting (Contains self.old.waiting) }
        requires there_fetched { IfSome before.fetched (Contains self.old.fetched) }
        requires room_waiting { length self.old.waiting + weigh each_once after.waiting ≤ self.old.places + weigh each_once before.waiting }
        requires room_fetched { length self.old.fetched + weigh each_once after.fetched ≤ self.old.places + weigh each_once before.fetched }
        ensures waiting { IsExchanged before.waiting after.waiting self.old.waiting self.new.waiting }
        ensures fetched { IsExchanged before.fetched after.fetched self.old.fetched self.new.fetched }
        ensures places { self.old.places ≤ self.new.places }
    {
        self.waiting.exchange(before.waiting, after.waiting);
        self.fetched.exchange(before.fetched, after.fetched);
    }

    /// Equal keys, with so many places.
    pub(crate) fn copied(&self, alloc: Global, places: usize) -> Result<CallQueues, NoMemory>
        ensures waiting { IfOk result (λ copy. copy.waiting ≡ self.now.waiting) }
        ensures fetched { IfOk result (λ copy. copy.fetched ≡ self.now.fetched) }
        ensures places { IfOk result (λ copy. places ≤ copy.places) }
    {
        let waiting = self.waiting.copied(alloc, places)?;
        let fetched = self.fetched.copied(alloc, places)?;
        Ok(CallQueues { waiting, fetched })
    }
}
