// The registers of a service.
ghost use Rattle.std.specs.Prelude.{◌≡◌, ◌+◌, ◌≤◌, [], ◌++◌, Some, length, IfOk, OnOk, OnErr, vec_len};
ghost use Rattle.std.specs.Option.{option_copied};
ghost use Rattle.call_registers.specs.Registers.{register, IsThere, IsNumbered, consumed, answer_to, next_number, with_call, at_number, sent_anew, with_ack, with_answer, with_note, with_cause, with_hold, released, changed};
ghost use Rattle.call_registers.specs.Overlays.{overlaid, put_all, numbered_from};
ghost use Rattle.call_registers.specs.Waiting.{AreFetched, AreWaiting};
ghost use Rattle.call_registers.specs.declared.register.RegisterChange.{RegisterChange};

use crate::changes::RegisterChanges;
use crate::homes::Homes;
use crate::register::{Answer, Hold, Register, RegisterChange, Why, new_register};
use crate::register_list::RegisterList;
use lang_core::{Copied, Name, NoMemory, Request, Response, Text};
use lang_lists::AgeKey;
use std::alloc::Global;
use std::marker::Model;

/// The registers of a service, in the order of their numbers, which are 1, 2, 3 and so on, with spare room for more. Of those
/// whose last version isn't acknowledged, and of those of which an answer is to be fetched, it keeps the order by receiver and
/// age.
pub struct Registers {
    list: RegisterList,
    // Nothing that contracts see.
    homes: Homes,
}

impl Drop for Registers {
    fn drop(self) {
        let Self { list: _, homes: _ } = self;
    }
}

impl Model for Registers {
    ghost use Rattle.std.specs.Prelude.{◌-◌, ◌≤◌, length};
    ghost use Rattle.call_registers.specs.Registers.{KeptRegisters};

    ghost Value = { KeptRegisters };

    ghost view = { λ r. record { list = r.list.list; spare = r.list.places - length r.list.list } };

    ghost invariant = { λ r. length r.list.list ≤ r.list.places };
}

fn put_all(list: &mut RegisterList, changed: Vec<Register>)
    ensures list { list.new.list ≡ put_all changed.items list.old.list }
    ensures len { length list.new.list ≡ length list.old.list }
    ensures places { list.old.places ≤ list.new.places }
{
    let mut rest = changed;
    while !rest.is_empty() {
        let register = rest.remove(0);
        list.put(register);
    }
}

// Puts new registers last, with the numbers that come next.
fn add_all(list: &mut RegisterList, added: Vec<Register>)
    requires { length list.old.list + vec_len added ≤ list.old.places }
    ensures list { list.new.list ≡ list.old.list ++ numbered_from (next_number list.old.list) added.items }
    ensures len { length list.new.list ≡ length list.old.list + vec_len added }
    ensures places { list.old.places ≤ list.new.places }
{
    let mut rest = added;
    while !rest.is_empty() {
        let mut register = rest.remove(0);
        register.number = list.next_number();
        list.push(register);
    }
}

impl Registers {
    /// No registers.
    pub fn new(alloc: Global) -> Registers
        ensures { result.list ≡ [] }
    {
        Registers {
            list: RegisterList::new(alloc),
            homes: Homes::new(alloc),
        }
    }

    /// The registers, in the order of their numbers.
    pub fn as_slice(&self) -> &[Register]
        ensures list { result.now ≡ self.now.list }
        ensures numbered { IsNumbered self.now.list }
    {
        self.list.as_slice()
    }

    /// How many registers there are, which is the last number.
    pub fn len(&self) -> u64
        ensures { result ≡ length self.now.list }
    {
        self.list.len()
    }

    /// The register of a number; None exactly where there is none.
    pub fn get(&self, number: u64) -> Option<&Register>
        ensures { option_copied result ≡ register number self.now.list }
    {
        self.list.get(number)
    }

    /// The keys of the calls to this service whose last version isn't acknowledged, the oldest first, found by halves. Those to
    /// another service are among them where the names of both have one key.
    pub fn waiting(&self, dest: &Name) -> &[AgeKey]
        ensures waiting { AreWaiting dest.now self.now.list result.now }
        ensures numbered { IsNumbered self.now.list }
    {
        self.list.waiting(dest)
    }

    /// The keys of the calls of which an answer is to be fetched from this service, the oldest first, found by halves. Those to
    /// another service are among them where the names of both have one key.
    pub fn fetched(&self, dest: &Name) -> &[AgeKey]
        ensures fetched { AreFetched dest.now self.now.list result.now }
        ensures numbered { IsNumbered self.now.list }
    {
        self.list.fetched(dest)
    }

    /// The answer that a call consumes: the one that is held, where it answers the call's version. None is the tentative
    /// answer.
    pub fn consumed(&self, number: u64) -> Option<&Response>
        ensures { option_copied result ≡ consumed number self.now.list }
    {
        match self.get(number) {
            None => None,
            Some(register) => answer_of(register),
        }
    }

    /// Notes that this entry has the calls of these numbers, by which `home` finds it. Nothing that contracts see changes.
    pub fn place(&mut self, numbers: &[u64], entry: u64)
        ensures { self.new ≡ self.old }
    {
        self.homes.place(numbers, entry);
    }

    /// The number of the entry that has the call of this number, as far as that was noted; else 0. It is a hint: who takes it
    /// looks whether the entry has the call.
    pub fn home(&self, number: u64) -> u64 {
        self.homes.home(number)
    }

    fn change(&mut self, number: u64, change: RegisterChange)
        requires { IsThere number self.old.list }
        ensures { self.new.list ≡ at_number number (changed change) self.old.list }
    {
        self.list.change(number, change);
    }

    /// Notes why a call that is there goes on without an answer.
    pub fn tell(&mut self, number: u64, why: Why)
        requires { IsThere number self.old.list }
        ensures { self.new.list ≡ at_number number (with_cause why) self.old.list }
    {
        self.change(number, RegisterChange::Tell(why));
    }

    /// A call that is there is to have no effect, from this index of the journal on and for good: its version rises, and
    /// nothing holds it.
    pub fn unwant(&mut self, number: u64, since: u64)
        requires { IsThere number self.old.list }
        ensures { self.new.list ≡ at_number number (sent_anew None since) self.old.list }
    {
        self.change(
            number,
            RegisterChange::Send {
                desired: None,
                since,
            },
        );
    }

    /// Notes that a version of a call that is there was acknowledged.
    pub fn saw_ack(&mut self, number: u64, version: u64)
        requires { IsThere number self.old.list }
        ensures { self.new.list ≡ at_number number (with_ack version) self.old.list }
    {
        self.change(number, RegisterChange::Ack(version));
    }

    /// Keeps the answer to a call that is there, where its answer version is the greatest so far.
    pub fn saw_answer(&mut self, number: u64, answer: Answer)
        requires { IsThere number self.old.list }
        ensures { self.new.list ≡ at_number number (with_answer answer) self.old.list }
    {
        self.change(number, RegisterChange::SeeAnswer(answer));
    }

    /// Notes that a token for this user announced an answer of this version to a call that is there, that this rule allowed it,
    /// and that it stands at this index of the journal.
    pub fn note(&mut self, number: u64, answer_version: u64, who: Text, rule: u32, since: u64)
        requires { IsThere number self.old.list }
        ensures { self.new.list ≡ at_number number (with_note answer_version who rule since) self.old.list }
    {
        self.change(
            number,
            RegisterChange::Note {
                answer_version,
                who,
                rule,
                since,
            },
        );
    }

    /// The post of a call that is there was refused: it isn't sent before it is released or has a new version.
    pub fn hold(&mut self, number: u64, hold: Hold)
        requires { IsThere number self.old.list }
        ensures { self.new.list ≡ at_number number (with_hold hold) self.old.list }
    {
        self.change(number, RegisterChange::Hold(hold));
    }

    /// The post of a call that is there is sent again, from now on for this user.
    pub fn release(&mut self, number: u64, who: Text)
        requires { IsThere number self.old.list }
        ensures { self.new.list ≡ at_number number (released who) self.old.list }
    {
        self.change(number, RegisterChange::Release(who));
    }

    /// A new call, with the number after the last one. Its request's user is the service itself, for whom it is posted too.
    /// `since` is the index in the journal at which it is named. Refused, the registers stay.
    pub fn want(
        &mut self,
        alloc: Global,
        dest: &Name,
        request: &Request,
        since: u64,
    ) -> Result<u64, NoMemory>
        ensures number { IfOk result (λ number. number ≡ next_number self.old.list) }
        ensures ok { OnOk result (self.new.list ≡ with_call dest.now request.now since self.old.list) }
        ensures err { OnErr result (self.new.list ≡ self.old.list) }
    {
        let number = self.list.next_number();
        let register = new_register(alloc, number, dest, request, since)?;
        self.reserve(1)?;
        self.list.push(register);
        Ok(number)
    }

    /// A call that is there asks another request, from this index of the journal on: its version rises, and nothing holds
    /// it. Refused, the registers stay.
    pub fn replace(
        &mut self,
        alloc: Global,
        number: u64,
        request: &Request,
        since: u64,
    ) -> Result<(), NoMemory>
        requires { IsThere number self.old.list }
        ensures ok { OnOk result (self.new.list ≡ at_number number (sent_anew (Some request.now) since) self.old.list) }
        ensures err { OnErr result (self.new.list ≡ self.old.list) }
    {
        let desired = Some(request.copied(alloc)?);
        self.change(number, RegisterChange::Send { desired, since });
        Ok(())
    }

    /// Makes room for so many registers more. Refused, the registers stay.
    pub fn reserve(&mut self, more: u64) -> Result<(), NoMemory>
        ensures list { self.new.list ≡ self.old.list }
        ensures ok { OnOk result (more ≤ self.new.spare) }
    {
        self.list.reserve(more as usize)?;
        self.homes.reserve(self.list.len().saturating_add(more))
    }

    /// Makes changes, for whose new registers there is room.
    pub fn put_changes(&mut self, changes: RegisterChanges)
        requires { vec_len changes.added ≤ self.old.spare }
        ensures { self.new.list ≡ overlaid changes self.old.list }
    {
        let RegisterChanges { changed, added } = changes;
        put_all(&mut self.list, changed);
        add_all(&mut self.list, added);
    }

    /// Equal registers, without room.
    pub fn copied(&self, alloc: Global) -> Result<Registers, NoMemory>
        ensures { IfOk result (λ copy. copy.list ≡ self.now.list) }
    {
        let homes = self.homes.copied(alloc)?;
        let list = self.list.copied(alloc)?;
        Ok(Registers { list, homes })
    }
}

/// The answer that is held, where it answers the register's version.
pub(crate) fn answer_of(register: &Register) -> Option<&Response>
    ensures { option_copied result ≡ answer_to register.now.version register.now.answer }
{
    match &register.answer {
        None => None,
        Some(answer) => {
            if answer.version == register.version {
                Some(&answer.response)
            } else {
                None
            }
        }
    }
}
