// Registers in the order of their numbers, with queues of those that are to be posted.
ghost use Rattle.std.specs.Prelude.{◌≡◌, ◌+◌, ◌<◌, ◌≤◌, [], ◌∷◌, ◌++◌, length, slice_get, is_some, IfOk, OnOk, vec_len, vec_capacity};
ghost use Rattle.std.specs.Option.{option_copied};
ghost use Rattle.call_registers.specs.Registers.{register, IsThere, IsNumbered, next_number, at_number, changed};
ghost use Rattle.call_registers.specs.Overlays.{put};
ghost use Rattle.call_registers.specs.Waiting.{fetch_key, waiting_key, AreFetched, AreWaiting, IsListed};

use crate::queues::{CallKeys, CallQueues, keys_of, no_keys};
use crate::register::{Register, RegisterChange, apply};
use lang_base::copied_items;
use lang_core::{Name, NoMemory};
use lang_lists::AgeKey;
use std::alloc::Global;
use std::marker::Model;

/// Registers in the order of their numbers, which are 1, 2, 3 and so on, with the keys of those whose last version isn't
/// acknowledged and of those of which an answer is to be fetched. Contracts see the registers, and for how many there are places; a change of one takes no memory.
pub(crate) struct RegisterList {
    list: Vec<Register>,
    // They have a place for each register.
    queues: CallQueues,
}

impl Drop for RegisterList {
    fn drop(self) {
        let Self { list: _, queues: _ } = self;
    }
}

impl Model for RegisterList {
    ghost use Rattle.std.specs.Prelude.{min, vec_capacity};
    ghost use Rattle.call_registers.specs.Waiting.{KeptList, IsListed};

    ghost Value = { KeptList };

    ghost view = { λ l. record { list = l.list.items; places = min (vec_capacity l.list) l.queues.places } };

    ghost invariant = { λ l. IsListed l.list.items l.queues };
}

fn item_at(list: &[Register], place: usize) -> Option<&Register>
    ensures { option_copied result ≡ slice_get list.now place }
{
    list.get(place)
}

fn find_in(list: &[Register], number: u64) -> Option<&Register>
    requires { IsNumbered list.now }
    ensures { option_copied result ≡ register number list.now }
{
    if number == 0 {
        return None;
    }
    item_at(list, (number - 1) as usize)
}

fn place_of(list: &[Register], number: u64) -> usize
    requires numbered { IsNumbered list.now }
    requires there { IsThere number list.now }
    ensures place { result + 1 ≡ number }
    ensures within { result < length list.now }
{
    (number - 1) as usize
}

fn next_number(list: &[Register]) -> u64
    ensures { result ≡ next_number list.now }
{
    list.len() as u64 + 1
}

fn is_there(list: &[Register], number: u64) -> bool
    requires { IsNumbered list.now }
    ensures { result ≡ is_some (register number list.now) }
{
    find_in(list, number).is_some()
}

// Changes the register so; its keys before and after.
fn change_keys(register: &mut Register, change: RegisterChange) -> (CallKeys, CallKeys)
    ensures register { register.new ≡ changed change register.old }
    ensures waiting_before { result.0.waiting ≡ waiting_key register.old }
    ensures waiting_after { result.1.waiting ≡ waiting_key register.new }
    ensures fetched_before { result.0.fetched ≡ fetch_key register.old }
    ensures fetched_after { result.1.fetched ≡ fetch_key register.new }
{
    let before = keys_of(register);
    apply(register, change);
    (before, keys_of(register))
}

fn change_in(list: &mut Vec<Register>, queues: &mut CallQueues, number: u64, change: RegisterChange)
    requires listed { IsListed list.old.items queues.old }
    requires there { IsThere number list.old.items }
    ensures items { list.new.items ≡ at_number number (changed change) list.old.items }
    ensures listed { IsListed list.new.items queues.new }
    ensures len { vec_len list.new ≡ vec_len list.old }
    ensures capacity { vec_capacity list.new ≡ vec_capacity list.old }
    ensures places { queues.old.places ≤ queues.new.places }
{
    let place = place_of(list, number);
    let (before, after) = change_keys(&mut list[place], change);
    queues.exchange(before, after);
}

// A register stands in place of the one of its number, where there is one.
fn put_in(list: &mut Vec<Register>, queues: &mut CallQueues, register: Register)
    requires { IsListed list.old.items queues.old }
    ensures items { list.new.items ≡ put list.old.items register }
    ensures listed { IsListed list.new.items queues.new }
    ensures len { vec_len list.new ≡ vec_len list.old }
    ensures capacity { vec_capacity list.new ≡ vec_capacity list.old }
    ensures places { queues.old.places ≤ queues.new.places }
{
    if is_there(list, register.number) {
        let place = place_of(list, register.number);
        let before = keys_of(&list[place]);
        let after = keys_of(&register);
        list[place] = register;
        queues.exchange(before, after);
    }
}

fn push_in(list: &mut Vec<Register>, queues: &mut CallQueues, register: Register)
    requires listed { IsListed list.old.items queues.old }
    requires number { register.number ≡ next_number list.old.items }
    requires room { vec_len list.old < vec_capacity list.old }
    requires place { length list.old.items < queues.old.places }
    ensures items { list.new.items ≡ list.old.items ++ register ∷ [] }
    ensures listed { IsListed list.new.items queues.new }
    ensures capacity { vec_capacity list.new ≡ vec_capacity list.old }
    ensures places { queues.old.places ≤ queues.new.places }
{
    let keys = keys_of(&register);
    list.push_reserved(register);
    queues.exchange(no_keys(), keys);
}

impl RegisterList {
    /// No registers.
    pub(crate) fn new(alloc: Global) -> RegisterList
        ensures { result.list ≡ [] }
    {
        RegisterList {
            list: Vec::new(alloc),
            queues: CallQueues::new(alloc),
        }
    }

    /// The registers, in the order of their numbers.
    pub(crate) fn as_slice(&self) -> &[Register]
        ensures list { result.now ≡ self.now.list }
        ensures numbered { IsNumbered self.now.list }
    {
        self.list.as_slice()
    }

    /// How many registers there are, which is the last number.
    pub(crate) fn len(&self) -> u64
        ensures { result ≡ length self.now.list }
    {
        self.list.len() as u64
    }

    /// The number that comes next.
    pub(crate) fn next_number(&self) -> u64
        ensures { result ≡ next_number self.now.list }
    {
        next_number(&self.list)
    }

    /// The register of a number; None exactly where there is none.
    pub(crate) fn get(&self, number: u64) -> Option<&Register>
        ensures { option_copied result ≡ register number self.now.list }
    {
        find_in(&self.list, number)
    }

    /// The keys of the calls to services whose names have the key of this name, the oldest first.
    pub(crate) fn waiting(&self, dest: &Name) -> &[AgeKey]
        ensures waiting { AreWaiting dest.now self.now.list result.now }
        ensures numbered { IsNumbered self.now.list }
    {
        self.queues.waiting(dest)
    }

    /// The keys of the calls of which an answer is to be fetched, from services whose names have the key of this name, the
    /// oldest first.
    pub(crate) fn fetched(&self, dest: &Name) -> &[AgeKey]
        ensures fetched { AreFetched dest.now self.now.list result.now }
        ensures numbered { IsNumbered self.now.list }
    {
        self.queues.fetched(dest)
    }

    /// Changes the register of a number that is there.
    pub(crate) fn change(&mut self, number: u64, change: RegisterChange)
        requires { IsThere number self.old.list }
        ensures list { self.new.list ≡ at_number number (changed change) self.old.list }
        ensures len { length self.new.list ≡ length self.old.list }
        ensures places { self.old.places ≤ self.new.places }
    {
        change_in(&mut self.list, &mut self.queues, number, change);
    }

    /// A register stands in place of the one of its number, where there is one.
    pub(crate) fn put(&mut self, register: Register)
        ensures list { self.new.list ≡ put self.old.list register }
        ensures len { length self.new.list ≡ length self.old.list }
        ensures places { self.old.places ≤ self.new.places }
    {
        put_in(&mut self.list, &mut self.queues, register);
    }

    /// Puts a register last, which has the number that comes next, and for which there has to be a place.
    pub(crate) fn push(&mut self, register: Register)
        requires number { register.number ≡ next_number self.old.list }
        requires place { length self.old.list < self.old.places }
        ensures list { self.new.list ≡ self.old.list ++ register ∷ [] }
        ensures places { self.old.places ≤ self.new.places }
    {
        push_in(&mut self.list, &mut self.queues, register);
    }

    /// Makes places for so many registers more. Refused, the registers stay.
    pub(crate) fn reserve(&mut self, more: usize) -> Result<(), NoMemory>
        ensures list { self.new.list ≡ self.old.list }
        ensures places { self.old.places ≤ self.new.places }
        ensures ok { OnOk result (length self.new.list + more ≤ self.new.places) }
    {
        self.list.reserve(more)?;
        self.queues.make_places(self.list.capacity())
    }

    /// Equal registers; nothing is said of places for more.
    pub(crate) fn copied(&self, alloc: Global) -> Result<RegisterList, NoMemory>
        ensures list { IfOk result (λ copy. copy.list ≡ self.now.list) }
        ensures places { IfOk result (λ copy. length copy.list ≤ copy.places) }
    {
        let queues = self.queues.copied(alloc, self.list.len())?;
        let list = copied_items(alloc, &self.list)?;
        Ok(RegisterList { list, queues })
    }
}
