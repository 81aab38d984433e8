// The replies of a service.
ghost use Rattle.std.specs.Prelude.{◌≡◌, ◌↔◌, ◌+◌, ◌<◌, ◌≤◌, [], ◌∷◌, ◌++◌, length, min, slice_get, position, IfOk, IsOk, OnOk, OnErr, IsTrue, vec_len, vec_capacity};
ghost use Rattle.std.specs.Option.{option_copied};
ghost use Rattle.lang_base.specs.Equal.{equal};
ghost use Rattle.lang_lists.specs.Room.{is_made, spend};
ghost use Rattle.call_registers.specs.Queues.{IsQueue};
ghost use Rattle.call_registers.specs.Replies.{reply, is_reply_due, due_key, AreDue, IsThere, IsAboveAll, IsRising, at_entry, with_taken, with_answer, with_confirm, made_due, with_hold, released, changed, call_code, add_call};
ghost use Rattle.call_registers.specs.declared.reply.ReplyChange.{ReplyChange};

use crate::register::Hold;
use crate::reply::{Reply, ReplyChange, apply};
use lang_base::copied_items;
use lang_core::{Name, NoMemory, Text};
use lang_lists::{AgeKey, AgeQueue, find_number, search_number, take_room, text_key};
use std::alloc::Global;
use std::marker::Model;

/// A call of replies that grows them: one is added for the entry of this number. Room for it is such a call in advance.
#[derive(Clone, Copy, PartialEq, Eq)]
pub struct RepliesCall {
    pub id: u64,
}

/// The replies of a service, in the order of their entries' numbers. Of those that are due it keeps the order by receiver and
/// age; a change of one takes no memory.
pub struct Replies {
    list: Vec<Reply>,
    // It has a place for each reply, and for each for which room was made.
    due: AgeQueue,
    room: Vec<RepliesCall>,
}

impl Drop for Replies {
    fn drop(self) {
        let Self {
            list: _,
            due: _,
            room: _,
        } = self;
    }
}

impl Model for Replies {
    ghost use Rattle.std.specs.Prelude.{◌+◌, min, vec_len, vec_capacity};
    ghost use Rattle.call_registers.specs.Replies.{KeptReplies, IsKept};

    ghost Value = { KeptReplies };

    ghost view = { λ r. record { list = r.list.items; room = r.room.items } };

    ghost invariant = { λ r. IsKept r.list.items r.due.keys (vec_len r.list + vec_len r.room) (min (vec_capacity r.list) r.due.places) };
}

// The key of a reply that is due.
fn due_key(reply: &Reply) -> Option<AgeKey>
    ensures { result ≡ due_key reply.now }
{
    if reply.due {
        Some(AgeKey {
            code: text_key(reply.caller.text()),
            since: reply.since,
            number: reply.id,
        })
    } else {
        None
    }
}

// Changes the reply so; its key before and after.
fn change_key(reply: &mut Reply, change: ReplyChange) -> (Option<AgeKey>, Option<AgeKey>)
    ensures reply { reply.new ≡ changed change reply.old }
    ensures before { result.0 ≡ due_key reply.old }
    ensures after { result.1 ≡ due_key reply.new }
{
    let before = due_key(reply);
    apply(reply, change);
    (before, due_key(reply))
}

fn change_in(list: &mut Vec<Reply>, due: &mut AgeQueue, id: u64, change: ReplyChange)
    requires rising { IsRising list.old.items }
    requires queued { IsQueue due_key list.old.items due.old.keys }
    requires places { length list.old.items ≤ due.old.places }
    requires there { IsThere id list.old.items }
    ensures items { list.new.items ≡ at_entry id (changed change) list.old.items }
    ensures rising { IsRising list.new.items }
    ensures queued { IsQueue due_key list.new.items due.new.keys }
    ensures len { vec_len list.new ≡ vec_len list.old }
    ensures capacity { vec_capacity list.new ≡ vec_capacity list.old }
    ensures places { due.old.places ≤ due.new.places }
{
    match search_number(list, id) {
        Ok(place) => {
            let (before, after) = change_key(&mut list[place], change);
            due.exchange(before, after);
        }
        Err(_) => {}
    }
}

fn push_in(list: &mut Vec<Reply>, due: &mut AgeQueue, reply: Reply)
    requires rising { IsRising list.old.items }
    requires above { IsAboveAll reply.id list.old.items }
    requires queued { IsQueue due_key list.old.items due.old.keys }
    requires room { vec_len list.old < vec_capacity list.old }
    requires place { length list.old.items < due.old.places }
    ensures items { list.new.items ≡ list.old.items ++ reply ∷ [] }
    ensures rising { IsRising list.new.items }
    ensures queued { IsQueue due_key list.new.items due.new.keys }
    ensures len { vec_len list.new ≡ vec_len list.old + 1 }
    ensures capacity { vec_capacity list.new ≡ vec_capacity list.old }
    ensures places { due.old.places ≤ due.new.places }
{
    let key = due_key(&reply);
    list.push_reserved(reply);
    due.exchange(None, key);
}

fn passes_add(call: &RepliesCall, id: u64) -> bool
    ensures { IsTrue result ↔ (add_call id ≡ call.now) }
{
    call.id == id
}

fn is_add(call: &RepliesCall, id: u64) -> bool
    ensures { result ≡ equal call_code (add_call id) call.now }
{
    passes_add(call, id)
}

fn add_place(room: &[RepliesCall], id: u64) -> Option<usize>
    ensures { result ≡ position (equal call_code (add_call id)) room.now }
{
    room.iter().position(|call| is_add(call, id))
}

fn has_add(room: &[RepliesCall], id: u64) -> bool
    ensures { result ≡ is_made call_code (add_call id) room.now }
{
    add_place(room, id).is_some()
}

fn ready_add(
    list: &mut Vec<Reply>,
    due: &mut AgeQueue,
    room: &mut Vec<RepliesCall>,
    id: u64,
) -> Result<(), NoMemory>
    requires { vec_len list.old + vec_len room.old ≤ min (vec_capacity list.old) due.old.places }
    ensures list { list.new.items ≡ list.old.items }
    ensures due { due.new.keys ≡ due.old.keys }
    ensures ok { OnOk result (room.new.items ≡ room.old.items ++ add_call id ∷ []) }
    ensures err { OnErr result (room.new.items ≡ room.old.items) }
    ensures fits { vec_len list.new + vec_len room.new ≤ min (vec_capacity list.new) due.new.places }
{
    list.reserve(room.len() + 1)?;
    due.make_places(list.capacity())?;
    room.push(RepliesCall { id })?;
    Ok(())
}

// Sees to it that there is room for a reply. Where none was made, all other room goes.
fn make_add(
    list: &mut Vec<Reply>,
    due: &mut AgeQueue,
    room: &mut Vec<RepliesCall>,
    id: u64,
) -> Result<(), NoMemory>
    requires { vec_len list.old + vec_len room.old ≤ min (vec_capacity list.old) due.old.places }
    ensures list { list.new.items ≡ list.old.items }
    ensures due { due.new.keys ≡ due.old.keys }
    ensures made { OnOk result (IsTrue (is_made call_code (add_call id) room.new.items)) }
    ensures left { OnOk result (spend call_code (add_call id) room.new.items ≡ spend call_code (add_call id) room.old.items) }
    ensures err { OnErr result (room.new.items ≡ spend call_code (add_call id) room.old.items) }
    ensures ready { IsTrue (is_made call_code (add_call id) room.old.items) → IsOk result }
    ensures fits { vec_len list.new + vec_len room.new ≤ min (vec_capacity list.new) due.new.places }
{
    if has_add(room, id) {
        return Ok(());
    }
    room.clear();
    ready_add(list, due, room, id)
}

fn take_add(room: &mut Vec<RepliesCall>, id: u64)
    requires { IsTrue (is_made call_code (add_call id) room.old.items) }
    ensures room { room.new.items ≡ spend call_code (add_call id) room.old.items }
    ensures len { vec_len room.new + 1 ≡ vec_len room.old }
{
    let place = add_place(room, id).unwrap();
    let _call = take_room(room, place);
}

impl Replies {
    /// No replies.
    pub fn new(alloc: Global) -> Replies
        ensures list { result.list ≡ [] }
        ensures room { result.room ≡ [] }
    {
        Replies {
            list: Vec::new(alloc),
            due: AgeQueue::new(alloc),
            room: Vec::new(alloc),
        }
    }

    /// The replies, in the order of their entries' numbers.
    pub fn as_slice(&self) -> &[Reply]
        ensures list { result.now ≡ self.now.list }
        ensures rising { IsRising self.now.list }
    {
        self.list.as_slice()
    }

    /// How many replies there are.
    pub fn len(&self) -> u64
        ensures { result ≡ length self.now.list }
    {
        self.list.len() as u64
    }

    /// The reply at a place of the list, counted from 0; None exactly past the end.
    pub fn at(&self, place: u64) -> Option<&Reply>
        ensures { option_copied result ≡ slice_get self.now.list place }
    {
        self.list.get(place as usize)
    }

    /// The reply of an entry; None exactly where it has none.
    pub fn get(&self, id: u64) -> Option<&Reply>
        ensures { option_copied result ≡ reply id self.now.list }
    {
        find_number(&self.list, id)
    }

    /// Whether the reply of an entry is due; false where it has none.
    pub fn is_due(&self, id: u64) -> bool
        ensures { result ≡ is_reply_due id self.now.list }
    {
        match self.get(id) {
            None => false,
            Some(reply) => reply.due,
        }
    }

    /// The keys of the replies to this service that are due, the oldest first, found by halves. Those to another service are
    /// among them where the names of both have one key.
    pub fn due_to(&self, caller: &Name) -> &[AgeKey]
        ensures due { AreDue caller.now self.now.list result.now }
        ensures rising { IsRising self.now.list }
    {
        self.due.of_code(text_key(caller.text()))
    }

    fn change(&mut self, id: u64, change: ReplyChange)
        requires { IsThere id self.old.list }
        ensures list { self.new.list ≡ at_entry id (changed change) self.old.list }
        ensures room { self.new.room ≡ self.old.room }
    {
        change_in(&mut self.list, &mut self.due, id, change);
    }

    /// Notes which version of the call of an entry with a reply was taken, and whether the caller wants it; what isn't
    /// wanted isn't due.
    pub fn taken(&mut self, id: u64, version: u64, wanted: bool)
        requires { IsThere id self.old.list }
        ensures list { self.new.list ≡ at_entry id (with_taken version wanted) self.old.list }
        ensures room { self.new.room ≡ self.old.room }
    {
        self.change(id, ReplyChange::Take { version, wanted });
    }

    /// Notes a new answer of an entry with a reply, to a version of the call, at this index of the journal: it is due where
    /// it is wanted, and nothing holds it.
    pub fn answered(&mut self, id: u64, answer_version: u64, version: u64, since: u64)
        requires { IsThere id self.old.list }
        ensures list { self.new.list ≡ at_entry id (with_answer answer_version version since) self.old.list }
        ensures room { self.new.room ≡ self.old.room }
    {
        self.change(
            id,
            ReplyChange::Answer {
                answer_version,
                version,
                since,
            },
        );
    }

    /// Notes that an answer of an entry with a reply was confirmed, at this index of the journal: the reply is due still
    /// where it is wanted and has another answer by now.
    pub fn confirmed(&mut self, id: u64, answer_version: u64, since: u64)
        requires { IsThere id self.old.list }
        ensures list { self.new.list ≡ at_entry id (with_confirm answer_version since) self.old.list }
        ensures room { self.new.room ≡ self.old.room }
    {
        self.change(
            id,
            ReplyChange::Confirm {
                answer_version,
                since,
            },
        );
    }

    /// The reply of an entry that has one is due where it is wanted, from this index of the journal on: its call was
    /// acknowledged by a message.
    pub fn make_due(&mut self, id: u64, since: u64)
        requires { IsThere id self.old.list }
        ensures list { self.new.list ≡ at_entry id (made_due since) self.old.list }
        ensures room { self.new.room ≡ self.old.room }
    {
        self.change(id, ReplyChange::Due { since });
    }

    /// The post of an entry with a reply was refused: it isn't sent before it is released or has a new answer.
    pub fn hold_reply(&mut self, id: u64, hold: Hold)
        requires { IsThere id self.old.list }
        ensures list { self.new.list ≡ at_entry id (with_hold hold) self.old.list }
        ensures room { self.new.room ≡ self.old.room }
    {
        self.change(id, ReplyChange::Hold(hold));
    }

    /// The post of an entry with a reply is sent again, from now on for this user.
    pub fn release_reply(&mut self, id: u64, who: Text)
        requires { IsThere id self.old.list }
        ensures list { self.new.list ≡ at_entry id (released who) self.old.list }
        ensures room { self.new.room ≡ self.old.room }
    {
        self.change(id, ReplyChange::Release(who));
    }

    /// Makes room for that call of `add`.
    pub fn ready_add(&mut self, reply: &Reply) -> Result<(), NoMemory>
        ensures list { self.new.list ≡ self.old.list }
        ensures ok { OnOk result (self.new.room ≡ self.old.room ++ add_call reply.now.id ∷ []) }
        ensures err { OnErr result (self.new.room ≡ self.old.room) }
    {
        ready_add(&mut self.list, &mut self.due, &mut self.room, reply.id)
    }

    /// Puts a reply last, whose entry's number is above all in the list. Refused, it is dropped and the replies stay.
    pub fn add(&mut self, reply: Reply) -> Result<(), NoMemory>
        requires { IsAboveAll reply.id self.old.list }
        ensures ok { OnOk result (self.new.list ≡ self.old.list ++ reply ∷ []) }
        ensures err { OnErr result (self.new.list ≡ self.old.list) }
        ensures room { self.new.room ≡ spend call_code (add_call reply.id) self.old.room }
        ensures ready { IsTrue (is_made call_code (add_call reply.id) self.old.room) → IsOk result }
    {
        make_add(&mut self.list, &mut self.due, &mut self.room, reply.id)?;
        take_add(&mut self.room, reply.id);
        push_in(&mut self.list, &mut self.due, reply);
        Ok(())
    }

    /// Equal replies, without room.
    pub fn copied(&self, alloc: Global) -> Result<Replies, NoMemory>
        ensures { IfOk result (λ copy. copy.list ≡ self.now.list) }
    {
        let due = self.due.copied(alloc, self.list.len())?;
        let list = copied_items(alloc, &self.list)?;
        Ok(Replies {
            list,
            due,
            room: Vec::new(alloc),
        })
    }
}
