// The order: labels in a list, each with a tag.
ghost use Rattle.std.specs.Prelude.{ℕ, List, ◌≡◌, ◌↔◌, ◌+◌, ◌≤◌, ◌<◌, [], ◌∷◌, ◌++◌, Err, length, insert, drop, IfOk, OnOk, OnErr, IsTrue, vec_len, vec_capacity};
ghost use Rattle.std.specs.List.{Contains};
ghost use Rattle.std.specs.Ordering.{nat_cmp};
ghost use Rattle.lang_lists.specs.Room.{is_made, spend};
ghost use Rattle.place_order.specs.Labels.{place_in, IsNew};
ghost use Rattle.place_order.specs.Rising.{IsRising};
ghost use Rattle.place_order.specs.Tags.{IsTagged};
ghost use Rattle.place_order.specs.Rooms.{call_code};
ghost use Rattle.place_order.specs.declared.room.OrderCall.{OrderCall};

use crate::room::{OrderCall, ready, spend_room, take_places};
use crate::tags::{place_of, tag_for, tag_of};
use lang_base::NoMemory;
use std::alloc::Global;
use std::cmp::Ordering;
use std::marker::Model;

/// The most labels of an order.
pub const MOST_LABELS: u64 = 100000;

/// Why an order takes no label.
#[derive(Clone, Copy, PartialEq, Eq, Debug)]
pub enum OrderFull {
    /// There was no memory for it.
    NoMemory,
    /// It has 100,000 labels.
    Full,
}

impl From<NoMemory> for OrderFull {
    ghost use Rattle.place_order.specs.declared.order.OrderFull.{OrderFull};

    ghost from_gives = { λ _ why. why ≡ OrderFull.NoMemory };

    fn from(_: NoMemory) -> OrderFull {
        OrderFull::NoMemory
    }
}

/// Labels in an order, of which no two are equal. Contracts see the list of the labels, how many were given so far, and
/// the room that was made for calls to come.
///
/// Labels are given from 0 on, so none is given again, also after it has left the list.
pub struct Order {
    labels: Vec<u64>,
    // By label. They rise along the list of labels, so two labels stand as their tags do.
    tags: Vec<u64>,
    room: Vec<OrderCall>,
}

impl Drop for Order {
    fn drop(self) {
        let Self {
            labels: _,
            tags: _,
            room: _,
        } = self;
    }
}

impl Model for Order {
    ghost use Rattle.std.specs.Prelude.{◌+◌, ◌≤◌, length, vec_len, vec_capacity};
    ghost use Rattle.place_order.specs.Rooms.{KeptOrder};
    ghost use Rattle.place_order.specs.Tags.{IsTagged};

    ghost Value = { KeptOrder };

    ghost view = { λ order. record { labels = order.labels.items; given = length order.tags.items; room = order.room.items } };

    ghost invariant = { λ order. IsTagged order.labels.items order.tags.items
        × (vec_len order.labels + vec_len order.room ≤ vec_capacity order.labels)
        × (vec_len order.tags + vec_len order.room ≤ vec_capacity order.tags) };
}

// Puts a new label into the list, for which there are places.
fn put_label(labels: &mut Vec<u64>, tags: &mut Vec<u64>, at: usize) -> u64
    requires tagged { IsTagged labels.old.items tags.old.items }
    requires at { at ≤ length labels.old.items }
    requires few { length labels.old.items < 100000 }
    requires label_place { vec_len labels.old < vec_capacity labels.old }
    requires tag_place { vec_len tags.old < vec_capacity tags.old }
    ensures labels { labels.new.items ≡ insert labels.old.items at result }
    ensures fresh { IsNew result labels.old.items }
    ensures label { result ≡ length tags.old.items }
    ensures tagged { IsTagged labels.new.items tags.new.items }
    ensures label_len { vec_len labels.new ≡ vec_len labels.old + 1 }
    ensures tag_len { vec_len tags.new ≡ vec_len tags.old + 1 }
    ensures label_places { vec_capacity labels.old ≤ vec_capacity labels.new }
    ensures tag_places { vec_capacity tags.old ≤ vec_capacity tags.new }
{
    let tag = tag_for(labels, tags, at);
    let label = tags.len() as u64;
    tags.push_reserved(tag);
    let _ = labels.insert(at, label);
    label
}

impl Order {
    /// An order with no label.
    pub fn new(alloc: Global) -> Order
        ensures labels { result.labels ≡ [] }
        ensures given { result.given ≡ 0 }
        ensures room { result.room ≡ [] }
    {
        Order {
            labels: Vec::new(alloc),
            tags: Vec::new(alloc),
            room: Vec::new(alloc),
        }
    }

    /// An order with the same labels, without room.
    pub fn copied(&self, alloc: Global) -> Result<Order, NoMemory>
        ensures labels { IfOk result (λ copy. copy.labels ≡ self.now.labels) }
        ensures given { IfOk result (λ copy. copy.given ≡ self.now.given) }
        ensures room { IfOk result (λ copy. copy.room ≡ []) }
    {
        let labels = Vec::from_slice(alloc, &self.labels)?;
        let tags = Vec::from_slice(alloc, &self.tags)?;
        Ok(Order {
            labels,
            tags,
            room: Vec::new(alloc),
        })
    }

    fn make(&mut self, call: OrderCall, at: usize) -> Result<u64, OrderFull>
        requires { at ≤ length self.old.labels }
        ensures ok { IfOk result (λ label. IsNew label self.old.labels × (self.new.labels ≡ insert self.old.labels at label)) }
        ensures rising { OnOk result ((labels : List ℕ) → IsRising self.old.labels labels → IsRising self.new.labels labels) }
        ensures full { (result ≡ Err OrderFull.Full) ↔ (length self.old.labels ≡ MOST_LABELS) }
        ensures given { IfOk result (λ label. (label ≡ self.old.given) × (self.new.given ≡ self.old.given + 1)) }
        ensures err { OnErr result (self.new.labels ≡ self.old.labels) }
        ensures ungiven { OnErr result (self.new.given ≡ self.old.given) }
        ensures room { self.new.room ≡ spend call_code call self.old.room }
        ensures ready { IsTrue (is_made call_code call self.old.room) → result ≡ Err OrderFull.NoMemory → ⊥ }
    {
        if self.labels.len() as u64 == MOST_LABELS {
            spend_room(&mut self.room, call);
            return Err(OrderFull::Full);
        }
        take_places(&mut self.labels, &mut self.tags, &mut self.room, call)?;
        Ok(put_label(&mut self.labels, &mut self.tags, at))
    }

    fn make_room(&mut self, call: OrderCall) -> Result<(), NoMemory>
        ensures labels { self.new.labels ≡ self.old.labels }
        ensures given { self.new.given ≡ self.old.given }
        ensures ok { OnOk result (self.new.room ≡ self.old.room ++ call ∷ []) }
        ensures err { OnErr result (self.new.room ≡ self.old.room) }
    {
        ready(&mut self.labels, &mut self.tags, &mut self.room, call)
    }

    fn place_of(&self, label: u64) -> usize
        requires { Contains self.now.labels label }
        ensures place { result ≡ place_in self.now.labels label }
        ensures within { result < length self.now.labels }
        ensures few { length self.now.labels ≤ 100000 }
    {
        place_of(&self.labels, &self.tags, label)
    }

    /// A new label at the end: Full exactly where there are 100,000. Refused, the labels stay as they were.
    pub fn append(&mut self) -> Result<u64, OrderFull>
        ensures ok { IfOk result (λ label. IsNew label self.old.labels × (self.new.labels ≡ self.old.labels ++ label ∷ [])) }
        ensures rising { OnOk result ((labels : List ℕ) → IsRising self.old.labels labels → IsRising self.new.labels labels) }
        ensures full { (result ≡ Err OrderFull.Full) ↔ (length self.old.labels ≡ MOST_LABELS) }
        ensures given { IfOk result (λ label. (label ≡ self.old.given) × (self.new.given ≡ self.old.given + 1)) }
        ensures err { OnErr result (self.new.labels ≡ self.old.labels) }
        ensures ungiven { OnErr result (self.new.given ≡ self.old.given) }
        ensures room { self.new.room ≡ spend call_code OrderCall.Append self.old.room }
        ensures ready { IsTrue (is_made call_code OrderCall.Append self.old.room) → result ≡ Err OrderFull.NoMemory → ⊥ }
    {
        let at = self.labels.len();
        self.make(OrderCall::Append, at)
    }

    /// Makes room for an `append`.
    pub fn ready_append(&mut self) -> Result<(), NoMemory>
        ensures labels { self.new.labels ≡ self.old.labels }
        ensures given { self.new.given ≡ self.old.given }
        ensures ok { OnOk result (self.new.room ≡ self.old.room ++ OrderCall.Append ∷ []) }
        ensures err { OnErr result (self.new.room ≡ self.old.room) }
    {
        self.make_room(OrderCall::Append)
    }

    /// A new label just before this one, which has to be there: Full exactly where there are 100,000. Refused, the labels
    /// stay as they were.
    pub fn insert_before(&mut self, label: u64) -> Result<u64, OrderFull>
        requires { Contains self.old.labels label }
        ensures ok { IfOk result (λ made. IsNew made self.old.labels × (self.new.labels ≡ insert self.old.labels (place_in self.old.labels label) made)) }
        ensures rising { OnOk result ((labels : List ℕ) → IsRising self.old.labels labels → IsRising self.new.labels labels) }
        ensures full { (result ≡ Err OrderFull.Full) ↔ (length self.old.labels ≡ MOST_LABELS) }
        ensures given { IfOk result (λ label. (label ≡ self.old.given) × (self.new.given ≡ self.old.given + 1)) }
        ensures err { OnErr result (self.new.labels ≡ self.old.labels) }
        ensures ungiven { OnErr result (self.new.given ≡ self.old.given) }
        ensures room { self.new.room ≡ spend call_code OrderCall.InsertBefore self.old.room }
        ensures ready { IsTrue (is_made call_code OrderCall.InsertBefore self.old.room) → result ≡ Err OrderFull.NoMemory → ⊥ }
    {
        let at = self.place_of(label);
        self.make(OrderCall::InsertBefore, at)
    }

    /// Makes room for an `insert_before`, whichever its label.
    pub fn ready_insert_before(&mut self) -> Result<(), NoMemory>
        ensures labels { self.new.labels ≡ self.old.labels }
        ensures given { self.new.given ≡ self.old.given }
        ensures ok { OnOk result (self.new.room ≡ self.old.room ++ OrderCall.InsertBefore ∷ []) }
        ensures err { OnErr result (self.new.room ≡ self.old.room) }
    {
        self.make_room(OrderCall::InsertBefore)
    }

    /// A new label just after this one, which has to be there: Full exactly where there are 100,000. Refused, the labels
    /// stay as they were.
    pub fn insert_after(&mut self, label: u64) -> Result<u64, OrderFull>
        requires { Contains self.old.labels label }
        ensures ok { IfOk result (λ made. IsNew made self.old.labels × (self.new.labels ≡ insert self.old.labels (place_in self.old.labels label + 1) made)) }
        ensures rising { OnOk result ((labels : List ℕ) → IsRising self.old.labels labels → IsRising self.new.labels labels) }
        ensures full { (result ≡ Err OrderFull.Full) ↔ (length self.old.labels ≡ MOST_LABELS) }
        ensures given { IfOk result (λ label. (label ≡ self.old.given) × (self.new.given ≡ self.old.given + 1)) }
        ensures err { OnErr result (self.new.labels ≡ self.old.labels) }
        ensures ungiven { OnErr result (self.new.given ≡ self.old.given) }
        ensures room { self.new.room ≡ spend call_code OrderCall.InsertAfter self.old.room }
        ensures ready { IsTrue (is_made call_code OrderCall.InsertAfter self.old.room) → result ≡ Err OrderFull.NoMemory → ⊥ }
    {
        let at = self.place_of(label) + 1;
        self.make(OrderCall::InsertAfter, at)
    }

    /// Makes room for an `insert_after`, whichever its label.
    pub fn ready_insert_after(&mut self) -> Result<(), NoMemory>
        ensures labels { self.new.labels ≡ self.old.labels }
        ensures given { self.new.given ≡ self.old.given }
        ensures ok { OnOk result (self.new.room ≡ self.old.room ++ OrderCall.InsertAfter ∷ []) }
        ensures err { OnErr result (self.new.room ≡ self.old.room) }
    {
        self.make_room(OrderCall::InsertAfter)
    }

    /// The order of the places of two labels, which have to be there.
    pub fn compare(&self, a: u64, b: u64) -> Ordering
        requires first { Contains self.now.labels a }
        requires second { Contains self.now.labels b }
        ensures { result ≡ nat_cmp (place_in self.now.labels a) (place_in self.now.labels b) }
    {
        tag_of(&self.labels, &self.tags, a).cmp(&tag_of(&self.labels, &self.tags, b))
    }

    /// Takes the first n labels out of the list, which has to have as many.
    pub fn forget_first(&mut self, n: u64)
        requires { n ≤ length self.old.labels }
        ensures labels { self.new.labels ≡ drop n self.old.labels }
        ensures given { self.new.given ≡ self.old.given }
        ensures room { self.new.room ≡ self.old.room }
    {
        let _ = self.labels.drain(..n as usize);
    }
}
