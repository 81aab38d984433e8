// Places in logged order, each with a label that stays when others come before it.
ghost use Rattle.std.specs.Prelude.{◌≡◌, ◌+◌, ◌<◌, ◌≤◌, ◌∷◌, [], ◌++◌, true, IsTrue, IfOk, OnOk, OnErr, drop, insert, length, nat_lt, slice_get, slice_index, vec_len, vec_capacity};
ghost use Rattle.std.specs.List.{Contains};
ghost use Rattle.lang_lists.specs.Room.{is_made};
ghost use Rattle.place_order.specs.Labels.{place_in, IsNew};
ghost use Rattle.place_order.specs.Rooms.{call_code};
ghost use Rattle.log_index.specs.Rows.{call_at};
ghost use Rattle.place_order.specs.declared.room.OrderCall.{OrderCall};
ghost use Rattle.log_index.specs.Places.{AreLabels, HasPlace};

use crate::numbers::drop_front;
use lang_base::both;
use lang_core::NoMemory;
use lang_lists::count_front;
use place_order::Order;
use std::alloc::Global;
use std::marker::Model;

/// Places in logged order, each with a label of its own.
pub(crate) struct Places {
    order: Order,
    labels: Vec<u64>,
}

impl Drop for Places {
    fn drop(self) {
        let Self {
            order: _,
            labels: _,
        } = self;
    }
}

impl Model for Places {
    ghost use Rattle.std.specs.Prelude.{◌-◌, vec_len, vec_capacity};
    ghost use Rattle.log_index.specs.Places.{KeptPlaces, AreLabels};

    ghost Value = { KeptPlaces };

    ghost view = { λ p. record { labels = p.labels.items; room = p.order.room; spare = vec_capacity p.labels - vec_len p.labels } };

    ghost invariant = { λ p. AreLabels p.order.labels p.labels.items };
}

fn is_before(order: &Order, a: u64, b: u64) -> bool
    requires first { Contains order.now.labels a }
    requires second { Contains order.now.labels b }
    ensures { result ≡ nat_lt (place_in order.now.labels a) (place_in order.now.labels b) }
{
    order.compare(a, b).is_lt()
}

// Makes room for a label at a place of the order, which has so many.
fn ready_label(order: &mut Order, place: usize, count: usize) -> Result<(), NoMemory>
    ensures labels { order.new.labels ≡ order.old.labels }
    ensures ok { OnOk result (order.new.room ≡ order.old.room ++ call_at place count ∷ []) }
    ensures err { OnErr result (order.new.room ≡ order.old.room) }
{
    if place < count {
        order.ready_insert_before()
    } else {
        order.ready_append()
    }
}

// A new label before another. There is room for it.
fn label_before(order: &mut Order, next: u64) -> u64
    requires there { Contains order.old.labels next }
    requires few { length order.old.labels < 100000 }
    requires ready { IsTrue (is_made call_code OrderCall.InsertBefore order.old.room) }
    ensures labels { order.new.labels ≡ insert order.old.labels (place_in order.old.labels next) result }
    ensures is_new { IsNew result order.old.labels }
{
    order.insert_before(next).unwrap()
}

// A new label at the end. There is room for it.
fn label_last(order: &mut Order) -> u64
    requires few { length order.old.labels < 100000 }
    requires ready { IsTrue (is_made call_code OrderCall.Append order.old.room) }
    ensures labels { order.new.labels ≡ order.old.labels ++ result ∷ [] }
    ensures is_new { IsNew result order.old.labels }
{
    order.append().unwrap()
}

// A new label at a place of the order, which has these. There is room for it.
fn new_label(order: &mut Order, labels: &[u64], place: usize) -> u64
    requires same { AreLabels order.old.labels labels.now }
    requires within { place ≤ length labels.now }
    requires few { length labels.now < 100000 }
    requires ready { IsTrue (is_made call_code (call_at place (length labels.now)) order.old.room) }
    ensures labels { order.new.labels ≡ insert labels.now place result }
    ensures is_new { IsNew result labels.now }
{
    if place < labels.len() {
        label_before(order, labels[place])
    } else {
        label_last(order)
    }
}

fn copied_labels(alloc: Global, labels: &[u64]) -> Result<Vec<u64>, NoMemory>
    ensures { IfOk result (λ copy. copy.items ≡ labels.now) }
{
    Ok(Vec::from_slice(alloc, labels)?)
}

impl Places {
    /// No places.
    pub fn new(alloc: Global) -> Places
        ensures { result.labels ≡ [] }
    {
        Places {
            order: Order::new(alloc),
            labels: Vec::new(alloc),
        }
    }

    /// Equal places, without room.
    pub fn copied(&self, alloc: Global) -> Result<Places, NoMemory>
        ensures { IfOk result (λ copy. copy.labels ≡ self.now.labels) }
    {
        let (order, labels) = both(self.order.copied(alloc), copied_labels(alloc, &self.labels))?;
        Ok(Places { order, labels })
    }

    /// How many there are.
    pub fn len(&self) -> usize
        ensures { result ≡ length self.now.labels }
    {
        self.labels.len()
    }

    /// The order of the labels.
    pub fn order(&self) -> &Order
        ensures { result.now.labels ≡ self.now.labels }
    {
        &self.order
    }

    /// The label at a place; None exactly past the end.
    pub fn get(&self, place: usize) -> Option<u64>
        ensures { result ≡ slice_get self.now.labels place }
    {
        match self.labels.get(place) {
            None => None,
            Some(label) => Some(*label),
        }
    }

    /// The label at a place that is there.
    pub fn label_at(&self, place: usize) -> u64
        requires { place < length self.now.labels }
        ensures there { Contains self.now.labels result }
        ensures place { place_in self.now.labels result ≡ place }
        ensures is { result ≡ slice_index self.now.labels place }
    {
        self.labels[place]
    }

    // Whether the label at the place of its number is this one. Labels are given from 0 on, so that each is where none came between
    // others.
    fn stands_there(&self, label: u64) -> bool
        ensures within { result ≡ true → label < length self.now.labels }
        ensures place { result ≡ true → place_in self.now.labels label ≡ label }
    {
        let at = label as usize;
        if at >= self.labels.len() {
            return false;
        }
        self.label_at(at) == label
    }

    /// Where a label stands: at the place of its number, or found by halves.
    pub fn place_of(&self, label: u64) -> usize
        requires { Contains self.now.labels label }
        ensures place { result ≡ place_in self.now.labels label }
        ensures within { result < length self.now.labels }
    {
        if self.stands_there(label) {
            return label as usize;
        }
        count_front(&self.labels, |other| is_before(&self.order, *other, label))
    }

    /// Makes room for an `insert` at a place.
    pub fn ready_insert(&mut self, place: usize) -> Result<(), NoMemory>
        ensures labels { self.new.labels ≡ self.old.labels }
        ensures ok { OnOk result (HasPlace place self.new) }
    {
        ready_label(&mut self.order, place, self.labels.len())?;
        self.labels.reserve(1)?;
        Ok(())
    }

    /// A new label at a place, before the one that stands there. There is room for it.
    pub fn insert(&mut self, place: usize) -> u64
        requires within { place ≤ length self.old.labels }
        requires few { length self.old.labels < 100000 }
        requires ready { HasPlace place self.old }
        ensures labels { self.new.labels ≡ insert self.old.labels place result }
        ensures is_new { IsNew result self.old.labels }
    {
        let label = new_label(&mut self.order, &self.labels, place);
        let _ = self.labels.insert(place, label);
        label
    }

    /// Takes so many of the first places out.
    pub fn forget_first(&mut self, n: usize)
        requires { n ≤ length self.old.labels }
        ensures { self.new.labels ≡ drop n self.old.labels }
    {
        self.order.forget_first(n as u64);
        drop_front(&mut self.labels, n);
    }
}
