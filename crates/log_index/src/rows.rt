// What the entries of a log wrote, by their places.
ghost use Rattle.std.specs.Prelude.{ℕ, ◌≡◌, ◌↔◌, ◌+◌, ◌<◌, ◌≤◌, [], IsTrue, IfOk, OnOk, drop, length, insert, slice_set, take};
ghost use Rattle.std.specs.Option.{option_copied};
ghost use Rattle.lang_core.specs.Rows.{get, scan};
ghost use Rattle.log_index.specs.Rows.{rows_before, texts_of, IsReadyToInsert, IsReadyToSet};

use crate::labels::{label_at, new_label, ready_label};
use lang_base::both;
use lang_core::{Cells, NoMemory, SharedWrites, Text};
use place_order::Order;
use std::alloc::Global;
use std::collections::VecDeque;
use std::marker::Model;
use versioned_rows::Versions;

/// What each entry of a log wrote, which contracts see as a list by the places of the entries, the rows before all of them,
/// and the room that was made for calls to come. An entry that wrote nothing has its place too.
pub struct EntryRows {
    // One label for each entry.
    order: Order,
    versions: Versions,
}

impl Drop for EntryRows {
    fn drop(self) {
        let Self {
            order: _,
            versions: _,
        } = self;
    }
}

impl Model for EntryRows {
    ghost use Rattle.log_index.specs.Rows.{KeptWrites, IsPlaced, writes_of};

    ghost Value = { KeptWrites };

    ghost view = { λ r. record {
      base = r.versions.base;
      writes = writes_of r.versions.versions;
      places = r.order.room;
      copies = r.versions.room;
    } };

    ghost invariant = { λ r. IsPlaced r.order.labels r.versions.versions };
}

impl EntryRows {
    /// What no entries wrote, with no rows before them.
    pub fn new(alloc: Global) -> EntryRows
        ensures base { result.base ≡ [] }
        ensures writes { result.writes ≡ [] }
    {
        EntryRows {
            order: Order::new(alloc),
            versions: Versions::new(alloc),
        }
    }

    /// What the same entries wrote, with the same rows before them, without room.
    pub fn copied(&self, alloc: Global) -> Result<EntryRows, NoMemory>
        ensures base { IfOk result (λ copy. copy.base ≡ self.now.base) }
        ensures writes { IfOk result (λ copy. copy.writes ≡ self.now.writes) }
    {
        let (order, versions) = both(self.order.copied(alloc), self.versions.copied(alloc))?;
        Ok(EntryRows { order, versions })
    }

    /// The rows before the entry at a place, or those after all entries where it is past the end.
    pub fn rows_before(&self, alloc: Global, place: usize) -> Result<Cells, NoMemory>
        ensures { IfOk result (λ rows. rows ≡ rows_before place self.now) }
    {
        let label = label_at(self.versions.as_slice(), place);
        self.versions.rows_before(alloc, &self.order, label)
    }

    /// The text at a key of a table in the rows before the entry at a place, or in those after all entries where it is
    /// past the end; None exactly where those rows have no such key.
    pub fn text_before(&self, place: usize, table: &Text, key: &Text) -> Option<&Text>
        ensures { option_copied result ≡ get (rows_before place self.now) table.now key.now }
    {
        let label = label_at(self.versions.as_slice(), place);
        self.versions.get_before(&self.order, label, table, key)
    }

    /// The cells of a table under a prefix in the rows before the entry at a place, or in those after all entries where it
    /// is past the end: those that `row_scan` gives on these rows.
    pub fn scan_before(
        &self,
        alloc: Global,
        place: usize,
        table: &Text,
        prefix: &Text,
    ) -> Result<Cells, NoMemory>
        ensures { IfOk result (λ found. found ≡ scan (rows_before place self.now) table.now prefix.now) }
    {
        let label = label_at(self.versions.as_slice(), place);
        self.versions
            .scan_before(alloc, &self.order, label, table, prefix)
    }

    /// Whether these cells are what `scan_before` gives, told without memory.
    pub fn scan_is(&self, place: usize, table: &Text, prefix: &Text, found: &Cells) -> bool
        ensures { IsTrue result ↔ (scan (rows_before place self.now) table.now prefix.now ≡ found.now) }
    {
        let label = label_at(self.versions.as_slice(), place);
        self.versions
            .scan_is(&self.order, label, table, prefix, found)
    }

    /// Makes room for an `insert` of these writes at a place.
    pub fn ready_insert(
        &mut self,
        alloc: Global,
        place: usize,
        writes: &SharedWrites,
    ) -> Result<(), NoMemory>
        ensures base { self.new.base ≡ self.old.base }
        ensures writes { self.new.writes ≡ self.old.writes }
        ensures ok { OnOk result (IsReadyToInsert place writes.now self.new) }
    {
        let next = label_at(self.versions.as_slice(), place);
        ready_label(&mut self.order, next)?;
        self.versions.ready_write_at(alloc, writes)
    }

    /// Puts what an entry wrote at a place, before what stands there. There is room for it.
    pub fn insert(&mut self, alloc: Global, place: usize, writes: &SharedWrites)
        requires within { place ≤ length self.old.writes }
        requires few { length self.old.writes < 100000 }
        requires ready { IsReadyToInsert place writes.now self.old }
        ensures base { self.new.base ≡ self.old.base }
        ensures writes { self.new.writes ≡ insert self.old.writes place writes.now }
    {
        let next = label_at(self.versions.as_slice(), place);
        let label = new_label(&mut self.order, next);
        self.versions
            .write_at(alloc, &self.order, label, writes)
            .unwrap();
    }

    /// Makes room for a `set` of these writes, at whichever place.
    pub fn ready_set(&mut self, alloc: Global, writes: &SharedWrites) -> Result<(), NoMemory>
        ensures base { self.new.base ≡ self.old.base }
        ensures writes { self.new.writes ≡ self.old.writes }
        ensures ok { OnOk result (IsReadyToSet writes.now self.new) }
    {
        self.versions.ready_write_at(alloc, writes)
    }

    /// Puts these writes in place of what the entry at a place wrote. There is room for them.
    pub fn set(&mut self, alloc: Global, place: usize, writes: &SharedWrites)
        requires within { place < length self.old.writes }
        requires ready { IsReadyToSet writes.now self.old }
        ensures base { self.new.base ≡ self.old.base }
        ensures writes { self.new.writes ≡ slice_set self.old.writes place writes.now }
    {
        let label = self.versions.as_slice()[place].label;
        self.versions
            .write_at(alloc, &self.order, label, writes)
            .unwrap();
    }

    /// The texts that so many of the first entries wrote, one after the other, for a `fold` that takes no memory.
    pub fn first_texts(&self, alloc: Global, n: usize) -> Result<VecDeque<Option<Text>>, NoMemory>
        requires { n ≤ length self.now.writes }
        ensures { IfOk result (λ texts. texts.items ≡ texts_of (take n self.now.writes)) }
    {
        self.versions.first_texts(alloc, n)
    }

    /// Takes out what so many of the first entries wrote, whose texts are these: the rows that they left stand before all
    /// others then.
    pub fn fold(&mut self, n: usize, texts: VecDeque<Option<Text>>)
        requires within { n ≤ length self.old.writes }
        requires texts { texts.items ≡ texts_of (take n self.old.writes) }
        ensures base { self.new.base ≡ rows_before n self.old }
        ensures writes { self.new.writes ≡ drop n self.old.writes }
        ensures rows { (place : ℕ) → rows_before place self.new ≡ rows_before (n + place) self.old }
    {
        self.versions.fold_first(&self.order, n, texts);
        self.order.forget_first(n as u64);
    }
}
