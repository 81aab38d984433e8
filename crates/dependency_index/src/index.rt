// An index of reads: of each label where its reads looked, and of each key the labels that read it.
ghost use Rattle.std.specs.Prelude.{ℕ, List, ◌≡◌, ◌+◌, ◌<◌, ◌≤◌, ◌++◌, ◌∷◌, [], true, length, map, filter, IfOk, IsTrue, IsOk, OnOk, OnErr, vec_len, vec_capacity, if◌then◌else◌};
ghost use Rattle.std.specs.List.{All, Contains, list_any};
ghost use Rattle.std.specs.Option.{ForSome};
ghost use Rattle.lang_lists.specs.Room.{is_made, spend};
ghost use Rattle.lang_core.specs.Places.{IsOrdered};
ghost use Rattle.key_labels.specs.Labels.{is_other};
ghost use Rattle.key_labels.specs.Rows.{row_place};
ghost use Rattle.dependency_index.specs.Index.{call_code, note_call, IsIndexed};
ghost use Rattle.dependency_index.specs.Numbers.{Rises, with_numbers};
ghost use Rattle.dependency_index.specs.Reads.{read_at, is_at, is_between, label_of, readers, scanners, noted_behind, with_noted};
ghost use Rattle.dependency_index.specs.Rows.{AreOrdered, labels_by, spare_by, under};
ghost use Rattle.dependency_index.specs.declared.reads.ReadKind.{ReadKind};

use crate::noted::{Noted, has_noted, set_noted};
use crate::numbers::{put_number, seek_number};
use crate::prune::prune_rows;
use crate::reads::ReadsAt;
use crate::room::{IndexCall, ready_reads, take_reads};
use crate::rows::{ReadRows, copied_reads, drop_labels, put_labels};
use key_labels::{KeyRows, Order, drop_before, labels_at, labels_in};
use lang_base::copied_items;
use lang_core::{NoMemory, Reads, Seq, Text};
use std::alloc::Global;
use std::marker::Model;

/// Labels, as a list.
pub type Labels = Seq<u64>;

/// Where the reads of each label looked, which contracts see as a list in the order of the labels' numbers, and the room
/// that was made for calls to come.
pub struct Index {
    alloc: Global,
    noted: Vec<Noted>,
    rows: ReadRows,
    room: Vec<IndexCall>,
}

impl Drop for Index {
    fn drop(self) {
        let Self {
            alloc: _,
            noted: _,
            rows: _,
            room: _,
        } = self;
    }
}

impl Model for Index {
    ghost use Rattle.std.specs.Prelude.{◌+◌, ◌≤◌, vec_len, vec_capacity};
    ghost use Rattle.dependency_index.specs.Index.{KeptIndex, IsIndexed, IsCovered};

    ghost Value = { KeptIndex };

    ghost view = { λ i. record { reads = i.noted.items; room = i.room.items } };

    ghost invariant = { λ i. IsIndexed i.noted.items i.rows
        × (vec_len i.noted + vec_len i.room ≤ vec_capacity i.noted)
        × IsCovered i.room.items i.rows };
}

// Takes a label out of all rows.
fn drop_noted(noted: &[Noted], rows: &mut ReadRows, label: u64)
    requires { IsIndexed noted.now rows.old }
    ensures ordered { AreOrdered rows.new }
    ensures each { (kind : ReadKind) (t k : List ℕ) → labels_by rows.new kind t k ≡ filter (is_other label) (labels_by rows.old kind t k) }
    ensures spare { (kind : ReadKind) (t k : List ℕ) → spare_by rows.old kind t k ≤ spare_by rows.new kind t k }
{
    let (at, taken) = seek_number(noted, label);
    if taken {
        drop_labels(rows, noted[at].reads.as_slice(), label);
    }
}

// Notes a label's reads in place of those that it had. A label that reads the same again, as most do when they run again,
// leaves the rows of its keys as they are: to take it out of a row and put it back is a walk over all that read the key.
fn note(noted: &mut Vec<Noted>, rows: &mut ReadRows, own: Noted)
    requires indexed { IsIndexed noted.old.items rows.old }
    requires room { vec_len noted.old < vec_capacity noted.old }
    requires spare { (kind : ReadKind) (t k : List ℕ) → list_any (is_at kind t k) own.reads ≡ true → 0 < spare_by rows.old kind t k }
    ensures noted { noted.new.items ≡ with_noted own noted.old.items }
    ensures indexed { IsIndexed noted.new.items rows.new }
    ensures spare { (kind : ReadKind) (t k : List ℕ) → spare_by rows.old kind t k
        ≤ spare_by rows.new kind t k + (if list_any (is_at kind t k) own.reads then 1 else 0) }
    ensures len { vec_len noted.new ≤ vec_len noted.old + 1 }
    ensures capacity { vec_capacity noted.old ≤ vec_capacity noted.new }
{
    if has_noted(noted, &own) {
        return;
    }
    drop_noted(noted, rows, own.label);
    put_labels(rows, own.reads.as_slice(), own.label);
    set_noted(noted, own);
}

// Takes what was noted of the labels before one out, or of all labels where there is none.
fn forget(order: &Order, noted: &mut Vec<Noted>, rows: &mut ReadRows, end: Option<u64>)
    requires indexed { IsIndexed noted.old.items rows.old }
    requires known { All (Contains order.now.labels) (map label_of noted.old.items) }
    requires end { ForSome end (Contains order.now.labels) }
    ensures noted { noted.new.items ≡ noted_behind order.now.labels end noted.old.items }
    ensures indexed { IsIndexed noted.new.items rows.new }
    ensures spare { (kind : ReadKind) (t k : List ℕ) → spare_by rows.old kind t k ≤ spare_by rows.new kind t k }
    ensures len { vec_len noted.new ≤ vec_len noted.old }
    ensures capacity { vec_capacity noted.new ≡ vec_capacity noted.old }
{
    prune_rows(order, rows, noted, end);
    drop_before(order, noted, end);
}

fn is_between(order: &Order, label: u64, from: u64, to: Option<u64>) -> bool
    requires label { Contains order.now.labels label }
    requires from { Contains order.now.labels from }
    requires to { ForSome to (Contains order.now.labels) }
    ensures { result ≡ is_between order.now.labels from to label }
{
    if !order.compare(from, label).is_lt() {
        return false;
    }
    match to {
        None => true,
        Some(to) => order.compare(label, to).is_lt(),
    }
}

fn push_if(list: &mut Labels, label: u64, wanted: bool) -> Result<(), NoMemory>
    ensures { OnOk result (list.new ≡ list.old ++ (if wanted then label ∷ [] else [])) }
{
    if wanted { list.push(label) } else { Ok(()) }
}

// Those of these labels that stand between two.
fn labels_between(
    alloc: Global,
    order: &Order,
    labels: &[u64],
    from: u64,
    to: Option<u64>,
) -> Result<Labels, NoMemory>
    requires labels { All (Contains order.now.labels) labels.now }
    requires from { Contains order.now.labels from }
    requires to { ForSome to (Contains order.now.labels) }
    ensures { IfOk result (λ kept. kept ≡ filter (is_between order.now.labels from to) labels.now) }
{
    let mut kept = Seq::new(alloc);
    for label in labels {
        push_if(&mut kept, *label, is_between(order, *label, from, to))?;
    }
    Ok(kept)
}

fn put_all(found: &mut Vec<u64>, labels: &[u64]) -> Result<(), NoMemory>
    requires { Rises found.old.items }
    ensures rising { Rises found.new.items }
    ensures ok { OnOk result (found.new.items ≡ with_numbers labels.now found.old.items) }
{
    for label in labels {
        put_number(found, *label)?;
    }
    Ok(())
}

// The labels in the rows of all prefixes of a key.
fn labels_under(
    alloc: Global,
    rows: &KeyRows,
    table: &Text,
    key: &[u8],
) -> Result<Vec<u64>, NoMemory>
    requires { IsOrdered row_place rows.now.items }
    ensures { IfOk result (λ found. found.items ≡ under rows.now.items table.now key.now (length key.now + 1)) }
{
    let mut found = Vec::new(alloc);
    for end in 0..=key.len() {
        put_all(&mut found, labels_at(rows, table, &key[..end]))?;
    }
    Ok(found)
}

fn listed(alloc: Global, labels: &[u64]) -> Result<Labels, NoMemory>
    ensures { IfOk result (λ list. list ≡ labels.now) }
{
    let mut list = Seq::new(alloc);
    for label in labels {
        list.push(*label)?;
    }
    Ok(list)
}

impl Index {
    /// An index without labels.
    pub fn new(alloc: Global) -> Index
        ensures reads { result.reads ≡ [] }
        ensures room { result.room ≡ [] }
    {
        Index {
            alloc,
            noted: Vec::new(alloc),
            rows: ReadRows {
                keys: KeyRows::new(alloc),
                scans: KeyRows::new(alloc),
                near: 0,
            },
            room: Vec::new(alloc),
        }
    }

    /// An index with the same reads noted, without room.
    pub fn copied(&self, alloc: Global) -> Result<Index, NoMemory>
        ensures reads { IfOk result (λ copy. copy.reads ≡ self.now.reads) }
        ensures room { IfOk result (λ copy. copy.room ≡ []) }
    {
        let noted = copied_items(alloc, &self.noted)?;
        let rows = copied_reads(alloc, &self.rows)?;
        Ok(Index {
            alloc,
            noted,
            rows,
            room: Vec::new(alloc),
        })
    }

    /// Notes where a label's reads looked, in place of those that it had. Refused, nothing changes.
    pub fn note_reads(&mut self, alloc: Global, label: u64, reads: &Reads) -> Result<(), NoMemory>
        ensures ok { OnOk result (self.new.reads ≡ with_noted (record { label = label; reads = map read_at reads.now }) self.old.reads) }
        ensures known { OnOk result ((order : List ℕ) → All (Contains order) (map label_of self.old.reads) → Contains order label
            → All (Contains order) (map label_of self.new.reads)) }
        ensures err { OnErr result (self.new.reads ≡ self.old.reads) }
        ensures room { self.new.room ≡ spend call_code (note_call reads.now) self.old.room }
        ensures ready { IsTrue (is_made call_code (note_call reads.now) self.old.room) → IsOk result }
    {
        let reads = take_reads(
            alloc,
            &mut self.noted,
            &mut self.rows,
            &mut self.room,
            reads,
        )?;
        note(&mut self.noted, &mut self.rows, Noted { label, reads });
        Ok(())
    }

    /// Makes room for a `note_reads` of reads that look here, of whichever label.
    pub fn ready_note_reads(&mut self, alloc: Global, reads: &Reads) -> Result<(), NoMemory>
        ensures reads { self.new.reads ≡ self.old.reads }
        ensures ok { OnOk result (self.new.room ≡ self.old.room ++ note_call reads.now ∷ []) }
        ensures err { OnErr result (self.new.room ≡ self.old.room) }
    {
        ready_reads(
            alloc,
            &mut self.noted,
            &mut self.rows,
            &mut self.room,
            reads,
        )
    }

    /// Takes out what was noted of the labels before one, or of all labels where there is none: in one pass over all labels, and
    /// one over each row that has a label of these, however many these are.
    pub fn forget_before(&mut self, order: &Order, end: Option<u64>)
        requires labels { All (Contains order.now.labels) (map label_of self.old.reads) }
        requires end { ForSome end (Contains order.now.labels) }
        ensures reads { self.new.reads ≡ noted_behind order.now.labels end self.old.reads }
        ensures room { self.new.room ≡ self.old.room }
    {
        forget(order, &mut self.noted, &mut self.rows, end);
    }

    /// The labels after one and before another, or before the end where there is none, that read the key.
    pub fn readers_between(
        &self,
        alloc: Global,
        order: &Order,
        table: &Text,
        key: &Text,
        from: u64,
        to: Option<u64>,
    ) -> Result<Labels, NoMemory>
        requires labels { All (Contains order.now.labels) (map label_of self.now.reads) }
        requires from { Contains order.now.labels from }
        requires to { ForSome to (Contains order.now.labels) }
        ensures { IfOk result (λ labels. labels ≡ filter (is_between order.now.labels from to) (readers table.now key.now self.now.reads)) }
    {
        let labels = labels_in(&self.rows.keys, table, key);
        labels_between(alloc, order, labels, from, to)
    }

    /// The labels with a scan whose prefix begins the key.
    pub fn scanners(&self, alloc: Global, table: &Text, key: &Text) -> Result<Labels, NoMemory>
        ensures { IfOk result (λ labels. labels ≡ scanners table.now key.now self.now.reads) }
    {
        let found = labels_under(alloc, &self.rows.scans, table, key.as_bytes())?;
        listed(alloc, &found)
    }
}
