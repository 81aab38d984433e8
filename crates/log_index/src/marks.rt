// Where the reads of entries looked, and which entries are marked.
ghost use Rattle.std.specs.Prelude.{ℕ, ◌≡◌, ◌+◌, ◌<◌, ◌≤◌, ◌&&◌, ◌||◌, not, nat_eq, nat_lt, [], drop, length, map, insert, slice_set, IsTrue, IfOk, OnOk, OnErr};
ghost use Rattle.dependency_index.specs.Reads.{read_at};
ghost use Rattle.log_index.specs.Marks.{changes, is_marked, lacking, sees_behind, AreMarks, IsReadyToInsert, IsReadyToSet};

use crate::behind::{mark_writes, write_one_key};
use crate::numbers::Marks;
use crate::places::Places;
use dependency_index::Index;
use lang_base::both;
use lang_core::{NoMemory, Reads, SharedWrites};
use std::alloc::Global;
use std::marker::Model;

/// Where the reads of each entry of a log looked, and which entries are marked, which contracts see by the places of the
/// entries, and the room that was made for calls to come.
///
/// A mark takes no memory: there is a place for the mark of each entry.
pub struct EntryMarks {
    places: Places,
    // The reads, by the labels of the places.
    index: Index,
    // The places that are marked.
    marks: Marks,
}

impl Drop for EntryMarks {
    fn drop(self) {
        let Self {
            places: _,
            index: _,
            marks: _,
        } = self;
    }
}

impl Model for EntryMarks {
    ghost use Rattle.std.specs.Prelude.{◌≤◌, length};
    ghost use Rattle.log_index.specs.Marks.{KeptMarks, IsNoted, reads_by};

    ghost Value = { KeptMarks };

    ghost view = { λ m. record {
      reads = reads_by m.index.reads m.places.labels;
      marks = m.marks.items;
      places = m.places;
      notes = m.index.room;
      spots = m.marks.spots;
    } };

    ghost invariant = { λ m. IsNoted m.places.labels m.index.reads m.marks.items
        × (length m.places.labels ≤ m.marks.spots) };
}

impl EntryMarks {
    /// Of no entries.
    pub fn new(alloc: Global) -> EntryMarks
        ensures reads { result.reads ≡ [] }
        ensures marks { result.marks ≡ [] }
    {
        EntryMarks {
            places: Places::new(alloc),
            index: Index::new(alloc),
            marks: Marks::new(alloc),
        }
    }

    /// Equal reads and marks, without room.
    pub fn copied(&self, alloc: Global) -> Result<EntryMarks, NoMemory>
        ensures reads { IfOk result (λ copy. copy.reads ≡ self.now.reads) }
        ensures marks { IfOk result (λ copy. copy.marks ≡ self.now.marks) }
    {
        let marks = self.marks.copied(alloc, self.places.len());
        let reads = both(self.places.copied(alloc), self.index.copied(alloc));
        let (marks, (places, index)) = both(marks, reads)?;
        Ok(EntryMarks {
            places,
            index,
            marks,
        })
    }

    /// The places of the marked entries, rising.
    pub fn marks(&self) -> &[u64]
        ensures is { result.now ≡ self.now.marks }
        ensures marks { AreMarks (length self.now.reads) result.now }
    {
        self.marks.as_slice()
    }

    /// Makes room for an `insert` of an entry with these reads at a place.
    pub fn ready_insert(
        &mut self,
        alloc: Global,
        place: usize,
        reads: &Reads,
    ) -> Result<(), NoMemory>
        ensures reads { self.new.reads ≡ self.old.reads }
        ensures marks { self.new.marks ≡ self.old.marks }
        ensures ok { OnOk result (IsReadyToInsert place reads.now self.new) }
    {
        self.marks.reserve(self.places.len())?;
        self.places.ready_insert(place)?;
        self.index.ready_note_reads(alloc, reads)
    }

    /// Puts an entry with these reads at a place, before what stands there, marked or not. There is room for it.
    pub fn insert(&mut self, alloc: Global, place: usize, reads: &Reads, marked: bool)
        requires within { place ≤ length self.old.reads }
        requires few { length self.old.reads < 100000 }
        requires ready { IsReadyToInsert place reads.now self.old }
        ensures reads { self.new.reads ≡ insert self.old.reads place (map read_at reads.now) }
        ensures here { is_marked place self.new.marks ≡ marked }
        ensures before { (q : ℕ) → q < place → is_marked q self.new.marks ≡ is_marked q self.old.marks }
        ensures behind { (q : ℕ) → place ≤ q → is_marked (q + 1) self.new.marks ≡ is_marked q self.old.marks }
    {
        let count = self.places.len();
        let label = self.places.insert(place);
        self.index.note_reads(alloc, label, reads).unwrap();
        self.marks.insert(place as u64, marked, count);
    }

    /// Makes room for a `set` of these reads, at whichever place.
    pub fn ready_set(&mut self, alloc: Global, reads: &Reads) -> Result<(), NoMemory>
        ensures reads { self.new.reads ≡ self.old.reads }
        ensures marks { self.new.marks ≡ self.old.marks }
        ensures ok { OnOk result (IsReadyToSet reads.now self.new) }
    {
        self.index.ready_note_reads(alloc, reads)
    }

    /// Puts these reads in place of those of the entry at a place. There is room for them.
    pub fn set(&mut self, alloc: Global, place: usize, reads: &Reads)
        requires within { place < length self.old.reads }
        requires ready { IsReadyToSet reads.now self.old }
        ensures reads { self.new.reads ≡ slice_set self.old.reads place (map read_at reads.now) }
        ensures marks { self.new.marks ≡ self.old.marks }
    {
        let label = self.places.label_at(place);
        self.index.note_reads(alloc, label, reads).unwrap();
    }

    /// Marks the entry at a place.
    pub fn mark(&mut self, place: usize)
        requires { place < length self.old.reads }
        ensures reads { self.new.reads ≡ self.old.reads }
        ensures marks { (q : ℕ) → is_marked q self.new.marks ≡ (nat_eq q place || is_marked q self.old.marks) }
    {
        self.marks.put(place as u64);
    }

    /// Takes the marks of all entries before a place away.
    pub fn clear_before(&mut self, place: usize)
        ensures reads { self.new.reads ≡ self.old.reads }
        ensures marks { (q : ℕ) → is_marked q self.new.marks ≡ (not (nat_lt q place) && is_marked q self.old.marks) }
    {
        self.marks.drop_below(place as u64);
    }

    /// Marks the entries behind a place that read the key of one of these writes, or scan under a prefix of it. Refused,
    /// some of them may be marked, and no mark is lost.
    pub fn mark_readers(
        &mut self,
        alloc: Global,
        place: usize,
        writes: &SharedWrites,
    ) -> Result<(), NoMemory>
        requires { place < length self.old.reads }
        ensures reads { self.new.reads ≡ self.old.reads }
        ensures ok { OnOk result ((q : ℕ) → is_marked q self.new.marks
            ≡ (is_marked q self.old.marks || sees_behind place writes.now self.old.reads q)) }
        ensures err { OnErr result ((q : ℕ) → IsTrue (is_marked q self.old.marks) → IsTrue (is_marked q self.new.marks)) }
    {
        let none = SharedWrites::new();
        self.mark_apart(alloc, place, writes, &none)
    }

    /// Marks the entries behind a place that read the key of a write that only one of the two lists has, or scan under a
    /// prefix of it. Refused, some of them may be marked, and no mark is lost.
    pub fn mark_changes(
        &mut self,
        alloc: Global,
        place: usize,
        old: &SharedWrites,
        new: &SharedWrites,
    ) -> Result<(), NoMemory>
        requires { place < length self.old.reads }
        ensures reads { self.new.reads ≡ self.old.reads }
        ensures ok { OnOk result ((q : ℕ) → is_marked q self.new.marks
            ≡ (is_marked q self.old.marks || sees_behind place (changes old.now new.now) self.old.reads q)) }
        ensures err { OnErr result ((q : ℕ) → IsTrue (is_marked q self.old.marks) → IsTrue (is_marked q self.new.marks)) }
    {
        self.mark_apart(alloc, place, old, new)?;
        if write_one_key(old.as_slice(), new.as_slice()) {
            return Ok(());
        }
        self.mark_apart(alloc, place, new, old)
    }

    /// Takes out where so many of the first entries looked, and their marks.
    pub fn fold(&mut self, n: usize)
        requires { n ≤ length self.old.reads }
        ensures reads { self.new.reads ≡ drop n self.old.reads }
        ensures marks { (q : ℕ) → is_marked q self.new.marks ≡ is_marked (n + q) self.old.marks }
    {
        let count = self.places.len();
        let end = self.places.get(n);
        self.index.forget_before(self.places.order(), end);
        self.places.forget_first(n);
        self.marks.fold(n as u64, count);
    }

    // Marks the entries behind a place that look at a cell of these writes, those apart that are among others.
    fn mark_apart(
        &mut self,
        alloc: Global,
        place: usize,
        writes: &SharedWrites,
        others: &SharedWrites,
    ) -> Result<(), NoMemory>
        requires { place < length self.old.reads }
        ensures reads { self.new.reads ≡ self.old.reads }
        ensures ok { OnOk result ((q : ℕ) → is_marked q self.new.marks
            ≡ (is_marked q self.old.marks || sees_behind place (lacking others.now writes.now) self.old.reads q)) }
        ensures err { OnErr result ((q : ℕ) → IsTrue (is_marked q self.old.marks) → IsTrue (is_marked q self.new.marks)) }
    {
        mark_writes(
            alloc,
            &self.places,
            &self.index,
            &mut self.marks,
            place,
            writes.as_slice(),
            others.as_slice(),
        )
    }
}
