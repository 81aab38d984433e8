// A log, and its repair.
ghost use Rattle.std.specs.Prelude.{ℕ, ◌≡◌, ◌↔◌, ◌+◌, ◌<◌, ◌≤◌, ◌&&◌, not, nat_lt, [], ◌∷◌, ◌++◌, All, Err, Ok, IfOk, IsSome, OnOk, OnErr, MatchOption, drop, filter_map, insert, length, map, take, slice_set, slice_index_or, find, is_some};
ghost use Rattle.request_log.specs.Entries.{asking, changed, corrected, has_id, mark, AreReplaced, IsNew, IsKnown, with_entry};
ghost use Rattle.request_log.specs.Folded.{folded_as, whole};
ghost use Rattle.log_index.specs.HandedOn.{read_at};
ghost use Rattle.log_index.specs.Marks.{is_marked, IsReadyToSet as IsReadyToMark};
ghost use Rattle.log_index.specs.Rows.{rows_before, IsReadyToSet};
ghost use Rattle.local_repair.specs.Corrections.{AreStaleAfter};
ghost use Rattle.local_repair.specs.Current.{AllCurrent, AreChecked, AllRuns, rows_after, writes_of};
ghost use Rattle.local_repair.specs.Held.{all_looked, IsIdMarked, IsKept, IsMarkedBehind, IsMarkedFrom};
ghost use Rattle.local_repair.specs.Written.{all_written, rows_seen};
ghost use Rattle.request_log.specs.declared.entry.Entry.{Entry};
ghost use Rattle.local_repair.specs.Repairs.{IsAmended, IsFolded, IsStaleId, stale_id};
ghost use Rattle.local_repair.specs.Settling.{HasItsSlots, HasSlotsOnce, CanSettle, IsAgain, noted};
ghost use Rattle.local_repair.specs.Steps.{AreApart, StepsTo, raised_if};

use crate::correcting::correct_parts;
use crate::current::place_of_stale;
use crate::remaking::{Rerun, remake};
use crate::slots::Slots;
use crate::stepped::Stepped;
use crate::view::RowsBefore;
use crate::written::{insert_entry, may_call};
use lang_base::both;
use lang_core::{Cells, Copied, NoMemory, Request, Setting, Shared};
use log_index::{EntryMarks, EntryRows};
use request_log::{Deployed, Entry, KeptEntry, Log, LogFull};
use std::alloc::Global;
use std::marker::Model;

/// A log that is repaired a step at a time.
pub struct Repairer {
    alloc: Global,
    log: Log,
    // What the log's entries wrote, and the rows that its folded entries left.
    rows: EntryRows,
    // Where they looked, and which of them may be stale by something else than the answer of a call. All others were
    // current when they last ran or were tested, and nothing that they read has changed since.
    marks: EntryMarks,
    // Whether some entry may have calls.
    calls: bool,
}

impl Drop for Repairer {
    fn drop(self) {
        let Self {
            alloc: _,
            log: _,
            rows: _,
            marks: _,
            calls: _,
        } = self;
    }
}

impl Model for Repairer {
    ghost use Rattle.local_repair.specs.Codes.{repairer_code};
    ghost use Rattle.local_repair.specs.Held.{IsKept};
    ghost use Rattle.local_repair.specs.Repairs.{KeptRepairer};

    ghost Value = { KeptRepairer };

    ghost coded = { repairer_code };

    ghost view = { λ repairer. record {
      folded = repairer.log.folded;
      base = repairer.rows.base;
      entries = repairer.log.entries;
    } };

    ghost invariant = { λ repairer. IsKept repairer.rows.base repairer.log.entries repairer.rows.writes repairer.marks repairer.calls };
}

fn raised_if(raise: bool, n: u64) -> u64
    ensures { result ≡ raised_if raise n }
{
    if raise { n.saturating_add(1) } else { n }
}

// Runs the entry at a place again on the rows before it, marks what looks at what that changes, makes room for what it
// wrote and for where it looked, and settles its calls. Refused, the registers stay.
fn remake_at<S: Slots>(
    alloc: Global,
    setting: &Setting,
    entries: &[KeptEntry],
    rows: &mut EntryRows,
    marks: &mut EntryMarks,
    place: usize,
    slots: &mut S,
) -> Result<Rerun, NoMemory>
    requires within { place < length entries.now }
    requires own { All HasItsSlots entries.now }
    requires once { All HasSlotsOnce entries.now }
    requires can { All (CanSettle (S.can_settle slots.old) setting.now) entries.now }
    requires tied { rows.old.writes ≡ all_written entries.now }
    requires looked { marks.old.reads ≡ all_looked entries.now }
    ensures ok { IfOk result (λ again. (d : Entry) → IsAgain setting.now
        (record {
          before = S.consumed_of slots.old;
          after = S.consumed_of slots.new;
          last = S.last_of slots.old;
          later = S.last_of slots.new;
          timely = S.is_timely slots.old;
          settles = S.settles slots.old slots.new;
        })
        (rows_after rows.old.base (take place entries.now)) (slice_index_or entries.now place d) again) }
    ensures base { rows.new.base ≡ rows.old.base }
    ensures writes { rows.new.writes ≡ rows.old.writes }
    ensures ready { IfOk result (λ again. IsReadyToSet again.made.trace.writes rows.new) }
    ensures ready_marks { IfOk result (λ again. IsReadyToMark again.made.trace.reads marks.new) }
    ensures marked { IfOk result (λ again. (d : Entry) → IsMarkedBehind place (writes_of (slice_index_or entries.now place d).made) again.made.trace.writes marks.old marks.new) }
    ensures stays { OnErr result (IsMarkedFrom (place + 1) [] marks.old marks.new) }
    ensures timely { S.is_timely slots.old → S.is_timely slots.new }
    ensures err { OnErr result (slots.new ≡ slots.old) }
{
    remake(
        alloc,
        setting,
        rows,
        marks,
        entries[place].entry(),
        place,
        slots,
    )
}

// Notes what came of running the entry at a place again. There is room for what it wrote and for where it looked. No entry
// up to it is marked any more.
fn note(
    alloc: Global,
    log: &mut Log,
    rows: &mut EntryRows,
    marks: &mut EntryMarks,
    place: usize,
    again: Rerun,
) -> Stepped
    requires within { place < length log.old.entries }
    requires few { length log.old.entries ≤ 100000 }
    requires within_marks { place < length marks.old.reads }
    requires tied { rows.old.writes ≡ all_written log.old.entries }
    requires ready { IsReadyToSet again.made.trace.writes rows.old }
    requires ready_marks { IsReadyToMark again.made.trace.reads marks.old }
    ensures stepped { (d : Entry) → result ≡ Stepped.Ran (slice_index_or log.old.entries place d).id again.answered }
    ensures entries { (d : Entry) → log.new.entries ≡ slice_set log.old.entries place (noted again (slice_index_or log.old.entries place d)) }
    ensures folded { log.new.folded ≡ log.old.folded }
    ensures base { rows.new.base ≡ rows.old.base }
    ensures tied { rows.new.writes ≡ all_written log.new.entries }
    ensures reads { marks.new.reads ≡ slice_set marks.old.reads place (map read_at again.made.trace.reads) }
    ensures marks { (q : ℕ) → is_marked q marks.new.marks ≡ (not (nat_lt q (place + 1)) && is_marked q marks.old.marks) }
{
    rows.set(alloc, place, &again.made.trace.writes);
    marks.set(alloc, place, &again.made.trace.reads);
    marks.clear_before(place + 1);
    note_run(log, place, again)
}

fn note_run(log: &mut Log, place: usize, again: Rerun) -> Stepped
    requires { place < length log.old.entries }
    ensures stepped { (d : Entry) → result ≡ Stepped.Ran (slice_index_or log.old.entries place d).id again.answered }
    ensures entries { (d : Entry) → log.new.entries ≡ slice_set log.old.entries place (noted again (slice_index_or log.old.entries place d)) }
    ensures folded { log.new.folded ≡ log.old.folded }
{
    let Rerun {
        made,
        numbers,
        answered,
    } = again;
    let entry = log.as_slice()[place].entry();
    let id = entry.id;
    let answer_version = raised_if(answered, entry.answer_version);
    let runs = entry.runs.saturating_add(1);
    log.note_run(place as u64, made, numbers, answer_version, runs);
    Stepped::Ran { id, answered }
}

// Marks the entry of a number, if there is one.
fn mark_id(log: &Log, marks: &mut EntryMarks, id: u64)
    requires { length log.now.entries ≡ length marks.old.reads }
    ensures { IsIdMarked id log.now.entries marks.old marks.new }
{
    // Asked for what it promises alone: no number stands twice.
    let _entries = log.as_slice();
    match log.place_of(id) {
        None => {}
        Some(place) => marks.mark(place as usize),
    }
}

// Puts an entry in place of the one of its number.
fn replace(log: &mut Log, entry: Entry)
    requires { IsKnown entry log.old.entries }
    ensures entries { log.new.entries ≡ with_entry entry log.old.entries }
    ensures folded { log.new.folded ≡ log.old.folded }
{
    let _old = log.put(entry);
}

// Folds so many of the first entries of a log. Refused, all stay.
fn fold_parts(
    alloc: Global,
    log: &mut Log,
    rows: &mut EntryRows,
    marks: &mut EntryMarks,
    n: u64,
) -> Result<(), NoMemory>
    requires within { n ≤ length log.old.entries }
    requires ran { All (λ (e : Entry). IsSome e.made) (take n log.old.entries) }
    requires tied { rows.old.writes ≡ all_written log.old.entries }
    requires looked { marks.old.reads ≡ all_looked log.old.entries }
    ensures entries { OnOk result (log.new.entries ≡ drop n log.old.entries) }
    ensures folded { OnOk result (log.new.folded ≡ log.old.folded ++ filter_map folded_as (take n log.old.entries)) }
    ensures base { OnOk result (rows.new.base ≡ rows_before n rows.old) }
    ensures writes { OnOk result (rows.new.writes ≡ drop n rows.old.writes) }
    ensures reads { OnOk result (marks.new.reads ≡ drop n marks.old.reads) }
    ensures marks { OnOk result ((q : ℕ) → is_marked q marks.new.marks ≡ is_marked (n + q) marks.old.marks) }
    ensures err { OnErr result (log.new ≡ log.old) }
    ensures err_rows { OnErr result (rows.new ≡ rows.old) }
    ensures err_marks { OnErr result (marks.new ≡ marks.old) }
{
    let count = n as usize;
    let texts = rows.first_texts(alloc, count)?;
    log.fold(alloc, n)?;
    rows.fold(count, texts);
    marks.fold(count);
    Ok(())
}

impl Repairer {
    /// A repairer of an empty log.
    pub fn new(alloc: Global) -> Repairer
        ensures folded { result.folded ≡ [] }
        ensures base { result.base ≡ [] }
        ensures entries { result.entries ≡ [] }
    {
        Repairer {
            alloc,
            log: Log::new(alloc),
            rows: EntryRows::new(alloc),
            marks: EntryMarks::new(alloc),
            calls: false,
        }
    }

    /// The log.
    pub fn log(&self) -> &Log
        ensures entries { result.now.entries ≡ self.now.entries }
        ensures folded { result.now.folded ≡ self.now.folded }
    {
        &self.log
    }

    /// The rows after the log's entries.
    pub fn rows(&self, alloc: Global) -> Result<Cells, NoMemory>
        ensures { IfOk result (λ rows. rows ≡ rows_after self.now.base self.now.entries) }
    {
        self.rows.rows_before(alloc, self.log.as_slice().len())
    }

    /// The rows after the log's entries, as a run reads them.
    pub fn end(&self) -> RowsBefore<'_>
        ensures { rows_seen result ≡ rows_after self.now.base self.now.entries }
    {
        RowsBefore {
            rows: &self.rows,
            place: self.log.as_slice().len(),
        }
    }

    fn insert_at(&mut self, at: u64, entry: KeptEntry) -> Result<(), LogFull>
        requires within { at ≤ length self.old.entries }
        requires is_new { IsNew entry (whole self.old.folded self.old.entries) }
        ensures ok { OnOk result (self.new.entries ≡ insert self.old.entries at entry) }
        ensures folded { self.new.folded ≡ self.old.folded }
        ensures base { self.new.base ≡ self.old.base }
        ensures full { (result ≡ Err LogFull.Full) ↔ (length self.old.entries ≡ 100000) }
        ensures err { OnErr result (self.new ≡ self.old) }
    {
        insert_entry(
            self.alloc,
            &mut self.log,
            &mut self.rows,
            &mut self.marks,
            at,
            entry,
            &mut self.calls,
        )
    }

    /// Puts an entry last. Refused, it is dropped and the log stays.
    pub fn append(&mut self, entry: KeptEntry) -> Result<(), LogFull>
        requires { IsNew entry (whole self.old.folded self.old.entries) }
        ensures ok { OnOk result (self.new.entries ≡ self.old.entries ++ entry ∷ []) }
        ensures folded { self.new.folded ≡ self.old.folded }
        ensures base { self.new.base ≡ self.old.base }
        ensures full { (result ≡ Err LogFull.Full) ↔ (length self.old.entries ≡ 100000) }
        ensures err { OnErr result (self.new ≡ self.old) }
    {
        let end = self.log.len();
        self.insert_at(end, entry)
    }

    /// Puts an entry at a place, counted from 0, before what stands there. Refused, it is dropped and the log stays.
    pub fn insert(&mut self, at: u64, entry: KeptEntry) -> Result<(), LogFull>
        requires within { at ≤ length self.old.entries }
        requires is_new { IsNew entry (whole self.old.folded self.old.entries) }
        ensures ok { OnOk result (self.new.entries ≡ insert self.old.entries at entry) }
        ensures folded { self.new.folded ≡ self.old.folded }
        ensures base { self.new.base ≡ self.old.base }
        ensures full { (result ≡ Err LogFull.Full) ↔ (length self.old.entries ≡ 100000) }
        ensures err { OnErr result (self.new ≡ self.old) }
    {
        self.insert_at(at, entry)
    }

    /// Puts an entry in place of the one of its number, of which it differs in its version, its request, and whether
    /// it is wanted and struck, at most.
    pub fn amend(&mut self, entry: Entry)
        requires { IsAmended entry self.old.entries }
        ensures entries { self.new.entries ≡ with_entry entry self.old.entries }
        ensures folded { self.new.folded ≡ self.old.folded }
        ensures base { self.new.base ≡ self.old.base }
    {
        mark_id(&self.log, &mut self.marks, entry.id);
        replace(&mut self.log, entry);
    }

    /// Sets whether the entry of a number is struck; false exactly where there is none.
    pub fn set_struck(&mut self, id: u64, struck: bool) -> bool
        ensures entries { self.new.entries ≡ changed id (mark struck) self.old.entries }
        ensures folded { self.new.folded ≡ self.old.folded }
        ensures base { self.new.base ≡ self.old.base }
        ensures there { result ≡ is_some (find (has_id id) self.old.entries) }
    {
        mark_id(&self.log, &mut self.marks, id);
        self.log.set_struck(id, struck)
    }

    /// Gives the entry of a number another request; false exactly where there is none. Where the request is the
    /// entry's own with another method, path and body, the entry is replaced as an order says.
    pub fn rewrite(&mut self, id: u64, request: Shared<Request>) -> bool
        ensures entries { self.new.entries ≡ changed id (asking request) self.old.entries }
        ensures replaced { AreReplaced id request self.old.entries self.new.entries }
        ensures folded { self.new.folded ≡ self.old.folded }
        ensures base { self.new.base ≡ self.old.base }
        ensures there { result ≡ is_some (find (has_id id) self.old.entries) }
    {
        mark_id(&self.log, &mut self.marks, id);
        self.log.rewrite(id, request)
    }

    /// Puts a program in place of that of a number, for each entry that has it. Exactly those entries are stale then whose
    /// record's handler isn't theirs now, and those that another cause makes stale, as it did before. Nothing runs. Refused,
    /// nothing changes. It costs with the number of entries.
    pub fn correct(
        &mut self,
        alloc: Global,
        number: u64,
        program: &Shared<Deployed>,
    ) -> Result<(), NoMemory>
        ensures entries { OnOk result (self.new.entries ≡ map (corrected number program.now) self.old.entries) }
        ensures folded { self.new.folded ≡ self.old.folded }
        ensures base { self.new.base ≡ self.old.base }
        ensures stale { OnOk result (AreStaleAfter number program.now self.old.base self.old.entries self.new.entries) }
        ensures err { OnErr result (self.new ≡ self.old) }
    {
        correct_parts(alloc, &mut self.log, &mut self.marks, number, program)?;
        Ok(())
    }

    /// The number of the first stale entry, where so many of the first entries are known to be current; None exactly where no
    /// entry is stale.
    pub fn first_stale<S: Slots>(&self, slots: &S, checked: usize) -> Option<u64>
        requires { AreChecked (S.consumed_of slots.now) self.now.base self.now.entries checked }
        ensures first { MatchOption result
            (AllCurrent (S.consumed_of slots.now) self.now.base self.now.entries)
            (λ id. IsStaleId (S.consumed_of slots.now) self.now.base self.now.entries id) }
        ensures test { result ≡ stale_id (S.consumed_of slots.now) self.now.base self.now.entries }
    {
        let entries = self.log.as_slice();
        match place_of_stale(&self.rows, &self.marks, self.calls, entries, checked, slots) {
            None => None,
            Some(place) => Some(entries[place].entry().id),
        }
    }

    /// Runs the first stale entry again on the rows before it, and settles its calls. Where none is stale the answer is
    /// Idle, which takes no memory. Refused, nothing changes. So many of the first entries are known to be current; how many
    /// are it afterwards is noted, so that the next step doesn't look at them again.
    pub fn step<S: Slots>(
        &mut self,
        alloc: Global,
        setting: &Setting,
        slots: &mut S,
        checked: &mut usize,
    ) -> Result<Stepped, NoMemory>
        requires runs { AllRuns setting.now self.old.entries }
        requires apart { AreApart (S.last_of slots.old) self.old.entries }
        requires own { All HasItsSlots self.old.entries }
        requires can { All (CanSettle (S.can_settle slots.old) setting.now) self.old.entries }
        requires checked { AreChecked (S.consumed_of slots.old) self.old.base self.old.entries checked.old }
        ensures folded { self.new.folded ≡ self.old.folded }
        ensures base { self.new.base ≡ self.old.base }
        ensures checked { AreChecked (S.consumed_of slots.new) self.old.base self.new.entries checked.new }
        ensures runs { AllRuns setting.now self.new.entries }
        ensures apart { AreApart (S.last_of slots.new) self.new.entries }
        ensures own { All HasItsSlots self.new.entries }
        ensures steps { IfOk result (λ stepped. StepsTo setting.now
            (record {
              before = S.consumed_of slots.old;
              after = S.consumed_of slots.new;
              last = S.last_of slots.old;
              later = S.last_of slots.new;
              timely = S.is_timely slots.old;
              settles = S.settles slots.old slots.new;
            })
            self.old.base self.old.entries stepped self.new.entries) }
        ensures timely { S.is_timely slots.old → S.is_timely slots.new }
        ensures free { AllCurrent (S.consumed_of slots.old) self.old.base self.old.entries → result ≡ Ok Stepped.Idle }
        ensures idle { result ≡ Ok Stepped.Idle → (self.new ≡ self.old) × (slots.new ≡ slots.old) }
        ensures err { OnErr result ((self.new ≡ self.old) × (slots.new ≡ slots.old)) }
    {
        let entries = self.log.as_slice();
        let stale = place_of_stale(
            &self.rows,
            &self.marks,
            self.calls,
            entries,
            *checked,
            slots,
        );
        match stale {
            None => {
                self.marks.clear_before(entries.len());
                *checked = entries.len();
                Ok(Stepped::Idle)
            }
            Some(place) => {
                *checked = place;
                let again = remake_at(
                    alloc,
                    setting,
                    entries,
                    &mut self.rows,
                    &mut self.marks,
                    place,
                    slots,
                )?;
                self.calls = may_call(self.calls, &again.numbers);
                Ok(note(
                    alloc,
                    &mut self.log,
                    &mut self.rows,
                    &mut self.marks,
                    place,
                    again,
                ))
            }
        }
    }
}

impl Repairer {
    /// Folds so many of the first entries, each of which ran: nothing of them is repaired any more, the rows that they leave
    /// stand before all others, and what they read and wrote is gone. Refused, nothing changes. It costs with the number of
    /// entries and of what they wrote.
    pub fn fold(&mut self, alloc: Global, n: u64) -> Result<(), NoMemory>
        requires within { n ≤ length self.old.entries }
        requires ran { All (λ (e : Entry). IsSome e.made) (take n self.old.entries) }
        ensures ok { OnOk result (IsFolded n self.old self.new) }
        ensures rows { OnOk result ((place : ℕ) → rows_after self.new.base (take place self.new.entries) ≡ rows_after self.old.base (take (n + place) self.old.entries)) }
        ensures err { OnErr result (self.new ≡ self.old) }
    {
        fold_parts(alloc, &mut self.log, &mut self.rows, &mut self.marks, n)?;
        Ok(())
    }
}

impl Copied for Repairer {
    fn copied(&self, alloc: Global) -> Result<Repairer, NoMemory> {
        let indexes = both(self.rows.copied(alloc), self.marks.copied(alloc));
        let (log, indexes) = both(self.log.copied(alloc), indexes)?;
        Ok(Repairer {
            alloc,
            log,
            rows: indexes.0,
            marks: indexes.1,
            calls: self.calls,
        })
    }
}
