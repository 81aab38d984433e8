// Which entries are stale, told without memory.
ghost use Rattle.std.specs.Prelude.{ℕ, ◌≡◌, ◌↔◌, ◌<◌, ◌≤◌, true, length, map, IsTrue, MatchOption};
ghost use Rattle.std.specs.List.{HoldsAt};
ghost use Rattle.std.specs.Option.{option_copied};
ghost use Rattle.execution.specs.HandedOn.{Gives, GivesAll};
ghost use Rattle.log_index.specs.Rows.{rows_before};
ghost use Rattle.log_index.specs.Marks.{AreMarks};
ghost use Rattle.local_repair.specs.Current.{AreChecked, IsCurrentRecord, IsCurrent, AllCurrent, IsFirstStale};
ghost use Rattle.local_repair.specs.Held.{AreCurrent, IsAnswered, IsFirstChanged, IsFirstMarked, IsHeld, IsHeldRecord, IsKept, IsOfNow};
ghost use Rattle.local_repair.specs.Written.{all_written};
ghost use Rattle.local_repair.specs.Parts.{IsOf};
ghost use Rattle.local_repair.specs.Steps.{answer_or_tentative, tentative};

use crate::programs::has_its_handler;
use crate::slots::Slots;
use lang_core::{Read, Response, Same, Text};
use log_index::{EntryMarks, EntryRows};
use request_log::{Entry, KeptEntry, Made};

fn is_text(now: Option<&Text>, found: &Option<Text>) -> bool
    ensures { IsTrue result ↔ (option_copied now.entry ≡ found.now) }
{
    match (now, found) {
        (None, None) => true,
        (Some(now), Some(found)) => now.is(found),
        _ => false,
    }
}

// Whether the rows before the entry at a place give what was read.
fn gives(rows: &EntryRows, place: usize, read: &Read) -> bool
    ensures { IsTrue result ↔ Gives (rows_before place rows.now) read.now }
{
    match read {
        Read::Key { table, key, found } => is_text(rows.text_before(place, table, key), found),
        Read::Scan {
            table,
            prefix,
            found,
        } => rows.scan_is(place, table, prefix, found),
    }
}

fn reads_hold(rows: &EntryRows, place: usize, reads: &[Read]) -> bool
    ensures { IsTrue result ↔ GivesAll (rows_before place rows.now) reads.now }
{
    for read in reads {
        if !gives(rows, place, read) {
            return false;
        }
    }
    true
}

fn is_tentative(answer: &Response) -> bool
    ensures { IsTrue result ↔ (answer.now ≡ tentative) }
{
    answer.status == 504 && answer.body.len() == 0
}

fn is_answer(answer: &Response, held: Option<&Response>) -> bool
    ensures { IsTrue result ↔ (answer.now ≡ answer_or_tentative (option_copied held.entry)) }
{
    match held {
        Some(held) => answer.is(held),
        None => is_tentative(answer),
    }
}

// Whether these are the answers that the slots consume now.
fn answers_hold<S: Slots>(slots: &S, numbers: &[u64], answers: &[Response]) -> bool
    ensures { IsTrue result ↔ (answers.now ≡ map (S.consumed_of slots.now) numbers.now) }
{
    if answers.len() != numbers.len() {
        return false;
    }
    for (i, number) in numbers.iter().enumerate() {
        if !is_answer(&answers[i], slots.consumed(*number)) {
            return false;
        }
    }
    true
}

// Whether a record is of the entry as it is now, with the answers of now.
fn is_of<S: Slots>(entry: &Entry, made: &Made, slots: &S) -> bool
    ensures { IsTrue result ↔ IsOf (S.consumed_of slots.now) entry.now made.now }
{
    made.alive == entry.is_alive()
        && made.version == entry.version
        && made.request.is(&entry.request)
        && answers_hold(slots, entry.slots.as_slice(), made.trace.answers.as_slice())
}

fn is_current_record<S: Slots>(
    rows: &EntryRows,
    place: usize,
    entry: &Entry,
    made: &Made,
    slots: &S,
) -> bool
    ensures { IsTrue result ↔ IsCurrentRecord (S.consumed_of slots.now) (rows_before place rows.now) entry.now made.now }
{
    is_of(entry, made, slots)
        && reads_hold(rows, place, made.trace.reads.as_slice())
        && has_its_handler(entry)
}

fn is_current<S: Slots>(rows: &EntryRows, place: usize, entry: &Entry, slots: &S) -> bool
    ensures { IsTrue result ↔ IsCurrent (S.consumed_of slots.now) (rows_before place rows.now) entry.now }
{
    match &entry.made {
        Some(made) => is_current_record(rows, place, entry, made, slots),
        None => false,
    }
}

// Whether a record is of the entry as it is now, with an answer for each of its slots.
fn is_of_now(entry: &Entry, made: &Made) -> bool
    ensures { IsTrue result ↔ IsOfNow entry.now made.now }
{
    made.alive == entry.is_alive()
        && made.version == entry.version
        && made.request.is(&entry.request)
        && made.trace.answers.len() == entry.slots.len()
}

fn is_held_record(rows: &EntryRows, place: usize, entry: &Entry, made: &Made) -> bool
    ensures { IsTrue result ↔ IsHeldRecord (rows_before place rows.now) entry.now made.now }
{
    is_of_now(entry, made)
        && reads_hold(rows, place, made.trace.reads.as_slice())
        && has_its_handler(entry)
}

/// Whether an entry that stands or is to stand at a place can be stale by an answer alone.
pub(crate) fn is_held(rows: &EntryRows, place: usize, entry: &Entry) -> bool
    ensures { IsTrue result ↔ IsHeld (rows_before place rows.now) entry.now }
{
    match &entry.made {
        Some(made) => is_held_record(rows, place, entry, made),
        None => false,
    }
}

// Whether an entry's record consumed what its slots consume now.
fn is_answered<S: Slots>(entry: &Entry, slots: &S) -> bool
    ensures { IsTrue result ↔ IsAnswered (S.consumed_of slots.now) entry.now }
{
    match &entry.made {
        Some(made) => { answers_hold(slots, entry.slots.as_slice(), made.trace.answers.as_slice()) }
        None => false,
    }
}

// The place of the first marked entry that is stale.
fn place_of_marked<S: Slots>(
    rows: &EntryRows,
    marks: &[u64],
    entries: &[KeptEntry],
    slots: &S,
) -> Option<usize>
    requires tied { rows.now.writes ≡ all_written entries.now }
    requires marks { AreMarks (length entries.now) marks.now }
    ensures { MatchOption result
        (AreCurrent (S.consumed_of slots.now) rows.now.base entries.now marks.now (length entries.now))
        (λ place. IsFirstMarked (S.consumed_of slots.now) rows.now.base entries.now marks.now place) }
{
    for mark in marks {
        let place = *mark as usize;
        if !is_current(rows, place, entries[place].entry(), slots) {
            return Some(place);
        }
    }
    None
}

// The place of the first entry, of so many, whose record consumed something else than its slots consume now. Where no
// entry has calls there is none, and no entry is looked at, nor is one of the first, which are known to have consumed that.
fn place_of_changed<S: Slots>(
    calls: bool,
    entries: &[KeptEntry],
    checked: usize,
    end: usize,
    slots: &S,
) -> Option<usize>
    requires within { end ≤ length entries.now }
    requires checked { (q : ℕ) → q < checked → HoldsAt (IsAnswered (S.consumed_of slots.now)) entries.now q }
    ensures { MatchOption result
        (calls ≡ true → (q : ℕ) → q < end → HoldsAt (IsAnswered (S.consumed_of slots.now)) entries.now q)
        (λ place. (place < end) × IsFirstChanged (S.consumed_of slots.now) entries.now place) }
{
    if !calls {
        return None;
    }
    for place in checked..end {
        if !is_answered(entries[place].entry(), slots) {
            return Some(place);
        }
    }
    None
}

fn end_of(marked: Option<usize>, count: usize) -> usize
    ensures { MatchOption marked (result ≡ count) (λ place. result ≡ place) }
{
    match marked {
        None => count,
        Some(place) => place,
    }
}

/// The place of the first stale entry of a log, counted from 0, of whose first entries so many are known to be current; None
/// exactly where no entry is stale. Only what is marked is tested on its rows; where an entry may have calls, what stands
/// before that and isn't known to be current is tested by its answers.
pub(crate) fn place_of_stale<S: Slots>(
    rows: &EntryRows,
    marks: &EntryMarks,
    calls: bool,
    entries: &[KeptEntry],
    checked: usize,
    slots: &S,
) -> Option<usize>
    requires kept { IsKept rows.now.base entries.now rows.now.writes marks.now calls }
    requires checked { AreChecked (S.consumed_of slots.now) rows.now.base entries.now checked }
    ensures { MatchOption result
        (AllCurrent (S.consumed_of slots.now) rows.now.base entries.now)
        (λ place. IsFirstStale (S.consumed_of slots.now) rows.now.base entries.now place) }
{
    let marked = place_of_marked(rows, marks.marks(), entries, slots);
    let end = end_of(marked, entries.len());
    match place_of_changed(calls, entries, checked, end, slots) {
        Some(place) => Some(place),
        None => marked,
    }
}
