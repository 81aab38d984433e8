// What an entry wrote and where it looked, put beside it.
ghost use Rattle.std.specs.Prelude.{◌≡◌, ◌↔◌, ◌<◌, ◌≤◌, [], false, Err, OnOk, OnErr, insert, length};
ghost use Rattle.request_log.specs.Entries.{IsNew};
ghost use Rattle.request_log.specs.Folded.{whole};
ghost use Rattle.log_index.specs.Marks.{IsReadyToInsert as IsReadyToMark};
ghost use Rattle.log_index.specs.Rows.{rows_before, IsReadyToInsert};
ghost use Rattle.local_repair.specs.Current.{writes_of};
ghost use Rattle.local_repair.specs.Held.{reads_of, IsKept, IsMarkedFrom, IsPutAt};
ghost use Rattle.local_repair.specs.Written.{all_written};

use crate::current::is_held;
use lang_core::{NoMemory, Reads, SharedWrites, ThinSeq};
use log_index::{EntryMarks, EntryRows};
use request_log::{Entry, KeptEntry, Log, LogFull, MOST_ENTRIES, Numbers};
use std::alloc::Global;

/// The writes of an entry's record, or none of these.
pub(crate) fn writes_of<'a>(entry: &'a Entry, none: &'a SharedWrites) -> &'a SharedWrites
    requires { none.now ≡ [] }
    ensures { result.now ≡ writes_of entry.now.made }
{
    match &entry.made {
        Some(made) => &made.trace.writes,
        None => none,
    }
}

// The reads of an entry's record, or none of these.
fn reads_of<'a>(entry: &'a Entry, none: &'a Reads) -> &'a Reads
    requires { none.now ≡ [] }
    ensures { result.now ≡ reads_of entry.now.made }
{
    match &entry.made {
        Some(made) => &made.trace.reads,
        None => none,
    }
}

/// Whether some call may be made, once these are numbers of an entry's calls.
pub(crate) fn may_call(calls: bool, slots: &Numbers) -> bool
    ensures { result ≡ false → (calls ≡ false) × (slots.now ≡ []) }
{
    calls || slots.len() != 0
}

// Whether some call may be made, once this entry stands in the log.
fn may_call_with(calls: bool, entry: &KeptEntry) -> bool
    ensures { result ≡ false → (calls ≡ false) × (entry.now.slots ≡ []) }
{
    may_call(calls, &entry.entry().slots)
}

// Marks what stands from a place on and looks at what an entry that is to come there wrote.
fn mark_from(
    alloc: Global,
    marks: &mut EntryMarks,
    at: usize,
    count: usize,
    writes: &SharedWrites,
) -> Result<(), NoMemory>
    requires { count ≡ length marks.old.reads }
    ensures ok { OnOk result (IsMarkedFrom at writes.now marks.old marks.new) }
    ensures err { OnErr result (IsMarkedFrom at [] marks.old marks.new) }
{
    if at >= count || writes.len() == 0 {
        return Ok(());
    }
    marks.mark(at);
    marks.mark_readers(alloc, at, writes)
}

fn ready_rows(
    alloc: Global,
    rows: &mut EntryRows,
    marks: &mut EntryMarks,
    at: usize,
    entry: &Entry,
) -> Result<(), NoMemory>
    ensures base { rows.new.base ≡ rows.old.base }
    ensures writes { rows.new.writes ≡ rows.old.writes }
    ensures reads { marks.new.reads ≡ marks.old.reads }
    ensures marks { marks.new.marks ≡ marks.old.marks }
    ensures ready_rows { OnOk result (IsReadyToInsert at (writes_of entry.now.made) rows.new) }
    ensures ready_marks { OnOk result (IsReadyToMark at (reads_of entry.now.made) marks.new) }
{
    let no_writes = SharedWrites::new();
    let no_reads = ThinSeq::new(alloc);
    rows.ready_insert(alloc, at, writes_of(entry, &no_writes))?;
    marks.ready_insert(alloc, at, reads_of(entry, &no_reads))
}

// Marks what looks at what an entry wrote that is to come at a place, and makes room for it.
fn ready_entry(
    alloc: Global,
    rows: &mut EntryRows,
    marks: &mut EntryMarks,
    at: usize,
    entry: &KeptEntry,
    count: usize,
) -> Result<(), NoMemory>
    requires { count ≡ length marks.old.reads }
    ensures base { rows.new.base ≡ rows.old.base }
    ensures writes { rows.new.writes ≡ rows.old.writes }
    ensures ok { OnOk result (IsMarkedFrom at (writes_of entry.now.made) marks.old marks.new) }
    ensures err { OnErr result (IsMarkedFrom at [] marks.old marks.new) }
    ensures ready_rows { OnOk result (IsReadyToInsert at (writes_of entry.now.made) rows.new) }
    ensures ready_marks { OnOk result (IsReadyToMark at (reads_of entry.now.made) marks.new) }
{
    let own = entry.entry();
    let none = SharedWrites::new();
    mark_from(alloc, marks, at, count, writes_of(own, &none))?;
    ready_rows(alloc, rows, marks, at, own)
}

// Puts what an entry wrote and where it looked at a place. There is room for both.
fn insert_parts(
    alloc: Global,
    rows: &mut EntryRows,
    marks: &mut EntryMarks,
    at: usize,
    entry: &Entry,
)
    requires within { at ≤ length rows.old.writes }
    requires within_marks { at ≤ length marks.old.reads }
    requires few { length rows.old.writes < 100000 }
    requires few_marks { length marks.old.reads < 100000 }
    requires ready_rows { IsReadyToInsert at (writes_of entry.now.made) rows.old }
    requires ready_marks { IsReadyToMark at (reads_of entry.now.made) marks.old }
    ensures base { rows.new.base ≡ rows.old.base }
    ensures rows { rows.new.writes ≡ insert rows.old.writes at (writes_of entry.now.made) }
    ensures marks { IsPutAt at entry.now (rows_before at rows.old) marks.old marks.new }
{
    let no_writes = SharedWrites::new();
    let no_reads = ThinSeq::new(alloc);
    let marked = !is_held(rows, at, entry);
    rows.insert(alloc, at, writes_of(entry, &no_writes));
    marks.insert(alloc, at, reads_of(entry, &no_reads), marked);
}

/// Puts an entry at a place of a log, and what it wrote and where it looked beside it. Refused, the log stays.
pub(crate) fn insert_entry(
    alloc: Global,
    log: &mut Log,
    rows: &mut EntryRows,
    marks: &mut EntryMarks,
    at: u64,
    added: KeptEntry,
    calls: &mut bool,
) -> Result<(), LogFull>
    requires within { at ≤ length log.old.entries }
    requires is_new { IsNew added (whole log.old.folded log.old.entries) }
    requires kept { IsKept rows.old.base log.old.entries rows.old.writes marks.old calls.old }
    ensures ok { OnOk result (log.new.entries ≡ insert log.old.entries at added) }
    ensures folded { log.new.folded ≡ log.old.folded }
    ensures base { rows.new.base ≡ rows.old.base }
    ensures full { (result ≡ Err LogFull.Full) ↔ (length log.old.entries ≡ 100000) }
    ensures err { OnErr result (log.new.entries ≡ log.old.entries) }
    ensures kept { IsKept rows.new.base log.new.entries rows.new.writes marks.new calls.new }
{
    if log.len() == MOST_ENTRIES {
        return Err(LogFull::Full);
    }
    let count = log.as_slice().len();
    ready_entry(alloc, rows, marks, at as usize, &added, count)?;
    *calls = may_call_with(*calls, &added);
    log.insert(at, added)?;
    let entries = log.as_slice();
    insert_parts(
        alloc,
        rows,
        marks,
        at as usize,
        entries[at as usize].entry(),
    );
    Ok(())
}
