// A program in place of another one: which entries are marked for it.
ghost use Rattle.std.specs.Prelude.{◌≡◌, ◌<◌, true, false, length, map, OnOk, OnErr};
ghost use Rattle.request_log.specs.Entries.{corrected, has_program};
ghost use Rattle.local_repair.specs.Corrections.{IsHandlerMarked, IsMarkedByHandlers};
ghost use Rattle.local_repair.specs.Programs.{HasItsHandler};

use crate::programs::{has_its_handler, has_program};
use lang_core::{NoMemory, Shared};
use log_index::EntryMarks;
use request_log::{Deployed, Entry, KeptEntry, Log};
use std::alloc::Global;

// Whether an entry has the program of the number, and another handler made its record.
fn is_other(entry: &Entry, number: u64) -> bool
    ensures { result ≡ false → has_program number entry.now ≡ true → HasItsHandler entry.now }
{
    if !has_program(entry, number) {
        return false;
    }
    !has_its_handler(entry)
}

// Marks the entry at a place, if it has the program of the number and another handler made its record.
fn mark_if_other(marks: &mut EntryMarks, place: usize, entry: &Entry, number: u64)
    requires { place < length marks.old.reads }
    ensures { IsHandlerMarked number place entry.now marks.old marks.new }
{
    if !is_other(entry, number) {
        return;
    }
    marks.mark(place);
}

// Marks each of these entries that has the program of the number, and whose record another handler made.
fn mark_others(marks: &mut EntryMarks, entries: &[KeptEntry], number: u64)
    requires { length entries.now ≡ length marks.old.reads }
    ensures { IsMarkedByHandlers number (length entries.now) entries.now marks.old marks.new }
{
    for place in 0..entries.len() {
        mark_if_other(marks, place, entries[place].entry(), number);
    }
}

/// Puts a program in place of that of a number in a log, and marks each entry that has it now and whose record another handler
/// made. Refused, all stay.
pub(crate) fn correct_parts(
    alloc: Global,
    log: &mut Log,
    marks: &mut EntryMarks,
    number: u64,
    program: &Shared<Deployed>,
) -> Result<(), NoMemory>
    requires { length log.old.entries ≡ length marks.old.reads }
    ensures entries { OnOk result (log.new.entries ≡ map (corrected number program.now) log.old.entries) }
    ensures folded { log.new.folded ≡ log.old.folded }
    ensures marks { OnOk result (IsMarkedByHandlers program.now.number (length log.new.entries) log.new.entries marks.old marks.new) }
    ensures err { OnErr result (log.new ≡ log.old) }
    ensures err_marks { OnErr result (marks.new ≡ marks.old) }
{
    log.correct(alloc, number, program)?;
    mark_others(marks, log.as_slice(), program.get().number());
    Ok(())
}
