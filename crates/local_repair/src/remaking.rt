// An entry run again, its calls settled.
ghost use Rattle.std.specs.Prelude.{ℕ, List, ◌≡◌, ◌+◌, ◌<◌, [], length, IfOk, OnOk, OnErr};
ghost use Rattle.lang_core.specs.declared.cells.Cell.{Cell};
ghost use Rattle.lang_core.specs.declared.setting.Setting.{Setting};
ghost use Rattle.log_index.specs.Marks.{IsReadyToSet as IsReadyToMark};
ghost use Rattle.log_index.specs.Rows.{rows_before, IsReadyToSet};
ghost use Rattle.local_repair.specs.Current.{writes_of};
ghost use Rattle.local_repair.specs.Held.{IsMarkedBehind, IsMarkedFrom};
ghost use Rattle.local_repair.specs.Settling.{HasItsSlots, HasSlotsOnce, CanSettle, IsAgain};
ghost use Rattle.local_repair.specs.Steps.{answers_for, calls_of_made, IsRerun};

use crate::rerun::{is_new_answer, run_again};
use crate::slots::Slots;
use crate::view::RowsBefore;
use crate::written::writes_of;
use lang_core::{NoMemory, Setting, SharedWrites};
use log_index::{EntryMarks, EntryRows};
use request_log::{Entry, Made, Numbers};
use std::alloc::Global;

/// What came of running an entry again: its new record, the numbers of its calls, and whether it has a new answer.
#[derive(Drop)]
pub struct Rerun {
    pub made: Made,
    pub numbers: Numbers,
    pub answered: bool,
}

// Settles the calls of an entry that ran again. Refused, the registers stay.
fn settle<S: Slots>(
    alloc: Global,
    entry: &Entry,
    made: Made,
    slots: &mut S,
) -> Result<Rerun, NoMemory>
    requires answers { made.trace.answers ≡ answers_for (S.consumed_of slots.old) (calls_of_made entry.now.made) entry.now.slots made.trace.calls }
    requires own { HasItsSlots entry.now }
    requires once { HasSlotsOnce entry.now }
    requires can { S.can_settle slots.old entry.now made.trace }
    ensures ok { (setting : Setting) (rows : List Cell) → IsRerun setting (S.consumed_of slots.old) rows entry.now made
        → IfOk result (λ again. IsAgain setting
        (record {
          before = S.consumed_of slots.old;
          after = S.consumed_of slots.new;
          last = S.last_of slots.old;
          later = S.last_of slots.new;
          timely = S.is_timely slots.old;
          settles = S.settles slots.old slots.new;
        })
        rows entry.now again) }
    ensures made { IfOk result (λ again. again.made ≡ made) }
    ensures timely { S.is_timely slots.old → S.is_timely slots.new }
    ensures err { OnErr result (slots.new ≡ slots.old) }
{
    let answered = is_new_answer(entry, &made);
    let numbers = slots.settle(alloc, entry, &made.trace, answered)?;
    Ok(Rerun {
        made,
        numbers,
        answered,
    })
}

// A new record of the entry at a place, on the rows before it.
fn made_at<S: Slots>(
    alloc: Global,
    setting: &Setting,
    rows: &EntryRows,
    entry: &Entry,
    place: usize,
    slots: &S,
) -> Result<Made, NoMemory>
    ensures { IfOk result (λ m. IsRerun setting.now (S.consumed_of slots.now) (rows_before place rows.now) entry.now m) }
{
    let view = RowsBefore { rows, place };
    run_again(alloc, setting, &view, entry, slots)
}

// Marks what stands behind the entry at a place and looks at a write that either its record or the new one has, but not both.
fn mark_behind(
    alloc: Global,
    marks: &mut EntryMarks,
    place: usize,
    entry: &Entry,
    made: &Made,
) -> Result<(), NoMemory>
    requires { place < length marks.old.reads }
    ensures ok { OnOk result (IsMarkedBehind place (writes_of entry.now.made) made.now.trace.writes marks.old marks.new) }
    ensures err { OnErr result (IsMarkedFrom (place + 1) [] marks.old marks.new) }
{
    let none = SharedWrites::new();
    let old = writes_of(entry, &none);
    let new = &made.trace.writes;
    // Asked for what they promise alone: no key stands twice.
    let _old = old.as_slice();
    let _new = new.as_slice();
    marks.mark_changes(alloc, place, old, new)
}

// Makes room for what a new record of an entry wrote and for where it looked.
fn ready_made(
    alloc: Global,
    rows: &mut EntryRows,
    marks: &mut EntryMarks,
    made: &Made,
) -> Result<(), NoMemory>
    ensures base { rows.new.base ≡ rows.old.base }
    ensures writes { rows.new.writes ≡ rows.old.writes }
    ensures reads { marks.new.reads ≡ marks.old.reads }
    ensures marks { marks.new.marks ≡ marks.old.marks }
    ensures ready_rows { OnOk result (IsReadyToSet made.now.trace.writes rows.new) }
    ensures ready_marks { OnOk result (IsReadyToMark made.now.trace.reads marks.new) }
{
    rows.ready_set(alloc, &made.trace.writes)?;
    marks.ready_set(alloc, &made.trace.reads)
}

// Marks what looks at other writes than before, and then makes room for what the new record wrote and for where it looked.
fn ready_again(
    alloc: Global,
    rows: &mut EntryRows,
    marks: &mut EntryMarks,
    place: usize,
    entry: &Entry,
    made: &Made,
) -> Result<(), NoMemory>
    requires { place < length marks.old.reads }
    ensures base { rows.new.base ≡ rows.old.base }
    ensures writes { rows.new.writes ≡ rows.old.writes }
    ensures ok { OnOk result (IsMarkedBehind place (writes_of entry.now.made) made.now.trace.writes marks.old marks.new) }
    ensures err { OnErr result (IsMarkedFrom (place + 1) [] marks.old marks.new) }
    ensures ready_rows { OnOk result (IsReadyToSet made.now.trace.writes rows.new) }
    ensures ready_marks { OnOk result (IsReadyToMark made.now.trace.reads marks.new) }
{
    mark_behind(alloc, marks, place, entry, made)?;
    ready_made(alloc, rows, marks, made)
}

/// Runs the entry at a place again on the rows before it, marks what looks at what that changes, makes room for what it
/// wrote and for where it looked, and settles its calls. Refused, the registers stay.
pub(crate) fn remake<S: Slots>(
    alloc: Global,
    setting: &Setting,
    rows: &mut EntryRows,
    marks: &mut EntryMarks,
    entry: &Entry,
    place: usize,
    slots: &mut S,
) -> Result<Rerun, NoMemory>
    requires own { HasItsSlots entry.now }
    requires once { HasSlotsOnce entry.now }
    requires can { CanSettle (S.can_settle slots.old) setting.now entry.now }
    requires within { place < length marks.old.reads }
    ensures ok { IfOk result (λ again. IsAgain setting.now
        (record {
          before = S.consumed_of slots.old;
          after = S.consumed_of slots.new;
          last = S.last_of slots.old;
          later = S.last_of slots.new;
          timely = S.is_timely slots.old;
          settles = S.settles slots.old slots.new;
        })
        (rows_before place rows.old) entry.now again) }
    ensures base { rows.new.base ≡ rows.old.base }
    ensures writes { rows.new.writes ≡ rows.old.writes }
    ensures ready { IfOk result (λ again. IsReadyToSet again.made.trace.writes rows.new) }
    ensures ready_marks { IfOk result (λ again. IsReadyToMark again.made.trace.reads marks.new) }
    ensures marked { IfOk result (λ again. IsMarkedBehind place (writes_of entry.now.made) again.made.trace.writes marks.old marks.new) }
    ensures stays { OnErr result (IsMarkedFrom (place + 1) [] marks.old marks.new) }
    ensures timely { S.is_timely slots.old → S.is_timely slots.new }
    ensures err { OnErr result (slots.new ≡ slots.old) }
{
    let made = made_at(alloc, setting, rows, entry, place, slots)?;
    ready_again(alloc, rows, marks, place, entry, &made)?;
    settle(alloc, entry, made, slots)
}
