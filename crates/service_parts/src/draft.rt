// Rows that are drafted, and what they change of the registers.
ghost use Rattle.std.specs.Prelude.{◌≡◌, [], ◌∷◌, ◌++◌, length, OnOk};
ghost use Rattle.call_registers.specs.Registers.{next_number};
ghost use Rattle.service_events.specs.State.{Kept};
ghost use Rattle.service_events.specs.Calls.{noted};
ghost use Rattle.service_events.specs.Arriving.{told};
ghost use Rattle.service_parts.specs.Drafts.{with_draft};
ghost use Rattle.service_parts.specs.Parts.{kept};

use crate::noting;
use crate::parts::Parts;
use call_registers::{RegisterChange, RegisterChanges, Why};
use journal_rows::Row;
use lang_core::NoMemory;
use std::alloc::Global;

/// Rows that are to stand last in a journal, and the changes that they make of the registers. It is read together with the
/// service whose draft it is, so that it costs no more than what it changes.
#[derive(Drop)]
pub struct Draft {
    pub rows: Vec<Row>,
    pub changes: RegisterChanges,
}

// The index after these rows.
fn index_after(journal: &[Row], drafted: &[Row]) -> u64
    ensures { result ≡ length (journal.now ++ drafted.now) }
{
    journal.len() as u64 + drafted.len() as u64
}

/// A draft without rows.
pub fn start(alloc: Global) -> Draft
    ensures { (s : Kept) → with_draft result s ≡ s }
{
    Draft {
        rows: Vec::new(alloc),
        changes: RegisterChanges::none(alloc),
    }
}

/// The index in the journal of the row that comes next.
pub fn next_index(parts: &Parts, draft: &Draft) -> u64
    ensures { result ≡ length (parts.now.journal.rows ++ draft.now.rows.items) }
{
    index_after(parts.journal.as_slice(), &draft.rows)
}

// Puts rows behind those of a draft. The first are taken over in their own list, with the room that it has.
fn add_rows(drafted: &mut Vec<Row>, mut rows: Vec<Row>) -> Result<(), NoMemory>
    ensures { OnOk result (drafted.new.items ≡ drafted.old.items ++ rows.items) }
{
    if drafted.is_empty() {
        *drafted = rows;
        return Ok(());
    }
    drafted.append(&mut rows)?;
    Ok(())
}

/// Drafts rows. Refused, the draft is no use any more.
pub fn note(alloc: Global, parts: &Parts, draft: &mut Draft, rows: Vec<Row>) -> Result<(), NoMemory>
    ensures { OnOk result (with_draft draft.new (kept parts.now) ≡ noted rows.items (with_draft draft.old (kept parts.now))) }
{
    let first = next_index(parts, draft);
    noting::note_rows(alloc, &parts.registers, &mut draft.changes, first, &rows)?;
    add_rows(&mut draft.rows, rows)
}

/// Drafts one row. Refused, the draft is no use any more.
pub fn note_row(alloc: Global, parts: &Parts, draft: &mut Draft, row: Row) -> Result<(), NoMemory>
    ensures { OnOk result (with_draft draft.new (kept parts.now) ≡ noted (row ∷ []) (with_draft draft.old (kept parts.now))) }
{
    let first = next_index(parts, draft);
    let noted = noting::note_row(alloc, &parts.registers, &mut draft.changes, first, &row);
    draft.rows.push(row)?;
    noted
}

/// Drafts why the call of a number goes on without an answer. Refused, the draft is no use any more.
pub fn tell(
    alloc: Global,
    parts: &Parts,
    draft: &mut Draft,
    number: u64,
    why: Why,
) -> Result<(), NoMemory>
    ensures { OnOk result (with_draft draft.new (kept parts.now) ≡ told number why (with_draft draft.old (kept parts.now))) }
{
    let change = RegisterChange::Tell(why);
    draft
        .changes
        .change(alloc, &parts.registers, number, change)
}

/// The number of the next call.
pub fn next_number(parts: &Parts, draft: &Draft) -> u64
    ensures { result ≡ next_number (with_draft draft.now (kept parts.now)).registers }
{
    draft.changes.next_number(&parts.registers)
}
