// What is drafted becomes so.
ghost use Rattle.std.specs.Prelude.{◌≡◌, ◌+◌, ◌≤◌, ◌++◌, IfOk, OnOk, vec_len};
ghost use Rattle.call_registers.specs.Overlays.{overlaid};
ghost use Rattle.service_parts.specs.Rooms.{aloft};

use crate::draft::Draft;
use call_registers::Registers;
use flights::Flight;
use journal_rows::{Row, Rows};
use lang_core::NoMemory;

// So many rows, and one more for each call of each flight.
fn with_aloft(rows: u64, flights: &[Flight]) -> Result<u64, NoMemory>
    ensures { IfOk result (λ sum. sum ≡ rows + aloft flights.now) }
{
    let mut sum = rows;
    for flight in flights {
        sum = sum.checked_add(flight.calls.len()).ok_or(NoMemory)?;
    }
    Ok(sum)
}

/// Makes room in a journal for so many rows, with that for the abandonment of each flight left. Refused, the rows stay.
pub fn reserve(journal: &mut Rows, rows: u64, flights: &[Flight]) -> Result<(), NoMemory>
    ensures rows { journal.new.rows ≡ journal.old.rows }
    ensures spare { journal.old.spare ≤ journal.new.spare }
    ensures ok { OnOk result (rows + aloft flights.now ≤ journal.new.spare) }
{
    let more = with_aloft(rows, flights)?;
    journal.reserve(more)
}

/// Puts rows last, for which there is room.
pub fn push_rows(journal: &mut Rows, rows: Vec<Row>)
    requires { vec_len rows ≤ journal.old.spare }
    ensures rows { journal.new.rows ≡ journal.old.rows ++ rows.items }
    ensures spare { journal.old.spare ≤ journal.new.spare + vec_len rows }
{
    for row in rows {
        journal.push(row).unwrap();
    }
}

/// Makes room for a draft: in the journal for so many rows, with that for the abandonment of each flight left, and for so
/// many new registers. Refused, both stay.
pub fn reserve_draft(
    journal: &mut Rows,
    registers: &mut Registers,
    rows: u64,
    added: u64,
    flights: &[Flight],
) -> Result<(), NoMemory>
    ensures rows { journal.new.rows ≡ journal.old.rows }
    ensures list { registers.new.list ≡ registers.old.list }
    ensures spare { journal.old.spare ≤ journal.new.spare }
    ensures ok { OnOk result (rows + aloft flights.now ≤ journal.new.spare) }
    ensures added { OnOk result (added ≤ registers.new.spare) }
{
    reserve(journal, rows, flights)?;
    registers.reserve(added)
}

/// Puts a draft's rows last and its changes in place, for which there is room.
pub fn note_draft(journal: &mut Rows, registers: &mut Registers, draft: Draft)
    requires rows { vec_len draft.rows ≤ journal.old.spare }
    requires added { vec_len draft.changes.added ≤ registers.old.spare }
    ensures rows { journal.new.rows ≡ journal.old.rows ++ draft.rows.items }
    ensures registers { registers.new.list ≡ overlaid draft.changes registers.old.list }
    ensures spare { journal.old.spare ≤ journal.new.spare + vec_len draft.rows }
{
    let Draft { rows, changes } = draft;
    push_rows(journal, rows);
    registers.put_changes(changes);
}
