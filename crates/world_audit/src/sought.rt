// A row that is sought in another service's journal, among the rows of its key.
ghost use Rattle.std.specs.Prelude.{◌≡◌};
ghost use Rattle.std.specs.List.{list_any};
ghost use Rattle.world_audit.specs.Sought.{is_sought, key_of};

use crate::conditions::{acknowledges_so, confirms, gives, gives_any, sends};
use journal_rows::{NotedRow, Row, Rows, SawAckRow, SawAnswerRow, TookRow, WasConfirmedRow};
use lang_core::Name;
use lang_lists::call_key;

/// What a row of another service is to say, by the row that says it of that service.
#[derive(Clone, Copy)]
pub enum Sought<'a> {
    /// That the version of a call which was taken was sent, to the service of this name.
    Sent {
        dest: &'a Name,
        took: &'a TookRow,
    },
    /// That the version of a call which was seen to be acknowledged was so, to the service of this name.
    Acknowledged {
        caller: &'a Name,
        seen: SawAckRow,
    },
    /// That the answer which was announced was given, to the service of this name.
    Given {
        caller: &'a Name,
        noted: &'a NotedRow,
    },
    /// That the answer which was seen was given, to the service of this name.
    Answered {
        caller: &'a Name,
        seen: &'a SawAnswerRow,
    },
    /// That the answer which was noted as confirmed was so.
    Confirmed(&'a WasConfirmedRow),
}

// The key of the rows that may say so.
fn key_of(sought: Sought<'_>) -> u64
    ensures { result ≡ key_of sought.entry }
{
    match sought {
        Sought::Sent { dest: _, took } => took.number,
        Sought::Acknowledged { caller, seen } => call_key(caller.text(), seen.number),
        Sought::Given { caller, noted } => call_key(caller.text(), noted.number),
        Sought::Answered { caller, seen } => call_key(caller.text(), seen.number),
        Sought::Confirmed(noted) => noted.number,
    }
}

fn is_sought(sought: Sought<'_>, row: &Row) -> bool
    ensures { result ≡ is_sought sought.entry row.now }
{
    match sought {
        Sought::Sent { dest, took } => sends(row, took.number, dest, took.version, &took.desired),
        Sought::Acknowledged { caller, seen } => {
            acknowledges_so(row, caller, seen.number, seen.version, seen.how)
        }
        Sought::Given { caller, noted } => {
            gives_any(row, caller, noted.number, noted.answer_version)
        }
        Sought::Answered { caller, seen } => gives(
            row,
            caller,
            seen.number,
            seen.answer_version,
            seen.version,
            &seen.response,
        ),
        Sought::Confirmed(noted) => confirms(row, noted.number, noted.answer_version),
    }
}

/// Whether such a row stands in a journal. It costs with the rows of its key.
pub fn is_in(journal: &Rows, sought: Sought<'_>) -> bool
    ensures { result ≡ list_any (is_sought sought.entry) journal.now.rows }
{
    let rows = journal.as_slice();
    let mut end = journal.end_of(key_of(sought));
    while end > 0 {
        if is_sought(sought, &rows[end - 1]) {
            return true;
        }
        end = journal.end_before(end - 1);
    }
    false
}
