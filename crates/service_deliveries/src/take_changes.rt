// What taking a version is to change, to answer and to leave.
use call_registers::Reply;
use journal_rows::Row;
use request_log::{Entry, KeptEntry};
use service_events::Taken;

/// What taking a version changes of entries and replies.
#[derive(Drop)]
pub enum TakeChange {
    /// Nothing.
    Nothing,
    /// The reply of the entry of this number is due, from this index of the journal on.
    Due {
        id: u64,
        since: u64,
    },
    /// This entry stands in place of the one of its number, and its reply is due from this index of the journal on.
    Amend {
        entry: Entry,
        since: u64,
    },
    /// This entry, with this reply, is put at this place of the log.
    Create {
        at: u64,
        entry: KeptEntry,
        reply: Reply,
    },
}

/// What taking a version is to answer and to leave: the rows that are to stand last in the journal, and what else changes.
#[derive(Drop)]
pub struct Taking {
    /// The answer.
    pub taken: Taken,
    /// The rows, in order.
    pub rows: Vec<Row>,
    /// What else changes.
    pub change: TakeChange,
}
