// The verdict of an audit.

/// What keeps services from being settled.
#[derive(Clone, Copy, PartialEq, Eq)]
pub enum Outstanding {
    /// A live request that isn't answered yet, by its number.
    Flight(u64),
    /// A stale entry, by its number.
    Stale(u64),
    /// A call whose last version isn't acknowledged, by its number.
    Call(u64),
    /// An answer that was announced and isn't fetched yet, by its call's number.
    Fetch(u64),
    /// An answer that is due, by its entry's number.
    Answer(u64),
}

/// What an audit finds. `at` is a service's position, from 0.
#[derive(Clone, Copy, PartialEq, Eq)]
pub enum Verdict {
    /// Nothing is outstanding: logs and rows are one legal execution.
    Legal,
    /// A service noted something of another one that the other didn't do, in the row of this index of its journal.
    Forged { at: u64, index: u64 },
    /// Something is outstanding.
    Unsettled { at: u64, what: Outstanding },
}
