// What came of settling.

/// What came of it. A count that stands at the greatest number of 64 bits stays there.
#[derive(Clone, Copy, PartialEq, Eq)]
pub struct Settled {
    /// The rounds in which an entry ran or a post was written.
    pub rounds: u64,
    /// The entries that ran again. A step that is idle is no run.
    pub runs: u64,
    /// The posts that were written.
    pub posts: u64,
}
