// What a repair step did.

/// What a repair step did.
#[derive(Clone, Copy, PartialEq, Eq)]
pub enum Stepped {
    /// No entry was stale.
    Idle,
    /// The first stale entry ran again. It is a new answer where the response, or the version of the request that it
    /// answers, isn't that of the entry's last answer.
    Ran { id: u64, answered: bool },
}
