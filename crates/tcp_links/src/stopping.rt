// The sign that all doors and links of a program are to end.
use std::sync::atomic::{AtomicBool, Ordering};

/// Whether the doors and links that share it are to end. Closing an ear of one of them raises it for all.
///
/// Once it is raised nothing of theirs waits longer than a moment: ears give no connection, reads and exchanges fail as if
/// their time were up, and a write takes what its socket has room for.
#[derive(Drop)]
pub struct StopSignal {
    raised: AtomicBool,
}

impl StopSignal {
    /// One that isn't raised.
    pub fn new() -> Self {
        StopSignal {
            raised: AtomicBool::new(false),
        }
    }

    /// Raises it, for good.
    pub(crate) fn raise(&self) {
        self.raised.store(true, Ordering::SeqCst);
    }

    /// Whether it was raised.
    pub(crate) fn is_raised(&self) -> bool {
        self.raised.load(Ordering::SeqCst)
    }
}
