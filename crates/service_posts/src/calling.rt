// Entries by their calls alone: folded ones have calls as others do.
ghost use Rattle.std.specs.Prelude.{◌≡◌, ℕ, List};

use request_log::{KeptEntry, KeptFolded};

/// An entry, folded or not, that has calls.
pub(crate) trait Calling {
    ghost slots: { Self → List ℕ };

    /// The numbers of its calls, in slot order.
    fn slots(&self) -> &[u64]
        ensures { result.now ≡ slots self.now };
}

impl Calling for KeptEntry {
    ghost slots = { λ entry. entry.slots };

    fn slots(&self) -> &[u64] {
        self.entry().slots.as_slice()
    }
}

impl Calling for KeptFolded {
    ghost slots = { λ folded. folded.slots };

    fn slots(&self) -> &[u64] {
        self.folded().slots.as_slice()
    }
}
