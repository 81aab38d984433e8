// Why there is no preview.
ghost use Rattle.std.specs.Prelude.{◌≡◌};
ghost use Rattle.preview_core.specs.declared.refused.PreviewRefused.TheVariants.{NoMemory as Lacking};

use journal_rows::Outstanding;
use lang_core::NoMemory;
use service_events::OrderRefused;

/// Why there is no preview. It is tested whether the service is idle, then whether it is timely, then each trial.
#[derive(Clone, Copy, PartialEq, Eq)]
pub enum PreviewRefused {
    /// There was no memory for it.
    NoMemory,
    /// A live request waits for a call, or an entry is stale. This is the first: live requests by number, then entries in
    /// logged order.
    NotIdle(Outstanding),
    /// The trial at this place, counted from 0, would be refused as an order after those before it.
    Order { at: u64, refused: OrderRefused },
    /// The call of this number holds an answer to a later version of it than its own; it is the least such number.
    Untimely(u64),
}

impl From<NoMemory> for PreviewRefused {
    ghost from_gives = { λ _ why. why ≡ Lacking };

    fn from(_: NoMemory) -> PreviewRefused {
        PreviewRefused::NoMemory
    }
}
