// How an event of a live request ends.
use call_registers::Reply;
use flights::Flight;
use lang_core::Boxed;
use repair_messages::SetMessage;
use request_log::KeptEntry;

/// How an event of a live request ends, beside the rows that it notes. It goes through several hands before it is put in
/// place, so what is large stands apart.
#[derive(Drop)]
pub enum Ending {
    /// The flight of this number, if there is one, is the last entry of the log. Its answer has this index in the journal.
    Commits {
        flight: u64,
        entry: KeptEntry,
        reply: Option<Reply>,
        index: u64,
    },
    /// The flight waits for the answer of this call.
    Waits {
        flight: Boxed<Flight>,
        set: SetMessage,
    },
}

/// What one run of a flight that is completed leads to.
#[derive(Drop)]
pub enum Step {
    /// It ends so.
    Ends(Ending),
    /// The flight runs again.
    Goes(Flight),
}
