// What an event of a live request is to leave.
use crate::endings::Ending;
use service_parts::Draft;

/// What an event of a live request is to leave of a service, and how it ends.
#[derive(Drop)]
pub(crate) struct DraftedEnd {
    pub draft: Draft,
    pub ending: Ending,
}
