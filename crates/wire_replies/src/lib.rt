//! Replies between services and to other clients: the response that spells one, and which one a response spells.
#![tactic(auto)]

mod building;
mod kinds;
mod reading;
mod refusals;
mod replies;
mod writing;

pub use kinds::Asking;
pub use reading::read_reply;
pub use replies::Outgoing;
pub use writing::write_reply;
