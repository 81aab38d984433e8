//! Which message between services, from outside or from an operator an HTTP request spells, and the request that a
//! message is written as. Replies are handed on from the crate below.
#![tactic(auto)]

mod building;
mod heads;
mod incoming;
mod outgoing;
mod refusals;
mod texts;

pub use incoming::{Incoming, read_incoming};
pub use outgoing::{write_call, write_post_request};
pub use wire_replies::{Asking, Outgoing, read_reply, write_reply};
