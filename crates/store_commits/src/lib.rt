//! Records that many threads hand over to one store, and that share a sync.
#![tactic(auto)]

mod begin;
mod board;
mod queue;
mod texts;
mod unwritten;
mod write;
mod writer;

pub use board::{Shared, Takes};
pub use queue::{Handed, NotHandedOver, Queue, Taken};
pub use texts::Texts;
pub use unwritten::Unwritten;
pub use writer::{Closed, Durable, Uncommitted, Unmarked, Writer};
