//! What workers do at a node: one connection served, and one turn of posting.
//!
//! A worker has a desk, which lends it a node, how its service is set up, and where its peers are, and a pass of its own. Each
//! event is made in one hold of the node's lock, which is never held during an exchange with a peer.
#![tactic(auto)]

mod desk;
mod flying;
mod folding;
mod held;
mod live;
mod messages;
mod operators;
mod posts;
mod replies;
mod serve;
mod turns;

pub use desk::Desk;
pub use folding::{FoldDue, RepairTurn, fold_due, fold_up_to, note_waiting};
pub use node_exchanges::{Doors, Served};
pub use operators::{tell_preview, tell_text};
pub use posts::{PostedOne, post_one};
pub use serve::serve_one;
