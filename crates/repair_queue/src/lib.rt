//! What a service posts next to another one, which is the oldest post that is outstanding; and which of its posts are held.
#![tactic(auto)]

mod held;
mod oldest;
mod outstanding;

pub use held::{Notice, Notices, notices};
pub use oldest::next;
