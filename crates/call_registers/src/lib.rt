//! What a service keeps of the calls that it makes and of those that it answers: for each call of its own a register, with
//! what it wants, what was acknowledged and the answer that it saw, and for each entry of another service's call a reply,
//! with what was taken and whether an answer is due.
#![tactic(auto)]

mod changes;
mod homes;
mod queues;
mod register;
mod register_list;
mod registers;
mod replies;
mod reply;

pub use changes::RegisterChanges;
pub use register::{
    Answer, Hold, Register, RegisterChange, Why, held_version, is_done_with, is_newer, is_news,
    owes_fetch,
};
pub use registers::Registers;
pub use replies::{Replies, RepliesCall};
pub use reply::Reply;
