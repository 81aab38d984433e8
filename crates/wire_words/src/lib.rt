//! Words between a service and what it hears and says over the wire: the word and number that tell each of its refusals,
//! and what a peer's reply means for the call or the post that it answers.
#![tactic(auto)]

mod failures;
mod posts;
mod refusals;
mod words;

pub use failures::{call_reply, why_unread};
pub use posts::{asking_of, post_reply};
pub use refusals::{Told, answer_told, arrive_told, give_told, order_told, refusal, take_told};
pub use words::{front_word, wire_word};
