//! The bytes of what a service sends to its peers and replies, and what bytes say to it.
#![tactic(auto)]

mod console;
mod doors;
mod hearing;
mod sending;

pub use console::{console_refusal, console_reply};
pub use doors::{add_host, notifier_of};
pub use hearing::{Replied, Unheard, hear, hear_reply};
pub use sending::{call_bytes, post_bytes, reply_bytes};
