//! What a service says to a peer and reads of what comes back, and what it hears and writes on a connection, without a node:
//! an exchange of bytes, the answer to a live call, what is said of a post, and replies.
#![tactic(auto)]

mod calls;
mod exchanges;
mod hearing;
mod place;
mod posts;
mod replies;
mod served;

pub use calls::call;
pub use hearing::{hear_on, refuse_unheard};
pub use place::{Doors, Place};
pub use posts::post_to;
pub use replies::{refuse, say, say_known, say_no_memory, write, write_bytes};
pub use served::Served;
