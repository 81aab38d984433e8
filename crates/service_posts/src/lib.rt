//! What a service posts, on its parts: which post goes next to another service, and the message of a post as it is now.
#![tactic(auto)]

mod beside;
mod calling;
mod outward;
mod posting;

pub use beside::{Neighbours, neighbours_of};
pub use posting::{next_post, write_post};
