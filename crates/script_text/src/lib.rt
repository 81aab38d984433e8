//! What happens in a world as the lines that a script prints of it.
#![tactic(auto)]

mod detail;
mod happened;
mod others;
mod posts;
mod refusals;
mod requests;

pub use detail::Detail;
pub use happened::happened_line;
pub use refusals::{push_refused, push_refused_so};
