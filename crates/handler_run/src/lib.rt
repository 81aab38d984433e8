//! The meaning of a handler: what a request's run reads, calls, writes and answers.
#![tactic(auto)]

mod blocks;
mod calls;
mod handler;
mod reads;
mod same;
mod state;
mod statements;
mod steps;
mod view;

pub use handler::run;
pub use lang_programs::Deployed;
pub use lang_values::{Fault, MOST_READ_BYTES};
pub use same::same_handler;
pub use state::Ran;
pub use view::{RowsView, View};
