//! What a legal execution is: a history of requests that replays from empty rows to what was recorded of it.
//!
//! It speaks of requests in logged order, of what each consumed and did, and of the last rows, and of nothing that
//! belongs to logs, repair or messages. Whatever claims that a system is in order is a claim of these words.
//!
//! What a run of a handler is, which stands below, is handed on to the crate above.
#![tactic(auto)]

pub use handler_run::{Ran, View, run, same_handler};
