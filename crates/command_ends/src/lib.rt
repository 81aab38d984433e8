//! How a command of the program ends: its statuses by name, its last line, and which of its words doesn't fit.
#![tactic(auto)]

mod ends;
mod last;
mod statuses;
mod words;

pub use ends::{lacking, misused, unread};
pub use last::{print, write_last};
pub use statuses::{AMISS, DONE, LACKING, MISUSED, NO_DOOR, NO_WORKER, REFUSED, UNREAD, UNWRITTEN};
pub use words::is_file_word;
