//! The command `audit DUMP WORKERS`: services judged by their dump alone, over any files and output; and what it shares
//! with other commands over a dump.
#![tactic(auto)]

mod auditing;
mod loading;
mod telling;
mod words;

pub use auditing::audit;
pub use loading::{NoDump, load_dump};
pub use telling::{refused, told};
