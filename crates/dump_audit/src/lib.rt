//! An audit of services from their dump alone: it runs each entry anew, and shares no code with what repairs but the
//! handler language.
//!
//! A dump is legal where each service's entries, each under its own program, replay from empty rows to what the dump says of
//! them, each call of an entry that survives has exactly one entry that serves it, and no other entry is wanted by a call.
#![tactic(auto)]

mod answers;
mod beside;
mod judged;
mod judging;
mod replays;
mod strays;

pub use beside::judge_beside;
pub use dump_tables::{Dump, DumpEntry, DumpService, DumpServices};
pub use judged::{Fault, Judged};
pub use judging::judge;
pub use lang_rows::RowTree;
