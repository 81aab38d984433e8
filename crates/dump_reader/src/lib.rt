//! Dumps: a text that writes services down with all that a legal execution is made of, read line by line.
//!
//! It stands on the handler language and on nothing that repairs, so that whoever doubts a repair needn't trust what made
//! it. A text is read as the dump that its lines say, or refused at its first line that doesn't fit.
#![tactic(auto)]

mod calling;
mod reading;
mod refused;
mod stage;
mod steps;

pub use dump_tables::{
    Dump, DumpEntries, DumpEntry, DumpPrograms, DumpService, DumpServices, Numbers,
};
pub use dump_words::ProgramRefused;
pub use reading::{LONGEST_DUMP, read_dump};
pub use refused::DumpRefused;
