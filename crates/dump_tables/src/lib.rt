//! What a dump says, as tables: services by their names, their programs by their numbers, and entries by their numbers, by
//! the calls that they come from and by the calls that they made, each found by a hash index.
//!
//! It stands on nothing that repairs, and on nothing that reads: whoever judges a dump needn't know how its text is written.
#![tactic(auto)]

mod call_index;
mod dump;
mod entries;
mod finding;
mod programs;
mod services;

pub use dump::{Dump, DumpEntry, DumpService, Numbers};
pub use entries::DumpEntries;
pub use programs::DumpPrograms;
pub use services::DumpServices;
