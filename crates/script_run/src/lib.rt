//! Scripts: what a line does in a world of services, and what it prints, line after line. `specs/Plays.antt` says what a
//! script is to do, and the code does that.
#![tactic(auto)]

mod acting;
mod asking;
mod counts;
mod dump_entries;
mod dump_programs;
mod dump_words;
mod dumping;
mod giving;
mod previews;
mod printed;
mod reports;
mod script;
mod settling;
mod telling;

pub use acting::act;
pub use counts::{Counts, Said};
pub use dumping::dump_text;
pub use printed::Printed;
pub use reports::{judge, verdict_line};
pub use script::{LONGEST_SCRIPT, ScriptRefused, run_script};
pub use world_settle::{Service, World, names_of};
