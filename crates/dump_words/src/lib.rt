//! The words of a dump: what a line of it says, part by part, wherever it stands.
//!
//! It stands on the handler language, for a program's text, and on nothing that repairs.
#![tactic(auto)]

mod escapes;
mod line;
mod lines;
mod parts;
mod requests;

pub use handler_lang::ProgramRefused;
pub use line::{CallLine, EntryLine, Line, LineFault};
pub use lines::read_line;
