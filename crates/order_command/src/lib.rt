//! The command `order DUMP`: one order in which the services of a dump could have run as one program, or that there is none,
//! over any files and output.
#![tactic(auto)]

mod ordering;
mod telling;
mod words;

pub use ordering::order;
