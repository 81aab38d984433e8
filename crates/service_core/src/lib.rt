//! A service whose requests call other services. Its type keeps that what it keeps fits its journal, and each of its events
//! does what the event means, or wants memory and changes nothing.
#![tactic(auto)]

mod copying;
mod programs;
mod service;
mod starting;

pub use programs::ProgramInUse;
pub use service::Service;
