//! Live requests that wait for the answer of a call, and what each does next.
#![tactic(auto)]

mod flight;
mod flights;
mod moves;

pub use flight::{Flight, Move};
pub use flights::Flights;
pub use moves::{advance, call_at};
