//! Lines of a script: what each says, or why it says nothing.
#![tactic(auto)]

mod asking;
mod line;
mod orders;
mod parts;
mod read;
mod texts;

pub use line::{Line, LineFault};
pub use read::read_line;
pub use world_events::Event;
