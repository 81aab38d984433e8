//! What a request is given from outside its rows: one reading of a clock and eight random words, in order.
//!
//! A clock and a source of words tell contracts what they are about to give, wherever they know it, as those of a
//! script do; those of a running machine tell nothing.
#![tactic(auto)]

mod drawing;
mod scripted;
mod traits;

pub use drawing::{draw, draw_script};
pub use scripted::{ScriptClock, ScriptWords};
pub use traits::{Clock, Words};
