//! Where a created entry goes in a log.
#![tactic(auto)]

mod placing;

pub use placing::place;
