//! The clock and the random words of the machine, which tell nothing of what is to come.
#![tactic(auto)]

mod clock;
mod words;

pub use clock::SystemClock;
pub use words::SystemWords;
