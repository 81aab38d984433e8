//! Local repair: which entries of a log are stale, the step that runs the first of them again, and the fold of the first of
//! them, of which nothing is repaired any more.
#![tactic(auto)]

mod correcting;
mod current;
mod programs;
mod remaking;
mod repairer;
mod rerun;
mod slots;
mod stepped;
mod view;
mod written;

pub use remaking::Rerun;
pub use repairer::Repairer;
pub use rerun::tentative;
pub use slots::Slots;
pub use stepped::Stepped;
pub use view::RowsBefore;
