//! A repair step and an order of a service that calls others, on its parts: each does what its event means, or runs out of
//! memory and changes nothing, and leaves what always holds of a service. All of it is drafted before anything changes.
#![tactic(auto)]

mod admitting;
mod book;
mod folding;
mod order_drafts;
mod ordering;
mod programs;
mod repairing;
mod resolving;
mod settling;
mod stale;
mod step_drafts;

pub use ordering::order;
pub use repairing::repair_step;
pub use stale::first_stale;
