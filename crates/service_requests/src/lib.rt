//! A live request on the parts of a service: its arrival, the answer or the failure of the call for which it waits, and its
//! abandonment. Each does what its event means, or runs out of memory and changes nothing, and leaves what always holds of a
//! service.
//!
//! All that is to be left is drafted first, from a run to its commit or its next call; then room is made, and then everything
//! changes without memory.
#![tactic(auto)]

mod abandoning;
mod applying;
mod arriving;
mod calls;
mod commits;
mod completing;
mod early;
mod endings;
mod flying;
mod going;
mod outcome;
mod runs;

pub use abandoning::abandon;
pub use arriving::arrive;
pub use calls::{call_answered, call_failed};
