//! The log of a service: its entries, one for each request, in the order in which they count as run. The first of them may be
//! folded: what they read and wrote is gone then, and nothing of them is repaired any more.
#![tactic(auto)]

mod correcting;
mod entry;
mod finding;
mod folded;
mod log;

pub use entry::{Entry, KeptEntry, Made, Numbers, dead_trace};
pub use folded::{Folded, FoldedList, KeptFolded};
pub use lang_programs::{Deployed, NumberedText, Under};
pub use log::{Log, LogFull, MOST_ENTRIES};
