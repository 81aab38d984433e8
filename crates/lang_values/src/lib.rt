//! What a run of a handler works on: its variables and what expressions give by them, numbers and texts, pieces of a text,
//! a request's path with the route that takes it, and the reads that are recorded.
#![tactic(auto)]

mod given;
mod numbers;
mod parts;
mod paths;
mod recorded;
mod values;
mod variables;

pub use given::{Binding, Fault, Given};
pub use paths::{route_at, route_of, segments_of, takes};
pub use recorded::{MOST_READ_BYTES, Recorded};
pub use values::{Evaluated, pair_up, text_or_nothing, value_of};
pub use variables::Variables;
