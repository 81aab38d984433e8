//! Versions of rows: what each place of an order wrote, and what is read before a place, without a walk over the places.
//! Before all places stand base rows, which are none at first.
#![tactic(auto)]

mod fold;
mod places;
mod room;
mod rows;
mod versions;

pub use places::PlaceWrites;
pub use room::VersionsCall;
pub use versions::Versions;
