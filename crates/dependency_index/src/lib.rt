//! Which labels read a key, and which scan under a prefix of it, without a walk over all labels.
#![tactic(auto)]

mod index;
mod noted;
mod numbers;
mod prune;
mod reads;
mod room;
mod rows;

pub use index::{Index, Labels};
pub use noted::Noted;
pub use numbers::{put_reserved, seek_number};
pub use reads::{ReadAt, ReadKind, ReadsAt};
pub use room::IndexCall;
