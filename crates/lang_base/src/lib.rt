//! What every crate stands on: want of memory, text, bytes, lists, tests of characters, and notes of faults.
//!
//! Each type here is seen by contracts as the plain value that it stands for, a text as its bytes and a list as its
//! elements, so that a copy is equal to what it was copied from.
#![tactic(auto)]

mod bytes;
mod characters;
mod fault;
mod inline;
mod memory;
mod seq;
mod text;
mod thin_seq;
mod values;

pub use bytes::Bytes;
pub use characters::{all_digits, all_visible};
pub use fault::FaultNote;
pub use memory::{Copied, NoMemory, Same, both};
pub use seq::{Seq, all_same, copied_items};
pub use text::Text;
pub use thin_seq::ThinSeq;
