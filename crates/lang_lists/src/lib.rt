//! Lists in which things are found without a walk, and room that is made in advance.
//!
//! - `HashIndex`: where a key stands last in a growing list, by a hash table whose buckets are chains of places.
//! - `AgeQueue`: what waits for somebody, in the order of age, as a sorted list of keys.
//! - `Sorted`: items in the order of their numbers, of which no two have one, found by halves.
//! - `count_front`: how many items stand at the front of a list, found by halves: the one such search of the repository.
//! - `take_room`: room for a later call, so that a change of several parts makes all its room first and then changes
//!   everything without memory.
#![tactic(auto)]

mod age_edits;
mod age_keys;
mod age_queue;
mod call_room;
mod halves;
mod hash_chains;
mod hash_index;
mod hash_keys;
mod sorted;

pub use age_keys::AgeKey;
pub use age_queue::AgeQueue;
pub use call_room::take_room;
pub use halves::count_front;
pub use hash_index::HashIndex;
pub use hash_keys::{call_key, text_key};
pub use sorted::{Numbered, Sorted, find_number, search_number};
