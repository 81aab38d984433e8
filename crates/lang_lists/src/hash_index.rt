// The index.
ghost use Rattle.std.specs.Prelude.{◌≡◌, ◌+◌, ◌-◌, ◌<◌, ◌≤◌, [], ◌∷◌, ◌++◌, nat_eq, length, take, insert, slice_index, OnOk, IfOk, IsOk};
ghost use Rattle.lang_lists.specs.Ends.{last_end};
ghost use Rattle.lang_lists.specs.Indexes.{most_keys};

use crate::hash_chains::{MOST_KEYS, end_before, end_of, link, link_between, spread};
use lang_base::NoMemory;
use std::alloc::Global;
use std::marker::Model;

/// A list of keys of which each is found where it stands last. Contracts see the keys, and for how many more there is room.
///
/// A place is told by its end, which is one more, so that 0 says nowhere. Ends are kept as numbers of 32 bits, so that there are
/// at most 4,294,967,294 keys; beyond them memory counts as lacking.
pub struct HashIndex {
    keys: Vec<u64>,
    // By place: the end of the key before it in its bucket.
    before: Vec<u32>,
    // By bucket: the end of its last key.
    last: Vec<u32>,
}

impl Drop for HashIndex {
    fn drop(self) {
        let Self {
            keys: _,
            before: _,
            last: _,
        } = self;
    }
}

impl Model for HashIndex {
    ghost use Rattle.std.specs.Prelude.{◌-◌, vec_len, vec_capacity};
    ghost use Rattle.lang_lists.specs.Chains.{IsLinked};
    ghost use Rattle.lang_lists.specs.Indexes.{KeptIndex, spare_of};

    ghost Value = { KeptIndex };

    ghost view = { λ index. record {
      keys = index.keys.items;
      spare = spare_of (vec_len index.last) (vec_capacity index.keys - vec_len index.keys) (vec_capacity index.before - vec_len index.before) (vec_len index.keys);
    } };

    ghost invariant = { λ index. IsLinked index.keys.items index.before.items index.last.items };
}

impl HashIndex {
    /// No keys.
    pub fn new(alloc: Global) -> HashIndex
        ensures { result.keys ≡ [] }
    {
        HashIndex {
            keys: Vec::new(alloc),
            before: Vec::new(alloc),
            last: Vec::new(alloc),
        }
    }

    fn spare(&self) -> usize
        ensures { result ≡ self.now.spare }
    {
        if self.last.is_empty() {
            return 0;
        }
        let keys = self.keys.capacity() - self.keys.len();
        let before = self.before.capacity() - self.before.len();
        keys.min(before).min(self.left())
    }

    // How many keys more there may be.
    fn left(&self) -> usize
        ensures { result ≡ most_keys - length self.now.keys }
    {
        MOST_KEYS.saturating_sub(self.keys.len())
    }

    /// Makes room for so many keys more. Refused, there is as much as before, and the keys stay.
    pub fn reserve(&mut self, more: usize) -> Result<(), NoMemory>
        ensures keys { self.new.keys ≡ self.old.keys }
        ensures ok { OnOk result (more ≤ self.new.spare) }
        ensures spare { self.old.spare ≤ self.new.spare }
        ensures ready { more ≤ self.old.spare → IsOk result }
    {
        if more <= self.spare() {
            return Ok(());
        }
        if more > self.left() {
            return Err(NoMemory);
        }
        self.keys.reserve(more)?;
        self.before.reserve(more)?;
        spread(&self.keys, &mut self.before, &mut self.last)
    }

    /// Puts a key last, for which there has to be room.
    pub fn push(&mut self, key: u64)
        requires { 0 < self.old.spare }
        ensures keys { self.new.keys ≡ self.old.keys ++ key ∷ [] }
        ensures spare { self.old.spare ≤ self.new.spare + 1 }
    {
        let place = self.keys.len();
        self.keys.push_reserved(key);
        self.before.push_reserved(0);
        link(&self.keys, &mut self.before, &mut self.last, place);
    }

    /// Puts a key, for which there has to be room, at a place, counted from 0, before what stands there. Last it costs as a push
    /// does; else with the number of keys, as those behind the place move up by one.
    pub fn insert(&mut self, at: usize, key: u64)
        requires within { at ≤ length self.old.keys }
        requires room { 0 < self.old.spare }
        ensures keys { self.new.keys ≡ insert self.old.keys at key }
        ensures spare { self.old.spare ≤ self.new.spare + 1 }
    {
        if at == self.keys.len() {
            self.push(key);
        } else {
            link_between(&mut self.keys, &mut self.before, &mut self.last, at, key);
        }
    }

    /// The end of the last key that is this one; 0 where none is.
    pub fn end_of(&self, key: u64) -> usize
        ensures { result ≡ last_end (nat_eq key) self.now.keys }
    {
        end_of(&self.keys, &self.before, &self.last, key)
    }

    /// The end of the last key before a place, counted from 0, that is the key there; 0 where none is.
    pub fn end_before(&self, place: usize) -> usize
        requires { place < length self.now.keys }
        ensures { result ≡ last_end (nat_eq (slice_index self.now.keys place)) (take place self.now.keys) }
    {
        end_before(&self.keys, &self.before, &self.last, place)
    }

    /// Equal keys; nothing is said of their room.
    pub fn copied(&self, alloc: Global) -> Result<HashIndex, NoMemory>
        ensures { IfOk result (λ copy. copy.keys ≡ self.now.keys) }
    {
        let keys = Vec::from_slice(alloc, &self.keys)?;
        let before = Vec::from_slice(alloc, &self.before)?;
        let last = Vec::from_slice(alloc, &self.last)?;
        Ok(HashIndex { keys, before, last })
    }
}
