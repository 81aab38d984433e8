// Calls, by which their entries are found.
ghost use Rattle.std.specs.Prelude.{◌≡◌, ◌+◌, ◌++◌, ◌≤◌, [], length, map, nat_eq, vec_capacity, OnOk};
ghost use Rattle.lang_lists.specs.Ends.{last_end};
ghost use Rattle.dump_tables.specs.Indexed.{place_at};

use lang_core::NoMemory;
use lang_lists::HashIndex;
use std::alloc::Global;

/// Numbers of calls, and beside each the place of the entry that has the call.
pub(crate) struct CallIndex {
    pub(crate) numbers: HashIndex,
    pub(crate) places: Vec<usize>,
}

impl Drop for CallIndex {
    fn drop(self) {
        let Self {
            numbers: _,
            places: _,
        } = self;
    }
}

impl CallIndex {
    /// No calls.
    pub(crate) fn new(alloc: Global) -> CallIndex
        ensures numbers { result.numbers.keys ≡ [] }
        ensures places { result.places.items ≡ [] }
    {
        CallIndex {
            numbers: HashIndex::new(alloc),
            places: Vec::new(alloc),
        }
    }

    /// Makes room for so many calls more.
    pub(crate) fn reserve(&mut self, more: usize) -> Result<(), NoMemory>
        ensures numbers { self.new.numbers.keys ≡ self.old.numbers.keys }
        ensures places { self.new.places.items ≡ self.old.places.items }
        ensures ok { OnOk result (more ≤ self.new.numbers.spare) }
        ensures room { OnOk result (length self.new.places.items + more ≤ vec_capacity self.new.places) }
    {
        self.numbers.reserve(more)?;
        self.places.reserve(more)?;
        Ok(())
    }

    /// Puts the calls of an entry last, for which there has to be room.
    pub(crate) fn push_all(&mut self, numbers: &[u64], place: usize)
        requires spare { length numbers.now ≤ self.old.numbers.spare }
        requires room { length self.old.places.items + length numbers.now ≤ vec_capacity self.old.places }
        ensures numbers { self.new.numbers.keys ≡ self.old.numbers.keys ++ numbers.now }
        ensures places { self.new.places.items ≡ self.old.places.items ++ map (λ _. place) numbers.now }
    {
        for number in numbers {
            self.numbers.push(*number);
            self.places.push_reserved(place);
        }
    }

    /// The place of the entry that has the last call of this number, if there is one.
    pub(crate) fn place_of(&self, number: u64) -> Option<usize>
        requires { length self.now.places.items ≡ length self.now.numbers.keys }
        ensures { result ≡ place_at self.now.places.items (last_end (nat_eq number) self.now.numbers.keys) }
    {
        let end = self.numbers.end_of(number);
        if end == 0 {
            None
        } else {
            Some(self.places[end - 1])
        }
    }
}
