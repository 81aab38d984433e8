// Which entry has a call.
ghost use Rattle.std.specs.Prelude.{◌≡◌};

use lang_core::NoMemory;
use std::alloc::Global;

/// At the number of each call, counted from 1, the number of the entry that had it last; 0 where that isn't known. Nothing is
/// proved of it: who takes one looks whether the entry has the call.
pub(crate) struct Homes {
    entries: Vec<u64>,
}

impl Drop for Homes {
    fn drop(self) {
        let Self { entries: _ } = self;
    }
}

// An entry for each of so many calls, as far as there is room.
fn fill(entries: &mut Vec<u64>, calls: u64) {
    let most = calls.min(entries.capacity() as u64);
    for _ in entries.len() as u64..most {
        if entries.len() < entries.capacity() {
            entries.push_reserved(0);
        }
    }
}

fn set(entries: &mut Vec<u64>, number: u64, entry: u64) {
    fill(entries, number);
    if 0 < number && number <= entries.len() as u64 {
        entries[(number - 1) as usize] = entry;
    }
}

impl Homes {
    /// No entry is known.
    pub(crate) fn new(alloc: Global) -> Homes {
        Homes {
            entries: Vec::new(alloc),
        }
    }

    /// Makes room for so many calls.
    pub(crate) fn reserve(&mut self, calls: u64) -> Result<(), NoMemory> {
        self.entries
            .reserve((calls as usize).saturating_sub(self.entries.len()))?;
        Ok(())
    }

    /// This entry has the calls of these numbers. Without room it stays unknown of which entry one is.
    pub(crate) fn place(&mut self, numbers: &[u64], entry: u64) {
        for number in numbers {
            set(&mut self.entries, *number, entry);
        }
    }

    /// The entry that had the call of a number last; 0 where that isn't known.
    pub(crate) fn home(&self, number: u64) -> u64 {
        if 0 < number && number <= self.entries.len() as u64 {
            self.entries[(number - 1) as usize]
        } else {
            0
        }
    }

    /// A copy, without room for more.
    pub(crate) fn copied(&self, alloc: Global) -> Result<Homes, NoMemory> {
        let entries = Vec::from_slice(alloc, &self.entries)?;
        Ok(Homes { entries })
    }
}
