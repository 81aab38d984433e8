// The queue.
ghost use Rattle.std.specs.Prelude.{◌≡◌, ◌+◌, ◌≤◌, [], length, IfOk, IfSome, OnOk};
ghost use Rattle.std.specs.List.{Contains};
ghost use Rattle.lang_lists.specs.Ages.{weigh, each_once, of_code, IsRising, IsExchanged};

use crate::age_edits::{put_in, take_out};
use crate::age_keys::{AgeKey, of_code};
use lang_base::NoMemory;
use std::alloc::Global;
use std::marker::Model;

/// Keys in the order of their codes and, of one code, in the order of age. Contracts see them, and for how many there are
/// places.
pub struct AgeQueue {
    keys: Vec<AgeKey>,
}

impl Drop for AgeQueue {
    fn drop(self) {
        let Self { keys: _ } = self;
    }
}

impl Model for AgeQueue {
    ghost use Rattle.std.specs.Prelude.{vec_capacity};
    ghost use Rattle.lang_lists.specs.Ages.{KeptQueue, IsRising};

    ghost Value = { KeptQueue };

    ghost view = { λ q. record { keys = q.keys.items; places = vec_capacity q.keys } };

    ghost invariant = { λ q. IsRising q.keys.items };
}

impl AgeQueue {
    /// No keys.
    pub fn new(alloc: Global) -> AgeQueue
        ensures { result.keys ≡ [] }
    {
        AgeQueue {
            keys: Vec::new(alloc),
        }
    }

    /// Sees to it that there are so many places. Refused, there are as many as before, and the keys stay.
    pub fn make_places(&mut self, places: usize) -> Result<(), NoMemory>
        ensures keys { self.new.keys ≡ self.old.keys }
        ensures ok { OnOk result (places ≤ self.new.places) }
        ensures places { self.old.places ≤ self.new.places }
    {
        self.keys.reserve(places.saturating_sub(self.keys.len()))?;
        Ok(())
    }

    /// The keys of a code, the oldest first.
    pub fn of_code(&self, code: u64) -> &[AgeKey]
        ensures keys { result.now ≡ of_code code self.now.keys }
        ensures rising { IsRising result.now }
    {
        of_code(&self.keys, code)
    }

    /// Takes the one key out, which has to be there, and puts the other in, for which there has to be a place.
    pub fn exchange(&mut self, before: Option<AgeKey>, after: Option<AgeKey>)
        requires there { IfSome before (Contains self.old.keys) }
        requires room { length self.old.keys + weigh each_once after ≤ self.old.places + weigh each_once before }
        ensures keys { IsExchanged before after self.old.keys self.new.keys }
        ensures places { self.old.places ≤ self.new.places }
    {
        if before == after {
            return;
        }
        take_out(&mut self.keys, before);
        put_in(&mut self.keys, after);
    }

    /// Equal keys, with so many places.
    pub fn copied(&self, alloc: Global, places: usize) -> Result<AgeQueue, NoMemory>
        ensures keys { IfOk result (λ copy. copy.keys ≡ self.now.keys) }
        ensures places { IfOk result (λ copy. places ≤ copy.places) }
    {
        let keys = Vec::from_slice(alloc, &self.keys)?;
        let mut copy = AgeQueue { keys };
        copy.make_places(places)?;
        Ok(copy)
    }
}
