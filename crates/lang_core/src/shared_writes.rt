// The writes of a run that ended, which several hold together.
ghost use Rattle.std.specs.Prelude.{◌≡◌, [], List, length, find, IfOk};
ghost use Rattle.std.specs.Option.{option_copied};
ghost use Rattle.lang_core.specs.Places.{IsOrdered, place_of, same_place};
ghost use Rattle.lang_core.specs.Rows.{write_place};

use crate::place::item_at;
use crate::writes::{Write, Writes};
use lang_tree::{Copied, NoMemory, Same, Text, all_same};
use std::alloc::Global;
use std::marker::Model;
use std::slice::from_ref;
use std::sync::Arc;

/// Where writes stand: most runs write one key or none, so one stands in the block that counts its holders.
enum HeldWrites {
    Nothing,
    One(Arc<Write>),
    Many(Arc<Writes>),
}

impl Drop for HeldWrites {
    fn drop(self) {
        match self {
            Self::Nothing | Self::One(_) | Self::Many(_) => {}
        }
    }
}

/// The writes of a run that ended, which its record and the versions of rows hold together, and which contracts see as the
/// list of them. They are never changed. None take no block, and one takes one.
pub struct SharedWrites {
    held: HeldWrites,
}

impl Drop for SharedWrites {
    fn drop(self) {
        let Self { held: _ } = self;
    }
}

const _: () = prove!(size_of::<SharedWrites>() == 16);

impl Model for SharedWrites {
    ghost use Rattle.std.specs.Prelude.{List};
    ghost use Rattle.std.specs.Coded.{coded_list};
    ghost use Rattle.lang_core.specs.contracts.writes.Write as write;
    ghost use Rattle.lang_core.specs.declared.writes.Write.{Write};
    ghost use Rattle.lang_core.specs.Places.{IsOrdered};
    ghost use Rattle.lang_core.specs.Rows.{write_place};
    ghost use Rattle.lang_core.specs.Held.{held_writes};

    ghost Value = { List Write };

    ghost coded = { coded_list write.the_row.coded };

    ghost view = { λ writes. held_writes writes.held };

    ghost invariant = { λ writes. IsOrdered write_place (held_writes writes.held) };
}

fn one_of(alloc: Global, writes: Writes) -> Result<SharedWrites, NoMemory>
    requires { length writes ≡ 1 }
    ensures { IfOk result (λ shared. shared ≡ writes) }
{
    let mut items = writes.items;
    let write = items.pop().unwrap();
    let held = HeldWrites::One(Arc::new(alloc, write)?);
    Ok(SharedWrites { held })
}

fn many_of(alloc: Global, writes: Writes) -> Result<SharedWrites, NoMemory>
    ensures { IfOk result (λ shared. shared ≡ writes) }
{
    let held = HeldWrites::Many(Arc::new(alloc, writes)?);
    Ok(SharedWrites { held })
}

impl SharedWrites {
    /// No writes.
    pub fn new() -> SharedWrites
        ensures { result ≡ [] }
    {
        SharedWrites {
            held: HeldWrites::Nothing,
        }
    }

    /// These writes, with one holder. Refused, they are dropped.
    pub fn of(alloc: Global, writes: Writes) -> Result<SharedWrites, NoMemory>
        ensures { IfOk result (λ shared. shared ≡ writes) }
    {
        match writes.len() {
            0 => Ok(SharedWrites::new()),
            1 => one_of(alloc, writes),
            _ => many_of(alloc, writes),
        }
    }

    /// The writes, in order.
    pub fn as_slice(&self) -> &[Write]
        ensures items { result.now ≡ self.now }
        ensures ordered { IsOrdered write_place self.now }
    {
        match &self.held {
            HeldWrites::Nothing => &[],
            HeldWrites::One(write) => from_ref::<Write>(write),
            HeldWrites::Many(writes) => writes.as_slice(),
        }
    }

    /// How many writes there are.
    pub fn len(&self) -> u64
        ensures { result ≡ length self.now }
    {
        self.as_slice().len() as u64
    }

    /// The write at the table and the key; None exactly where there is none.
    pub fn find(&self, table: &Text, key: &Text) -> Option<&Write>
        ensures { option_copied result ≡ find (λ x. same_place (write_place x) (place_of table.now key.now)) self.now }
    {
        item_at(self.as_slice(), table, key)
    }
}

impl Copied for SharedWrites {
    fn copied(&self, _alloc: Global) -> Result<SharedWrites, NoMemory> {
        match &self.held {
            HeldWrites::Nothing => Ok(SharedWrites::new()),
            HeldWrites::One(write) => {
                let held = HeldWrites::One(write.clone()?);
                Ok(SharedWrites { held })
            }
            HeldWrites::Many(writes) => {
                let held = HeldWrites::Many(writes.clone()?);
                Ok(SharedWrites { held })
            }
        }
    }
}

impl Same for SharedWrites {
    fn is(&self, other: &SharedWrites) -> bool {
        all_same(self.as_slice(), other.as_slice())
    }
}
