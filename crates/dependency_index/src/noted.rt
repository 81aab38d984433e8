// What was noted of each label, in the order of the labels' numbers.
ghost use Rattle.std.specs.Prelude.{◌≡◌, ◌+◌, ◌<◌, ◌≤◌, IsTrue, map, vec_len, vec_capacity};
ghost use Rattle.dependency_index.specs.Numbers.{Rises};
ghost use Rattle.dependency_index.specs.Reads.{label_of, with_noted};

use crate::numbers::seek_number;
use crate::reads::ReadsAt;
use key_labels::Labelled;
use lang_core::{Copied, NoMemory, Same};
use std::alloc::Global;

/// Where the reads of a label looked.
pub struct Noted {
    pub label: u64,
    pub reads: ReadsAt,
}

impl Drop for Noted {
    fn drop(self) {
        let Self { label: _, reads: _ } = self;
    }
}

impl Copied for Noted {
    fn copied(&self, alloc: Global) -> Result<Noted, NoMemory> {
        let reads = self.reads.copied(alloc)?;
        Ok(Noted {
            label: self.label,
            reads,
        })
    }
}

impl Labelled for Noted {
    ghost label = { λ n. n.label };

    fn label(&self) -> u64 {
        self.label
    }
}

/// Whether the label has these very reads already, in this order: to note them again changes nothing.
pub(crate) fn has_noted(noted: &[Noted], own: &Noted) -> bool
    requires { Rises (map label_of noted.now) }
    ensures { IsTrue result → with_noted own.now noted.now ≡ noted.now }
{
    let (at, taken) = seek_number(noted, own.label);
    if !taken {
        return false;
    }
    noted[at].reads.is(&own.reads)
}

/// Notes a label's reads in place of those that it had, where there is room for one label more.
pub(crate) fn set_noted(noted: &mut Vec<Noted>, own: Noted)
    requires rising { Rises (map label_of noted.old.items) }
    requires room { vec_len noted.old < vec_capacity noted.old }
    ensures noted { noted.new.items ≡ with_noted own noted.old.items }
    ensures len { vec_len noted.new ≤ vec_len noted.old + 1 }
    ensures capacity { vec_capacity noted.old ≤ vec_capacity noted.new }
{
    let (at, taken) = seek_number(noted, own.label);
    if taken {
        noted[at] = own;
        return;
    }
    let _ = noted.insert(at, own);
}
