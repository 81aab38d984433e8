// Notes of faults.
ghost use Rattle.std.specs.Prelude.{◌≡◌, ◌<◌, ◌+◌, ◌^◌};

use crate::memory::{Copied, NoMemory};
use std::alloc::Global;

/// A count of faults before and after one failed call: it rose, or it stands at the type's greatest value.
#[derive(Clone, Copy, PartialEq, Eq)]
pub struct FaultNote {
    pub before: u64,
    pub after: u64,
    ghost rose: { before + 1 < 2 ^ 64 → before < after },
    ghost kept: { before + 1 ≡ 2 ^ 64 → after ≡ before },
}

impl Copied for FaultNote {
    fn copied(&self, _alloc: Global) -> Result<FaultNote, NoMemory> {
        Ok(*self)
    }
}
