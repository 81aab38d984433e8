// What a request draws from outside its rows.
ghost use Rattle.std.specs.Prelude.{◌≤◌};

use lang_tree::{Copied, NoMemory};
use std::alloc::Global;

/// The last moment that a clock tells, the greatest signed number of 64 bits.
pub const LAST_MOMENT: u64 = 9223372036854775807;

/// The clock and the random words that a request is given. They are kept with it, so that each run of it has the
/// same.
#[derive(Clone, Copy, PartialEq, Eq)]
pub struct Inputs {
    pub moment: u64,
    pub w1: u64,
    pub w2: u64,
    pub w3: u64,
    pub w4: u64,
    pub w5: u64,
    pub w6: u64,
    pub w7: u64,
    pub w8: u64,
    ghost in_range: { moment ≤ 9223372036854775807 },
}

impl Copied for Inputs {
    fn copied(&self, _alloc: Global) -> Result<Inputs, NoMemory> {
        Ok(*self)
    }
}
