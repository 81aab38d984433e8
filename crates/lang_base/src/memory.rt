// Want of memory, copies and equality.
ghost use Rattle.std.specs.Prelude.{◌≡◌, ◌↔◌, ◌⊎◌, Ok, Err, IfOk, IfErr, IsTrue};

use std::alloc::{AllocError, AllocFailed, Global};

/// There was no memory for it. Any call that allocates may answer this, and nothing else is claimed of when it does.
#[derive(Clone, Copy, PartialEq, Eq, Debug)]
pub struct NoMemory;

impl From<AllocError> for NoMemory {
    fn from(_: AllocError) -> NoMemory {
        NoMemory
    }
}

impl<T: Drop> From<AllocFailed<T>> for NoMemory {
    fn from(_: AllocFailed<T>) -> NoMemory {
        NoMemory
    }
}

/// Values that can be copied where there is memory.
pub trait Copied {
    /// An equal value.
    fn copied(&self, alloc: Global) -> Result<Self, NoMemory>
        ensures { IfOk result (λ copy. copy ≡ self.now) };
}

/// Values that can be compared.
pub trait Same {
    /// Whether the two are equal.
    fn is(&self, other: &Self) -> bool
        ensures { IsTrue result ↔ (self.now ≡ other.now) };
}

/// Both values, where both are there. So parts that need memory are each made first, and tested together.
pub fn both<A: Drop, B: Drop>(
    first: Result<A, NoMemory>,
    second: Result<B, NoMemory>,
) -> Result<(A, B), NoMemory>
    ensures ok { IfOk result (λ pair. (first ≡ Ok pair.0) × (second ≡ Ok pair.1)) }
    ensures err { IfErr result (λ why. (first ≡ Err why) ⊎ (second ≡ Err why)) }
{
    match first {
        Ok(left) => match second {
            Ok(right) => Ok((left, right)),
            Err(why) => Err(why),
        },
        Err(why) => Err(why),
    }
}
