// Two copies at once.
ghost use Rattle.std.specs.Prelude.{◌≡◌, IfOk};

use lang_core::{Copied, NoMemory};
use std::alloc::Global;

/// Copies of both, or of neither where there is no memory.
pub fn copied_pair<A: Copied + Drop, B: Copied>(
    alloc: Global,
    first: &A,
    second: &B,
) -> Result<(A, B), NoMemory>
    ensures { IfOk result (λ pair. (pair.0 ≡ first.now) × (pair.1 ≡ second.now)) }
{
    let first_copy = first.copied(alloc)?;
    let second_copy = second.copied(alloc)?;
    Ok((first_copy, second_copy))
}
