// Numbers that come next.
ghost use Rattle.std.specs.Prelude.{◌≡◌, ◌+◌, IfOk};

use lang_core::NoMemory;

/// The number after this one. What has no number of 64 bits has no memory either.
pub fn next_of(number: u64) -> Result<u64, NoMemory>
    ensures { IfOk result (λ next. next ≡ number + 1) }
{
    number.checked_add(1).ok_or(NoMemory)
}
