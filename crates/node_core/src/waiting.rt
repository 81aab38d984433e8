// Copies that wait for memory.
ghost use Rattle.std.specs.Prelude.{◌≡◌};

use lang_core::Copied;
use std::alloc::Global;
use std::sync::Wait;
use std::thread;

/// An equal value. Where memory is wanting it tries again until there is some.
pub(crate) fn copied_at_last<T: Copied>(rt: &impl Wait, alloc: Global, value: &T) -> T
    ensures { result ≡ value.now }
{
    for _ in rt.forever() {
        if let Ok(copy) = value.copied(alloc) {
            return copy;
        }
        thread::yield_now();
    }
    unreachable!()
}

/// An equal answer, or an equal refusal. Where memory is wanting it tries again until there is some.
pub(crate) fn answer_at_last<T: Copied, E: Copy>(
    rt: &impl Wait,
    alloc: Global,
    answer: &Result<T, E>,
) -> Result<T, E>
    ensures { result ≡ answer.now }
{
    match answer {
        Ok(value) => Ok(copied_at_last(rt, alloc, value)),
        Err(why) => Err(*why),
    }
}
