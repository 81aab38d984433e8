// Copies and equality of plain values.
use crate::memory::{Copied, NoMemory, Same};
use std::alloc::Global;

impl Copied for u64 {
    fn copied(&self, _alloc: Global) -> Result<u64, NoMemory> {
        Ok(*self)
    }
}

impl Same for u64 {
    fn is(&self, other: &u64) -> bool {
        *self == *other
    }
}

impl<T: Copied> Copied for Option<T> {
    fn copied(&self, alloc: Global) -> Result<Option<T>, NoMemory> {
        match self {
            None => Ok(None),
            Some(value) => Ok(Some(value.copied(alloc)?)),
        }
    }
}

impl<T: Same> Same for Option<T> {
    fn is(&self, other: &Option<T>) -> bool {
        match (self, other) {
            (None, None) => true,
            (Some(left), Some(right)) => left.is(right),
            _ => false,
        }
    }
}
