// Bytes, which contracts see as their list.
ghost use Rattle.std.specs.Prelude.{◌≡◌, IfOk};

use crate::memory::{Copied, NoMemory};
use std::alloc::Global;
use std::marker::Model;

/// Bytes that need not be text, seen as their list.
pub struct Bytes {
    inner: Vec<u8>,
}

impl Drop for Bytes {
    fn drop(self) {
        let Self { inner: _ } = self;
    }
}

impl Model for Bytes {
    ghost use Rattle.std.specs.Prelude.{ℕ, List};

    ghost Value = { List ℕ };

    ghost view = { λ bytes. bytes.inner.items };
}

impl Bytes {
    /// These bytes.
    pub fn of(alloc: Global, bytes: &[u8]) -> Result<Bytes, NoMemory>
        ensures { IfOk result (λ copy. copy ≡ bytes.now) }
    {
        let inner = Vec::from_slice(alloc, bytes)?;
        Ok(Bytes { inner })
    }

    /// The bytes.
    pub fn as_slice(&self) -> &[u8]
        ensures { result.now ≡ self.now }
    {
        self.inner.as_slice()
    }
}

impl From<Vec<u8>> for Bytes {
    ghost from_gives = { λ v bytes. bytes ≡ v.items };

    fn from(inner: Vec<u8>) -> Bytes {
        Bytes { inner }
    }
}

impl Copied for Bytes {
    fn copied(&self, alloc: Global) -> Result<Bytes, NoMemory> {
        Bytes::of(alloc, self.as_slice())
    }
}
