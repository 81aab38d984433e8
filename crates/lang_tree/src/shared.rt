// A value that several hold together.
ghost use Rattle.std.specs.Prelude.{◌≡◌, IfOk};

use lang_base::{Copied, NoMemory, Same};
use std::alloc::Global;
use std::marker::Model;
use std::sync::Arc;

/// A value that several hold together, in one block, and that contracts see as the value itself. It is never changed: who
/// wants another one makes it, and the others keep theirs.
#[derive(Drop)]
pub struct Shared<T> {
    held: Arc<T>,
}

impl<T> Model for Shared<T> {
    ghost Value = { T };

    ghost coded = { T.code };

    ghost view = { λ shared. shared.held.value };
}

impl<T> Shared<T> {
    /// The value.
    pub fn get(&self) -> &T
        ensures { result.now ≡ self.now }
    {
        &self.held
    }
}

impl<T: Drop> Shared<T> {
    /// A value in a block of its own, with one holder. Refused, it is dropped.
    pub fn new(alloc: Global, value: T) -> Result<Shared<T>, NoMemory>
        ensures { IfOk result (λ shared. shared ≡ value) }
    {
        let held = Arc::new(alloc, value)?;
        Ok(Shared { held })
    }
}

impl<T: Copied + Drop> Shared<T> {
    /// An equal value in a block of its own, with one holder.
    pub fn copy_of(alloc: Global, value: &T) -> Result<Shared<T>, NoMemory>
        ensures { IfOk result (λ shared. shared ≡ value.now) }
    {
        let copy = value.copied(alloc)?;
        Shared::new(alloc, copy)
    }
}

impl<T: Drop> Copied for Shared<T> {
    fn copied(&self, _alloc: Global) -> Result<Shared<T>, NoMemory> {
        let held = self.held.clone()?;
        Ok(Shared { held })
    }
}

impl<T: Same> Same for Shared<T> {
    fn is(&self, other: &Shared<T>) -> bool {
        self.get().is(other.get())
    }
}
