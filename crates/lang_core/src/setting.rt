// The setting of a service.
ghost use Rattle.std.specs.Prelude.{Contains};

use crate::ids::{Name, Names};
use lang_tree::{Copied, NoMemory, Program};
use std::alloc::Global;

/// A service's own name, the services that it may call, its program, and how heavy its journal may grow. Its own
/// name isn't among its peers'.
pub struct Setting {
    pub me: Name,
    pub peers: Names,
    pub program: Program,
    pub weight: u64,
    ghost alone: { ¬ Contains peers me },
}

impl Drop for Setting {
    fn drop(self) {
        let Self {
            me: _,
            peers: _,
            program: _,
            weight: _,
        } = self;
    }
}

impl Copied for Setting {
    fn copied(&self, alloc: Global) -> Result<Setting, NoMemory> {
        Ok(Setting {
            me: self.me.copied(alloc)?,
            peers: self.peers.copied(alloc)?,
            program: self.program.copied(alloc)?,
            weight: self.weight,
        })
    }
}
