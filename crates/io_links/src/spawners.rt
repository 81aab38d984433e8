// Who starts threads: the system, and the system as far as a test lets it.
ghost use Rattle.std.specs.Prelude.{◌≡◌, ◌≤◌, ◌↔◌, IsErr, OnOk, OnErr};
ghost use Rattle.io_edge.specs.Edge.{Rose};
ghost use Rattle.io_edge.specs.Told.{count_after};
ghost use Rattle.io_links.specs.Failing.{IsToldToFail};
ghost use Rattle.io_links.specs.Spawners.{system_refusals, memory_starts};

use crate::Spawner;
use crate::failing::FailingCalls;
use io_edge::Failed;

/// Starts threads of the system. A start is refused where the system makes no thread.
pub struct SystemSpawner {
    refusals: u64,
}

impl Drop for SystemSpawner {
    fn drop(self) {
        let Self { refusals: _ } = self;
    }
}

impl SystemSpawner {
    /// None was refused so far.
    pub fn new() -> Self
        ensures { system_refusals result ≡ 0 }
    {
        SystemSpawner { refusals: 0 }
    }
}

impl Spawner for SystemSpawner {
    ghost faults = { λ s. system_refusals s };

    fn admit(&mut self) -> Result<(), Failed>
        ensures counted { system_refusals self.old ≤ system_refusals self.new }
        ensures failed { OnErr result (Rose (system_refusals self.old) (system_refusals self.new)) }
        // Nothing counts but a thread that could not be made.
        ensures none { system_refusals self.new ≡ system_refusals self.old }
    {
        Ok(())
    }

    fn refused(&mut self)
        ensures counted { system_refusals self.old ≤ system_refusals self.new }
        ensures rose { Rose (system_refusals self.old) (system_refusals self.new) }
        ensures one { system_refusals self.new ≡ count_after (system_refusals self.old) }
    {
        self.refusals = self.refusals.saturating_add(1);
    }
}

/// Starts threads of the system, but for the starts that it is told to refuse.
pub struct MemorySpawner {
    starts: FailingCalls,
}

impl Drop for MemorySpawner {
    fn drop(self) {
        let Self { starts: _ } = self;
    }
}

impl MemorySpawner {
    /// The starts with the numbers in `failing`, counted from 1, are refused.
    pub fn new(failing: Vec<u64>) -> Self
        ensures failing { (memory_starts result).failing ≡ failing }
        ensures made { (memory_starts result).made ≡ 0 }
        ensures faults { (memory_starts result).faults ≡ 0 }
    {
        MemorySpawner {
            starts: FailingCalls::new(failing),
        }
    }
}

impl Spawner for MemorySpawner {
    ghost faults = { λ s. (memory_starts s).faults };

    fn admit(&mut self) -> Result<(), Failed>
        ensures counted { (memory_starts self.old).faults ≤ (memory_starts self.new).faults }
        ensures failed { OnErr result (Rose (memory_starts self.old).faults (memory_starts self.new).faults) }
        // It refuses exactly where it is told to, and each refusal counts once.
        ensures told { IsErr result ↔ IsToldToFail (memory_starts self.old) }
        ensures one { OnErr result ((memory_starts self.new).faults ≡ count_after (memory_starts self.old).faults) }
        ensures none_else { OnOk result ((memory_starts self.new).faults ≡ (memory_starts self.old).faults) }
        ensures failing { (memory_starts self.new).failing ≡ (memory_starts self.old).failing }
        ensures made { (memory_starts self.new).made ≡ count_after (memory_starts self.old).made }
    {
        self.starts.next()
    }

    fn refused(&mut self)
        ensures counted { (memory_starts self.old).faults ≤ (memory_starts self.new).faults }
        ensures rose { Rose (memory_starts self.old).faults (memory_starts self.new).faults }
        ensures one { (memory_starts self.new).faults ≡ count_after (memory_starts self.old).faults }
        ensures failing { (memory_starts self.new).failing ≡ (memory_starts self.old).failing }
        ensures made { (memory_starts self.new).made ≡ (memory_starts self.old).made }
    {
        self.starts.fault();
    }
}
