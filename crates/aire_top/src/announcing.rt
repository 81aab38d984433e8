// Doors that tell people where services listen.
ghost use Rattle.std.specs.Prelude.{◌≡◌, ◌≤◌, OnErr};
ghost use Rattle.io_edge.specs.Edge.{Rose};
ghost use Rattle.aire_top.specs.Doors.{doors_of, told_of};

use io_edge::{Failed, Sink, write_all};
use io_links::{Door, MemoryDoor};
use std::alloc::Global;
use std::sync::Wait;
use std::time::Clock;

/// A door that is told beforehand which services it will listen for, so that it can tell people. What it tells goes to no output
/// that a contract speaks of.
pub trait AnnouncingDoor: Door {
    /// This service will be listened for at this address. It is told of each, in order, before it listens for the first.
    fn expect(&mut self, service: &str, address: &str)
        ensures { Self.faults self.old ≤ Self.faults self.new };
}

/// A door in memory tells nobody.
impl<'a, W: Wait + Clock + Sync> AnnouncingDoor for MemoryDoor<'a, W> {
    fn expect(&mut self, _service: &str, _address: &str) {}
}

/// A door that says, once it listens for each service of which it was told, at which address each is listened for; and where it
/// can't listen, at which address that is.
#[derive(Drop)]
pub struct TellingDoor<D: Drop, K: Drop> {
    doors: D,
    told: K,
    alloc: Global,
    /// A line for each service of which it was told.
    lines: String,
    /// How many these are.
    expected: u64,
    /// For how many it listens.
    listening: u64,
}

impl<D: Drop, K: Sink + Drop> TellingDoor<D, K> {
    /// One that was told of no service so far.
    pub fn new(alloc: Global, doors: D, told: K) -> Self
        ensures { doors_of result ≡ doors }
    {
        TellingDoor {
            doors,
            told,
            alloc,
            lines: String::new(alloc),
            expected: 0,
            listening: 0,
        }
    }

    /// Where it tells that.
    pub fn told(&self) -> &K
        ensures { result.now ≡ told_of self.now }
    {
        &self.told
    }

    // Writes where all listen, once they do. A fault there changes nothing else.
    fn tell_listening(&mut self)
        ensures { doors_of self.new ≡ doors_of self.old }
    {
        self.listening = self.listening.saturating_add(1);
        if self.listening == self.expected {
            let _ = write_all(&mut self.told, self.lines.as_bytes());
        }
    }

    // Writes where nobody can listen, if there is memory for that.
    fn tell_fault(&mut self, address: &str)
        ensures { doors_of self.new ≡ doors_of self.old }
    {
        if let Ok(line) = format!(in self.alloc; "aire: {address} can't be listened at\n") {
            let _ = write_all(&mut self.told, line.as_bytes());
        }
    }
}

impl<D: Door + Drop, K: Sink + Drop> Door for TellingDoor<D, K> {
    type Ear = D::Ear;

    ghost faults = { λ d. D.faults (doors_of d) };

    fn listen(&mut self, address: &str) -> Result<D::Ear, Failed> {
        match self.doors.listen(address) {
            Ok(ear) => {
                self.tell_listening();
                Ok(ear)
            }
            Err(failed) => {
                self.tell_fault(address);
                Err(failed)
            }
        }
    }
}

impl<D: Door + Drop, K: Sink + Drop> AnnouncingDoor for TellingDoor<D, K> {
    fn expect(&mut self, service: &str, address: &str) {
        self.expected = self.expected.saturating_add(1);
        if let Ok(line) = format!(in self.alloc; "aire: {service} listens at {address}\n") {
            let _ = self.lines.push_str(line.as_str());
        }
    }
}
