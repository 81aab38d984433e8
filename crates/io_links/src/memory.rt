// Doors, ears, connections and links over a network in memory.
ghost use Rattle.std.specs.Prelude.{◌≡◌, ◌<◌, ◌≤◌, ◌≢◌, [], Some, length, take, IfOk, OnErr};
ghost use Rattle.io_edge.specs.Edge.{Took, IsAtEnd, Wrote, ReadFails, WriteFails, Rose};
ghost use Rattle.io_links.specs.Connections.{IsNew, GivesNew};
ghost use Rattle.io_links.specs.Exchanges.{IsAnother, Leaves, Notes};
ghost use Rattle.io_links.specs.Memory.{call_reads, call_writes, door_faults, link_exchanges};
ghost use Rattle.std.proofs.Common.{refl};

use crate::failing::FailingCalls;
use crate::network::{CallRefused, MemoryNetwork};
use crate::told::Told;
use crate::{Accepted, Door, Ear, Exchange, Exchanged, Link};
use io_edge::{Connection, Failed, MemoryConnection, MemorySink, MemorySource, Sink, Source};
use lang_core::Text;
use std::alloc::Global;
use std::sync::Wait;
use std::time::Clock;

/// A door of a network in memory. It fails at the calls that it is told to, where an ear listens
/// at the address, and where there is no memory.
#[derive(Drop)]
pub struct MemoryDoor<'a, W: Wait + Clock> {
    rt: &'a W,
    alloc: Global,
    network: &'a MemoryNetwork,
    calls: FailingCalls,
}

impl<'a, W: Wait + Clock> MemoryDoor<'a, W> {
    /// A door of this network. The calls with the numbers in `failing`, counted from 1, fail.
    pub fn new(rt: &'a W, alloc: Global, network: &'a MemoryNetwork, failing: Vec<u64>) -> Self
        ensures faults { door_faults result ≡ 0 }
    {
        MemoryDoor {
            rt,
            alloc,
            network,
            calls: FailingCalls::new(failing),
        }
    }
}

impl<'a, W: Wait + Clock + Sync> Door for MemoryDoor<'a, W> {
    type Ear = MemoryEar<'a, W>;

    ghost faults = { λ d. door_faults d };

    fn listen(&mut self, address: &str) -> Result<MemoryEar<'a, W>, Failed>
        ensures counted { door_faults self.old ≤ door_faults self.new }
        ensures failed { OnErr result (Rose (door_faults self.old) (door_faults self.new)) }
    {
        self.calls.next()?;
        match MemoryEar::at(self.rt, self.alloc, self.network, address) {
            Ok(ear) => Ok(ear),
            Err(Failed) => {
                self.calls.fault();
                Err(Failed)
            }
        }
    }
}

/// An ear at an address of a network in memory. Closed, it refuses the calls that wait at the address and
/// those that come later. Dropped, it does so too, and the address is free.
pub struct MemoryEar<'a, W: Wait + Clock> {
    rt: &'a W,
    alloc: Global,
    network: &'a MemoryNetwork,
    address: Text,
}

impl<'a, W: Wait + Clock> MemoryEar<'a, W> {
    fn at(
        rt: &'a W,
        alloc: Global,
        network: &'a MemoryNetwork,
        address: &str,
    ) -> Result<Self, Failed> {
        let Ok(copy) = Text::of(alloc, address) else {
            return Err(Failed);
        };
        match network.open(rt, alloc, address) {
            Ok(()) => Ok(MemoryEar {
                rt,
                alloc,
                network,
                address: copy,
            }),
            Err(Failed) => Err(Failed),
        }
    }
}

impl<'a, W: Wait + Clock> Drop for MemoryEar<'a, W> {
    fn drop(self) {
        let Self {
            rt,
            alloc: _,
            network,
            address,
        } = self;
        network.close(rt, address.as_str());
    }
}

impl<'a, W: Wait + Clock + Sync> Ear for MemoryEar<'a, W> {
    type Conn = MemoryCall<'a, W>;

    fn accept(&self) -> Accepted<MemoryCall<'a, W>>
        ensures new { GivesNew (λ conn. IsNew (call_reads conn) (call_writes conn)) result }
    {
        match self.network.hear(self.rt, self.address.as_str()) {
            Some((number, bytes)) => Accepted::Conn(MemoryCall::new(
                self.rt,
                self.alloc,
                self.network,
                number,
                bytes,
            )),
            None => Accepted::Nobody,
        }
    }

    fn close(&self) {
        self.network.shut(self.rt, self.address.as_str());
    }
}

/// A call of a network in memory, as a connection of the called service. It tells its bytes.
/// Dropped, it hands what was written to it to the caller.
pub struct MemoryCall<'a, W: Wait + Clock> {
    rt: &'a W,
    network: &'a MemoryNetwork,
    number: u64,
    conn: MemoryConnection,
}

impl<'a, W: Wait + Clock> MemoryCall<'a, W> {
    fn new(
        rt: &'a W,
        alloc: Global,
        network: &'a MemoryNetwork,
        number: u64,
        bytes: Vec<u8>,
    ) -> Self
        ensures { IsNew (call_reads result) (call_writes result) }
    {
        let source = MemorySource::new(bytes, Vec::new(alloc));
        let sink = MemorySink::new(alloc, Vec::new(alloc));
        MemoryCall {
            rt,
            network,
            number,
            conn: MemoryConnection::new(source, sink),
        }
    }
}

impl<'a, W: Wait + Clock> Drop for MemoryCall<'a, W> {
    fn drop(self) {
        let Self {
            rt,
            network,
            number,
            conn,
        } = self;
        let MemoryConnection { source: _, sink } = conn;
        network.answer(rt, number, sink);
    }
}

impl<'a, W: Wait + Clock> Source for MemoryCall<'a, W> {
    ghost reads = { λ c. call_reads c };

    ghost beside = { λ c. call_writes c };

    fn read(&mut self, into: &mut [u8]) -> Result<u64, Failed>
        ensures bound { IfOk result (λ n. n ≤ length into.new) }
        ensures took { IfOk result (λ n. Took (call_reads self.old) (call_reads self.new) (take n into.new)) }
        ensures end { IfOk result (λ n. n ≡ 0 → 0 < length into.new → IsAtEnd (call_reads self.new)) }
        ensures err { OnErr result ((call_reads self.new).left ≡ (call_reads self.old).left) }
        ensures whole { (call_reads self.new).whole ≡ (call_reads self.old).whole }
        ensures beside { call_writes self.new ≡ call_writes self.old }
        ensures counted { (call_reads self.old).faults ≤ (call_reads self.new).faults }
        ensures failed { OnErr result (ReadFails (call_reads self.old) (call_reads self.new)) }
    {
        self.conn.read(into)
    }

    fn faults(&self) -> u64 {
        Source::faults(&self.conn)
    }
}

impl<'a, W: Wait + Clock> Sink for MemoryCall<'a, W> {
    ghost writes = { λ c. call_writes c };

    ghost beside = { λ c. call_reads c };

    fn write(&mut self, bytes: &[u8]) -> Result<u64, Failed>
        ensures bound { IfOk result (λ n. n ≤ length bytes.now) }
        ensures wrote { IfOk result (λ n. Wrote (call_writes self.old) (call_writes self.new) (take n bytes.now)) }
        ensures none { IfOk result (λ n. n ≡ 0 → 0 < length bytes.now
            → WriteFails (call_writes self.old) (call_writes self.new)) }
        ensures err { OnErr result ((call_writes self.new).written ≡ (call_writes self.old).written) }
        ensures beside { call_reads self.new ≡ call_reads self.old }
        ensures counted { (call_writes self.old).faults ≤ (call_writes self.new).faults }
        ensures failed { OnErr result (WriteFails (call_writes self.old) (call_writes self.new)) }
    {
        self.conn.write(bytes)
    }

    fn faults(&self) -> u64 {
        Sink::faults(&self.conn)
    }
}

impl<'a, W: Wait + Clock> Connection for MemoryCall<'a, W> {
    ghost read_keeps = { λ c. refl };

    ghost write_keeps = { λ c. refl };
}

/// A link over a network in memory. It tells its exchanges. The network says which exchanges of
/// all its links fail.
#[derive(Drop)]
pub struct MemoryLink<'a, W: Wait + Clock> {
    rt: &'a W,
    alloc: Global,
    network: &'a MemoryNetwork,
    told: Told,
}

impl<'a, W: Wait + Clock> MemoryLink<'a, W> {
    /// A link over this network, without exchanges.
    pub fn new(rt: &'a W, alloc: Global, network: &'a MemoryNetwork) -> Self
        ensures { link_exchanges result ≡ record { made = Some []; faults = 0 } }
    {
        MemoryLink {
            rt,
            alloc,
            network,
            told: Told::new(alloc),
        }
    }

    /// The exchanges that it made, in order.
    pub fn made(&self) -> &[Exchanged]
        ensures { Some result.now ≡ (link_exchanges self.now).made }
    {
        &self.told.made
    }
}

impl<'a, W: Wait + Clock> Link for MemoryLink<'a, W> {
    ghost exchanges = { λ l. link_exchanges l };

    fn another(&self) -> Self
        ensures { IsAnother (link_exchanges self.now) (link_exchanges result) }
    {
        MemoryLink::new(self.rt, self.alloc, self.network)
    }

    fn exchange(&mut self, alloc: Global, address: &str, bytes: &[u8], services: usize) -> Exchange
        ensures made { Leaves (link_exchanges self.old) (link_exchanges self.new)
            address.now bytes.now result }
        ensures counted { (link_exchanges self.old).faults ≤ (link_exchanges self.new).faults }
        ensures failed { Notes (link_exchanges self.old) (link_exchanges self.new) result }
    {
        let Ok(asked) = self.told.prepare(alloc, address, bytes) else {
            return Exchange::NoMemory;
        };
        match self
            .network
            .exchange(self.rt, alloc, address, bytes, services)
        {
            Ok(reply) => self.told.replied(alloc, asked, reply.bytes()),
            Err(CallRefused::NoMemory) => Exchange::NoMemory,
            Err(CallRefused::Failed) => self.told.failed(asked),
        }
    }
}
