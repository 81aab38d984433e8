// Where calls to peers go.
ghost use Rattle.std.specs.Prelude.{◌≤◌};
ghost use Rattle.io_links.specs.Exchanges.{Exchanges, IsAnother, Leaves, Notes};

use lang_core::{Bytes, Copied, FaultNote, NoMemory, Text};
use std::alloc::Global;

/// What came of one exchange with a peer.
#[derive(Drop)]
pub enum Exchange {
    /// All bytes that the peer sent back.
    Reply(Bytes),
    /// No memory for it. The link is as it was.
    NoMemory,
    /// It failed, and this is the link's count of faults before and after.
    Failed(FaultNote),
}

impl Copied for Exchange {
    fn copied(&self, alloc: Global) -> Result<Exchange, NoMemory> {
        match self {
            Exchange::Reply(reply) => Ok(Exchange::Reply(reply.copied(alloc)?)),
            Exchange::NoMemory => Ok(Exchange::NoMemory),
            Exchange::Failed(note) => Ok(Exchange::Failed(*note)),
        }
    }
}

/// An exchange that was made.
#[derive(Drop)]
pub struct Exchanged {
    /// Where to.
    pub address: Text,
    /// What was sent.
    pub bytes: Bytes,
    /// What came of it, a reply or a failure.
    pub answer: Exchange,
}

impl Copied for Exchanged {
    fn copied(&self, alloc: Global) -> Result<Exchanged, NoMemory> {
        let address = self.address.copied(alloc)?;
        let bytes = self.bytes.copied(alloc)?;
        Ok(Exchanged {
            address,
            bytes,
            answer: self.answer.copied(alloc)?,
        })
    }
}

/// Calls peers, each at an address. Each worker has a link of its own.
pub trait Link: Drop {
    /// What the link tells: the exchanges that it made, and its count of faults.
    ghost exchanges: { Self → Exchanges };

    /// A link to the same peers that made no exchange so far.
    fn another(&self) -> Self
        ensures { IsAnother (exchanges self.now) (exchanges result) };

    /// Sends these bytes to the peer at this address, and takes all that it sends back. `services` is how many stand in the chain
    /// of the request that they spell, the sender among them, and 0 where they are a post: what takes longer than `exchange_millis`
    /// has for it fails. No contract speaks of time.
    ///
    /// Where the link tells its exchanges, this one stands last afterwards, with its answer. A
    /// failure is answered with the count before and after, which rose or stands at the greatest
    /// `u64`. Want of memory leaves what the link tells as it was.
    fn exchange(&mut self, alloc: Global, address: &str, bytes: &[u8], services: usize) -> Exchange
        ensures made { Leaves (exchanges self.old) (exchanges self.new) address.now bytes.now result }
        ensures counted { (exchanges self.old).faults ≤ (exchanges self.new).faults }
        ensures failed { Notes (exchanges self.old) (exchanges self.new) result };
}
