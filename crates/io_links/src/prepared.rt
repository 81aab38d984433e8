// A link in memory whose replies are known beforehand.
ghost use Rattle.std.specs.Prelude.{◌≡◌, ◌≤◌, Some};
ghost use Rattle.lang_base.specs.Memory.{Unless};
ghost use Rattle.io_links.specs.Exchanges.{IsAnother, Leaves, Notes, wants_memory};
ghost use Rattle.io_links.specs.Prepared.{prepared_exchanges, prepared_next, prepared_replies, Answers};

use crate::told::Told;
use crate::{Exchange, Exchanged, Link};
use lang_core::Bytes;
use std::alloc::Global;

/// A link in memory that gives replies in their order, whatever it sends and where to. An exchange
/// fails where none is prepared for it. It tells its exchanges.
#[derive(Drop)]
pub struct PreparedLink<'a> {
    alloc: Global,
    replies: &'a [Option<Bytes>],
    told: Told,
}

impl<'a> PreparedLink<'a> {
    /// A link whose n-th exchange gets the n-th of these, and fails where that is None or there is
    /// none.
    pub fn new(alloc: Global, replies: &'a [Option<Bytes>]) -> Self
        ensures replies { prepared_replies result ≡ replies.now }
        ensures made { prepared_next result ≡ 0 }
        ensures faults { (prepared_exchanges result).faults ≡ 0 }
    {
        PreparedLink {
            alloc,
            replies,
            told: Told::new(alloc),
        }
    }

    /// The exchanges that it made, in order.
    pub fn made(&self) -> &[Exchanged]
        ensures { Some result.now ≡ (prepared_exchanges self.now).made }
    {
        &self.told.made
    }
}

impl<'a> Link for PreparedLink<'a> {
    ghost exchanges = { λ l. prepared_exchanges l };

    fn another(&self) -> Self
        ensures another { IsAnother (prepared_exchanges self.now) (prepared_exchanges result) }
        // One with these replies, from the first.
        ensures replies { prepared_replies result ≡ prepared_replies self.now }
        ensures made { prepared_next result ≡ 0 }
    {
        PreparedLink::new(self.alloc, self.replies)
    }

    fn exchange(&mut self, alloc: Global, address: &str, bytes: &[u8], _services: usize) -> Exchange
        ensures made { Leaves (prepared_exchanges self.old) (prepared_exchanges self.new)
            address.now bytes.now result }
        ensures counted { (prepared_exchanges self.old).faults ≤ (prepared_exchanges self.new).faults }
        ensures failed { Notes (prepared_exchanges self.old) (prepared_exchanges self.new) result }
        // What is prepared is what comes of it.
        ensures answer { Unless (wants_memory result) (Answers self.old result)
            (prepared_exchanges self.new ≡ prepared_exchanges self.old) }
        ensures replies { prepared_replies self.new ≡ prepared_replies self.old }
    {
        let Ok(asked) = self.told.prepare(alloc, address, bytes) else {
            return Exchange::NoMemory;
        };
        match self.replies.get(self.told.made.len()) {
            Some(Some(reply)) => self.told.replied(alloc, asked, reply.as_slice()),
            _ => self.told.failed(asked),
        }
    }
}
