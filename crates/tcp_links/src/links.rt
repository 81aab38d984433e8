// Calls to peers over TCP.
ghost use Rattle.std.specs.Prelude.{◌≡◌, ◌≤◌};
ghost use Rattle.io_edge.specs.Told.{count_after};
ghost use Rattle.io_links.specs.Exchanges.{IsAnother, IsFailure, Leaves, Notes};
ghost use Rattle.tcp_links.specs.Faults.{tcp_exchanges};

use crate::connecting::connect;
use crate::connection::TcpConnection;
use crate::deadline::Deadline;
use crate::exchanges::exchange_over;
use crate::stopping::StopSignal;
use io_links::{Exchange, Link, PATIENCE, exchange_millis};
use lang_core::FaultNote;
use std::alloc::Global;
use std::io;
use std::net::{Net, ToSocketAddrs};
use std::sync::Wait;
use std::time::{Clock, Duration};

/// The most bytes of a reply that are read: a head, a body, and one more.
const LONGEST_REPLY: u64 = 81_921;

/// A link over TCP: each exchange is made on a connection of its own, and fails where it isn't done
/// within its time, or before the program stops. It tells no exchanges.
#[derive(Drop)]
pub struct TcpLink<'a, R: Net + Clock + Wait> {
    rt: &'a R,
    stop: &'a StopSignal,
    patience: Duration,
    faults: u64,
}

impl<'a, R: Net + Clock + Wait> TcpLink<'a, R> {
    /// A link that made no exchange so far, each of which has the time of what it sends, and fails
    /// where this signal is raised.
    pub fn new(rt: &'a R, stop: &'a StopSignal) -> Self
        ensures { (tcp_exchanges result).faults ≡ 0 }
    {
        TcpLink::with_patience(rt, stop, Duration::from_millis(PATIENCE))
    }

    /// A link of which no exchange has longer than this.
    pub fn with_patience(rt: &'a R, stop: &'a StopSignal, patience: Duration) -> Self
        ensures { (tcp_exchanges result).faults ≡ 0 }
    {
        TcpLink {
            rt,
            stop,
            patience,
            faults: 0,
        }
    }

    // A connection for one exchange of a request with so many services in its chain, which ends in its time.
    fn connected(
        &self,
        alloc: Global,
        address: &str,
        services: usize,
    ) -> io::Result<TcpConnection<'a, R>> {
        let most = Duration::from_millis(exchange_millis(services));
        let deadline = Deadline::within(self.rt, self.stop, self.patience.min(most))?;
        connected(deadline, alloc, address)
    }

    // Counts a failed exchange.
    fn failed(&mut self) -> Exchange
        ensures failure { IsFailure result }
        ensures notes { Notes (tcp_exchanges self.old) (tcp_exchanges self.new) result }
        ensures one { (tcp_exchanges self.new).faults ≡ count_after (tcp_exchanges self.old).faults }
    {
        let before = self.faults;
        let after = before.saturating_add(1);
        self.faults = after;
        Exchange::Failed(FaultNote { before, after })
    }
}

// A connection to the first of the addresses that answers. All that it does ends by this deadline.
fn connected<'a, R: Net + Clock + Wait>(
    deadline: Deadline<'a, R>,
    alloc: Global,
    address: &str,
) -> io::Result<TcpConnection<'a, R>> {
    let mut last = io::Error::from(io::ErrorKind::InvalidInput);
    for addr in address.to_socket_addrs(deadline.rt)? {
        match connect(&deadline, alloc, addr) {
            Ok(stream) => {
                return Ok(TcpConnection::new(deadline, None, stream, Vec::new(alloc), None));
            }
            Err(error) => last = error,
        }
    }
    Err(last)
}

impl<'a, R: Net + Clock + Wait> Link for TcpLink<'a, R> {
    ghost exchanges = { λ l. tcp_exchanges l };

    fn another(&self) -> Self
        ensures { IsAnother (tcp_exchanges self.now) (tcp_exchanges result) }
    {
        TcpLink::with_patience(self.rt, self.stop, self.patience)
    }

    fn exchange(&mut self, alloc: Global, address: &str, bytes: &[u8], services: usize) -> Exchange
        ensures made { Leaves (tcp_exchanges self.old) (tcp_exchanges self.new)
            address.now bytes.now result }
        ensures counted { (tcp_exchanges self.old).faults ≤ (tcp_exchanges self.new).faults }
        ensures failed { Notes (tcp_exchanges self.old) (tcp_exchanges self.new) result }
    {
        let Ok(mut conn) = self.connected(alloc, address, services) else {
            return self.failed();
        };
        match exchange_over(alloc, &mut conn, bytes, LONGEST_REPLY) {
            Exchange::Reply(reply) => Exchange::Reply(reply),
            Exchange::NoMemory => Exchange::NoMemory,
            Exchange::Failed(_) => self.failed(),
        }
    }
}
