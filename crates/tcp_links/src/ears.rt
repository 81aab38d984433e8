// Doors over TCP.
ghost use Rattle.std.specs.Prelude.{◌≡◌, ◌≤◌, IfOk, OnOk, OnErr};
ghost use Rattle.io_edge.specs.Edge.{Rose};
ghost use Rattle.io_edge.specs.Told.{count_after};
ghost use Rattle.io_links.specs.Connections.{IsNew, GivesNew};
ghost use Rattle.tcp_links.specs.Connections.{tcp_reads, tcp_writes};
ghost use Rattle.tcp_links.specs.Faults.{door_faults};

use crate::ClosingDoor;
use crate::closing::{Kept, sweep};
use crate::connection::TcpConnection;
use crate::deadline::Deadline;
use crate::guests::{Guest, Guests};
use crate::stopping::StopSignal;
use io_edge::Failed;
use io_links::{Accepted, Door, Ear, PATIENCE};
use mio::Poll;
use mio::net::TcpListener;
use std::alloc::Global;
use std::io;
use std::net::{Net, TcpStream, ToSocketAddrs};
use std::sync::{Arc, Mutex, Wait};
use std::time::{Clock, Duration, Instant};

/// How long an ear looks before it says that nobody came, in milliseconds.
const LOOK: u64 = 100;

/// A door over TCP.
#[derive(Drop)]
pub struct TcpDoor<'a, R: Net + Clock + Wait> {
    rt: &'a R,
    alloc: Global,
    stop: &'a StopSignal,
    patience: Duration,
    faults: u64,
}

impl<'a, R: Net + Clock + Wait> TcpDoor<'a, R> {
    /// A door that listened nowhere so far, whose connections have 10 seconds for each thing. Its ears
    /// and their connections end where this signal is raised, and closing one of its ears raises it.
    pub fn new(rt: &'a R, alloc: Global, stop: &'a StopSignal) -> Self
        ensures { door_faults result ≡ 0 }
    {
        TcpDoor::with_patience(rt, alloc, stop, Duration::from_millis(PATIENCE))
    }

    /// A door whose connections have so long to send their heads, as long again to send the rest, and
    /// as long again for a reply, from when it is there.
    pub fn with_patience(rt: &'a R, alloc: Global, stop: &'a StopSignal, patience: Duration) -> Self
        ensures { door_faults result ≡ 0 }
    {
        TcpDoor {
            rt,
            alloc,
            stop,
            patience,
            faults: 0,
        }
    }
}

impl<'a, R: Net + Clock + Wait + Sync> Door for TcpDoor<'a, R> {
    type Ear = TcpEar<'a, R>;

    ghost faults = { λ d. door_faults d };

    fn listen(&mut self, address: &str) -> Result<TcpEar<'a, R>, Failed>
        ensures counted { door_faults self.old ≤ door_faults self.new }
        ensures failed { OnErr result (Rose (door_faults self.old) (door_faults self.new)) }
        // Each failure counts once, and nothing else counts.
        ensures one { OnErr result (door_faults self.new ≡ count_after (door_faults self.old)) }
        ensures none_else { OnOk result (door_faults self.new ≡ door_faults self.old) }
    {
        match TcpEar::at(self.rt, self.alloc, self.stop, self.patience, address) {
            Ok(ear) => Ok(ear),
            Err(_) => {
                self.faults = self.faults.saturating_add(1);
                Err(Failed)
            }
        }
    }
}

/// A socket that listens. A connection is given once the head of its request is whole, so that one
/// that sends nothing, or slowly, keeps no worker, and has its own time from then on; or once it has
/// waited for 10 seconds, and then it fails at its first read beyond what came.
#[derive(Drop)]
pub struct TcpEar<'a, R: Clock + Wait> {
    rt: &'a R,
    stop: &'a StopSignal,
    patience: Duration,
    guests: Mutex<Guests>,
    door: ClosingDoor,
}

// The socket that listens at the first of these addresses that is free.
fn bound<R: Net>(rt: &R, address: &str) -> io::Result<TcpListener> {
    let mut last = io::Error::from(io::ErrorKind::InvalidInput);
    for addr in address.to_socket_addrs(rt)? {
        match TcpListener::bind(rt, addr) {
            Ok(listener) => return Ok(listener),
            Err(error) => last = error,
        }
    }
    Err(last)
}

impl<'a, R: Net + Clock + Wait> TcpEar<'a, R> {
    fn at(
        rt: &'a R,
        alloc: Global,
        stop: &'a StopSignal,
        patience: Duration,
        address: &str,
    ) -> io::Result<Self> {
        let listener = bound(rt, address)?;
        let guests = Guests::new(alloc, Poll::new(rt)?, listener)?;
        match Arc::new(alloc, Mutex::new(Kept::new(alloc))) {
            Ok(door) => Ok(TcpEar {
                rt,
                stop,
                patience,
                guests: Mutex::new(guests),
                door,
            }),
            Err(_) => Err(io::Error::from(io::ErrorKind::OutOfMemory)),
        }
    }
}

// From a guest a connection, which is read by this deadline, or not at all if it has waited that long and its head isn't whole. A
// reply has as long from when it is there.
fn connection<'a, R: Clock + Wait>(
    deadline: Deadline<'a, R>,
    guest: Guest,
    door: ClosingDoor,
) -> io::Result<TcpConnection<'a, R>>
    ensures { IfOk result (λ conn. IsNew (tcp_reads conn) (tcp_writes conn)) }
{
    let mut deadline = deadline;
    let reply = Some(deadline.most);
    if !guest.is_ready() && deadline.since.duration_since(guest.since) >= deadline.most {
        deadline.since = guest.since;
    }
    let (stream, bytes) = guest.into_parts();
    let stream = TcpStream::from(stream);
    stream.set_nonblocking(false)?;
    stream.set_nodelay(true)?;
    Ok(TcpConnection::new(deadline, reply, stream, bytes, Some(door)))
}

impl<'a, R: Clock + Wait + Sync> Ear for TcpEar<'a, R> {
    type Conn = TcpConnection<'a, R>;

    fn accept(&self) -> Accepted<TcpConnection<'a, R>>
        ensures new { GivesNew (λ conn. IsNew (tcp_reads conn) (tcp_writes conn)) result }
    {
        sweep(self.rt, &self.door);
        let guest = self.guest();
        let Ok(guest) = guest else {
            return Accepted::Failed;
        };
        let Some(guest) = guest else {
            return Accepted::Nobody;
        };
        match self.connection(guest) {
            Ok(conn) => Accepted::Conn(conn),
            Err(_) => Accepted::Failed,
        }
    }

    fn close(&self) {
        self.stop.raise();
    }
}

impl<'a, R: Clock + Wait> TcpEar<'a, R> {
    // The next that is ready, if one is within a look. None from when the ear is closed: who waited
    // for the lock meanwhile finds out here, and who looked meanwhile behind the look.
    fn guest(&self) -> io::Result<Option<Guest>> {
        let mut guests = self.guests.lock(self.rt);
        if self.stop.is_raised() {
            return Ok(None);
        }
        let guest = guests.look(self.rt, Duration::from_millis(LOOK), self.patience)?;
        if self.stop.is_raised() {
            return Ok(None);
        }
        Ok(guest)
    }

    // A connection whose request may take as long as the door says from now on.
    fn connection(&self, guest: Guest) -> io::Result<TcpConnection<'a, R>>
        ensures { IfOk result (λ conn. IsNew (tcp_reads conn) (tcp_writes conn)) }
    {
        let door = Arc::try_clone(&self.door)?;
        connection(
            Deadline::within(self.rt, self.stop, self.patience)?,
            guest,
            door,
        )
    }
}
