// A connection over TCP, read through one buffer.
ghost use Rattle.std.specs.Prelude.{◌≡◌, ◌<◌, ◌≤◌, length, take, IfOk, OnOk, OnErr, vec_len};
ghost use Rattle.std.proofs.Common.{refl};
ghost use Rattle.io_edge.specs.Edge.{Took, IsAtEnd, Wrote, ReadFails, WriteFails};
ghost use Rattle.io_edge.specs.Told.{count_after};
ghost use Rattle.io_links.specs.Connections.{IsNew};

use crate::clocked::Clocked;
use crate::closing::{Kept, linger};
use crate::deadline::Deadline;
use io_edge::{Connection, Failed, Sink, Source};
use std::alloc::Global;
use std::net::TcpStream;
use std::sync::{Arc, Mutex, Wait};
use std::time::{Clock, Duration};

/// The most bytes that one read of the socket asks for.
const PIECE: usize = 4096;

/// The sockets that wait for their peers to close, which an ear shares with its connections.
pub type ClosingDoor = Arc<Mutex<Kept>, Global>;

/// A connection over TCP. Reads and writes all end by one moment, but for a reply, which has time of
/// its own from its first write on: what isn't done by then fails. Once the program stops a read
/// beyond what came fails, and so does a write that finds no room. It tells no bytes.
///
/// Dropped, its write half is shut, and where it came through a door the ear goes on to take what
/// the peer still sends, within bounds, until the peer closes too: so a reply arrives whole, also
/// where the request wasn't read to its end.
pub struct TcpConnection<'a, R: Clock + Wait> {
    socket: Clocked<'a, R>,
    bytes: Vec<u8>,
    at: usize,
    read_faults: u64,
    write_faults: u64,
    door: Option<ClosingDoor>,
    ghost in_bytes: { at ≤ vec_len bytes },
}

impl<'a, R: Clock + Wait> TcpConnection<'a, R> {
    ghost use Rattle.tcp_links.specs.Connections.{tcp_reads, tcp_writes};

    /// A connection over a socket, of which these bytes came already. Writes have as long as `reply`
    /// says from the first of them on, or end by the deadline too.
    pub(crate) fn new(
        deadline: Deadline<'a, R>,
        reply: Option<Duration>,
        stream: TcpStream,
        bytes: Vec<u8>,
        door: Option<ClosingDoor>,
    ) -> Self
        ensures { IsNew (tcp_reads result) (tcp_writes result) }
    {
        TcpConnection {
            socket: Clocked {
                stream,
                deadline,
                reply,
            },
            bytes,
            at: 0,
            read_faults: 0,
            write_faults: 0,
            door,
        }
    }

    // Takes from the socket what comes next, which is nothing at the end. All that came before was
    // given.
    fn fill(&mut self) -> Result<(), Failed>
        ensures reads { (tcp_reads self.new).faults ≡ (tcp_reads self.old).faults }
        ensures writes { (tcp_writes self.new).faults ≡ (tcp_writes self.old).faults }
    {
        self.at = 0;
        self.bytes.clear();
        if self.bytes.reserve(PIECE).is_err() {
            return Err(Failed);
        }
        let mut piece = [0u8; PIECE];
        let Ok(n) = self.socket.read(&mut piece) else {
            return Err(Failed);
        };
        match self.bytes.extend_from_slice(&piece[..n]) {
            Ok(()) => Ok(()),
            Err(_) => Err(Failed),
        }
    }
}

impl<'a, R: Clock + Wait> Drop for TcpConnection<'a, R> {
    fn drop(self) {
        let Self {
            socket,
            bytes: _,
            at: _,
            read_faults: _,
            write_faults: _,
            door,
        } = self;
        let Clocked {
            stream,
            deadline,
            reply: _,
        } = socket;
        if let Some(door) = door {
            linger(deadline.rt, &door, stream);
        }
    }
}

impl<'a, R: Clock + Wait> Source for TcpConnection<'a, R> {
    ghost use Rattle.tcp_links.specs.Connections.{tcp_reads, tcp_writes};

    ghost reads = { λ c. tcp_reads c };

    ghost beside = { λ c. tcp_writes c };

    fn read(&mut self, into: &mut [u8]) -> Result<u64, Failed>
        ensures bound { IfOk result (λ n. n ≤ length into.new) }
        ensures took { IfOk result (λ n. Took (tcp_reads self.old) (tcp_reads self.new) (take n into.new)) }
        ensures end { IfOk result (λ n. n ≡ 0 → 0 < length into.new → IsAtEnd (tcp_reads self.new)) }
        ensures err { OnErr result ((tcp_reads self.new).left ≡ (tcp_reads self.old).left) }
        ensures beside { tcp_writes self.new ≡ tcp_writes self.old }
        ensures counted { (tcp_reads self.old).faults ≤ (tcp_reads self.new).faults }
        ensures failed { OnErr result (ReadFails (tcp_reads self.old) (tcp_reads self.new)) }
        // Each failed read counts once, and nothing else counts.
        ensures one { OnErr result ((tcp_reads self.new).faults ≡ count_after (tcp_reads self.old).faults) }
        ensures none_else { OnOk result ((tcp_reads self.new).faults ≡ (tcp_reads self.old).faults) }
    {
        if into.is_empty() {
            return Ok(0);
        }
        if self.at == self.bytes.len() && self.fill().is_err() {
            self.read_faults = self.read_faults.saturating_add(1);
            return Err(Failed);
        }
        let n = into.len().min(self.bytes.len() - self.at);
        into[..n].copy_from_slice(&self.bytes[self.at..self.at + n]);
        self.at += n;
        Ok(n as u64)
    }

    fn faults(&self) -> u64 {
        self.read_faults
    }
}

impl<'a, R: Clock + Wait> Sink for TcpConnection<'a, R> {
    ghost use Rattle.tcp_links.specs.Connections.{tcp_reads, tcp_writes};

    ghost writes = { λ c. tcp_writes c };

    ghost beside = { λ c. tcp_reads c };

    fn write(&mut self, bytes: &[u8]) -> Result<u64, Failed>
        ensures bound { IfOk result (λ n. n ≤ length bytes.now) }
        ensures wrote { IfOk result (λ n. Wrote (tcp_writes self.old) (tcp_writes self.new) (take n bytes.now)) }
        ensures err { OnErr result ((tcp_writes self.new).written ≡ (tcp_writes self.old).written) }
        ensures none { IfOk result (λ n. n ≡ 0 → 0 < length bytes.now
            → WriteFails (tcp_writes self.old) (tcp_writes self.new)) }
        ensures beside { tcp_reads self.new ≡ tcp_reads self.old }
        ensures counted { (tcp_writes self.old).faults ≤ (tcp_writes self.new).faults }
        ensures failed { OnErr result (WriteFails (tcp_writes self.old) (tcp_writes self.new)) }
        // Each failed write counts once, and nothing else counts.
        ensures one { OnErr result ((tcp_writes self.new).faults ≡ count_after (tcp_writes self.old).faults) }
        ensures none_else { IfOk result (λ n. 0 < n → (tcp_writes self.new).faults ≡ (tcp_writes self.old).faults) }
    {
        match self.socket.write(bytes) {
            Ok(n) if n > 0 || bytes.is_empty() => Ok(n as u64),
            _ => {
                self.write_faults = self.write_faults.saturating_add(1);
                Err(Failed)
            }
        }
    }

    fn faults(&self) -> u64 {
        self.write_faults
    }
}

impl<'a, R: Clock + Wait> Connection for TcpConnection<'a, R> {
    ghost read_keeps = { λ c. refl };

    ghost write_keeps = { λ c. refl };
}
