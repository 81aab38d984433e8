// A socket whose calls all end in time.
ghost use Rattle.std.specs.Io.{ReadsAtMost, WritesAtMost};

use crate::deadline::{Deadline, is_made_again, time_is_up};
use std::io;
use std::io::{Read, Write};
use std::net::TcpStream;
use std::time::{Clock, Duration};

/// How often a call is made again at most.
const MOST_TURNS: u32 = 1_000_000;

/// A socket, and by when all calls on it end.
#[derive(Drop)]
pub struct Clocked<'a, R: Clock> {
    pub stream: TcpStream,
    pub deadline: Deadline<'a, R>,
    /// How long writes have from the first one on, which hasn't come yet; None where they end by the deadline as it is.
    pub reply: Option<Duration>,
}

impl<'a, R: Clock> Clocked<'a, R> {
    // What comes within a look.
    fn read_once(&mut self, into: &mut [u8]) -> io::Result<usize>
        ensures { ReadsAtMost result into.new }
    {
        let wait = self.deadline.wait()?;
        self.stream.set_read_timeout(Some(wait))?;
        self.stream.read(into)
    }

    /// What comes, as `Read::read` gives it, within the time that is left and before the program stops.
    pub fn read(&mut self, into: &mut [u8]) -> io::Result<usize>
        ensures { ReadsAtMost result into.new }
    {
        for _ in 0..MOST_TURNS {
            match self.read_once(into) {
                Err(error) if is_made_again(error.kind()) => {}
                ended => return ended,
            }
        }
        Err(time_is_up())
    }

    // Writes what the socket has room for. The time is up where it has none.
    fn write_at_once(&mut self, bytes: &[u8]) -> io::Result<usize>
        ensures { WritesAtMost result bytes.now }
    {
        self.deadline.left()?;
        self.stream.set_nonblocking(true)?;
        match self.stream.write(bytes) {
            Err(error) if error.kind() == io::ErrorKind::WouldBlock => Err(time_is_up()),
            ended => ended,
        }
    }

    // Writes what the socket has room for within a look.
    fn write_once(&mut self, bytes: &[u8]) -> io::Result<usize>
        ensures { WritesAtMost result bytes.now }
    {
        if self.deadline.stop.is_raised() {
            return self.write_at_once(bytes);
        }
        let wait = self.deadline.wait()?;
        self.stream.set_write_timeout(Some(wait))?;
        self.stream.write(bytes)
    }

    /// Writes a front of the bytes, as `Write::write` does, within the time that is left. Once the program stops it doesn't
    /// wait for room, so that a reply that is at hand still goes out and a client that takes none holds up nobody.
    ///
    /// A reply has time of its own, which begins here: what was waited for until it was there doesn't count.
    pub fn write(&mut self, bytes: &[u8]) -> io::Result<usize>
        ensures { WritesAtMost result bytes.now }
    {
        if let Some(most) = self.reply.take() {
            self.deadline.renew(most)?;
        }
        for _ in 0..MOST_TURNS {
            match self.write_once(bytes) {
                Err(error) if is_made_again(error.kind()) => {}
                ended => return ended,
            }
        }
        Err(time_is_up())
    }
}
