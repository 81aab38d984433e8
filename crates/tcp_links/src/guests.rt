// Connections that came and whose request's head hasn't come whole yet.
use crate::heads::Head;
use mio::net::{TcpListener, TcpStream};
use mio::{Events, Interest, Poll, Token};
use std::alloc::Global;
use std::io;
use std::io::{ErrorKind, Read};
use std::time::{Clock, Duration, Instant};

/// The most bytes that are taken before a head is whole.
pub const MOST_HEAD: usize = 16_384;

/// How many connections wait at most. Where one more comes the oldest is closed.
const MOST_GUESTS: usize = 512;

/// How many connections are taken in at one look.
const MOST_ARRIVALS: u32 = 64;

/// The most bytes that one read takes.
const PIECE: usize = 4096;

/// The token under which the listening socket is registered.
const LISTENER: usize = usize::MAX;

/// A connection that waits.
#[derive(Drop)]
pub struct Guest {
    token: usize,
    stream: TcpStream,
    bytes: Vec<u8>,
    pub since: Instant,
    head: Head,
    ended: bool,
}

impl Guest {
    /// Its socket, which doesn't block, and what came of it.
    pub fn into_parts(self) -> (TcpStream, Vec<u8>) {
        let Guest {
            token: _,
            stream,
            bytes,
            since: _,
            head: _,
            ended: _,
        } = self;
        (stream, bytes)
    }

    /// Whether it waits for nothing more: its head is whole or too long, or it ended or failed.
    pub fn is_ready(&self) -> bool {
        self.ended || self.head == Head::Whole || self.bytes.len() >= MOST_HEAD
    }

    // Takes one piece of what came, and says whether there may be more.
    fn take_piece(&mut self) -> io::Result<bool> {
        let mut piece = [0u8; PIECE];
        let n = self.stream.read(&mut piece)?;
        self.bytes.extend_from_slice(&piece[..n])?;
        self.head = self.head.after_all(&piece[..n]);
        self.ended = n == 0;
        Ok(!self.is_ready())
    }

    // Takes what came, until nothing more waits or the head is whole.
    fn take(&mut self) {
        for _ in 0..MOST_HEAD {
            match self.take_piece() {
                Ok(true) => {}
                Ok(false) => return,
                Err(error) if error.kind() == ErrorKind::Interrupted => {}
                Err(error) => {
                    self.ended = error.kind() != ErrorKind::WouldBlock;
                    return;
                }
            }
        }
    }
}

/// The connections that wait at an ear.
#[derive(Drop)]
pub struct Guests {
    alloc: Global,
    listener: TcpListener,
    poll: Poll,
    events: Events,
    waiting: Vec<Guest>,
    next: usize,
}

impl Guests {
    /// Nobody waits so far at this socket.
    pub fn new(alloc: Global, poll: Poll, listener: TcpListener) -> io::Result<Guests> {
        let mut listener = listener;
        poll.registry()
            .register(&mut listener, Token(LISTENER), Interest::READABLE)?;
        Ok(Guests {
            alloc,
            listener,
            poll,
            events: Events::with_capacity(alloc, MOST_ARRIVALS as usize)?,
            waiting: Vec::new(alloc),
            next: 0,
        })
    }

    /// A connection whose head is whole, or that has waited for `patience`; None where none came
    /// to that within `look`.
    pub fn look(
        &mut self,
        clock: &impl Clock,
        look: Duration,
        patience: Duration,
    ) -> io::Result<Option<Guest>> {
        let arrived = self.arrive(clock);
        if let Some(guest) = self.ready(clock, patience) {
            return Ok(Some(guest));
        }
        // Where none can be taken in, as with too many open files, it waits all the same.
        self.poll.poll(&mut self.events, Some(look))?;
        arrived?;
        self.arrive(clock)?;
        self.hear();
        Ok(self.ready(clock, patience))
    }

    // Takes in the connections that came.
    fn arrive(&mut self, clock: &impl Clock) -> io::Result<()> {
        for _ in 0..MOST_ARRIVALS {
            match self.listener.accept() {
                Ok((stream, _)) => self.admit(clock, stream)?,
                Err(error) if error.kind() == ErrorKind::WouldBlock => return Ok(()),
                Err(error) if error.kind() == ErrorKind::ConnectionAborted => {}
                Err(error) => return Err(error),
            }
        }
        Ok(())
    }

    // Takes in a connection, and what it sent already.
    fn admit(&mut self, clock: &impl Clock, stream: TcpStream) -> io::Result<()> {
        let mut stream = stream;
        let token = self.next;
        self.next = token.wrapping_add(1) % LISTENER;
        self.poll
            .registry()
            .register(&mut stream, Token(token), Interest::READABLE)?;
        let mut guest = Guest {
            token,
            stream,
            bytes: Vec::new(self.alloc),
            since: Instant::now(clock)?,
            head: Head::Blank,
            ended: false,
        };
        guest.take();
        if self.waiting.len() >= MOST_GUESTS {
            drop(self.waiting.remove(0));
        }
        match self.waiting.push(guest) {
            Ok(()) => Ok(()),
            Err(_) => Err(io::Error::from(ErrorKind::OutOfMemory)),
        }
    }

    // Takes what came of those that the last look reported.
    fn hear(&mut self) {
        for event in self.events.iter() {
            let Token(token) = event.token();
            if let Some(at) = self.waiting.iter().position(|guest| guest.token == token) {
                self.waiting[at].take();
            }
        }
    }

    // The first that is ready, or has waited too long. It is no longer waited for. Where nobody looked meanwhile its head may have
    // come whole, unheard.
    fn ready(&mut self, clock: &impl Clock, patience: Duration) -> Option<Guest> {
        let now = Instant::now(clock).ok()?;
        let at = self.waiting.iter().position(|guest| guest.is_ready()
            || now.duration_since(guest.since) >= patience)?;
        let mut guest = self.waiting.remove(at);
        if !guest.is_ready() {
            guest.take();
        }
        let _ = self.poll.registry().deregister(&mut guest.stream);
        Some(guest)
    }
}
