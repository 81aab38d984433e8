// Sockets that were shut and wait for their peers to close too.
//
// A socket that is closed with bytes in it that nobody read, or that gets some afterwards, is
// reset, and the peer may then never see what was written to it last. So an ear keeps each socket
// for a while, and takes what the peer still sends.
use crate::ClosingDoor;
use std::alloc::Global;
use std::io::{ErrorKind, Read};
use std::net::{Shutdown, TcpStream};
use std::sync::Wait;
use std::time::{Clock, Duration, Instant};

/// How long a socket is kept, in milliseconds.
const MOST_MILLIS: u64 = 2000;

/// How many bytes are taken of it.
const MOST_BYTES: u64 = 1 << 20;

/// How many sockets are kept for one ear.
const MOST_SOCKETS: usize = 256;

/// The most bytes that one read takes.
const PIECE: usize = 4096;

/// How many reads of one socket follow one another.
const MOST_READS: u32 = 16;

/// How long nothing is taken of the sockets once something was, in milliseconds.
const PAUSE: u64 = 20;

/// A socket whose write half is shut, since when, and how many bytes came since.
#[derive(Drop)]
pub struct Closing {
    stream: TcpStream,
    since: Instant,
    taken: u64,
}

/// The sockets that an ear keeps, and when it last took something of them.
#[derive(Drop)]
pub struct Kept {
    sockets: Vec<Closing>,
    swept: Option<Instant>,
}

impl Kept {
    /// No socket so far.
    pub fn new(alloc: Global) -> Kept {
        Kept {
            sockets: Vec::new(alloc),
            swept: None,
        }
    }

    // Keeps a socket, and closes the oldest where there are too many.
    fn add(&mut self, closing: Closing) {
        if self.sockets.len() >= MOST_SOCKETS {
            drop(self.sockets.remove(0));
        }
        let _ = self.sockets.push(closing);
    }

    // Whether it is time to take something of them.
    fn is_due(&self, now: Instant) -> bool {
        match self.swept {
            Some(swept) => now.duration_since(swept) >= Duration::from_millis(PAUSE),
            None => true,
        }
    }

    // Takes what came of all sockets, and closes those that are done.
    fn sweep(&mut self, now: Instant) {
        self.swept = Some(now);
        self.sockets.retain_mut(|closing| closing.goes_on(now));
    }
}

/// Shuts a socket's write half, and keeps it for its ear to close. The oldest that is kept is
/// closed where there are too many, and this one at once where that isn't possible.
pub fn linger<R: Clock + Wait>(rt: &R, door: &ClosingDoor, stream: TcpStream) {
    if stream.shutdown(Shutdown::Write).is_err() || stream.set_nonblocking(true).is_err() {
        return;
    }
    let Ok(since) = Instant::now(rt) else {
        return;
    };
    door.lock(rt).add(Closing {
        stream,
        since,
        taken: 0,
    });
}

impl Closing {
    // Takes what came, and says whether the socket is to be kept.
    fn goes_on(&mut self, now: Instant) -> bool {
        if now.duration_since(self.since) >= Duration::from_millis(MOST_MILLIS) {
            return false;
        }
        let mut piece = [0u8; PIECE];
        for _ in 0..MOST_READS {
            match self.stream.read(&mut piece) {
                Ok(0) => return false,
                Ok(n) => self.taken = self.taken.saturating_add(n as u64),
                Err(error) if error.kind() == ErrorKind::Interrupted => {}
                Err(error) => return error.kind() == ErrorKind::WouldBlock,
            }
            if self.taken >= MOST_BYTES {
                return false;
            }
        }
        true
    }
}

/// Takes what came of the sockets that are kept, and closes those that are done; but not where that
/// was just done.
pub fn sweep<R: Clock + Wait>(rt: &R, door: &ClosingDoor) {
    let Ok(now) = Instant::now(rt) else {
        return;
    };
    let mut kept = door.lock(rt);
    let kept = &mut *kept;
    if kept.is_due(now) {
        kept.sweep(now);
    }
}
