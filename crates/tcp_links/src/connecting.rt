// Connections to peers.
use crate::deadline::{Deadline, time_is_up};
use mio::{Events, Interest, Poll, Token};
use std::alloc::Global;
use std::io;
use std::net::{Net, SocketAddr, TcpStream};
use std::time::Clock;

/// How often it is asked again at most whether a connection stands.
const MOST_TURNS: u32 = 1_000_000;

// A socket that has come to an end of connecting, as one that blocks.
fn connected(stream: mio::net::TcpStream) -> io::Result<TcpStream> {
    if let Some(error) = stream.take_error()? {
        return Err(error);
    }
    stream.peer_addr()?;
    let stream = TcpStream::from(stream);
    stream.set_nonblocking(false)?;
    stream.set_nodelay(true)?;
    Ok(stream)
}

// Whether a socket comes to an end of connecting before its time is up or the program stops.
fn wait_for<R: Clock>(
    deadline: &Deadline<'_, R>,
    poll: &mut Poll,
    events: &mut Events,
) -> io::Result<()> {
    for _ in 0..MOST_TURNS {
        let wait = deadline.wait()?;
        poll.poll(events, Some(wait))?;
        if !events.is_empty() {
            return Ok(());
        }
    }
    Err(time_is_up())
}

/// A connection to this address, if it stands before its time is up and before the program stops.
pub fn connect<R: Net + Clock>(
    deadline: &Deadline<'_, R>,
    alloc: Global,
    address: SocketAddr,
) -> io::Result<TcpStream> {
    deadline.wait()?;
    let mut stream = mio::net::TcpStream::connect(deadline.rt, address)?;
    let mut poll = Poll::new(deadline.rt)?;
    let mut events = Events::with_capacity(alloc, 1)?;
    poll.registry()
        .register(&mut stream, Token(0), Interest::WRITABLE)?;
    wait_for(deadline, &mut poll, &mut events)?;
    connected(stream)
}
