// Doors and links over loopback, where a peer is silent, late or gone. Each wait is bounded.
use crate::given::{got, holds, lost, patience, same, serve};
use io_edge::{Source, write_all};
use io_links::{Accepted, Door, Ear, Exchange, Link};
use std::io::{Read, Write};
use std::net::{Net, TcpListener, TcpStream};
use std::process::Abort;
use std::sync::Wait;
use std::thread;
use std::time::{Clock, Duration, Instant};
use tcp_links::{StopSignal, TcpDoor, TcpLink};

fn short() -> Duration {
    Duration::from_millis(300)
}

// An exchange on a link of its own.
fn ask<R: Abort + AllocGlobal + Net<Stream = TcpStream> + Wait + Clock>(
    rt: &R,
    address: &str,
    bytes: &[u8],
) -> Exchange {
    let stop = StopSignal::new();
    TcpLink::with_patience(rt, &stop, patience()).exchange(rt.alloc(), address, bytes, 0)
}

/// A socket to this address, with a bound on its waits.
pub fn client<R: Abort + Net<Stream = TcpStream>>(rt: &R, address: &str) -> TcpStream {
    let socket = TcpStream::connect(rt, address).expect(rt, "a socket");
    holds(
        rt,
        "bounded",
        socket.set_read_timeout(Some(patience())).is_ok(),
    );
    holds(
        rt,
        "bounded",
        socket.set_write_timeout(Some(patience())).is_ok(),
    );
    socket
}

/// Sends all of these bytes.
pub fn send(rt: &impl Abort, socket: &mut TcpStream, bytes: &[u8]) {
    holds(rt, "sent", socket.write_all(bytes).is_ok());
}

// All that comes on a socket is this, and then the end.
fn comes(rt: &(impl Abort + AllocGlobal), socket: &mut TcpStream, want: &str) {
    let mut bytes = Vec::new(rt.alloc());
    holds(rt, "to the end", socket.read_to_end(&mut bytes).is_ok());
    same(rt, &bytes, want);
}

// A port is free again once its ear is gone; what is no address is refused, and an exchange fails where nobody listens.
#[test]
fn listens_and_closes(rt: HostRuntime) {
    let address = "127.0.31.1:18431";
    let stop = StopSignal::new();
    let mut door = TcpDoor::new(&rt, rt.alloc(), &stop);
    for _ in 0..2 {
        let ear = door.listen(address).expect(&rt, "an ear");
        holds(&rt, "taken", door.listen(address).is_err());
        drop(ear);
    }
    holds(&rt, "no address", door.listen("no address").is_err());
    lost(&rt, ask(&rt, address, b"GET /a\n\n"), 0, 1);
}

// How many reads of the next connection failed until it ended or one failed.
fn failed_reads<E: Ear>(ear: &E) -> Option<u64> {
    for _ in 0..1000u32 {
        if let Accepted::Conn(mut conn) = ear.accept() {
            let mut piece = [0u8; 64];
            for _ in 0..3u32 {
                let _ = conn.read(&mut piece);
            }
            return Some(Source::faults(&conn));
        }
    }
    None
}

// A client that sends no head is given once its time is up, and then its reads fail at once.
#[test]
fn gives_up_a_silent_client(rt: HostRuntime) {
    let address = "127.0.31.3:18431";
    let stop = StopSignal::new();
    let mut door = TcpDoor::with_patience(&rt, rt.alloc(), &stop, short());
    let ear = door.listen(address).expect(&rt, "an ear");
    let silent = client(&rt, address);
    let start = Instant::now(&rt).expect(&rt, "a clock");
    holds(&rt, "failed", failed_reads(&ear) == Some(3));
    let spent = start.elapsed(&rt).expect(&rt, "a clock");
    holds(&rt, "in time", short() <= spent && spent < patience());
    drop(silent);
}

// A client whose request came whole in time is served, however late somebody takes it.
#[test]
fn serves_a_whole_request_late(rt: HostRuntime) {
    let address = "127.0.31.10:18431";
    let stop = StopSignal::new();
    let mut door = TcpDoor::with_patience(&rt, rt.alloc(), &stop, short());
    let ear = door.listen(address).expect(&rt, "an ear");
    let mut first = client(&rt, address);
    send(&rt, &mut first, b"GET /a\n\n");
    let mut late = client(&rt, address);
    send(&rt, &mut late, b"GET /b\n\n");
    holds(&rt, "served", serve(&ear, 1));
    thread::sleep(&rt, Duration::from_millis(600));
    holds(&rt, "served", serve(&ear, 1));
    comes(&rt, &mut first, "ok GET /a\n\n");
    comes(&rt, &mut late, "ok GET /b\n\n");
}

// Replies to one connection, but later than it may take to be read.
fn serve_late<E: Ear, R: Wait + Clock>(rt: &R, ear: &E) -> bool {
    for _ in 0..1000u32 {
        if let Accepted::Conn(mut conn) = ear.accept() {
            thread::sleep(rt, Duration::from_millis(600));
            return write_all(&mut conn, b"late").is_ok();
        }
    }
    false
}

// A reply has time of its own, however long it was in the making.
#[test]
fn replies_late(rt: HostRuntime) {
    let address = "127.0.31.11:18431";
    let stop = StopSignal::new();
    let mut door = TcpDoor::with_patience(&rt, rt.alloc(), &stop, short());
    let ear = door.listen(address).expect(&rt, "an ear");
    let mut socket = client(&rt, address);
    send(&rt, &mut socket, b"GET /a\n\n");
    holds(&rt, "served", serve_late(&rt, &ear));
    comes(&rt, &mut socket, "late");
}

// Takes one connection, and the first piece of what it sends, and hands it back unanswered.
fn take_one(rt: &impl Abort, listener: &TcpListener) -> TcpStream {
    let (mut socket, _) = listener.accept().expect(rt, "a connection");
    let mut piece = [0u8; 64];
    holds(rt, "read", socket.read(&mut piece).is_ok());
    socket
}

// A peer that closes without a word replied with nothing, and one that keeps silent fails.
#[test]
fn exchanges_with_peers_that_do_not_answer(rt: HostRuntime) {
    let address = "127.0.31.5:18431";
    let listener = TcpListener::bind(&rt, address).expect(&rt, "a listener");
    let take = || drop(take_one(&rt, &listener));
    let ((), reply) = thread::join(&rt, take, || ask(&rt, address, b"GET /a\n\n"));
    got(&rt, reply, "");
    let stop = StopSignal::new();
    let mut link = TcpLink::with_patience(&rt, &stop, short());
    let exchange = || link.exchange(rt.alloc(), address, b"GET /a\n\n", 0);
    let (silent, reply) = thread::join(&rt, || take_one(&rt, &listener), exchange);
    lost(&rt, reply, 0, 1);
    drop(silent);
}
