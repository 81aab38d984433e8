// Ears that are closed while somebody waits. Each wait is bounded.
use crate::given::{failing, holds, lost, patience};
use crate::tcp::{client, send};
use io_links::{Accepted, Door, Ear, Link, MemoryDoor, MemoryNetwork};
use std::process::Abort;
use std::thread;
use std::time::{Clock, Duration, Instant};
use tcp_links::{StopSignal, TcpDoor, TcpLink};

// An ear gives no connection.
fn gives_nobody<E: Ear>(rt: &impl Abort, ear: &E) {
    holds(rt, "nobody", matches!(ear.accept(), Accepted::Nobody));
}

// Closes an ear, and says when.
fn close<E: Ear, R: Abort + Clock>(rt: &R, ear: &E) -> Instant {
    let now = Instant::now(rt).expect(rt, "a clock");
    ear.close();
    now
}

// What was to end within a second of this moment ended so, on a machine that may be busy.
fn ended_soon<R: Abort + Clock>(rt: &R, closed: Instant) {
    let spent = closed.elapsed(rt).expect(rt, "a clock");
    holds(rt, "soon", spent < Duration::from_secs(5));
}

// In memory, who calls an ear that is closed is refused, and the address is taken until the ear is
// dropped.
#[test]
fn refuses_calls_to_a_closed_ear(rt: HostRuntime) {
    let network = MemoryNetwork::new(rt.alloc(), patience(), failing(&rt, 0));
    let mut door = MemoryDoor::new(&rt, rt.alloc(), &network, failing(&rt, 0));
    let ear = door.listen("a").expect(&rt, "an ear");
    let ask = || network.call(&rt, rt.alloc(), "a", b"one");
    let (closed, reply) = thread::join(&rt, || close(&rt, &ear), ask);
    holds(&rt, "refused", reply.is_err());
    ended_soon(&rt, closed);
    gives_nobody(&rt, &ear);
    holds(&rt, "taken", door.listen("a").is_err());
    drop(ear);
    holds(&rt, "free", door.listen("a").is_ok());
}

// Over loopback an ear that is closed gives no connection, also where a whole request waits, and no exchange goes on.
#[test]
fn ends_once_closed(rt: HostRuntime) {
    let address = "127.0.31.6:18431";
    let stop = StopSignal::new();
    let mut door = TcpDoor::new(&rt, rt.alloc(), &stop);
    let ear = door.listen(address).expect(&rt, "an ear");
    let (closed, ()) = thread::join(&rt, || close(&rt, &ear), || gives_nobody(&rt, &ear));
    ended_soon(&rt, closed);
    let mut socket = client(&rt, address);
    send(&rt, &mut socket, b"GET /a\n\n");
    gives_nobody(&rt, &ear);
    gives_nobody(&rt, &ear);
    let mut link = TcpLink::with_patience(&rt, &stop, patience());
    lost(
        &rt,
        link.exchange(rt.alloc(), address, b"GET /b\n\n", 0),
        0,
        1,
    );
    ended_soon(&rt, closed);
}
