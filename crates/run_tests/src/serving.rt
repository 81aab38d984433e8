// Worlds that are served over a network in memory, and what that comes to.
use crate::memory::{commanded, is_told};
use aire_top::{AnnouncingDoor, TellingDoor};
use io_edge::MemorySink;
use io_links::{Door, MemoryDoor, MemoryNetwork};
use std::process::Abort;
use std::str;
use std::sync::Wait;
use std::thread::{self, Threads};
use std::time::{Clock, Duration};

const NOTES: &str = "127.0.0.1:8101";

const PUT: &str = "PUT /n/a HTTP/1.1\r\nAire-Who: ann\r\nContent-Length: 2\r\n\r\nhi";

const GET: &str = "GET /n/a HTTP/1.1\r\n\r\n";

// Sealed with the console secret of `@notes`.
const STOP: &str = "POST /aire/console/stop HTTP/1.1\r\nAire-Dest: notes\r\nAire-Who: root\r\n\
    Aire-Seal: ff834ed3278cea576796dbbee5b99928a01f2351cb06d30a7b588f947906a88f\r\n\
    Content-Length: 2\r\n\r\n{}";

fn network(rt: &impl AllocGlobal) -> MemoryNetwork {
    MemoryNetwork::new(rt.alloc(), Duration::from_secs(20), Vec::new(rt.alloc()))
}

// That serving `@shops` ends so where these calls of the outside fail.
fn ends<R: Abort + AllocGlobal + Threads + Wait + Clock + Sync>(
    rt: &R,
    door_fails: u64,
    start_fails: u64,
    status: u8,
    told: &str,
) {
    let network = network(rt);
    let came = commanded(rt, &network, "serve @shops", door_fails, start_fails, 0);
    is_told(rt, &came, status, told);
}

#[test]
fn serves_nothing(rt: HostRuntime) {
    ends(&rt, 2, 0, 7, "door fault\n");
    ends(&rt, 0, 3, 8, "worker not started\n");
}

// What a door told so far.
fn has_told<R: Abort, D: Door + Drop>(rt: &R, doors: &TellingDoor<D, MemorySink>, told: &str) {
    assert_eq!(rt;
        str::from_utf8(doors.told().bytes()).expect(rt, "text"),
        told
    );
}

// Who listens where is told once all do, and so is where nobody can.
#[test]
fn tells_who_listens_where(rt: HostRuntime) {
    let alloc = rt.alloc();
    let network = network(&rt);
    let fails = vec![in alloc; 3u64].expect(&rt, "memory");
    let inner = MemoryDoor::new(&rt, alloc, &network, fails);
    let mut doors = TellingDoor::new(alloc, inner, MemorySink::new(alloc, Vec::new(alloc)));
    doors.expect("shop", "first");
    doors.expect("bank", "second");
    let shop = doors.listen("first");
    has_told(&rt, &doors, "");
    let bank = doors.listen("second");
    has_told(
        &rt,
        &doors,
        "aire: shop listens at first\naire: bank listens at second\n",
    );
    assert!(&rt; shop.is_ok() && bank.is_ok() && doors.listen("third").is_err());
    has_told(
        &rt,
        &doors,
        "aire: shop listens at first\naire: bank listens at second\naire: third can't be listened at\n",
    );
}

fn replies<R: Abort + AllocGlobal + Wait + Clock>(
    rt: &R,
    network: &MemoryNetwork,
    request: &str,
    front: &str,
) {
    let reply = network
        .call(rt, rt.alloc(), NOTES, request.as_bytes())
        .expect(rt, "a reply");
    assert!(rt; reply.as_slice().starts_with(front.as_bytes()));
}

fn visit<R: Abort + AllocGlobal + Wait + Clock>(rt: &R, network: &MemoryNetwork) {
    replies(
        rt,
        network,
        PUT,
        "HTTP/1.1 200 OK\r\nAire-Request-Id: notes/1\r\n",
    );
    replies(
        rt,
        network,
        GET,
        "HTTP/1.1 200 OK\r\nAire-Request-Id: notes/2\r\n",
    );
    replies(
        rt,
        network,
        STOP,
        "HTTP/1.1 200 OK\r\nContent-Type: application/json\r\n",
    );
}

// What a world that is served comes to once it was visited, where the write of this number fails.
fn visited<R: Abort + AllocGlobal + Threads + Wait + Clock + Sync>(
    rt: &R,
    write_fails: u64,
    status: u8,
    told: &str,
) {
    let network = network(rt);
    let (came, ()) = thread::join(
        rt,
        || commanded(rt, &network, "serve @notes", 0, 0, write_fails),
        || visit(rt, &network),
    );
    is_told(rt, &came, status, told);
}

// Two requests, each with its receipt, and then an operator's; and what was served, of which nothing can be written.
#[test]
fn serves_until_it_is_stopped(rt: HostRuntime) {
    visited(&rt, 0, 0, "notes receipts 2\nlegal\n");
    visited(&rt, 1, 5, "");
}
