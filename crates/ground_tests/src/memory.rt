// Doors, links, spawners and gates in memory, each with both ends.
use crate::given::{Square, equal, failing, got, holds, lost, patience, same, serve};
use io_edge::read_all;
use io_links::{
    Door, Gate, Link, MemoryDoor, MemoryGate, MemoryLink, MemoryNetwork, MemorySpawner,
    PreparedLink, SliceSource, Spawner, SystemSpawner,
};
use lang_core::{Bytes, Name, Text};
use std::process::Abort;
use std::sync::Wait;
use std::thread::{self, Scope, Threads};
use std::time::{Clock, Duration};

// The second exchange of both links together fails. A client's call is none of them.
fn ask_three<R: Abort + AllocGlobal + Wait + Clock>(rt: &R, network: &MemoryNetwork) {
    let mut link = MemoryLink::new(rt, rt.alloc(), network);
    got(rt, link.exchange(rt.alloc(), "a", b"one", 0), "ok one");
    let mut other = link.another();
    lost(rt, other.exchange(rt.alloc(), "a", b"two", 0), 0, 1);
    got(rt, other.exchange(rt.alloc(), "a", b"three", 0), "ok three");
    let reply = network.call(rt, rt.alloc(), "a", b"four");
    same(rt, reply.expect(rt, "a reply").as_slice(), "ok four");
}

// Calls go from one thread to another and come back, and those that are told to fail do.
#[test]
fn carries_calls(rt: HostRuntime) {
    let network = MemoryNetwork::new(rt.alloc(), patience(), failing(&rt, 2));
    let mut door = MemoryDoor::new(&rt, rt.alloc(), &network, failing(&rt, 0));
    let ear = door.listen("a").expect(&rt, "an ear");
    let (served, _) = thread::join(&rt, || serve(&ear, 3), || ask_three(&rt, &network));
    holds(&rt, "served", served);
}

// An address is taken as long as an ear listens there, and a call to one that closed fails at once.
#[test]
fn opens_and_closes_addresses(rt: HostRuntime) {
    let network = MemoryNetwork::new(rt.alloc(), patience(), failing(&rt, 0));
    let mut door = MemoryDoor::new(&rt, rt.alloc(), &network, failing(&rt, 2));
    let ear = door.listen("a").expect(&rt, "an ear");
    holds(&rt, "told to fail", door.listen("b").is_err());
    holds(&rt, "taken", door.listen("a").is_err());
    holds(&rt, "free", door.listen("b").is_ok());
    drop(ear);
    let reply = network.call(&rt, rt.alloc(), "a", b"one");
    holds(&rt, "closed", reply.is_err());
    let ear = door.listen("a").expect(&rt, "an ear");
    let ask = || network.call(&rt, rt.alloc(), "a", b"two");
    let (served, reply) = thread::join(&rt, || serve(&ear, 1), ask);
    holds(&rt, "served", served);
    same(&rt, reply.expect(&rt, "a reply").as_slice(), "ok two");
}

// A call that nobody hears fails after the network's patience.
#[test]
fn gives_up_a_call(rt: HostRuntime) {
    let network = MemoryNetwork::new(rt.alloc(), Duration::from_millis(30), failing(&rt, 0));
    let mut link = MemoryLink::new(&rt, rt.alloc(), &network);
    lost(&rt, link.exchange(rt.alloc(), "a", b"one", 0), 0, 1);
    lost(&rt, link.exchange(rt.alloc(), "a", b"two", 0), 1, 2);
}

// Prepared replies come in order, and each link begins with the first.
#[test]
fn gives_prepared_replies(rt: HostRuntime) {
    let mut replies = Vec::new(rt.alloc());
    let first = Bytes::of(rt.alloc(), b"first").expect(&rt, "memory");
    replies.push(Some(first)).expect(&rt, "memory");
    replies.push(None).expect(&rt, "memory");
    let mut link = PreparedLink::new(rt.alloc(), &replies);
    got(&rt, link.exchange(rt.alloc(), "a", b"one", 0), "first");
    lost(&rt, link.exchange(rt.alloc(), "b", b"two", 0), 0, 1);
    lost(&rt, link.exchange(rt.alloc(), "b", b"three", 0), 1, 2);
    let mut other = link.another();
    got(&rt, other.exchange(rt.alloc(), "a", b"four", 0), "first");
}

// A reply's bytes are a source.
#[test]
fn reads_borrowed_bytes(rt: HostRuntime) {
    let mut source = SliceSource::new(b"nine more");
    let bytes = read_all(rt.alloc(), &mut source, 9).expect(&rt, "bytes");
    same(&rt, &bytes, "nine more");
    let mut source = SliceSource::new(b"");
    let bytes = read_all(rt.alloc(), &mut source, 9).expect(&rt, "bytes");
    same(&rt, &bytes, "");
}

// What comes of the squares of 1, 2 and 3, each in a thread; 0 for one that isn't started.
fn squares<'scope, 'env, P: Spawner, R: Threads>(
    rt: &R,
    spawner: &mut P,
    scope: &'scope Scope<'scope, &'env ()>,
) -> (u64, u64, u64) {
    let first = spawner.start(scope, Square(1));
    let second = spawner.start(scope, Square(2));
    let third = spawner.start(scope, Square(3));
    (
        first.map_or(0, |ticket| ticket.join(rt)),
        second.map_or(0, |ticket| ticket.join(rt)),
        third.map_or(0, |ticket| ticket.join(rt)),
    )
}

// Jobs run in threads, but for those that are told not to.
#[test]
fn starts_jobs(rt: HostRuntime) {
    let mut spawner = SystemSpawner::new();
    let all = thread::scope(
        thread::scope_env(),
        &rt,
        |scope| squares(&rt, &mut spawner, scope),
    );
    holds(&rt, "all", all == (1, 4, 9));
    let mut spawner = MemorySpawner::new(failing(&rt, 2));
    let some = thread::scope(
        thread::scope_env(),
        &rt,
        |scope| squares(&rt, &mut spawner, scope),
    );
    holds(&rt, "but the second", some == (1, 0, 9));
}

// Passes a gate with two calls, of which the second is held until it is opened.
fn pass_twice<G: Gate>(gate: &G, dest: &Name) {
    gate.call_starts(dest);
    gate.call_ends(dest);
    gate.call_starts(dest);
    gate.call_ends(dest);
}

#[test]
fn holds_a_call(rt: HostRuntime) {
    let gate = MemoryGate::new(&rt, 2, patience());
    let text = Text::of(rt.alloc(), "bank").expect(&rt, "memory");
    let dest = Name::new(text).ok().expect(&rt, "a name");
    let watch = || {
        let started = gate.wait_started(2);
        let ended = gate.ended();
        gate.open();
        (started, ended)
    };
    let (_, (started, ended)) = thread::join(&rt, || pass_twice(&gate, &dest), watch);
    holds(&rt, "started", started);
    equal(&rt, ended, 1);
    equal(&rt, gate.ended(), 2);
}
