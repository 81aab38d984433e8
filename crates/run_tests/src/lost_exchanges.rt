// Exchanges between services that fail, while a client buys and an operator cancels; and threads that don't start.
use crate::given::{AUDIT, STOP, call, failing, holds, patience, replies};
use crate::runs::{Came, run};
use io_links::MemoryNetwork;
use std::process::Abort;
use std::sync::Wait;
use std::thread::{self, Threads};
use std::time::{Clock, Duration};

const OK: &str = "HTTP/1.1 200 OK\r\n";

// The two purchases, and the cancellation of the first with a look at the rows, both sealed by openssl with the secret `c`.
const FIRST: &str = "POST /buy/x HTTP/1.1\r\nAire-Who: ann\r\nContent-Length: 1\r\n\r\n5";

const SECOND: &str = "POST /buy/y HTTP/1.1\r\nAire-Who: ann\r\nContent-Length: 1\r\n\r\n5";

const CANCEL: &str =
    "POST /aire/console/cancel HTTP/1.1\r\nAire-Dest: shop\r\nAire-Who: root\r\nAire-Seal: eefb4e6e9fe7e883172ce8f187ba68145fafaad58d7c1e20bd59766cf0361fd8\r\nContent-Length: 20\r\n\r\n{\"token\":\"t\",\"id\":1}";

const ROWS: &str =
    "POST /aire/console/rows HTTP/1.1\r\nAire-Dest: shop\r\nAire-Who: root\r\nAire-Seal: 103fec0b1bc397eb2a273fd72c9575ef87c00d0c4e169be97d0040a0b9ad90c9\r\nContent-Length: 2\r\n\r\n{}";

// A purchase, which is paid, or answered without the bank's answer where the exchange was lost.
fn buy<R: Abort + AllocGlobal + Wait + Clock>(rt: &R, network: &MemoryNetwork, request: &str) {
    let bought = call(rt, network, request);
    let is_answered = replies(&bought, OK, "\r\n\r\nok 5")
        || replies(&bought, "HTTP/1.1 202 Accepted\r\n", "\r\n\r\nunpaid");
    holds(rt, request, is_answered);
}

// The shop replies so to its operator.
fn told<R: Abort + AllocGlobal + Wait + Clock>(
    rt: &R,
    network: &MemoryNetwork,
    request: &str,
    body: &str,
) {
    holds(rt, body, replies(&call(rt, network, request), OK, body));
}

// Asks for the verdict until it is Legal, every five milliseconds and at most 10,000 times.
fn wait_legal<R: Abort + AllocGlobal + Wait + Clock>(rt: &R, network: &MemoryNetwork) {
    for _ in 0..10_000u32 {
        if replies(&call(rt, network, AUDIT), OK, "{\"text\":\"legal\\n\"}") {
            return;
        }
        thread::sleep(rt, Duration::from_millis(5));
    }
    holds(rt, "legal", false);
}

fn visit<R: Abort + AllocGlobal + Wait + Clock>(rt: &R, network: &MemoryNetwork) {
    buy(rt, network, FIRST);
    buy(rt, network, SECOND);
    told(
        rt,
        network,
        CANCEL,
        "\r\n\r\n{\"about\":\"shop/1\",\"rule\":1}",
    );
    wait_legal(rt, network);
    told(rt, network, ROWS, "\r\n\r\n{\"text\":\"orders y ok 5\\n\"}");
    told(rt, network, STOP, "\r\n\r\n{\"stopped\":true}");
}

// Two purchases, of which the first is cancelled, where these exchanges of all links fail. The verdict is Legal in the end, and
// each live answer has its receipt: two of the shop, and of the bank as many as calls that got through.
fn repairs<R: Abort + AllocGlobal + Threads + Wait + Clock + Sync>(
    rt: &R,
    fails: Vec<u64>,
    least: u64,
    most: u64,
) {
    let network = MemoryNetwork::new(rt.alloc(), patience(), fails);
    let (came, ()) = thread::join(rt, || run(rt, &network, 0), || visit(rt, &network));
    let is_well = match came {
        Came::Well { answers } => least <= answers && answers <= most,
        _ => false,
    };
    holds(rt, "well", is_well);
}

// The exchanges from this one to that one.
fn between(rt: &(impl Abort + AllocGlobal), first: u64, last: u64) -> Vec<u64> {
    let mut fails = Vec::new(rt.alloc());
    for exchange in first..=last {
        fails.push(exchange).expect(rt, "memory");
    }
    fails
}

// The first call fails, and this exchange.
fn first_and(rt: &(impl Abort + AllocGlobal), exchange: u64) -> Vec<u64> {
    let mut fails = between(rt, 1, 1);
    fails.push(exchange).expect(rt, "memory");
    fails
}

// One exchange fails, of which the first two are the calls of the purchases; and all fail up to the third, or up to the eighth: a
// purchase or both are answered without the bank, which hears of what stands by posts that are sent again. So it is where the first
// purchase's call fails and one more exchange: the call as it is posted, the token of its answer, or the fetch.
#[test]
fn exchanges_are_lost(rt: HostRuntime) {
    for exchange in 1..=12u64 {
        let answers = if exchange <= 2 { 3 } else { 4 };
        repairs(&rt, failing(&rt, exchange), answers, answers);
    }
    for exchange in 3..=6u64 {
        repairs(&rt, first_and(&rt, exchange), 2, 3);
    }
    repairs(&rt, between(&rt, 1, 3), 2, 3);
    repairs(&rt, between(&rt, 1, 8), 2, 3);
}

// A worker that isn't started: those that were are joined.
#[test]
fn a_worker_is_not_started(rt: HostRuntime) {
    for start in [1, 7, 12] {
        let network = MemoryNetwork::new(rt.alloc(), patience(), failing(&rt, 0));
        holds(&rt, "worker", run(&rt, &network, start) == Came::NotStarted);
    }
}
