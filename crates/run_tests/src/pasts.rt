// Runs of services that have a past, and of one service of a world.
ghost use Rattle.std.specs.Prelude.{◌≡◌, IfOk};
ghost use Rattle.aire_top.specs.HandedOn.{AreApart};

use crate::given::{call, call_at, failing, holds, new_services, patience, replies, world};
use crate::runs::{joined, live_answers};
use aire_top::Service;
use io_links::MemoryNetwork;
use journal_rows::Verdict;
use lang_core::{Inputs, Method, Names, NoMemory, Origin, Request, Text};
use recorded_inputs::{ScriptClock, ScriptWords, draw};
use std::alloc::Global;
use std::process::Abort;
use std::sync::Wait;
use std::thread::{self, Threads};
use std::time::Clock;
use world_file::Setup;

const GET: &str = "GET /n/a HTTP/1.1\r\n\r\n";

// Stops the notes, and the bank, sealed by openssl with the secret `c`.
const STOP_NOTES: &str =
    "POST /aire/console/stop HTTP/1.1\r\nAire-Dest: notes\r\nAire-Who: root\r\nAire-Seal: ff834ed3278cea576796dbbee5b99928a01f2351cb06d30a7b588f947906a88f\r\nContent-Length: 2\r\n\r\n{}";

const STOP_BANK: &str =
    "POST /aire/console/stop HTTP/1.1\r\nAire-Dest: bank\r\nAire-Who: root\r\nAire-Seal: 7dc44abe2dda86fe7fd3e634b804b8f02524036e0802216c4ec7f1856d683218\r\nContent-Length: 2\r\n\r\n{}";

const PAY: &str = "POST /pay/x HTTP/1.1\r\nAire-Who: ann\r\nContent-Length: 1\r\n\r\n5";

const OK: &str = "HTTP/1.1 200 OK\r\n";

fn text(rt: &(impl Abort + AllocGlobal), characters: &str) -> Text {
    Text::of(rt.alloc(), characters).expect(rt, "memory")
}

fn inputs() -> Inputs {
    draw(&mut ScriptClock::new(), &mut ScriptWords::new())
}

// A note that a client puts.
fn note(rt: &(impl Abort + AllocGlobal)) -> Request {
    Request {
        method: Method::Put,
        path: text(rt, "/n/a"),
        body: text(rt, "hi"),
        who: text(rt, "ann"),
        chain: Names::new(rt.alloc()),
    }
}

// Each answers a request.
fn answer_one(rt: &(impl Abort + AllocGlobal), services: &mut [Service]) {
    for service in services.iter_mut() {
        let arrived = service.arrive(rt.alloc(), Origin::Outside, note(rt), inputs());
        holds(rt, "the past", arrived.is_ok());
    }
}

// How many rows their journals have.
fn rows_of(services: &[Service]) -> u64 {
    let mut rows = 0u64;
    for service in services {
        rows = rows.saturating_add(service.journal().len());
    }
    rows
}

// How many live requests their journals answer.
fn answers_of(services: &[Service]) -> u64 {
    let mut answers = 0u64;
    for service in services {
        answers = answers.saturating_add(live_answers(service));
    }
    answers
}

fn told<R: Abort + AllocGlobal + Wait + Clock>(
    rt: &R,
    network: &MemoryNetwork,
    request: &str,
    body: &str,
) {
    holds(rt, body, replies(&call(rt, network, request), OK, body));
}

// The note is read, which was put before.
fn visit<R: Abort + AllocGlobal + Wait + Clock>(rt: &R, network: &MemoryNetwork) {
    told(rt, network, GET, "\r\n\r\nhi");
    told(rt, network, STOP_NOTES, "\r\n\r\n{\"stopped\":true}");
}

// Runs the notes, which answered a request before. Its answer is seen, and has no receipt: there is one of what the run answered,
// and it stands behind what the journal had.
fn notes_run<R: Abort + AllocGlobal + Threads + Wait + Clock + Sync>(
    rt: &R,
    network: &MemoryNetwork,
) {
    let setups = world(rt, "@notes");
    let mut services = new_services(rt, &setups);
    answer_one(rt, &mut services);
    let before = rows_of(&services);
    holds(rt, "one answer before", answers_of(&services) == 1);
    let Ok(joined) = joined(rt, network, 0, &setups, &setups, services) else {
        panic!(rt; "a good end");
    };
    holds(rt, "two answers", answers_of(&joined.services) == 2);
    holds(rt, "legal", joined.verdict == Verdict::Legal);
    let receipts = &joined.receipts;
    holds(
        rt,
        "one receipt",
        receipts.len() == 1 && receipts[0].index >= before,
    );
}

#[test]
fn what_was_answered_before_has_no_receipt(rt: HostRuntime) {
    let network = MemoryNetwork::new(rt.alloc(), patience(), failing(&rt, 0));
    let ((), ()) = thread::join(&rt, || notes_run(&rt, &network), || visit(&rt, &network));
}

fn pay<R: Abort + AllocGlobal + Wait + Clock>(rt: &R, network: &MemoryNetwork) {
    let door = "127.0.0.1:8102";
    let paid = call_at(rt, network, door, PAY);
    holds(rt, "paid", replies(&paid, OK, "\r\n\r\nok 5"));
    let stopped = call_at(rt, network, door, STOP_BANK);
    holds(
        rt,
        "stopped",
        replies(&stopped, OK, "\r\n\r\n{\"stopped\":true}"),
    );
}

// One setup can be told apart from all others.
fn only(alloc: Global, setup: Setup) -> Result<Vec<Setup>, NoMemory>
    ensures { IfOk result (λ here. AreApart here.items) }
{
    let mut here = Vec::new(alloc);
    here.push(setup)?;
    Ok(here)
}

fn alone(rt: &(impl Abort + AllocGlobal), setup: Setup) -> Vec<Setup>
    ensures { AreApart result.items }
{
    match only(rt.alloc(), setup) {
        Ok(here) => here,
        Err(_) => panic!(rt; "memory"),
    }
}

// Runs the bank without the shop, which it knows.
fn bank_run<R: Abort + AllocGlobal + Threads + Wait + Clock + Sync>(
    rt: &R,
    network: &MemoryNetwork,
) {
    let known = world(rt, "@shops");
    let Some(bank) = world(rt, "@shops").pop() else {
        panic!(rt; "the bank");
    };
    let here = alone(rt, bank);
    let services = new_services(rt, &here);
    let Ok(joined) = joined(rt, network, 0, &here, &known, services) else {
        panic!(rt; "a good end");
    };
    holds(rt, "one service", joined.services.len() == 1);
    holds(rt, "one receipt", joined.receipts.len() == 1);
}

#[test]
fn a_service_runs_without_its_peers(rt: HostRuntime) {
    let network = MemoryNetwork::new(rt.alloc(), patience(), failing(&rt, 0));
    let ((), ()) = thread::join(&rt, || bank_run(&rt, &network), || pay(&rt, &network));
}
