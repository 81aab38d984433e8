// Runs of services over a network in memory, and what they came to.
ghost use Rattle.std.specs.Prelude.{◌≡◌, length, vec_len};
ghost use Rattle.aire_top.specs.HandedOn.{AreApart};

use crate::given::{failing, new_services, world};
use aire_top::{Joined, RunRefused, Service, run_nodes};
use io_edge::Connection;
use io_links::{MemoryCall, MemoryDoor, MemoryLink, MemoryNetwork, MemorySpawner, OpenGate};
use journal_rows::{Row, Verdict};
use recorded_inputs::{ScriptClock, ScriptWords};
use std::process::Abort;
use std::sync::Wait;
use std::thread::Threads;
use std::time::Clock;
use world_file::Setup;

/// How many live requests its journal answers.
pub fn live_answers(service: &Service) -> u64 {
    let mut live = 0u64;
    for row in service.journal().as_slice() {
        if let Row::Answered(answer) = row {
            live = live.saturating_add(answer.live as u64);
        }
    }
    live
}

/// What a run came to.
#[derive(Clone, Copy, PartialEq, Eq)]
pub enum Came {
    /// A Legal verdict, with so many live answers and as many receipts.
    Well { answers: u64 },
    NotStarted,
    /// Anything else.
    Ill,
}

fn end_of<C: Connection>(joined: &Joined<C>) -> Came {
    let mut answers = 0u64;
    for service in &joined.services {
        answers = answers.saturating_add(live_answers(service));
    }
    if joined.verdict == Verdict::Legal && joined.receipts.len() as u64 == answers {
        Came::Well { answers }
    } else {
        Came::Ill
    }
}

/// Runs these services, the setups of which are `here`, until somebody stops them, where this start of a thread fails, none where
/// it is 0.
pub fn joined<'a, R: Abort + AllocGlobal + Threads + Wait + Clock + Sync>(
    rt: &'a R,
    network: &'a MemoryNetwork,
    start: u64,
    here: &[Setup],
    known: &[Setup],
    services: Vec<Service>,
) -> Result<Joined<MemoryCall<'a, R>>, RunRefused>
    requires apart { AreApart here.now }
    requires services { vec_len services ≡ length here.now }
{
    let alloc = rt.alloc();
    let mut doors = MemoryDoor::new(rt, alloc, network, failing(rt, 0));
    let links = MemoryLink::new(rt, alloc, network);
    let mut clock = ScriptClock::new();
    let mut words = ScriptWords::new();
    let mut spawner = MemorySpawner::new(failing(rt, start));
    run_nodes(
        rt,
        alloc,
        here,
        known,
        services,
        &mut doors,
        &links,
        &mut clock,
        &mut words,
        &mut spawner,
        &OpenGate,
    )
}

/// What a run of the shops comes to, which have answered nothing yet.
pub fn run<R: Abort + AllocGlobal + Threads + Wait + Clock + Sync>(
    rt: &R,
    network: &MemoryNetwork,
    start: u64,
) -> Came {
    let setups = world(rt, "@shops");
    let services = new_services(rt, &setups);
    let ran = joined(rt, network, start, &setups, &setups, services);
    match &ran {
        Ok(joined) => end_of(joined),
        Err(RunRefused::NotStarted) => Came::NotStarted,
        Err(_) => Came::Ill,
    }
}
