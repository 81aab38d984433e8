// A run of nodes.
ghost use Rattle.std.specs.Prelude.{◌≡◌, ◌≤◌, IfOk, IsErrOf, length, map, vec_len};
ghost use Rattle.io_edge.specs.Edge.{Rose};
ghost use Rattle.node_core.specs.Closings.{opened_at, AgreesSince, AreNoted, SamePlace};
ghost use Rattle.node_run.specs.Ends.{IsGoodEndSince};
ghost use Rattle.node_run.specs.Peers.{secret_of, AreApart};
ghost use Rattle.node_run.specs.Stopping.{IsOfOne};
ghost use Rattle.node_run.specs.declared.refused.RunRefused.TheVariants as refusals;

use crate::desks::desks_of;
use crate::drawing::{Draw, Drawing};
use crate::ending::{Joined, joined_end};
use crate::last::{Last, LastCell};
use crate::refused::{RunRefused, StartRefused, widened};
use crate::shared::Shared;
use crate::working::work_in_scope;
use io_links::{Door, Ear, Gate, Link, Spawner};
use lang_core::{Copied, NoMemory, Text};
use node_core::{Nodes, Opened, Pass};
use recorded_inputs::{Clock, Words};
use service_core::Service;
use std::alloc::Global;
use std::marker::Brand;
use std::sync::Wait;
use std::sync::ledger::{Blank, Ledger};
use std::thread::Threads;
use std::time;
use world_file::Setup;

// Listens for all services that run here.
fn listen_all<D: Door>(
    alloc: Global,
    here: &[Setup],
    doors: &mut D,
) -> Result<Vec<D::Ear>, StartRefused>
    ensures len { IfOk result (λ ears. vec_len ears ≡ length here.now) }
    ensures counted { D.faults doors.old ≤ D.faults doors.new }
    ensures fault { IsErrOf result StartRefused.DoorFault → Rose (D.faults doors.old) (D.faults doors.new) }
    ensures started { IsErrOf result StartRefused.NotStarted → ⊥ }
{
    let mut ears = Vec::new(alloc);
    for setup in here {
        match doors.listen(setup.door.as_str()) {
            Ok(ear) => ears.push(ear)?,
            Err(_) => return Err(StartRefused::DoorFault),
        }
    }
    Ok(ears)
}

fn secrets_of(alloc: Global, here: &[Setup]) -> Result<Vec<Text>, NoMemory>
    ensures len { IfOk result (λ secrets. vec_len secrets ≡ length here.now) }
    ensures secrets { IfOk result (λ secrets. secrets.items ≡ map secret_of here.now) }
{
    let mut secrets = Vec::new(alloc);
    for setup in here {
        secrets.push(setup.secret.copied(alloc)?)?;
    }
    Ok(secrets)
}

// How many workers there are: those that serve requests, and for each service one that repairs and one that posts.
fn count_workers(here: &[Setup]) -> u64 {
    let mut workers = 0u64;
    for setup in here {
        workers = workers.saturating_add(setup.workers).saturating_add(2);
    }
    workers
}

// The nodes of a run, and a pass for each worker.
fn opened<R: Ledger, Q: Ledger>(
    alloc: Global,
    here: &[Setup],
    services: Vec<Service>,
    passes: u64,
    rows: Blank,
    receipts: Blank,
) -> Result<Opened<R, Q>, NoMemory>
    requires services { vec_len services ≡ length here.now }
    requires rows_name { rows.name ≡ R.name }
    requires rows_parts { rows.parts ≡ R.parts }
    requires receipts_name { receipts.name ≡ Q.name }
    requires receipts_parts { receipts.parts ≡ Q.parts }
    requires one_each { R.parts ≡ length here.now }
    requires one_pass_each { Q.parts ≡ passes }
    ensures nodes { IfOk result (λ o. vec_len o.nodes.nodes ≡ R.parts) }
    ensures passes { IfOk result (λ o. vec_len o.passes ≡ Q.parts) }
    ensures since { IfOk result (λ o. o.nodes.since.items ≡ opened_at services.items) }
{
    let secrets = secrets_of(alloc, here)?;
    Nodes::<R, Q>::open(alloc, services, secrets, passes, rows, receipts)
}

// Lets the workers work until they are joined.
fn worked<
    R: Ledger + Send + Sync,
    Q: Ledger + Send + Sync,
    W: Threads + Wait + time::Clock + Sync,
    E: Ear + Sync,
    L: Link + Send,
    D: Draw + Sync,
    G: Gate + Sync,
    P: Spawner,
>(
    rt: &W,
    alloc: Global,
    here: &[Setup],
    known: &[Setup],
    ears: &[E],
    nodes: &Nodes<R, Q>,
    passes: Vec<Pass<Q>>,
    links: &L,
    drawing: &D,
    spawner: &mut P,
    gate: &G,
) -> Result<(Vec<Pass<Q>>, Last<E::Conn>), StartRefused>
    requires nodes { vec_len nodes.now.nodes ≡ length here.now }
    requires ears { length ears.now ≡ length here.now }
    ensures kept { IfOk result (λ r. vec_len r.0 ≡ vec_len passes) }
    ensures last { IfOk result (λ r. IsOfOne here.now r.1.service r.1.console) }
    ensures door { IsErrOf result StartRefused.DoorFault → ⊥ }
    ensures started { IsErrOf result StartRefused.NotStarted → Rose (P.faults spawner.old) (P.faults spawner.new) }
{
    let desks = desks_of(alloc, here, known, nodes)?;
    let shared = Shared {
        here,
        nodes,
        desks,
        drawing,
        gate,
        last: LastCell::<E::Conn>::new(),
    };
    work_in_scope(rt, alloc, spawner, &shared, ears, links, passes)
}

// Lets these services run, the setups of which are `here`. Their peers are among those that are `known`.
fn run_with<
    R: Ledger + Send + Sync,
    Q: Ledger + Send + Sync,
    D: Door,
    L: Link + Send,
    V: Draw + Sync,
    P: Spawner,
    G: Gate + Sync,
    W: Threads + Wait + time::Clock + Sync,
>(
    rt: &W,
    alloc: Global,
    rows: Blank,
    receipts: Blank,
    here: &[Setup],
    known: &[Setup],
    services: Vec<Service>,
    passes: u64,
    doors: &mut D,
    links: &L,
    drawing: &V,
    spawner: &mut P,
    gate: &G,
) -> Result<Joined<<D::Ear as Ear>::Conn>, RunRefused>
    requires apart { AreApart here.now }
    requires services { vec_len services ≡ length here.now }
    requires rows_name { rows.name ≡ R.name }
    requires rows_parts { rows.parts ≡ R.parts }
    requires receipts_name { receipts.name ≡ Q.name }
    requires receipts_parts { receipts.parts ≡ Q.parts }
    requires one_each { R.parts ≡ length here.now }
    requires one_pass_each { Q.parts ≡ passes }
    ensures end { IfOk result (λ j. IsGoodEndSince (opened_at services.items) here.now j.services.items j.receipts.items j.verdict) }
    ensures noted { IfOk result (λ j. AreNoted (opened_at services.items) j.services.items j.orders.items) }
    ensures last { IfOk result (λ j. IsOfOne here.now j.last.service j.last.console) }
    ensures door { IsErrOf result refusals.DoorFault → Rose (D.faults doors.old) (D.faults doors.new) }
    ensures started { IsErrOf result refusals.NotStarted → Rose (P.faults spawner.old) (P.faults spawner.new) }
    ensures differs { (r : _) (kept : _) → IsErrOf result (refusals.Differs r kept) → ¬ AgreesSince (opened_at services.items) kept.items r }
    ensures twice { (r : _) (t : _) (kept : _) → IsErrOf result (refusals.Twice r t kept)
        → SamePlace r t × (AgreesSince (opened_at services.items) kept.items r × AgreesSince (opened_at services.items) kept.items t) }
{
    let ears = match listen_all(alloc, here, doors) {
        Ok(ears) => ears,
        Err(why) => return Err(widened(why)),
    };
    let Ok(opened) = opened::<R, Q>(alloc, here, services, passes, rows, receipts) else {
        return Err(RunRefused::NoMemory);
    };
    let Opened { nodes, passes } = opened;
    let worked = worked(
        rt, alloc, here, known, &ears, &nodes, passes, links, drawing, spawner, gate,
    );
    let (passes, last) = match worked {
        Ok(worked) => worked,
        Err(why) => return Err(widened(why)),
    };
    joined_end(alloc, here, nodes, passes, last)
}

/// Runs services as nodes, until an operator asks one of them to stop. The setups of those that run are `here`, in the order of
/// the services, and whom they know is `known`: the doors and the secrets of their peers are told there. Each has its request
/// workers, one worker that repairs and one that posts, each in a thread of its own; what is drawn for requests comes from this
/// clock and these words. The services may have a past, which isn't counted: a run has receipts of what it answered itself.
///
/// Where it ends well, each live request that a journal answers since the run began has exactly one receipt, with its request
/// and the reply's bytes, and each order that it got since then has exactly one note of the worker that read it; each service has
/// its setup's setting, began with its rules, fits its journal, and is the replay of its
/// surviving requests, if it is timely; a Legal verdict says that all services are one legal execution; and `last` is the
/// connection on which `stop` was read. `DoorFault` comes only where the door's count of faults rose, `NotStarted` only
/// where the spawner's did; a receipt that `Differs` doesn't agree with the services that are handed back, or is of an answer of
/// before the run, and two that are `Twice` are of one answer.
pub fn run_nodes<
    D: Door,
    L: Link + Send,
    C: Clock + Send,
    V: Words + Send,
    P: Spawner,
    G: Gate + Sync,
    W: Threads + Wait + time::Clock + Sync,
>(
    rt: &W,
    alloc: Global,
    here: &[Setup],
    known: &[Setup],
    services: Vec<Service>,
    doors: &mut D,
    links: &L,
    clock: &mut C,
    random: &mut V,
    spawner: &mut P,
    gate: &G,
) -> Result<Joined<<D::Ear as Ear>::Conn>, RunRefused>
    requires apart { AreApart here.now }
    requires services { vec_len services ≡ length here.now }
    ensures end { IfOk result (λ j. IsGoodEndSince (opened_at services.items) here.now j.services.items j.receipts.items j.verdict) }
    ensures noted { IfOk result (λ j. AreNoted (opened_at services.items) j.services.items j.orders.items) }
    ensures last { IfOk result (λ j. IsOfOne here.now j.last.service j.last.console) }
    ensures door { IsErrOf result refusals.DoorFault → Rose (D.faults doors.old) (D.faults doors.new) }
    ensures started { IsErrOf result refusals.NotStarted → Rose (P.faults spawner.old) (P.faults spawner.new) }
    ensures differs { (r : _) (kept : _) → IsErrOf result (refusals.Differs r kept) → ¬ AgreesSince (opened_at services.items) kept.items r }
    ensures twice { (r : _) (t : _) (kept : _) → IsErrOf result (refusals.Twice r t kept)
        → SamePlace r t × (AgreesSince (opened_at services.items) kept.items r × AgreesSince (opened_at services.items) kept.items t) }
{
    let passes = count_workers(here);
    let drawing = Drawing::new(clock, random);
    run_with::<Brand, Brand, D, L, Drawing<'_, C, V>, P, G, W>(
        rt,
        alloc,
        Blank::new(here.len() as u64),
        Blank::new(passes),
        here,
        known,
        services,
        passes,
        doors,
        links,
        &drawing,
        spawner,
        gate,
    )
}
