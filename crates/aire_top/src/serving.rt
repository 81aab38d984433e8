// Serving, once a world is loaded.
ghost use Rattle.std.specs.Prelude.{◌≡◌, ◌∷◌, ◌≤◌, ◌⊎◌, [], IfOk, IsErrOf, Some, length};
ghost use Rattle.std.proofs.Props.{props};
ghost use Rattle.command_ends.specs.Ends.{EndsWith};
ghost use Rattle.io_edge.specs.Edge.{Rose};
ghost use Rattle.report_text.specs.Reports.{IsVerdictOver};
ghost use Rattle.world_file.specs.Worlds.{KnowEachOther};
ghost use Rattle.node_run.specs.HandedOn.{Agrees, SamePlace};
ghost use Rattle.node_run.specs.Ends.{IsGoodEnd};
ghost use Rattle.node_run.specs.Stopping.{IsOfOne};
ghost use Rattle.node_run.specs.declared.refused.RunRefused.TheVariants as refusals;
ghost use Rattle.aire_top.specs.Ended.{ending, faults, plain, whose};
ghost use Rattle.aire_top.specs.Endings.{nothing};
ghost use Rattle.aire_top.specs.Seen.{ending_of};
ghost use Rattle.aire_top.specs.Serves.{EndsRefused, HasServed, IsLacking, ServeEnds, amiss};

use crate::announcing::AnnouncingDoor;
use crate::ended::Ended;
use crate::ending::without;
use crate::starting::services_of;
use crate::telling::{end_text, receipt_line};
use command_ends::{AMISS, NO_DOOR, NO_WORKER, lacking, print, write_last};
use io_edge::{Connection, Sink};
use io_links::{Ear, Link, OpenGate, Spawner};
use lang_base::both;
use lang_core::NoMemory;
use node_run::{Joined, Receipt, RunRefused, run_nodes};
use recorded_inputs::{Clock, Words};
use script_run::Service;
use std::alloc::Global;
use std::sync::Wait;
use std::thread::Threads;
use std::time;
use world_file::Setup;

// The end for want of memory.
fn lacking_end<C: Connection + Drop, K: Sink>(alloc: Global, out: &mut K) -> Ended<C>
    ensures { IsLacking (K.writes out.old) (K.writes out.new)
        (ending_of result) }
{
    without(alloc, lacking(out))
}

// An end without services, and its last line.
fn saying<C: Connection + Drop, K: Sink>(
    alloc: Global,
    out: &mut K,
    status: u8,
    line: &str,
) -> Ended<C>
    ensures answered { ending_of result ≡ plain (nothing status) }
    ensures ends { EndsWith (K.writes out.old) (K.writes out.new) [] line.now }
{
    write_last(out, line);
    without(alloc, status)
}

// The end of a run that ended well.
fn finished<C: Connection + Drop>(status: u8, joined: Joined<C>) -> Ended<C>
    ensures { ending_of result
        ≡ ending status joined.services.items (Some joined.verdict) joined.receipts.items (Some (whose joined.last.service joined.last.console)) }
{
    let Joined {
        services,
        receipts,
        orders: _,
        verdict,
        last,
    } = joined;
    Ended {
        status,
        services,
        verdict: Some(verdict),
        receipts,
        last: Some(last),
    }
}

// Writes what a run came to that ended well.
fn told<C: Connection + Drop, K: Sink>(alloc: Global, out: &mut K, joined: Joined<C>) -> Ended<C>
    requires { IsVerdictOver (length joined.services.items) joined.verdict }
    ensures { (setups : _) → IsGoodEnd setups joined.services.items joined.receipts.items joined.verdict → IsOfOne setups joined.last.service joined.last.console
        → HasServed setups (K.writes out.old) (K.writes out.new)
        (ending_of result)
        ⊎ IsLacking (K.writes out.old) (K.writes out.new)
        (ending_of result) }
{
    match end_text(alloc, &joined.services, &joined.receipts, &joined.verdict) {
        Ok(text) => finished(print(out, text.as_str()), joined),
        Err(_) => lacking_end(alloc, out),
    }
}

// The end with services and the receipts of which something is amiss.
fn amiss<C: Connection + Drop>(services: Vec<Service>, receipts: Vec<Receipt>) -> Ended<C>
    ensures { ending_of result
        ≡ amiss services.items receipts.items }
{
    Ended {
        status: AMISS,
        services,
        verdict: None,
        receipts,
        last: None,
    }
}

fn one(alloc: Global, receipt: Receipt) -> Result<Vec<Receipt>, NoMemory>
    ensures { IfOk result (λ receipts. receipts.items ≡ receipt ∷ []) }
{
    let mut receipts = Vec::with_capacity(alloc, 1)?;
    receipts.push(receipt)?;
    Ok(receipts)
}

fn two(alloc: Global, first: Receipt, second: Receipt) -> Result<Vec<Receipt>, NoMemory>
    ensures { IfOk result (λ receipts. receipts.items ≡ first ∷ second ∷ []) }
{
    let mut receipts = one(alloc, first)?;
    receipts.push(second)?;
    Ok(receipts)
}

// The end where a receipt differs from what the services say.
fn differing<C: Connection + Drop, K: Sink>(
    alloc: Global,
    out: &mut K,
    receipt: Receipt,
    services: Vec<Service>,
) -> Ended<C>
    ensures { EndsRefused (refusals.Differs receipt services) (K.writes out.old) (K.writes out.new)
        (ending_of result) }
{
    match both(receipt_line(alloc, &receipt), one(alloc, receipt)) {
        Ok((line, receipts)) => {
            write_last(out, line.as_str());
            amiss(services, receipts)
        }
        Err(_) => lacking_end(alloc, out),
    }
}

// The end where two receipts are of one answer.
fn doubled<C: Connection + Drop, K: Sink>(
    alloc: Global,
    out: &mut K,
    first: Receipt,
    second: Receipt,
    services: Vec<Service>,
) -> Ended<C>
    ensures { EndsRefused (refusals.Twice first second services) (K.writes out.old) (K.writes out.new)
        (ending_of result) }
{
    match both(receipt_line(alloc, &first), two(alloc, first, second)) {
        Ok((line, receipts)) => {
            write_last(out, line.as_str());
            amiss(services, receipts)
        }
        Err(_) => lacking_end(alloc, out),
    }
}

// The end of a run that didn't end well.
fn refused<C: Connection + Drop, K: Sink>(alloc: Global, out: &mut K, why: RunRefused) -> Ended<C>
    ensures { EndsRefused why (K.writes out.old) (K.writes out.new)
        (ending_of result) }
{
    match why {
        RunRefused::NoMemory => lacking_end(alloc, out),
        RunRefused::DoorFault => saying(alloc, out, NO_DOOR, "door fault\n"),
        RunRefused::NotStarted => saying(alloc, out, NO_WORKER, "worker not started\n"),
        RunRefused::Differs { receipt, services } => differing(alloc, out, receipt, services),
        RunRefused::Twice {
            first,
            second,
            services,
        } => doubled(alloc, out, first, second, services),
    }
}

// Tells a door of all services.
fn announce<D: AnnouncingDoor>(doors: &mut D, setups: &[Setup])
    ensures { D.faults doors.old ≤ D.faults doors.new }
{
    for setup in setups {
        doors.expect(setup.setting.me.as_str(), setup.door.as_str());
    }
}

// Setups that know each other.
#[derive(Drop)]
struct Peers {
    setups: Vec<Setup>,
    ghost know: { KnowEachOther setups.items } by { Prim.hlevel props },
}

impl Peers {
    fn all(&self) -> &[Setup]
        ensures same { result.now ≡ self.now.setups.items }
        ensures know { KnowEachOther self.now.setups.items }
    {
        self.setups.as_slice()
    }
}

// Tells a door of all services, and lets new services of these setups run, which know each other. They have answered nothing
// yet: so what a journal answers at the end is what the run answered.
fn run<
    D: AnnouncingDoor,
    L: Link + Send,
    C: Clock + Send,
    V: Words + Send,
    P: Spawner,
    W: Threads + Wait + time::Clock + Sync,
>(
    rt: &W,
    alloc: Global,
    peers: &Peers,
    doors: &mut D,
    links: &L,
    clock: &mut C,
    random: &mut V,
    spawner: &mut P,
) -> Result<Joined<<D::Ear as Ear>::Conn>, RunRefused>
    ensures end { IfOk result (λ j. IsGoodEnd peers.now.setups.items j.services.items j.receipts.items j.verdict) }
    ensures last { IfOk result (λ j. IsOfOne peers.now.setups.items j.last.service j.last.console) }
    ensures door { IsErrOf result refusals.DoorFault → Rose (D.faults doors.old) (D.faults doors.new) }
    ensures started { IsErrOf result refusals.NotStarted → Rose (P.faults spawner.old) (P.faults spawner.new) }
    ensures differs { (r : _) (services : _) → IsErrOf result (refusals.Differs r services) → ¬ Agrees services.items r }
    ensures twice { (r : _) (t : _) (services : _) → IsErrOf result (refusals.Twice r t services)
        → SamePlace r t × (Agrees services.items r × Agrees services.items t) }
{
    let setups = peers.all();
    announce(doors, setups);
    match services_of(alloc, setups) {
        Ok(services) => run_nodes(
            rt, alloc, setups, setups, services, doors, links, clock, random, spawner, &OpenGate,
        ),
        Err(_) => Err(RunRefused::NoMemory),
    }
}

// Lets the services of these setups run, and writes how that ended.
fn serve_peers<
    K: Sink,
    D: AnnouncingDoor,
    L: Link + Send,
    C: Clock + Send,
    V: Words + Send,
    P: Spawner,
    W: Threads + Wait + time::Clock + Sync,
>(
    rt: &W,
    alloc: Global,
    peers: &Peers,
    out: &mut K,
    doors: &mut D,
    links: &L,
    clock: &mut C,
    random: &mut V,
    spawner: &mut P,
) -> Ended<<D::Ear as Ear>::Conn>
    ensures { ServeEnds peers.now.setups.items (faults (D.faults doors.old) (P.faults spawner.old)) (faults (D.faults doors.new) (P.faults spawner.new))
        (K.writes out.old) (K.writes out.new)
        (ending_of result) }
{
    match run(rt, alloc, peers, doors, links, clock, random, spawner) {
        Ok(joined) => told(alloc, out, joined),
        Err(why) => refused(alloc, out, why),
    }
}

/// Serves a world until an operator stops it, and writes for each service how many receipts it has, and then the verdict.
///
/// It ends well (status 0, or 5 where a write failed) only where an operator of one of the services asked to stop; then each
/// live request that a journal answers has exactly one receipt, and a Legal verdict says that all services are one legal
/// execution. It doesn't where a door can't be listened at (7) or a worker can't be started (8), where a receipt isn't that
/// of the journal or two are of one answer (9), or where memory is wanting (6).
pub fn serve<
    K: Sink,
    D: AnnouncingDoor,
    L: Link + Send,
    C: Clock + Send,
    V: Words + Send,
    P: Spawner,
    W: Threads + Wait + time::Clock + Sync,
>(
    rt: &W,
    alloc: Global,
    setups: Vec<Setup>,
    out: &mut K,
    doors: &mut D,
    links: &L,
    clock: &mut C,
    random: &mut V,
    spawner: &mut P,
) -> Ended<<D::Ear as Ear>::Conn>
    requires { KnowEachOther setups.items }
    ensures { ServeEnds setups.items (faults (D.faults doors.old) (P.faults spawner.old)) (faults (D.faults doors.new) (P.faults spawner.new))
        (K.writes out.old) (K.writes out.new)
        (ending_of result) }
{
    let peers = Peers { setups };
    serve_peers(rt, alloc, &peers, out, doors, links, clock, random, spawner)
}
