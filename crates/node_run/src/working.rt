// The workers of a run, from their start until they are joined.
ghost use Rattle.std.specs.Prelude.{◌≡◌, ◌+◌, ◌≤◌, IfOk, IsErrOf, OnOk, length, vec_len};
ghost use Rattle.io_edge.specs.Edge.{Rose};
ghost use Rattle.node_run.specs.Stopping.{IsOfOne};

use crate::drawing::Draw;
use crate::last::Last;
use crate::refused::StartRefused;
use crate::shared::{Shared, stop_all};
use crate::starting::start_all;
use io_links::{Ear, Gate, Link, Spawner, Ticket};
use lang_core::NoMemory;
use node_core::Pass;
use std::alloc::Global;
use std::sync::Wait;
use std::sync::ledger::Ledger;
use std::thread::{self, Scope, Threads};
use std::time::Clock;

fn join_all<Q: Ledger, W: Threads>(
    rt: &W,
    tickets: Vec<Ticket<'_, Pass<Q>>>,
    passes: &mut Vec<Pass<Q>>,
) -> Result<(), NoMemory>
    ensures { OnOk result (vec_len passes.new ≡ vec_len passes.old + vec_len tickets.entry) }
{
    for ticket in tickets {
        passes.push(ticket.join(rt))?;
    }
    Ok(())
}

// Starts the workers, waits for the last connection, stops the workers and joins them. All passes come back.
fn work<
    'scope,
    'env,
    R: Ledger + Send + Sync + 'scope,
    Q: Ledger + Send + Sync + 'scope,
    W: Threads + Wait + Clock + Sync + 'scope,
    E: Ear + Sync + 'scope,
    L: Link + Send + 'scope,
    D: Draw + Sync + 'scope,
    G: Gate + Sync + 'scope,
    P: Spawner,
>(
    rt: &'scope W,
    alloc: Global,
    scope: &'scope Scope<'scope, &'env ()>,
    spawner: &mut P,
    shared: &'scope Shared<'scope, R, Q, E::Conn, D, G>,
    ears: &'scope [E],
    links: &L,
    mut passes: Vec<Pass<Q>>,
) -> Result<(Vec<Pass<Q>>, Last<E::Conn>), StartRefused>
    requires ears { length ears.now ≡ vec_len shared.now.desks }
    ensures kept { IfOk result (λ r. vec_len r.0 ≡ vec_len passes) }
    ensures last { IfOk result (λ r. IsOfOne shared.now.here.now r.1.service r.1.console) }
    ensures counted { P.faults spawner.old ≤ P.faults spawner.new }
    ensures started { IsErrOf result StartRefused.NotStarted → Rose (P.faults spawner.old) (P.faults spawner.new) }
    ensures door { IsErrOf result StartRefused.DoorFault → ⊥ }
{
    let mut tickets = Vec::new(alloc);
    let started = start_all(
        rt,
        alloc,
        scope,
        spawner,
        shared,
        ears,
        links,
        &mut passes,
        &mut tickets,
    );
    match started {
        Ok(()) => {
            let last = shared.last.wait(rt, shared.here);
            stop_all(rt, &shared.nodes.nodes, ears);
            join_all(rt, tickets, &mut passes)?;
            Ok((passes, last))
        }
        Err(refused) => {
            stop_all(rt, &shared.nodes.nodes, ears);
            let _ = join_all(rt, tickets, &mut passes);
            Err(refused)
        }
    }
}

/// Lets the workers work until an operator stops them, in a scope of threads that has ended afterwards. All passes come back.
pub fn work_in_scope<
    R: Ledger + Send + Sync,
    Q: Ledger + Send + Sync,
    W: Threads + Wait + Clock + Sync,
    E: Ear + Sync,
    L: Link + Send,
    D: Draw + Sync,
    G: Gate + Sync,
    P: Spawner,
>(
    rt: &W,
    alloc: Global,
    spawner: &mut P,
    shared: &Shared<'_, R, Q, E::Conn, D, G>,
    ears: &[E],
    links: &L,
    passes: Vec<Pass<Q>>,
) -> Result<(Vec<Pass<Q>>, Last<E::Conn>), StartRefused>
    requires ears { length ears.now ≡ vec_len shared.now.desks }
    ensures kept { IfOk result (λ r. vec_len r.0 ≡ vec_len passes) }
    ensures last { IfOk result (λ r. IsOfOne shared.now.here.now r.1.service r.1.console) }
    ensures door { IsErrOf result StartRefused.DoorFault → ⊥ }
    ensures started { IsErrOf result StartRefused.NotStarted → Rose (P.faults spawner.old) (P.faults spawner.new) }
{
    let (worked, _back) = thread::scope(
        thread::scope_env(),
        rt,
        move |scope| -> (Result<(Vec<Pass<Q>>, Last<E::Conn>), StartRefused>, &mut P)
            requires ears { length ears.now ≡ vec_len shared.now.desks }
            ensures kept { IfOk result.0 (λ r. vec_len r.0 ≡ vec_len passes) }
            ensures last { IfOk result.0 (λ r. IsOfOne shared.entry.now.here.now r.1.service r.1.console) }
            ensures door { IsErrOf result.0 StartRefused.DoorFault → ⊥ }
            ensures back { result.1.ghost_name ≡ spawner.entry.ghost_name }
            ensures started { IsErrOf result.0 StartRefused.NotStarted → Rose (P.faults spawner.entry.now) (P.faults result.1.now) }
        {
            let worked = work(rt, alloc, scope, spawner, shared, ears, links, passes);
            (worked, spawner)
        },
    );
    worked
}
