// Starting the workers of all services.
ghost use Rattle.std.specs.Prelude.{◌≡◌, ◌+◌, ◌≤◌, IsErrOf, OnOk, length, vec_len};
ghost use Rattle.io_edge.specs.Edge.{Rose};

use crate::drawing::Draw;
use crate::jobs::{Posts, Repairs, Requests};
use crate::refused::StartRefused;
use crate::shared::Shared;
use io_links::{Ear, Gate, Job, Link, Spawner, Ticket};
use node_core::Pass;
use node_workers::Desk;
use std::alloc::Global;
use std::sync::Wait;
use std::sync::ledger::Ledger;
use std::thread::{Scope, Threads};
use std::time::Clock;

// Starts one.
fn start<'scope, 'env, J: Job + 'scope, P: Spawner>(
    scope: &'scope Scope<'scope, &'env ()>,
    spawner: &mut P,
    job: J,
    tickets: &mut Vec<Ticket<'scope, J::Out>>,
) -> Result<(), StartRefused>
    ensures one { OnOk result (vec_len tickets.new ≡ vec_len tickets.old + 1) }
    ensures counted { P.faults spawner.old ≤ P.faults spawner.new }
    ensures started { IsErrOf result StartRefused.NotStarted → Rose (P.faults spawner.old) (P.faults spawner.new) }
    ensures door { IsErrOf result StartRefused.DoorFault → ⊥ }
{
    match spawner.start(scope, job) {
        Ok(ticket) => {
            tickets.push(ticket)?;
            Ok(())
        }
        Err(_) => Err(StartRefused::NotStarted),
    }
}

// Starts those of one service that serve requests, each with a pass and a link of its own.
fn start_requests<
    'scope,
    'env,
    R: Ledger + Send + Sync + 'scope,
    Q: Ledger + Send + Sync + 'scope,
    W: Threads + Wait + Clock + Sync + 'scope,
    E: Ear + Sync + 'scope,
    L: Link + Send + 'scope,
    D: Draw + Sync + 'scope,
    G: Gate + Sync + 'scope,
    P: Spawner,
>(
    rt: &'scope W,
    alloc: Global,
    scope: &'scope Scope<'scope, &'env ()>,
    spawner: &mut P,
    shared: &'scope Shared<'scope, R, Q, E::Conn, D, G>,
    desk: &'scope Desk<'scope, R, Q>,
    ear: &'scope E,
    links: &L,
    passes: &mut Vec<Pass<Q>>,
    tickets: &mut Vec<Ticket<'scope, Pass<Q>>>,
) -> Result<(), StartRefused>
    ensures kept { OnOk result (vec_len passes.new + vec_len tickets.new ≡ vec_len passes.old + vec_len tickets.old) }
    ensures counted { P.faults spawner.old ≤ P.faults spawner.new }
    ensures started { IsErrOf result StartRefused.NotStarted → Rose (P.faults spawner.old) (P.faults spawner.new) }
    ensures door { IsErrOf result StartRefused.DoorFault → ⊥ }
{
    for _i in 0..desk.setup.workers {
        let Some(pass) = passes.pop() else {
            break;
        };
        let job = Requests {
            rt,
            alloc,
            shared,
            desk,
            ear,
            link: links.another(),
            pass,
        };
        start(scope, spawner, job, tickets)?;
    }
    Ok(())
}

// Starts the one of a service that repairs and the one that posts.
fn start_others<
    'scope,
    'env,
    R: Ledger + Send + Sync + 'scope,
    Q: Ledger + Send + Sync + 'scope,
    W: Threads + Wait + Clock + Sync + 'scope,
    L: Link + Send + 'scope,
    D: Draw + Sync + 'scope,
    P: Spawner,
>(
    rt: &'scope W,
    alloc: Global,
    scope: &'scope Scope<'scope, &'env ()>,
    spawner: &mut P,
    desk: &'scope Desk<'scope, R, Q>,
    drawing: &'scope D,
    links: &L,
    passes: &mut Vec<Pass<Q>>,
    tickets: &mut Vec<Ticket<'scope, Pass<Q>>>,
) -> Result<(), StartRefused>
    ensures kept { OnOk result (vec_len passes.new + vec_len tickets.new ≡ vec_len passes.old + vec_len tickets.old) }
    ensures counted { P.faults spawner.old ≤ P.faults spawner.new }
    ensures started { IsErrOf result StartRefused.NotStarted → Rose (P.faults spawner.old) (P.faults spawner.new) }
    ensures door { IsErrOf result StartRefused.DoorFault → ⊥ }
{
    if let Some(pass) = passes.pop() {
        let job = Repairs {
            rt,
            alloc,
            desk,
            drawing,
            pass,
        };
        start(scope, spawner, job, tickets)?;
    }
    if let Some(pass) = passes.pop() {
        let link = links.another();
        let job = Posts {
            rt,
            alloc,
            desk,
            link,
            pass,
        };
        start(scope, spawner, job, tickets)?;
    }
    Ok(())
}

/// Starts those of all services. Passes that nobody took stay.
pub fn start_all<
    'scope,
    'env,
    R: Ledger + Send + Sync + 'scope,
    Q: Ledger + Send + Sync + 'scope,
    W: Threads + Wait + Clock + Sync + 'scope,
    E: Ear + Sync + 'scope,
    L: Link + Send + 'scope,
    D: Draw + Sync + 'scope,
    G: Gate + Sync + 'scope,
    P: Spawner,
>(
    rt: &'scope W,
    alloc: Global,
    scope: &'scope Scope<'scope, &'env ()>,
    spawner: &mut P,
    shared: &'scope Shared<'scope, R, Q, E::Conn, D, G>,
    ears: &'scope [E],
    links: &L,
    passes: &mut Vec<Pass<Q>>,
    tickets: &mut Vec<Ticket<'scope, Pass<Q>>>,
) -> Result<(), StartRefused>
    requires { length ears.now ≡ vec_len shared.now.desks }
    ensures kept { OnOk result (vec_len passes.new + vec_len tickets.new ≡ vec_len passes.old + vec_len tickets.old) }
    ensures counted { P.faults spawner.old ≤ P.faults spawner.new }
    ensures started { IsErrOf result StartRefused.NotStarted → Rose (P.faults spawner.old) (P.faults spawner.new) }
    ensures door { IsErrOf result StartRefused.DoorFault → ⊥ }
{
    for (place, ear) in ears.iter().enumerate() {
        let desk = &shared.desks[place];
        start_requests(
            rt, alloc, scope, spawner, shared, desk, ear, links, passes, tickets,
        )?;
        start_others(
            rt,
            alloc,
            scope,
            spawner,
            desk,
            shared.drawing,
            links,
            passes,
            tickets,
        )?;
    }
    Ok(())
}
