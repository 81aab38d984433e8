// The end of a run whose workers are joined.
ghost use Rattle.std.specs.Prelude.{◌≡◌, All, List, ℕ, flat_map, vec_len, IfErr, IfOk, IsErrOf, IsTrue};
ghost use Rattle.node_core.specs.Closings.{AgreesSince, AreNoted, IsWholeSince, SamePlace};
ghost use Rattle.node_run.specs.Peers.{AreApart};
ghost use Rattle.node_run.specs.SetSo.{AreSetSo};
ghost use Rattle.node_run.specs.Settled.{HaveSettled};
ghost use Rattle.node_run.specs.Ends.{IsGoodEndSince, IsSealedBy};
ghost use Rattle.node_run.specs.Stopping.{IsOfOne};
ghost use Rattle.node_run.specs.declared.refused.RunRefused.TheVariants as refusals;

use crate::desks::setup_of;
use crate::judging::judge;
use crate::last::Last;
use crate::refused::{RunRefused, unequal};
use crate::same::are_set_so;
use crate::settling::settle_all;
use io_edge::Connection;
use journal_rows::Verdict;
use lang_core::{NoMemory, Same};
use node_core::{Closed, Nodes, OrderNote, Pass, Receipt, close};
use service_core::Service;
use std::alloc::Global;
use std::sync::ledger::Ledger;
use world_file::Setup;

/// What a run came to.
#[derive(Drop)]
pub struct Joined<C: Connection> {
    /// The services, at rest.
    pub services: Vec<Service>,
    /// One for each live request that was answered since the run began.
    pub receipts: Vec<Receipt>,
    /// One for each order that was carried out since the run began.
    pub orders: Vec<OrderNote>,
    /// The verdict over the services.
    pub verdict: Verdict,
    /// The connection on which an operator asked to stop.
    pub last: Last<C>,
}

// Whether a receipt's reply is sealed with the secret of the setup of its service.
fn is_sealed_so(receipt: &Receipt, here: &[Setup]) -> bool
    ensures { IsTrue result → IsSealedBy here.now receipt.now }
{
    match setup_of(here, &receipt.service) {
        Some(setup) => setup.secret.is(&receipt.secret),
        None => false,
    }
}

fn are_sealed_so(receipts: &[Receipt], here: &[Setup]) -> bool
    ensures { IsTrue result → All (IsSealedBy here.now) receipts.now }
{
    for receipt in receipts {
        if !is_sealed_so(receipt, here) {
            return false;
        }
    }
    true
}

// The services at rest, where they are those of the setups, and the receipts are of their secrets. What a node has behind its lock
// no contract sees: so both are compared here.
fn rested(
    alloc: Global,
    here: &[Setup],
    services: Vec<Service>,
    receipts: &[Receipt],
) -> Result<Vec<Service>, NoMemory>
    ensures settled { IfOk result (λ rested. HaveSettled services.items rested.items) }
    ensures set_so { IfOk result (λ rested. AreSetSo here.now rested.items) }
    ensures sealed { IfOk result (λ _. All (IsSealedBy here.now) receipts.now) }
{
    if !are_sealed_so(receipts, here) {
        return Err(NoMemory);
    }
    let services = settle_all(alloc, services)?;
    if are_set_so(alloc, &services, here)? {
        Ok(services)
    } else {
        Err(NoMemory)
    }
}

// The end of a run that was closed.
fn ended<C: Connection + Drop>(
    alloc: Global,
    here: &[Setup],
    closed: Closed,
    last: Last<C>,
) -> Result<Joined<C>, RunRefused>
    requires apart { AreApart here.now }
    requires asked { IsOfOne here.now last.service last.console }
    ensures end { (since : List ℕ) → IsWholeSince since closed.services.items closed.receipts.items
        → IfOk result (λ joined. IsGoodEndSince since here.now joined.services.items joined.receipts.items joined.verdict) }
    ensures settled { IfOk result (λ joined. HaveSettled closed.services.items joined.services.items) }
    ensures receipts { IfOk result (λ joined. joined.receipts.items ≡ closed.receipts.items) }
    ensures noted { (since : List ℕ) → AreNoted since closed.services.items closed.orders.items
        → IfOk result (λ joined. AreNoted since joined.services.items joined.orders.items) }
    ensures orders { IfOk result (λ joined. joined.orders.items ≡ closed.orders.items) }
    ensures last { IfOk result (λ joined. IsOfOne here.now joined.last.service joined.last.console) }
    ensures refused { IfErr result (λ why. why ≡ refusals.NoMemory) }
{
    let Closed {
        services,
        receipts,
        orders,
    } = closed;
    let Ok(services) = rested(alloc, here, services, receipts.as_slice()) else {
        return Err(RunRefused::NoMemory);
    };
    let verdict = judge(&services);
    Ok(Joined {
        services,
        receipts,
        orders,
        verdict,
        last,
    })
}

/// The end of a run whose workers are joined: each receipt and each note of an order is compared with the journals, and the
/// services are brought to rest and judged.
pub fn joined_end<R: Ledger, Q: Ledger, C: Connection + Drop>(
    alloc: Global,
    here: &[Setup],
    nodes: Nodes<R, Q>,
    passes: Vec<Pass<Q>>,
    last: Last<C>,
) -> Result<Joined<C>, RunRefused>
    requires apart { AreApart here.now }
    requires asked { IsOfOne here.now last.service last.console }
    requires nodes { vec_len nodes.nodes ≡ R.parts }
    requires passes { vec_len passes ≡ Q.parts }
    ensures end { IfOk result (λ joined. IsGoodEndSince nodes.since.items here.now joined.services.items joined.receipts.items joined.verdict) }
    ensures last { IfOk result (λ joined. IsOfOne here.now joined.last.service joined.last.console) }
    ensures receipts { IfOk result (λ joined. joined.receipts.items ≡ flat_map (λ p. p.receipts.items) passes.items) }
    ensures noted { IfOk result (λ joined. AreNoted nodes.since.items joined.services.items joined.orders.items) }
    ensures orders { IfOk result (λ joined. joined.orders.items ≡ flat_map (λ p. p.notes.orders) passes.items) }
    ensures door { IsErrOf result refusals.DoorFault → ⊥ }
    ensures started { IsErrOf result refusals.NotStarted → ⊥ }
    ensures differs { (r : _) (services : _) → IsErrOf result (refusals.Differs r services) → ¬ AgreesSince nodes.since.items services.items r }
    ensures twice { (r : _) (t : _) (services : _) → IsErrOf result (refusals.Twice r t services)
        → SamePlace r t × (AgreesSince nodes.since.items services.items r × AgreesSince nodes.since.items services.items t) }
{
    match close(alloc, nodes, passes) {
        Ok(closed) => ended(alloc, here, closed, last),
        Err(why) => Err(unequal(why)),
    }
}
