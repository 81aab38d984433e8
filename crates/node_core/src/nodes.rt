// All nodes of a run, and the passes of its workers.
ghost use Rattle.std.specs.Prelude.{◌≡◌, ◌+◌, ◌++◌, ◌<◌, ◌∷◌, ℕ, [], map, vec_len, slice_get, None, Some, IfOk, OnOk};
ghost use Rattle.service_events.specs.State.{me};
ghost use Rattle.node_core.specs.Closings.{opened_at};
ghost use Rattle.node_core.specs.Notes.{no_notes};

use crate::notes::{LastGave, Notes};
use crate::orders::OrderNotes;
use crate::pass::Pass;
use crate::state::NodeState;
use crate::tally::{Books, Tally};
use lang_core::{Copied, Name, NoMemory, Text};
use service_core::Service;
use std::alloc::Global;
use std::sync::ledger::{Blank, Ledger, Share};
use std::sync::{Condvar, Mutex};

/// A service behind a lock, and what its workers wait at. Contracts see the service's name, and not what the lock guards.
#[derive(Drop)]
pub struct Node<R: Ledger> {
    pub name: Name,
    pub state: Mutex<NodeState<R>>,
    pub work: Condvar,
}

/// The nodes of a run, the tally behind all of them, and how many rows each service's journal had when its node was opened. Each
/// node has that number behind its lock too, where contracts can't see it: so `close` compares them.
#[derive(Drop)]
pub struct Nodes<R: Ledger, Q: Ledger> {
    pub nodes: Vec<Node<R>>,
    pub tally: Tally<R, Q>,
    pub since: Vec<u64>,
}

/// The nodes of a run that begins, and the passes of its workers.
#[derive(Drop)]
pub struct Opened<R: Ledger, Q: Ledger> {
    pub nodes: Nodes<R, Q>,
    pub passes: Vec<Pass<Q>>,
}

// How many rows each journal has.
fn opened_at(alloc: Global, services: &[Service]) -> Result<Vec<u64>, NoMemory>
    ensures { IfOk result (λ since. since.items ≡ opened_at services.now) }
{
    let mut since = Vec::new(alloc);
    for service in services {
        since.push(service.journal().len())?;
    }
    Ok(since)
}

// Adds the node of a service whose answers count from now on.
fn add_node<R: Ledger>(
    alloc: Global,
    nodes: &mut Vec<Node<R>>,
    service: Service,
    secret: Text,
    share: Share<R>,
) -> Result<(), NoMemory>
    requires one_part { share.parts ≡ 1 }
    requires none { share.amount ≡ 0 }
    ensures len { OnOk result (vec_len nodes.new ≡ vec_len nodes.old + 1) }
    ensures names { OnOk result (map (λ n. n.name) nodes.new.items ≡ map (λ n. n.name) nodes.old.items ++ me service ∷ []) }
{
    let name = service.setting().me.copied(alloc)?;
    nodes.push(Node {
        name,
        state: Mutex::new(NodeState::fresh(service, secret, share)),
        work: Condvar::new(),
    })?;
    Ok(())
}

// A node for each service, in order, whose shares are cut from one that has a part for each. They come from the last on.
fn node_each<R: Ledger>(
    alloc: Global,
    mut services: Vec<Service>,
    mut secrets: Vec<Text>,
    rest: &mut Share<R>,
) -> Result<Vec<Node<R>>, NoMemory>
    requires secrets { vec_len secrets ≡ vec_len services }
    requires parts { rest.old.parts ≡ vec_len services }
    requires none { rest.old.amount ≡ 0 }
    ensures len { IfOk result (λ nodes. vec_len nodes ≡ vec_len services) }
    ensures names { IfOk result (λ nodes. map (λ n. n.name) nodes.items ≡ map me services.items) }
    ensures parts { IfOk result (λ _. (rest.new.parts ≡ 0) × (rest.new.amount ≡ 0)) }
{
    let mut nodes = Vec::with_capacity(alloc, services.len())?;
    while let Some(service) = services.pop() {
        let Some(secret) = secrets.pop() else {
            unreachable!()
        };
        add_node(alloc, &mut nodes, service, secret, rest.split_off(1, 0))?;
    }
    nodes.reverse();
    Ok(nodes)
}

fn no_notes(gave: LastGave, orders: OrderNotes) -> Notes
    requires gave { gave ≡ None }
    requires orders { orders ≡ [] }
    ensures { result ≡ no_notes }
{
    Notes {
        begun: None,
        turn: None,
        posting: None,
        gave,
        orders,
        lost: 0,
        refused: 0,
        made: 0,
    }
}

// As many passes as the share has parts.
fn passes_of<Q: Ledger>(
    alloc: Global,
    passes: u64,
    rest: &mut Share<Q>,
) -> Result<Vec<Pass<Q>>, NoMemory>
    requires parts { rest.old.parts ≡ passes }
    requires none { rest.old.amount ≡ 0 }
    ensures len { IfOk result (λ all. vec_len all ≡ passes) }
    ensures fresh { IfOk result (λ all. (i : ℕ) (p : _) → slice_get all.items i ≡ Some p → (p.receipts.items ≡ []) × (p.notes ≡ no_notes)) }
    ensures parts { IfOk result (λ _. (rest.new.parts ≡ 0) × (rest.new.amount ≡ 0)) }
{
    let mut all = Vec::new(alloc);
    for _i in 0..passes {
        let gave = LastGave::none(alloc)?;
        all.push(Pass {
            share: rest.split_off(1, 0),
            receipts: Vec::new(alloc),
            notes: no_notes(gave, OrderNotes::none(alloc)),
        })?;
    }
    Ok(all)
}

impl<R: Ledger, Q: Ledger> Nodes<R, Q> {
    /// A node for each service, in order, with its secret, and so many passes without receipts, of which each serves any node.
    /// What a service answered and was ordered before, of which its journal tells, is not counted. Each of the two ledgers, of rows
    /// and of receipts with notes, stands for one run alone: so what is counted in it is what this run's nodes and passes count.
    pub fn open(
        alloc: Global,
        services: Vec<Service>,
        secrets: Vec<Text>,
        passes: u64,
        rows: Blank,
        receipts: Blank,
    ) -> Result<Opened<R, Q>, NoMemory>
        requires rows_name { rows.name ≡ R.name }
        requires rows_parts { rows.parts ≡ R.parts }
        requires receipts_name { receipts.name ≡ Q.name }
        requires receipts_parts { receipts.parts ≡ Q.parts }
        requires one_each { R.parts ≡ vec_len services }
        requires one_pass_each { Q.parts ≡ passes }
        requires secrets { vec_len secrets ≡ vec_len services }
        ensures nodes { IfOk result (λ o. vec_len o.nodes.nodes ≡ R.parts) }
        ensures names { IfOk result (λ o. map (λ n. n.name) o.nodes.nodes.items ≡ map me services.items) }
        ensures passes { IfOk result (λ o. vec_len o.passes ≡ Q.parts) }
        ensures since { IfOk result (λ o. o.nodes.since.items ≡ opened_at services.items) }
        ensures fresh { IfOk result (λ o. (i : ℕ) (p : _) → slice_get o.passes.items i ≡ Some p → (p.receipts.items ≡ []) × (p.notes ≡ no_notes)) }
    {
        let since = opened_at(alloc, &services)?;
        let (rows, mut no_rows) = rows.open::<R>();
        let (receipts, mut no_receipts) = receipts.open::<Q>();
        let nodes = node_each(alloc, services, secrets, &mut no_rows)?;
        let passes = passes_of(alloc, passes, &mut no_receipts)?;
        let tally = Tally::new(Books {
            rows,
            receipts,
            no_rows,
            no_receipts,
        });
        Ok(Opened {
            nodes: Nodes {
                nodes,
                tally,
                since,
            },
            passes,
        })
    }
}
