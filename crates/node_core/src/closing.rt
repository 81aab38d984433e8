// Taking nodes and passes apart, and comparing receipts with journals.
ghost use Rattle.std.specs.Prelude.{◌≡◌, ◌+◌, ◌<◌, ◌≤◌, ◌↔◌, ℕ, Some, None, find, flat_map, get_or, length, position, slice_get, vec_len, IfOk, IfSome, IfNone, IsErrOf, IsTrue, OnOk, option_map};
ghost use Rattle.std.specs.Option.{option_copied};
ghost use Rattle.journal_rows.specs.Words.{asked, asked_step};
ghost use Rattle.lang_base.specs.Texts.{same_text};
ghost use Rattle.service_events.specs.State.{me};
ghost use Rattle.node_core.specs.Closings.{all_told_since, service_of, told_since, since_of, Agrees, AgreesSince, AllAgreeSince, AreAmong, IsAmong, IsFirstToDiffer, IsWholeSince, AllStandSince, AreNoted, OrdersApart, SamePlace};
ghost use Rattle.node_core.specs.Receipts.{answered_id, AgreesWith, WasAskedSo};
ghost use Rattle.node_core.specs.declared.closing.CloseRefused.TheVariants as refusals;

use crate::nodes::{Node, Nodes};
use crate::noted::are_noted;
use crate::orders::OrderNote;
use crate::pass::Pass;
use crate::receipt::Receipt;
use crate::state::NodeState;
use crate::tally::{Books, Tally};
use crate::twice::first_twice;
use journal_rows::{AskedRow, Row, Rows};
use lang_core::{Inputs, Name, NoMemory, Request, Same};
use service_core::Service;
use std::alloc::Global;
use std::sync::ledger::{Ledger, Share};

/// The services of a run that ended, and the receipts and the notes of all its workers: a receipt for each live request that was
/// answered since the nodes were opened, and a note for each order that was carried out since then.
#[derive(Drop)]
pub struct Closed {
    pub services: Vec<Service>,
    pub receipts: Vec<Receipt>,
    pub orders: Vec<OrderNote>,
}

/// Why a run wasn't closed.
#[derive(Drop)]
pub enum CloseRefused {
    /// There was no memory for it. Nodes and passes are gone. It is answered also where a node says that its journal had
    /// another number of rows when it was opened, and where the notes of orders aren't those of the journals.
    NoMemory,
    /// This receipt is the first that doesn't agree with the journal of the service that it names, or is of an answer of before
    /// the node was opened.
    Differs {
        receipt: Receipt,
        services: Vec<Service>,
    },
    /// Each receipt agrees, and these two are of one answer.
    Twice {
        first: Receipt,
        second: Receipt,
        services: Vec<Service>,
    },
}

impl From<NoMemory> for CloseRefused {
    ghost from_gives = { λ _ why. why ≡ refusals.NoMemory };

    fn from(_: NoMemory) -> CloseRefused {
        CloseRefused::NoMemory
    }
}

// Whether the node of this place was opened when its journal had so many rows.
fn was_opened_at(since: &[u64], place: usize, rows: u64) -> bool
    ensures { IsTrue result → slice_get since.now place ≡ Some rows }
{
    match since.get(place) {
        None => false,
        Some(opened) => *opened == rows,
    }
}

// What the node of this place leaves, where it was opened as it should be. Contracts don't see what stands behind its lock.
fn left_of<R: Ledger>(
    node: Node<R>,
    since: &[u64],
    place: usize,
) -> Result<(Share<R>, Service), NoMemory>
    ensures part { IfOk result (λ r. r.0.parts ≡ 1) }
    ensures amount { IfOk result (λ r. r.0.amount ≡ told_since (get_or since.now place 0) r.1) }
    ensures within { OnOk result (place < length since.now) }
{
    let Node {
        name: _,
        state,
        work: _,
    } = node;
    let NodeState {
        service,
        share,
        secret: _,
        stopped: _,
        since: rows,
        folds: _,
    } = state.into_inner();
    if was_opened_at(since, place, rows) {
        Ok((share, service))
    } else {
        Err(NoMemory)
    }
}

// The services, and all their shares as one.
fn gather_rows<R: Ledger>(
    alloc: Global,
    rest: Share<R>,
    nodes: Vec<Node<R>>,
    since: &[u64],
) -> Result<(Share<R>, Vec<Service>), NoMemory>
    requires parts { rest.parts ≡ 0 }
    requires none { rest.amount ≡ 0 }
    ensures parts { IfOk result (λ r. r.0.parts ≡ vec_len nodes) }
    ensures amount { IfOk result (λ r. r.0.amount ≡ all_told_since r.1.items since.now) }
    ensures len { IfOk result (λ r. vec_len r.1 ≡ vec_len nodes) }
    ensures reach { IfOk result (λ r. vec_len r.1 ≤ length since.now) }
{
    let mut all = rest;
    let mut services = Vec::new(alloc);
    for node in nodes {
        let (share, service) = left_of(node, since, services.len())?;
        all.merge(share);
        services.push(service)?;
    }
    Ok((all, services))
}

// The receipts, the notes of orders, and all shares of theirs as one.
fn gather_receipts<Q: Ledger>(
    alloc: Global,
    rest: Share<Q>,
    passes: Vec<Pass<Q>>,
) -> Result<(Share<Q>, Vec<Receipt>, Vec<OrderNote>), NoMemory>
    requires parts { rest.parts ≡ 0 }
    requires none { rest.amount ≡ 0 }
    ensures parts { IfOk result (λ r. r.0.parts ≡ vec_len passes) }
    ensures amount { IfOk result (λ r. r.0.amount ≡ vec_len r.1 + vec_len r.2) }
    ensures receipts { IfOk result (λ r. r.1.items ≡ flat_map (λ p. p.receipts.items) passes.items) }
    ensures orders { IfOk result (λ r. r.2.items ≡ flat_map (λ p. p.notes.orders) passes.items) }
{
    let mut all = rest;
    let mut found = Vec::new(alloc);
    let mut orders = Vec::new(alloc);
    for pass in passes {
        let Pass {
            share,
            mut receipts,
            notes,
        } = pass;
        let mut noted = notes.into_orders();
        all.merge(share);
        found.append(&mut receipts)?;
        orders.append(&mut noted)?;
    }
    Ok((all, found, orders))
}

// How a row made the entry of this number, if it did.
fn asked_in(row: &Row, id: u64) -> Option<&AskedRow>
    ensures { option_copied result ≡ asked_step id None row.now }
{
    match row {
        Row::Asked(asked) if asked.id == id => Some(asked),
        _ => None,
    }
}

// How the entry of this number was made, looked for among the rows of its key from the last of them back: the first counts.
fn asked(rows: &Rows, id: u64) -> Option<&AskedRow>
    ensures { option_copied result ≡ asked id rows.now.rows }
{
    let list = rows.as_slice();
    let mut first = None;
    let mut end = rows.end_of(id);
    while end > 0 {
        first = asked_in(&list[end - 1], id).or(first);
        end = rows.end_before(end - 1);
    }
    first
}

fn same_inputs(left: &Inputs, right: &Inputs) -> bool
    ensures { IsTrue result ↔ (left.now ≡ right.now) }
{
    *left == *right
}

fn was_asked_so(rows: &Rows, id: u64, request: &Request, inputs: &Inputs) -> bool
    ensures { IsTrue result ↔ WasAskedSo request.now inputs.now (asked id rows.now.rows) }
{
    match asked(rows, id) {
        None => false,
        Some(row) => row.request.get().is(request) && same_inputs(row.inputs.get(), inputs),
    }
}

fn answered_id(row: &Row) -> u64
    ensures { result ≡ answered_id row.now }
{
    match row {
        Row::Answered(row) => row.id,
        _ => 0,
    }
}

fn stands_there(rows: &Rows, receipt: &Receipt) -> bool
    ensures { IsTrue result ↔ (slice_get rows.now.rows receipt.now.index ≡ Some receipt.now.row) }
{
    match rows.at(receipt.index) {
        None => false,
        Some(row) => row.is(&receipt.row),
    }
}

fn agrees_with(service: &Service, receipt: &Receipt) -> bool
    ensures { IsTrue result ↔ AgreesWith service.now.journal receipt.now }
{
    let rows = service.journal();
    stands_there(rows, receipt)
        && was_asked_so(
            rows,
            answered_id(&receipt.row),
            &receipt.request,
            &receipt.inputs,
        )
}

fn is_named(service: &Service, name: &Name) -> bool
    ensures { result ≡ same_text (me service.now) name.now }
{
    service.setting().me.text().is(name.text())
}

/// The service of this name.
pub(crate) fn service_of<'a>(services: &'a [Service], name: &Name) -> Option<&'a Service>
    ensures { option_map (λ s. s.now) result ≡ service_of name.now services.now }
{
    services.iter().find(|service| is_named(service, name))
}

fn place_of(services: &[Service], name: &Name) -> Option<usize>
    ensures place { result ≡ position (λ s. same_text (me s) name.now) services.now }
    ensures within { IfSome result (λ place. place < length services.now) }
{
    services.iter().position(|service| is_named(service, name))
}

/// From which index on the journal of the service of this name counts.
pub(crate) fn since_of(services: &[Service], since: &[u64], name: &Name) -> u64
    requires { length services.now ≤ length since.now }
    ensures { result ≡ since_of name.now since.now services.now }
{
    match place_of(services, name) {
        None => 0,
        Some(place) => since[place],
    }
}

fn agrees(services: &[Service], receipt: &Receipt) -> bool
    ensures { IsTrue result ↔ Agrees services.now receipt.now }
{
    match service_of(services, &receipt.service) {
        None => false,
        Some(service) => agrees_with(service, receipt),
    }
}

fn agrees_since(services: &[Service], since: &[u64], receipt: &Receipt) -> bool
    requires { length services.now ≤ length since.now }
    ensures { IsTrue result ↔ AgreesSince since.now services.now receipt.now }
{
    agrees(services, receipt) && since_of(services, since, &receipt.service) <= receipt.index
}

// Where the first receipt stands that doesn't agree, or is of an answer of before.
fn first_differing(services: &[Service], since: &[u64], receipts: &[Receipt]) -> Option<usize>
    requires { length services.now ≤ length since.now }
    ensures none { IfNone result ((at : ℕ) (r : _) → slice_get receipts.now at ≡ Some r → AgreesSince since.now services.now r) }
    ensures some { IfSome result (λ at. (at < length receipts.now)
        × ((r : _) → slice_get receipts.now at ≡ Some r → ¬ AgreesSince since.now services.now r)) }
    ensures first { IfSome result (λ at. (k : ℕ) (r : _) → k < at → slice_get receipts.now k ≡ Some r → AgreesSince since.now services.now r) }
{
    for (at, receipt) in receipts.iter().enumerate() {
        if !agrees_since(services, since, receipt) {
            return Some(at);
        }
    }
    None
}

// Compares each receipt with the journals, and all with one another, where the notes of orders are compared, and there are as many
// of both as there are answers and orders.
fn compared(
    alloc: Global,
    since: &[u64],
    services: Vec<Service>,
    mut found: Vec<Receipt>,
    orders: Vec<OrderNote>,
) -> Result<Closed, CloseRefused>
    requires many { length found.items + length orders.items ≡ all_told_since services.items since.now }
    requires reach { vec_len services ≤ length since.now }
    requires stand { AllStandSince since.now services.items orders.items }
    requires apart { OrdersApart orders.items }
    ensures whole { IfOk result (λ closed. IsWholeSince since.now closed.services.items closed.receipts.items) }
    ensures len { IfOk result (λ closed. vec_len closed.services ≡ vec_len services) }
    ensures receipts { IfOk result (λ closed. closed.receipts.items ≡ found.items) }
    ensures noted { IfOk result (λ closed. AreNoted since.now closed.services.items closed.orders.items) }
    ensures orders { IfOk result (λ closed. closed.orders.items ≡ orders.items) }
    ensures differs { (r : _) (kept : _) → IsErrOf result (refusals.Differs r kept)
        → (¬ AgreesSince since.now kept.items r) × IsAmong r found.items }
    ensures first { (r : _) (kept : _) → IsErrOf result (refusals.Differs r kept) → IsFirstToDiffer since.now kept.items r found.items }
    ensures counted { (r : _) (kept : _) → IsErrOf result (refusals.Differs r kept) → length found.items + length orders.items ≡ all_told_since kept.items since.now }
    ensures twice { (r : _) (t : _) (kept : _) → IsErrOf result (refusals.Twice r t kept)
        → SamePlace r t × (AreAmong r t found.items × AllAgreeSince since.now kept.items found.items) }
    ensures both_counted { (r : _) (t : _) (kept : _) → IsErrOf result (refusals.Twice r t kept) → length found.items + length orders.items ≡ all_told_since kept.items since.now }
{
    if let Some(at) = first_differing(&services, since, &found) {
        let receipt = found.swap_remove(at);
        return Err(CloseRefused::Differs { receipt, services });
    }
    let twice = first_twice(alloc, &found)?;
    if let Some((at, other)) = twice {
        let second = found.swap_remove(other);
        let first = found.swap_remove(at);
        return Err(CloseRefused::Twice {
            first,
            second,
            services,
        });
    }
    Ok(Closed {
        services,
        receipts: found,
        orders,
    })
}

/// Takes the nodes and the passes of a run apart, once all its workers have ended, and compares each receipt with the journal of
/// the service that it names. Where all agree, none is of an answer of before the nodes were opened, and no two are of one
/// answer, each live request that a journal answers since then has exactly one receipt: none was lost and none counted
/// twice, since the ledgers counted as many receipts as answers. So has each order that a journal got since then exactly one
/// note. The services are those of the nodes, in order.
pub fn close<R: Ledger, Q: Ledger>(
    alloc: Global,
    nodes: Nodes<R, Q>,
    passes: Vec<Pass<Q>>,
) -> Result<Closed, CloseRefused>
    requires nodes { vec_len nodes.nodes ≡ R.parts }
    requires passes { vec_len passes ≡ Q.parts }
    ensures whole { IfOk result (λ closed. IsWholeSince nodes.since.items closed.services.items closed.receipts.items) }
    ensures len { IfOk result (λ closed. vec_len closed.services ≡ vec_len nodes.nodes) }
    ensures receipts { IfOk result (λ closed. closed.receipts.items ≡ flat_map (λ p. p.receipts.items) passes.items) }
    ensures noted { IfOk result (λ closed. AreNoted nodes.since.items closed.services.items closed.orders.items) }
    ensures orders { IfOk result (λ closed. closed.orders.items ≡ flat_map (λ p. p.notes.orders) passes.items) }
    ensures differs { (r : _) (services : _) → IsErrOf result (refusals.Differs r services) → ¬ AgreesSince nodes.since.items services.items r }
    ensures twice { (r : _) (t : _) (services : _) → IsErrOf result (refusals.Twice r t services)
        → SamePlace r t × (AgreesSince nodes.since.items services.items r × AgreesSince nodes.since.items services.items t) }
    ensures among { (r : _) (services : _) → IsErrOf result (refusals.Differs r services)
        → IsAmong r (flat_map (λ p. p.receipts.items) passes.items) }
    ensures first { (r : _) (services : _) → IsErrOf result (refusals.Differs r services)
        → IsFirstToDiffer nodes.since.items services.items r (flat_map (λ p. p.receipts.items) passes.items) }
    ensures counted { (r : _) (services : _) → IsErrOf result (refusals.Differs r services)
        → length (flat_map (λ p. p.receipts.items) passes.items) + length (flat_map (λ p. p.notes.orders) passes.items)
        ≡ all_told_since services.items nodes.since.items }
    ensures both_counted { (r : _) (t : _) (services : _) → IsErrOf result (refusals.Twice r t services)
        → length (flat_map (λ p. p.receipts.items) passes.items) + length (flat_map (λ p. p.notes.orders) passes.items)
        ≡ all_told_since services.items nodes.since.items }
    ensures two { (r : _) (t : _) (services : _) → IsErrOf result (refusals.Twice r t services)
        → AreAmong r t (flat_map (λ p. p.receipts.items) passes.items)
        × AllAgreeSince nodes.since.items services.items (flat_map (λ p. p.receipts.items) passes.items) }
{
    let Nodes {
        nodes,
        tally,
        since,
    } = nodes;
    let Tally { books } = tally;
    let Books {
        mut rows,
        mut receipts,
        no_rows,
        no_receipts,
    } = books.into_inner();
    let (mut all_rows, services) = gather_rows(alloc, no_rows, nodes, &since)?;
    let (mut all_receipts, found, orders) = gather_receipts(alloc, no_receipts, passes)?;
    rows.audit(&mut all_rows);
    receipts.audit(&mut all_receipts);
    if !are_noted(alloc, &services, &since, &orders) {
        return Err(CloseRefused::NoMemory);
    }
    compared(alloc, &since, services, found, orders)
}
