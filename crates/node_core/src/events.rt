// An event at a node's service.
ghost use Rattle.std.specs.Prelude.{◌≡◌, ◌+◌, ◌<◌, OnErr, OnOk, IfOk, IfSome, vec_capacity, vec_len};
ghost use Rattle.service_events.specs.State.{me};
ghost use Rattle.node_core.specs.Closings.{row_count};
ghost use Rattle.node_core.specs.Doings.{commits, AsksMemory, HasReceipts, IsDone, MayAsk, MayCommit};
ghost use Rattle.node_core.specs.Memos.{count_of, memo_of, IsGivenReceipt, IsIn};
ghost use Rattle.node_core.specs.Notes.{noted_at};
ghost use Rattle.node_core.specs.Orders.{order_written, NotesOrder};

use crate::flying::finds_flight;
use crate::memos::{Memo, memo_of};
use crate::notes::Turn;
use crate::noting::{note, note_end};
use crate::orders::{OrderNotes, count_order, note_if_ordered};
use crate::pass::Pass;
use crate::receipt::Receipt;
use crate::receipts::{Committed, receipt_of};
use crate::state::NodeState;
use crate::tally::Tally;
use lang_core::{NoMemory, Text};
use service_core::Service;
use service_events::{Done, Event};
use std::alloc::Global;
use std::sync::Wait;
use std::sync::ledger::{Ledger, Share};

/// What a reply takes at the limits: its body, its sealed bytes, and its own bytes, which may have as much room again; the row of
/// an order has three bodies at most. No promise rests on it: this room is let go before the receipt or the note is made, and with
/// less of it a worker only waits more often under the lock.
const LARGEST_RECEIPT: usize = 1 << 19;

fn has_memory(alloc: Global) -> Result<(), NoMemory> {
    let room: Vec<u8> = Vec::with_capacity(alloc, LARGEST_RECEIPT)?;
    drop(room);
    Ok(())
}

fn make_room(alloc: Global, receipts: &mut Vec<Receipt>) -> Result<(), NoMemory>
    ensures room { OnOk result (vec_len receipts.new < vec_capacity receipts.new) }
    ensures receipts { receipts.new.items ≡ receipts.old.items }
{
    receipts.reserve(1)?;
    has_memory(alloc)
}

fn make_order_room(alloc: Global, orders: &mut OrderNotes) -> Result<(), NoMemory>
    ensures { orders.new ≡ orders.old }
{
    orders.reserve()?;
    has_memory(alloc)
}

// Asks for the memory of a receipt where there may be a commit, and for that of a note where there may be an order, so that who
// has none is refused before anything happens. They are made afterwards, and wait where somebody else took that memory
// meanwhile.
fn make_ready(
    alloc: Global,
    receipts: &mut Vec<Receipt>,
    orders: &mut OrderNotes,
    event: &Event,
) -> Result<(), NoMemory>
    ensures room { OnOk result (MayCommit event.now → vec_len receipts.new < vec_capacity receipts.new) }
    ensures memory { OnErr result (AsksMemory event.now) }
    ensures receipts { receipts.new.items ≡ receipts.old.items }
    ensures orders { orders.new ≡ orders.old }
{
    match event {
        Event::Arrive { .. } | Event::CallAnswered { .. } | Event::CallFailed { .. } => {
            make_room(alloc, receipts)
        }
        Event::Order { .. } => make_order_room(alloc, orders),
        _ => Ok(()),
    }
}

// Asks for all the memory that an event may be refused for, and answers what is kept of it.
fn prepared<Q: Ledger>(alloc: Global, pass: &mut Pass<Q>, event: &Event) -> Result<Memo, NoMemory>
    ensures memo { IfOk result (λ memo. memo ≡ memo_of event.now) }
    ensures room { OnOk result (MayCommit event.now → vec_len pass.new.receipts < vec_capacity pass.new.receipts) }
    ensures memory { OnErr result (AsksMemory event.now) }
    ensures same { (pass.new.receipts.items ≡ pass.old.receipts.items) × (pass.new.share ≡ pass.old.share) × (pass.new.notes ≡ pass.old.notes) }
{
    let Pass {
        share: _,
        receipts,
        notes,
    } = pass;
    make_ready(alloc, receipts, &mut notes.orders, event)?;
    memo_of(alloc, event)
}

// Counts a commit, if there was one, and gives the pass its receipt.
fn count<R: Ledger, Q: Ledger, W: Wait>(
    rt: &W,
    alloc: Global,
    tally: &Tally<R, Q>,
    service: &Service,
    secret: &Text,
    share: &mut Share<R>,
    pass: &mut Pass<Q>,
    committed: Option<Committed>,
)
    requires part { 0 < share.old.parts }
    requires room { IfSome committed (λ _. vec_len pass.old.receipts < vec_capacity pass.old.receipts) }
    requires answered { IfSome committed (IsIn service.now.journal) }
    ensures parts { share.new.parts ≡ share.old.parts }
    ensures amount { share.new.amount ≡ share.old.amount + count_of committed }
    ensures mine { pass.new.share.amount ≡ pass.old.share.amount + count_of committed }
    ensures receipts { IsGivenReceipt service.now secret.now committed pass.old.receipts.items pass.new.receipts.items }
    ensures notes { pass.new.notes ≡ pass.old.notes }
{
    let Some(committed) = committed else {
        return;
    };
    let receipt = receipt_of(rt, alloc, service, secret, committed);
    let Pass {
        share: mine,
        receipts,
        notes: _,
    } = pass;
    tally.count(rt, share, mine);
    receipts.push_reserved(receipt);
}

// How many rows its journal has.
fn row_count(service: &Service) -> u64
    ensures { result ≡ row_count service.now }
{
    service.journal().len()
}

/// Makes one event at the service behind a node's lock, which the worker holds. A flight that the worker began is looked for
/// first, and where the service doesn't have it any more, no event is made. Where a live request is committed, that is counted in
/// both books and in both shares, and the pass gets its receipt; where an order is written, that is counted likewise, and the
/// pass gets its note. For that it waits for the tally's lock. Memory is asked for first: for a receipt or a note, and for what
/// is noted of a message, of an order and of who is posted to. Refused, nothing has happened. Where it is wanting behind a commit
/// or a change, for what is noted of it, this waits for it.
pub fn event<R: Ledger, Q: Ledger, W: Wait>(
    rt: &W,
    alloc: Global,
    tally: &Tally<R, Q>,
    kept: &mut NodeState<R>,
    pass: &mut Pass<Q>,
    event: Event,
) -> Result<Done, NoMemory>
    requires may { MayAsk kept.old.service pass.old.notes.begun event }
    ensures done { IfOk result (λ done. IsDone kept.old.service pass.old.notes.begun event done kept.new.service) }
    ensures rows { IfOk result (λ done. kept.new.share.amount
        ≡ kept.old.share.amount + (commits done + count_of (order_written kept.old.service kept.new.service event))) }
    ensures mine { IfOk result (λ done. pass.new.share.amount
        ≡ pass.old.share.amount + (commits done + count_of (order_written kept.old.service kept.new.service event))) }
    ensures receipts { IfOk result (λ done. HasReceipts kept.new.service kept.old.secret pass.old.notes.begun event done pass.old.receipts.items pass.new.receipts.items) }
    ensures orders { IfOk result (λ done. NotesOrder kept.old.service event done kept.new.service pass.old.notes.orders pass.new.notes.orders) }
    ensures notes { IfOk result (λ done. pass.new.notes ≡ noted_at kept.old.service kept.new.service pass.old.notes event done) }
    ensures others { (kept.new.secret ≡ kept.old.secret) × (kept.new.stopped ≡ kept.old.stopped) }
    ensures service_err { OnErr result ((kept.new.service ≡ kept.old.service) × (kept.new.share ≡ kept.old.share)) }
    ensures pass_err { OnErr result ((pass.new.receipts.items ≡ pass.old.receipts.items) × (pass.new.share ≡ pass.old.share) × (pass.new.notes ≡ pass.old.notes)) }
    ensures memory { OnErr result (AsksMemory event) }
{
    if !finds_flight(&kept.service, &pass.notes.begun, &event) {
        pass.notes.begun = None;
        pass.notes.turn = Some(Turn::Gone);
        return Ok(Done::Gone);
    }
    let memo = prepared(alloc, pass, &event)?;
    let NodeState {
        service,
        share,
        secret,
        stopped: _,
        since: _,
        folds: _,
    } = kept;
    let index = row_count(service);
    let done = service.event(alloc, event);
    let me = &service.setting().me;
    let committed = note(rt, alloc, me, &mut pass.notes, memo, &done);
    let written = note_if_ordered(rt, alloc, service, index, &done);
    count(rt, alloc, tally, service, secret, share, pass, committed);
    count_order(rt, tally, share, pass, written);
    note_end(&mut pass.notes, &done);
    Ok(done)
}
