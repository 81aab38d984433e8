// What is kept of operators' orders that a service wrote into its journal.
ghost use Rattle.std.specs.Prelude.{◌≡◌, ◌+◌, ◌++◌, ◌∷◌, [], ◌<◌, slice_get, vec_capacity, vec_len};
ghost use Rattle.std.specs.Option.{option_copied};
ghost use Rattle.service_events.specs.State.{me};
ghost use Rattle.node_core.specs.Memos.{count_of};
ghost use Rattle.node_core.specs.Orders.{note_at, note_if_ordered, order_in, with_note};

use crate::pass::Pass;
use crate::tally::Tally;
use crate::twice::OfRow;
use crate::waiting::copied_at_last;
use journal_rows::{OrderedRow, Row, Rows};
use lang_core::{Name, NoMemory};
use service_core::Service;
use service_events::Done;
use std::alloc::Global;
use std::marker::Model;
use std::sync::Wait;
use std::sync::ledger::{Ledger, Share};
use std::thread;

/// An order of an operator that a service carried out.
pub struct OrderNote {
    /// The service.
    pub service: Name,
    /// The index of the order's row in the service's journal.
    pub index: u64,
    /// The row, as the journal has it, with the order's token and who gave it.
    pub row: OrderedRow,
}

impl Drop for OrderNote {
    fn drop(self) {
        let Self {
            service: _,
            index: _,
            row: _,
        } = self;
    }
}

impl OfRow for OrderNote {
    ghost service = { λ note. note.service };

    ghost index = { λ note. note.index };

    fn service(&self) -> &Name {
        &self.service
    }

    fn index(&self) -> u64 {
        self.index
    }
}

/// A worker's notes of orders, in the order of time, which contracts see as a list.
#[derive(Drop)]
pub struct OrderNotes {
    items: Vec<OrderNote>,
}

impl Model for OrderNotes {
    ghost use Rattle.std.specs.Prelude.{List};
    ghost use Rattle.std.specs.Coded.{coded_list};
    ghost use Rattle.node_core.specs.contracts.orders.OrderNote as note;
    ghost use Rattle.node_core.specs.declared.orders.OrderNote.{OrderNote};

    ghost Value = { List OrderNote };

    ghost coded = { coded_list note.the_row.coded };

    ghost view = { λ notes. notes.items.items };
}

impl OrderNotes {
    /// None yet.
    pub(crate) fn none(alloc: Global) -> OrderNotes
        ensures { result ≡ [] }
    {
        OrderNotes {
            items: Vec::new(alloc),
        }
    }

    /// Asks for the room of one more.
    pub(crate) fn reserve(&mut self) -> Result<(), NoMemory>
        ensures { self.new ≡ self.old }
    {
        self.items.reserve(1)?;
        Ok(())
    }

    /// One more. It waits where somebody else took the memory that was asked for.
    pub(crate) fn push(&mut self, rt: &impl Wait, note: OrderNote)
        ensures { self.new ≡ self.old ++ note ∷ [] }
    {
        reserve_at_last(rt, &mut self.items);
        self.items.push_reserved(note);
    }

    /// The notes, as they are.
    pub(crate) fn into_items(self) -> Vec<OrderNote>
        ensures { result.items ≡ self }
    {
        self.items
    }
}

// Makes room for one more. Where memory is wanting it tries again until there is some.
fn reserve_at_last(rt: &impl Wait, items: &mut Vec<OrderNote>)
    ensures room { vec_len items.new < vec_capacity items.new }
    ensures same { items.new.items ≡ items.old.items }
{
    for _ in rt.forever() {
        if items.reserve(1).is_ok() {
            return;
        }
        thread::yield_now();
    }
    unreachable!()
}

fn order_at(rows: &Rows, index: u64) -> Option<&OrderedRow>
    ensures { option_copied result ≡ order_in (slice_get rows.now.rows index) }
{
    match rows.at(index) {
        Some(Row::Ordered(row)) => Some(row.get()),
        _ => None,
    }
}

// What is noted of the order that stands at an index of the service's journal, if one does.
fn note_at(rt: &impl Wait, alloc: Global, service: &Service, index: u64) -> Option<OrderNote>
    ensures { result ≡ note_at (me service.now) index service.now.journal }
{
    match order_at(service.journal(), index) {
        None => None,
        Some(row) => Some(OrderNote {
            service: copied_at_last(rt, alloc, &service.setting().me),
            index,
            row: copied_at_last(rt, alloc, row),
        }),
    }
}

/// What is noted of an event that was answered so: of an order that was accepted, where its row stands at this index. It is
/// carried out, and its note has to be made: so where memory is wanting this tries again until there is some.
pub(crate) fn note_if_ordered(
    rt: &impl Wait,
    alloc: Global,
    service: &Service,
    index: u64,
    done: &Done,
) -> Option<OrderNote>
    ensures { result ≡ note_if_ordered (me service.now) index service.now.journal done.now }
{
    match done {
        Done::Order(Ok(_)) => note_at(rt, alloc, service, index),
        _ => None,
    }
}

/// Counts an order, if one was written, in both books and in both shares, and gives the pass its note. It waits for the tally's
/// lock.
pub(crate) fn count_order<R: Ledger, Q: Ledger, W: Wait>(
    rt: &W,
    tally: &Tally<R, Q>,
    share: &mut Share<R>,
    pass: &mut Pass<Q>,
    written: Option<OrderNote>,
)
    requires part { 0 < share.old.parts }
    ensures parts { share.new.parts ≡ share.old.parts }
    ensures amount { share.new.amount ≡ share.old.amount + count_of written }
    ensures mine { pass.new.share.amount ≡ pass.old.share.amount + count_of written }
    ensures notes { pass.new.notes ≡ record pass.old.notes { orders = with_note written pass.old.notes.orders } }
    ensures receipts { pass.new.receipts.items ≡ pass.old.receipts.items }
{
    let Some(note) = written else {
        return;
    };
    let Pass {
        share: mine,
        receipts: _,
        notes,
    } = pass;
    tally.count(rt, share, mine);
    notes.orders.push(rt, note);
}
