// Comparing the notes of orders with journals.
ghost use Rattle.std.specs.Prelude.{◌≡◌, ◌≤◌, ◌↔◌, Some, length, slice_get, IsTrue};
ghost use Rattle.journal_rows.specs.declared.row.Row.TheVariants.{Ordered as OrderedAs};
ghost use Rattle.node_core.specs.Closings.{AllStandSince, OrdersApart, StandsSince};

use crate::closing::{service_of, since_of};
use crate::orders::OrderNote;
use crate::twice::first_twice;
use journal_rows::Row;
use lang_core::Same;
use service_core::Service;
use std::alloc::Global;

fn stands_in(service: &Service, note: &OrderNote) -> bool
    ensures { IsTrue result ↔ (slice_get service.now.journal note.now.index ≡ Some (OrderedAs note.now.row)) }
{
    match service.journal().at(note.index) {
        Some(Row::Ordered(row)) => row.get().is(&note.row),
        _ => false,
    }
}

fn stands_since(services: &[Service], since: &[u64], note: &OrderNote) -> bool
    requires { length services.now ≤ length since.now }
    ensures { IsTrue result ↔ StandsSince since.now services.now note.now }
{
    match service_of(services, &note.service) {
        None => false,
        Some(service) => {
            stands_in(service, note) && since_of(services, since, &note.service) <= note.index
        }
    }
}

fn all_stand(services: &[Service], since: &[u64], orders: &[OrderNote]) -> bool
    requires { length services.now ≤ length since.now }
    ensures { IsTrue result → AllStandSince since.now services.now orders.now }
{
    for note in orders {
        if !stands_since(services, since, note) {
            return false;
        }
    }
    true
}

/// Whether each of these notes is of an order that a journal got since it was opened, and no two are of one order; false also for
/// want of memory.
pub(crate) fn are_noted(
    alloc: Global,
    services: &[Service],
    since: &[u64],
    orders: &[OrderNote],
) -> bool
    requires { length services.now ≤ length since.now }
    ensures { IsTrue result → AllStandSince since.now services.now orders.now × OrdersApart orders.now }
{
    if !all_stand(services, since, orders) {
        return false;
    }
    match first_twice(alloc, orders) {
        Ok(None) => true,
        _ => false,
    }
}
