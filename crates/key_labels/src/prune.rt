// What stands at the labels before one is taken out, all in one walk.
ghost use Rattle.std.specs.Prelude.{ℕ, List, ◌≡◌, ◌≤◌, filter, map, not, vec_len, vec_capacity};
ghost use Rattle.std.specs.List.{All, Contains};
ghost use Rattle.std.specs.Option.{ForSome};
ghost use Rattle.lang_core.specs.Places.{IsOrdered};
ghost use Rattle.place_order.specs.Rising.{is_before};
ghost use Rattle.key_labels.specs.Labels.{behind};
ghost use Rattle.key_labels.specs.Rows.{row_place, labels_in, spare_of, spare_in, IsEdited, KeepsRows};

use crate::key_rows::{KeyRows, slot_in};
use crate::labels::{Labelled, is_before};
use crate::rows::KeyLabels;
use lang_core::Text;
use place_order::Order;

/// Takes out what stands at a label before another, or everything where there is none. The items stand as they like: each is
/// looked at once, however many go.
pub fn drop_before<T: Labelled + Drop>(order: &Order, items: &mut Vec<T>, end: Option<u64>)
    requires known { All (Contains order.now.labels) (map T.label items.old.items) }
    requires end { ForSome end (Contains order.now.labels) }
    ensures items { items.new.items ≡ filter (λ x. not (is_before order.now.labels end (T.label x))) items.old.items }
    ensures len { vec_len items.new ≤ vec_len items.old }
    ensures capacity { vec_capacity items.new ≡ vec_capacity items.old }
{
    let mut kept = 0;
    for at in 0..items.len() {
        if !is_before(order, items[at].label(), end) {
            items.swap(kept, at);
            kept += 1;
        }
    }
    items.truncate(kept);
}

// Takes the labels before one out of a row, or all where there is none.
fn prune(row: &mut KeyLabels, order: &Order, end: Option<u64>)
    requires known { All (Contains order.now.labels) row.old.labels.items }
    requires end { ForSome end (Contains order.now.labels) }
    ensures place { row_place row.new ≡ row_place row.old }
    ensures base { row.new.base ≡ row.old.base }
    ensures labels { row.new.labels.items ≡ behind order.now.labels end row.old.labels.items }
    ensures spare { spare_of row.old ≤ spare_of row.new }
{
    drop_before(order, &mut row.labels, end);
}

/// Takes the labels before one out of the row of a key, or all where there is none, in one walk over the row. Its labels stand as
/// they like.
pub fn prune_row(order: &Order, rows: &mut KeyRows, table: &Text, key: &Text, end: Option<u64>)
    requires ordered { IsOrdered row_place rows.old.items }
    requires known { All (Contains order.now.labels) (labels_in rows.old.items table.now key.now) }
    requires end { ForSome end (Contains order.now.labels) }
    ensures ordered { IsOrdered row_place rows.new.items }
    ensures edited { IsEdited table.now key.now (behind order.now.labels end (labels_in rows.old.items table.now key.now)) rows.old.items rows.new.items }
    ensures spare { (t k : List ℕ) → spare_in rows.old.items t k ≤ spare_in rows.new.items t k }
    ensures rows { KeepsRows rows.old.items rows.new.items }
{
    match slot_in(
        &rows.slots,
        &rows.order,
        &rows.hints,
        rows.newest,
        usize::MAX,
        table,
        key,
    ) {
        Ok(slot) => prune(&mut rows.slots[slot], order, end),
        Err(_) => {}
    }
}
