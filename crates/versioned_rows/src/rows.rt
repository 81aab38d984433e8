// Rows of labels, for all keys that the writes of a place name.
ghost use Rattle.std.specs.Prelude.{ℕ, List, Option, ◌≡◌, ◌+◌, ◌<◌, ◌≤◌, true, drop, filter, length, map, slice_index_or, take, OnOk, if◌then◌else◌};
ghost use Rattle.std.specs.List.{Contains};
ghost use Rattle.std.specs.Option.{ForSome};
ghost use Rattle.lang_core.specs.Places.{IsOrdered};
ghost use Rattle.lang_core.specs.Rows.{write_place, written};
ghost use Rattle.lang_core.specs.declared.writes.Write.{Write};
ghost use Rattle.place_order.specs.Rising.{IsRising};
ghost use Rattle.key_labels.specs.Labels.{behind, is_other, with_label};
ghost use Rattle.key_labels.specs.Rows.{row_place, labels_in, spare_in, base_in, has_row, KeepsKeys, KeepsRows};
ghost use Rattle.versioned_rows.specs.Places.{is_among, is_written};

use key_labels::{KeyRows, drop_label, drop_label_in, make_row, put_label, settle_row};
use lang_core::{NoMemory, Placed, Text, Write};
use place_order::Order;
use std::alloc::Global;
use std::collections::VecDeque;

/// Sees to it that the key of each of these has a row with places for so many labels more. No label changes.
pub(crate) fn make_rows<T: Placed>(
    alloc: Global,
    rows: &mut KeyRows,
    near: &mut usize,
    items: &[T],
    spare: usize,
) -> Result<(), NoMemory>
    requires { IsOrdered row_place rows.old.items }
    ensures ordered { IsOrdered row_place rows.new.items }
    ensures each { (t k : List ℕ) → labels_in rows.new.items t k ≡ labels_in rows.old.items t k }
    ensures kept { (t k : List ℕ) → spare_in rows.old.items t k ≤ spare_in rows.new.items t k }
    ensures rows { KeepsRows rows.old.items rows.new.items }
    ensures spare { OnOk result ((t k : List ℕ) → is_among T.place t k items.now ≡ true → spare ≤ spare_in rows.new.items t k) }
{
    for item in items {
        make_row(alloc, rows, near, item.table(), item.key(), spare)?;
    }
    Ok(())
}

/// Puts a label into the row of each key that these write, which has a place for it.
pub(crate) fn put_labels(
    order: &Order,
    rows: &mut KeyRows,
    near: usize,
    writes: &[Write],
    label: u64,
)
    requires ordered { IsOrdered row_place rows.old.items }
    requires writes { IsOrdered write_place writes.now }
    requires spare { (t k : List ℕ) → is_written t k writes.now ≡ true → 0 < spare_in rows.old.items t k }
    requires rising { (t k : List ℕ) → IsRising order.now.labels (labels_in rows.old.items t k) }
    requires label { Contains order.now.labels label }
    ensures ordered { IsOrdered row_place rows.new.items }
    ensures each { (t k : List ℕ) → labels_in rows.new.items t k
        ≡ (if is_written t k writes.now then with_label order.now.labels label (labels_in rows.old.items t k) else labels_in rows.old.items t k) }
    ensures spare { (t k : List ℕ) → spare_in rows.old.items t k
        ≤ spare_in rows.new.items t k + (if is_written t k writes.now then 1 else 0) }
    ensures rows { KeepsRows rows.old.items rows.new.items }
{
    for write in writes {
        put_label(order, rows, near, &write.table, &write.key, label);
    }
}

/// Takes a label out of the row of each key that these write.
pub(crate) fn drop_labels(rows: &mut KeyRows, writes: &[Write], label: u64)
    requires ordered { IsOrdered row_place rows.old.items }
    requires writes { IsOrdered write_place writes.now }
    ensures ordered { IsOrdered row_place rows.new.items }
    ensures each { (t k : List ℕ) → labels_in rows.new.items t k
        ≡ (if is_written t k writes.now then filter (is_other label) (labels_in rows.old.items t k) else labels_in rows.old.items t k) }
    ensures spare { (t k : List ℕ) → spare_in rows.old.items t k ≤ spare_in rows.new.items t k }
    ensures rows { KeepsRows rows.old.items rows.new.items }
{
    for write in writes {
        drop_label(rows, &write.table, &write.key, label);
    }
}

/// Takes a label out of the row of each key that these write, whose labels rise in an order, in which it is found by halves.
pub(crate) fn drop_labels_in(order: &Order, rows: &mut KeyRows, writes: &[Write], label: u64)
    requires ordered { IsOrdered row_place rows.old.items }
    requires writes { IsOrdered write_place writes.now }
    requires rising { (t k : List ℕ) → IsRising order.now.labels (labels_in rows.old.items t k) }
    requires label { Contains order.now.labels label }
    ensures ordered { IsOrdered row_place rows.new.items }
    ensures each { (t k : List ℕ) → labels_in rows.new.items t k
        ≡ (if is_written t k writes.now then filter (is_other label) (labels_in rows.old.items t k) else labels_in rows.old.items t k) }
    ensures spare { (t k : List ℕ) → spare_in rows.old.items t k ≤ spare_in rows.new.items t k }
    ensures rows { KeepsRows rows.old.items rows.new.items }
{
    for write in writes {
        drop_label_in(order, rows, &write.table, &write.key, label);
    }
}

/// Sets the text before all labels at each key that these write, and takes the labels before one out of its row, or all where
/// there is none: the texts stand first among these, which were made before.
pub(crate) fn settle_writes(
    order: &Order,
    rows: &mut KeyRows,
    writes: &[Write],
    end: Option<u64>,
    texts: &mut VecDeque<Option<Text>>,
)
    requires ordered { IsOrdered row_place rows.old.items }
    requires writes { IsOrdered write_place writes.now }
    requires there { (t k : List ℕ) → is_written t k writes.now ≡ true → has_row rows.old.items t k ≡ true }
    requires rising { (t k : List ℕ) → IsRising order.now.labels (labels_in rows.old.items t k) }
    requires end { ForSome end (Contains order.now.labels) }
    requires texts { take (length writes.now) texts.old.items ≡ map (λ (w : Write). w.text) writes.now }
    ensures ordered { IsOrdered row_place rows.new.items }
    ensures each { (t k : List ℕ) → labels_in rows.new.items t k
        ≡ (if is_written t k writes.now then behind order.now.labels end (labels_in rows.old.items t k) else labels_in rows.old.items t k) }
    ensures bases { (t k : List ℕ) → base_in rows.new.items t k ≡ written writes.now t k (base_in rows.old.items t k) }
    ensures spare { (t k : List ℕ) → spare_in rows.old.items t k ≤ spare_in rows.new.items t k }
    ensures keys { KeepsKeys rows.old.items rows.new.items }
    ensures texts { texts.new.items ≡ drop (length writes.now) texts.old.items }
{
    for write in writes {
        let text = next_text(texts);
        settle_row(order, rows, &write.table, &write.key, end, text);
    }
}

// The first of these texts, which leaves them; None where there is none.
fn next_text(texts: &mut VecDeque<Option<Text>>) -> Option<Text>
    ensures text { (text : Option (List ℕ)) → 0 < length texts.old.items → slice_index_or texts.old.items 0 text ≡ text → result ≡ text }
    ensures rest { texts.new.items ≡ drop 1 texts.old.items }
{
    match texts.pop_front() {
        None => None,
        Some(text) => text,
    }
}
