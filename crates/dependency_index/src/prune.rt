// The labels before one leave the rows that they stand in. Each such row is walked once: the first of these labels that is found
// in it takes all of them out, and of those behind it none is found there any more.
ghost use Rattle.std.specs.Prelude.{ℕ, List, ◌≡◌, ◌≤◌, true, map, if◌then◌else◌};
ghost use Rattle.std.specs.List.{All, Contains, list_any};
ghost use Rattle.std.specs.Option.{ForSome};
ghost use Rattle.lang_core.specs.Places.{IsOrdered};
ghost use Rattle.key_labels.specs.Labels.{behind};
ghost use Rattle.key_labels.specs.Rows.{row_place, labels_in, spare_in, IsEdited};
ghost use Rattle.dependency_index.specs.Index.{IsIndexed};
ghost use Rattle.dependency_index.specs.Reads.{is_at, label_of, reads_before};
ghost use Rattle.dependency_index.specs.Rows.{AreOrdered, IsPrunable, labels_by, spare_by};
ghost use Rattle.dependency_index.specs.declared.reads.ReadKind.{ReadKind};

use crate::noted::Noted;
use crate::numbers::seek_number;
use crate::reads::{ReadAt, ReadKind};
use crate::rows::ReadRows;
use key_labels::{KeyRows, Order, is_before, labels_in, prune_row};
use lang_core::Text;

// Takes the labels before one out of the row of a key, where a label is found in it by halves. Where it isn't, none is left to go.
fn prune_where(
    order: &Order,
    rows: &mut KeyRows,
    table: &Text,
    key: &Text,
    label: u64,
    end: Option<u64>,
)
    requires ordered { IsOrdered row_place rows.old.items }
    requires prunable { IsPrunable order.now.labels end label (labels_in rows.old.items table.now key.now) }
    requires end { ForSome end (Contains order.now.labels) }
    ensures ordered { IsOrdered row_place rows.new.items }
    ensures edited { IsEdited table.now key.now (behind order.now.labels end (labels_in rows.old.items table.now key.now)) rows.old.items rows.new.items }
    ensures spare { (t k : List ℕ) → spare_in rows.old.items t k ≤ spare_in rows.new.items t k }
{
    let (_, found) = seek_number(labels_in(rows, table, key), label);
    if found {
        prune_row(order, rows, table, key, end);
    }
}

fn prune_read(order: &Order, rows: &mut ReadRows, read: &ReadAt, label: u64, end: Option<u64>)
    requires ordered { AreOrdered rows.old }
    requires prunable { IsPrunable order.now.labels end label (labels_by rows.old read.now.kind read.now.table read.now.key) }
    requires end { ForSome end (Contains order.now.labels) }
    ensures ordered { AreOrdered rows.new }
    ensures each { (kind : ReadKind) (t k : List ℕ) → labels_by rows.new kind t k
        ≡ (if is_at kind t k read.now then behind order.now.labels end (labels_by rows.old kind t k) else labels_by rows.old kind t k) }
    ensures spare { (kind : ReadKind) (t k : List ℕ) → spare_by rows.old kind t k ≤ spare_by rows.new kind t k }
{
    match read.kind {
        ReadKind::Key => prune_where(order, &mut rows.keys, &read.table, &read.key, label, end),
        ReadKind::Scan => prune_where(order, &mut rows.scans, &read.table, &read.key, label, end),
    }
}

// Takes the labels before one out of the row of each of these reads, in which a label stands or none of them does.
fn prune_reads(order: &Order, rows: &mut ReadRows, reads: &[ReadAt], label: u64, end: Option<u64>)
    requires ordered { AreOrdered rows.old }
    requires prunable { (kind : ReadKind) (t k : List ℕ) → list_any (is_at kind t k) reads.now ≡ true
        → IsPrunable order.now.labels end label (labels_by rows.old kind t k) }
    requires end { ForSome end (Contains order.now.labels) }
    ensures ordered { AreOrdered rows.new }
    ensures each { (kind : ReadKind) (t k : List ℕ) → labels_by rows.new kind t k
        ≡ (if list_any (is_at kind t k) reads.now then behind order.now.labels end (labels_by rows.old kind t k) else labels_by rows.old kind t k) }
    ensures spare { (kind : ReadKind) (t k : List ℕ) → spare_by rows.old kind t k ≤ spare_by rows.new kind t k }
{
    for read in reads {
        prune_read(order, rows, read, label, end);
    }
}

// Takes the labels before one out of the rows of what one of them read. A label that isn't before it changes none.
fn prune_noted(order: &Order, rows: &mut ReadRows, own: &Noted, end: Option<u64>)
    requires ordered { AreOrdered rows.old }
    requires label { Contains order.now.labels own.now.label }
    requires prunable { (kind : ReadKind) (t k : List ℕ) → list_any (is_at kind t k) own.now.reads ≡ true
        → IsPrunable order.now.labels end own.now.label (labels_by rows.old kind t k) }
    requires end { ForSome end (Contains order.now.labels) }
    ensures ordered { AreOrdered rows.new }
    ensures each { (kind : ReadKind) (t k : List ℕ) → labels_by rows.new kind t k
        ≡ (if reads_before order.now.labels end kind t k own.now then behind order.now.labels end (labels_by rows.old kind t k) else labels_by rows.old kind t k) }
    ensures spare { (kind : ReadKind) (t k : List ℕ) → spare_by rows.old kind t k ≤ spare_by rows.new kind t k }
{
    if is_before(order, own.label, end) {
        prune_reads(order, rows, own.reads.as_slice(), own.label, end);
    }
}

/// Takes the labels before one out of all rows, or all labels where there is none.
pub(crate) fn prune_rows(order: &Order, rows: &mut ReadRows, noted: &[Noted], end: Option<u64>)
    requires indexed { IsIndexed noted.now rows.old }
    requires known { All (Contains order.now.labels) (map label_of noted.now) }
    requires end { ForSome end (Contains order.now.labels) }
    ensures ordered { AreOrdered rows.new }
    ensures each { (kind : ReadKind) (t k : List ℕ) → labels_by rows.new kind t k ≡ behind order.now.labels end (labels_by rows.old kind t k) }
    ensures spare { (kind : ReadKind) (t k : List ℕ) → spare_by rows.old kind t k ≤ spare_by rows.new kind t k }
{
    for own in noted {
        prune_noted(order, rows, own, end);
    }
}
