// Rows of labels: by key those that read it, by prefix those that scan it.
ghost use Rattle.std.specs.Prelude.{ℕ, List, ◌≡◌, ◌+◌, ◌≤◌, true, filter, length, IfOk, OnOk, if◌then◌else◌};
ghost use Rattle.std.specs.List.{list_any};
ghost use Rattle.lang_core.specs.Places.{IsOrdered};
ghost use Rattle.key_labels.specs.Labels.{is_other};
ghost use Rattle.key_labels.specs.Rows.{row_place, labels_in, spare_in, IsEdited};
ghost use Rattle.dependency_index.specs.Numbers.{Rises, with_number};
ghost use Rattle.dependency_index.specs.Reads.{is_at};
ghost use Rattle.dependency_index.specs.Rows.{AreOrdered, labels_by, spare_by, places_by};
ghost use Rattle.dependency_index.specs.declared.reads.ReadKind.{ReadKind};

use crate::numbers::seek_number;
use crate::reads::{ReadAt, ReadKind};
use key_labels::{KeyRows, copied_rows, drop_label, insert_label, labels_near, make_row};
use lang_core::{NoMemory, Text};
use std::alloc::Global;

/// For each key and each prefix that was ever read, the labels that read it now, in the order of their numbers.
pub struct ReadRows {
    pub keys: KeyRows,
    pub scans: KeyRows,
    /// The slot of the last row that was made or looked for to be made: who makes room for a read puts a label there next.
    pub near: usize,
}

impl Drop for ReadRows {
    fn drop(self) {
        let Self {
            keys: _,
            scans: _,
            near: _,
        } = self;
    }
}

/// Rows with the same labels.
pub(crate) fn copied_reads(alloc: Global, rows: &ReadRows) -> Result<ReadRows, NoMemory>
    requires { AreOrdered rows.now }
    ensures ordered { IfOk result AreOrdered }
    ensures each { IfOk result (λ copies. (kind : ReadKind) (t k : List ℕ) → labels_by copies kind t k ≡ labels_by rows.now kind t k) }
{
    let keys = copied_rows(alloc, &rows.keys)?;
    let scans = copied_rows(alloc, &rows.scans)?;
    Ok(ReadRows {
        keys,
        scans,
        near: 0,
    })
}

// Puts a label into the row of a key, if it isn't there yet.
fn put_label(rows: &mut KeyRows, near: usize, table: &Text, key: &Text, label: u64)
    requires ordered { IsOrdered row_place rows.old.items }
    requires rising { Rises (labels_in rows.old.items table.now key.now) }
    requires fits { length (with_number label (labels_in rows.old.items table.now key.now))
        ≤ length (labels_in rows.old.items table.now key.now) + spare_in rows.old.items table.now key.now }
    ensures ordered { IsOrdered row_place rows.new.items }
    ensures edited { IsEdited table.now key.now (with_number label (labels_in rows.old.items table.now key.now)) rows.old.items rows.new.items }
    ensures places { (t k : List ℕ) → length (labels_in rows.old.items t k) + spare_in rows.old.items t k
        ≤ length (labels_in rows.new.items t k) + spare_in rows.new.items t k }
{
    let (at, taken) = seek_number(labels_near(rows, near, table, key), label);
    if taken {
        return;
    }
    insert_label(rows, near, table, key, at, label);
}

fn put_read(rows: &mut ReadRows, read: &ReadAt, label: u64)
    requires ordered { AreOrdered rows.old }
    requires rising { Rises (labels_by rows.old read.now.kind read.now.table read.now.key) }
    requires fits { length (with_number label (labels_by rows.old read.now.kind read.now.table read.now.key))
        ≤ places_by rows.old read.now.kind read.now.table read.now.key }
    ensures ordered { AreOrdered rows.new }
    ensures each { (kind : ReadKind) (t k : List ℕ) → labels_by rows.new kind t k
        ≡ (if is_at kind t k read.now then with_number label (labels_by rows.old kind t k) else labels_by rows.old kind t k) }
    ensures places { (kind : ReadKind) (t k : List ℕ) → places_by rows.old kind t k ≤ places_by rows.new kind t k }
{
    let near = rows.near;
    match read.kind {
        ReadKind::Key => put_label(&mut rows.keys, near, &read.table, &read.key, label),
        ReadKind::Scan => put_label(&mut rows.scans, near, &read.table, &read.key, label),
    }
}

/// Puts a label into the row of each of these reads, where it isn't yet.
pub(crate) fn put_labels(rows: &mut ReadRows, reads: &[ReadAt], label: u64)
    requires ordered { AreOrdered rows.old }
    requires rising { (kind : ReadKind) (t k : List ℕ) → Rises (labels_by rows.old kind t k) }
    requires fits { (kind : ReadKind) (t k : List ℕ) → list_any (is_at kind t k) reads.now ≡ true
        → length (with_number label (labels_by rows.old kind t k)) ≤ places_by rows.old kind t k }
    ensures ordered { AreOrdered rows.new }
    ensures each { (kind : ReadKind) (t k : List ℕ) → labels_by rows.new kind t k
        ≡ (if list_any (is_at kind t k) reads.now then with_number label (labels_by rows.old kind t k) else labels_by rows.old kind t k) }
    ensures places { (kind : ReadKind) (t k : List ℕ) → places_by rows.old kind t k ≤ places_by rows.new kind t k }
{
    for read in reads {
        put_read(rows, read, label);
    }
}

fn drop_read(rows: &mut ReadRows, read: &ReadAt, label: u64)
    requires { AreOrdered rows.old }
    ensures ordered { AreOrdered rows.new }
    ensures each { (kind : ReadKind) (t k : List ℕ) → labels_by rows.new kind t k
        ≡ (if is_at kind t k read.now then filter (is_other label) (labels_by rows.old kind t k) else labels_by rows.old kind t k) }
    ensures spare { (kind : ReadKind) (t k : List ℕ) → spare_by rows.old kind t k ≤ spare_by rows.new kind t k }
{
    match read.kind {
        ReadKind::Key => drop_label(&mut rows.keys, &read.table, &read.key, label),
        ReadKind::Scan => drop_label(&mut rows.scans, &read.table, &read.key, label),
    }
}

/// Takes a label out of the row of each of these reads.
pub(crate) fn drop_labels(rows: &mut ReadRows, reads: &[ReadAt], label: u64)
    requires { AreOrdered rows.old }
    ensures ordered { AreOrdered rows.new }
    ensures each { (kind : ReadKind) (t k : List ℕ) → labels_by rows.new kind t k
        ≡ (if list_any (is_at kind t k) reads.now then filter (is_other label) (labels_by rows.old kind t k) else labels_by rows.old kind t k) }
    ensures spare { (kind : ReadKind) (t k : List ℕ) → spare_by rows.old kind t k ≤ spare_by rows.new kind t k }
{
    for read in reads {
        drop_read(rows, read, label);
    }
}

fn make_read(
    alloc: Global,
    rows: &mut ReadRows,
    read: &ReadAt,
    spare: usize,
) -> Result<(), NoMemory>
    requires { AreOrdered rows.old }
    ensures ordered { AreOrdered rows.new }
    ensures each { (kind : ReadKind) (t k : List ℕ) → labels_by rows.new kind t k ≡ labels_by rows.old kind t k }
    ensures kept { (kind : ReadKind) (t k : List ℕ) → spare_by rows.old kind t k ≤ spare_by rows.new kind t k }
    ensures spare { OnOk result (spare ≤ spare_by rows.new read.now.kind read.now.table read.now.key) }
{
    match read.kind {
        ReadKind::Key => make_row(
            alloc,
            &mut rows.keys,
            &mut rows.near,
            &read.table,
            &read.key,
            spare,
        ),
        ReadKind::Scan => make_row(
            alloc,
            &mut rows.scans,
            &mut rows.near,
            &read.table,
            &read.key,
            spare,
        ),
    }
}

/// Sees to it that each of these reads has a row with places for so many labels more. No label changes.
pub(crate) fn make_rows(
    alloc: Global,
    rows: &mut ReadRows,
    reads: &[ReadAt],
    spare: usize,
) -> Result<(), NoMemory>
    requires { AreOrdered rows.old }
    ensures ordered { AreOrdered rows.new }
    ensures each { (kind : ReadKind) (t k : List ℕ) → labels_by rows.new kind t k ≡ labels_by rows.old kind t k }
    ensures kept { (kind : ReadKind) (t k : List ℕ) → spare_by rows.old kind t k ≤ spare_by rows.new kind t k }
    ensures spare { OnOk result ((kind : ReadKind) (t k : List ℕ) → list_any (is_at kind t k) reads.now ≡ true → spare ≤ spare_by rows.new kind t k) }
{
    for read in reads {
        make_read(alloc, rows, read, spare)?;
    }
    Ok(())
}
