// The labels in the row of a key, and how they change.
ghost use Rattle.std.specs.Prelude.{ℕ, List, ◌≡◌, ◌+◌, ◌<◌, ◌≤◌, [], None, true, drop, filter, find, insert, length, vec_len, vec_capacity, IfOk, OnOk, if◌then◌else◌};
ghost use Rattle.std.specs.List.{AllZip, Contains};
ghost use Rattle.std.specs.Option.{option_copied, ForSome};
ghost use Rattle.lang_core.specs.Places.{IsOrdered, place_of, same_place};
ghost use Rattle.place_order.specs.Rising.{IsRising};
ghost use Rattle.key_labels.specs.KeyRows.{IsFreeAt};
ghost use Rattle.key_labels.specs.Labels.{behind, is_other, with_label};
ghost use Rattle.key_labels.specs.Rows.{row_place, labels_in, spare_of, spare_in, has_row, IsBased, IsCopy, IsEdited, KeepsKeys, KeepsRows};

use crate::key_rows::{KeyRows, put_new, rank_in, ready_slot, row_at, slot_in};
use crate::labels::{count_before, position_in};
use lang_base::both;
use lang_core::{Copied, NoMemory, Placed, Text};
use place_order::Order;
use std::alloc::Global;

/// The labels that stand at a key, and the text that stands there before all of them. It may have neither.
pub struct KeyLabels {
    pub table: Text,
    pub key: Text,
    pub base: Option<Text>,
    pub labels: Vec<u64>,
}

impl Drop for KeyLabels {
    fn drop(self) {
        let Self {
            table: _,
            key: _,
            base: _,
            labels: _,
        } = self;
    }
}

impl Placed for KeyLabels {
    ghost place = { λ r. place_of r.table r.key };

    fn table(&self) -> &Text {
        &self.table
    }

    fn key(&self) -> &Text {
        &self.key
    }
}

// Makes places for so many labels more: just these where there is none yet, as most keys have one writer or few.
fn make_places(labels: &mut Vec<u64>, more: usize) -> Result<(), NoMemory>
    ensures items { labels.new.items ≡ labels.old.items }
    ensures len { vec_len labels.new ≡ vec_len labels.old }
    ensures capacity { vec_capacity labels.old ≤ vec_capacity labels.new }
    ensures places { OnOk result (vec_len labels.new + more ≤ vec_capacity labels.new) }
{
    if labels.is_empty() {
        labels.reserve_exact(more)?;
    } else {
        labels.reserve(more)?;
    }
    Ok(())
}

impl KeyLabels {
    /// The labels.
    pub fn labels(&self) -> &[u64]
        ensures { result.now ≡ self.now.labels.items }
    {
        &self.labels
    }

    /// The text before all labels.
    pub fn base(&self) -> Option<&Text>
        ensures { option_copied result ≡ self.now.base }
    {
        self.base.as_ref()
    }

    /// Puts a label in at a place of the labels, where there is room for it.
    pub fn insert(&mut self, at: usize, label: u64)
        requires within { at ≤ length self.old.labels.items }
        requires room { 0 < spare_of self.old }
        ensures place { row_place self.new ≡ row_place self.old }
        ensures base { self.new.base ≡ self.old.base }
        ensures labels { self.new.labels.items ≡ insert self.old.labels.items at label }
        ensures spare { spare_of self.old ≤ spare_of self.new + 1 }
    {
        let _ = self.labels.insert(at, label);
    }

    // Takes a label out, if it is there.
    fn drop_label(&mut self, label: u64)
        ensures place { row_place self.new ≡ row_place self.old }
        ensures base { self.new.base ≡ self.old.base }
        ensures labels { self.new.labels.items ≡ filter (is_other label) self.old.labels.items }
        ensures spare { spare_of self.old ≤ spare_of self.new }
    {
        self.labels.retain(|other| *other != label);
    }

    // Takes a label out, found by halves in the order in which they rise.
    fn drop_in(&mut self, order: &Order, label: u64)
        requires rising { IsRising order.now.labels self.old.labels.items }
        requires label { Contains order.now.labels label }
        ensures place { row_place self.new ≡ row_place self.old }
        ensures base { self.new.base ≡ self.old.base }
        ensures labels { self.new.labels.items ≡ filter (is_other label) self.old.labels.items }
        ensures spare { spare_of self.old ≤ spare_of self.new }
    {
        match position_in(order, self.labels(), label) {
            None => {}
            Some(at) => {
                let _ = self.labels.remove(at);
            }
        }
    }

    // Makes places for so many labels more.
    fn reserve(&mut self, spare: usize) -> Result<(), NoMemory>
        ensures place { row_place self.new ≡ row_place self.old }
        ensures base { self.new.base ≡ self.old.base }
        ensures labels { self.new.labels.items ≡ self.old.labels.items }
        ensures kept { spare_of self.old ≤ spare_of self.new }
        ensures spare { OnOk result (spare ≤ spare_of self.new) }
    {
        make_places(&mut self.labels, spare)
    }

    // Sets the text before all labels, and takes those before a label out, or all where there is none.
    fn settle(&mut self, order: &Order, end: Option<u64>, base: Option<Text>)
        requires rising { IsRising order.now.labels self.old.labels.items }
        requires end { ForSome end (Contains order.now.labels) }
        ensures place { row_place self.new ≡ row_place self.old }
        ensures base { self.new.base ≡ base }
        ensures labels { self.new.labels.items ≡ behind order.now.labels end self.old.labels.items }
        ensures spare { spare_of self.old ≤ spare_of self.new }
    {
        let n = count_before(order, self.labels(), end);
        drop_front(&mut self.labels, n);
        self.base = base;
    }
}

fn drop_front(labels: &mut Vec<u64>, n: usize)
    requires { n ≤ length labels.old.items }
    ensures items { labels.new.items ≡ drop n labels.old.items }
    ensures len { vec_len labels.new ≤ vec_len labels.old }
    ensures capacity { vec_capacity labels.old ≤ vec_capacity labels.new }
{
    let _ = labels.drain(..n);
}

/// The labels in the row of a key with these bytes.
pub fn labels_at<'a>(rows: &'a KeyRows, table: &Text, key: &[u8]) -> &'a [u64]
    requires { IsOrdered row_place rows.now.items }
    ensures { result.now ≡ labels_in rows.now.items table.now key.now }
{
    let (at, taken) = rank_in(&rows.slots, &rows.order, table, key);
    if taken {
        row_at(&rows.slots, &rows.order, at).labels()
    } else {
        &[]
    }
}

/// The labels in the row of a key.
pub fn labels_in<'a>(rows: &'a KeyRows, table: &Text, key: &Text) -> &'a [u64]
    requires { IsOrdered row_place rows.now.items }
    ensures { result.now ≡ labels_in rows.now.items table.now key.now }
{
    labels_near(rows, usize::MAX, table, key)
}

/// The labels in the row of a key, which is looked for in a slot first.
pub fn labels_near<'a>(rows: &'a KeyRows, near: usize, table: &Text, key: &Text) -> &'a [u64]
    requires { IsOrdered row_place rows.now.items }
    ensures { result.now ≡ labels_in rows.now.items table.now key.now }
{
    match slot_in(
        &rows.slots,
        &rows.order,
        &rows.hints,
        rows.newest,
        near,
        table,
        key,
    ) {
        Ok(slot) => rows.slots[slot].labels(),
        Err(_) => &[],
    }
}

/// The row of a key, found by its hash, or else by halves.
pub fn find_row<'a>(rows: &'a KeyRows, table: &Text, key: &Text) -> Option<&'a KeyLabels>
    requires { IsOrdered row_place rows.now.items }
    ensures { option_copied result ≡ find (λ r. same_place (row_place r) (place_of table.now key.now)) rows.now.items }
{
    match slot_in(
        &rows.slots,
        &rows.order,
        &rows.hints,
        rows.newest,
        usize::MAX,
        table,
        key,
    ) {
        Ok(slot) => Some(&rows.slots[slot]),
        Err(_) => None,
    }
}

fn row_of(
    alloc: Global,
    table: &Text,
    key: &Text,
    base: Option<Text>,
    labels: Vec<u64>,
) -> Result<KeyLabels, NoMemory>
    ensures table { IfOk result (λ row. row.table ≡ table.now) }
    ensures key { IfOk result (λ row. row.key ≡ key.now) }
    ensures base { IfOk result (λ row. row.base ≡ base) }
    ensures labels { IfOk result (λ row. row.labels ≡ labels) }
{
    let (table, key) = both(table.copied(alloc), key.copied(alloc))?;
    Ok(KeyLabels {
        table,
        key,
        base,
        labels,
    })
}

fn empty_row(alloc: Global, table: &Text, key: &Text, spare: usize) -> Result<KeyLabels, NoMemory>
    ensures table { IfOk result (λ row. row.table ≡ table.now) }
    ensures key { IfOk result (λ row. row.key ≡ key.now) }
    ensures base { IfOk result (λ row. row.base ≡ None) }
    ensures labels { IfOk result (λ row. row.labels.items ≡ []) }
    ensures spare { IfOk result (λ row. spare ≤ spare_of row) }
{
    let mut labels = Vec::new(alloc);
    make_places(&mut labels, spare)?;
    row_of(alloc, table, key, None, labels)
}

// Puts in a row without labels, which has places for so many.
fn add_row(
    alloc: Global,
    rows: &mut KeyRows,
    at: usize,
    table: &Text,
    key: &Text,
    spare: usize,
) -> Result<(), NoMemory>
    requires ordered { IsOrdered row_place rows.old.items }
    requires free { IsFreeAt (place_of table.now key.now) rows.old.items at }
    ensures ordered { IsOrdered row_place rows.new.items }
    ensures each { (t k : List ℕ) → labels_in rows.new.items t k ≡ labels_in rows.old.items t k }
    ensures kept { (t k : List ℕ) → spare_in rows.old.items t k ≤ spare_in rows.new.items t k }
    ensures rows { KeepsRows rows.old.items rows.new.items }
    ensures spare { OnOk result (spare ≤ spare_in rows.new.items table.now key.now) }
    ensures row { OnOk result (has_row rows.new.items table.now key.now ≡ true) }
{
    let row = empty_row(alloc, table, key, spare)?;
    let number = ready_slot(&mut rows.slots)?;
    put_new(
        alloc,
        &mut rows.slots,
        &mut rows.order,
        &mut rows.hints,
        &mut rows.newest,
        at,
        number,
        row,
    )?;
    Ok(())
}

/// Sees to it that a key has a row with places for so many labels more. No label changes. The row is looked for first in the slot
/// of the last one that was looked for, and its own is noted.
pub fn make_row(
    alloc: Global,
    rows: &mut KeyRows,
    near: &mut usize,
    table: &Text,
    key: &Text,
    spare: usize,
) -> Result<(), NoMemory>
    requires { IsOrdered row_place rows.old.items }
    ensures ordered { IsOrdered row_place rows.new.items }
    ensures each { (t k : List ℕ) → labels_in rows.new.items t k ≡ labels_in rows.old.items t k }
    ensures kept { (t k : List ℕ) → spare_in rows.old.items t k ≤ spare_in rows.new.items t k }
    ensures rows { KeepsRows rows.old.items rows.new.items }
    ensures spare { OnOk result (spare ≤ spare_in rows.new.items table.now key.now) }
    ensures row { OnOk result (has_row rows.new.items table.now key.now ≡ true) }
{
    match slot_in(
        &rows.slots,
        &rows.order,
        &rows.hints,
        rows.newest,
        *near,
        table,
        key,
    ) {
        Ok(slot) => {
            *near = slot;
            rows.slots[slot].reserve(spare)
        }
        Err(at) => {
            *near = rows.slots.len();
            add_row(alloc, rows, at, table, key, spare)
        }
    }
}

fn copied_labels(alloc: Global, labels: &[u64]) -> Result<Vec<u64>, NoMemory>
    ensures { IfOk result (λ copy. copy.items ≡ labels.now) }
{
    Ok(Vec::from_slice(alloc, labels)?)
}

fn copied_row(alloc: Global, row: &KeyLabels) -> Result<KeyLabels, NoMemory>
    ensures { IfOk result (IsCopy row.now) }
{
    let (base, labels) = both(
        Copied::copied(&row.base, alloc),
        copied_labels(alloc, row.labels()),
    )?;
    row_of(alloc, row.table(), row.key(), base, labels)
}

fn copied_slots(alloc: Global, slots: &[KeyLabels]) -> Result<Vec<KeyLabels>, NoMemory>
    ensures { IfOk result (λ copies. AllZip IsCopy slots.now copies.items) }
{
    let mut copies = Vec::new(alloc);
    for row in slots {
        copies.push(copied_row(alloc, row)?)?;
    }
    Ok(copies)
}

/// Rows with the same labels.
pub fn copied_rows(alloc: Global, rows: &KeyRows) -> Result<KeyRows, NoMemory>
    requires { IsOrdered row_place rows.now.items }
    ensures ordered { IfOk result (λ copies. IsOrdered row_place copies.items) }
    ensures each { IfOk result (λ copies. (t k : List ℕ) → labels_in copies.items t k ≡ labels_in rows.now.items t k) }
    ensures rows { IfOk result (λ copies. KeepsRows rows.now.items copies.items) }
{
    let order = rows.order.copied(alloc)?;
    let hints = Vec::from_slice(alloc, &rows.hints)?;
    let slots = copied_slots(alloc, &rows.slots)?;
    Ok(KeyRows {
        slots,
        order,
        hints,
        newest: rows.newest,
    })
}

/// Puts a label into the row of a key at a place of its labels, where there is room for it. The row is looked for in a slot first.
pub fn insert_label(
    rows: &mut KeyRows,
    near: usize,
    table: &Text,
    key: &Text,
    at: usize,
    label: u64,
)
    requires ordered { IsOrdered row_place rows.old.items }
    requires within { at ≤ length (labels_in rows.old.items table.now key.now) }
    requires spare { 0 < spare_in rows.old.items table.now key.now }
    ensures ordered { IsOrdered row_place rows.new.items }
    ensures edited { IsEdited table.now key.now (insert (labels_in rows.old.items table.now key.now) at label) rows.old.items rows.new.items }
    ensures spare { (t k : List ℕ) → spare_in rows.old.items t k
        ≤ spare_in rows.new.items t k + (if same_place (place_of table.now key.now) (place_of t k) then 1 else 0) }
    ensures rows { KeepsRows rows.old.items rows.new.items }
{
    match slot_in(
        &rows.slots,
        &rows.order,
        &rows.hints,
        rows.newest,
        near,
        table,
        key,
    ) {
        Ok(slot) => rows.slots[slot].insert(at, label),
        Err(_) => {}
    }
}

/// Puts a label into the row of a key, which has a place for it. The row is looked for in a slot first.
pub fn put_label(
    order: &Order,
    rows: &mut KeyRows,
    near: usize,
    table: &Text,
    key: &Text,
    label: u64,
)
    requires ordered { IsOrdered row_place rows.old.items }
    requires spare { 0 < spare_in rows.old.items table.now key.now }
    requires rising { IsRising order.now.labels (labels_in rows.old.items table.now key.now) }
    requires label { Contains order.now.labels label }
    ensures ordered { IsOrdered row_place rows.new.items }
    ensures edited { IsEdited table.now key.now (with_label order.now.labels label (labels_in rows.old.items table.now key.now)) rows.old.items rows.new.items }
    ensures spare { (t k : List ℕ) → spare_in rows.old.items t k
        ≤ spare_in rows.new.items t k + (if same_place (place_of table.now key.now) (place_of t k) then 1 else 0) }
    ensures rows { KeepsRows rows.old.items rows.new.items }
{
    let n = count_before(order, labels_near(rows, near, table, key), Some(label));
    insert_label(rows, near, table, key, n, label);
}

/// Takes a label out of the row of a key, if it is there.
pub fn drop_label(rows: &mut KeyRows, table: &Text, key: &Text, label: u64)
    requires { IsOrdered row_place rows.old.items }
    ensures ordered { IsOrdered row_place rows.new.items }
    ensures edited { IsEdited table.now key.now (filter (is_other label) (labels_in rows.old.items table.now key.now)) rows.old.items rows.new.items }
    ensures spare { (t k : List ℕ) → spare_in rows.old.items t k ≤ spare_in rows.new.items t k }
    ensures rows { KeepsRows rows.old.items rows.new.items }
{
    match slot_in(
        &rows.slots,
        &rows.order,
        &rows.hints,
        rows.newest,
        usize::MAX,
        table,
        key,
    ) {
        Ok(slot) => rows.slots[slot].drop_label(label),
        Err(_) => {}
    }
}

/// Takes a label out of the row of a key, if it is there. The row's labels rise in an order, in which it is found by halves.
pub fn drop_label_in(order: &Order, rows: &mut KeyRows, table: &Text, key: &Text, label: u64)
    requires ordered { IsOrdered row_place rows.old.items }
    requires rising { IsRising order.now.labels (labels_in rows.old.items table.now key.now) }
    requires label { Contains order.now.labels label }
    ensures ordered { IsOrdered row_place rows.new.items }
    ensures edited { IsEdited table.now key.now (filter (is_other label) (labels_in rows.old.items table.now key.now)) rows.old.items rows.new.items }
    ensures spare { (t k : List ℕ) → spare_in rows.old.items t k ≤ spare_in rows.new.items t k }
    ensures rows { KeepsRows rows.old.items rows.new.items }
{
    match slot_in(
        &rows.slots,
        &rows.order,
        &rows.hints,
        rows.newest,
        usize::MAX,
        table,
        key,
    ) {
        Ok(slot) => rows.slots[slot].drop_in(order, label),
        Err(_) => {}
    }
}

/// Sets the text that stands at a key before all labels, and takes the labels before one out of its row, or all where there is
/// none. The row's labels rise in an order, in which these are found by halves, and those that stay are moved once.
pub fn settle_row(
    order: &Order,
    rows: &mut KeyRows,
    table: &Text,
    key: &Text,
    end: Option<u64>,
    base: Option<Text>,
)
    requires ordered { IsOrdered row_place rows.old.items }
    requires there { has_row rows.old.items table.now key.now ≡ true }
    requires rising { IsRising order.now.labels (labels_in rows.old.items table.now key.now) }
    requires end { ForSome end (Contains order.now.labels) }
    ensures ordered { IsOrdered row_place rows.new.items }
    ensures edited { IsEdited table.now key.now (behind order.now.labels end (labels_in rows.old.items table.now key.now)) rows.old.items rows.new.items }
    ensures based { IsBased table.now key.now base rows.old.items rows.new.items }
    ensures spare { (t k : List ℕ) → spare_in rows.old.items t k ≤ spare_in rows.new.items t k }
    ensures keys { KeepsKeys rows.old.items rows.new.items }
{
    match slot_in(
        &rows.slots,
        &rows.order,
        &rows.hints,
        rows.newest,
        usize::MAX,
        table,
        key,
    ) {
        Ok(slot) => rows.slots[slot].settle(order, end, base),
        Err(_) => {}
    }
}
