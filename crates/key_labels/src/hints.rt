// Where rows are looked for first: a hash table of the numbers of slots. Nothing rests on it, as each row that it names is
// compared before it is taken: a hint that is wrong or missing costs time and changes no answer.
ghost use Rattle.std.specs.Prelude.{◌≡◌, ◌<◌, true, length, IfSome};
ghost use Rattle.lang_core.specs.Places.{place_of};
ghost use Rattle.key_labels.specs.KeyRows.{IsSlotOf};

use crate::rows::KeyLabels;
use lang_core::{Placed, Same, Text};
use std::hash::{FoldHasher, Hasher};

// In so many cells a row may be named, one after the other.
const PROBES: usize = 8;

// What stands in a cell that names none. No slot has this number.
const EMPTY: u32 = u32::MAX;

fn hash_of(table: &Text, key: &Text) -> u64 {
    let mut hasher = FoldHasher::default();
    hasher.write(table.as_bytes());
    hasher.write(key.as_bytes());
    hasher.finish()
}

// The first cell of a key.
fn first_cell(hints: &[u32], table: &Text, key: &Text) -> usize
    requires { 0 < length hints.now }
    ensures { result < length hints.now }
{
    (hash_of(table, key) % hints.len() as u64) as usize
}

fn next_cell(hints: &[u32], cell: usize) -> usize
    requires { cell < length hints.now }
    ensures { result < length hints.now }
{
    if cell + 1 == hints.len() { 0 } else { cell + 1 }
}

/// Whether the row of a key stands in the slot of a number, which may be any.
pub(crate) fn stands_in(slots: &Vec<KeyLabels>, slot: usize, table: &Text, key: &Text) -> bool
    ensures { result ≡ true → IsSlotOf (place_of table.now key.now) slots.now.items slot }
{
    if slot >= slots.len() {
        return false;
    }
    let row = &slots[slot];
    row.key().is(key) && row.table().is(table)
}

/// The slot of the row of a key, if a hint leads there.
pub(crate) fn hinted(
    slots: &Vec<KeyLabels>,
    hints: &[u32],
    table: &Text,
    key: &Text,
) -> Option<usize>
    ensures { IfSome result (IsSlotOf (place_of table.now key.now) slots.now.items) }
{
    if hints.is_empty() {
        return None;
    }
    let mut cell = first_cell(hints, table, key);
    for _ in 0..PROBES {
        let slot = hints[cell];
        if slot == EMPTY {
            return None;
        }
        if stands_in(slots, slot as usize, table, key) {
            return Some(slot as usize);
        }
        cell = next_cell(hints, cell);
    }
    None
}

// The first empty cell of a key, or its first one where none is.
fn free_cell(hints: &[u32], table: &Text, key: &Text) -> usize
    requires { 0 < length hints.now }
    ensures { result < length hints.now }
{
    let first = first_cell(hints, table, key);
    let mut cell = first;
    for _ in 0..PROBES {
        if hints[cell] == EMPTY {
            return cell;
        }
        cell = next_cell(hints, cell);
    }
    first
}

// Names the row in a slot, if one stands there.
fn note(slots: &Vec<KeyLabels>, hints: &mut [u32], slot: u32) {
    if hints.is_empty() || slot as usize >= slots.len() {
        return;
    }
    let row = &slots[slot as usize];
    let cell = free_cell(hints, row.table(), row.key());
    hints[cell] = slot;
}

// Makes four times as many cells as there are slots, and names all rows in them. Where there is no memory, nothing changes.
fn spread(slots: &Vec<KeyLabels>, hints: &mut Vec<u32>) -> bool {
    if hints.resize(slots.len().saturating_mul(4), EMPTY).is_err() {
        return false;
    }
    hints.fill(EMPTY);
    for slot in 0..slots.len() {
        if slot < EMPTY as usize {
            note(slots, hints, slot as u32);
        }
    }
    true
}

/// Names the row in a slot, which is new. At least twice as many cells as there are slots are made, if there is memory.
pub(crate) fn note_new(slots: &Vec<KeyLabels>, hints: &mut Vec<u32>, slot: u32) {
    if hints.len() / 2 < slots.len() && spread(slots, hints) {
        return;
    }
    note(slots, hints, slot);
}
