// Places with their writes, and the rows that name them.
ghost use Rattle.std.specs.Prelude.{ℕ, List, ◌≡◌, ◌↔◌, ◌+◌, ◌<◌, ◌≤◌, None, Some, true, IsTrue, IfSome, length, slice_index_or, find, position, nat_eq, map, vec_len, vec_capacity, if◌then◌else◌};
ghost use Rattle.std.specs.List.{Contains, AllByRecursion};
ghost use Rattle.std.specs.Option.{option_copied};
ghost use Rattle.lang_core.specs.Places.{IsOrdered};
ghost use Rattle.lang_core.specs.Rows.{written, write_place};
ghost use Rattle.place_order.specs.Rising.{IsRising};
ghost use Rattle.key_labels.specs.Labels.{is_other};
ghost use Rattle.versioned_rows.specs.Places.{label_of, keys_of, is_written, without, with_place};
ghost use Rattle.key_labels.specs.Rows.{labels_in, row_place, spare_in, KeepsRows};
ghost use Rattle.versioned_rows.specs.Versions.{IsIndexed};

use crate::rows::{drop_labels, drop_labels_in, put_labels};
use key_labels::{KeyRows, Labelled, count_before, position_in};
use lang_core::{Copied, NoMemory, Same, SharedWrites, Text, Write};
use place_order::Order;
use std::alloc::Global;

/// What the place of a label wrote.
pub struct PlaceWrites {
    pub label: u64,
    pub writes: SharedWrites,
}

impl Drop for PlaceWrites {
    fn drop(self) {
        let Self {
            label: _,
            writes: _,
        } = self;
    }
}

impl Copied for PlaceWrites {
    fn copied(&self, alloc: Global) -> Result<PlaceWrites, NoMemory> {
        let writes = self.writes.copied(alloc)?;
        Ok(PlaceWrites {
            label: self.label,
            writes,
        })
    }
}

impl Labelled for PlaceWrites {
    ghost label = { λ p. p.label };

    fn label(&self) -> u64 {
        self.label
    }
}

/// The text that these write to a key; None where they drop it or don't write it.
pub(crate) fn text_at<'a>(writes: &'a SharedWrites, table: &Text, key: &Text) -> Option<&'a Text>
    ensures { option_copied result ≡ written writes.now table.now key.now None }
{
    match writes.find(table, key) {
        None => None,
        Some(write) => write.text.as_ref(),
    }
}

/// The place of a label.
pub(crate) fn find_place<'a>(
    order: &Order,
    places: &'a [PlaceWrites],
    label: u64,
) -> Option<&'a PlaceWrites>
    requires rising { IsRising order.now.labels (map label_of places.now) }
    requires label { Contains order.now.labels label }
    ensures { option_copied result ≡ find (λ p. nat_eq (label_of p) label) places.now }
{
    match position_in(order, places, label) {
        None => None,
        Some(at) => Some(&places[at]),
    }
}

/// Where the place of a label stands, if it is there.
pub(crate) fn position_of(places: &[PlaceWrites], label: u64) -> Option<usize>
    ensures { result ≡ position (λ p. nat_eq (label_of p) label) places.now }
{
    places.iter().position(|place| place.label == label)
}

/// Takes the place of a label out, which stands there, if it does.
pub(crate) fn take_out(
    places: &mut Vec<PlaceWrites>,
    rows: &mut KeyRows,
    label: u64,
    stands: Option<usize>,
)
    requires indexed { IsIndexed places.old.items rows.old.items }
    requires stands { stands ≡ position (λ p. nat_eq (label_of p) label) places.old.items }
    ensures places { places.new.items ≡ without label places.old.items }
    ensures indexed { IsIndexed places.new.items rows.new.items }
    ensures spare { (t k : List ℕ) → spare_in rows.old.items t k ≤ spare_in rows.new.items t k }
    ensures rows { KeepsRows rows.old.items rows.new.items }
    ensures len { vec_len places.new ≤ vec_len places.old }
    ensures capacity { vec_capacity places.new ≡ vec_capacity places.old }
{
    match stands {
        None => {}
        Some(at) => {
            let place = places.remove(at);
            drop_labels(rows, place.writes.as_slice(), label);
        }
    }
}

// Puts in the place of a label that isn't there, where there is room for it.
fn put_in(
    order: &Order,
    places: &mut Vec<PlaceWrites>,
    rows: &mut KeyRows,
    near: usize,
    place: PlaceWrites,
)
    requires indexed { IsIndexed places.old.items rows.old.items }
    requires rising { IsRising order.now.labels (map label_of places.old.items) }
    requires label { Contains order.now.labels place.label }
    requires others { AllByRecursion (λ p. is_other place.label (label_of p) ≡ true) places.old.items }
    requires writes { IsOrdered write_place place.writes }
    requires room { vec_len places.old < vec_capacity places.old }
    requires spare { (t k : List ℕ) → is_written t k place.writes ≡ true → 0 < spare_in rows.old.items t k }
    ensures places { places.new.items ≡ with_place order.now.labels place places.old.items }
    ensures rising { IsRising order.now.labels (map label_of places.new.items) }
    ensures indexed { IsIndexed places.new.items rows.new.items }
    ensures spare { (t k : List ℕ) → spare_in rows.old.items t k
        ≤ spare_in rows.new.items t k + (if is_written t k place.writes then 1 else 0) }
    ensures rows { KeepsRows rows.old.items rows.new.items }
    ensures len { vec_len places.new ≡ vec_len places.old + 1 }
    ensures capacity { vec_capacity places.old ≤ vec_capacity places.new }
{
    put_labels(order, rows, near, place.writes.as_slice(), place.label);
    let at = count_before(order, places, Some(place.label));
    let _ = places.insert(at, place);
}

fn is_at_key(left: &Write, right: &Write) -> bool
    ensures { IsTrue result ↔ (write_place left.now ≡ write_place right.now) }
{
    left.table.is(&right.table) && left.key.is(&right.key)
}

fn are_at_keys(left: &[Write], right: &[Write]) -> bool
    ensures { IsTrue result ↔ (keys_of left.now ≡ keys_of right.now) }
{
    if left.len() != right.len() {
        return false;
    }
    for (i, write) in left.iter().enumerate() {
        if !is_at_key(write, &right[i]) {
            return false;
        }
    }
    true
}

// Where a place stands, if it wrote the same keys as these.
fn stands_alike(
    places: &[PlaceWrites],
    stands: Option<usize>,
    writes: &SharedWrites,
) -> Option<usize>
    requires { IfSome stands (λ at. at < length places.now) }
    ensures stands { IfSome result (λ at. stands ≡ Some at) }
    ensures keys { IfSome result (λ at. (d : PlaceWrites) → keys_of (slice_index_or places.now at d).writes ≡ keys_of writes.now) }
{
    let at = stands?;
    if are_at_keys(places[at].writes.as_slice(), writes.as_slice()) {
        Some(at)
    } else {
        None
    }
}

// Puts in a place over that of its label, which stands there: what it wrote leaves the rows, and no other place moves.
fn put_over(
    order: &Order,
    places: &mut Vec<PlaceWrites>,
    rows: &mut KeyRows,
    near: usize,
    place: PlaceWrites,
    at: usize,
)
    requires indexed { IsIndexed places.old.items rows.old.items }
    requires rising { IsRising order.now.labels (map label_of places.old.items) }
    requires label { Contains order.now.labels place.label }
    requires within { at < vec_len places.old }
    requires stands { Some at ≡ position (λ p. nat_eq (label_of p) place.label) places.old.items }
    requires writes { IsOrdered write_place place.writes }
    requires spare { (t k : List ℕ) → is_written t k place.writes ≡ true → 0 < spare_in rows.old.items t k }
    ensures places { places.new.items ≡ with_place order.now.labels place (without place.label places.old.items) }
    ensures rising { IsRising order.now.labels (map label_of places.new.items) }
    ensures indexed { IsIndexed places.new.items rows.new.items }
    ensures spare { (t k : List ℕ) → spare_in rows.old.items t k
        ≤ spare_in rows.new.items t k + (if is_written t k place.writes then 1 else 0) }
    ensures rows { KeepsRows rows.old.items rows.new.items }
    ensures len { vec_len places.new ≡ vec_len places.old }
    ensures capacity { vec_capacity places.old ≤ vec_capacity places.new }
{
    drop_labels_in(order, rows, places[at].writes.as_slice(), place.label);
    put_labels(order, rows, near, place.writes.as_slice(), place.label);
    places[at] = place;
}

// Puts in a place over that of its label where that stands, else among the others.
fn put_anew(
    order: &Order,
    places: &mut Vec<PlaceWrites>,
    rows: &mut KeyRows,
    near: usize,
    place: PlaceWrites,
    stands: Option<usize>,
)
    requires indexed { IsIndexed places.old.items rows.old.items }
    requires rising { IsRising order.now.labels (map label_of places.old.items) }
    requires label { Contains order.now.labels place.label }
    requires stands { stands ≡ position (λ p. nat_eq (label_of p) place.label) places.old.items }
    requires within { IfSome stands (λ at. at < vec_len places.old) }
    requires writes { IsOrdered write_place place.writes }
    requires room { vec_len places.old < vec_capacity places.old }
    requires spare { (t k : List ℕ) → is_written t k place.writes ≡ true → 0 < spare_in rows.old.items t k }
    ensures places { places.new.items ≡ with_place order.now.labels place (without place.label places.old.items) }
    ensures rising { IsRising order.now.labels (map label_of places.new.items) }
    ensures indexed { IsIndexed places.new.items rows.new.items }
    ensures spare { (t k : List ℕ) → spare_in rows.old.items t k
        ≤ spare_in rows.new.items t k + (if is_written t k place.writes then 1 else 0) }
    ensures rows { KeepsRows rows.old.items rows.new.items }
    ensures len { vec_len places.new ≤ vec_len places.old + 1 }
    ensures capacity { vec_capacity places.old ≤ vec_capacity places.new }
{
    match stands {
        Some(at) => put_over(order, places, rows, near, place, at),
        None => put_in(order, places, rows, near, place),
    }
}

/// Puts in a place instead of that of its label, which stands there, if it does. Where both wrote the same keys, nothing
/// moves.
pub(crate) fn put_instead(
    order: &Order,
    places: &mut Vec<PlaceWrites>,
    rows: &mut KeyRows,
    near: usize,
    place: PlaceWrites,
    stands: Option<usize>,
)
    requires indexed { IsIndexed places.old.items rows.old.items }
    requires rising { IsRising order.now.labels (map label_of places.old.items) }
    requires label { Contains order.now.labels place.label }
    requires stands { stands ≡ position (λ p. nat_eq (label_of p) place.label) places.old.items }
    requires writes { IsOrdered write_place place.writes }
    requires room { vec_len places.old < vec_capacity places.old }
    requires spare { (t k : List ℕ) → is_written t k place.writes ≡ true → 0 < spare_in rows.old.items t k }
    ensures places { places.new.items ≡ with_place order.now.labels place (without place.label places.old.items) }
    ensures rising { IsRising order.now.labels (map label_of places.new.items) }
    ensures indexed { IsIndexed places.new.items rows.new.items }
    ensures spare { (t k : List ℕ) → spare_in rows.old.items t k
        ≤ spare_in rows.new.items t k + (if is_written t k place.writes then 1 else 0) }
    ensures rows { KeepsRows rows.old.items rows.new.items }
    ensures len { vec_len places.new ≤ vec_len places.old + 1 }
    ensures capacity { vec_capacity places.old ≤ vec_capacity places.new }
{
    match stands_alike(places, stands, &place.writes) {
        Some(at) => places[at] = place,
        None => put_anew(order, places, rows, near, place, stands),
    }
}
