// Rows of labels, each of which is found by its key in a few steps, however many there are.
ghost use Rattle.std.specs.Prelude.{◌≡◌, ◌<◌, ◌≤◌, [], true, false, length, insert, slice_index_or, IfOk, OnOk, OnErr, vec_len, vec_capacity};
ghost use Rattle.std.specs.List.{concat, AllByRecursion};
ghost use Rattle.std.specs.List.Sorted.{IsPartitionedBy, IsPartitionPoint};
ghost use Rattle.std.specs.Result.{MatchResult};
ghost use Rattle.std.specs.Ordering.{is_eq, is_gt};
ghost use Rattle.lang_core.specs.Places.{IsOrdered, IsRank, place_of, place_order, rank, is_taken};
ghost use Rattle.key_labels.specs.KeyRows.{in_order, is_slot_below, IsArranged, IsSought, IsSlotOf, IsFreeAt};
ghost use Rattle.key_labels.specs.Rows.{row_place};
ghost use Rattle.number_blocks.specs.Blocks.{begins};

use crate::hints::{hinted, note_new, stands_in};
use crate::rows::KeyLabels;
use lang_core::{NoMemory, Text, order_of};
use lang_lists::count_front;
use number_blocks::{Block, Blocks};
use std::alloc::Global;
use std::cmp::Ordering;
use std::marker::Model;

/// The last number of a slot, so that each is a number of 32 bits and is none that says that no slot is meant.
const MOST_NUMBER: usize = 4_294_967_294;

/// Rows of labels, which contracts see as a list. Callers keep it in the order of table and key.
///
/// A row stays in the slot in which it came, so that a key that is new moves the numbers of a block of the order alone, and
/// so that what names a slot names the same row for ever.
pub struct KeyRows {
    // In the order in which they came. None ever goes.
    pub(crate) slots: Vec<KeyLabels>,
    // The numbers of the slots in the order of the list.
    pub(crate) order: Blocks,
    // Numbers of slots by hash, on which nothing rests.
    pub(crate) hints: Vec<u32>,
    // The place in the order at which the newest row was put, on which nothing rests.
    pub(crate) newest: usize,
}

impl Drop for KeyRows {
    fn drop(self) {
        let Self {
            slots: _,
            order: _,
            hints: _,
            newest: _,
        } = self;
    }
}

impl Model for KeyRows {
    ghost use Rattle.std.specs.Prelude.{length};
    ghost use Rattle.key_labels.specs.KeyRows.{KeptRows, in_order, IsArranged};

    ghost Value = { KeptRows };

    ghost view = { λ r. record { items = in_order r.order.items r.slots.items } };

    ghost invariant = { λ r. IsArranged (length r.slots.items) r.order.items };
}

impl KeyRows {
    /// No rows.
    pub fn new(alloc: Global) -> KeyRows
        ensures { result.items ≡ [] }
    {
        KeyRows {
            slots: Vec::new(alloc),
            order: Blocks::new(alloc),
            hints: Vec::new(alloc),
            newest: 0,
        }
    }

    /// How many rows there are.
    pub fn len(&self) -> usize
        ensures { result ≡ length self.now.items }
    {
        self.order.len()
    }

    /// The row at a place of the list, counted from 0.
    pub fn at(&self, place: usize) -> &KeyLabels
        requires { place < length self.now.items }
        ensures { result.now ≡ slice_index_or self.now.items place result.now }
    {
        row_at(&self.slots, &self.order, place)
    }

    /// How many rows stand before the place of a key, found by halves.
    pub fn rank(&self, table: &Text, key: &Text) -> usize
        requires { IsOrdered row_place self.now.items }
        ensures rank { result ≡ rank row_place (place_of table.now key.now) self.now.items }
        ensures within { result ≤ length self.now.items }
    {
        rank_in(&self.slots, &self.order, table, key.as_bytes()).0
    }
}

pub(crate) fn row_at<'a>(slots: &'a Vec<KeyLabels>, order: &Blocks, place: usize) -> &'a KeyLabels
    requires arranged { IsArranged (length slots.now.items) order.now.items }
    requires place { place < length order.now.items }
    ensures { result.now ≡ slice_index_or (in_order order.now.items slots.now.items) place result.now }
{
    &slots[order.at(place) as usize]
}

// Whether a row stands before the place of a key with these bytes.
fn is_below(row: &KeyLabels, table: &Text, key: &[u8]) -> bool
    ensures { result ≡ is_gt (place_order (place_of table.now key.now) (row_place row.now)) }
{
    order_of(row, table, key).is_gt()
}

fn is_at(row: &KeyLabels, table: &Text, key: &[u8]) -> bool
    ensures { result ≡ is_eq (place_order (place_of table.now key.now) (row_place row.now)) }
{
    order_of(row, table, key).is_eq()
}

fn is_slot_below(slots: &Vec<KeyLabels>, slot: u32, table: &Text, key: &[u8]) -> bool
    requires { slot < length slots.now.items }
    ensures { result ≡ is_slot_below (place_of table.now key.now) slots.now.items slot }
{
    is_below(&slots[slot as usize], table, key)
}

fn is_block_below(slots: &Vec<KeyLabels>, block: &Block, table: &Text, key: &[u8]) -> bool
    requires some { 0 < length block.now }
    requires slots { AllByRecursion (λ slot. slot < length slots.now.items) block.now }
    ensures { result ≡ begins (is_slot_below (place_of table.now key.now) slots.now.items) block.now }
{
    is_slot_below(slots, block.first(), table, key)
}

// How many blocks begin before the place of a key with these bytes, found by halves.
fn count_blocks(slots: &Vec<KeyLabels>, blocks: &[Block], table: &Text, key: &[u8]) -> usize
    requires some { AllByRecursion (λ block. 0 < length block) blocks.now }
    requires slots { AllByRecursion (λ slot. slot < length slots.now.items) (concat blocks.now) }
    requires parted { IsPartitionedBy (is_slot_below (place_of table.now key.now) slots.now.items) (concat blocks.now) }
    ensures within { result ≤ length blocks.now }
    ensures point { IsPartitionPoint (λ block. begins (is_slot_below (place_of table.now key.now) slots.now.items) block ≡ true)
        (λ block. begins (is_slot_below (place_of table.now key.now) slots.now.items) block ≡ false) blocks.now result }
{
    count_front(
        blocks,
        |block: &Block|
            requires some { 0 < length block.now }
            requires slots { AllByRecursion (λ slot. slot < length slots.now.items) block.now }
        { is_block_below(slots, block, table, key) },
    )
}

// How many of a block stand before the place of a key with these bytes, found by halves.
fn count_slots(slots: &Vec<KeyLabels>, block: &Block, table: &Text, key: &[u8]) -> usize
    requires slots { AllByRecursion (λ slot. slot < length slots.now.items) block.now }
    requires parted { IsPartitionedBy (is_slot_below (place_of table.now key.now) slots.now.items) block.now }
    ensures within { result ≤ length block.now }
    ensures point { IsPartitionPoint (λ slot. is_slot_below (place_of table.now key.now) slots.now.items slot ≡ true)
        (λ slot. is_slot_below (place_of table.now key.now) slots.now.items slot ≡ false) block.now result }
{
    count_front(
        block.as_slice(),
        |slot: &u32|
            requires { slot.now < length slots.now.items }
        { is_slot_below(slots, *slot, table, key) },
    )
}

// How many rows stand before the place of a key with these bytes: in the last block that begins before it, and before this block.
fn count_below(slots: &Vec<KeyLabels>, order: &Blocks, table: &Text, key: &[u8]) -> usize
    requires arranged { IsArranged (length slots.now.items) order.now.items }
    requires ordered { IsOrdered row_place (in_order order.now.items slots.now.items) }
    ensures rank { result ≡ rank row_place (place_of table.now key.now) (in_order order.now.items slots.now.items) }
    ensures within { result ≤ length order.now.items }
{
    let blocks = order.as_slice();
    let before = count_blocks(slots, blocks, table, key);
    if before == 0 {
        return 0;
    }
    let block = before - 1;
    order.start(block) + count_slots(slots, &blocks[block], table, key)
}

/// How many rows stand before the place of a key with these bytes, in their order, and whether a row stands at the key.
pub(crate) fn rank_in(
    slots: &Vec<KeyLabels>,
    order: &Blocks,
    table: &Text,
    key: &[u8],
) -> (usize, bool)
    requires arranged { IsArranged (length slots.now.items) order.now.items }
    requires ordered { IsOrdered row_place (in_order order.now.items slots.now.items) }
    ensures rank { result.0 ≡ rank row_place (place_of table.now key.now) (in_order order.now.items slots.now.items) }
    ensures taken { result.1 ≡ is_taken row_place (place_of table.now key.now) (in_order order.now.items slots.now.items) }
    ensures within { IsRank result.0 result.1 (length order.now.items) }
{
    let at = count_below(slots, order, table, key);
    if at == order.len() {
        return (at, false);
    }
    (at, is_at(row_at(slots, order, at), table, key))
}

// What `rank_in` tells, where all rows before a place stand before the key. The row there is compared before any behind it.
fn rank_from(
    slots: &Vec<KeyLabels>,
    order: &Blocks,
    place: usize,
    table: &Text,
    key: &[u8],
) -> (usize, bool)
    requires arranged { IsArranged (length slots.now.items) order.now.items }
    requires ordered { IsOrdered row_place (in_order order.now.items slots.now.items) }
    requires within { place ≤ length order.now.items }
    requires sought { IsSought (place_of table.now key.now) (in_order order.now.items slots.now.items) place (length order.now.items) }
    ensures rank { result.0 ≡ rank row_place (place_of table.now key.now) (in_order order.now.items slots.now.items) }
    ensures taken { result.1 ≡ is_taken row_place (place_of table.now key.now) (in_order order.now.items slots.now.items) }
    ensures within { IsRank result.0 result.1 (length order.now.items) }
{
    let end = order.len();
    if place == end {
        return (place, false);
    }
    match order_of(row_at(slots, order, place), table, key) {
        Ordering::Less => (place, false),
        Ordering::Equal => (place, true),
        Ordering::Greater => rank_in(slots, order, table, key),
    }
}

// What `rank_in` tells, where all rows from a place on stand behind the key. The row before it is compared first.
fn rank_to(
    slots: &Vec<KeyLabels>,
    order: &Blocks,
    place: usize,
    table: &Text,
    key: &[u8],
) -> (usize, bool)
    requires arranged { IsArranged (length slots.now.items) order.now.items }
    requires ordered { IsOrdered row_place (in_order order.now.items slots.now.items) }
    requires within { place ≤ length order.now.items }
    requires sought { IsSought (place_of table.now key.now) (in_order order.now.items slots.now.items) 0 place }
    ensures rank { result.0 ≡ rank row_place (place_of table.now key.now) (in_order order.now.items slots.now.items) }
    ensures taken { result.1 ≡ is_taken row_place (place_of table.now key.now) (in_order order.now.items slots.now.items) }
    ensures within { IsRank result.0 result.1 (length order.now.items) }
{
    if place == 0 {
        return (0, false);
    }
    match order_of(row_at(slots, order, place - 1), table, key) {
        Ordering::Less => rank_in(slots, order, table, key),
        Ordering::Equal => (place - 1, true),
        Ordering::Greater => (place, false),
    }
}

// What `rank_in` tells. The row at a place, which may be any, is compared first, and then the one beside it: keys are often made in
// order, so that a new one stands right behind the one before it, or right before it.
fn rank_near(
    slots: &Vec<KeyLabels>,
    order: &Blocks,
    place: usize,
    table: &Text,
    key: &[u8],
) -> (usize, bool)
    requires arranged { IsArranged (length slots.now.items) order.now.items }
    requires ordered { IsOrdered row_place (in_order order.now.items slots.now.items) }
    ensures rank { result.0 ≡ rank row_place (place_of table.now key.now) (in_order order.now.items slots.now.items) }
    ensures taken { result.1 ≡ is_taken row_place (place_of table.now key.now) (in_order order.now.items slots.now.items) }
    ensures within { IsRank result.0 result.1 (length order.now.items) }
{
    if place >= order.len() {
        return rank_in(slots, order, table, key);
    }
    match order_of(row_at(slots, order, place), table, key) {
        Ordering::Less => rank_to(slots, order, place, table, key),
        Ordering::Equal => (place, true),
        Ordering::Greater => rank_from(slots, order, place + 1, table, key),
    }
}

/// The slot of the row of a key, which is looked for in this one first, then by hints, then beside the newest row and at last by
/// halves; where there is none, its place in the list.
pub(crate) fn slot_in(
    slots: &Vec<KeyLabels>,
    order: &Blocks,
    hints: &Vec<u32>,
    newest: usize,
    near: usize,
    table: &Text,
    key: &Text,
) -> Result<usize, usize>
    requires arranged { IsArranged (length slots.now.items) order.now.items }
    requires ordered { IsOrdered row_place (in_order order.now.items slots.now.items) }
    ensures { MatchResult result (IsSlotOf (place_of table.now key.now) slots.now.items)
        (IsFreeAt (place_of table.now key.now) (in_order order.now.items slots.now.items)) }
{
    if stands_in(slots, near, table, key) {
        return Ok(near);
    }
    if let Some(slot) = hinted(slots, hints, table, key) {
        return Ok(slot);
    }
    let (at, taken) = rank_near(slots, order, newest, table, key.as_bytes());
    if taken {
        Ok(order.at(at) as usize)
    } else {
        Err(at)
    }
}

/// Makes room for the slot of one row more, and tells its number.
pub(crate) fn ready_slot(slots: &mut Vec<KeyLabels>) -> Result<u32, NoMemory>
    ensures slots { slots.new.items ≡ slots.old.items }
    ensures number { IfOk result (λ n. n ≡ length slots.old.items) }
    ensures room { OnOk result (vec_len slots.new < vec_capacity slots.new) }
{
    if slots.len() > MOST_NUMBER {
        return Err(NoMemory);
    }
    slots.reserve(1)?;
    Ok(slots.len() as u32)
}

/// Puts in a row, for whose slot there is room, at its place of the list. Refused, no row comes.
pub(crate) fn put_new(
    alloc: Global,
    slots: &mut Vec<KeyLabels>,
    order: &mut Blocks,
    hints: &mut Vec<u32>,
    newest: &mut usize,
    at: usize,
    number: u32,
    row: KeyLabels,
) -> Result<(), NoMemory>
    requires arranged { IsArranged (length slots.old.items) order.old.items }
    requires within { at ≤ length order.old.items }
    requires number { number ≡ length slots.old.items }
    requires room { vec_len slots.old < vec_capacity slots.old }
    ensures arranged { IsArranged (length slots.new.items) order.new.items }
    ensures ok { OnOk result (in_order order.new.items slots.new.items ≡ insert (in_order order.old.items slots.old.items) at row) }
    ensures err { OnErr result (in_order order.new.items slots.new.items ≡ in_order order.old.items slots.old.items) }
{
    order.insert(alloc, at, number)?;
    slots.push_reserved(row);
    note_new(slots, hints, number);
    *newest = at;
    Ok(())
}
