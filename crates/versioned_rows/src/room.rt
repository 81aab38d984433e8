// Room for writes to come: a place in the list of places, a place for a label in the row of each key, and a copy.
ghost use Rattle.std.specs.Prelude.{ℕ, List, ◌≡◌, ◌↔◌, ◌+◌, ◌≤◌, [], ◌∷◌, ◌++◌, Some, None, true, IsTrue, IsSome, IfSome, IfOk, OnOk, OnErr, IsOk, position, vec_len, vec_capacity, if◌then◌else◌};
ghost use Rattle.lang_base.specs.Equal.{equal};
ghost use Rattle.lang_lists.specs.Room.{is_made, spend};
ghost use Rattle.lang_core.specs.Places.{IsOrdered};
ghost use Rattle.lang_core.specs.declared.writes.Write.{Write};
ghost use Rattle.versioned_rows.specs.Places.{is_written};
ghost use Rattle.key_labels.specs.Rows.{row_place, labels_in, spare_in, KeepsRows};
ghost use Rattle.versioned_rows.specs.Versions.{asked, call_code, write_call, IsCovered};
ghost use Rattle.key_labels.specs.declared.rows.KeyLabels.{KeyLabels};

use crate::places::PlaceWrites;
use crate::rows::make_rows;
use key_labels::KeyRows;
use lang_core::{Copied, NoMemory, Same, SharedWrites};
use lang_lists::take_room;
use std::alloc::Global;

/// A call of versions that grows them, with the copy that it needs. Room for it is such a call in advance.
#[derive(Drop)]
pub enum VersionsCall {
    /// The writes of a place, whichever it is.
    WriteAt { writes: SharedWrites },
}

fn is_write(call: &VersionsCall, writes: &SharedWrites) -> bool
    ensures { IsTrue result ↔ (write_call writes.now ≡ call.now) }
{
    match call {
        VersionsCall::WriteAt { writes: own } => own.is(writes),
    }
}

fn passes(call: &VersionsCall, writes: &SharedWrites) -> bool
    ensures { result ≡ equal call_code (write_call writes.now) call.now }
{
    is_write(call, writes)
}

fn room_place(room: &[VersionsCall], writes: &SharedWrites) -> Option<usize>
    ensures { result ≡ position (equal call_code (write_call writes.now)) room.now }
{
    room.iter().position(|call| passes(call, writes))
}

fn writes_of(call: VersionsCall) -> Option<SharedWrites>
    ensures { (writes : List Write) → call ≡ write_call writes → result ≡ Some writes }
{
    match call {
        VersionsCall::WriteAt { writes } => Some(writes),
    }
}

// Takes the copy out that was made for these writes. Where none was, all room goes.
fn spend_room(room: &mut Vec<VersionsCall>, writes: &SharedWrites) -> Option<SharedWrites>
    ensures room { room.new.items ≡ spend call_code (write_call writes.now) room.old.items }
    ensures made { IsSome result ↔ IsTrue (is_made call_code (write_call writes.now) room.old.items) }
    ensures copy { IfSome result (λ copy. copy ≡ writes.now) }
    ensures less { IfSome result (λ _. vec_len room.new + 1 ≡ vec_len room.old) }
    ensures asked { IfSome result (λ _. (t k : List ℕ) → asked t k room.new.items + (if is_written t k writes.now then 1 else 0) ≡ asked t k room.old.items) }
    ensures covered { (rows : List KeyLabels) → IsCovered room.old.items rows → IsCovered room.new.items rows }
    ensures none { result ≡ None → room.new.items ≡ [] }
{
    match room_place(room, writes) {
        Some(place) => writes_of(take_room(room, place)),
        None => {
            room.clear();
            None
        }
    }
}

// A copy of these writes, and places for so many more of them.
fn new_writes(
    alloc: Global,
    places: &mut Vec<PlaceWrites>,
    rows: &mut KeyRows,
    near: &mut usize,
    writes: &SharedWrites,
    more: usize,
) -> Result<SharedWrites, NoMemory>
    requires { IsOrdered row_place rows.old.items }
    ensures items { places.new.items ≡ places.old.items }
    ensures len { vec_len places.new ≡ vec_len places.old }
    ensures capacity { vec_capacity places.old ≤ vec_capacity places.new }
    ensures place { OnOk result (vec_len places.new + more ≤ vec_capacity places.new) }
    ensures ordered { IsOrdered row_place rows.new.items }
    ensures each { (t k : List ℕ) → labels_in rows.new.items t k ≡ labels_in rows.old.items t k }
    ensures kept { (t k : List ℕ) → spare_in rows.old.items t k ≤ spare_in rows.new.items t k }
    ensures rows { KeepsRows rows.old.items rows.new.items }
    ensures spare { OnOk result ((t k : List ℕ) → is_written t k writes.now ≡ true → more ≤ spare_in rows.new.items t k) }
    ensures copy { IfOk result (λ copy. copy ≡ writes.now) }
{
    places.reserve(more)?;
    make_rows(alloc, rows, near, writes.as_slice(), more)?;
    writes.copied(alloc)
}

/// Makes room for these writes.
pub(crate) fn ready_writes(
    alloc: Global,
    places: &mut Vec<PlaceWrites>,
    rows: &mut KeyRows,
    near: &mut usize,
    room: &mut Vec<VersionsCall>,
    writes: &SharedWrites,
) -> Result<(), NoMemory>
    requires ordered { IsOrdered row_place rows.old.items }
    requires places { vec_len places.old + vec_len room.old ≤ vec_capacity places.old }
    requires covered { IsCovered room.old.items rows.old.items }
    ensures items { places.new.items ≡ places.old.items }
    ensures ordered { IsOrdered row_place rows.new.items }
    ensures each { (t k : List ℕ) → labels_in rows.new.items t k ≡ labels_in rows.old.items t k }
    ensures rows { KeepsRows rows.old.items rows.new.items }
    ensures ok { OnOk result (room.new.items ≡ room.old.items ++ write_call writes.now ∷ []) }
    ensures err { OnErr result (room.new.items ≡ room.old.items) }
    ensures places { vec_len places.new + vec_len room.new ≤ vec_capacity places.new }
    ensures covered { IsCovered room.new.items rows.new.items }
{
    room.reserve(1)?;
    let writes = new_writes(alloc, places, rows, near, writes, room.len() + 1)?;
    room.push_reserved(VersionsCall::WriteAt { writes });
    Ok(())
}

/// A copy of these writes with its places: those of the room that was made for them, or new ones.
pub(crate) fn take_writes(
    alloc: Global,
    places: &mut Vec<PlaceWrites>,
    rows: &mut KeyRows,
    near: &mut usize,
    room: &mut Vec<VersionsCall>,
    writes: &SharedWrites,
) -> Result<SharedWrites, NoMemory>
    requires ordered { IsOrdered row_place rows.old.items }
    requires places { vec_len places.old + vec_len room.old ≤ vec_capacity places.old }
    requires covered { IsCovered room.old.items rows.old.items }
    ensures items { places.new.items ≡ places.old.items }
    ensures ordered { IsOrdered row_place rows.new.items }
    ensures each { (t k : List ℕ) → labels_in rows.new.items t k ≡ labels_in rows.old.items t k }
    ensures rows { KeepsRows rows.old.items rows.new.items }
    ensures copy { IfOk result (λ copy. copy ≡ writes.now) }
    ensures room { room.new.items ≡ spend call_code (write_call writes.now) room.old.items }
    ensures ready { IsTrue (is_made call_code (write_call writes.now) room.old.items) → IsOk result }
    ensures place { OnOk result (vec_len places.new + vec_len room.new + 1 ≤ vec_capacity places.new) }
    ensures spare { OnOk result ((t k : List ℕ) → asked t k room.new.items + (if is_written t k writes.now then 1 else 0) ≤ spare_in rows.new.items t k) }
    ensures places { vec_len places.new + vec_len room.new ≤ vec_capacity places.new }
    ensures covered { IsCovered room.new.items rows.new.items }
{
    match spend_room(room, writes) {
        Some(copy) => Ok(copy),
        None => new_writes(alloc, places, rows, near, writes, 1),
    }
}
