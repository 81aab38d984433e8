// Room for reads to come: a place in the list of labels, a place for a label in the row of each read, and a copy.
ghost use Rattle.std.specs.Prelude.{ℕ, List, ◌≡◌, ◌↔◌, ◌+◌, ◌≤◌, [], ◌∷◌, ◌++◌, None, true, map, IsTrue, IsSome, IfSome, IfOk, OnOk, OnErr, IsOk, position, vec_len, vec_capacity, if◌then◌else◌};
ghost use Rattle.std.specs.List.{list_any};
ghost use Rattle.lang_base.specs.Equal.{equal};
ghost use Rattle.lang_lists.specs.Room.{is_made, spend};
ghost use Rattle.dependency_index.specs.Index.{asked, call_code, note_call, IsCovered};
ghost use Rattle.dependency_index.specs.Reads.{read_at, is_at};
ghost use Rattle.dependency_index.specs.Rows.{AreOrdered, labels_by, spare_by};
ghost use Rattle.dependency_index.specs.declared.reads.ReadKind.{ReadKind};

use crate::noted::Noted;
use crate::reads::{ReadsAt, are_read, places_read};
use crate::rows::{ReadRows, make_rows};
use lang_core::{NoMemory, Reads};
use lang_lists::take_room;
use std::alloc::Global;

/// A call of an index that grows it, with the copy that it needs. Room for it is such a call in advance.
#[derive(Drop)]
pub enum IndexCall {
    /// Reads that looked here, of whichever label.
    NoteReads { reads: ReadsAt },
}

fn is_note(call: &IndexCall, reads: &Reads) -> bool
    ensures { IsTrue result ↔ (note_call reads.now ≡ call.now) }
{
    match call {
        IndexCall::NoteReads { reads: own } => are_read(own.as_slice(), reads.as_slice()),
    }
}

fn passes(call: &IndexCall, reads: &Reads) -> bool
    ensures { result ≡ equal call_code (note_call reads.now) call.now }
{
    is_note(call, reads)
}

fn room_place(room: &[IndexCall], reads: &Reads) -> Option<usize>
    ensures { result ≡ position (equal call_code (note_call reads.now)) room.now }
{
    room.iter().position(|call| passes(call, reads))
}

fn reads_of(call: IndexCall) -> ReadsAt
    ensures { call ≡ IndexCall.NoteReads result }
{
    match call {
        IndexCall::NoteReads { reads } => reads,
    }
}

// Takes the copy out that was made for these reads. Where none was, all room goes.
fn spend_room(room: &mut Vec<IndexCall>, reads: &Reads) -> Option<ReadsAt>
    ensures room { room.new.items ≡ spend call_code (note_call reads.now) room.old.items }
    ensures made { IsSome result ↔ IsTrue (is_made call_code (note_call reads.now) room.old.items) }
    ensures copy { IfSome result (λ copy. copy ≡ map read_at reads.now) }
    ensures less { IfSome result (λ _. vec_len room.new + 1 ≡ vec_len room.old) }
    ensures asked { IfSome result (λ copy. (kind : ReadKind) (t k : List ℕ) → asked kind t k room.new.items + (if list_any (is_at kind t k) copy then 1 else 0) ≡ asked kind t k room.old.items) }
    ensures none { result ≡ None → room.new.items ≡ [] }
{
    match room_place(room, reads) {
        Some(place) => Some(reads_of(take_room(room, place))),
        None => {
            room.clear();
            None
        }
    }
}

// Where these reads looked, and places for so many more of them.
fn new_reads(
    alloc: Global,
    noted: &mut Vec<Noted>,
    rows: &mut ReadRows,
    reads: &Reads,
    more: usize,
) -> Result<ReadsAt, NoMemory>
    requires { AreOrdered rows.old }
    ensures items { noted.new.items ≡ noted.old.items }
    ensures len { vec_len noted.new ≡ vec_len noted.old }
    ensures capacity { vec_capacity noted.old ≤ vec_capacity noted.new }
    ensures place { OnOk result (vec_len noted.new + more ≤ vec_capacity noted.new) }
    ensures ordered { AreOrdered rows.new }
    ensures each { (kind : ReadKind) (t k : List ℕ) → labels_by rows.new kind t k ≡ labels_by rows.old kind t k }
    ensures kept { (kind : ReadKind) (t k : List ℕ) → spare_by rows.old kind t k ≤ spare_by rows.new kind t k }
    ensures spare { IfOk result (λ copy. (kind : ReadKind) (t k : List ℕ) → list_any (is_at kind t k) copy ≡ true → more ≤ spare_by rows.new kind t k) }
    ensures copy { IfOk result (λ copy. copy ≡ map read_at reads.now) }
{
    noted.reserve(more)?;
    let copy = places_read(alloc, reads.as_slice())?;
    make_rows(alloc, rows, copy.as_slice(), more)?;
    Ok(copy)
}

/// Makes room for these reads.
pub(crate) fn ready_reads(
    alloc: Global,
    noted: &mut Vec<Noted>,
    rows: &mut ReadRows,
    room: &mut Vec<IndexCall>,
    reads: &Reads,
) -> Result<(), NoMemory>
    requires ordered { AreOrdered rows.old }
    requires places { vec_len noted.old + vec_len room.old ≤ vec_capacity noted.old }
    requires covered { IsCovered room.old.items rows.old }
    ensures items { noted.new.items ≡ noted.old.items }
    ensures ordered { AreOrdered rows.new }
    ensures each { (kind : ReadKind) (t k : List ℕ) → labels_by rows.new kind t k ≡ labels_by rows.old kind t k }
    ensures ok { OnOk result (room.new.items ≡ room.old.items ++ note_call reads.now ∷ []) }
    ensures err { OnErr result (room.new.items ≡ room.old.items) }
    ensures places { vec_len noted.new + vec_len room.new ≤ vec_capacity noted.new }
    ensures covered { IsCovered room.new.items rows.new }
{
    room.reserve(1)?;
    let reads = new_reads(alloc, noted, rows, reads, room.len() + 1)?;
    room.push_reserved(IndexCall::NoteReads { reads });
    Ok(())
}

/// Where these reads looked, with the places for them: those of the room that was made, or new ones.
pub(crate) fn take_reads(
    alloc: Global,
    noted: &mut Vec<Noted>,
    rows: &mut ReadRows,
    room: &mut Vec<IndexCall>,
    reads: &Reads,
) -> Result<ReadsAt, NoMemory>
    requires ordered { AreOrdered rows.old }
    requires places { vec_len noted.old + vec_len room.old ≤ vec_capacity noted.old }
    requires covered { IsCovered room.old.items rows.old }
    ensures items { noted.new.items ≡ noted.old.items }
    ensures ordered { AreOrdered rows.new }
    ensures each { (kind : ReadKind) (t k : List ℕ) → labels_by rows.new kind t k ≡ labels_by rows.old kind t k }
    ensures copy { IfOk result (λ copy. copy ≡ map read_at reads.now) }
    ensures room { room.new.items ≡ spend call_code (note_call reads.now) room.old.items }
    ensures ready { IsTrue (is_made call_code (note_call reads.now) room.old.items) → IsOk result }
    ensures place { OnOk result (vec_len noted.new + vec_len room.new + 1 ≤ vec_capacity noted.new) }
    ensures spare { IfOk result (λ copy. (kind : ReadKind) (t k : List ℕ) → asked kind t k room.new.items + (if list_any (is_at kind t k) copy then 1 else 0) ≤ spare_by rows.new kind t k) }
    ensures places { vec_len noted.new + vec_len room.new ≤ vec_capacity noted.new }
    ensures covered { IsCovered room.new.items rows.new }
{
    match spend_room(room, reads) {
        Some(copy) => Ok(copy),
        None => new_reads(alloc, noted, rows, reads, 1),
    }
}
