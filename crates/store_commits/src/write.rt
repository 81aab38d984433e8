// What is written to a store: a mark and texts behind it, in a file that has room for them.
ghost use Rattle.std.specs.Prelude.{◌≡◌, ◌+◌, ◌<◌, ◌^◌, ◌∷◌, ◌++◌, [], Err, IfOk, IsTrue, List, OnOk, length, map, true, ℕ};
ghost use Rattle.sqlite_disk.specs.Disk.{MoreFaults};
ghost use Rattle.store_lines.specs.Lines.{recovered, IsBetween};
ghost use Rattle.store_lines.specs.Readings.{IsReadAs, MayLead};
ghost use Rattle.store_lines.specs.Seals.{IsPiece, spelled_from};
ghost use Rattle.store_lines.specs.declared.piece.Piece.{Piece};
ghost use Rattle.store_lines.specs.declared.piece.Piece.TheVariants.{Safe, Text};
ghost use Rattle.store_disk.specs.State.{IsLeftWith};
ghost use Rattle.store_disk.specs.declared.fault.Fault.{Fault};
ghost use Rattle.store_commits.specs.Stands.{Appended, AreWritten, IsLeftWithTexts, IsReady, IsRoomMark, texts_in};
ghost use Rattle.store_commits.specs.declared.unwritten.Unwritten.{Unwritten};

use crate::unwritten::Unwritten;
use sqlite_disk::Disk;
use std::alloc::Global;
use store_disk::{Fault, Store};
use store_lines::{Batch, Line, NotTaken, Piece, put_piece, put_text};

// How many zeros stand ready behind the lines once the file was made longer.
const AHEAD: usize = 1 << 20;

// The room that is left for marks: two of them take less.
const SPARE: usize = 160;

// What a line takes beside its text, or more: its number and its digest, the spaces and its end.
const BESIDE: usize = 40;

// How many bytes the lines of these texts take, or more.
fn bytes_of(texts: &[Line]) -> usize {
    let mut bytes = 0usize;
    for text in texts {
        bytes = bytes
            .saturating_add(text.bytes().len())
            .saturating_add(BESIDE);
    }
    bytes
}

// The lines of a piece and of texts, of which the first has this number.
#[tactic(auto, using(crate::proofs::TextLemmas::lines_more))]
fn lines_of(alloc: Global, at: u64, mark: &Piece, texts: &[Line]) -> Result<Batch, NotTaken>
    requires { at + 1 + length texts.now < 2 ^ 64 }
    ensures { IfOk result (λ batch. batch ≡ spelled_from at (mark.now ∷ map Text texts.now)) }
{
    let mut batch = Batch::new(alloc);
    put_piece(alloc, &mut batch, at, mark)?;
    let mut number = at + 1;
    for text in texts {
        put_text(alloc, &mut batch, number, text)?;
        number += 1;
    }
    Ok(batch)
}

/// Writes a piece and texts behind it, where the file has room for them, and answers how many lines it has then.
pub(crate) fn append_lines<D: Disk>(
    alloc: Global,
    store: &mut Store<D>,
    lines: u64,
    mark: &Piece,
    texts: &[Line],
) -> Result<u64, Unwritten>
    requires ready { IsReady D.is_usable D.is_clean D.seen D.may_leave store.old lines }
    requires mark { MayLead store.old.len mark.now × IsPiece mark.now }
    ensures ready { IfOk result (λ now. IsReady D.is_usable D.is_clean D.seen D.may_leave store.new now) }
    ensures clean { D.is_clean store.new.disk ≡ D.is_clean store.old.disk }
    ensures written { OnOk result (IsTrue (D.is_clean store.old.disk) → Appended lines (D.seen store.old.disk) (D.seen store.new.disk) (mark.now ∷ map Text texts.now)) }
    ensures len { OnOk result (store.new.len ≡ store.old.len) }
    ensures memory { result ≡ Err (Unwritten.Failed Fault.NoMemory) → store.new ≡ store.old }
    ensures io { (e : _) → result ≡ Err (Unwritten.Failed (Fault.Io e)) → MoreFaults (D.faults store.old.disk) (D.faults store.new.disk) }
    ensures unsupported { result ≡ Err (Unwritten.Failed Fault.Unsupported) → ((disk : D) → D.is_mixing disk ≡ true) → ⊥ }
    ensures crash { IsTrue (D.is_clean store.old.disk) → (c : List ℕ) → D.may_leave store.new.disk c
        → IsBetween (recovered (D.seen store.old.disk)) (spelled_from lines (mark.now ∷ map Text texts.now)) (recovered c) }
    ensures told { IsTrue (D.is_clean store.old.disk) → (pieces : List Piece) → IsReadAs pieces (D.seen store.old.disk)
        → IsLeftWith pieces (mark.now ∷ map Text texts.now) (D.may_leave store.new.disk) }
{
    let more = texts.len() as u64;
    if more >= u64::MAX - lines {
        return Err(Unwritten::Failed(Fault::Full));
    }
    let batch = lines_of(alloc, lines, mark, texts)?;
    store.append(&batch)?;
    Ok(lines + 1 + more)
}

// Makes the file longer by so many bytes, and says so in a mark of its own, which stands in what was safe before.
fn lengthen<D: Disk>(
    alloc: Global,
    store: &mut Store<D>,
    lines: u64,
    by: usize,
) -> Result<u64, Unwritten>
    requires some { 0 < by }
    requires ready { IsReady D.is_usable D.is_clean D.seen D.may_leave store.old lines }
    ensures ready { IfOk result (λ now. IsReady D.is_usable D.is_clean D.seen D.may_leave store.new now) }
    ensures clean { D.is_clean store.new.disk ≡ D.is_clean store.old.disk }
    ensures longer { OnOk result (store.old.len < store.new.len) }
    ensures written { OnOk result (IsTrue (D.is_clean store.old.disk) → Appended lines (D.seen store.old.disk) (D.seen store.new.disk) (Safe store.new.len ∷ [])) }
    ensures memory { result ≡ Err (Unwritten.Failed Fault.NoMemory) → store.new ≡ store.old }
    ensures io { (e : _) → result ≡ Err (Unwritten.Failed (Fault.Io e)) → MoreFaults (D.faults store.old.disk) (D.faults store.new.disk) }
    ensures unsupported { result ≡ Err (Unwritten.Failed Fault.Unsupported) → ((disk : D) → D.is_mixing disk ≡ true) → ⊥ }
    ensures crash { IsTrue (D.is_clean store.old.disk) → (c : List ℕ) → D.may_leave store.new.disk c → texts_in c ≡ texts_in (D.seen store.old.disk) }
    ensures told { IsTrue (D.is_clean store.old.disk) → (pieces : List Piece) → IsReadAs pieces (D.seen store.old.disk)
        → IsLeftWithTexts pieces [] (D.may_leave store.new.disk) }
{
    if by > usize::MAX - store.len || lines == u64::MAX {
        return Err(Unwritten::Failed(Fault::Full));
    }
    // Nothing is written before there is memory for the mark too.
    let mark = lines_of(alloc, lines, &Piece::Safe((store.len + by) as u64), &[])?;
    store.grow(alloc, by)?;
    store.append(&mark)?;
    Ok(lines + 1)
}

// Makes room for so many bytes and for marks. There is always room in the file as it was for the mark that tells of more, and one more may begin behind it:
// so whatever line is damaged, a mark behind it begins where the marks before it say that the file is safe.
fn make_room<D: Disk>(
    alloc: Global,
    store: &mut Store<D>,
    lines: u64,
    needed: usize,
) -> Result<u64, Unwritten>
    requires { IsReady D.is_usable D.is_clean D.seen D.may_leave store.old lines }
    ensures ready { IfOk result (λ now. IsReady D.is_usable D.is_clean D.seen D.may_leave store.new now) }
    ensures clean { D.is_clean store.new.disk ≡ D.is_clean store.old.disk }
    ensures made { OnOk result ((marks : List Piece) × IsRoomMark store.old.len store.new.len marks
        × (IsTrue (D.is_clean store.old.disk) → Appended lines (D.seen store.old.disk) (D.seen store.new.disk) marks)) }
    ensures memory { result ≡ Err (Unwritten.Failed Fault.NoMemory) → store.new ≡ store.old }
    ensures io { (e : _) → result ≡ Err (Unwritten.Failed (Fault.Io e)) → MoreFaults (D.faults store.old.disk) (D.faults store.new.disk) }
    ensures unsupported { result ≡ Err (Unwritten.Failed Fault.Unsupported) → ((disk : D) → D.is_mixing disk ≡ true) → ⊥ }
    ensures crash { IsTrue (D.is_clean store.old.disk) → (c : List ℕ) → D.may_leave store.new.disk c → texts_in c ≡ texts_in (D.seen store.old.disk) }
    ensures told { IsTrue (D.is_clean store.old.disk) → (pieces : List Piece) → IsReadAs pieces (D.seen store.old.disk)
        → IsLeftWithTexts pieces [] (D.may_leave store.new.disk) }
{
    let wanted = needed.saturating_add(SPARE);
    if wanted < store.len.saturating_sub(store.used) {
        return Ok(lines);
    }
    let now = lengthen(alloc, store, lines, wanted.saturating_add(AHEAD))?;
    Ok(now)
}

/// Writes texts behind a mark, and makes room for them first where there is too little. `lines` is how many lines the store has.
pub(crate) fn write_texts<D: Disk>(
    alloc: Global,
    store: &mut Store<D>,
    lines: &mut u64,
    texts: &[Line],
) -> Result<(), Unwritten>
    requires { IsReady D.is_usable D.is_clean D.seen D.may_leave store.old lines.old }
    ensures ready { OnOk result (IsReady D.is_usable D.is_clean D.seen D.may_leave store.new lines.new) }
    ensures clean { D.is_clean store.new.disk ≡ D.is_clean store.old.disk }
    ensures written { OnOk result (IsTrue (D.is_clean store.old.disk)
        → AreWritten lines.old store.old.len store.new.len (D.seen store.old.disk) (D.seen store.new.disk) texts.now) }
    ensures texts { OnOk result (IsTrue (D.is_clean store.old.disk) → texts_in (D.seen store.new.disk) ≡ texts_in (D.seen store.old.disk) ++ texts.now) }
    ensures memory { result ≡ Err (Unwritten.Failed Fault.NoMemory) → IsReady D.is_usable D.is_clean D.seen D.may_leave store.new lines.new
        × (IsTrue (D.is_clean store.old.disk) → texts_in (D.seen store.new.disk) ≡ texts_in (D.seen store.old.disk)) }
    ensures io { (e : _) → result ≡ Err (Unwritten.Failed (Fault.Io e)) → 0 < D.faults store.new.disk }
    ensures unsupported { result ≡ Err (Unwritten.Failed Fault.Unsupported) → ((disk : D) → D.is_mixing disk ≡ true) → ⊥ }
    ensures crash { IsTrue (D.is_clean store.old.disk) → (c : List ℕ) → D.may_leave store.new.disk c → IsBetween (texts_in (D.seen store.old.disk)) texts.now (texts_in c) }
    ensures told { IsTrue (D.is_clean store.old.disk) → (pieces : List Piece) → IsReadAs pieces (D.seen store.old.disk)
        → IsLeftWithTexts pieces texts.now (D.may_leave store.new.disk) }
{
    *lines = make_room(alloc, store, *lines, bytes_of(texts))?;
    let mark = Piece::Safe(store.len as u64);
    *lines = append_lines(alloc, store, *lines, &mark, texts)?;
    Ok(())
}
