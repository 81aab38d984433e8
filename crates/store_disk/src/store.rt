// A store's file that is written to.
ghost use Rattle.std.specs.Prelude.{◌≡◌, ◌+◌, ◌<◌, ◌≤◌, ◌^◌, ◌++◌, Err, IsTrue, OnOk, List, ℕ, false, length};
ghost use Rattle.store_lines.specs.Lines.{recovered, encode, IsBetween};
ghost use Rattle.store_lines.specs.Readings.{IsBatch, IsReadAs, trusted};
ghost use Rattle.store_lines.specs.Seals.{ArePieces, spelled_from};
ghost use Rattle.store_lines.specs.declared.piece.Piece.{Piece};
ghost use Rattle.store_disk.specs.State.{IsAtRest, IsLeftAs, IsLeftWith, IsNextBatch, RoseIfIo};
ghost use Rattle.store_disk.specs.declared.fault.Fault.{Fault};

use crate::fault::Fault;
use crate::pieces::zeros;
use sqlite_disk::Disk;
use std::alloc::Global;
use store_lines::Batch;

/// A file of lines that may be written to.
#[derive(Drop)]
pub struct Store<D: Disk> {
    pub disk: D,
    /// How many bytes its lines take.
    pub used: usize,
    /// How long the file is.
    pub len: usize,
}

impl<D: Disk> Store<D> {
    /// Appends the lines, where the file has room for them: one write and one sync. Refused but for room, the store has to be
    /// opened again; whatever a crash leaves then has the lines from before and the first few of these, and tells of no more.
    pub fn append(&mut self, batch: &Batch) -> Result<(), Fault>
        requires usable { IsTrue (D.is_usable self.old.disk) }
        requires at_rest { IsTrue (D.is_clean self.old.disk) → IsAtRest D.seen D.may_leave self.old }
        ensures usable { OnOk result (IsTrue (D.is_usable self.new.disk)) }
        ensures clean { D.is_clean self.new.disk ≡ D.is_clean self.old.disk }
        ensures appended { OnOk result (IsTrue (D.is_clean self.old.disk) → IsAtRest D.seen D.may_leave self.new
            × (recovered (D.seen self.new.disk) ≡ recovered (D.seen self.old.disk) ++ batch.now)) }
        ensures sizes { OnOk result ((self.new.len ≡ self.old.len) × (self.new.used ≡ self.old.used + length (encode batch.now))) }
        ensures crash { IsTrue (D.is_clean self.old.disk) → (c : List ℕ) → D.may_leave self.new.disk c
            → IsBetween (recovered (D.seen self.old.disk)) batch.now (recovered c) }
        ensures read { OnOk result (IsTrue (D.is_clean self.old.disk) → (pieces more : List Piece) → IsReadAs pieces (D.seen self.old.disk)
            → IsNextBatch self.old.len pieces more batch.now → IsReadAs (pieces ++ more) (D.seen self.new.disk)) }
        ensures told { IsTrue (D.is_clean self.old.disk) → (pieces more : List Piece) → IsReadAs pieces (D.seen self.old.disk)
            → IsNextBatch self.old.len pieces more batch.now → IsLeftWith pieces more (D.may_leave self.new.disk) }
        ensures memory { result ≡ Err Fault.NoMemory → ⊥ }
        ensures io { RoseIfIo result (D.faults self.old.disk) (D.faults self.new.disk) }
        ensures unfailed { OnOk result (D.faults self.new.disk ≡ D.faults self.old.disk) }
        ensures unsupported { result ≡ Err Fault.Unsupported → D.is_mixing self.old.disk ≡ false }
        ensures full { self.old.used + length (encode batch.now) < self.old.len → result ≡ Err Fault.Full → ⊥ }
    {
        let bytes = batch.bytes();
        if bytes.is_empty() {
            return Ok(());
        }
        if bytes.len() >= self.len.saturating_sub(self.used) {
            return Err(Fault::Full);
        }
        if !self.disk.mixes() {
            return Err(Fault::Unsupported);
        }
        self.disk.write_at(self.used, bytes)?;
        self.disk.sync()?;
        self.used += bytes.len();
        Ok(())
    }

    /// Makes room for so many bytes more: one write and one sync. Refused, the store has to be opened again; whatever a crash
    /// leaves then has the same lines, and tells of no more.
    pub fn grow(&mut self, alloc: Global, by: usize) -> Result<(), Fault>
        requires some { 0 < by }
        requires usable { IsTrue (D.is_usable self.old.disk) }
        requires at_rest { IsTrue (D.is_clean self.old.disk) → IsAtRest D.seen D.may_leave self.old }
        ensures usable { OnOk result (IsTrue (D.is_usable self.new.disk)) }
        ensures clean { D.is_clean self.new.disk ≡ D.is_clean self.old.disk }
        ensures grown { OnOk result (IsTrue (D.is_clean self.old.disk) → IsAtRest D.seen D.may_leave self.new
            × (recovered (D.seen self.new.disk) ≡ recovered (D.seen self.old.disk))) }
        ensures sizes { OnOk result ((self.new.len ≡ self.old.len + by) × (self.new.used ≡ self.old.used)) }
        ensures crash { IsTrue (D.is_clean self.old.disk) → (c : List ℕ) → D.may_leave self.new.disk c
            → recovered c ≡ recovered (D.seen self.old.disk) }
        ensures read { OnOk result (IsTrue (D.is_clean self.old.disk) → (pieces : List Piece) → recovered (D.seen self.old.disk) ≡ spelled_from 0 pieces
            → trusted pieces ≤ self.new.len → IsReadAs pieces (D.seen self.new.disk)) }
        ensures told { IsTrue (D.is_clean self.old.disk) → (pieces : List Piece) → IsReadAs pieces (D.seen self.old.disk)
            → IsLeftAs pieces (D.may_leave self.new.disk) }
        ensures memory { result ≡ Err Fault.NoMemory → self.new ≡ self.old }
        ensures io { RoseIfIo result (D.faults self.old.disk) (D.faults self.new.disk) }
        ensures unfailed { OnOk result (D.faults self.new.disk ≡ D.faults self.old.disk) }
        ensures full { result ≡ Err Fault.Full → 2 ^ 64 ≤ self.old.len + by }
        ensures unsupported { result ≡ Err Fault.Unsupported → ⊥ }
    {
        if by > usize::MAX - self.len {
            return Err(Fault::Full);
        }
        let zeros = zeros(alloc, by)?;
        self.disk.write_at(self.len, &zeros)?;
        self.disk.sync()?;
        self.len += by;
        Ok(())
    }
}
