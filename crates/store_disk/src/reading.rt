// Reading a store's file, line by line.
ghost use Rattle.std.specs.Prelude.{◌≡◌, ◌⊎◌, ◌+◌, ◌<◌, ◌≤◌, ◌++◌, IsTrue, IfErr, IfNone, IfOk, IfSome, List, Err, Ok, None, OnOk, drop, false, length, slice_index, take, true, ℕ};
ghost use Rattle.sqlite_disk.specs.Disk.{Only};
ghost use Rattle.store_lines.specs.Lines.{recovered, IsText};
ghost use Rattle.store_lines.specs.Readings.{IsReadAs, Misses};
ghost use Rattle.store_lines.specs.declared.piece.Piece.{Piece};
ghost use Rattle.store_disk.specs.State.{IsAtRest, IsFound, IsLeftAs, IsNext, IsReading, RoseIfIo, disk_of, place, read_to};

use crate::ahead::{goes_on_broken, has_mark_ahead};
use crate::clearing::clear;
use crate::fault::Fault;
use crate::pieces::{PIECE, read_piece};
use crate::reader::Reader;
use crate::store::Store;
use sqlite_disk::Disk;
use std::alloc::Global;
use store_lines::{Line, end_of};

// How long a file is.
fn length_of<D: Disk>(disk: &mut D) -> Result<usize, Fault>
    requires { IsTrue (D.is_usable disk.old) }
    ensures len { IfOk result (λ n. IsTrue (D.is_clean disk.new) → n ≡ length (D.seen disk.old)) }
    ensures usable { IsTrue (D.is_usable disk.new) }
    ensures clean { IsTrue (D.is_clean disk.new) → IsTrue (D.is_clean disk.old) }
    ensures seen { D.seen disk.new ≡ D.seen disk.old }
    ensures crash { (c : List ℕ) → D.may_leave disk.new c → D.may_leave disk.old c }
    ensures io { RoseIfIo result (D.faults disk.old) (D.faults disk.new) }
{
    Ok(disk.len()?)
}

impl<D: Disk> Reader<D> {
    /// At the begin of a file. Refused, the file is handed back.
    pub fn new(alloc: Global, mut disk: D) -> Result<Reader<D>, (Fault, D)>
        requires { IsTrue (D.is_usable disk) }
        ensures usable { IfOk result (λ reader. IsTrue (D.is_usable (disk_of reader))) }
        ensures clean { IfOk result (λ reader. IsTrue (D.is_clean (disk_of reader)) → IsTrue (D.is_clean disk)) }
        ensures seen { IfOk result (λ reader. D.seen (disk_of reader) ≡ D.seen disk) }
        ensures crash { IfOk result (λ reader. (c : List ℕ) → D.may_leave (disk_of reader) c → D.may_leave disk c) }
        ensures reading { IfOk result (λ reader. IsTrue (D.is_clean (disk_of reader)) → IsReading D.seen reader) }
        ensures place { IfOk result (λ reader. place reader ≡ 0) }
        ensures back { IfErr result (λ e. (D.seen e.1 ≡ D.seen disk) × ((c : List ℕ) → D.may_leave e.1 c → D.may_leave disk c)) }
        ensures io { IfErr result (λ e. RoseIfIo {T = Unit {0}} (Err e.0) (D.faults disk) (D.faults e.1)) }
    {
        match length_of(&mut disk) {
            Ok(len) => Ok(Reader {
                disk,
                len,
                at: 0,
                start: 0,
                piece: Vec::new(alloc),
            }),
            Err(fault) => Err((fault, disk)),
        }
    }

    // Reads the next piece behind what is in memory; false where nothing is left.
    fn more(&mut self, alloc: Global) -> Result<bool, Fault>
        requires { IsTrue (D.is_usable (disk_of self.old)) }
        ensures usable { IsTrue (D.is_usable (disk_of self.new)) }
        ensures clean { IsTrue (D.is_clean (disk_of self.new)) → IsTrue (D.is_clean (disk_of self.old)) }
        ensures seen { D.seen (disk_of self.new) ≡ D.seen (disk_of self.old) }
        ensures crash { (c : List ℕ) → D.may_leave (disk_of self.new) c → D.may_leave (disk_of self.old) c }
        ensures counted { D.faults (disk_of self.old) ≤ D.faults (disk_of self.new) }
        ensures io { (IsTrue (D.is_clean (disk_of self.old)) → IsReading D.seen self.old) → RoseIfIo result (D.faults (disk_of self.old)) (D.faults (disk_of self.new)) }
        ensures reading { IsTrue (D.is_clean (disk_of self.new)) → IsReading D.seen self.old → IsReading D.seen self.new }
        ensures place { place self.new ≡ place self.old }
        ensures len { self.new.len ≡ self.old.len }
        ensures grew { result ≡ Ok true → read_to self.old < read_to self.new }
        ensures end { result ≡ Ok false → (read_to self.new ≡ self.new.len) × (self.new ≡ self.old) }
    {
        let end = self.at + self.piece.len();
        if end >= self.len {
            return Ok(false);
        }
        let next = read_piece(alloc, &mut self.disk, end, (self.len - end).min(PIECE))?;
        let mut piece = Vec::from_slice(alloc, &self.piece[self.start..])?;
        piece.extend_from_slice(&next)?;
        self.piece = piece;
        self.at += self.start;
        self.start = 0;
        Ok(true)
    }

    // How many bytes there are in front of the end of the line that begins here; None where the file has none.
    fn line_end(&mut self, alloc: Global) -> Result<Option<usize>, Fault>
        requires { IsTrue (D.is_usable (disk_of self.old)) }
        ensures usable { IsTrue (D.is_usable (disk_of self.new)) }
        ensures clean { IsTrue (D.is_clean (disk_of self.new)) → IsTrue (D.is_clean (disk_of self.old)) }
        ensures seen { D.seen (disk_of self.new) ≡ D.seen (disk_of self.old) }
        ensures crash { (c : List ℕ) → D.may_leave (disk_of self.new) c → D.may_leave (disk_of self.old) c }
        ensures counted { D.faults (disk_of self.old) ≤ D.faults (disk_of self.new) }
        ensures io { (IsTrue (D.is_clean (disk_of self.old)) → IsReading D.seen self.old) → RoseIfIo result (D.faults (disk_of self.old)) (D.faults (disk_of self.new)) }
        ensures reading { IsTrue (D.is_clean (disk_of self.new)) → IsReading D.seen self.old → IsReading D.seen self.new }
        ensures place { place self.new ≡ place self.old }
        ensures len { self.new.len ≡ self.old.len }
        ensures within { IfOk result (λ found. IfSome found (λ n. self.new.start + n < length self.new.piece.items)) }
        ensures front { IfOk result (λ found. IfSome found (λ n. IsText (take n (drop self.new.start self.new.piece.items)))) }
        ensures ends { IfOk result (λ found. IfSome found (λ n. (slice_index self.new.piece.items (self.new.start + n) ≡ 0) ⊎ (slice_index self.new.piece.items (self.new.start + n) ≡ 10))) }
        ensures none { result ≡ Ok None → IsText (drop self.new.start self.new.piece.items) × (read_to self.new ≡ self.new.len) }
    {
        'pieces: loop {
            let found = end_of(&self.piece[self.start..]);
            if found.is_some() {
                return Ok(found);
            }
            if !self.more(alloc)? {
                return Ok(None);
            }
        }
    }

    /// The next line, up to the first 0; None where there is no whole one.
    pub fn next(&mut self, alloc: Global) -> Result<Option<Line>, Fault>
        requires { IsTrue (D.is_usable (disk_of self.old)) }
        ensures usable { IsTrue (D.is_usable (disk_of self.new)) }
        ensures clean { IsTrue (D.is_clean (disk_of self.new)) → IsTrue (D.is_clean (disk_of self.old)) }
        ensures seen { D.seen (disk_of self.new) ≡ D.seen (disk_of self.old) }
        ensures crash { (c : List ℕ) → D.may_leave (disk_of self.new) c → D.may_leave (disk_of self.old) c }
        ensures counted { D.faults (disk_of self.old) ≤ D.faults (disk_of self.new) }
        ensures io { (IsTrue (D.is_clean (disk_of self.old)) → IsReading D.seen self.old) → RoseIfIo result (D.faults (disk_of self.old)) (D.faults (disk_of self.new)) }
        ensures reading { IsTrue (D.is_clean (disk_of self.new)) → IsReading D.seen self.old → IsReading D.seen self.new }
        ensures line { IfOk result (λ line. IsTrue (D.is_clean (disk_of self.new)) → IsReading D.seen self.old
            → IsNext (D.seen (disk_of self.old)) (place self.old) (place self.new) line) }
    {
        let Some(n) = self.line_end(alloc)? else {
            return Ok(None);
        };
        let end = self.start + n;
        if n == 0 || self.piece[end] == 0 {
            return Ok(None);
        }
        let line = Vec::from_slice(alloc, &self.piece[self.start..end])?;
        self.start = end + 1;
        Ok(Some(Line::new(line)))
    }

    /// Whether what stands behind the lines that were read, so many, tells that more of them were safe, in a file that was so long.
    pub fn tells_more(&mut self, alloc: Global, lines: u64, trusted: usize) -> Result<bool, Fault>
        requires { IsTrue (D.is_usable (disk_of self.old)) }
        ensures usable { IsTrue (D.is_usable (disk_of self.new)) }
        ensures clean { IsTrue (D.is_clean (disk_of self.new)) → IsTrue (D.is_clean (disk_of self.old)) }
        ensures seen { D.seen (disk_of self.new) ≡ D.seen (disk_of self.old) }
        ensures crash { (c : List ℕ) → D.may_leave (disk_of self.new) c → D.may_leave (disk_of self.old) c }
        ensures counted { D.faults (disk_of self.old) ≤ D.faults (disk_of self.new) }
        ensures io { (IsTrue (D.is_clean (disk_of self.old)) → IsReading D.seen self.old) → RoseIfIo result (D.faults (disk_of self.old)) (D.faults (disk_of self.new)) }
        ensures reading { IsTrue (D.is_clean (disk_of self.new)) → IsReading D.seen self.old → IsReading D.seen self.new }
        ensures place { place self.new ≡ place self.old }
        ensures yes { IfOk result (λ is. IsTrue (D.is_clean (disk_of self.new)) → IsReading D.seen self.old → is ≡ true
            → Misses lines trusted (place self.old) (D.seen (disk_of self.old))) }
        ensures no { IfOk result (λ is. IsTrue (D.is_clean (disk_of self.new)) → IsReading D.seen self.old → is ≡ false
            → Misses lines trusted (place self.old) (D.seen (disk_of self.old)) → ⊥) }
    {
        if self.len < trusted {
            return Ok(true);
        }
        let used = self.at + self.start;
        if goes_on_broken(alloc, &mut self.disk, used, self.len)? {
            return Ok(true);
        }
        has_mark_ahead(alloc, &mut self.disk, lines, used, trusted, self.len)
    }

    /// Makes the file ready to be written to: what stands behind its lines is made zeros, by one write and one sync. Whatever a
    /// crash leaves then has the same lines, and tells of no more than it did. Refused, the file is handed back.
    pub fn ready(self, alloc: Global) -> Result<Store<D>, (Fault, D)>
        requires usable { IsTrue (D.is_usable (disk_of self)) }
        requires found { IsTrue (D.is_clean (disk_of self)) → IsFound D.seen D.may_leave (disk_of self) (place self) self.len }
        ensures usable { IfOk result (λ store. IsTrue (D.is_usable store.disk)) }
        ensures clean { IfOk result (λ store. D.is_clean store.disk ≡ D.is_clean (disk_of self)) }
        ensures at_rest { IfOk result (λ store. IsTrue (D.is_clean store.disk) → IsAtRest D.seen D.may_leave store
            × (recovered (D.seen store.disk) ≡ recovered (D.seen (disk_of self)))) }
        ensures crash_err { IfErr result (λ e. IsTrue (D.is_clean e.1) → (c : List ℕ) → D.may_leave e.1 c → recovered c ≡ recovered (D.seen (disk_of self))) }
        ensures told { IfOk result (λ store. IsTrue (D.is_clean store.disk) → (pieces : List Piece) → IsReadAs pieces (D.seen (disk_of self))
            → IsReadAs pieces (D.seen store.disk)) }
        ensures told_err { IfErr result (λ e. IsTrue (D.is_clean e.1) → (pieces : List Piece) → IsReadAs pieces (D.seen (disk_of self))
            → IsLeftAs pieces (D.may_leave e.1)) }
        ensures io { IfErr result (λ e. RoseIfIo {T = Unit {0}} (Err e.0) (D.faults (disk_of self)) (D.faults e.1)) }
    {
        let used = self.at + self.start;
        let Reader { mut disk, len, .. } = self;
        match clear(alloc, &mut disk, used, len) {
            Ok(len) => Ok(Store { disk, used, len }),
            Err(fault) => Err((fault, disk)),
        }
    }
}
