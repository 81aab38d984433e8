// The store, as one thread at a time has it.
ghost use Rattle.std.specs.Prelude.{◌≡◌, ◌+◌, ◌≤◌, ◌<◌, ◌∷◌, ◌++◌, [], Err, IfErr, IfNone, IfOk, IfSome, IsTrue, List, None, OnErr, OnOk, Some, false, is_none, length, true, ℕ};
ghost use Rattle.std.specs.Option.{option_copied};
ghost use Rattle.store_lines.specs.Lines.{recovered, IsBetween};
ghost use Rattle.store_lines.specs.Readings.{IsReadAs};
ghost use Rattle.store_lines.specs.declared.piece.Piece.{Piece};
ghost use Rattle.store_disk.specs.State.{IsAtRest};
ghost use Rattle.store_disk.specs.declared.fault.Fault.{Fault};
ghost use Rattle.store_commits.specs.Handings.{Covering};
ghost use Rattle.store_commits.specs.Opened.{Opened};
ghost use Rattle.store_commits.specs.Stands.{Appended, AreWritten, IsFewLines, IsLeftWithTexts, Stands, texts_in};
ghost use Rattle.store_commits.specs.declared.unwritten.Unwritten.{Unwritten};
ghost use Rattle.store_commits.specs.declared.writer.Uncommitted.{Uncommitted};
ghost use Rattle.store_commits.specs.declared.writer.Unmarked.{Unmarked};

use crate::begin::write_first;
use crate::queue::{Handed, Taken};
use crate::unwritten::Unwritten;
use crate::write::{append_lines, write_texts};
use sqlite_disk::Disk;
use std::alloc::Global;
use std::marker::Model;
use store_disk::{Fault, Store};
use store_lines::{Line, Piece};

/// A write or a sync has failed, now or earlier. The store has to be opened again, by another process.
#[derive(Drop)]
pub struct Closed;

/// The records up to some number are on the disk. A writer alone makes one, and `covering` copies it. Contracts see a `Covering`.
#[derive(Drop)]
pub struct Durable {
    upto: u64,
}

impl Model for Durable {
    ghost Value = { Covering };

    ghost view = { λ durable. record { upto = durable.upto } };
}

impl Durable {
    /// Settles what was seen of a service without a store, which rests on no record: nothing is waited for.
    pub fn in_memory(handed: Handed) -> Result<Durable, Closed>
        ensures ok { IfOk result (λ d. (handed.at ≤ d.upto) × (d.upto ≡ 0)) }
        ensures err { OnErr result (0 < handed.at) }
    {
        if handed.number() == 0 {
            Ok(Durable { upto: 0 })
        } else {
            Err(Closed)
        }
    }

    /// Up to which number.
    pub fn upto(&self) -> u64
        ensures { result ≡ self.now.upto }
    {
        self.upto
    }

    /// The same token again, where it covers the record of this number.
    pub fn covering(&self, at: u64) -> Option<Durable>
        ensures some { IfSome result (λ d. (d.upto ≡ self.now.upto) × (at ≤ d.upto)) }
        ensures none { IfNone result (self.now.upto < at) }
    {
        if at <= self.upto {
            Some(Durable { upto: self.upto })
        } else {
            None
        }
    }
}

/// Why records weren't committed.
pub enum Uncommitted {
    /// No memory to write them. They are handed back, and may be committed again.
    NoMemory(Taken),
    /// The store is closed.
    Closed,
}

/// Why a mark wasn't written.
#[derive(Drop)]
pub enum Unmarked {
    /// No memory to write it. It may be written again.
    NoMemory,
    /// The store is closed.
    Closed,
}

/// The store, as one thread at a time has it. Contracts see an `Opened`.
#[derive(Drop)]
pub struct Writer<D: Disk> {
    store: Store<D>,
    lines: u64,
    durable: u64,
    closing: Option<Unwritten>,
}

// Where it is open the store stands. Where a call of the file closed it, the disk has counted that; and a file of which a torn write leaves each byte old or new is
// supported.
impl<D: Disk> Model for Writer<D> {
    ghost Value = { Opened D };

    ghost view = { λ w. record { store = w.store; lines = w.lines; durable = w.durable; is_open = is_none w.closing; closing = w.closing } };

    ghost invariant = { λ w. (w.closing ≡ None → Stands D.is_usable D.is_clean D.seen D.may_leave w.store w.lines w.durable)
        × ((e : _) → w.closing ≡ Some (Unwritten.Failed (Fault.Io e)) → 0 < D.faults w.store.disk)
        × (w.closing ≡ Some (Unwritten.Failed Fault.Unsupported) → ((disk : D) → D.is_mixing disk ≡ true) → ⊥) };
}

impl<D: Disk> Writer<D> {
    /// That of a store with so many lines, of which so many are records.
    pub fn new(store: Store<D>, lines: u64, durable: u64) -> Writer<D>
        requires { Stands D.is_usable D.is_clean D.seen D.may_leave store lines durable }
        ensures { (result.store ≡ store) × (result.lines ≡ lines) × (result.durable ≡ durable) × (result.is_open ≡ true) }
    {
        Writer {
            store,
            lines,
            durable,
            closing: None,
        }
    }

    /// That of a new store, in a file with no line: it gets its first two, what it is and with what it began, each by itself. Refused,
    /// the file is handed back.
    pub fn begin(
        alloc: Global,
        mut store: Store<D>,
        first: Line,
        began: Line,
    ) -> Result<Writer<D>, (Unwritten, D)>
        requires usable { IsTrue (D.is_usable store.disk) }
        requires at_rest { IsTrue (D.is_clean store.disk) → IsAtRest D.seen D.may_leave store }
        requires none { IsTrue (D.is_clean store.disk) → recovered (D.seen store.disk) ≡ [] }
        ensures begun { IfOk result (λ w. (w.durable ≡ 0) × (w.is_open ≡ true)) }
        ensures clean { IfOk result (λ w. D.is_clean w.store.disk ≡ D.is_clean store.disk) }
        ensures read { IfOk result (λ w. IsTrue (D.is_clean store.disk) → IsReadAs (Piece.Text first ∷ Piece.Text began ∷ []) (D.seen w.store.disk)) }
        ensures crash_err { IfErr result (λ e. IsTrue (D.is_clean store.disk) → (c : List ℕ) → D.may_leave e.1 c → IsFewLines (Piece.Text first ∷ Piece.Text began ∷ []) (recovered c)) }
    {
        match write_first(alloc, &mut store, first, began) {
            Ok(lines) => Ok(Writer::new(store, lines, 0)),
            Err(why) => {
                let Store {
                    disk,
                    used: _,
                    len: _,
                } = store;
                Err((why, disk))
            }
        }
    }

    /// Writes and syncs records, behind a mark that all before them are safe. Where none is given nothing is written. Their numbers
    /// have to be the next ones. Once it was closed nothing is written to this store any more.
    pub fn commit(&mut self, alloc: Global, taken: Taken) -> Result<(), Uncommitted>
        ensures appended { OnOk result (IsTrue (D.is_clean self.old.store.disk)
            → texts_in (D.seen self.new.store.disk) ≡ texts_in (D.seen self.old.store.disk) ++ taken.texts) }
        ensures written { OnOk result (0 < length taken.texts → IsTrue (D.is_clean self.old.store.disk)
            → AreWritten self.old.lines self.old.store.len self.new.store.len (D.seen self.old.store.disk) (D.seen self.new.store.disk) taken.texts) }
        ensures numbered { OnOk result ((self.old.durable + length taken.texts ≡ taken.upto) × (self.new.durable ≡ taken.upto)) }
        ensures open { OnOk result ((self.old.is_open ≡ true) × (self.new.is_open ≡ true)) }
        ensures none { OnOk result (length taken.texts ≡ 0 → self.new ≡ self.old) }
        ensures closed { result ≡ Err Uncommitted.Closed → self.new.is_open ≡ false }
        ensures stays { self.old.is_open ≡ false → (result ≡ Err Uncommitted.Closed) × (self.new ≡ self.old) }
        ensures memory { (again : _) → result ≡ Err (Uncommitted.NoMemory again) → (again ≡ taken) × (self.new.is_open ≡ true) × (self.new.durable ≡ self.old.durable)
            × (IsTrue (D.is_clean self.old.store.disk) → texts_in (D.seen self.new.store.disk) ≡ texts_in (D.seen self.old.store.disk)) }
        ensures clean { D.is_clean self.new.store.disk ≡ D.is_clean self.old.store.disk }
        ensures crash { self.old.is_open ≡ true → IsTrue (D.is_clean self.old.store.disk) → (c : List ℕ) → D.may_leave self.new.store.disk c
            → IsBetween (texts_in (D.seen self.old.store.disk)) taken.texts (texts_in c) }
        ensures told { self.old.is_open ≡ true → IsTrue (D.is_clean self.old.store.disk) → (pieces : List Piece) → IsReadAs pieces (D.seen self.old.store.disk)
            → IsLeftWithTexts pieces taken.texts (D.may_leave self.new.store.disk) }
    {
        let (texts, upto) = taken.parts();
        if self.closing.is_some() {
            return Err(Uncommitted::Closed);
        }
        let count = texts.len() as u64;
        if upto < count || upto - count != self.durable {
            self.closing = Some(Unwritten::OutOfOrder);
            return Err(Uncommitted::Closed);
        }
        if count == 0 {
            return Ok(());
        }
        match write_texts(alloc, &mut self.store, &mut self.lines, texts.as_slice()) {
            Ok(()) => {
                self.durable = upto;
                Ok(())
            }
            Err(Unwritten::Failed(Fault::NoMemory)) => {
                Err(Uncommitted::NoMemory(Taken::of(texts, upto)))
            }
            Err(why) => {
                self.closing = Some(why);
                Err(Uncommitted::Closed)
            }
        }
    }

    /// Writes a mark alone, as each start does before anything else: a start reads the lines from before behind it.
    pub fn mark(&mut self, alloc: Global) -> Result<(), Unmarked>
        ensures marked { OnOk result (IsTrue (D.is_clean self.old.store.disk)
            → AreWritten self.old.lines self.old.store.len self.new.store.len (D.seen self.old.store.disk) (D.seen self.new.store.disk) []) }
        ensures same { OnOk result (self.new.durable ≡ self.old.durable) }
        ensures open { OnOk result ((self.old.is_open ≡ true) × (self.new.is_open ≡ true)) }
        ensures closed { result ≡ Err Unmarked.Closed → self.new.is_open ≡ false }
        ensures stays { self.old.is_open ≡ false → (result ≡ Err Unmarked.Closed) × (self.new ≡ self.old) }
        ensures memory { result ≡ Err Unmarked.NoMemory → (self.new.is_open ≡ true) × (self.new.durable ≡ self.old.durable)
            × (IsTrue (D.is_clean self.old.store.disk) → texts_in (D.seen self.new.store.disk) ≡ texts_in (D.seen self.old.store.disk)) }
        ensures clean { D.is_clean self.new.store.disk ≡ D.is_clean self.old.store.disk }
        ensures told { self.old.is_open ≡ true → IsTrue (D.is_clean self.old.store.disk) → (pieces : List Piece) → IsReadAs pieces (D.seen self.old.store.disk)
            → IsLeftWithTexts pieces [] (D.may_leave self.new.store.disk) }
    {
        if self.closing.is_some() {
            return Err(Unmarked::Closed);
        }
        match write_texts(alloc, &mut self.store, &mut self.lines, &[]) {
            Ok(()) => Ok(()),
            Err(Unwritten::Failed(Fault::NoMemory)) => Err(Unmarked::NoMemory),
            Err(why) => {
                self.closing = Some(why);
                Err(Unmarked::Closed)
            }
        }
    }

    /// Writes the mark of a clean stop, where the store is open.
    pub fn stop(&mut self, alloc: Global) -> Result<(), Unmarked>
        ensures stopped { OnOk result (IsTrue (D.is_clean self.old.store.disk)
            → Appended self.old.lines (D.seen self.old.store.disk) (D.seen self.new.store.disk) (Piece.Stopped self.old.store.len ∷ [])) }
        ensures same { OnOk result (self.new.durable ≡ self.old.durable) }
        ensures open { OnOk result ((self.old.is_open ≡ true) × (self.new.is_open ≡ true)) }
        ensures closed { result ≡ Err Unmarked.Closed → self.new.is_open ≡ false }
        ensures stays { self.old.is_open ≡ false → (result ≡ Err Unmarked.Closed) × (self.new ≡ self.old) }
        ensures memory { result ≡ Err Unmarked.NoMemory → self.new ≡ self.old }
        ensures clean { D.is_clean self.new.store.disk ≡ D.is_clean self.old.store.disk }
        ensures told { self.old.is_open ≡ true → IsTrue (D.is_clean self.old.store.disk) → (pieces : List Piece) → IsReadAs pieces (D.seen self.old.store.disk)
            → IsLeftWithTexts pieces [] (D.may_leave self.new.store.disk) }
    {
        if self.closing.is_some() {
            return Err(Unmarked::Closed);
        }
        let mark = Piece::Stopped(self.store.len as u64);
        match append_lines(alloc, &mut self.store, self.lines, &mark, &[]) {
            Ok(lines) => {
                self.lines = lines;
                Ok(())
            }
            Err(Unwritten::Failed(Fault::NoMemory)) => Err(Unmarked::NoMemory),
            Err(why) => {
                self.closing = Some(why);
                Err(Unmarked::Closed)
            }
        }
    }

    /// Why it was closed, where it was.
    pub fn closing(&self) -> Option<&Unwritten>
        ensures { option_copied result ≡ self.now.closing }
    {
        self.closing.as_ref()
    }

    /// The file, once nothing is written any more. Where a call of it has closed the store, it has counted that.
    pub fn into_disk(self) -> D
        ensures disk { result ≡ self.store.disk }
        ensures failed { (e : _) → self.closing ≡ Some (Unwritten.Failed (Fault.Io e)) → 0 < D.faults result }
        ensures unsupported { self.closing ≡ Some (Unwritten.Failed Fault.Unsupported) → ((disk : D) → D.is_mixing disk ≡ true) → ⊥ }
    {
        let Writer {
            store,
            lines: _,
            durable: _,
            closing: _,
        } = self;
        let Store {
            disk,
            used: _,
            len: _,
        } = store;
        disk
    }

    /// A token for all records that are on the disk: whatever a crash leaves has as many.
    pub fn newest(&self) -> Option<Durable>
        ensures some { IfSome result (λ d. (d.upto ≡ self.now.durable) × (self.now.is_open ≡ true)
            × (IsTrue (D.is_clean self.now.store.disk) → (c : List ℕ) → D.may_leave self.now.store.disk c → d.upto + 2 ≡ length (texts_in c))) }
        ensures none { IfNone result (self.now.is_open ≡ false) }
    {
        if self.closing.is_none() {
            Some(Durable { upto: self.durable })
        } else {
            None
        }
    }
}
