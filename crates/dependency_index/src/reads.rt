// Where reads looked, whatever they found.
ghost use Rattle.std.specs.Prelude.{◌≡◌, ◌↔◌, IsTrue, IfOk, map};
ghost use Rattle.dependency_index.specs.Reads.{read_at, is_kind};

use lang_core::{Copied, NoMemory, Read, Same, Text, ThinSeq};
use std::alloc::Global;

/// Of what a read is.
#[derive(Clone, Copy)]
pub enum ReadKind {
    /// One key.
    Key,
    /// All keys under a prefix.
    Scan,
}

/// Where a read looked, whatever it found.
pub struct ReadAt {
    pub kind: ReadKind,
    pub table: Text,
    /// The key, or the prefix.
    pub key: Text,
}

impl Drop for ReadAt {
    fn drop(self) {
        let Self {
            kind: _,
            table: _,
            key: _,
        } = self;
    }
}

impl Copied for ReadAt {
    fn copied(&self, alloc: Global) -> Result<ReadAt, NoMemory> {
        place(alloc, self.kind, &self.table, &self.key)
    }
}

impl Same for ReadAt {
    fn is(&self, other: &ReadAt) -> bool {
        is_place(self, other.kind, &other.table, &other.key)
    }
}

/// Where reads looked, in the order in which they were made.
pub type ReadsAt = ThinSeq<ReadAt>;

fn is_kind(kind: ReadKind, other: ReadKind) -> bool
    ensures { result ≡ is_kind kind other }
{
    match kind {
        ReadKind::Key => match other {
            ReadKind::Key => true,
            ReadKind::Scan => false,
        },
        ReadKind::Scan => match other {
            ReadKind::Key => false,
            ReadKind::Scan => true,
        },
    }
}

fn place(alloc: Global, kind: ReadKind, table: &Text, key: &Text) -> Result<ReadAt, NoMemory>
    ensures { IfOk result (λ r. r ≡ record { kind = kind; table = table.now; key = key.now }) }
{
    let table = table.copied(alloc)?;
    let key = key.copied(alloc)?;
    Ok(ReadAt { kind, table, key })
}

fn place_read(alloc: Global, read: &Read) -> Result<ReadAt, NoMemory>
    ensures { IfOk result (λ r. r ≡ read_at read.now) }
{
    match read {
        Read::Key { table, key, .. } => place(alloc, ReadKind::Key, table, key),
        Read::Scan { table, prefix, .. } => place(alloc, ReadKind::Scan, table, prefix),
    }
}

/// Where these reads looked.
pub(crate) fn places_read(alloc: Global, reads: &[Read]) -> Result<ReadsAt, NoMemory>
    ensures { IfOk result (λ places. places ≡ map read_at reads.now) }
{
    let mut places = ThinSeq::new(alloc);
    for read in reads {
        places.push(place_read(alloc, read)?)?;
    }
    Ok(places)
}

fn is_place(own: &ReadAt, kind: ReadKind, table: &Text, key: &Text) -> bool
    ensures { IsTrue result ↔ (own.now ≡ record { kind = kind; table = table.now; key = key.now }) }
{
    is_kind(own.kind, kind) && own.table.is(table) && own.key.is(key)
}

fn is_read(own: &ReadAt, read: &Read) -> bool
    ensures { IsTrue result ↔ (own.now ≡ read_at read.now) }
{
    match read {
        Read::Key { table, key, .. } => is_place(own, ReadKind::Key, table, key),
        Read::Scan { table, prefix, .. } => is_place(own, ReadKind::Scan, table, prefix),
    }
}

/// Whether these are the places where the reads looked.
pub(crate) fn are_read(places: &[ReadAt], reads: &[Read]) -> bool
    ensures { IsTrue result ↔ (places.now ≡ map read_at reads.now) }
{
    if places.len() != reads.len() {
        return false;
    }
    for (i, own) in places.iter().enumerate() {
        if !is_read(own, &reads[i]) {
            return false;
        }
    }
    true
}
