// The reads that a run recorded.
ghost use Rattle.std.specs.Prelude.{◌≡◌, [], ◌∷◌, ◌++◌, OnOk, OnErr, min, nat_le, sum_by};
ghost use Rattle.lang_core.specs.Rows.{cell_size};
ghost use Rattle.lang_values.specs.Sizes.{text_size, read_size};

use lang_core::{Cell, NoMemory, Read, Reads, Text};
use std::alloc::Global;
use std::marker::Model;

/// The most bytes of keys and texts that a run may read.
pub const MOST_READ_BYTES: u64 = 1048576;

fn text_size(text: &Option<Text>) -> u64
    ensures { result ≡ text_size text.now }
{
    match text {
        None => 0,
        Some(text) => text.len(),
    }
}

fn cell_size(cell: &Cell) -> u64
    ensures { result ≡ min (cell_size cell.now) 18446744073709551615 }
{
    cell.key.len().saturating_add(cell.text.len())
}

fn cells_size(cells: &[Cell]) -> u64
    ensures { result ≡ min (sum_by cell_size cells.now) 18446744073709551615 }
{
    let mut bytes: u64 = 0;
    for cell in cells {
        bytes = bytes.saturating_add(cell_size(cell));
    }
    bytes
}

fn read_size(read: &Read) -> u64
    ensures { result ≡ min (read_size read.now) 18446744073709551615 }
{
    match read {
        Read::Key {
            table: _,
            key,
            found,
        } => key.len().saturating_add(text_size(found)),
        Read::Scan {
            table: _,
            prefix: _,
            found,
        } => cells_size(found.as_slice()),
    }
}

/// Recorded reads, seen as their list. Their bytes are counted as they come, up to the greatest u64.
#[derive(Drop)]
pub struct Recorded {
    reads: Reads,
    bytes: u64,
}

impl Model for Recorded {
    ghost use Rattle.std.specs.Prelude.{◌≡◌, List, sum_by, min};
    ghost use Rattle.lang_core.specs.declared.trace.Read.{Read};
    ghost use Rattle.lang_values.specs.Sizes.{read_size};

    ghost Value = { List Read };

    ghost view = { λ r. r.reads };

    ghost invariant = { λ r. r.bytes ≡ min (sum_by read_size r.reads) 18446744073709551615 };
}

impl Recorded {
    /// No reads.
    pub fn new(alloc: Global) -> Recorded
        ensures { result ≡ [] }
    {
        Recorded {
            reads: Reads::new(alloc),
            bytes: 0,
        }
    }

    /// Puts one more read last. Refused, it is dropped and the list stays.
    pub fn push(&mut self, read: Read) -> Result<(), NoMemory>
        ensures ok { OnOk result (self.new ≡ self.old ++ read ∷ []) }
        ensures err { OnErr result (self.new ≡ self.old) }
    {
        let bytes = self.bytes.saturating_add(read_size(&read));
        self.reads.push(read)?;
        self.bytes = bytes;
        Ok(())
    }

    /// Whether the reads are within their limit.
    pub fn fit(&self) -> bool
        ensures { result ≡ nat_le (sum_by read_size self.now) 1048576 }
    {
        self.bytes <= MOST_READ_BYTES
    }

    /// The reads, in the order in which they were made.
    pub fn as_slice(&self) -> &[Read]
        ensures { result.now ≡ self.now }
    {
        self.reads.as_slice()
    }

    /// The list alone.
    pub fn into_reads(self) -> Reads
        ensures { result ≡ self }
    {
        self.reads
    }
}
