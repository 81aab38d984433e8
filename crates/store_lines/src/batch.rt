// Lines that are written together.
ghost use Rattle.std.specs.Prelude.{◌≡◌, ◌++◌, [], ◌∷◌, List, ℕ, OnOk, OnErr, IsErrOf, true, false};
ghost use Rattle.store_lines.specs.Lines.{recovered, encode, AreLines, IsLine};
ghost use Rattle.store_lines.specs.declared.batch.NotTaken.TheVariants.{NoMemory};

use std::alloc::{AllocError, Global};
use std::marker::Model;

/// Lines that are to be written together, as they stand in a file. Contracts see their list.
#[derive(Drop)]
pub struct Batch {
    bytes: Vec<u8>,
}

impl Model for Batch {
    ghost Value = { List (List ℕ) };

    ghost view = { λ b. recovered b.bytes.items };

    ghost invariant = { λ b. (encode (recovered b.bytes.items) ≡ b.bytes.items) × AreLines (recovered b.bytes.items) };
}

/// Why a line wasn't taken.
#[derive(Drop)]
pub enum NotTaken {
    /// No memory for it.
    NoMemory,
    /// It is empty, or has a byte that is 0 or 10.
    NoLine,
}

impl From<AllocError> for NotTaken {
    ghost from_gives = { λ _ why. why ≡ NoMemory };

    fn from(_error: AllocError) -> NotTaken {
        NotTaken::NoMemory
    }
}

impl Batch {
    /// No lines yet.
    pub fn new(alloc: Global) -> Batch
        ensures { result ≡ [] }
    {
        Batch {
            bytes: Vec::new(alloc),
        }
    }

    /// The lines as they are written.
    pub fn bytes(&self) -> &[u8]
        ensures bytes { result.now ≡ encode self.now }
        ensures lines { AreLines self.now }
    {
        &self.bytes
    }

    /// Adds a line. Refused, the batch is as before.
    pub fn push(&mut self, line: &[u8]) -> Result<(), NotTaken>
        ensures ok { OnOk result ((self.new ≡ self.old ++ line.now ∷ []) × IsLine line.now) }
        ensures err { OnErr result (self.new ≡ self.old) }
        ensures no_line { IsErrOf result NotTaken.NoLine → IsLine line.now → ⊥ }
    {
        if !is_line(line) {
            return Err(NotTaken::NoLine);
        }
        let more = line.len().checked_add(1).ok_or(AllocError)?;
        self.bytes.reserve(more)?;
        self.bytes.extend_from_slice(line)?;
        self.bytes.push(10).map_err(AllocError::from)?;
        Ok(())
    }
}

// Whether these bytes can be a line: one at least, and none that is 0 or 10.
fn is_line(line: &[u8]) -> bool
    ensures yes { result ≡ true → IsLine line.now }
    ensures no { result ≡ false → IsLine line.now → ⊥ }
{
    for b in line {
        if *b == 0 || *b == 10 {
            return false;
        }
    }
    !line.is_empty()
}
