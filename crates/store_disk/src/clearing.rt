// Making zeros of what stands behind a file's lines.
ghost use Rattle.std.specs.Prelude.{◌≡◌, IsTrue, IfOk, List, OnOk, ℕ};
ghost use Rattle.store_lines.specs.Lines.{recovered};
ghost use Rattle.store_lines.specs.Readings.{IsReadAs};
ghost use Rattle.store_lines.specs.declared.piece.Piece.{Piece};
ghost use Rattle.store_disk.specs.State.{IsAtRest, IsFound, IsLeftAs, RoseIfIo};

use crate::fault::Fault;
use crate::pieces::zeros;
use sqlite_disk::Disk;
use std::alloc::Global;

/// Makes zeros of what stands behind the lines, one at least, and answers how long the file is then.
pub(crate) fn clear<D: Disk>(
    alloc: Global,
    disk: &mut D,
    used: usize,
    len: usize,
) -> Result<usize, Fault>
    requires usable { IsTrue (D.is_usable disk.old) }
    requires found { IsTrue (D.is_clean disk.old) → IsFound D.seen D.may_leave disk.old used len }
    ensures usable { OnOk result (IsTrue (D.is_usable disk.new)) }
    ensures clean { D.is_clean disk.new ≡ D.is_clean disk.old }
    ensures at_rest { IfOk result (λ now. IsTrue (D.is_clean disk.new) → IsAtRest D.seen D.may_leave (record { disk = disk.new; used = used; len = now })
        × (recovered (D.seen disk.new) ≡ recovered (D.seen disk.old))) }
    ensures crash { IsTrue (D.is_clean disk.new) → (c : List ℕ) → D.may_leave disk.new c → recovered c ≡ recovered (D.seen disk.old) }
    ensures told { IsTrue (D.is_clean disk.new) → (pieces : List Piece) → IsReadAs pieces (D.seen disk.old) → IsLeftAs pieces (D.may_leave disk.new) }
    ensures io { RoseIfIo result (D.faults disk.old) (D.faults disk.new) }
{
    let left = len.saturating_sub(used);
    if left == 0 {
        if used == usize::MAX {
            return Err(Fault::Full);
        }
        disk.write_at(used, &[0])?;
        disk.sync()?;
        return Ok(used + 1);
    }
    if !disk.mixes() {
        return Err(Fault::Unsupported);
    }
    let zeros = zeros(alloc, left)?;
    disk.write_at(used, &zeros)?;
    disk.sync()?;
    Ok(len)
}
