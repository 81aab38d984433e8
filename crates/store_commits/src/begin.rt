// How a store begins.
ghost use Rattle.std.specs.Prelude.{◌≡◌, ◌∷◌, [], IfOk, IsTrue, List, OnOk, ℕ};
ghost use Rattle.store_lines.specs.Lines.{recovered};
ghost use Rattle.store_lines.specs.Readings.{IsReadAs};
ghost use Rattle.store_lines.specs.declared.piece.Piece.TheVariants.{Text};
ghost use Rattle.store_disk.specs.State.{IsAtRest};
ghost use Rattle.store_commits.specs.Stands.{IsFewLines, Stands};

use crate::unwritten::Unwritten;
use crate::write::append_lines;
use sqlite_disk::Disk;
use std::alloc::Global;
use store_disk::Store;
use store_lines::{Line, Piece};

// How long a file is made before it has a line.
const FIRST: usize = 1 << 20;

// Makes a file with no line as long as a store is at first.
fn stretch<D: Disk>(alloc: Global, store: &mut Store<D>) -> Result<(), Unwritten>
    requires usable { IsTrue (D.is_usable store.old.disk) }
    requires at_rest { IsTrue (D.is_clean store.old.disk) → IsAtRest D.seen D.may_leave store.old }
    requires none { IsTrue (D.is_clean store.old.disk) → recovered (D.seen store.old.disk) ≡ [] }
    ensures usable { OnOk result (IsTrue (D.is_usable store.new.disk)) }
    ensures clean { D.is_clean store.new.disk ≡ D.is_clean store.old.disk }
    ensures at_rest { OnOk result (IsTrue (D.is_clean store.old.disk) → IsAtRest D.seen D.may_leave store.new × (recovered (D.seen store.new.disk) ≡ [])) }
    ensures read { OnOk result (IsTrue (D.is_clean store.old.disk) → IsReadAs [] (D.seen store.new.disk)) }
    ensures crash { IsTrue (D.is_clean store.old.disk) → (c : List ℕ) → D.may_leave store.new.disk c → recovered c ≡ [] }
{
    // One byte at least, so that a file that is long enough already has its length made sure of too.
    let by = FIRST.saturating_sub(store.len).max(1);
    store.grow(alloc, by)?;
    Ok(())
}

/// Writes the first two lines of a store into a file that has none, each by itself: what it is, and with what it began.
pub(crate) fn write_first<D: Disk>(
    alloc: Global,
    store: &mut Store<D>,
    first: Line,
    began: Line,
) -> Result<u64, Unwritten>
    requires usable { IsTrue (D.is_usable store.old.disk) }
    requires at_rest { IsTrue (D.is_clean store.old.disk) → IsAtRest D.seen D.may_leave store.old }
    requires none { IsTrue (D.is_clean store.old.disk) → recovered (D.seen store.old.disk) ≡ [] }
    ensures stands { IfOk result (λ lines. Stands D.is_usable D.is_clean D.seen D.may_leave store.new lines 0) }
    ensures clean { D.is_clean store.new.disk ≡ D.is_clean store.old.disk }
    ensures read { OnOk result (IsTrue (D.is_clean store.old.disk) → IsReadAs (Text first ∷ Text began ∷ []) (D.seen store.new.disk)) }
    ensures crash { IsTrue (D.is_clean store.old.disk) → (c : List ℕ) → D.may_leave store.new.disk c → IsFewLines (Text first ∷ Text began ∷ []) (recovered c) }
{
    stretch(alloc, store)?;
    let begun = append_lines(alloc, store, 0, &Piece::Text(first), &[])?;
    let lines = append_lines(alloc, store, begun, &Piece::Text(began), &[])?;
    Ok(lines)
}
