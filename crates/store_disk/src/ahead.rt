// What stands behind the lines of a file.
ghost use Rattle.std.specs.Prelude.{◌≡◌, ◌-◌, ◌≤◌, IsTrue, IfOk, List, ℕ, drop, false, length, true};
ghost use Rattle.store_lines.specs.Readings.{IsAhead, is_broken};
ghost use Rattle.store_disk.specs.State.{RoseIfIo};

use crate::fault::Fault;
use crate::pieces::{PIECE, read_piece};
use sqlite_disk::Disk;
use std::alloc::Global;
use store_lines::{LONGEST_MARK, mark_ahead};

/// Whether a file of this length goes on, behind its lines, with the end of a line.
pub(crate) fn goes_on_broken<D: Disk>(
    alloc: Global,
    disk: &mut D,
    used: usize,
    len: usize,
) -> Result<bool, Fault>
    requires { IsTrue (D.is_usable disk.old) }
    ensures broken { IfOk result (λ is. IsTrue (D.is_clean disk.new) → len ≡ length (D.seen disk.old) → is ≡ is_broken (drop used (D.seen disk.old))) }
    ensures usable { IsTrue (D.is_usable disk.new) }
    ensures clean { IsTrue (D.is_clean disk.new) → IsTrue (D.is_clean disk.old) }
    ensures seen { D.seen disk.new ≡ D.seen disk.old }
    ensures crash { (c : List ℕ) → D.may_leave disk.new c → D.may_leave disk.old c }
    ensures counted { D.faults disk.old ≤ D.faults disk.new }
    ensures io { (IsTrue (D.is_clean disk.old) → len ≡ length (D.seen disk.old)) → RoseIfIo result (D.faults disk.old) (D.faults disk.new) }
{
    if len.saturating_sub(used) < 2 {
        return Ok(false);
    }
    let bytes = read_piece(alloc, disk, used, 2)?;
    Ok(bytes[0] == 10)
}

/// Whether a mark of a greater number than this begins between these places of a file of this length.
pub(crate) fn has_mark_ahead<D: Disk>(
    alloc: Global,
    disk: &mut D,
    lines: u64,
    from: usize,
    to: usize,
    len: usize,
) -> Result<bool, Fault>
    requires usable { IsTrue (D.is_usable disk.old) }
    requires within { to ≤ len }
    ensures yes { IfOk result (λ is. IsTrue (D.is_clean disk.new) → len ≡ length (D.seen disk.old) → is ≡ true → IsAhead lines (to - from) (drop from (D.seen disk.old))) }
    ensures no { IfOk result (λ is. IsTrue (D.is_clean disk.new) → len ≡ length (D.seen disk.old) → is ≡ false → IsAhead lines (to - from) (drop from (D.seen disk.old)) → ⊥) }
    ensures usable { IsTrue (D.is_usable disk.new) }
    ensures clean { IsTrue (D.is_clean disk.new) → IsTrue (D.is_clean disk.old) }
    ensures seen { D.seen disk.new ≡ D.seen disk.old }
    ensures crash { (c : List ℕ) → D.may_leave disk.new c → D.may_leave disk.old c }
    ensures counted { D.faults disk.old ≤ D.faults disk.new }
    ensures io { (IsTrue (D.is_clean disk.old) → len ≡ length (D.seen disk.old)) → RoseIfIo result (D.faults disk.old) (D.faults disk.new) }
{
    let mut at = from;
    while at < to {
        let count = (to - at).min(PIECE);
        let bytes = read_piece(alloc, disk, at, (count + LONGEST_MARK).min(len - at))?;
        if mark_ahead(alloc, &bytes, lines, count)? {
            return Ok(true);
        }
        at += count;
    }
    Ok(false)
}
