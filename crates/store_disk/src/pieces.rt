// Pieces of a file.
ghost use Rattle.std.specs.Prelude.{◌≡◌, ◌+◌, ◌<◌, ◌≤◌, IsTrue, IfOk, List, ℕ, drop, length, replicate, take};
ghost use Rattle.store_disk.specs.State.{RoseIfIo};

use crate::fault::Fault;
use sqlite_disk::Disk;
use std::alloc::{AllocError, Global};

/// How many bytes of a file are read at once.
pub(crate) const PIECE: usize = 65536;

/// So many zeros.
pub(crate) fn zeros(alloc: Global, n: usize) -> Result<Vec<u8>, AllocError>
    ensures { IfOk result (λ v. (v.items ≡ replicate n 0) × (length v.items ≡ n)) }
{
    vec![in alloc; 0u8; n]
}

/// So many bytes of a file.
#[tactic(auto, using(crate::proofs::ReadLemmas::piece_read))]
pub(crate) fn read_piece<D: Disk>(
    alloc: Global,
    disk: &mut D,
    at: usize,
    count: usize,
) -> Result<Vec<u8>, Fault>
    requires { IsTrue (D.is_usable disk.old) }
    ensures bytes { IfOk result (λ bytes. IsTrue (D.is_clean disk.new) → bytes.items ≡ take count (drop at (D.seen disk.old))) }
    ensures long { IfOk result (λ bytes. length bytes.items ≡ count) }
    ensures usable { IsTrue (D.is_usable disk.new) }
    ensures clean { IsTrue (D.is_clean disk.new) → IsTrue (D.is_clean disk.old) }
    ensures seen { D.seen disk.new ≡ D.seen disk.old }
    ensures crash { (c : List ℕ) → D.may_leave disk.new c → D.may_leave disk.old c }
    ensures counted { D.faults disk.old ≤ D.faults disk.new }
    ensures io { (IsTrue (D.is_clean disk.old) → at + count ≤ length (D.seen disk.old)) → RoseIfIo result (D.faults disk.old) (D.faults disk.new) }
{
    let mut bytes = zeros(alloc, count)?;
    disk.read_at(at, &mut bytes)?;
    Ok(bytes)
}
