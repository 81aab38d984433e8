// A store's file that is read.
ghost use Rattle.std.specs.Prelude.{◌+◌, ◌≤◌, vec_len};

use sqlite_disk::Disk;

/// A file that is read line by line, and not written to: one piece of it is in memory, and a line that has begun.
#[derive(Drop)]
pub struct Reader<D: Disk> {
    pub(crate) disk: D,
    // How long the file is.
    pub(crate) len: usize,
    // Where the piece begins that is in memory, and how many of its bytes were taken.
    pub(crate) at: usize,
    pub(crate) start: usize,
    pub(crate) piece: Vec<u8>,
    ghost within: { at + vec_len piece ≤ len },
    ghost taken: { start ≤ vec_len piece },
}
