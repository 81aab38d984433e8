// Bytes that someone else has, as a source.
ghost use Rattle.std.specs.Prelude.{◌≡◌, ◌≤◌, ◌<◌, IsOk, length, take, min, IfOk, OnErr};
ghost use Rattle.io_edge.specs.Edge.{Took, IsAtEnd, ReadFails};

use io_edge::{Failed, Source};

/// A source over bytes that it borrows, as a reply's are, so that they are read without a copy of
/// the whole. It tells them, gives as many as there is room for, and never fails.
#[derive(Drop)]
pub struct SliceSource<'a> {
    bytes: &'a [u8],
    at: usize,
    ghost in_bytes: { at ≤ length bytes.now },
}

impl<'a> SliceSource<'a> {
    ghost use Rattle.io_links.specs.Slices.{slice_left, slice_whole};

    /// A source of these bytes.
    pub fn new(bytes: &'a [u8]) -> Self
        ensures left { slice_left result ≡ bytes.now }
        ensures whole { slice_whole result ≡ bytes.now }
    {
        SliceSource { bytes, at: 0 }
    }
}

impl<'a> Source for SliceSource<'a> {
    ghost use Rattle.io_links.specs.Slices.{slice_left, slice_whole, slice_reads};

    ghost reads = { λ s. slice_reads s };

    fn read(&mut self, into: &mut [u8]) -> Result<u64, Failed>
        // The trait's clauses.
        ensures bound { IfOk result (λ n. n ≤ length into.new) }
        ensures took { IfOk result (λ n. Took (slice_reads self.old) (slice_reads self.new) (take n into.new)) }
        ensures end { IfOk result (λ n. n ≡ 0 → 0 < length into.new → IsAtEnd (slice_reads self.new)) }
        ensures err { OnErr result ((slice_reads self.new).left ≡ (slice_reads self.old).left) }
        ensures whole { slice_whole self.new ≡ slice_whole self.old }
        ensures counted { (slice_reads self.old).faults ≤ (slice_reads self.new).faults }
        ensures failed { OnErr result (ReadFails (slice_reads self.old) (slice_reads self.new)) }

        // It never fails, and gives as much as there is room for.
        ensures ok { IsOk result }
        ensures count { IfOk result (λ n. n ≡ min (length into.new) (length (slice_left self.old))) }
    {
        let n = into.len().min(self.bytes.len() - self.at);
        into[..n].copy_from_slice(&self.bytes[self.at..self.at + n]);
        self.at += n;
        Ok(n as u64)
    }

    fn faults(&self) -> u64 {
        0
    }
}
