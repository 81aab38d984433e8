// A source and a sink in memory. Each tells its bytes, and fails at the calls that it is told to.
ghost use Rattle.std.specs.Prelude.{◌≡◌, ◌+◌, ◌<◌, ◌≤◌, ◌↔◌, ℕ, List, Some, [], drop, length, take, min, IsErr, IfOk, OnOk, OnErr};
ghost use Rattle.io_edge.specs.Edge.{Took, IsAtEnd, Wrote, ReadFails, WriteFails};

use crate::told::FailingCalls;
use crate::{Failed, Sink, Source};
use std::alloc::Global;

/// A source in memory, which tells its bytes. It gives at most so many bytes a read, and fails at
/// the reads that it is told to.
pub struct MemorySource {
    bytes: Vec<u8>,
    at: usize,
    most: usize,
    calls: FailingCalls,
    ghost in_bytes: { at ≤ length bytes.items },
    ghost moves_on: { 0 < most },
}

impl Drop for MemorySource {
    fn drop(self) {
        let Self {
            bytes: _,
            at: _,
            most: _,
            calls: _,
        } = self;
    }
}

impl MemorySource {
    ghost use Rattle.io_edge.specs.Memory.{source_left, source_whole, source_faults, source_most, source_calls};

    /// A source of these bytes, which gives as many as there is room for. The reads with the
    /// numbers in `failing`, counted from 1, fail.
    pub fn new(bytes: Vec<u8>, failing: Vec<u64>) -> Self
        ensures left { source_left result ≡ bytes.items }
        ensures whole { source_whole result ≡ bytes.items }
        ensures faults { source_faults result ≡ 0 }
        ensures most { source_most result ≡ usize.MAX }
        ensures failing { (source_calls result).failing ≡ failing }
        ensures made { (source_calls result).made ≡ 0 }
    {
        MemorySource::in_pieces(bytes, usize::MAX, failing)
    }

    /// A source of these bytes, which gives at most `most` of them a read. The reads with the
    /// numbers in `failing`, counted from 1, fail.
    pub fn in_pieces(bytes: Vec<u8>, most: usize, failing: Vec<u64>) -> Self
        requires { 0 < most }
        ensures left { source_left result ≡ bytes.items }
        ensures whole { source_whole result ≡ bytes.items }
        ensures faults { source_faults result ≡ 0 }
        ensures most { source_most result ≡ most }
        ensures failing { (source_calls result).failing ≡ failing }
        ensures made { (source_calls result).made ≡ 0 }
    {
        MemorySource {
            bytes,
            at: 0,
            most,
            calls: FailingCalls::new(failing),
        }
    }

    /// The bytes that are left.
    pub fn left(&self) -> &[u8]
        ensures left { result.now ≡ source_left self.now }
    {
        &self.bytes[self.at..]
    }

    /// All the bytes that it ever had.
    pub fn whole(&self) -> &[u8]
        ensures whole { result.now ≡ source_whole self.now }
    {
        &self.bytes
    }
}

impl Source for MemorySource {
    ghost use Rattle.io_edge.specs.Memory.{source_left, source_whole, source_faults, source_reads, source_most, source_calls, read_count};
    ghost use Rattle.io_edge.specs.Told.{count_after, IsToldToFail};

    ghost reads = { λ s. source_reads s };

    fn read(&mut self, into: &mut [u8]) -> Result<u64, Failed>
        // The trait's clauses.
        ensures bound { IfOk result (λ n. n ≤ length into.new) }
        ensures took { IfOk result (λ n.
            Took (source_reads self.old) (source_reads self.new) (take n into.new)) }
        ensures end { IfOk result (λ n. n ≡ 0 → 0 < length into.new
            → IsAtEnd (source_reads self.new)) }
        ensures err { OnErr result (source_left self.new ≡ source_left self.old) }
        ensures whole { source_whole self.new ≡ source_whole self.old }
        ensures counted { source_faults self.old ≤ source_faults self.new }
        ensures failed { OnErr result (ReadFails (source_reads self.old) (source_reads self.new)) }

        // Each failed read counts once, and nothing else counts.
        ensures one { OnErr result (source_faults self.new ≡ count_after (source_faults self.old)) }
        ensures none_else { OnOk result (source_faults self.new ≡ source_faults self.old) }

        // It fails exactly where it is told to, and gives as much as it may.
        ensures told { IsErr result ↔ IsToldToFail (source_calls self.old) }
        ensures count { IfOk result (λ n. n ≡ read_count self.old (length into.new)) }
        ensures most { source_most self.new ≡ source_most self.old }
        ensures failing { (source_calls self.new).failing ≡ (source_calls self.old).failing }
        ensures made { (source_calls self.new).made ≡ count_after (source_calls self.old).made }
    {
        if self.calls.fails() {
            self.calls.fault();
            return Err(Failed);
        }
        let n = into.len().min(self.most).min(self.bytes.len() - self.at);
        into[..n].copy_from_slice(&self.bytes[self.at..self.at + n]);
        self.at += n;
        Ok(n as u64)
    }

    fn faults(&self) -> u64 {
        self.calls.faults
    }
}

/// A sink in memory, which tells what was written. It takes at most so many bytes a write, and
/// fails at the writes that it is told to. Want of memory for the bytes is a failed write too.
pub struct MemorySink {
    bytes: Vec<u8>,
    most: usize,
    calls: FailingCalls,
    ghost moves_on: { 0 < most },
}

impl Drop for MemorySink {
    fn drop(self) {
        let Self {
            bytes: _,
            most: _,
            calls: _,
        } = self;
    }
}

impl MemorySink {
    ghost use Rattle.io_edge.specs.Memory.{sink_bytes, sink_faults, sink_most, sink_calls};

    /// An empty sink, which takes all that it is given. The writes with the numbers in `failing`,
    /// counted from 1, fail.
    pub fn new(alloc: Global, failing: Vec<u64>) -> Self
        ensures empty { sink_bytes result ≡ [] }
        ensures faults { sink_faults result ≡ 0 }
        ensures most { sink_most result ≡ usize.MAX }
        ensures failing { (sink_calls result).failing ≡ failing }
        ensures made { (sink_calls result).made ≡ 0 }
    {
        MemorySink::in_pieces(alloc, usize::MAX, failing)
    }

    /// An empty sink, which takes at most `most` bytes a write. The writes with the numbers in
    /// `failing`, counted from 1, fail.
    pub fn in_pieces(alloc: Global, most: usize, failing: Vec<u64>) -> Self
        requires { 0 < most }
        ensures empty { sink_bytes result ≡ [] }
        ensures faults { sink_faults result ≡ 0 }
        ensures most { sink_most result ≡ most }
        ensures failing { (sink_calls result).failing ≡ failing }
        ensures made { (sink_calls result).made ≡ 0 }
    {
        MemorySink {
            bytes: Vec::new(alloc),
            most,
            calls: FailingCalls::new(failing),
        }
    }

    /// What was written.
    pub fn bytes(&self) -> &[u8]
        ensures bytes { result.now ≡ sink_bytes self.now }
    {
        &self.bytes
    }
}

impl Sink for MemorySink {
    ghost use Rattle.io_edge.specs.Memory.{sink_bytes, sink_faults, sink_writes, sink_most, sink_calls};
    ghost use Rattle.io_edge.specs.Told.{count_after, IsToldToFail};

    ghost writes = { λ s. sink_writes s };

    fn write(&mut self, bytes: &[u8]) -> Result<u64, Failed>
        // The trait's clauses.
        ensures bound { IfOk result (λ n. n ≤ length bytes.now) }
        ensures wrote { IfOk result (λ n.
            Wrote (sink_writes self.old) (sink_writes self.new) (take n bytes.now)) }
        ensures none { IfOk result (λ n. n ≡ 0 → 0 < length bytes.now
            → WriteFails (sink_writes self.old) (sink_writes self.new)) }
        ensures err { OnErr result (sink_bytes self.new ≡ sink_bytes self.old) }
        ensures counted { sink_faults self.old ≤ sink_faults self.new }
        ensures failed { OnErr result (WriteFails (sink_writes self.old) (sink_writes self.new)) }

        // Each failed write counts once, and nothing else counts.
        ensures one { OnErr result (sink_faults self.new ≡ count_after (sink_faults self.old)) }
        ensures none_else { OnOk result (sink_faults self.new ≡ sink_faults self.old) }

        // It fails where it is told to, or memory runs out, and takes as much as it may.
        ensures told { IsToldToFail (sink_calls self.old) → IsErr result }
        ensures count { IfOk result (λ n. n ≡ min (length bytes.now) (sink_most self.old)) }
        ensures most { sink_most self.new ≡ sink_most self.old }
        ensures failing { (sink_calls self.new).failing ≡ (sink_calls self.old).failing }
        ensures made { (sink_calls self.new).made ≡ count_after (sink_calls self.old).made }
    {
        if self.calls.fails() {
            self.calls.fault();
            return Err(Failed);
        }
        let n = bytes.len().min(self.most);
        if self.bytes.extend_from_slice(&bytes[..n]).is_err() {
            self.calls.fault();
            return Err(Failed);
        }
        Ok(n as u64)
    }

    fn faults(&self) -> u64 {
        self.calls.faults
    }
}
