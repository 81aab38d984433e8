// A connection in memory.
ghost use Rattle.std.specs.Prelude.{◌≡◌, ◌<◌, ◌≤◌, ◌↔◌, length, take, min, IsErr, IfOk, OnOk, OnErr};
ghost use Rattle.std.proofs.Common.{refl};
ghost use Rattle.io_edge.specs.Edge.{Took, IsAtEnd, Wrote, ReadFails, WriteFails};
ghost use Rattle.io_edge.specs.Memory.{source_reads, source_left, source_whole, source_faults, source_calls, read_count, sink_writes, sink_bytes, sink_faults, sink_calls, sink_most};
ghost use Rattle.io_edge.specs.Told.{count_after, IsToldToFail};

use crate::{Connection, Failed, MemorySink, MemorySource, Sink, Source};

/// A connection in memory, which tells the bytes of both its halves. Each half fails at the calls
/// that it is told to, and keeps a count of its own.
#[derive(Drop)]
pub struct MemoryConnection {
    /// What the peer sends.
    pub source: MemorySource,
    /// What was sent to the peer.
    pub sink: MemorySink,
}

impl MemoryConnection {
    /// A connection of these two halves.
    pub fn new(source: MemorySource, sink: MemorySink) -> Self
        ensures source { result.source ≡ source }
        ensures sink { result.sink ≡ sink }
    {
        MemoryConnection { source, sink }
    }
}

impl Source for MemoryConnection {
    ghost reads = { λ c. source_reads c.source };

    ghost beside = { λ c. sink_writes c.sink };

    fn read(&mut self, into: &mut [u8]) -> Result<u64, Failed>
        // The trait's clauses.
        ensures bound { IfOk result (λ n. n ≤ length into.new) }
        ensures took { IfOk result (λ n.
            Took (source_reads self.old.source) (source_reads self.new.source) (take n into.new)) }
        ensures end { IfOk result (λ n. n ≡ 0 → 0 < length into.new
            → IsAtEnd (source_reads self.new.source)) }
        ensures err { OnErr result (source_left self.new.source ≡ source_left self.old.source) }
        ensures whole { source_whole self.new.source ≡ source_whole self.old.source }
        ensures beside { self.new.sink ≡ self.old.sink }
        ensures counted { source_faults self.old.source ≤ source_faults self.new.source }
        ensures failed { OnErr result
            (ReadFails (source_reads self.old.source) (source_reads self.new.source)) }

        // It is one read of the source half.
        ensures told { IsErr result ↔ IsToldToFail (source_calls self.old.source) }
        ensures count { IfOk result (λ n. n ≡ read_count self.old.source (length into.new)) }
        ensures one { OnErr result
            (source_faults self.new.source ≡ count_after (source_faults self.old.source)) }
        ensures none_else { OnOk result
            (source_faults self.new.source ≡ source_faults self.old.source) }
        ensures failing { (source_calls self.new.source).failing ≡ (source_calls self.old.source).failing }
        ensures made { (source_calls self.new.source).made ≡ count_after (source_calls self.old.source).made }
    {
        self.source.read(into)
    }

    fn faults(&self) -> u64 {
        self.source.faults()
    }
}

impl Sink for MemoryConnection {
    ghost writes = { λ c. sink_writes c.sink };

    ghost beside = { λ c. source_reads c.source };

    fn write(&mut self, bytes: &[u8]) -> Result<u64, Failed>
        // The trait's clauses.
        ensures bound { IfOk result (λ n. n ≤ length bytes.now) }
        ensures wrote { IfOk result (λ n.
            Wrote (sink_writes self.old.sink) (sink_writes self.new.sink) (take n bytes.now)) }
        ensures none { IfOk result (λ n. n ≡ 0 → 0 < length bytes.now
            → WriteFails (sink_writes self.old.sink) (sink_writes self.new.sink)) }
        ensures err { OnErr result (sink_bytes self.new.sink ≡ sink_bytes self.old.sink) }
        ensures beside { self.new.source ≡ self.old.source }
        ensures counted { sink_faults self.old.sink ≤ sink_faults self.new.sink }
        ensures failed { OnErr result
            (WriteFails (sink_writes self.old.sink) (sink_writes self.new.sink)) }

        // It is one write of the sink half.
        ensures told { IsToldToFail (sink_calls self.old.sink) → IsErr result }
        ensures count { IfOk result (λ n. n ≡ min (length bytes.now) (sink_most self.old.sink)) }
        ensures one { OnErr result
            (sink_faults self.new.sink ≡ count_after (sink_faults self.old.sink)) }
        ensures none_else { OnOk result
            (sink_faults self.new.sink ≡ sink_faults self.old.sink) }
        ensures failing { (sink_calls self.new.sink).failing ≡ (sink_calls self.old.sink).failing }
        ensures made { (sink_calls self.new.sink).made ≡ count_after (sink_calls self.old.sink).made }
    {
        self.sink.write(bytes)
    }

    fn faults(&self) -> u64 {
        self.sink.faults()
    }
}

impl Connection for MemoryConnection {
    ghost read_keeps = { λ c. refl };

    ghost write_keeps = { λ c. refl };
}
