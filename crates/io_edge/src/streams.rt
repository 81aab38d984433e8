// Readers and writers of std as a source and a sink. They count their faults and tell no bytes.
ghost use Rattle.std.specs.Prelude.{◌≡◌, ◌≤◌, ◌<◌, length, IfOk, OnOk, OnErr};
ghost use Rattle.std.specs.Io.KnownBytes.{ReadConsumes, WriteAppends};
ghost use Rattle.io_edge.specs.Edge.{ReadFails, WriteFails};

use crate::{Failed, Sink, Source};
use std::io;

/// A reader of std as a source, which tells no bytes. An interrupted read counts as a failed one.
#[derive(Drop)]
pub struct Reading<R: io::Read + Drop> {
    inner: R,
    faults: u64,
}

impl<R: io::Read + Drop> Reading<R> {
    ghost use Rattle.io_edge.specs.Streams.{read_faults};

    /// A source over a reader, with no fault so far.
    pub fn new(inner: R) -> Self
        ensures faults { read_faults result ≡ 0 }
    {
        Reading { inner, faults: 0 }
    }
}

impl<R: io::Read + Drop> Source for Reading<R> {
    ghost use Rattle.io_edge.specs.Streams.{reader, read_faults, told_reads};

    ghost reads = { λ s. told_reads s };

    fn read(&mut self, into: &mut [u8]) -> Result<u64, Failed>
        // What the reader gave, or nothing where it failed.
        ensures passed { ReadConsumes (R.remaining (reader self.old)) (R.remaining (reader self.new))
            result into.new }
        ensures bound { IfOk result (λ n. n ≤ length into.new) }
        ensures counted { read_faults self.old ≤ read_faults self.new }
        ensures failed { OnErr result (ReadFails (told_reads self.old) (told_reads self.new)) }
        // Nothing else counts.
        ensures none_else { OnOk result (read_faults self.new ≡ read_faults self.old) }
    {
        match self.inner.read(into) {
            Ok(n) => Ok(n as u64),
            Err(_) => {
                self.faults = self.faults.saturating_add(1);
                Err(Failed)
            }
        }
    }

    fn faults(&self) -> u64 {
        self.faults
    }
}

/// A writer of std as a sink, which tells no bytes. It flushes nothing: hand it a writer without a
/// buffer.
#[derive(Drop)]
pub struct Writing<W: io::Write + Drop> {
    inner: W,
    faults: u64,
}

impl<W: io::Write + Drop> Writing<W> {
    ghost use Rattle.io_edge.specs.Streams.{write_faults};

    /// A sink over a writer, with no fault so far.
    pub fn new(inner: W) -> Self
        ensures faults { write_faults result ≡ 0 }
    {
        Writing { inner, faults: 0 }
    }
}

impl<W: io::Write + Drop> Sink for Writing<W> {
    ghost use Rattle.io_edge.specs.Streams.{writer, write_faults, told_writes};

    ghost writes = { λ s. told_writes s };

    fn write(&mut self, bytes: &[u8]) -> Result<u64, Failed>
        // What the writer took, or nothing where it failed.
        ensures passed { WriteAppends (W.contents (writer self.old)) (W.contents (writer self.new))
            result bytes.now }
        ensures bound { IfOk result (λ n. n ≤ length bytes.now) }
        ensures none { IfOk result (λ n. n ≡ 0 → 0 < length bytes.now
            → WriteFails (told_writes self.old) (told_writes self.new)) }
        ensures counted { write_faults self.old ≤ write_faults self.new }
        ensures failed { OnErr result (WriteFails (told_writes self.old) (told_writes self.new)) }
        // Nothing else counts.
        ensures none_else { IfOk result (λ n. 0 < n
            → write_faults self.new ≡ write_faults self.old) }
        ensures empty { OnOk result (length bytes.now ≡ 0
            → write_faults self.new ≡ write_faults self.old) }
    {
        match self.inner.write(bytes) {
            // A writer that takes nothing of something is full: going on would never end.
            Ok(0) if !bytes.is_empty() => {
                self.faults = self.faults.saturating_add(1);
                Ok(0)
            }
            Ok(n) => Ok(n as u64),
            Err(_) => {
                self.faults = self.faults.saturating_add(1);
                Err(Failed)
            }
        }
    }

    fn faults(&self) -> u64 {
        self.faults
    }
}
