// What a program reads from and writes to.
ghost use Rattle.std.specs.Prelude.{◌≡◌, ◌<◌, ◌≤◌, None, length, take, IfOk, OnErr};
ghost use Rattle.io_edge.specs.Edge.{Reads, Writes, Took, IsAtEnd, Wrote, ReadFails, WriteFails};

/// A read or a write failed. It is answered only where that object's count of faults rose in the
/// call, or stands at the greatest `u64`.
#[derive(Clone, Copy, Debug, PartialEq, Eq)]
pub struct Failed;

/// What bytes come from. A source that knows its bytes tells them to contracts, as one in memory
/// does; a file or a socket tells none.
pub trait Source {
    /// What the source tells: the bytes that are left, all that it ever had, and its count of
    /// faults.
    ghost reads: { Self → Reads };

    /// What a read leaves as it is where the source is a sink too: what that tells.
    ghost beside: { Self → Writes } = { λ _. record { written = None; faults = 0 } };

    /// Reads into the front of `into`, and answers how many bytes came. It may be fewer than there
    /// is room for; 0 where there is room is the end. After a failure nothing was taken, and the
    /// next call goes on.
    fn read(&mut self, into: &mut [u8]) -> Result<u64, Failed>
        ensures bound { IfOk result (λ n. n ≤ length into.new) }
        ensures took { IfOk result (λ n. Took (reads self.old) (reads self.new) (take n into.new)) }
        ensures end { IfOk result (λ n. n ≡ 0 → 0 < length into.new → IsAtEnd (reads self.new)) }
        ensures err { OnErr result ((reads self.new).left ≡ (reads self.old).left) }
        ensures whole { (reads self.new).whole ≡ (reads self.old).whole }
        ensures beside { beside self.new ≡ beside self.old }

        ensures counted { (reads self.old).faults ≤ (reads self.new).faults }
        ensures failed { OnErr result (ReadFails (reads self.old) (reads self.new)) };

    /// How many reads have failed, up to the greatest `u64`.
    fn faults(&self) -> u64
        ensures { result ≡ (reads self.now).faults };
}

/// Where bytes go to. A sink that knows what was written tells it to contracts, as one in memory
/// does.
pub trait Sink {
    /// What the sink tells: the bytes that were written, and its count of faults.
    ghost writes: { Self → Writes };

    /// What a write leaves as it is where the sink is a source too: what that tells.
    ghost beside: { Self → Reads } = { λ _. record { left = None; whole = None; faults = 0 } };

    /// Writes a front of `bytes`, and answers how many of them it took. 0 for bytes that aren't
    /// empty counts as a fault. After a failure nothing was written, and the next call goes on.
    fn write(&mut self, bytes: &[u8]) -> Result<u64, Failed>
        ensures bound { IfOk result (λ n. n ≤ length bytes.now) }
        ensures wrote { IfOk result (λ n.
            Wrote (writes self.old) (writes self.new) (take n bytes.now)) }
        ensures none { IfOk result (λ n. n ≡ 0 → 0 < length bytes.now
            → WriteFails (writes self.old) (writes self.new)) }
        ensures err { OnErr result ((writes self.new).written ≡ (writes self.old).written) }
        ensures beside { beside self.new ≡ beside self.old }

        ensures counted { (writes self.old).faults ≤ (writes self.new).faults }
        ensures failed { OnErr result (WriteFails (writes self.old) (writes self.new)) };

    /// How many writes have failed, up to the greatest `u64`.
    fn faults(&self) -> u64
        ensures { result ≡ (writes self.now).faults };
}

/// A source and a sink in one, as a socket is: a read leaves what was written, and a write what is
/// left.
pub trait Connection: Source + Sink {
    /// What a read keeps is the sink half.
    ghost read_keeps: { (c : Self) → Self.Source.beside c ≡ Self.writes c };

    /// What a write keeps is the source half.
    ghost write_keeps: { (c : Self) → Self.Sink.beside c ≡ Self.reads c };
}
