// All of a source, and all of a text to a sink.
ghost use Rattle.std.specs.Prelude.{◌≡◌, ◌+◌, ◌<◌, ◌≤◌, length, IfOk, OnOk, OnErr, IsErrOf};
ghost use Rattle.std.specs.Option.{ForSome};
ghost use Rattle.io_edge.specs.Edge.{Took, TookUpTo, IsAtEnd, Wrote, WroteShort, ReadFails, WriteFails};
ghost use Rattle.io_edge.specs.declared.whole.ReadRefused.TheVariants.{NoMemory, Fault};

use crate::{Failed, Sink, Source};
use std::alloc::{AllocError, Global};

/// The most bytes that one read of `read_all` asks for.
const PIECE: usize = 4096;

/// Why a source was not read to its end.
#[derive(Clone, Copy, Debug, PartialEq, Eq)]
pub enum ReadRefused {
    /// No memory for the bytes.
    NoMemory,
    /// A read failed, and the source's count of faults rose.
    Fault,
    /// More bytes are left than the limit.
    TooLong,
}

impl From<AllocError> for ReadRefused {
    ghost from_gives = { λ _ e. e ≡ NoMemory };

    fn from(_: AllocError) -> Self {
        ReadRefused::NoMemory
    }
}

impl From<Failed> for ReadRefused {
    ghost from_gives = { λ _ e. e ≡ Fault };

    fn from(_: Failed) -> Self {
        ReadRefused::Fault
    }
}

/// All bytes that are left in a source, where they are no more than `limit`.
///
/// It takes at most `limit + 1` bytes, the last only to see that there is one. After an `Err` a
/// front of what was left is gone. `TooLong` comes exactly where more than `limit` bytes are left,
/// unless a read fails or memory runs out before that is seen.
pub fn read_all<S: Source>(
    alloc: Global,
    source: &mut S,
    limit: u64,
) -> Result<Vec<u8>, ReadRefused>
    ensures took { IfOk result (λ v. Took (S.reads source.old) (S.reads source.new) v.items) }
    ensures end { OnOk result (IsAtEnd (S.reads source.new)) }
    ensures all { IfOk result (λ v. ForSome (S.reads source.old).left (λ all. v.items ≡ all)) }
    ensures within { IfOk result (λ v. length v.items ≤ limit) }
    ensures too_long { IsErrOf result ReadRefused.TooLong
        → ForSome (S.reads source.old).left (λ all. limit < length all) }
    ensures err { OnErr result (TookUpTo (limit + 1) (S.reads source.old) (S.reads source.new)) }
    ensures whole { (S.reads source.new).whole ≡ (S.reads source.old).whole }
    ensures beside { S.beside source.new ≡ S.beside source.old }

    ensures counted { (S.reads source.old).faults ≤ (S.reads source.new).faults }
    ensures fault { IsErrOf result ReadRefused.Fault
        → ReadFails (S.reads source.old) (S.reads source.new) }
{
    let mut bytes = Vec::new(alloc);
    let mut piece = [0u8; PIECE];
    loop {
        let room = limit - bytes.len() as u64;
        let most = room.min(PIECE as u64 - 1) as usize + 1;
        let n = source.read(&mut piece[..most])?;
        if n == 0 {
            return Ok(bytes);
        }
        if n > room {
            return Err(ReadRefused::TooLong);
        }
        bytes.extend_from_slice(&piece[..n as usize])?;
    }
}

/// Writes all of the bytes. After an `Err` a front of them was written, perhaps none but not all.
pub fn write_all<K: Sink>(sink: &mut K, bytes: &[u8]) -> Result<(), Failed>
    ensures ok { OnOk result (Wrote (K.writes sink.old) (K.writes sink.new) bytes.now) }
    ensures err { OnErr result (WroteShort (K.writes sink.old) (K.writes sink.new) bytes.now) }
    ensures beside { K.beside sink.new ≡ K.beside sink.old }

    ensures counted { (K.writes sink.old).faults ≤ (K.writes sink.new).faults }
    ensures failed { OnErr result (WriteFails (K.writes sink.old) (K.writes sink.new)) }
{
    let mut at = 0;
    while at < bytes.len() {
        let n = sink.write(&bytes[at..])? as usize;
        if n == 0 {
            return Err(Failed);
        }
        at += n;
    }
    Ok(())
}
