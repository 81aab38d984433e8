// One exchange over a connection.
ghost use Rattle.std.specs.Prelude.{◌≡◌, ◌≤◌, ◌<◌, length, IfOk, OnErr, IsErrOf};
ghost use Rattle.io_edge.specs.Edge.{Took, IsAtEnd, Wrote, ReadFails};
ghost use Rattle.tcp_links.specs.Exchanging.{OfReply, NotesOneOf};

use io_edge::{Connection, ReadRefused, Sink, Source, write_all};
use io_links::Exchange;
use lang_core::{Bytes, FaultNote};
use std::alloc::Global;

/// The most bytes that one read asks for.
const PIECE: usize = 4096;

/// All bytes that are left in a source, or the first `limit` of them.
pub fn read_up_to<S: Source>(
    alloc: Global,
    source: &mut S,
    limit: u64,
) -> Result<Vec<u8>, ReadRefused>
    ensures took { IfOk result (λ v. Took (S.reads source.old) (S.reads source.new) v.items) }
    ensures within { IfOk result (λ v. length v.items ≤ limit) }
    ensures end { IfOk result (λ v. length v.items < limit → IsAtEnd (S.reads source.new)) }
    ensures whole { (S.reads source.new).whole ≡ (S.reads source.old).whole }
    ensures beside { S.beside source.new ≡ S.beside source.old }
    ensures counted { (S.reads source.old).faults ≤ (S.reads source.new).faults }
    ensures fault { IsErrOf result ReadRefused.Fault
        → ReadFails (S.reads source.old) (S.reads source.new) }
    ensures not_long { IsErrOf result ReadRefused.TooLong → ⊥ }
{
    let mut bytes = Vec::new(alloc);
    let mut piece = [0u8; PIECE];
    while (bytes.len() as u64) < limit {
        let room = limit - bytes.len() as u64;
        let most = room.min(PIECE as u64) as usize;
        let n = source.read(&mut piece[..most])?;
        if n == 0 {
            return Ok(bytes);
        }
        bytes.extend_from_slice(&piece[..n as usize])?;
    }
    Ok(bytes)
}

/// Writes all of these bytes to a connection, and reads all that comes back, or the first `limit`
/// bytes of it.
///
/// A reply is exactly what was read. A failure comes only where a count of the connection rose in
/// this call, and tells that count before and after.
pub fn exchange_over<C: Connection>(
    alloc: Global,
    conn: &mut C,
    bytes: &[u8],
    limit: u64,
) -> Exchange
    ensures wrote { OfReply result (λ reply. Wrote (C.Sink.writes conn.old) (C.Sink.writes conn.new) bytes.now) }
    ensures took { OfReply result (λ reply. Took (C.Source.reads conn.old) (C.Source.reads conn.new) reply) }
    ensures within { OfReply result (λ reply. length reply ≤ limit) }
    ensures end { OfReply result (λ reply. length reply < limit → IsAtEnd (C.Source.reads conn.new)) }
    ensures failed { NotesOneOf (C.Source.reads conn.old) (C.Source.reads conn.new)
        (C.Sink.writes conn.old) (C.Sink.writes conn.new) result }
{
    let before = Sink::faults(&*conn);
    if write_all(conn, bytes).is_err() {
        let after = Sink::faults(&*conn);
        return Exchange::Failed(FaultNote { before, after });
    }
    let before = Source::faults(&*conn);
    match read_up_to(alloc, conn, limit) {
        Ok(reply) => Exchange::Reply(Bytes::from(reply)),
        Err(ReadRefused::NoMemory) => Exchange::NoMemory,
        Err(_) => {
            let after = Source::faults(&*conn);
            Exchange::Failed(FaultNote { before, after })
        }
    }
}
