// What is written on a connection of a receipt.
ghost use Rattle.std.specs.Prelude.{◌≡◌, IsSome, IsSomeAnd};
ghost use Rattle.node_workers.specs.Written.{last_of, IsCommitWritten};

use io_edge::{Connection, Failed};
use node_core::Pass;
use node_exchanges::{Served, write_bytes};
use std::sync::ledger::Ledger;

/// Writes the reply of the worker's last receipt, whose answer stands at this index.
pub(crate) fn write_last<Q: Ledger, C: Connection>(
    pass: &Pass<Q>,
    conn: &mut C,
    index: u64,
) -> Served
    requires some { IsSome (last_of pass.now.receipts.items) }
    ensures wrote { IsSomeAnd (last_of pass.now.receipts.items) (λ r. IsCommitWritten index r.reply (C.Sink.writes conn.old) (C.Sink.writes conn.new) result) }
    ensures beside { C.Sink.beside conn.new ≡ C.Sink.beside conn.old }
{
    let Some(receipt) = pass.receipts().last() else {
        unreachable!()
    };
    match write_bytes(conn, receipt.reply.as_slice()) {
        Ok(()) => Served::Committed(index),
        Err(Failed) => Served::WriteFault,
    }
}
