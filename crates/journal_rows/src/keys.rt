// Keys under which rows are found.
ghost use Rattle.std.specs.Prelude.{◌≡◌};
ghost use Rattle.journal_rows.specs.Keys.{row_key, origin_key};

use crate::row::Row;
use lang_core::Origin;
use lang_lists::{call_key, text_key};

fn origin_key(id: u64, origin: &Origin) -> u64
    ensures { result ≡ origin_key id origin.now }
{
    match origin {
        Origin::Outside => id,
        Origin::Call { caller, number } => call_key(caller.text(), *number),
    }
}

/// The key of a row: that of another service's call where the row says that a version of it was taken, acknowledged or
/// answered, that of an order's token, and else a number, which is an own call's in the rows on own calls.
pub(crate) fn row_key(row: &Row) -> u64
    ensures { result ≡ row_key row.now }
{
    match row {
        Row::Asked(row) => row.id,
        Row::Took(row) => call_key(row.caller.text(), row.number),
        Row::Acked(row) => call_key(row.caller.text(), row.number),
        Row::Answered(row) => origin_key(row.id, &row.origin),
        Row::WasConfirmed(row) => row.number,
        Row::Sent(row) => row.number,
        Row::SawAck(row) => row.number,
        Row::Noted(row) => row.number,
        Row::SawAnswer(row) => row.number,
        Row::Confirmed(row) => row.number,
        Row::Ordered(row) => text_key(&row.get().token),
    }
}
