// A row of a journal.
ghost use Rattle.std.specs.Prelude.{◌≡◌, IfOk};
ghost use Rattle.journal_rows.specs.declared.row.Row.{Row};

use crate::callee::{AckedRow, AnsweredRow, AskedRow, TookRow, WasConfirmedRow};
use crate::caller::{ConfirmedRow, NotedRow, SawAckRow, SawAnswerRow, SentRow};
use crate::orders::OrderedRow;
use lang_core::{Boxed, Copied, NoMemory, Same};
use std::alloc::Global;

/// A row of a journal.
pub enum Row {
    /// An entry was made.
    Asked(AskedRow),
    /// A version of a caller's call was taken.
    Took(TookRow),
    /// A message with a version of a caller's call was acknowledged.
    Acked(AckedRow),
    /// An entry has an answer that it didn't have before.
    Answered(AnsweredRow),
    /// A caller confirmed an answer.
    WasConfirmed(WasConfirmedRow),
    /// A version of an own call was named.
    Sent(SentRow),
    /// A version of an own call was seen to be acknowledged.
    SawAck(SawAckRow),
    /// A token announced an answer to an own call.
    Noted(NotedRow),
    /// An answer to an own call was seen.
    SawAnswer(SawAnswerRow),
    /// A token that announced an answer to an own call was confirmed.
    Confirmed(ConfirmedRow),
    /// An order was accepted. Its row is the largest by far and the rarest, so it stands apart.
    Ordered(Boxed<OrderedRow>),
}

impl Drop for Row {
    fn drop(self) {
        match self {
            Self::Asked(_)
            | Self::Took(_)
            | Self::Acked(_)
            | Self::Answered(_)
            | Self::WasConfirmed(_)
            | Self::Sent(_)
            | Self::SawAck(_)
            | Self::Noted(_)
            | Self::SawAnswer(_)
            | Self::Confirmed(_)
            | Self::Ordered(_) => {}
        }
    }
}

// A journal is never cut, so what stands in each of its rows is paid for good.
const _: () = prove!(size_of::<Row>() == 80);

impl Row {
    /// The row of an order that was accepted.
    pub fn ordered(alloc: Global, order: OrderedRow) -> Result<Row, NoMemory>
        ensures { IfOk result (λ row. row ≡ Row.Ordered order) }
    {
        Ok(Row::Ordered(Boxed::new(alloc, order)?))
    }
}

impl Copied for Row {
    fn copied(&self, alloc: Global) -> Result<Row, NoMemory> {
        match self {
            Row::Asked(row) => row.copied(alloc).map(Row::Asked),
            Row::Took(row) => row.copied(alloc).map(Row::Took),
            Row::Acked(row) => row.copied(alloc).map(Row::Acked),
            Row::Answered(row) => row.copied(alloc).map(Row::Answered),
            Row::WasConfirmed(row) => row.copied(alloc).map(Row::WasConfirmed),
            Row::Sent(row) => row.copied(alloc).map(Row::Sent),
            Row::SawAck(row) => Ok(Row::SawAck(*row)),
            Row::Noted(row) => row.copied(alloc).map(Row::Noted),
            Row::SawAnswer(row) => row.copied(alloc).map(Row::SawAnswer),
            Row::Confirmed(row) => Ok(Row::Confirmed(*row)),
            Row::Ordered(row) => Row::ordered(alloc, row.get().copied(alloc)?),
        }
    }
}

impl Same for Row {
    fn is(&self, other: &Row) -> bool {
        match (self, other) {
            (Row::Asked(left), Row::Asked(right)) => left.is(right),
            (Row::Took(left), Row::Took(right)) => left.is(right),
            (Row::Acked(left), Row::Acked(right)) => left.is(right),
            (Row::Answered(left), Row::Answered(right)) => left.is(right),
            (Row::WasConfirmed(left), Row::WasConfirmed(right)) => left.is(right),
            (Row::Sent(left), Row::Sent(right)) => left.is(right),
            (Row::SawAck(left), Row::SawAck(right)) => *left == *right,
            (Row::Noted(left), Row::Noted(right)) => left.is(right),
            (Row::SawAnswer(left), Row::SawAnswer(right)) => left.is(right),
            (Row::Confirmed(left), Row::Confirmed(right)) => *left == *right,
            (Row::Ordered(left), Row::Ordered(right)) => left.get().is(right.get()),
            _ => false,
        }
    }
}
