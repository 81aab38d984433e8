// Receipts: what is kept of each live request that was answered.
ghost use Rattle.std.specs.Prelude.{◌≡◌, Some, IfOk, IsSomeAnd, slice_get, true};
ghost use Rattle.std.specs.Option.{option_copied};
ghost use Rattle.journal_rows.specs.declared.row.Row.TheVariants.{Answered as AnsweredAs};
ghost use Rattle.service_events.specs.Commits.{is_live_row};
ghost use Rattle.node_core.specs.Replies.{answer_to, receiver, reply_of, reply_bytes};
ghost use Rattle.node_core.specs.Memos.{IsIn};
ghost use Rattle.node_core.specs.Receipts.{IsReceiptAt};

use crate::receipt::Receipt;
use http_front::response_bytes;
use journal_rows::{AnsweredRow, Row, Rows};
use lang_core::{Bytes, Copied, Inputs, Name, NoMemory, Origin, Request, RequestId, Text};
use repair_messages::{AnswerMessage, copied_pair};
use service_core::Service;
use std::alloc::Global;
use std::sync::Wait;
use std::thread;
use wire_replies::{Outgoing, write_reply};

fn answer_message(
    alloc: Global,
    me: &Name,
    row: &AnsweredRow,
    caller: &Name,
    number: u64,
) -> Result<AnswerMessage, NoMemory>
    ensures { IfOk result (λ answer. Some answer ≡ answer_to me.now row.now (Origin.Call caller.now number)) }
{
    let (caller, callee) = copied_pair(alloc, caller, me)?;
    let (response, who) = copied_pair(alloc, &row.response, me.text())?;
    Ok(AnswerMessage {
        caller,
        callee,
        id: row.id,
        number,
        answer_version: row.answer_version,
        version: row.version,
        response,
        who,
    })
}

fn answer_to(alloc: Global, me: &Name, row: &AnsweredRow) -> Result<Option<AnswerMessage>, NoMemory>
    ensures { IfOk result (λ answer. answer ≡ answer_to me.now row.now row.now.origin) }
{
    match &row.origin {
        Origin::Outside => Ok(None),
        Origin::Call { caller, number } => match answer_message(alloc, me, row, caller, *number) {
            Ok(answer) => Ok(Some(answer)),
            Err(why) => Err(why),
        },
    }
}

fn reply_of(alloc: Global, me: &Name, row: &AnsweredRow) -> Result<Outgoing, NoMemory>
    ensures { IfOk result (λ reply. reply ≡ reply_of me.now row.now) }
{
    let (service, response) = copied_pair(alloc, me, &row.response)?;
    match answer_to(alloc, me, row) {
        Ok(answer) => Ok(Outgoing::Answered {
            id: RequestId {
                service,
                number: row.id,
            },
            answer,
            response,
        }),
        Err(why) => Err(why),
    }
}

fn receiver(origin: &Origin) -> Option<&Name>
    ensures { option_copied result ≡ receiver origin.now }
{
    match origin {
        Origin::Outside => None,
        Origin::Call { caller, .. } => Some(caller),
    }
}

fn reply_bytes(
    alloc: Global,
    me: &Name,
    secret: &Text,
    row: &AnsweredRow,
) -> Result<Bytes, NoMemory>
    ensures { IfOk result (λ bytes. bytes ≡ reply_bytes me.now secret.now row.now) }
{
    let reply = reply_of(alloc, me, row)?;
    match write_reply(alloc, me, receiver(&row.origin), &reply, secret) {
        Ok(response) => response_bytes(alloc, &response),
        Err(why) => Err(why),
    }
}

// The answer at a place where one stands.
fn answer_at(rows: &Rows, place: u64) -> &AnsweredRow
    requires { IsSomeAnd (slice_get rows.now.rows place) (λ row. is_live_row row ≡ true) }
    ensures there { slice_get rows.now.rows place ≡ Some (AnsweredAs result.now) }
    ensures live { result.now.live ≡ true }
{
    match rows.at(place) {
        Some(Row::Answered(row)) => row,
        _ => unreachable!(),
    }
}

// What is written of an answer.
#[derive(Drop)]
struct WrittenAnswer {
    service: Name,
    secret: Text,
    row: AnsweredRow,
    reply: Bytes,
}

fn written(
    alloc: Global,
    me: &Name,
    secret: &Text,
    row: &AnsweredRow,
) -> Result<WrittenAnswer, NoMemory>
    ensures service { IfOk result (λ w. w.service ≡ me.now) }
    ensures secret { IfOk result (λ w. w.secret ≡ secret.now) }
    ensures row { IfOk result (λ w. w.row ≡ row.now) }
    ensures reply { IfOk result (λ w. w.reply ≡ reply_bytes me.now secret.now row.now) }
{
    let reply = reply_bytes(alloc, me, secret, row)?;
    let (service, secret) = copied_pair(alloc, me, secret)?;
    match row.copied(alloc) {
        Ok(row) => Ok(WrittenAnswer {
            service,
            secret,
            row,
            reply,
        }),
        Err(why) => Err(why),
    }
}

fn written_at_last(
    rt: &impl Wait,
    alloc: Global,
    me: &Name,
    secret: &Text,
    row: &AnsweredRow,
) -> WrittenAnswer
    ensures service { result.service ≡ me.now }
    ensures secret { result.secret ≡ secret.now }
    ensures row { result.row ≡ row.now }
    ensures reply { result.reply ≡ reply_bytes me.now secret.now row.now }
{
    for _ in rt.forever() {
        if let Ok(written) = written(alloc, me, secret, row) {
            return written;
        }
        thread::yield_now();
    }
    unreachable!()
}

/// A live request that was committed.
#[derive(Drop)]
pub(crate) struct Committed {
    pub request: Request,
    pub inputs: Inputs,
    /// The index of its answer in the journal.
    pub index: u64,
    /// The number of its entry.
    pub id: u64,
}

/// The receipt for a live request whose answer stands in the service's journal. The request is committed, and its receipt has
/// to be made: so where memory is wanting it tries again until there is some.
pub(crate) fn receipt_of(
    rt: &impl Wait,
    alloc: Global,
    service: &Service,
    secret: &Text,
    committed: Committed,
) -> Receipt
    requires { IsIn service.now.journal committed }
    ensures { IsReceiptAt service.now secret.now committed.request committed.inputs committed.index result }
{
    let Committed {
        request,
        inputs,
        index,
        id: _,
    } = committed;
    let row = answer_at(service.journal(), index);
    let written = written_at_last(rt, alloc, &service.setting().me, secret, row);
    Receipt {
        service: written.service,
        index,
        request,
        inputs,
        row: Row::Answered(written.row),
        secret: written.secret,
        reply: written.reply,
    }
}
