// Rows as changes of registers.
ghost use Rattle.std.specs.Prelude.{◌≡◌, IfOk, OnOk, is_some};
ghost use Rattle.service_events.specs.Calls.{put_sent, after_row, after_rows};
ghost use Rattle.call_registers.specs.Registers.{register, with_ack, with_answer, with_note, at_number, sent_anew};
ghost use Rattle.call_registers.specs.Overlays.{overlaid};
ghost use Rattle.service_events.specs.Calls.{seen_answer};

use crate::numbers::next_of;
use call_registers::{Answer, RegisterChange, RegisterChanges, Registers};
use journal_rows::{NotedRow, Row, SawAnswerRow, SentRow};
use lang_core::{Copied, NoMemory, Request, Shared};
use std::alloc::Global;

// Whether there is a register of this number.
fn is_there(standing: &Registers, changes: &RegisterChanges, number: u64) -> bool
    ensures { result ≡ is_some (register number (overlaid changes.now standing.now.list)) }
{
    changes.find(standing, number).is_some()
}

// What a row says that a call asks, as a register keeps it.
fn asked(alloc: Global, desired: &Option<Shared<Request>>) -> Result<Option<Request>, NoMemory>
    ensures { IfOk result (λ request. request ≡ desired.now) }
{
    match desired {
        None => Ok(None),
        Some(request) => Ok(Some(request.get().copied(alloc)?)),
    }
}

// Another version of a call.
fn note_version(
    alloc: Global,
    standing: &Registers,
    changes: &mut RegisterChanges,
    at: u64,
    sent: &SentRow,
) -> Result<(), NoMemory>
    ensures { OnOk result (overlaid changes.new standing.now.list ≡ at_number sent.now.number (sent_anew sent.now.desired at) (overlaid changes.old standing.now.list)) }
{
    let desired = asked(alloc, &sent.desired)?;
    let change = RegisterChange::Send { desired, since: at };
    changes.change(alloc, standing, sent.number, change)
}

// A call's first row names it; a later one is another version of it.
fn note_sent(
    alloc: Global,
    standing: &Registers,
    changes: &mut RegisterChanges,
    at: u64,
    sent: &SentRow,
) -> Result<(), NoMemory>
    ensures { OnOk result (overlaid changes.new standing.now.list ≡ put_sent at sent.now (register sent.now.number (overlaid changes.old standing.now.list)) (overlaid changes.old standing.now.list)) }
{
    if is_there(standing, changes, sent.number) {
        return note_version(alloc, standing, changes, at, sent);
    }
    match &sent.desired {
        Some(request) => changes.want(alloc, standing, &sent.dest, request.get(), at),
        None => Ok(()),
    }
}

// A token announces another answer.
fn note_token(
    alloc: Global,
    standing: &Registers,
    changes: &mut RegisterChanges,
    at: u64,
    token: &NotedRow,
) -> Result<(), NoMemory>
    ensures { OnOk result (overlaid changes.new standing.now.list ≡ at_number token.now.number (with_note token.now.answer_version token.now.who token.now.rule at) (overlaid changes.old standing.now.list)) }
{
    let change = RegisterChange::Note {
        answer_version: token.answer_version,
        who: token.who.copied(alloc)?,
        rule: token.rule,
        since: at,
    };
    changes.change(alloc, standing, token.number, change)
}

fn note_answer(
    alloc: Global,
    standing: &Registers,
    changes: &mut RegisterChanges,
    seen: &SawAnswerRow,
) -> Result<(), NoMemory>
    ensures { OnOk result (overlaid changes.new standing.now.list ≡ at_number seen.now.number (with_answer (seen_answer seen.now)) (overlaid changes.old standing.now.list)) }
{
    let answer = Answer {
        answer_version: seen.answer_version,
        version: seen.version,
        response: seen.response.copied(alloc)?,
    };
    changes.change(
        alloc,
        standing,
        seen.number,
        RegisterChange::SeeAnswer(answer),
    )
}

/// Changes registers as this row does, which has this index in the journal. Refused, the changes are no use any more.
pub(crate) fn note_row(
    alloc: Global,
    standing: &Registers,
    changes: &mut RegisterChanges,
    at: u64,
    row: &Row,
) -> Result<(), NoMemory>
    ensures { OnOk result (overlaid changes.new standing.now.list ≡ after_row at (overlaid changes.old standing.now.list) row.now) }
{
    match row {
        Row::Sent(sent) => note_sent(alloc, standing, changes, at, sent),
        Row::SawAck(ack) => changes.change(
            alloc,
            standing,
            ack.number,
            RegisterChange::Ack(ack.version),
        ),
        Row::Noted(token) => note_token(alloc, standing, changes, at, token),
        Row::SawAnswer(seen) => note_answer(alloc, standing, changes, seen),
        _ => Ok(()),
    }
}

/// Changes registers as these rows do, the first of which has this index in the journal. Refused, the changes are no use
/// any more.
pub fn note_rows(
    alloc: Global,
    standing: &Registers,
    changes: &mut RegisterChanges,
    first: u64,
    rows: &[Row],
) -> Result<(), NoMemory>
    ensures { OnOk result (overlaid changes.new standing.now.list ≡ after_rows first (overlaid changes.old standing.now.list) rows.now) }
{
    let mut at = first;
    for row in rows {
        note_row(alloc, standing, changes, at, row)?;
        at = next_of(at)?;
    }
    Ok(())
}
