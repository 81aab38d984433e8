// An answer that was fetched.
ghost use Rattle.std.specs.Prelude.{◌≡◌, ◌∷◌, [], Ok, IfOk, OnOk, OnErr};
ghost use Rattle.std.specs.Option.{option_copied};
ghost use Rattle.repair_messages.specs.declared.posts.Post.{Post};
ghost use Rattle.journal_rows.specs.Words.{noted_at};
ghost use Rattle.call_registers.specs.Registers.{register};
ghost use Rattle.service_events.specs.Calls.{noted};
ghost use Rattle.service_events.specs.Messages.{fetched_row, posted};
ghost use Rattle.service_events.specs.State.{after};
ghost use Rattle.service_events.specs.declared.answers.PostReply.{PostReply};
ghost use Rattle.service_parts.specs.Parts.{kept};
ghost use Rattle.service_parts.specs.Services.{HasRoom};
ghost use Rattle.service_deliveries.specs.Fetching.{sight_by, sight_of, sight_where};

use crate::noting::note_at_once;
use call_registers::{Register, is_newer};
use journal_rows::{NotedRow, Row, SawAnswerRow, SawHow};
use lang_core::NoMemory;
use repair_messages::{AnswerMessage, copied_pair};
use service_events::Posted;
use service_parts::Parts;
use std::alloc::Global;

/// What comes of an answer that was fetched.
#[derive(Drop)]
pub(crate) enum Sight {
    /// It is above the one that is held, and noted by this row.
    New(Row),
    /// It isn't.
    Known,
    /// The service has no such call, or no token announced the answer.
    Unasked,
}

// The row of an answer that this token announced.
fn fetched_row(alloc: Global, answer: &AnswerMessage, token: &NotedRow) -> Result<Row, NoMemory>
    ensures { IfOk result (λ row. row ≡ fetched_row answer.now token.now) }
{
    let (response, who) = copied_pair(alloc, &answer.response, &token.who)?;
    Ok(Row::SawAnswer(SawAnswerRow {
        number: answer.number,
        answer_version: answer.answer_version,
        version: answer.version,
        response,
        how: SawHow::Fetch,
        who,
        rule: token.rule,
    }))
}

fn sight_by(
    alloc: Global,
    answer: &AnswerMessage,
    register: &Register,
    token: &NotedRow,
) -> Result<Sight, NoMemory>
    ensures { IfOk result (λ sight. sight ≡ sight_by answer.now register.now token.now) }
{
    if is_newer(&register.answer, answer.answer_version) {
        let row = fetched_row(alloc, answer, token)?;
        Ok(Sight::New(row))
    } else {
        Ok(Sight::Known)
    }
}

fn sight_of(
    alloc: Global,
    answer: &AnswerMessage,
    register: &Register,
    token: Option<&NotedRow>,
) -> Result<Sight, NoMemory>
    ensures { IfOk result (λ sight. sight ≡ sight_of answer.now register.now (option_copied token.entry)) }
{
    match token {
        None => Ok(Sight::Unasked),
        Some(token) => sight_by(alloc, answer, register, token),
    }
}

fn sight_where(alloc: Global, parts: &Parts, answer: &AnswerMessage) -> Result<Sight, NoMemory>
    ensures { IfOk result (λ sight. sight ≡ sight_where answer.now (register answer.now.number parts.now.registers.list) (noted_at answer.now.number answer.now.answer_version parts.now.journal.rows)) }
{
    let token = parts.journal.noted_at(answer.number, answer.answer_version);
    match parts.registers.get(answer.number) {
        None => Ok(Sight::Unasked),
        Some(register) => sight_of(alloc, answer, register, token),
    }
}

fn note_row(alloc: Global, parts: &mut Parts, row: Row) -> Result<(), NoMemory>
    requires { HasRoom parts.old }
    ensures ok { OnOk result (kept parts.new ≡ noted (row ∷ []) (kept parts.old)) }
    ensures err { OnErr result (kept parts.new ≡ kept parts.old) }
    ensures room { HasRoom parts.new }
{
    let mut rows = Vec::new(alloc);
    rows.push(row)?;
    note_at_once(alloc, parts, rows)
}

/// An answer came back of a fetch. It is held where it is above the one that is held, with the user of the token that announced it
/// and the rule that allowed that.
pub(crate) fn fetched(
    alloc: Global,
    parts: &mut Parts,
    answer: &AnswerMessage,
) -> Result<Posted, NoMemory>
    requires { HasRoom parts.old }
    ensures ok { (post : Post) → IfOk result (λ p. after (kept parts.new) (Ok p) ≡ posted (kept parts.old) post (PostReply.Given answer.now)) }
    ensures err { OnErr result (kept parts.new ≡ kept parts.old) }
    ensures room { HasRoom parts.new }
{
    let sight = sight_where(alloc, parts, answer)?;
    match sight {
        Sight::New(row) => {
            note_row(alloc, parts, row)?;
            Ok(Posted::Saw)
        }
        Sight::Known => Ok(Posted::Knew),
        Sight::Unasked => Ok(Posted::Left),
    }
}
