// The last answer of an entry.
ghost use Rattle.std.specs.Prelude.{◌≡◌, IfOk, IsSomeAnd};
ghost use Rattle.request_log.specs.Folded.{as_entry};
ghost use Rattle.request_log.specs.Records.{record_in, record_of};
ghost use Rattle.service_events.specs.Flying.{last_answer};
ghost use Rattle.service_parts.specs.Parts.{kept};

use crate::parts::Parts;
use lang_core::{Name, NoMemory};
use repair_messages::{AnswerMessage, copied_pair};
use request_log::{Entry, Folded, Made};
use std::alloc::Global;

/// The last answer of an entry with this record, to the call that it comes from.
pub fn last_answer(
    alloc: Global,
    parts: &Parts,
    caller: &Name,
    number: u64,
    entry: &Entry,
    made: &Made,
) -> Result<AnswerMessage, NoMemory>
    ensures { IfOk result (λ answer. answer ≡ last_answer (kept parts.now) caller.now number entry.now (record_in made.now)) }
{
    let (caller, callee) = copied_pair(alloc, caller, &parts.setting.me)?;
    let (response, who) = copied_pair(alloc, &made.trace.response, parts.setting.me.text())?;
    Ok(AnswerMessage {
        caller,
        callee,
        id: entry.id,
        number,
        answer_version: entry.answer_version,
        version: made.version,
        response,
        who,
    })
}

/// The last answer of a folded entry, to the call that it comes from.
pub fn past_answer(
    alloc: Global,
    parts: &Parts,
    caller: &Name,
    number: u64,
    past: &Folded,
) -> Result<AnswerMessage, NoMemory>
    ensures { IfOk result (λ answer. IsSomeAnd (record_of (as_entry past.now)) (λ r. answer ≡ last_answer (kept parts.now) caller.now number (as_entry past.now) r)) }
{
    let (caller, callee) = copied_pair(alloc, caller, &parts.setting.me)?;
    let (response, who) = copied_pair(alloc, &past.response, parts.setting.me.text())?;
    Ok(AnswerMessage {
        caller,
        callee,
        id: past.id,
        number,
        answer_version: past.answer_version,
        version: past.version,
        response,
        who,
    })
}
