// An answer that another service fetches.
ghost use Rattle.std.specs.Prelude.{◌≡◌, IfOk};
ghost use Rattle.service_events.specs.Doing.{Does, give_memory};
ghost use Rattle.service_events.specs.Messages.{answer_again, give_event};
ghost use Rattle.service_parts.specs.Parts.{kept};

use journal_rows::AnsweredRow;
use lang_core::NoMemory;
use repair_messages::{AnswerMessage, Fetch, copied_pair};
use service_events::GiveRefused;
use service_parts::Parts;
use std::alloc::Global;

// An answer to the call that is fetched for, as it was given.
fn answer_again(
    alloc: Global,
    parts: &Parts,
    fetch: &Fetch,
    answered: &AnsweredRow,
) -> Result<AnswerMessage, NoMemory>
    ensures { IfOk result (λ answer. answer ≡ answer_again (kept parts.now) fetch.now answered.now) }
{
    let (caller, callee) = copied_pair(alloc, &fetch.caller, &parts.setting.me)?;
    let (response, who) = copied_pair(alloc, &answered.response, parts.setting.me.text())?;
    Ok(AnswerMessage {
        caller,
        callee,
        id: answered.id,
        number: fetch.number,
        answer_version: answered.answer_version,
        version: answered.version,
        response,
        who,
    })
}

/// Another service asks for an answer to one of its calls: it is given as it was made, whatever was answered since. It is refused
/// where the call has no answer of that version. Nothing changes.
pub fn give(alloc: Global, parts: &Parts, fetch: &Fetch) -> Result<AnswerMessage, GiveRefused>
    ensures { Does give_memory (give_event (kept parts.now) fetch.now) (kept parts.now) result (kept parts.now) }
{
    let given = parts
        .journal
        .given_at(&fetch.caller, fetch.number, fetch.answer_version);
    match given {
        None => Err(GiveRefused::Unknown(fetch.number)),
        Some(answered) => {
            let answer = answer_again(alloc, parts, fetch, answered)?;
            Ok(answer)
        }
    }
}
