// What an order would come to, for an operator.
ghost use Rattle.std.specs.Prelude.{◌≡◌, Err, IfOk};
ghost use Rattle.serde_json.specs.View.{view};
ghost use Rattle.admin_console.specs.Previews.{TellsShown, cancellation_at, correction_of, rehearsal_at, shown_reply, tried_at, tried_in};

use crate::fields::{number_at, object_in, short_text_at};
use crate::replies::{own_numbered, own_refusal, refused_reply, report_reply};
use http_front::WireResponse;
use lang_core::{NoMemory, Text};
use order_texts::program_given;
use repair_messages::RefusalWord;
use serde_json::Value;
use service_reports::{Service, Trial, Unshown, trial_shown};
use std::alloc::Global;
use wire_fields::{ConsoleRequest, ConsoleWord};

// ---- what is tried

fn cancellation_at(object: &Value) -> Option<Result<Trial, u64>>
    ensures { result ≡ cancellation_at (view object.now) }
{
    let id = number_at(object, "id")?;
    Some(Ok(Trial::Cancel(id)))
}

// The correction of the program of this number, or where the text is no program.
fn correction_of(alloc: Global, number: u64, text: &Text) -> Result<Result<Trial, u64>, NoMemory>
    ensures { IfOk result (λ tried. tried ≡ correction_of (number, text.now)) }
{
    match program_given(alloc, text)? {
        Ok(program) => Ok(Ok(Trial::Correct(number, program))),
        Err(at) => Ok(Err(at)),
    }
}

fn rehearsal_at(alloc: Global, object: &Value) -> Result<Option<Result<Trial, u64>>, NoMemory>
    ensures { IfOk result (λ tried. tried ≡ rehearsal_at (view object.now)) }
{
    let Some(number) = number_at(object, "number") else {
        return Ok(None);
    };
    let Some(text) = short_text_at(alloc, object, "program")? else {
        return Ok(None);
    };
    Ok(Some(correction_of(alloc, number, &text)?))
}

fn tried_at(
    alloc: Global,
    word: ConsoleWord,
    object: &Value,
) -> Result<Option<Result<Trial, u64>>, NoMemory>
    ensures { IfOk result (λ tried. tried ≡ tried_at word (view object.now)) }
{
    match word {
        ConsoleWord::Rehearse => rehearsal_at(alloc, object),
        _ => Ok(cancellation_at(object)),
    }
}

/// Which order is to be tried: for `rehearse` the correction of the program of the number `number` by the one that the text
/// `program` spells, or the byte at which it spells none; for another word the cancellation of the request of the number `id`.
/// None where the body is no object with these fields.
pub fn tried_in(
    alloc: Global,
    request: &ConsoleRequest,
) -> Result<Option<Result<Trial, u64>>, NoMemory>
    ensures { IfOk result (λ tried. tried ≡ tried_in request.now) }
{
    match object_in(alloc, request.body.as_str())? {
        Some(object) => tried_at(alloc, request.word, &object),
        None => Ok(None),
    }
}

// ---- what is replied

// Such a refusal passes, as that of a call in flight does, and has its status.
fn unshown_reply(alloc: Global, why: Unshown) -> Result<WireResponse, NoMemory>
    ensures { IfOk result (λ response. response ≡ shown_reply (Err why)) }
{
    let status = RefusalWord::NotYet.status();
    match why {
        Unshown::NotIdle => own_refusal(alloc, status, "notidle", "notidle", 0),
        Unshown::Untimely(number) => own_numbered(alloc, status, "untimely", number),
        Unshown::Order(refused) => refused_reply(alloc, refused),
    }
}

fn shown_reply(alloc: Global, shown: Result<Text, Unshown>) -> Result<WireResponse, NoMemory>
    ensures { IfOk result (λ response. response ≡ shown_reply shown) }
{
    match shown {
        Ok(lines) => report_reply(alloc, &lines),
        Err(why) => unshown_reply(alloc, why),
    }
}

/// What this order would come to, given by this user, as it is replied: the lines of a script's `preview`; or why there are
/// none, `notidle` and `untimely N` with status 409, and the refusal of the order as that of an order. The service stays.
#[tactic(auto, using(crate::proofs::PreviewLemmas::told_shown))]
pub fn trial_reply(
    alloc: Global,
    service: &Service,
    trial: Trial,
    who: &Text,
) -> Result<WireResponse, NoMemory>
    ensures { IfOk result (TellsShown trial who.now service.now) }
{
    let shown = trial_shown(alloc, service, trial, who)?;
    shown_reply(alloc, shown)
}
