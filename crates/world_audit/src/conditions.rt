// What rows of another service say.
ghost use Rattle.std.specs.Prelude.{◌≡◌, ◌↔◌, IsTrue};
ghost use Rattle.lang_base.specs.Equal.{equal};
ghost use Rattle.lang_core.specs.Origins.{is_call};
ghost use Rattle.lang_core.specs.contracts.request.Response as response;
ghost use Rattle.world_audit.specs.Conditions.{sends, acknowledges, is_answer, answers, gives, gives_any, confirms, acknowledges_so};

use journal_rows::{AckHow, AnsweredRow, Row, SentRow};
use lang_core::{Name, Origin, Request, Response, Same, Shared};

fn is_version(
    sent: &SentRow,
    number: u64,
    dest: &Name,
    version: u64,
    desired: &Option<Shared<Request>>,
) -> bool
    ensures { IsTrue result ↔ (sent.now ≡ record { number = number; dest = dest.now; version = version; desired = desired.now }) }
{
    sent.number == number
        && sent.dest.is(dest)
        && sent.version == version
        && sent.desired.is(desired)
}

/// Whether a row says that this version of a call was sent.
pub fn sends(
    row: &Row,
    number: u64,
    dest: &Name,
    version: u64,
    desired: &Option<Shared<Request>>,
) -> bool
    ensures { result ≡ sends (record { number = number; dest = dest.now; version = version; desired = desired.now }) row.now }
{
    match row {
        Row::Sent(sent) => is_version(sent, number, dest, version, desired),
        _ => false,
    }
}

fn acknowledges(row: &Row, caller: &Name, number: u64, version: u64) -> bool
    ensures { result ≡ acknowledges caller.now number version row.now }
{
    match row {
        Row::Acked(acked) => {
            acked.caller.text().is(caller.text())
                && acked.number == number
                && acked.version == version
        }
        _ => false,
    }
}

fn is_call(origin: &Origin, caller: &Name, number: u64) -> bool
    ensures { result ≡ is_call caller.now number origin.now }
{
    match origin {
        Origin::Outside => false,
        Origin::Call {
            caller: own_caller,
            number: own_number,
        } => own_caller.text().is(caller.text()) && *own_number == number,
    }
}

fn is_answer(
    answered: &AnsweredRow,
    caller: &Name,
    number: u64,
    answer_version: u64,
    version: u64,
) -> bool
    ensures { result ≡ is_answer caller.now number answer_version version answered.now }
{
    is_call(&answered.origin, caller, number)
        && answered.answer_version == answer_version
        && answered.version == version
}

fn answers(row: &Row, caller: &Name, number: u64, answer_version: u64, version: u64) -> bool
    ensures { result ≡ answers caller.now number answer_version version row.now }
{
    match row {
        Row::Answered(answered) => is_answer(answered, caller, number, answer_version, version),
        _ => false,
    }
}

fn same_response(left: &Response, right: &Response) -> bool
    ensures { result ≡ equal response.the_row.coded left.now right.now }
{
    left.is(right)
}

/// Whether a row says that a call had this response as this answer to this version.
pub fn gives(
    row: &Row,
    caller: &Name,
    number: u64,
    answer_version: u64,
    version: u64,
    response: &Response,
) -> bool
    ensures { result ≡ gives caller.now number answer_version version response.now row.now }
{
    match row {
        Row::Answered(answered) => {
            is_answer(answered, caller, number, answer_version, version)
                && same_response(&answered.response, response)
        }
        _ => false,
    }
}

/// Whether a row says that a call had an answer of this version, whatever it says.
pub fn gives_any(row: &Row, caller: &Name, number: u64, answer_version: u64) -> bool
    ensures { result ≡ gives_any caller.now number answer_version row.now }
{
    match row {
        Row::Answered(answered) => {
            is_call(&answered.origin, caller, number) && answered.answer_version == answer_version
        }
        _ => false,
    }
}

/// Whether a row says that this answer to a call was confirmed.
pub fn confirms(row: &Row, number: u64, answer_version: u64) -> bool
    ensures { result ≡ confirms number answer_version row.now }
{
    match row {
        Row::Confirmed(confirmed) => {
            confirmed.number == number && confirmed.answer_version == answer_version
        }
        _ => false,
    }
}

/// Whether a row says that this version of a call was acknowledged: with a live answer to it, or in reply to a post.
pub fn acknowledges_so(row: &Row, caller: &Name, number: u64, version: u64, how: AckHow) -> bool
    ensures { result ≡ acknowledges_so caller.now number version how row.now }
{
    match how {
        AckHow::WithAnswer(answer_version) => answers(row, caller, number, answer_version, version),
        AckHow::ToPost => acknowledges(row, caller, number, version),
    }
}
