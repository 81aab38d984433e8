// Rows on an answer of a version: the token that announced it, and the answer as it was given.
ghost use Rattle.std.specs.Prelude.{◌≡◌};
ghost use Rattle.std.specs.Option.{option_copied};
ghost use Rattle.lang_core.specs.Origins.{is_call};
ghost use Rattle.journal_rows.specs.Keys.{AreKeys};
ghost use Rattle.journal_rows.specs.Words.{announced_step, announces, given_at, given_step, gives, noted_at};

use crate::callee::AnsweredRow;
use crate::caller::NotedRow;
use crate::row::Row;
use lang_core::{Name, Origin, Same};
use lang_lists::{HashIndex, call_key};

// ---- a token

fn announces(number: u64, answer_version: u64, noted: &NotedRow) -> bool
    ensures { result ≡ announces number answer_version noted.now }
{
    noted.number == number && noted.answer_version == answer_version
}

// The row's token, if it announces the answer of this version to the call of this number.
fn noted_in(number: u64, answer_version: u64, row: &Row) -> Option<&NotedRow>
    ensures { option_copied result ≡ announced_step number answer_version None row.now }
{
    match row {
        Row::Noted(noted) if announces(number, answer_version, noted) => Some(noted),
        _ => None,
    }
}

/// The token that announced the answer of this version to an own call, looked for among the rows of the call's number; None
/// exactly where none was noted.
pub(crate) fn noted_at<'a>(
    rows: &'a [Row],
    index: &HashIndex,
    number: u64,
    answer_version: u64,
) -> Option<&'a NotedRow>
    requires { AreKeys index.now.keys rows.now }
    ensures { option_copied result ≡ noted_at number answer_version rows.now }
{
    let mut end = index.end_of(number);
    while end > 0 {
        let noted = noted_in(number, answer_version, &rows[end - 1]);
        if noted.is_some() {
            return noted;
        }
        end = index.end_before(end - 1);
    }
    None
}

// ---- an answer

fn is_call(caller: &Name, number: u64, origin: &Origin) -> bool
    ensures { result ≡ is_call caller.now number origin.now }
{
    match origin {
        Origin::Outside => false,
        Origin::Call {
            caller: from,
            number: called,
        } => from.text().is(caller.text()) && *called == number,
    }
}

fn gives(caller: &Name, number: u64, answer_version: u64, answered: &AnsweredRow) -> bool
    ensures { result ≡ gives caller.now number answer_version answered.now }
{
    is_call(caller, number, &answered.origin) && answered.answer_version == answer_version
}

// The row's answer, if it is the one of this version to this call.
fn given_in<'a>(
    caller: &Name,
    number: u64,
    answer_version: u64,
    row: &'a Row,
) -> Option<&'a AnsweredRow>
    ensures { option_copied result ≡ given_step caller.now number answer_version None row.now }
{
    match row {
        Row::Answered(answered) if gives(caller, number, answer_version, answered) => {
            Some(answered)
        }
        _ => None,
    }
}

/// The answer of this version to a caller's call, looked for among the rows of the call's key; None exactly where none was
/// given.
pub(crate) fn given_at<'a>(
    rows: &'a [Row],
    index: &HashIndex,
    caller: &Name,
    number: u64,
    answer_version: u64,
) -> Option<&'a AnsweredRow>
    requires { AreKeys index.now.keys rows.now }
    ensures { option_copied result ≡ given_at caller.now number answer_version rows.now }
{
    let mut end = index.end_of(call_key(caller.text(), number));
    while end > 0 {
        let given = given_in(caller, number, answer_version, &rows[end - 1]);
        if given.is_some() {
            return given;
        }
        end = index.end_before(end - 1);
    }
    None
}
