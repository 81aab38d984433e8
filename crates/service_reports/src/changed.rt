// Whom repairs concerned: the requests from outside whose last answer is another one than their clients got, as a text.
ghost use Rattle.std.specs.Prelude.{◌≡◌, ◌++◌, IfOk, OnOk, map, string_bytes};
ghost use Rattle.std.specs.List.{flat_map};
ghost use Rattle.std.specs.Option.{option_copied};
ghost use Rattle.request_log.specs.Folded.{as_entry, whole};
ghost use Rattle.service_reports.specs.Changed.{answer_outside, answer_outside_step, answers_text, asked_line, asked_outside, asked_outside_step, changed_of_service, changed_line, is_answer, is_of, is_outside, is_which, line_text, number_line, same_response};

use crate::lines::or_line;
use journal_rows::{AnsweredRow, AskedRow, Row, Rows};
use lang_core::{Name, NoMemory, Origin, Request, Response, Same, Text};
use preview_core::Service;
use report_text::{push_asked, push_response};
use request_log::{KeptEntry, KeptFolded, Log};
use request_names::push_id;
use std::alloc::Global;

/// Which of a request's answers.
#[derive(Clone, Copy)]
pub(crate) enum Which {
    /// The one that its client got.
    Told,
    /// The last one.
    Last,
}

// ---- what a journal says of the request from outside of a number

fn is_outside(origin: &Origin) -> bool
    ensures { result ≡ is_outside origin.now }
{
    match origin {
        Origin::Outside => true,
        Origin::Call { .. } => false,
    }
}

fn is_of(id: u64, number: u64, origin: &Origin) -> bool
    ensures { result ≡ is_of id number origin.now }
{
    number == id && is_outside(origin)
}

// How the row says that it was asked, if it does.
fn asked_in(id: u64, row: &Row) -> Option<&AskedRow>
    ensures { option_copied result ≡ asked_outside_step id None row.now }
{
    match row {
        Row::Asked(asked) if is_of(id, asked.id, &asked.origin) => Some(asked),
        _ => None,
    }
}

// How it was asked, looked for among the rows of its key from the last of them back.
fn asked_outside(rows: &Rows, id: u64) -> Option<&AskedRow>
    ensures { option_copied result ≡ asked_outside id rows.now.rows }
{
    let list = rows.as_slice();
    let mut end = rows.end_of(id);
    while end > 0 {
        let made = asked_in(id, &list[end - 1]);
        if made.is_some() {
            return made;
        }
        end = rows.end_before(end - 1);
    }
    None
}

fn is_which(which: Which, answered: &AnsweredRow) -> bool
    ensures { result ≡ is_which which answered.now }
{
    match which {
        Which::Told => answered.live,
        Which::Last => true,
    }
}

fn is_answer(which: Which, id: u64, answered: &AnsweredRow) -> bool
    ensures { result ≡ is_answer which id answered.now }
{
    is_of(id, answered.id, &answered.origin) && is_which(which, answered)
}

// The row's answer, if it is this one of its answers.
fn answer_in(which: Which, id: u64, row: &Row) -> Option<&AnsweredRow>
    ensures { option_copied result ≡ answer_outside_step which id None row.now }
{
    match row {
        Row::Answered(answered) if is_answer(which, id, answered) => Some(answered),
        _ => None,
    }
}

// One of its answers, looked for among the rows of its key from the last of them back.
fn answer_outside(rows: &Rows, which: Which, id: u64) -> Option<&AnsweredRow>
    ensures { option_copied result ≡ answer_outside which id rows.now.rows }
{
    let list = rows.as_slice();
    let mut end = rows.end_of(id);
    while end > 0 {
        let answered = answer_in(which, id, &list[end - 1]);
        if answered.is_some() {
            return answered;
        }
        end = rows.end_before(end - 1);
    }
    None
}

// ---- a line for each whose answer changed

fn same_response(told: &Response, last: &Response) -> bool
    ensures { result ≡ same_response told.now last.now }
{
    told.status == last.status && told.body.is(&last.body)
}

fn push_answers(text: &mut String, told: &Response, last: &Response) -> Result<(), NoMemory>
    ensures { OnOk result (string_bytes text.new ≡ string_bytes text.old ++ answers_text told.now last.now) }
{
    text.push_str(" told ")?;
    push_response(text, told)?;
    text.push_str(" now ")?;
    push_response(text, last)
}

fn push_line(
    text: &mut String,
    me: &Name,
    id: u64,
    request: &Request,
    told: &Response,
    last: &Response,
) -> Result<(), NoMemory>
    ensures { OnOk result (string_bytes text.new ≡ string_bytes text.old ++ line_text me.now id request.now told.now last.now) }
{
    let who = request.who.as_str();
    push_id(text, me, id)?;
    write!(text, " out:{who} ")?;
    push_asked(text, request)?;
    push_answers(text, told, last)?;
    text.push_str("\n")?;
    Ok(())
}

fn push_asked_line(
    text: &mut String,
    me: &Name,
    id: u64,
    made: Option<&AskedRow>,
    told: &Response,
    last: &Response,
) -> Result<(), NoMemory>
    ensures { OnOk result (string_bytes text.new ≡ string_bytes text.old ++ asked_line me.now id (option_copied made.entry) told.now last.now) }
{
    match made {
        None => Ok(()),
        Some(asked) => push_line(text, me, id, asked.request.get(), told, last),
    }
}

// The line of the entry of a number, if it has one.
fn push_number(text: &mut String, me: &Name, rows: &Rows, id: u64) -> Result<(), NoMemory>
    ensures { OnOk result (string_bytes text.new ≡ string_bytes text.old ++ number_line me.now rows.now.rows id) }
{
    let Some(told) = answer_outside(rows, Which::Told, id) else {
        return Ok(());
    };
    let Some(last) = answer_outside(rows, Which::Last, id) else {
        return Ok(());
    };
    if same_response(&told.response, &last.response) {
        return Ok(());
    }
    push_asked_line(
        text,
        me,
        id,
        asked_outside(rows, id),
        &told.response,
        &last.response,
    )
}

fn push_folded(
    text: &mut String,
    me: &Name,
    rows: &Rows,
    folded: &[KeptFolded],
) -> Result<(), NoMemory>
    ensures { OnOk result (string_bytes text.new ≡ string_bytes text.old ++ flat_map (changed_line me.now rows.now.rows) (map as_entry folded.now)) }
{
    for kept in folded {
        push_number(text, me, rows, kept.folded().id)?;
    }
    Ok(())
}

fn push_entries(
    text: &mut String,
    me: &Name,
    rows: &Rows,
    entries: &[KeptEntry],
) -> Result<(), NoMemory>
    ensures { OnOk result (string_bytes text.new ≡ string_bytes text.old ++ flat_map (changed_line me.now rows.now.rows) entries.now) }
{
    for kept in entries {
        push_number(text, me, rows, kept.entry().id)?;
    }
    Ok(())
}

fn push_log(text: &mut String, me: &Name, rows: &Rows, log: &Log) -> Result<(), NoMemory>
    ensures { OnOk result (string_bytes text.new ≡ string_bytes text.old
        ++ flat_map (changed_line me.now rows.now.rows) (whole log.now.folded log.now.entries)) }
{
    push_folded(text, me, rows, log.folded().as_slice())?;
    push_entries(text, me, rows, log.as_slice())
}

/// The requests from outside whose last answer isn't the one that their client got, by status or body, a line for each in logged
/// order, the folded ones first: `S/N out:WHO METHOD PATH told STATUS BODY now STATUS BODY`, or `none` alone. METHOD and PATH
/// are those that the client sent, also where an order put others in their place. An entry that an order created told nobody
/// anything. It costs with the entries and the rows of the journal: each row is of one key, and is looked at with the entry of
/// that number at most.
pub fn changed_of(alloc: Global, service: &Service) -> Result<Text, NoMemory>
    ensures { IfOk result (λ text. text ≡ changed_of_service service.now) }
{
    let mut lines = String::new(alloc);
    push_log(
        &mut lines,
        &service.setting().me,
        service.journal(),
        service.entries(),
    )?;
    or_line(lines, "none\n")
}
