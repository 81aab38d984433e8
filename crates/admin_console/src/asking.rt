// What an operator asks of a service.
ghost use Rattle.std.specs.Prelude.{◌≡◌, IfOk};
ghost use Rattle.serde_json.specs.View.{view};
ghost use Rattle.admin_console.specs.Asking.{any_order_at, asked_at, asked_in, asked_with, call_at, cancel_at, command_at, create_at, fold_at, given_at, given_command_at, given_text_at, has_text, is_of_the_run, neighbours_at, order_at, replace_at, report_named, request_at, restore_at, retry_at, text_order_at};

use crate::fields::{
    body_at, method_at, neighbour_at, number_at, object_in, path_at, post_at, short_text_at, who_at,
};
use journal_rows::Command;
use lang_core::{Method, NoMemory, Request, Text, ThinSeq};
use order_texts::{TextFault, TextOrder, command_given};
use serde_json::Value;
use std::alloc::Global;
use wire_fields::{ConsoleRequest, ConsoleWord};

/// Which report.
#[derive(Clone, Copy)]
pub enum Report {
    /// What the service has held.
    Notices,
    /// Its log.
    Log,
    /// Its rows.
    Rows,
    /// Its programs and its rules.
    Programs,
    /// Its requests from outside whose last answer isn't the one that their client got.
    Changed,
}

/// What an operator asks of one service.
#[derive(Drop)]
pub enum Asked {
    /// An order: its token, from 1 to 64 visible characters, and the command.
    Order { token: Text, command: Command },
    /// A report.
    Report(Report),
    /// An order that comes with a text, which is none.
    IllText(TextFault),
}

/// Whether the word is one that the run answers, and not a desk: `audit` and `stop` are of all services, and `preview` and
/// `rehearse` are of one, but are tried on a copy of it, without its lock.
pub fn is_of_the_run(word: ConsoleWord) -> bool
    ensures { result ≡ is_of_the_run word }
{
    matches!(
        word,
        ConsoleWord::Preview | ConsoleWord::Rehearse | ConsoleWord::Audit | ConsoleWord::Stop
    )
}

// ---- orders

fn cancel_at(object: &Value) -> Option<Command>
    ensures { result ≡ cancel_at (view object.now) }
{
    let id = number_at(object, "id")?;
    Some(Command::Cancel(id))
}

fn restore_at(object: &Value) -> Option<Command>
    ensures { result ≡ restore_at (view object.now) }
{
    let id = number_at(object, "id")?;
    Some(Command::Restore(id))
}

fn fold_at(object: &Value) -> Option<Command>
    ensures { result ≡ fold_at (view object.now) }
{
    let id = number_at(object, "id")?;
    Some(Command::Fold(id))
}

fn retry_at(object: &Value) -> Option<Command>
    ensures { result ≡ retry_at (view object.now) }
{
    let name = post_at(object)?;
    Some(Command::Retry(name))
}

// Method, path and body.
fn call_at(alloc: Global, object: &Value) -> Result<Option<(Method, Text, Text)>, NoMemory>
    ensures { IfOk result (λ call. call ≡ call_at (view object.now)) }
{
    let Some(method) = method_at(object) else {
        return Ok(None);
    };
    let Some(path) = path_at(alloc, object)? else {
        return Ok(None);
    };
    let Some(body) = body_at(alloc, object)? else {
        return Ok(None);
    };
    Ok(Some((method, path, body)))
}

fn replace_at(alloc: Global, object: &Value) -> Result<Option<Command>, NoMemory>
    ensures { IfOk result (λ command. command ≡ replace_at (view object.now)) }
{
    let Some(id) = number_at(object, "id") else {
        return Ok(None);
    };
    let Some((method, path, body)) = call_at(alloc, object)? else {
        return Ok(None);
    };
    Ok(Some(Command::Replace {
        id,
        method,
        path,
        body,
    }))
}

// A request of a user, from outside.
fn request_at(alloc: Global, object: &Value) -> Result<Option<Request>, NoMemory>
    ensures { IfOk result (λ request. request ≡ request_at (view object.now)) }
{
    let Some(who) = who_at(alloc, object, "who")? else {
        return Ok(None);
    };
    let Some((method, path, body)) = call_at(alloc, object)? else {
        return Ok(None);
    };
    Ok(Some(Request {
        method,
        path,
        body,
        who,
        chain: ThinSeq::new(alloc),
    }))
}

fn neighbours_at(object: &Value) -> Option<(Option<u64>, Option<u64>)>
    ensures { result ≡ neighbours_at (view object.now) }
{
    let before = neighbour_at(object, "before")?;
    let after = neighbour_at(object, "after")?;
    Some((before, after))
}

fn create_at(alloc: Global, object: &Value) -> Result<Option<Command>, NoMemory>
    ensures { IfOk result (λ command. command ≡ create_at (view object.now)) }
{
    let Some((before, after)) = neighbours_at(object) else {
        return Ok(None);
    };
    let Some(request) = request_at(alloc, object)? else {
        return Ok(None);
    };
    Ok(Some(Command::Create {
        before,
        after,
        request,
    }))
}

#[tactic(auto, unfolding(crate::specs::Asking::command_at))]
fn command_at(alloc: Global, word: ConsoleWord, object: &Value) -> Result<Option<Command>, NoMemory>
    ensures { IfOk result (λ command. command ≡ command_at word (view object.now)) }
{
    match word {
        ConsoleWord::Cancel => Ok(cancel_at(object)),
        ConsoleWord::Restore => Ok(restore_at(object)),
        ConsoleWord::Replace => replace_at(alloc, object),
        ConsoleWord::Create => create_at(alloc, object),
        ConsoleWord::Retry => Ok(retry_at(object)),
        ConsoleWord::Fold => Ok(fold_at(object)),
        _ => Ok(None),
    }
}

fn order_at(alloc: Global, word: ConsoleWord, object: &Value) -> Result<Option<Asked>, NoMemory>
    ensures { IfOk result (λ asked. asked ≡ order_at word (view object.now)) }
{
    let Some(token) = who_at(alloc, object, "token")? else {
        return Ok(None);
    };
    match command_at(alloc, word, object)? {
        Some(command) => Ok(Some(Asked::Order { token, command })),
        None => Ok(None),
    }
}

// ---- orders that come with a text

fn has_text(word: ConsoleWord) -> bool
    ensures { result ≡ has_text word }
{
    matches!(
        word,
        ConsoleWord::Deploy | ConsoleWord::Correct | ConsoleWord::Rules
    )
}

fn text_order_at(word: ConsoleWord, object: &Value) -> Option<TextOrder>
    ensures { result ≡ text_order_at word (view object.now) }
{
    match word {
        ConsoleWord::Deploy => Some(TextOrder::Deploy),
        ConsoleWord::Correct => Some(TextOrder::Correct(number_at(object, "number")?)),
        ConsoleWord::Rules => Some(TextOrder::Rules),
        _ => None,
    }
}

fn given_text_at(alloc: Global, word: ConsoleWord, object: &Value) -> Result<Option<Text>, NoMemory>
    ensures { IfOk result (λ text. text ≡ given_text_at word (view object.now)) }
{
    match word {
        ConsoleWord::Rules => short_text_at(alloc, object, "rules"),
        _ => short_text_at(alloc, object, "program"),
    }
}

// The order that is made of its text, or where that is none.
fn given_command_at(
    alloc: Global,
    word: ConsoleWord,
    object: &Value,
) -> Result<Option<Result<Command, TextFault>>, NoMemory>
    ensures { IfOk result (λ given. given ≡ given_command_at word (view object.now)) }
{
    let Some(order) = text_order_at(word, object) else {
        return Ok(None);
    };
    let Some(text) = given_text_at(alloc, word, object)? else {
        return Ok(None);
    };
    Ok(Some(command_given(alloc, order, &text)?))
}

fn asked_with(token: Text, given: Result<Command, TextFault>) -> Asked
    ensures { result ≡ asked_with token given }
{
    match given {
        Ok(command) => Asked::Order { token, command },
        Err(fault) => Asked::IllText(fault),
    }
}

fn given_at(alloc: Global, word: ConsoleWord, object: &Value) -> Result<Option<Asked>, NoMemory>
    ensures { IfOk result (λ asked. asked ≡ given_at word (view object.now)) }
{
    let Some(token) = who_at(alloc, object, "token")? else {
        return Ok(None);
    };
    match given_command_at(alloc, word, object)? {
        Some(given) => Ok(Some(asked_with(token, given))),
        None => Ok(None),
    }
}

fn any_order_at(alloc: Global, word: ConsoleWord, object: &Value) -> Result<Option<Asked>, NoMemory>
    ensures { IfOk result (λ asked. asked ≡ any_order_at word (view object.now)) }
{
    if has_text(word) {
        given_at(alloc, word, object)
    } else {
        order_at(alloc, word, object)
    }
}

// ---- all words

fn report_named(word: ConsoleWord) -> Option<Report>
    ensures { result ≡ report_named word }
{
    match word {
        ConsoleWord::Notices => Some(Report::Notices),
        ConsoleWord::Log => Some(Report::Log),
        ConsoleWord::Rows => Some(Report::Rows),
        ConsoleWord::Programs => Some(Report::Programs),
        ConsoleWord::Changed => Some(Report::Changed),
        _ => None,
    }
}

fn asked_at(alloc: Global, word: ConsoleWord, object: &Value) -> Result<Option<Asked>, NoMemory>
    ensures { IfOk result (λ asked. asked ≡ asked_at word (view object.now)) }
{
    match report_named(word) {
        Some(which) => Ok(Some(Asked::Report(which))),
        None => any_order_at(alloc, word, object),
    }
}

/// What is asked, by the word and by the body, which is a JSON object that has these fields and may have others:
///
/// - `cancel`, `restore` and `fold`: `token` and `id`, a number;
/// - `replace`: these, `method`, `path` and `body`;
/// - `create`: `token`, `before` and `after`, each the number of a request or null, `who`, `method`, `path` and `body`;
/// - `retry`: `token` and `name`, `call:N` or `reply:N`;
/// - `deploy`: `token` and `program`, the text of a program;
/// - `correct`: these, and `number`, that of the program that it corrects;
/// - `rules`: `token` and `rules`, the text of rules;
/// - `notices`, `log`, `rows`, `programs` and `changed`: none.
///
/// None exactly where the body is no such object, or the word is one of the run. A text is read last, and it is told where it is
/// none.
pub fn asked_in(alloc: Global, request: &ConsoleRequest) -> Result<Option<Asked>, NoMemory>
    ensures { IfOk result (λ asked. asked ≡ asked_in request.now) }
{
    match object_in(alloc, request.body.as_str())? {
        Some(object) => asked_at(alloc, request.word, &object),
        None => Ok(None),
    }
}
