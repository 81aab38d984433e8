// A token that announces an answer.
ghost use Rattle.std.specs.Prelude.{◌≡◌, ◌∷◌, [], ◌++◌, IfOk, OnOk, OnErr};
ghost use Rattle.call_registers.specs.Registers.{register};
ghost use Rattle.service_events.specs.Calls.{noted};
ghost use Rattle.service_events.specs.Doing.{Does, answer_memory};
ghost use Rattle.service_events.specs.Messages.{hear_decision, heard, is_past_call, noted_row, take_token_event};
ghost use Rattle.service_parts.specs.Parts.{kept};
ghost use Rattle.service_parts.specs.Services.{HasRoom, IsService};
ghost use Rattle.service_deliveries.specs.Hearing.{admission, admitted, allowance, noted_rows, token_rows, unless_past_call};

use crate::noting::note_at_once;
use authorise_rules::{Asked, Decision, decide};
use call_registers::{Register, is_news};
use journal_rows::{ConfirmedRow, NotedRow, Row};
use lang_core::{Copied, NoMemory, Same};
use repair_messages::{Confirm, Kind, TokenMessage, copied_pair};
use service_events::{AnswerRefused, Heard};
use service_parts::{Parts, path_of};
use std::alloc::Global;

// ---- why it isn't taken, or which rule allows it

// What the service's rules decide of another answer to the call of this register.
fn decision<'a>(parts: &Parts, token: &'a TokenMessage, register: &'a Register) -> Decision
    ensures { result ≡ hear_decision (kept parts.now) token.now register.now }
{
    let callee = &register.dest;
    let who = &token.who;
    let original = Some(callee.text());
    let old_path = path_of(register.desired.as_ref());
    let asked = Asked {
        kind: Kind::ReplaceResponse,
        from: Some(callee),
        who,
        original,
        old_path,
        new_path: None,
    };
    decide(parts.rules.get().rules(), &asked)
}

// The rule that allows it, or the one that denies it.
fn allowance(
    parts: &Parts,
    token: &TokenMessage,
    register: &Register,
) -> Result<Option<u32>, AnswerRefused>
    ensures { result ≡ allowance (hear_decision (kept parts.now) token.now register.now) }
{
    match decision(parts, token, register) {
        Decision::Allow(rule) => Ok(Some(rule)),
        Decision::Deny(rule) => Err(AnswerRefused::Denied(rule)),
    }
}

// Whether the call of a number is one of a folded entry.
fn is_past_call(parts: &Parts, number: u64) -> bool
    ensures { result ≡ is_past_call number (kept parts.now) }
{
    parts.repairer.log().folded().has_slot(number)
}

// The same, unless its call is one of a folded entry.
fn newly_allowed(
    parts: &Parts,
    token: &TokenMessage,
    register: &Register,
) -> Result<Option<u32>, AnswerRefused>
    ensures { result ≡ unless_past_call (kept parts.now) token.now (allowance (hear_decision (kept parts.now) token.now register.now)) }
{
    if is_past_call(parts, token.number) {
        Err(AnswerRefused::TooOld(token.number))
    } else {
        allowance(parts, token, register)
    }
}

fn admitted(
    parts: &Parts,
    token: &TokenMessage,
    register: &Register,
) -> Result<Option<u32>, AnswerRefused>
    ensures { result ≡ admitted (kept parts.now) token.now register.now }
{
    if !register.dest.is(&token.callee) {
        Err(AnswerRefused::Unknown(token.number))
    } else if is_news(register, token.answer_version) {
        newly_allowed(parts, token, register)
    } else {
        Ok(None)
    }
}

// The rule by which a token is taken, or why it isn't taken. Rules are asked last, and of one that tells nothing new they
// aren't asked.
fn admission(parts: &Parts, token: &TokenMessage) -> Result<Option<u32>, AnswerRefused>
    ensures { result ≡ admission (kept parts.now) token.now (register token.now.number parts.now.registers.list) }
{
    match parts.registers.get(token.number) {
        None => Err(AnswerRefused::Unknown(token.number)),
        Some(register) => admitted(parts, token, register),
    }
}

// ---- its rows

fn noted_row(alloc: Global, token: &TokenMessage, rule: u32) -> Result<Row, NoMemory>
    ensures { IfOk result (λ row. row ≡ noted_row rule token.now) }
{
    Ok(Row::Noted(NotedRow {
        number: token.number,
        answer_version: token.answer_version,
        who: token.who.copied(alloc)?,
        rule,
    }))
}

fn push_noted(
    alloc: Global,
    token: &TokenMessage,
    rule: Option<u32>,
    rows: &mut Vec<Row>,
) -> Result<(), NoMemory>
    ensures { OnOk result (rows.new.items ≡ rows.old.items ++ noted_rows token.now rule) }
{
    match rule {
        None => Ok(()),
        Some(rule) => {
            rows.push(noted_row(alloc, token, rule)?)?;
            Ok(())
        }
    }
}

fn token_rows(alloc: Global, token: &TokenMessage, rule: Option<u32>) -> Result<Vec<Row>, NoMemory>
    ensures { IfOk result (λ rows. rows.items ≡ token_rows token.now rule) }
{
    let mut rows = Vec::new(alloc);
    push_noted(alloc, token, rule, &mut rows)?;
    rows.push(Row::Confirmed(ConfirmedRow {
        number: token.number,
        answer_version: token.answer_version,
    }))?;
    Ok(rows)
}

fn note_token(
    alloc: Global,
    parts: &mut Parts,
    token: &TokenMessage,
    rule: Option<u32>,
) -> Result<(), NoMemory>
    requires { HasRoom parts.old }
    ensures ok { OnOk result (kept parts.new ≡ noted (token_rows token.now rule) (kept parts.old)) }
    ensures err { OnErr result (kept parts.new ≡ kept parts.old) }
    ensures room { HasRoom parts.new }
{
    let rows = token_rows(alloc, token, rule)?;
    note_at_once(alloc, parts, rows)
}

// ---- what is answered

fn heard(alloc: Global, token: &TokenMessage, rule: Option<u32>) -> Result<Heard, NoMemory>
    ensures { IfOk result (λ h. h ≡ heard token.now rule) }
{
    let (caller, callee) = copied_pair(alloc, &token.caller, &token.callee)?;
    let confirm = Confirm {
        caller,
        callee,
        number: token.number,
        answer_version: token.answer_version,
    };
    Ok(Heard { confirm, rule })
}

fn confirm_token(
    alloc: Global,
    parts: &mut Parts,
    token: &TokenMessage,
) -> Result<Heard, AnswerRefused>
    requires { HasRoom parts.old }
    ensures does { Does answer_memory (take_token_event (kept parts.old) token.now) (kept parts.old) result (kept parts.new) }
    ensures room { HasRoom parts.new }
{
    match admission(parts, token) {
        Err(why) => Err(why),
        Ok(rule) => {
            let heard = heard(alloc, token, rule)?;
            note_token(alloc, parts, token, rule)?;
            Ok(heard)
        }
    }
}

/// A token came, which announces an answer to one of the service's calls. It is refused where no call to that service has its
/// number. One that isn't above the answer that is held, or the one that was noted, is confirmed again. Of any other the
/// service's rules are asked, unless the call is one of a folded entry, where it is too old: it is refused where they deny it,
/// with the number of the rule; else it is noted, and confirmed.
pub fn take_token(
    alloc: Global,
    parts: &mut Parts,
    token: &TokenMessage,
) -> Result<Heard, AnswerRefused>
    requires { IsService parts.old }
    ensures does { Does answer_memory (take_token_event (kept parts.old) token.now) (kept parts.old) result (kept parts.new) }
    ensures service { IsService parts.new }
{
    confirm_token(alloc, parts, token)
}
