// The answer and the failure of a call for which a flight waits.
ghost use Rattle.std.specs.Prelude.{◌≡◌, [], ◌∷◌, ◌++◌, if◌then◌else◌, IfOk, OnOk};
ghost use Rattle.std.specs.Option.{option_copied};
ghost use Rattle.call_registers.specs.Registers.{register};
ghost use Rattle.service_events.specs.Arriving.{answers_register, is_for, is_new_to, seen_live, live_answer_rows, told, call_answered_event, call_failed_event};
ghost use Rattle.service_events.specs.Calls.{noted};
ghost use Rattle.service_events.specs.Flying.{goes_on};
ghost use Rattle.service_parts.specs.Drafts.{with_draft};
ghost use Rattle.service_requests.specs.Endings.{MayEnd};
ghost use Rattle.service_parts.specs.Parts.{kept};
ghost use Rattle.service_requests.specs.Arrivals.{Says};
ghost use Rattle.service_requests.specs.Changes.{leaves, CanLeave, Drafts};
ghost use Rattle.service_parts.specs.Services.{IsService};
ghost use Rattle.service_events.specs.Doing.{Does, call_memory};

use crate::applying::apply;
use crate::going::follow;
use crate::outcome::DraftedEnd;
use call_registers::{Register, Why, is_newer};
use flights::Flight;
use journal_rows::{AckHow, Row, SawAckRow, SawAnswerRow, SawHow};
use lang_core::{Copied, NoMemory, Same};
use repair_messages::{AnswerMessage, copied_pair};
use service_events::{Arrived, CallRefused};
use service_parts::{Draft, Parts, note, start, tell};
use std::alloc::Global;

fn answers_register(answer: &AnswerMessage, register: Option<&Register>) -> bool
    ensures { result ≡ answers_register answer.now (option_copied register.entry) }
{
    match register {
        None => false,
        Some(register) => { register.dest.is(&answer.callee) && register.version == answer.version }
    }
}

fn is_for(parts: &Parts, answer: &AnswerMessage, flight: &Flight) -> bool
    ensures { result ≡ is_for (kept parts.now) answer.now flight.now }
{
    flight.awaited() == answer.number
        && answers_register(answer, parts.registers.get(answer.number))
}

fn is_new_to(answer: &AnswerMessage, register: Option<&Register>) -> bool
    ensures { result ≡ is_new_to answer.now (option_copied register.entry) }
{
    match register {
        None => true,
        Some(register) => is_newer(&register.answer, answer.answer_version),
    }
}

fn seen_live(alloc: Global, answer: &AnswerMessage) -> Result<Row, NoMemory>
    ensures { IfOk result (λ row. row ≡ seen_live answer.now) }
{
    let (response, who) = copied_pair(alloc, &answer.response, &answer.who)?;
    Ok(Row::SawAnswer(SawAnswerRow {
        number: answer.number,
        answer_version: answer.answer_version,
        version: answer.version,
        response,
        how: SawHow::Live,
        who,
        rule: 0,
    }))
}

fn push_seen(
    alloc: Global,
    answer: &AnswerMessage,
    new: bool,
    rows: &mut Vec<Row>,
) -> Result<(), NoMemory>
    ensures { OnOk result (rows.new.items ≡ rows.old.items ++ (if new then seen_live answer.now ∷ [] else [])) }
{
    if new {
        rows.push(seen_live(alloc, answer)?)?;
    }
    Ok(())
}

// The rows of a live answer.
fn live_answer_rows(
    alloc: Global,
    parts: &Parts,
    answer: &AnswerMessage,
) -> Result<Vec<Row>, NoMemory>
    ensures { IfOk result (λ rows. rows.items ≡ live_answer_rows (kept parts.now) answer.now) }
{
    let new = is_new_to(answer, parts.registers.get(answer.number));
    let mut rows = Vec::new(alloc);
    rows.push(Row::SawAck(SawAckRow {
        number: answer.number,
        version: answer.version,
        how: AckHow::WithAnswer(answer.answer_version),
    }))?;
    push_seen(alloc, answer, new, &mut rows)?;
    Ok(rows)
}

// A draft of the rows of a live answer.
fn draft_of_answer(alloc: Global, parts: &Parts, answer: &AnswerMessage) -> Result<Draft, NoMemory>
    ensures { IfOk result (λ draft. with_draft draft (kept parts.now) ≡ noted (live_answer_rows (kept parts.now) answer.now) (kept parts.now)) }
{
    let rows = live_answer_rows(alloc, parts, answer)?;
    let mut draft = start(alloc);
    note(alloc, parts, &mut draft, rows)?;
    Ok(draft)
}

fn follow_answer(
    alloc: Global,
    parts: &Parts,
    answer: &AnswerMessage,
    flight: &Flight,
) -> Result<DraftedEnd, NoMemory>
    requires { MayEnd (kept parts.now) flight.now }
    ensures follows { IfOk result (λ outcome. leaves (kept parts.now) outcome ≡ goes_on (noted (live_answer_rows (kept parts.now) answer.now) (kept parts.now)) flight.now) }
    ensures can { IfOk result (λ outcome. CanLeave (kept parts.now) outcome) }
{
    let own = flight.copied(alloc)?;
    let draft = draft_of_answer(alloc, parts, answer)?;
    follow(alloc, parts, draft, own)
}

// A draft of why a call has no answer.
fn draft_of_failure(alloc: Global, parts: &Parts, number: u64, why: Why) -> Result<Draft, NoMemory>
    ensures { IfOk result (λ draft. with_draft draft (kept parts.now) ≡ told number why (kept parts.now)) }
{
    let mut draft = start(alloc);
    tell(alloc, parts, &mut draft, number, why)?;
    Ok(draft)
}

fn follow_failure(
    alloc: Global,
    parts: &Parts,
    number: u64,
    why: Why,
    flight: &Flight,
) -> Result<DraftedEnd, NoMemory>
    requires { MayEnd (kept parts.now) flight.now }
    ensures follows { IfOk result (λ outcome. leaves (kept parts.now) outcome ≡ goes_on (told number why (kept parts.now)) flight.now) }
    ensures can { IfOk result (λ outcome. CanLeave (kept parts.now) outcome) }
{
    let own = flight.copied(alloc)?;
    let draft = draft_of_failure(alloc, parts, number, why)?;
    follow(alloc, parts, draft, own)
}

fn draft_answered(
    alloc: Global,
    parts: &Parts,
    id: u64,
    answer: &AnswerMessage,
) -> Result<DraftedEnd, CallRefused>
    requires { IsService parts.now }
    ensures { Says call_memory result (Drafts (call_answered_event (kept parts.now) id answer.now) (kept parts.now) result) }
{
    let Some(flight) = parts.flights.find(id) else {
        return Err(CallRefused::NoFlight(id));
    };
    if !is_for(parts, answer, flight) {
        return Err(CallRefused::NoFlight(id));
    }
    let outcome = follow_answer(alloc, parts, answer, flight)?;
    Ok(outcome)
}

fn draft_failed(
    alloc: Global,
    parts: &Parts,
    id: u64,
    number: u64,
    why: Why,
) -> Result<DraftedEnd, CallRefused>
    requires { IsService parts.now }
    ensures { Says call_memory result (Drafts (call_failed_event (kept parts.now) id number why) (kept parts.now) result) }
{
    let Some(flight) = parts.flights.find(id) else {
        return Err(CallRefused::NoFlight(id));
    };
    if flight.awaited() != number {
        return Err(CallRefused::NoFlight(id));
    }
    let outcome = follow_failure(alloc, parts, number, why, flight)?;
    Ok(outcome)
}

/// The call for which the flight of a number waits was answered.
pub fn call_answered(
    alloc: Global,
    parts: &mut Parts,
    id: u64,
    answer: &AnswerMessage,
) -> Result<Arrived, CallRefused>
    requires { IsService parts.old }
    ensures does { Does call_memory (call_answered_event (kept parts.old) id answer.now) (kept parts.old) result (kept parts.new) }
    ensures service { IsService parts.new }
{
    let outcome = draft_answered(alloc, parts, id, answer)?;
    let arrived = apply(alloc, parts, outcome)?;
    Ok(arrived)
}

/// The call of this number, for which the flight waits, failed.
pub fn call_failed(
    alloc: Global,
    parts: &mut Parts,
    id: u64,
    number: u64,
    why: Why,
) -> Result<Arrived, CallRefused>
    requires { IsService parts.old }
    ensures does { Does call_memory (call_failed_event (kept parts.old) id number why) (kept parts.old) result (kept parts.new) }
    ensures service { IsService parts.new }
{
    let outcome = draft_failed(alloc, parts, id, number, why)?;
    let arrived = apply(alloc, parts, outcome)?;
    Ok(arrived)
}
