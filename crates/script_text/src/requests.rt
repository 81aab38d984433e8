// Live requests in a line.
ghost use Rattle.std.specs.Prelude.{◌≡◌, ◌++◌, [], OnOk, string_bytes, slice_get};
ghost use Rattle.script_text.specs.Happenings.{answered_text, arrived_line, flown_line, outcome_line, stray_line};

use crate::refusals::{push_ending, push_refused};
use journal_rows::Row;
use lang_core::{Name, NoMemory};
use report_text::push_response;
use request_names::push_id;
use service_events::{ArriveRefused, CallRefused};
use world_events::Outcome;

// The response of the answer that stands at this place of a journal.
fn push_answered(text: &mut String, rows: &[Row], index: u64) -> Result<(), NoMemory>
    ensures { OnOk result (string_bytes text.new ≡ string_bytes text.old ++ answered_text (slice_get rows.now index)) }
{
    match rows.get(index as usize) {
        Some(Row::Answered(row)) => push_response(text, &row.response),
        _ => Ok(()),
    }
}

fn push_done(
    text: &mut String,
    service: &Name,
    rows: &[Row],
    index: u64,
    id: u64,
    packet: Option<u64>,
) -> Result<(), NoMemory>
    ensures { OnOk result (string_bytes text.new ≡ string_bytes text.old
        ++ outcome_line service.now rows.now (Outcome.Done index id) packet) }
{
    push_id(text, service, id)?;
    text.push_str(" = ")?;
    push_answered(text, rows, index)?;
    push_ending(text, packet)
}

fn push_flight(
    text: &mut String,
    service: &Name,
    flight: u64,
    packet: Option<u64>,
) -> Result<(), NoMemory>
    ensures { OnOk result (string_bytes text.new ≡ string_bytes text.old
        ++ outcome_line service.now [] (Outcome.Call flight) packet) }
{
    let service = service.as_str();
    write!(text, "{service} f{flight}")?;
    push_ending(text, packet)
}

fn push_known(
    text: &mut String,
    service: &Name,
    id: u64,
    version: u64,
    packet: Option<u64>,
) -> Result<(), NoMemory>
    ensures { OnOk result (string_bytes text.new ≡ string_bytes text.old
        ++ outcome_line service.now [] (Outcome.Known id version) packet) }
{
    text.push_str(service.as_str())?;
    text.push_str(" known ")?;
    push_id(text, service, id)?;
    write!(text, " a{version}")?;
    push_ending(text, packet)
}

fn push_outcome(
    text: &mut String,
    service: &Name,
    rows: &[Row],
    outcome: Outcome,
    packet: Option<u64>,
) -> Result<(), NoMemory>
    ensures { OnOk result (string_bytes text.new ≡ string_bytes text.old
        ++ outcome_line service.now rows.now outcome packet) }
{
    match outcome {
        Outcome::Done { index, id } => push_done(text, service, rows, index, id, packet),
        Outcome::Call { flight } => push_flight(text, service, flight, packet),
        Outcome::Known { id, answer_version } => {
            push_known(text, service, id, answer_version, packet)
        }
    }
}

/// Puts the line of a request last that came from outside or from another service.
pub fn push_arrived(
    text: &mut String,
    service: &Name,
    rows: &[Row],
    arrived: Result<Outcome, ArriveRefused>,
    packet: Option<u64>,
) -> Result<(), NoMemory>
    ensures { OnOk result (string_bytes text.new ≡ string_bytes text.old
        ++ arrived_line service.now rows.now arrived packet) }
{
    match arrived {
        Ok(outcome) => push_outcome(text, service, rows, outcome, packet),
        Err(why) => push_refused(text, service, why.refusal(), packet),
    }
}

fn push_stray(
    text: &mut String,
    service: &Name,
    why: CallRefused,
    packet: Option<u64>,
) -> Result<(), NoMemory>
    ensures { OnOk result (string_bytes text.new ≡ string_bytes text.old ++ stray_line service.now why packet) }
{
    match why {
        CallRefused::NoMemory => push_refused(text, service, why.refusal(), packet),
        CallRefused::NoFlight(_) => {
            let service = service.as_str();
            write!(text, "{service} stray")?;
            push_ending(text, packet)
        }
    }
}

/// Puts the line of a flight last to which an answer or a failure came.
pub fn push_flown(
    text: &mut String,
    service: &Name,
    rows: &[Row],
    flown: Result<Outcome, CallRefused>,
    packet: Option<u64>,
) -> Result<(), NoMemory>
    ensures { OnOk result (string_bytes text.new ≡ string_bytes text.old
        ++ flown_line service.now rows.now flown packet) }
{
    match flown {
        Ok(outcome) => push_outcome(text, service, rows, outcome, packet),
        Err(why) => push_stray(text, service, why, packet),
    }
}
