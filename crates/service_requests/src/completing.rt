// What a live request does after a run.
ghost use Rattle.std.specs.Prelude.{◌≡◌, IfOk, OnOk, Some, None};
ghost use Rattle.std.specs.Option.{option_copied};
ghost use Rattle.local_repair.specs.Alone.{trace_or_dead};
ghost use Rattle.call_registers.specs.Registers.{next_number};
ghost use Rattle.flights.specs.declared.flight.Flight.{Flight};
ghost use Rattle.flights.specs.Moves.{next_move};
ghost use Rattle.service_events.specs.State.{Kept, After};
ghost use Rattle.service_events.specs.declared.answers.Arrived.{Arrived};
ghost use Rattle.service_events.specs.Flying.{live_call, wanted_of, goes_on, changed, committed, completing, completed, moved};
ghost use Rattle.service_parts.specs.Drafts.{with_draft};
ghost use Rattle.service_parts.specs.Parts.{kept};
ghost use Rattle.service_requests.specs.Endings.{ends, follows, CanEnd, CanStep, MayEnd, new_call, slot_of, named_service, named_flight, unsent_service, call_sent};

use crate::commits::commit;
use crate::endings::{Ending, Step};
use crate::flying::{live_call, put_call};
use crate::runs::run_flight;
use call_registers::Why;
use flights::{Flight, Move, advance, call_at};
use handler_run::Ran;
use lang_core::{Boxed, CallMade, Copied, NoMemory, Trace};
use request_log::dead_trace;
use service_parts::{Draft, Parts, change_rows, drafted, named, next_number, note, note_row, tell};
use std::alloc::Global;

/// More than the runs of any flight that is completed, by one.
const MOST_RUNS: u64 = 17;

/// How many changes of its calls a flight sends.
const SENT_CHANGES: u64 = 3;

fn trace_or_dead(alloc: Global, ran: Ran) -> Result<Trace, NoMemory>
    ensures { IfOk result (λ trace. trace ≡ trace_or_dead ran) }
{
    match ran {
        Ran::Done(trace) => Ok(trace),
        Ran::Wants { .. } => dead_trace(alloc),
    }
}

fn wait(
    alloc: Global,
    parts: &Parts,
    flight: Flight,
    number: u64,
    call: CallMade,
) -> Result<Ending, NoMemory>
    ensures { IfOk result (λ ending. ending ≡ Ending.Waits flight (live_call (kept parts.now) number call)) }
{
    let flight = Boxed::new(alloc, flight)?;
    let set = live_call(alloc, parts, number, call)?;
    Ok(Ending::Waits { flight, set })
}

// Drafts the row of one call more.
fn note_more(
    alloc: Global,
    parts: &Parts,
    draft: &mut Draft,
    call: &CallMade,
) -> Result<(), NoMemory>
    ensures { (f : Flight) → OnOk result (with_draft draft.new (kept parts.now) ≡ named_service (with_draft draft.old (kept parts.now)) f None call.now) }
{
    let row = named(alloc, next_number(parts, draft), call)?;
    note_row(alloc, parts, draft, row)
}

// Drafts the rows of another call at a slot, whose call is deleted.
fn note_change(
    alloc: Global,
    parts: &Parts,
    draft: &mut Draft,
    flight: &Flight,
    slot: u64,
    call: &CallMade,
) -> Result<(), NoMemory>
    ensures { OnOk result (with_draft draft.new (kept parts.now) ≡ named_service (with_draft draft.old (kept parts.now)) flight.now (Some slot) call.now) }
{
    let rows = change_rows(alloc, &drafted(parts, draft), flight, slot, call)?;
    note(alloc, parts, draft, rows)
}

// Drafts the rows of a new call: one more, or another one at a slot.
fn note_call(
    alloc: Global,
    parts: &Parts,
    draft: &mut Draft,
    flight: &Flight,
    slot: Option<u64>,
    call: &CallMade,
) -> Result<(), NoMemory>
    ensures { OnOk result (with_draft draft.new (kept parts.now) ≡ named_service (with_draft draft.old (kept parts.now)) flight.now slot call.now) }
{
    match slot {
        None => note_more(alloc, parts, draft, call),
        Some(slot) => note_change(alloc, parts, draft, flight, slot, call),
    }
}

// Drafts the rows of a new call of a flight, which then has it, and answers its number.
fn name(
    alloc: Global,
    parts: &Parts,
    draft: &mut Draft,
    flight: &mut Flight,
    slot: Option<u64>,
    call: &CallMade,
) -> Result<u64, NoMemory>
    ensures number { IfOk result (λ number. number ≡ next_number (with_draft draft.old (kept parts.now)).registers) }
    ensures flight { OnOk result (flight.new ≡ named_flight (with_draft draft.old (kept parts.now)) flight.old slot call.now) }
    ensures draft { OnOk result (with_draft draft.new (kept parts.now) ≡ named_service (with_draft draft.old (kept parts.now)) flight.old slot call.now) }
{
    let number = next_number(parts, draft);
    note_call(alloc, parts, draft, flight, slot, call)?;
    put_call(alloc, flight, slot, number, call)?;
    Ok(number)
}

// The new call isn't sent, and consumes the tentative answer.
fn name_unsent(
    alloc: Global,
    parts: &Parts,
    draft: &mut Draft,
    flight: &mut Flight,
    slot: Option<u64>,
    call: &CallMade,
) -> Result<(), NoMemory>
    ensures flight { OnOk result (flight.new ≡ named_flight (with_draft draft.old (kept parts.now)) flight.old slot call.now) }
    ensures draft { OnOk result (with_draft draft.new (kept parts.now) ≡ unsent_service (with_draft draft.old (kept parts.now)) flight.old slot call.now) }
{
    let number = name(alloc, parts, draft, flight, slot, call)?;
    tell(alloc, parts, draft, number, Why::Changes)
}

// The new call is sent, and the flight waits for its answer.
fn send(
    alloc: Global,
    parts: &Parts,
    draft: &mut Draft,
    mut flight: Flight,
    slot: Option<u64>,
    call: CallMade,
) -> Result<Ending, NoMemory>
    requires { MayEnd (kept parts.now) flight }
    ensures ends { IfOk result (λ ending. ends (with_draft draft.new (kept parts.now)) ending ≡ call_sent (with_draft draft.old (kept parts.now)) flight slot call) }
    ensures can { IfOk result (λ ending. CanEnd (kept parts.now) ending) }
{
    let number = name(alloc, parts, draft, &mut flight, slot, &call)?;
    wait(alloc, parts, flight, number, call)
}

// Another call at a slot is sent, of which its run keeps its own.
fn send_other(
    alloc: Global,
    parts: &Parts,
    draft: &mut Draft,
    flight: Flight,
    slot: u64,
    call: &CallMade,
) -> Result<Ending, NoMemory>
    requires { MayEnd (kept parts.now) flight }
    ensures ends { IfOk result (λ ending. ends (with_draft draft.new (kept parts.now)) ending ≡ call_sent (with_draft draft.old (kept parts.now)) flight (Some slot) call.now) }
    ensures can { IfOk result (λ ending. CanEnd (kept parts.now) ending) }
{
    let copy = call.copied(alloc)?;
    send(alloc, parts, draft, flight, Some(slot), copy)
}

// What follows where a run was to be committed.
fn ended(
    alloc: Global,
    parts: &Parts,
    draft: &mut Draft,
    flight: Flight,
    ran: Ran,
) -> Result<Ending, NoMemory>
    requires { MayEnd (kept parts.now) flight }
    ensures ends { IfOk result (λ ending. ends (with_draft draft.new (kept parts.now)) ending ≡ committed (with_draft draft.old (kept parts.now)) flight (trace_or_dead ran)) }
    ensures can { IfOk result (λ ending. CanEnd (kept parts.now) ending) }
{
    let trace = trace_or_dead(alloc, ran)?;
    commit(alloc, parts, draft, flight, trace)
}

fn wanted_of(ran: &Ran) -> Option<&CallMade>
    ensures { option_copied result ≡ wanted_of ran.now }
{
    match ran {
        Ran::Done(_) => None,
        Ran::Wants { call, .. } => Some(call),
    }
}

// The call that a flight names after a run that it goes on with so, if there is one.
fn new_call(next: Move, ran: &Ran) -> Option<&CallMade>
    ensures { option_copied result ≡ new_call next ran.now }
{
    match next {
        Move::Commit => None,
        Move::Name => wanted_of(ran),
        Move::Change { slot } => call_at(ran, slot),
    }
}

fn slot_of(next: Move) -> Option<u64>
    ensures { result ≡ slot_of next }
{
    match next {
        Move::Change { slot } => Some(slot),
        Move::Commit | Move::Name => None,
    }
}

// What one run of a flight that is completed leads to.
fn next_step(
    alloc: Global,
    parts: &Parts,
    draft: &mut Draft,
    mut flight: Flight,
    ran: Ran,
) -> Result<Step, NoMemory>
    requires { MayEnd (kept parts.now) flight }
    ensures step { IfOk result (λ step. (again : Kept → Flight → After Arrived) →
        follows (with_draft draft.new (kept parts.now)) step again
        ≡ completing (with_draft draft.old (kept parts.now)) flight ran (next_move flight ran) again) }
    ensures can { IfOk result (λ step. CanStep (kept parts.now) step) }
{
    let next = advance(&flight, &ran);
    match new_call(next, &ran) {
        None => {
            let ending = ended(alloc, parts, draft, flight, ran)?;
            Ok(Step::Ends(ending))
        }
        Some(call) => {
            name_unsent(alloc, parts, draft, &mut flight, slot_of(next), call)?;
            Ok(Step::Goes(flight))
        }
    }
}

// The flight is completed in at most so many runs.
fn complete(
    alloc: Global,
    parts: &Parts,
    draft: &mut Draft,
    flight: Flight,
    runs: u64,
) -> Result<Ending, NoMemory>
    requires { MayEnd (kept parts.now) flight }
    ensures ends { IfOk result (λ ending. ends (with_draft draft.new (kept parts.now)) ending ≡ completed runs (with_draft draft.old (kept parts.now)) flight) }
    ensures can { IfOk result (λ ending. CanEnd (kept parts.now) ending) }
{
    if runs == 0 {
        let trace = dead_trace(alloc)?;
        return commit(alloc, parts, draft, flight, trace);
    }
    let ran = run_flight(alloc, parts, draft, &flight)?;
    match next_step(alloc, parts, draft, flight, ran)? {
        Step::Ends(ending) => Ok(ending),
        Step::Goes(next) => complete(alloc, parts, draft, next, runs - 1),
    }
}

// Another call at a slot: up to the third change it is sent, from the fourth on the flight is completed.
fn changed(
    alloc: Global,
    parts: &Parts,
    draft: &mut Draft,
    mut flight: Flight,
    slot: u64,
    call: &CallMade,
) -> Result<Ending, NoMemory>
    requires { MayEnd (kept parts.now) flight }
    ensures ends { IfOk result (λ ending. ends (with_draft draft.new (kept parts.now)) ending ≡ changed (with_draft draft.old (kept parts.now)) flight slot call.now) }
    ensures can { IfOk result (λ ending. CanEnd (kept parts.now) ending) }
{
    if flight.changes < SENT_CHANGES {
        return send_other(alloc, parts, draft, flight, slot, call);
    }
    name_unsent(alloc, parts, draft, &mut flight, Some(slot), call)?;
    complete(alloc, parts, draft, flight, MOST_RUNS)
}

// A run that wants a call more, which is sent.
fn call_on(
    alloc: Global,
    parts: &Parts,
    draft: &mut Draft,
    flight: Flight,
    ran: Ran,
) -> Result<Ending, NoMemory>
    requires { MayEnd (kept parts.now) flight }
    ensures ends { IfOk result (λ ending. ends (with_draft draft.new (kept parts.now)) ending ≡ moved (with_draft draft.old (kept parts.now)) flight ran Move.Name) }
    ensures can { IfOk result (λ ending. CanEnd (kept parts.now) ending) }
{
    match ran {
        Ran::Done(trace) => commit(alloc, parts, draft, flight, trace),
        Ran::Wants { call, .. } => send(alloc, parts, draft, flight, None, call),
    }
}

// A run that makes another call at a slot.
fn change_on(
    alloc: Global,
    parts: &Parts,
    draft: &mut Draft,
    flight: Flight,
    slot: u64,
    ran: Ran,
) -> Result<Ending, NoMemory>
    requires { MayEnd (kept parts.now) flight }
    ensures ends { IfOk result (λ ending. ends (with_draft draft.new (kept parts.now)) ending ≡ moved (with_draft draft.old (kept parts.now)) flight ran (Move.Change slot)) }
    ensures can { IfOk result (λ ending. CanEnd (kept parts.now) ending) }
{
    match call_at(&ran, slot) {
        None => ended(alloc, parts, draft, flight, ran),
        Some(call) => changed(alloc, parts, draft, flight, slot, call),
    }
}

/// A flight goes on: it runs, and is committed, or waits for a new call, or is completed. Refused, the draft is no use any
/// more.
pub fn go_on(
    alloc: Global,
    parts: &Parts,
    draft: &mut Draft,
    flight: Flight,
) -> Result<Ending, NoMemory>
    requires { MayEnd (kept parts.now) flight }
    ensures ends { IfOk result (λ ending. ends (with_draft draft.new (kept parts.now)) ending ≡ goes_on (with_draft draft.old (kept parts.now)) flight) }
    ensures can { IfOk result (λ ending. CanEnd (kept parts.now) ending) }
{
    let ran = run_flight(alloc, parts, draft, &flight)?;
    match advance(&flight, &ran) {
        Move::Commit => ended(alloc, parts, draft, flight, ran),
        Move::Name => call_on(alloc, parts, draft, flight, ran),
        Move::Change { slot } => change_on(alloc, parts, draft, flight, slot, ran),
    }
}
