// The commit of a flight.
ghost use Rattle.std.specs.Prelude.{◌≡◌, ◌+◌, [], ◌∷◌, ◌++◌, Some, true, false, take, drop, IfOk, OnOk};
ghost use Rattle.service_events.specs.Flying.{live_version, took_rows, surplus_rows, before_answer, live_answer, committed_entry, committed, answer_index};
ghost use Rattle.service_events.specs.Calls.{noted};
ghost use Rattle.service_events.specs.State.{next_id};
ghost use Rattle.service_parts.specs.Drafts.{with_draft};
ghost use Rattle.service_requests.specs.Endings.{ends, CanEnd, MayEnd, asked_rows, reply_of, commit_noted};
ghost use Rattle.service_parts.specs.Parts.{kept};

use crate::endings::Ending;
use call_registers::Reply;
use flights::Flight;
use journal_rows::{AnsweredRow, AskedRow, Row, TookHow, TookRow};
use lang_base::both;
use lang_core::{Copied, Name, NoMemory, Origin, Request, Shared, ThinSeq, Trace};
use repair_messages::copied_pair;
use request_log::{Entry, KeptEntry, Made, Numbers, Under};
use service_parts::{Draft, Parts, drafted, next_id, next_index, note, note_row, push_deleted};
use std::alloc::Global;

/// The most rows that a commit drafts beside those of surplus calls: that the request was asked, that it was taken, and its
/// answer.
const OWN_ROWS: usize = 3;

fn live_version(origin: &Origin) -> u64
    ensures { result ≡ live_version origin.now }
{
    match origin {
        Origin::Outside => 0,
        Origin::Call { .. } => 1,
    }
}

fn took(
    alloc: Global,
    caller: &Name,
    number: u64,
    request: &Shared<Request>,
) -> Result<Row, NoMemory>
    ensures { IfOk result (λ row. took_rows (Origin.Call caller.now number) request.now ≡ row ∷ []) }
{
    let (caller, desired) = copied_pair(alloc, caller, request)?;
    let who = request.get().who.copied(alloc)?;
    Ok(Row::Took(TookRow {
        caller,
        number,
        version: 1,
        desired: Some(desired),
        how: TookHow::Live,
        who,
        rule: 0,
    }))
}

fn push_took(
    alloc: Global,
    origin: &Origin,
    request: &Shared<Request>,
    rows: &mut Vec<Row>,
) -> Result<(), NoMemory>
    ensures { OnOk result (rows.new.items ≡ rows.old.items ++ took_rows origin.now request.now) }
{
    match origin {
        Origin::Outside => Ok(()),
        Origin::Call { caller, number } => {
            let row = took(alloc, caller, *number, request)?;
            rows.push(row)?;
            Ok(())
        }
    }
}

fn asked(alloc: Global, id: u64, flight: &Flight) -> Result<Row, NoMemory>
    ensures { IfOk result (λ row. row ≡ Row.Asked (record {
      id = id;
      origin = flight.now.origin;
      request = flight.now.request;
      inputs = flight.now.inputs;
      program = flight.now.program.number;
    })) }
{
    let asked = copied_pair(alloc, &flight.request, &flight.inputs);
    let (origin, asked) = both(flight.origin.copied(alloc), asked)?;
    Ok(Row::Asked(AskedRow {
        id,
        origin,
        request: asked.0,
        inputs: asked.1,
        program: flight.program.get().number(),
    }))
}

fn from_place<T>(items: &[T], place: u64) -> &[T]
    ensures { result.now ≡ drop place items.now }
{
    let start = (place as usize).min(items.len());
    &items[start..]
}

// The rows of the flight's calls beyond those that its last run made, in a list with room for the commit's own rows where
// there are none.
fn surplus_rows(
    alloc: Global,
    parts: &Parts,
    draft: &Draft,
    flight: &Flight,
    trace: &Trace,
) -> Result<Vec<Row>, NoMemory>
    ensures { IfOk result (λ rows. rows.items ≡ surplus_rows (with_draft draft.now (kept parts.now)) flight.now trace.now) }
{
    let mut rows = Vec::with_capacity(alloc, OWN_ROWS)?;
    let calls = trace.calls.len();
    let numbers = from_place(flight.numbers.as_slice(), calls);
    let surplus = from_place(flight.calls.as_slice(), calls);
    push_deleted(alloc, &drafted(parts, draft), numbers, surplus, &mut rows)?;
    Ok(rows)
}

// Puts the rows of the request last: that it was asked, under which program, and that it was taken where it is a call.
fn push_asked(
    alloc: Global,
    parts: &Parts,
    flight: &Flight,
    rows: &mut Vec<Row>,
) -> Result<(), NoMemory>
    ensures { OnOk result (rows.new.items ≡ rows.old.items ++ asked_rows (kept parts.now) flight.now) }
{
    let row = asked(alloc, next_id(parts), flight)?;
    rows.push(row)?;
    push_took(alloc, &flight.origin, &flight.request, rows)
}

// The rows that stand before the answer.
fn before_answer(
    alloc: Global,
    parts: &Parts,
    draft: &Draft,
    flight: &Flight,
    trace: &Trace,
) -> Result<Vec<Row>, NoMemory>
    ensures { IfOk result (λ rows. rows.items ≡ before_answer (with_draft draft.now (kept parts.now)) flight.now trace.now) }
{
    let mut rows = surplus_rows(alloc, parts, draft, flight, trace)?;
    push_asked(alloc, parts, flight, &mut rows)?;
    Ok(rows)
}

fn live_answer(
    alloc: Global,
    parts: &Parts,
    flight: &Flight,
    trace: &Trace,
) -> Result<Row, NoMemory>
    ensures { IfOk result (λ row. row ≡ live_answer (kept parts.now) flight.now trace.now) }
{
    let (origin, response) = copied_pair(alloc, &flight.origin, &trace.response)?;
    Ok(Row::Answered(AnsweredRow {
        id: next_id(parts),
        origin,
        answer_version: 1,
        version: live_version(&flight.origin),
        response,
        live: true,
    }))
}

fn first_numbers(alloc: Global, numbers: &[u64], count: u64) -> Result<Numbers, NoMemory>
    ensures { IfOk result (λ first. first ≡ take count numbers.now) }
{
    let mut first = ThinSeq::new(alloc);
    for (i, number) in numbers.iter().enumerate() {
        if i as u64 == count {
            return Ok(first);
        }
        first.push(*number)?;
    }
    Ok(first)
}

// What the flight did, as the record of its entry.
fn made_of(alloc: Global, flight: &Flight, trace: Trace) -> Result<Made, NoMemory>
    ensures { IfOk result (λ made. made ≡ record { alive = true; version = live_version flight.now.origin; request = flight.now.request; trace = trace }) }
{
    let request = flight.request.copied(alloc)?;
    Ok(Made {
        alive: true,
        version: live_version(&flight.origin),
        request,
        trace,
    })
}

// The entry that the flight becomes.
fn committed_entry(
    alloc: Global,
    parts: &Parts,
    flight: Flight,
    trace: Trace,
) -> Result<KeptEntry, NoMemory>
    ensures { IfOk result (λ entry. entry ≡ committed_entry (kept parts.now) flight trace) }
{
    let slots = first_numbers(alloc, flight.numbers.as_slice(), trace.calls.len());
    let (slots, made) = both(slots, made_of(alloc, &flight, trace))?;
    let entry = Entry {
        id: next_id(parts),
        version: live_version(&flight.origin),
        origin: flight.origin,
        request: flight.request,
        wanted: true,
        struck: false,
        inputs: flight.inputs,
        under: Under::of(flight.program),
        made: Some(made),
        slots,
        answer_version: 1,
        runs: 1,
    };
    KeptEntry::of(alloc, entry)
}

fn reply_to(
    alloc: Global,
    parts: &Parts,
    index: u64,
    caller: &Name,
    number: u64,
) -> Result<Reply, NoMemory>
    ensures { IfOk result (λ reply. Some reply ≡ reply_of (kept parts.now) index (Origin.Call caller.now number)) }
{
    let caller = caller.copied(alloc)?;
    let repair_who = parts.setting.me.text().copied(alloc)?;
    Ok(Reply {
        id: next_id(parts),
        caller,
        number,
        version: 1,
        answer_version: 1,
        wanted: true,
        due: false,
        held: None,
        repair_who,
        since: index,
    })
}

// The reply of a live call.
fn live_reply(
    alloc: Global,
    parts: &Parts,
    index: u64,
    origin: &Origin,
) -> Result<Option<Reply>, NoMemory>
    ensures { IfOk result (λ reply. reply ≡ reply_of (kept parts.now) index origin.now) }
{
    match origin {
        Origin::Outside => Ok(None),
        Origin::Call { caller, number } => {
            let reply = reply_to(alloc, parts, index, caller, *number)?;
            Ok(Some(reply))
        }
    }
}

// What a commit leaves beside its rows, where its answer has this index in the journal.
fn ending_of(
    alloc: Global,
    parts: &Parts,
    flight: Flight,
    trace: Trace,
    index: u64,
) -> Result<Ending, NoMemory>
    ensures { IfOk result (λ ending. ending ≡ Ending.Commits flight.id (committed_entry (kept parts.now) flight trace) (reply_of (kept parts.now) index flight.origin) index) }
{
    let id = flight.id;
    let reply = live_reply(alloc, parts, index, &flight.origin);
    let (reply, entry) = both(reply, committed_entry(alloc, parts, flight, trace))?;
    Ok(Ending::Commits {
        flight: id,
        entry,
        reply,
        index,
    })
}

// Drafts the answer of a commit.
fn note_answer(
    alloc: Global,
    parts: &Parts,
    draft: &mut Draft,
    flight: &Flight,
    trace: &Trace,
) -> Result<(), NoMemory>
    ensures { OnOk result (with_draft draft.new (kept parts.now) ≡ noted (live_answer (kept parts.now) flight.now trace.now ∷ []) (with_draft draft.old (kept parts.now))) }
{
    let row = live_answer(alloc, parts, flight, trace)?;
    note_row(alloc, parts, draft, row)
}

// Drafts the rows of a commit, and answers the index of its answer.
fn note_commit(
    alloc: Global,
    parts: &Parts,
    draft: &mut Draft,
    flight: &Flight,
    trace: &Trace,
) -> Result<u64, NoMemory>
    ensures noted { OnOk result (with_draft draft.new (kept parts.now) ≡ commit_noted (with_draft draft.old (kept parts.now)) flight.now trace.now) }
    ensures index { IfOk result (λ index. index ≡ answer_index (with_draft draft.old (kept parts.now)) flight.now trace.now) }
{
    let rows = before_answer(alloc, parts, draft, flight, trace)?;
    note(alloc, parts, draft, rows)?;
    let index = next_index(parts, draft);
    note_answer(alloc, parts, draft, flight, trace)?;
    Ok(index)
}

/// The flight is committed with this trace.
pub(crate) fn commit(
    alloc: Global,
    parts: &Parts,
    draft: &mut Draft,
    flight: Flight,
    trace: Trace,
) -> Result<Ending, NoMemory>
    requires { MayEnd (kept parts.now) flight }
    ensures ends { IfOk result (λ ending. ends (with_draft draft.new (kept parts.now)) ending ≡ committed (with_draft draft.old (kept parts.now)) flight trace) }
    ensures can { IfOk result (λ ending. CanEnd (kept parts.now) ending) }
{
    let index = note_commit(alloc, parts, draft, &flight, &trace)?;
    ending_of(alloc, parts, flight, trace, index)
}
