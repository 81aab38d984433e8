// What is drafted becomes so.
ghost use Rattle.std.specs.Prelude.{◌≡◌, ◌+◌, ◌<◌, ◌≤◌, [], ◌∷◌, ◌++◌, length, IfOk, IfSome, OnOk, OnErr, vec_len};
ghost use Rattle.request_log.specs.Entries.{IsNew};
ghost use Rattle.call_registers.specs.Replies.{IsAboveAll};
ghost use Rattle.flights.specs.Numbers.{without_flight};
ghost use Rattle.service_events.specs.State.{after};
ghost use Rattle.service_parts.specs.Drafts.{with_draft};
ghost use Rattle.service_requests.specs.Endings.{ends, listed, CanEnd};
ghost use Rattle.service_parts.specs.Parts.{kept, whole_log};
ghost use Rattle.service_events.specs.Flying.{answer_to_caller};
ghost use Rattle.service_parts.specs.Rooms.{aloft};
ghost use Rattle.service_parts.specs.declared.draft.Draft.{Draft};
ghost use Rattle.service_requests.specs.Changes.{leaves, CanLeave, IsReadyFor, with_entries};
ghost use Rattle.service_parts.specs.Services.{HasRoom};

use crate::endings::Ending;
use crate::outcome::DraftedEnd;
use call_registers::{Replies, Reply};
use flights::{Flight, Flights};
use lang_core::{NoMemory, Origin};
use repair_messages::{AnswerMessage, SetMessage};
use request_log::{Entry, KeptEntry};
use service_events::Arrived;
use service_parts::{Draft, Parts, append, last_answer, note_draft, reserve_draft};
use std::alloc::Global;

#[tactic(auto, using(lang_lists::proofs::RoomLemmas::made_last))]
fn ready_reply(replies: &mut Replies, reply: &Option<Reply>) -> Result<(), NoMemory>
    ensures list { replies.new.list ≡ replies.old.list }
    ensures ok { OnOk result (IsReadyFor reply.now replies.new.room) }
{
    match reply {
        None => Ok(()),
        Some(reply) => {
            replies.ready_add(reply)?;
            Ok(())
        }
    }
}

fn add_reply(replies: &mut Replies, reply: Option<Reply>)
    requires above { IfSome reply (λ p. IsAboveAll p.id replies.old.list) }
    requires ready { IsReadyFor reply replies.old.room }
    ensures { replies.new.list ≡ replies.old.list ++ listed reply }
{
    match reply {
        None => {}
        Some(reply) => replies.add(reply).unwrap(),
    }
}

// Room for a draft, and for so many rows more. Refused, nothing changes.
fn reserve_for(parts: &mut Parts, draft: &Draft, calls: u64) -> Result<(), NoMemory>
    ensures kept { kept parts.new ≡ kept parts.old }
    ensures flights { parts.new.flights ≡ parts.old.flights }
    ensures spare { parts.old.journal.spare ≤ parts.new.journal.spare }
    ensures rows { OnOk result ((vec_len draft.now.rows + calls) + aloft parts.old.flights.list ≤ parts.new.journal.spare) }
    ensures added { OnOk result (vec_len draft.now.changes.added ≤ parts.new.registers.spare) }
{
    let rows = (draft.rows.len() as u64)
        .checked_add(calls)
        .ok_or(NoMemory)?;
    reserve_draft(
        &mut parts.journal,
        &mut parts.registers,
        rows,
        draft.changes.added.len() as u64,
        parts.flights.as_slice(),
    )
}

// Room for what a commit adds, and then its entry. Refused, nothing changes.
fn add_entry(
    parts: &mut Parts,
    draft: &Draft,
    entry: KeptEntry,
    reply: &Option<Reply>,
) -> Result<(), NoMemory>
    requires is_new { IsNew entry (whole_log parts.old.repairer) }
    requires few { length parts.old.repairer.entries < 100000 }
    ensures ok { OnOk result (kept parts.new ≡ with_entries (whole_log parts.old.repairer ++ entry ∷ []) (kept parts.old)) }
    ensures rows { OnOk result (vec_len draft.now.rows + aloft parts.old.flights.list ≤ parts.new.journal.spare) }
    ensures added { OnOk result (vec_len draft.now.changes.added ≤ parts.new.registers.spare) }
    ensures reply { OnOk result (IsReadyFor reply.now parts.new.replies.room) }
    ensures err { OnErr result (kept parts.new ≡ kept parts.old) }
    ensures spare { parts.old.journal.spare ≤ parts.new.journal.spare }
{
    reserve_for(parts, draft, 0)?;
    ready_reply(&mut parts.replies, reply)?;
    let own = entry.entry();
    parts.registers.place(own.slots.as_slice(), own.id);
    append(&mut parts.repairer, entry)
}

// Takes a flight out, if it is there: one that never waited for a call isn't.
#[tactic(auto, using(crate::proofs::EndLemmas::without_missing))]
fn take_out(flights: &mut Flights, flight: u64)
    ensures { flights.new.list ≡ without_flight flight flights.old.list }
{
    match flights.find(flight) {
        None => {}
        Some(_) => {
            let _landed = flights.remove(flight);
        }
    }
}

// Takes a flight out, if it is there, and adds its reply.
fn land(flights: &mut Flights, replies: &mut Replies, flight: u64, reply: Option<Reply>)
    requires above { IfSome reply (λ p. IsAboveAll p.id replies.old.list) }
    requires ready { IsReadyFor reply replies.old.room }
    ensures flights { flights.new.list ≡ without_flight flight flights.old.list }
    ensures replies { replies.new.list ≡ replies.old.list ++ listed reply }
{
    take_out(flights, flight);
    add_reply(replies, reply);
}

// The flight of this number is the last entry of the log.
fn commit(
    parts: &mut Parts,
    draft: Draft,
    flight: u64,
    entry: KeptEntry,
    reply: Option<Reply>,
    index: u64,
    answer: Option<AnswerMessage>,
) -> Result<Arrived, NoMemory>
    requires can { CanEnd (kept parts.old) (Ending.Commits flight entry reply index) }
    requires answer { answer ≡ answer_to_caller (with_draft draft (kept parts.old)) entry.origin entry }
    requires room { HasRoom parts.old }
    ensures ok { IfOk result (λ arrived. after (kept parts.new) arrived ≡ ends (with_draft draft (kept parts.old)) (Ending.Commits flight entry reply index)) }
    ensures err { OnErr result (kept parts.new ≡ kept parts.old) }
    ensures room { HasRoom parts.new }
{
    let id = entry.entry().id;
    add_entry(parts, &draft, entry, &reply)?;
    note_draft(&mut parts.journal, &mut parts.registers, draft);
    land(&mut parts.flights, &mut parts.replies, flight, reply);
    Ok(Arrived::Done { index, id, answer })
}

// Room for a draft and for a flight more, which has so many calls.
fn reserve_flight(parts: &mut Parts, draft: &Draft, calls: u64) -> Result<(), NoMemory>
    ensures kept { kept parts.new ≡ kept parts.old }
    ensures spare { parts.old.journal.spare ≤ parts.new.journal.spare }
    ensures ok { OnOk result ((vec_len draft.now.rows + calls) + aloft parts.old.flights.list ≤ parts.new.journal.spare) }
    ensures added { OnOk result (vec_len draft.now.changes.added ≤ parts.new.registers.spare) }
    ensures flight { OnOk result (0 < parts.new.flights.spare) }
{
    reserve_for(parts, draft, calls)?;
    parts.flights.reserve(1)
}

// The flight waits for the answer of this call.
fn wait(
    parts: &mut Parts,
    draft: Draft,
    flight: Flight,
    set: SetMessage,
) -> Result<Arrived, NoMemory>
    requires can { CanEnd (kept parts.old) (Ending.Waits flight set) }
    requires room { HasRoom parts.old }
    ensures ok { IfOk result (λ arrived. after (kept parts.new) arrived ≡ ends (with_draft draft (kept parts.old)) (Ending.Waits flight set)) }
    ensures err { OnErr result (kept parts.new ≡ kept parts.old) }
    ensures room { HasRoom parts.new }
{
    let id = flight.id;
    reserve_flight(parts, &draft, flight.calls.len())?;
    note_draft(&mut parts.journal, &mut parts.registers, draft);
    parts.flights.put(flight).unwrap();
    Ok(Arrived::Call { flight: id, set })
}

// What goes back to the caller of a committed call.
fn answer_to_caller(
    alloc: Global,
    parts: &Parts,
    entry: &Entry,
) -> Result<Option<AnswerMessage>, NoMemory>
    ensures { (d : Draft) → IfOk result (λ answer. answer ≡ answer_to_caller (with_draft d (kept parts.now)) entry.now.origin entry.now) }
{
    match (&entry.origin, &entry.made) {
        (Origin::Call { caller, number }, Some(made)) => {
            let answer = last_answer(alloc, parts, caller, *number, entry, made)?;
            Ok(Some(answer))
        }
        (Origin::Call { .. }, None) => Ok(None),
        (Origin::Outside, _) => Ok(None),
    }
}

// Commits, and makes what goes back to the caller first. Refused, nothing changes.
fn commit_answering(
    alloc: Global,
    parts: &mut Parts,
    draft: Draft,
    flight: u64,
    entry: KeptEntry,
    reply: Option<Reply>,
    index: u64,
) -> Result<Arrived, NoMemory>
    requires can { CanEnd (kept parts.old) (Ending.Commits flight entry reply index) }
    requires room { HasRoom parts.old }
    ensures ok { IfOk result (λ arrived. after (kept parts.new) arrived ≡ ends (with_draft draft (kept parts.old)) (Ending.Commits flight entry reply index)) }
    ensures err { OnErr result (kept parts.new ≡ kept parts.old) }
    ensures room { HasRoom parts.new }
{
    let answer = answer_to_caller(alloc, parts, entry.entry())?;
    commit(parts, draft, flight, entry, reply, index, answer)
}

/// Puts an outcome in place. Room for all of it is made first; refused, nothing changes.
pub(crate) fn apply(
    alloc: Global,
    parts: &mut Parts,
    outcome: DraftedEnd,
) -> Result<Arrived, NoMemory>
    requires can { CanLeave (kept parts.old) outcome }
    requires room { HasRoom parts.old }
    ensures ok { IfOk result (λ arrived. after (kept parts.new) arrived ≡ leaves (kept parts.old) outcome) }
    ensures err { OnErr result (kept parts.new ≡ kept parts.old) }
    ensures room { HasRoom parts.new }
{
    let DraftedEnd { draft, ending } = outcome;
    match ending {
        Ending::Commits {
            flight,
            entry,
            reply,
            index,
        } => commit_answering(alloc, parts, draft, flight, entry, reply, index),
        Ending::Waits { flight, set } => wait(parts, draft, flight.into_inner(), set),
    }
}
