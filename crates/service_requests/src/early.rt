// What a live request is answered without a run.
ghost use Rattle.std.specs.Prelude.{◌≡◌, ◌≤◌, Err, Ok, option_map};
ghost use Rattle.lang_core.specs.declared.ids.Origin.{Origin};
ghost use Rattle.request_log.specs.Entries.{find_call};
ghost use Rattle.request_log.specs.Folded.{as_entry};
ghost use Rattle.request_log.specs.Records.{record_of};
ghost use Rattle.journal_rows.specs.Words.{last_taken};
ghost use Rattle.service_events.specs.State.{in_all};
ghost use Rattle.service_parts.specs.Parts.{kept, whole_log};
ghost use Rattle.service_events.specs.Doing.{arrive_memory};
ghost use Rattle.service_requests.specs.Arrivals.{Says, early, by_made, by_entry, deletion_in, unless_deleted, known, too_much, refusal, before_run};

use lang_core::{Name, Origin};
use request_log::{Entry, Folded};
use service_events::{ArriveRefused, Arrived};
use service_parts::{Parts, is_crowded, is_heavy, last_answer, past_answer};
use std::alloc::Global;

fn by_made(
    alloc: Global,
    parts: &Parts,
    caller: &Name,
    number: u64,
    entry: &Entry,
) -> Result<Option<Arrived>, ArriveRefused>
    ensures { Says arrive_memory result (early result ≡ by_made (kept parts.now) caller.now number entry.now (record_of entry.now)) }
{
    match &entry.made {
        None => Err(ArriveRefused::NotYet(number)),
        Some(made) => {
            let answer = last_answer(alloc, parts, caller, number, entry, made)?;
            Ok(Some(Arrived::Known(answer)))
        }
    }
}

// A folded entry ran.
fn by_past(
    alloc: Global,
    parts: &Parts,
    caller: &Name,
    number: u64,
    past: &Folded,
) -> Result<Option<Arrived>, ArriveRefused>
    ensures { Says arrive_memory result (early result ≡ by_made (kept parts.now) caller.now number (as_entry past.now) (record_of (as_entry past.now))) }
{
    let answer = past_answer(alloc, parts, caller, number, past)?;
    Ok(Some(Arrived::Known(answer)))
}

fn by_present(
    alloc: Global,
    parts: &Parts,
    caller: &Name,
    number: u64,
) -> Result<Option<Arrived>, ArriveRefused>
    ensures { Says arrive_memory result (early result ≡ by_entry (kept parts.now) caller.now number (find_call (Origin.Call caller.now number) parts.now.repairer.entries)) }
{
    match parts.repairer.log().find_origin(caller, number) {
        None => Ok(None),
        Some(entry) => by_made(alloc, parts, caller, number, entry),
    }
}

fn by_entry(
    alloc: Global,
    parts: &Parts,
    caller: &Name,
    number: u64,
) -> Result<Option<Arrived>, ArriveRefused>
    ensures { Says arrive_memory result (early result ≡ by_entry (kept parts.now) caller.now number (find_call (Origin.Call caller.now number) (whole_log parts.now.repairer))) }
{
    match parts.repairer.log().folded_origin(caller, number) {
        Some(past) => by_past(alloc, parts, caller, number, past),
        None => by_present(alloc, parts, caller, number),
    }
}

// The version of the call's deletion, if it was deleted.
fn deletion(parts: &Parts, caller: &Name, number: u64) -> Option<u64>
    ensures { result ≡ deletion_in (last_taken caller.now number parts.now.journal.rows) }
{
    let taken = parts.journal.last_taken(caller, number)?;
    match &taken.desired {
        None => Some(taken.version),
        Some(_) => None,
    }
}

fn by_deletion(
    alloc: Global,
    parts: &Parts,
    caller: &Name,
    number: u64,
) -> Result<Option<Arrived>, ArriveRefused>
    ensures { Says arrive_memory result (early result ≡ unless_deleted (deletion_in (last_taken caller.now number parts.now.journal.rows)) (by_entry (kept parts.now) caller.now number (find_call (Origin.Call caller.now number) (whole_log parts.now.repairer)))) }
{
    match deletion(parts, caller, number) {
        Some(version) => Err(ArriveRefused::Gone(version)),
        None => by_entry(alloc, parts, caller, number),
    }
}

// What a call that was here before is answered.
fn known(alloc: Global, parts: &Parts, origin: &Origin) -> Result<Option<Arrived>, ArriveRefused>
    ensures { Says arrive_memory result (early result ≡ known (kept parts.now) origin.now) }
{
    match origin {
        Origin::Outside => Ok(None),
        Origin::Call { caller, number } => {
            if parts.flights.has_origin(origin) {
                return Err(ArriveRefused::NotYet(*number));
            }
            by_deletion(alloc, parts, caller, *number)
        }
    }
}

// The number of entries and flights counts first.
fn admit(parts: &Parts) -> Result<Option<Arrived>, ArriveRefused>
    requires { in_all (kept parts.now) ≤ 100000 }
    ensures { early result ≡ option_map refusal (too_much (kept parts.now)) }
{
    if let Some(count) = is_crowded(parts) {
        return Err(ArriveRefused::Full(count));
    }
    if let Some(weight) = is_heavy(parts) {
        return Err(ArriveRefused::Full(weight));
    }
    Ok(None)
}

/// What a live request is answered without a run, as it is known or there is too much; None exactly where it is to run.
pub(crate) fn before_run(
    alloc: Global,
    parts: &Parts,
    origin: &Origin,
) -> Result<Option<Arrived>, ArriveRefused>
    requires { in_all (kept parts.now) ≤ 100000 }
    ensures { Says arrive_memory result (early result ≡ before_run (kept parts.now) origin.now) }
{
    match known(alloc, parts, origin)? {
        Some(arrived) => Ok(Some(arrived)),
        None => admit(parts),
    }
}
