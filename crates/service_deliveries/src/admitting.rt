// Why a version of a call isn't taken, and which rule allows it.
ghost use Rattle.std.specs.Prelude.{◌≡◌, ◌≤◌, ◌&&◌, not, is_some, IfOk};
ghost use Rattle.std.specs.Option.{option_copied};
ghost use Rattle.journal_rows.specs.Words.{taken_version};
ghost use Rattle.service_events.specs.State.{folded, in_all, is_crowded, is_in_flight, where_needed};
ghost use Rattle.service_events.specs.Messages.{is_known, is_too_much, known_request, makes_entry, origin_of, take_decision};
ghost use Rattle.service_parts.specs.Parts.{kept, whole_log};
ghost use Rattle.service_deliveries.specs.TakeChanges.{admission, allowance, unless_past_entry};
ghost use Rattle.request_log.specs.Entries.{find_call};

use crate::making::origin_of;
use authorise_rules::Decision;
use lang_core::{NoMemory, Request};
use repair_messages::{SetMessage, kind_of};
use service_events::TakeRefused;
use service_parts::{Parts, decision_by, is_crowded, is_heavy, path_of, request_from};
use std::alloc::Global;

fn taken_version(parts: &Parts, set: &SetMessage) -> u64
    ensures { result ≡ taken_version set.now.caller set.now.number parts.now.journal.rows }
{
    match parts.journal.last_taken(&set.caller, set.number) {
        None => 0,
        Some(taken) => taken.version,
    }
}

// Whether it isn't above the version that was taken.
fn is_known(parts: &Parts, set: &SetMessage) -> bool
    ensures { result ≡ is_known (kept parts.now) set.now }
{
    set.version <= taken_version(parts, set)
}

// Whether its call has an entry.
fn has_entry(parts: &Parts, set: &SetMessage) -> bool
    ensures { result ≡ is_some (find_call (origin_of set.now) (whole_log parts.now.repairer)) }
{
    match known_request(parts, set) {
        None => false,
        Some(_) => true,
    }
}

// Whether its call has no entry, and asks something.
fn makes_entry(parts: &Parts, set: &SetMessage) -> bool
    ensures { result ≡ makes_entry (kept parts.now) set.now }
{
    set.desired.is_some() && !has_entry(parts, set)
}

fn crowded_for(parts: &Parts, set: &SetMessage) -> Option<u64>
    requires { in_all (kept parts.now) ≤ 100000 }
    ensures { result ≡ where_needed (not (is_known (kept parts.now) set.now) && makes_entry (kept parts.now) set.now) (is_crowded (kept parts.now)) }
{
    if !is_known(parts, set) && makes_entry(parts, set) {
        is_crowded(parts)
    } else {
        None
    }
}

// How much there is, where there is too much: the weight counts first.
fn too_much(parts: &Parts, set: &SetMessage) -> Option<u64>
    requires { in_all (kept parts.now) ≤ 100000 }
    ensures { result ≡ is_too_much (kept parts.now) set.now }
{
    match is_heavy(parts) {
        Some(weight) => Some(weight),
        None => crowded_for(parts, set),
    }
}

/// Whether its call is in flight.
pub(crate) fn is_in_flight(alloc: Global, parts: &Parts, set: &SetMessage) -> Result<bool, NoMemory>
    ensures { IfOk result (λ flies. flies ≡ is_in_flight (origin_of set.now) (kept parts.now)) }
{
    let origin = origin_of(alloc, set)?;
    Ok(parts.flights.has_origin(&origin))
}

// ---- what rules decide of it

// The request of its call's entry, if there is one.
fn known_request<'a>(parts: &'a Parts, set: &SetMessage) -> Option<&'a Request>
    ensures { option_copied result ≡ known_request (kept parts.now) set.now }
{
    request_from(parts.repairer.log(), &set.caller, set.number)
}

// What the service's rules decide of it: by the request that its call's entry has now.
fn decision(parts: &Parts, set: &SetMessage) -> Decision
    ensures { result ≡ take_decision (kept parts.now) set.now }
{
    let known = known_request(parts, set);
    let kind = kind_of(set, known.is_some());
    let new_path = path_of(set.desired.as_ref());
    decision_by(
        parts.rules.get().rules(),
        kind,
        Some(&set.caller),
        &set.who,
        known,
        new_path,
    )
}

// The rule that allows it, or the one that denies it.
fn allowance(parts: &Parts, set: &SetMessage) -> Result<Option<u32>, TakeRefused>
    ensures { result ≡ allowance (take_decision (kept parts.now) set.now) }
{
    match decision(parts, set) {
        Decision::Allow(rule) => Ok(Some(rule)),
        Decision::Deny(rule) => Err(TakeRefused::Denied(rule)),
    }
}

// The same, unless its call's entry is folded.
fn newly_allowed(parts: &Parts, set: &SetMessage) -> Result<Option<u32>, TakeRefused>
    ensures { result ≡ unless_past_entry (find_call (origin_of set.now) (folded (kept parts.now))) (allowance (take_decision (kept parts.now) set.now)) }
{
    match parts.repairer.log().folded_origin(&set.caller, set.number) {
        Some(past) => Err(TakeRefused::TooOld(past.id)),
        None => allowance(parts, set),
    }
}

/// The rule by which a version is taken whose call isn't in flight, or why it isn't taken. Rules are asked last, and of one
/// that is known, or whose call's entry is folded, they aren't asked.
pub(crate) fn admission(parts: &Parts, set: &SetMessage) -> Result<Option<u32>, TakeRefused>
    requires { in_all (kept parts.now) ≤ 100000 }
    ensures { result ≡ admission (kept parts.now) set.now }
{
    match too_much(parts, set) {
        Some(much) => Err(TakeRefused::Full(much)),
        None => {
            if is_known(parts, set) {
                Ok(None)
            } else {
                newly_allowed(parts, set)
            }
        }
    }
}
