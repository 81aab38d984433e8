// What taking a version is to answer and to leave, drafted.
ghost use Rattle.std.specs.Prelude.{◌≡◌, ◌+◌, ◌≤◌, false, None, Some, Ok, IfOk, length};
ghost use Rattle.lang_core.specs.declared.inputs.Inputs.{Inputs};
ghost use Rattle.request_log.specs.Entries.{find_call};
ghost use Rattle.service_deliveries.specs.declared.take_changes.TakeChange.{TakeChange};
ghost use Rattle.call_registers.specs.Replies.{made_due};
ghost use Rattle.service_events.specs.State.{after, folded, is_in_flight};
ghost use Rattle.service_events.specs.Fits.{Fits};
ghost use Rattle.service_events.specs.Messages.{acked_again, at_reply_of, at_version, created_entry, created_place, created_reply, created_under, origin_of, take_event, take_rule, taken, taken_by};
ghost use Rattle.service_parts.specs.Parts.{kept, whole_log};
ghost use Rattle.service_deliveries.specs.TakeChanges.{admission, changed_by, created_change, CanChange, Leaves};

use crate::making::{
    Spot, at_version, created_entry, created_reply, created_rows, index, known_rows, spot_of,
    taken, taken_rows,
};
use crate::take_changes::{TakeChange, Taking};
use journal_rows::Row;
use lang_core::{Inputs, NoMemory, Request, Shared};
use repair_messages::SetMessage;
use request_log::Entry;
use service_parts::{Parts, id_from};
use std::alloc::Global;

fn taking(
    alloc: Global,
    set: &SetMessage,
    rule: Option<u32>,
    rows: Vec<Row>,
    change: TakeChange,
) -> Result<Taking, NoMemory>
    ensures { IfOk result (λ t. t ≡ record { taken = taken set.now rule; rows = rows; change = change }) }
{
    let taken = taken(alloc, set, rule)?;
    Ok(Taking {
        taken,
        rows,
        change,
    })
}

// ---- a version that is known

// The reply of the call's entry, folded or not, is due, if there is one.
fn due_again(parts: &Parts, set: &SetMessage) -> TakeChange
    ensures is { changed_by (kept parts.now) result ≡ record (kept parts.now) { replies = at_reply_of (find_call (origin_of set.now) (whole_log parts.now.repairer)) (made_due (length parts.now.journal.rows)) parts.now.replies.list } }
    ensures can { CanChange (kept parts.now) result }
{
    match id_from(parts.repairer.log(), &set.caller, set.number) {
        None => TakeChange::Nothing,
        Some(id) => TakeChange::Due {
            id,
            since: index(parts, 0),
        },
    }
}

// It is acknowledged again.
fn again(alloc: Global, parts: &Parts, set: &SetMessage) -> Result<Taking, NoMemory>
    ensures { IfOk result (λ t. Leaves (kept parts.now) t (after (acked_again (kept parts.now) set.now) (Ok (taken set.now None)))) }
{
    let change = due_again(parts, set);
    let rows = known_rows(alloc, set)?;
    taking(alloc, set, None, rows, change)
}

// ---- a version above the one that was taken

// Its call has this entry.
fn amended(
    alloc: Global,
    parts: &Parts,
    set: &SetMessage,
    old: &Entry,
    rule: u32,
) -> Result<Taking, NoMemory>
    requires can { CanChange (kept parts.now) (TakeChange.Amend (at_version set.now old.now) 0) }
    requires rule { rule ≡ take_rule (kept parts.now) set.now }
    ensures { (i : Inputs) → IfOk result (λ t. Leaves (kept parts.now) t (after (taken_by (kept parts.now) set.now i (Some old.now) set.now.desired) (Ok (taken set.now (Some (take_rule (kept parts.now) set.now)))))) }
{
    let rows = taken_rows(alloc, set, rule)?;
    let entry = at_version(alloc, set, old)?;
    let since = index(parts, 1);
    taking(
        alloc,
        set,
        Some(rule),
        rows,
        TakeChange::Amend { entry, since },
    )
}

// The change that makes an entry.
fn create(
    alloc: Global,
    parts: &Parts,
    set: &SetMessage,
    request: &Shared<Request>,
    inputs: &Shared<Inputs>,
    spot: Spot<'_>,
) -> Result<TakeChange, NoMemory>
    requires fits { Fits (kept parts.now) }
    requires none { find_call (origin_of set.now) (whole_log parts.now.repairer) ≡ None }
    requires place { length parts.now.repairer.folded + spot.at ≡ created_place (kept parts.now) set.now }
    requires within { spot.at ≤ length parts.now.repairer.entries }
    requires program { spot.program.now ≡ created_under (kept parts.now) set.now }
    ensures is { IfOk result (λ change. changed_by (kept parts.now) change ≡ created_change (kept parts.now) set.now (created_entry (kept parts.now) set.now request.now inputs.now) (created_reply (kept parts.now) set.now)) }
    ensures can { IfOk result (λ change. CanChange (kept parts.now) change) }
{
    let entry = created_entry(alloc, parts, set, request, inputs, spot.program)?;
    let reply = created_reply(alloc, parts, set)?;
    Ok(TakeChange::Create {
        at: spot.at,
        entry,
        reply,
    })
}

// Its call has no entry, and makes one, which asks what its row says.
fn made(
    alloc: Global,
    parts: &Parts,
    set: &SetMessage,
    request: &Shared<Request>,
    inputs: &Shared<Inputs>,
    rule: u32,
) -> Result<Taking, NoMemory>
    requires fits { Fits (kept parts.now) }
    requires none { find_call (origin_of set.now) (whole_log parts.now.repairer) ≡ None }
    requires rule { rule ≡ take_rule (kept parts.now) set.now }
    ensures { IfOk result (λ t. Leaves (kept parts.now) t (after (taken_by (kept parts.now) set.now inputs.now None (Some request.now)) (Ok (taken set.now (Some (take_rule (kept parts.now) set.now)))))) }
{
    let spot = spot_of(parts, set);
    let rows = created_rows(alloc, parts, set, request, inputs, spot.program, rule)?;
    let change = create(alloc, parts, set, request, inputs, spot)?;
    taking(alloc, set, Some(rule), rows, change)
}

// What `made` drafts, of a request and inputs that the entry and its row don't hold together yet.
fn made_of(
    alloc: Global,
    parts: &Parts,
    set: &SetMessage,
    request: &Request,
    inputs: Inputs,
    rule: u32,
) -> Result<Taking, NoMemory>
    requires fits { Fits (kept parts.now) }
    requires none { find_call (origin_of set.now) (whole_log parts.now.repairer) ≡ None }
    requires rule { rule ≡ take_rule (kept parts.now) set.now }
    ensures { IfOk result (λ t. Leaves (kept parts.now) t (after (taken_by (kept parts.now) set.now inputs None (Some request.now)) (Ok (taken set.now (Some (take_rule (kept parts.now) set.now)))))) }
{
    let held = Shared::copy_of(alloc, request)?;
    let drawn = Shared::new(alloc, inputs)?;
    made(alloc, parts, set, &held, &drawn, rule)
}

// Its call has no entry, and is to have no effect.
fn unmet(alloc: Global, parts: &Parts, set: &SetMessage, rule: u32) -> Result<Taking, NoMemory>
    requires { rule ≡ take_rule (kept parts.now) set.now }
    ensures { (i : Inputs) → IfOk result (λ t. Leaves (kept parts.now) t (after (taken_by (kept parts.now) set.now i None None) (Ok (taken set.now (Some (take_rule (kept parts.now) set.now)))))) }
{
    let rows = taken_rows(alloc, set, rule)?;
    taking(alloc, set, Some(rule), rows, TakeChange::Nothing)
}

// Its call has no entry.
fn unknown(
    alloc: Global,
    parts: &Parts,
    set: &SetMessage,
    inputs: Inputs,
    rule: u32,
) -> Result<Taking, NoMemory>
    requires fits { Fits (kept parts.now) }
    requires none { find_call (origin_of set.now) (whole_log parts.now.repairer) ≡ None }
    requires rule { rule ≡ take_rule (kept parts.now) set.now }
    ensures { IfOk result (λ t. Leaves (kept parts.now) t (after (taken_by (kept parts.now) set.now inputs None set.now.desired) (Ok (taken set.now (Some (take_rule (kept parts.now) set.now)))))) }
{
    match &set.desired {
        Some(request) => made_of(alloc, parts, set, request, inputs, rule),
        None => unmet(alloc, parts, set, rule),
    }
}

// This rule allowed it, and its call's entry isn't folded.
fn newer(
    alloc: Global,
    parts: &Parts,
    set: &SetMessage,
    inputs: Inputs,
    rule: u32,
) -> Result<Taking, NoMemory>
    requires fits { Fits (kept parts.now) }
    requires recent { find_call (origin_of set.now) (folded (kept parts.now)) ≡ None }
    requires rule { rule ≡ take_rule (kept parts.now) set.now }
    ensures { IfOk result (λ t. Leaves (kept parts.now) t (after (taken_by (kept parts.now) set.now inputs (find_call (origin_of set.now) (whole_log parts.now.repairer)) set.now.desired) (Ok (taken set.now (Some (take_rule (kept parts.now) set.now)))))) }
{
    match parts.repairer.log().find_origin(&set.caller, set.number) {
        Some(entry) => amended(alloc, parts, set, entry, rule),
        None => unknown(alloc, parts, set, inputs, rule),
    }
}

/// What taking a version is to answer and to leave, which is known, or which this rule allowed.
pub fn draft(
    alloc: Global,
    parts: &Parts,
    set: &SetMessage,
    inputs: Inputs,
    rule: Option<u32>,
) -> Result<Taking, NoMemory>
    requires fits { Fits (kept parts.now) }
    requires landed { is_in_flight (origin_of set.now) (kept parts.now) ≡ false }
    requires admitted { admission (kept parts.now) set.now ≡ Ok rule }
    ensures { IfOk result (λ t. Leaves (kept parts.now) t (take_event (kept parts.now) set.now inputs)) }
{
    match rule {
        None => again(alloc, parts, set),
        Some(rule) => newer(alloc, parts, set, inputs, rule),
    }
}
