// A version of another service's call that came by a message.
ghost use Rattle.std.specs.Prelude.{◌≡◌, false, Ok, IfOk, OnErr};
ghost use Rattle.service_events.specs.State.{after, is_in_flight};
ghost use Rattle.service_events.specs.Doing.{Does, take_memory};
ghost use Rattle.service_events.specs.Messages.{origin_of, take_event};
ghost use Rattle.service_parts.specs.Parts.{kept};
ghost use Rattle.service_parts.specs.Services.{IsService};
ghost use Rattle.service_deliveries.specs.TakeChanges.{admission};

use crate::admitting::{admission, is_in_flight};
use crate::take_applying::put;
use crate::take_drafts::draft;
use lang_core::{Inputs, NoMemory};
use repair_messages::SetMessage;
use service_events::{TakeRefused, Taken};
use service_parts::Parts;
use std::alloc::Global;

// One that is known, or that this rule allowed.
fn admitted(
    alloc: Global,
    parts: &mut Parts,
    set: &SetMessage,
    inputs: Inputs,
    rule: Option<u32>,
) -> Result<Taken, NoMemory>
    requires service { IsService parts.old }
    requires landed { is_in_flight (origin_of set.now) (kept parts.old) ≡ false }
    requires admitted { admission (kept parts.old) set.now ≡ Ok rule }
    ensures ok { IfOk result (λ taken. after (kept parts.new) (Ok taken) ≡ take_event (kept parts.old) set.now inputs) }
    ensures err { OnErr result (kept parts.new ≡ kept parts.old) }
    ensures service { IsService parts.new }
{
    let taking = draft(alloc, parts, set, inputs, rule)?;
    put(parts, taking)
}

// One whose call isn't in flight.
fn landed(
    alloc: Global,
    parts: &mut Parts,
    set: &SetMessage,
    inputs: Inputs,
) -> Result<Taken, TakeRefused>
    requires service { IsService parts.old }
    requires landed { is_in_flight (origin_of set.now) (kept parts.old) ≡ false }
    ensures does { Does take_memory (take_event (kept parts.old) set.now inputs) (kept parts.old) result (kept parts.new) }
    ensures service { IsService parts.new }
{
    match admission(parts, set) {
        Err(why) => Err(why),
        Ok(rule) => Ok(admitted(alloc, parts, set, inputs, rule)?),
    }
}

/// A version of another service's call comes by a message. It is refused where that call is in flight, and where there is too
/// much. One that isn't above the version that was taken is acknowledged again. One whose call's entry is folded is too old. Of
/// any other the service's rules are asked:
/// it is refused where they deny it, with the number of the rule; else it is taken, and where its call has no entry and asks
/// something, one is made, which never ran.
pub fn take(
    alloc: Global,
    parts: &mut Parts,
    set: &SetMessage,
    inputs: Inputs,
) -> Result<Taken, TakeRefused>
    requires { IsService parts.old }
    ensures does { Does take_memory (take_event (kept parts.old) set.now inputs) (kept parts.old) result (kept parts.new) }
    ensures service { IsService parts.new }
{
    if is_in_flight(alloc, parts, set)? {
        Err(TakeRefused::NotYet(set.number))
    } else {
        landed(alloc, parts, set, inputs)
    }
}
