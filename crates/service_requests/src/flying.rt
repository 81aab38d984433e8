// A flight with other calls, and the call for which it waits.
ghost use Rattle.std.specs.Prelude.{◌≡◌, slice_set, if◌then◌else◌, IfOk, OnOk};
ghost use Rattle.service_events.specs.Flying.{live_call, with_slot, with_change};
ghost use Rattle.service_parts.specs.Parts.{kept};
ghost use Rattle.service_requests.specs.Endings.{with_call};

use flights::Flight;
use lang_base::both;
use lang_core::{CallMade, Copied, NoMemory, Seq};
use repair_messages::{SetMessage, copied_pair};
use service_parts::{Parts, next_of};
use std::alloc::Global;

fn either<'a, T>(first: bool, left: &'a T, right: &'a T) -> &'a T
    ensures { result.now ≡ (if first then left.now else right.now) }
{
    if first { left } else { right }
}

/// A list of equal items, but for the one at a place, counted from 0, which is this one.
fn replaced<T: Copied + Drop>(
    alloc: Global,
    items: &[T],
    place: u64,
    item: &T,
) -> Result<Seq<T>, NoMemory>
    ensures { IfOk result (λ list. list ≡ slice_set items.now place item.now) }
{
    let mut list = Seq::new(alloc);
    for (i, old) in items.iter().enumerate() {
        let next = either(i as u64 == place, item, old);
        list.push(next.copied(alloc)?)?;
    }
    Ok(list)
}

// The flight has one call more, of this number. Refused, it is no use any more.
fn add_call(
    alloc: Global,
    flight: &mut Flight,
    number: u64,
    call: &CallMade,
) -> Result<(), NoMemory>
    ensures { OnOk result (flight.new ≡ with_slot number call.now flight.old) }
{
    let call = call.copied(alloc)?;
    flight.calls.push(call)?;
    flight.numbers.push(number)
}

// The flight has another call at a slot, of this number. Refused, it is no use any more.
fn change_call(
    alloc: Global,
    flight: &mut Flight,
    slot: u64,
    number: u64,
    call: &CallMade,
) -> Result<(), NoMemory>
    ensures { OnOk result (flight.new ≡ with_change slot number call.now flight.old) }
{
    let changes = next_of(flight.changes)?;
    let calls = replaced(alloc, flight.calls.as_slice(), slot, call);
    let numbers = replaced(alloc, flight.numbers.as_slice(), slot, &number);
    let (calls, numbers) = both(calls, numbers)?;
    flight.calls = calls;
    flight.numbers = numbers;
    flight.changes = changes;
    Ok(())
}

/// The flight has a new call, of this number: one more, or another one at a slot. Refused, it is no use any more.
pub(crate) fn put_call(
    alloc: Global,
    flight: &mut Flight,
    slot: Option<u64>,
    number: u64,
    call: &CallMade,
) -> Result<(), NoMemory>
    ensures { OnOk result (flight.new ≡ with_call slot number call.now flight.old) }
{
    match slot {
        None => add_call(alloc, flight, number, call),
        Some(slot) => change_call(alloc, flight, slot, number, call),
    }
}

/// The message of a live call: its first version, which names no neighbours. It takes the run's own request.
pub(crate) fn live_call(
    alloc: Global,
    parts: &Parts,
    number: u64,
    call: CallMade,
) -> Result<SetMessage, NoMemory>
    ensures { IfOk result (λ set. set ≡ live_call (kept parts.now) number call) }
{
    let (caller, who) = copied_pair(alloc, &parts.setting.me, &call.request.who)?;
    let CallMade { dest, request } = call;
    Ok(SetMessage {
        caller,
        dest,
        number,
        version: 1,
        desired: Some(request),
        before: None,
        after: None,
        who,
    })
}
