// What is left of a service's log behind the requests to which the roots of an order come.
ghost use Rattle.std.specs.Prelude.{◌≡◌, length};
ghost use Rattle.std.specs.List.{list_any};
ghost use Rattle.std.specs.Option.{option_map};
ghost use Rattle.execution.specs.Executions.{survives};
ghost use Rattle.dump_tables.specs.Kept.{AreKept};
ghost use Rattle.dump_audit.specs.Histories.{act_of, histories_of, history_of};
ghost use Rattle.one_order.specs.Logs.{acts_of};
ghost use Rattle.one_world.specs.Checks.{behind_all, behind_calls, behind_callee, behind_id, behind_last, behind_next, behind_roots, passed, stands_in};
ghost use Rattle.one_world.specs.Trees.{calls_of};
ghost use Rattle.execution.specs.Together.{history_in};

use crate::finding::{callee_in, calls_of, depth_of, entry_in, is_alive, is_outside, service_in};
use dump_tables::{DumpEntry, DumpService, DumpServices};
use lang_core::{Name, RequestId, Same};

// What is left behind the first entry that survives, where that has this number.
fn behind_next(id: u64, left: &[DumpEntry]) -> Option<&[DumpEntry]>
    ensures { option_map (λ left. acts_of left.now) result ≡ behind_next id (acts_of left.now) }
{
    let mut left = left;
    while let [entry, later @ ..] = left {
        if is_alive(entry) {
            return if entry.id == id { Some(later) } else { None };
        }
        left = later;
    }
    None
}

// What is left at a service behind an entry of a service, which may be another.
fn passed<'a>(
    name: &Name,
    service: &Name,
    id: u64,
    left: &'a [DumpEntry],
) -> Option<&'a [DumpEntry]>
    ensures { option_map (λ left. acts_of left.now) result ≡ passed name.now (record { service = service.now; number = id }) (acts_of left.now) }
{
    if service.text().is(name.text()) {
        behind_next(id, left)
    } else {
        Some(left)
    }
}

// Behind the last call of an entry, of which no name may be left.
fn behind_last<'a>(numbers: &[u64], left: &'a [DumpEntry]) -> Option<&'a [DumpEntry]>
    ensures { option_map (λ left. acts_of left.now) result ≡ behind_last numbers.now (acts_of left.now) }
{
    let [] = numbers else {
        return None;
    };
    Some(left)
}

// Behind a request that was called, if it survives, and all that it calls.
#[cycle(calls)]
fn behind_callee<'a>(
    world: &DumpServices,
    name: &Name,
    depth: u64,
    caller: &Name,
    number: u64,
    dest: &Name,
    left: &'a [DumpEntry],
) -> Option<&'a [DumpEntry]>
    requires kept { ∥ AreKept world.now ∥₁ }
    ensures { option_map (λ left. acts_of left.now) result
        ≡ behind_callee (behind_all depth (histories_of world.now) name.now) name.now caller.now number (history_in dest.now (histories_of world.now)) (acts_of left.now) }
{
    let Some(service) = service_in(dest, world) else {
        return None;
    };
    let Some(entry) = callee_in(caller, number, service) else {
        return None;
    };
    if !is_alive(entry) {
        return Some(left);
    }
    let Some(later) = passed(name, &service.setting.me, entry.id, left) else {
        return None;
    };
    behind_all(world, name, depth, service, entry, later)
}

// Behind all that an entry calls, so deep at most.
#[cycle(calls)]
fn behind_all<'a>(
    world: &DumpServices,
    name: &Name,
    depth: u64,
    service: &DumpService,
    entry: &DumpEntry,
    left: &'a [DumpEntry],
) -> Option<&'a [DumpEntry]>
    requires kept { ∥ AreKept world.now ∥₁ }
    ensures { option_map (λ left. acts_of left.now) result
        ≡ behind_all depth (histories_of world.now) name.now (history_of service.now) (act_of entry.now) (acts_of left.now) }
{
    if depth == 0 {
        return None;
    }
    behind_calls(world, name, depth - 1, service, entry, left)
}

#[cycle(calls)]
fn behind_calls<'a>(
    world: &DumpServices,
    name: &Name,
    depth: u64,
    service: &DumpService,
    entry: &DumpEntry,
    left: &'a [DumpEntry],
) -> Option<&'a [DumpEntry]>
    requires kept { ∥ AreKept world.now ∥₁ }
    ensures { option_map (λ left. acts_of left.now) result
        ≡ behind_calls (behind_all depth (histories_of world.now) name.now) (histories_of world.now) name.now service.now.setting.me
        entry.now.numbers (calls_of (act_of entry.now)) (acts_of left.now) }
{
    let mut left = left;
    let mut numbers = entry.numbers.as_slice();
    for call in calls_of(entry) {
        let [number, more @ ..] = numbers else {
            return None;
        };
        let caller = &service.setting.me;
        let Some(later) = behind_callee(world, name, depth, caller, *number, &call.dest, left)
        else {
            return None;
        };
        left = later;
        numbers = more;
    }
    behind_last(numbers, left)
}

/// Behind a root of this name, and all that it calls.
pub(crate) fn behind_id<'a>(
    world: &DumpServices,
    name: &Name,
    id: &RequestId,
    left: &'a [DumpEntry],
) -> Option<&'a [DumpEntry]>
    requires kept { ∥ AreKept world.now ∥₁ }
    ensures { option_map (λ left. acts_of left.now) result
        ≡ behind_id (length (histories_of world.now)) (histories_of world.now) name.now id.now.number (history_in id.now.service (histories_of world.now)) (acts_of left.now) }
{
    let Some(service) = service_in(&id.service, world) else {
        return None;
    };
    let Some(entry) = entry_in(id.number, service) else {
        return None;
    };
    if !is_outside(entry) || !is_alive(entry) {
        return None;
    }
    let Some(later) = passed(name, &service.setting.me, entry.id, left) else {
        return None;
    };
    behind_calls(world, name, depth_of(world), service, entry, later)
}

fn behind_roots<'a>(
    world: &DumpServices,
    name: &Name,
    order: &[RequestId],
    left: &'a [DumpEntry],
) -> Option<&'a [DumpEntry]>
    requires kept { ∥ AreKept world.now ∥₁ }
    ensures { option_map (λ left. acts_of left.now) result ≡ behind_roots (length (histories_of world.now)) (histories_of world.now) name.now order.now (acts_of left.now) }
{
    let mut left = left;
    for id in order {
        let Some(later) = behind_id(world, name, id, left) else {
            return None;
        };
        left = later;
    }
    Some(left)
}

fn any_alive(left: &[DumpEntry]) -> bool
    ensures { result ≡ list_any survives (acts_of left.now) }
{
    for entry in left {
        if is_alive(entry) {
            return true;
        }
    }
    false
}

// Whether the log of a service stands in the order of these roots.
pub(crate) fn stands_in(world: &DumpServices, order: &[RequestId], service: &DumpService) -> bool
    requires kept { ∥ AreKept world.now ∥₁ }
    ensures { result ≡ stands_in (histories_of world.now) order.now (history_of service.now) }
{
    match behind_roots(
        world,
        &service.setting.me,
        order,
        service.entries.as_slice(),
    ) {
        None => false,
        Some(left) => !any_alive(left),
    }
}
