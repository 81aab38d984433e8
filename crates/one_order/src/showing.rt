// Whether two entries show that there is no order: neighbours of a log, with a way back.
ghost use Rattle.std.specs.Prelude.{◌≡◌, ◌++◌, ◌∷◌, [], None, IfOk, IfSome, OnOk, slice_get, true};
ghost use Rattle.std.specs.Option.{option_copied, option_map};
ghost use Rattle.execution.specs.Together.{history_in};
ghost use Rattle.dump_tables.specs.Kept.{AreKept, IsKept};
ghost use Rattle.dump_audit.specs.Histories.{histories_of};
ghost use Rattle.one_order.specs.Certificates.{order_in};
ghost use Rattle.one_order.specs.Cycles.{IsShown, IsWay, ShowsCycle, along, in_slot, is_earlier};
ghost use Rattle.one_order.specs.Logs.{acts_of};
ghost use Rattle.one_order.specs.Shown.{act_at, are_neighbours, are_next, comes_to, is_before, is_front, is_pair, name_at, next_behind, place_of, same_ids};
ghost use Rattle.one_order.specs.declared.certificates.Certificate.TheVariants.{Cycle};

use crate::certificates::{At, Candidate, Certificate, Link, Mark};
use crate::finding::{callee_in, calls_of, entry_in, is_alive, is_outside, service_in};
use crate::logs::{front, named};
use crate::orders::Ids;
use dump_tables::{DumpEntry, DumpService, DumpServices};
use lang_core::{CallMade, NoMemory, Same};
use std::alloc::Global;

fn number_at(numbers: &[u64], slot: usize) -> Option<u64>
    ensures { result ≡ slice_get numbers.now slot }
{
    match numbers.get(slot) {
        Some(number) => Some(*number),
        None => None,
    }
}

fn call_at(calls: &[CallMade], slot: usize) -> Option<&CallMade>
    ensures { option_copied result ≡ slice_get calls.now slot }
{
    calls.get(slot)
}

// The entry to which the call in a slot led.
fn in_slot<'a>(world: &'a DumpServices, at: &At<'_>, slot: usize) -> Option<At<'a>>
    requires kept { ∥ AreKept world.now ∥₁ }
    ensures { option_map place_of result ≡ in_slot (histories_of world.now) (place_of at.now) slot }
{
    let Some(number) = number_at(at.entry.numbers.as_slice(), slot) else {
        return None;
    };
    let Some(call) = call_at(calls_of(at.entry), slot) else {
        return None;
    };
    let Some(service) = service_in(&call.dest, world) else {
        return None;
    };
    let caller = &at.service.setting.me;
    match callee_in(caller, number, service) {
        Some(entry) => Some(At { service, entry }),
        None => None,
    }
}

// The entry to which calls led in these slots, one below the other.
fn along<'a>(world: &'a DumpServices, from: &At<'a>, slots: &[usize]) -> Option<At<'a>>
    requires kept { ∥ AreKept world.now ∥₁ }
    ensures { option_map place_of result ≡ along (histories_of world.now) slots.now (place_of from.now) }
{
    let mut at = *from;
    for slot in slots {
        let Some(below) = in_slot(world, &at, *slot) else {
            return None;
        };
        at = below;
    }
    Some(at)
}

// Whether both are the same entry.
pub(crate) fn is_same(left: &At<'_>, right: &At<'_>) -> bool
    ensures { result ≡ same_ids (name_at left.now) (name_at right.now) }
{
    left.entry.id == right.entry.id
        && left
            .service
            .setting
            .me
            .text()
            .is(right.service.setting.me.text())
}

// The entry of this name.
pub(crate) fn again<'a>(world: &'a DumpServices, at: &At<'_>) -> Option<At<'a>>
    requires kept { ∥ AreKept world.now ∥₁ }
    ensures { option_map place_of result ≡ act_at (name_at at.now).number (history_in (name_at at.now).service (histories_of world.now)) }
{
    let Some(service) = service_in(&at.service.setting.me, world) else {
        return None;
    };
    match entry_in(at.entry.id, service) {
        Some(entry) => Some(At { service, entry }),
        None => None,
    }
}

// Whether a root comes to an entry that survives, by its slots.
fn comes_to(world: &DumpServices, root: &At<'_>, mark: &Mark<'_>) -> bool
    requires kept { ∥ AreKept world.now ∥₁ }
    ensures { result ≡ comes_to (histories_of world.now) (name_at root.now) mark.now.slots.items (name_at mark.now.at) }
{
    let Some(top) = again(world, root) else {
        return false;
    };
    if !is_outside(top.entry) || !is_alive(top.entry) {
        return false;
    }
    match along(world, &top, mark.slots.as_slice()) {
        Some(found) => is_alive(found.entry) && is_same(&found, &mark.at),
        None => false,
    }
}

fn is_front(number: u64, front: Option<u64>) -> bool
    ensures { result ≡ is_front number front }
{
    match front {
        Some(first) => first == number,
        None => false,
    }
}

// Whether this one stands directly behind the first of these, which survives.
fn next_behind(second: u64, left: &[DumpEntry]) -> bool
    ensures { result ≡ next_behind second left.now }
{
    let [entry, later @ ..] = left else {
        return false;
    };
    is_alive(entry) && is_front(second, front(later))
}

// Whether the second stands directly behind the first, among those of a service that survive.
fn are_next(first: u64, second: u64, service: &DumpService) -> bool
    requires kept { ∥ IsKept service.now ∥₁ }
    ensures { result ≡ are_next first second (acts_of service.now.entries) }
{
    next_behind(second, service.entries.from_id(first))
}

fn are_neighbours(world: &DumpServices, first: &At<'_>, second: &At<'_>) -> bool
    requires kept { ∥ AreKept world.now ∥₁ }
    ensures { result ≡ are_neighbours (histories_of world.now) (name_at first.now) (name_at second.now) }
{
    if !first
        .service
        .setting
        .me
        .text()
        .is(second.service.setting.me.text())
    {
        return false;
    }
    match service_in(&first.service.setting.me, world) {
        Some(service) => are_next(first.entry.id, second.entry.id, service),
        None => false,
    }
}

// Whether calls lead to the one before they lead to the other, depth first.
pub(crate) fn is_earlier(left: &[usize], right: &[usize]) -> bool
    ensures { result ≡ is_earlier left.now right.now }
{
    let mut left = left;
    let mut right = right;
    while let [slot, below @ ..] = left {
        let [other, others @ ..] = right else {
            return false;
        };
        if *slot != *other {
            return *slot < *other;
        }
        left = below;
        right = others;
    }
    match right {
        [] => false,
        [_, ..] => true,
    }
}

// Whether two are neighbours, and these roots come to them.
fn is_pair(
    world: &DumpServices,
    first: &Mark<'_>,
    second: &Mark<'_>,
    root: &At<'_>,
    other: &At<'_>,
) -> bool
    requires kept { ∥ AreKept world.now ∥₁ }
    ensures { result ≡ is_pair (histories_of world.now) (name_at first.now.at) (name_at second.now.at) (name_at root.now) (name_at other.now) first.now.slots.items second.now.slots.items }
{
    are_neighbours(world, &first.at, &second.at)
        && comes_to(world, root, first)
        && comes_to(world, other, second)
}

// Whether a root is before the root of a link's second entry.
fn is_before(world: &DumpServices, root: &At<'_>, link: &Link<'_>) -> bool
    requires kept { ∥ AreKept world.now ∥₁ }
    ensures { result ≡ is_before (histories_of world.now) (name_at root.now) (name_at link.now.root) (name_at link.now.first.at) (name_at link.now.second.at) link.now.first.slots.items link.now.second.slots.items }
{
    !is_same(root, &link.root) && is_pair(world, &link.first, &link.second, root, &link.root)
}

pub(crate) fn push_id(alloc: Global, ids: &mut Ids, at: &At<'_>) -> Result<(), NoMemory>
    ensures { OnOk result (ids.new ≡ ids.old ++ name_at at.now ∷ []) }
{
    let id = named(alloc, at.service, at.entry.id)?;
    Ok(ids.push(id)?)
}

// The roots of these links behind a root, where each is before the next and the last is this one.
fn way_back(
    alloc: Global,
    world: &DumpServices,
    from: &At<'_>,
    to: &At<'_>,
    links: &[Link<'_>],
) -> Result<Option<Ids>, NoMemory>
    requires kept { ∥ AreKept world.now ∥₁ }
    ensures { IfOk result (λ found. IfSome found (λ ids. IsWay (histories_of world.now) (name_at from.now) (name_at to.now) ids)) }
{
    let mut ids = Ids::new(alloc);
    push_id(alloc, &mut ids, from)?;
    let mut last = *from;
    for link in links {
        if !is_before(world, &last, link) {
            return Ok(None);
        }
        push_id(alloc, &mut ids, &link.root)?;
        last = link.root;
    }
    if is_same(&last, to) {
        Ok(Some(ids))
    } else {
        Ok(None)
    }
}

pub(crate) fn cycle(
    alloc: Global,
    first: &At<'_>,
    second: &At<'_>,
    back: Ids,
) -> Result<Certificate, NoMemory>
    ensures { IfOk result (λ found. found ≡ Cycle (name_at first.now) (name_at second.now) back) }
{
    let first = named(alloc, first.service, first.entry.id)?;
    let second = named(alloc, second.service, second.entry.id)?;
    Ok(Certificate::Cycle {
        first,
        second,
        back,
    })
}

// No way back, where the second is the earlier.
fn turned_back(alloc: Global, first: &Mark<'_>, second: &Mark<'_>) -> Option<Ids>
    ensures { IfSome result (λ ids. (is_earlier second.now.slots.items first.now.slots.items ≡ true) × (ids ≡ [])) }
{
    if is_earlier(second.slots.as_slice(), first.slots.as_slice()) {
        Some(Ids::new(alloc))
    } else {
        None
    }
}

// The way back of two neighbours, if it is one.
fn back_of(
    alloc: Global,
    world: &DumpServices,
    pair: &Candidate<'_>,
) -> Result<Option<Ids>, NoMemory>
    requires kept { ∥ AreKept world.now ∥₁ }
    ensures { IfOk result (λ found. IfSome found (λ back. ShowsCycle (histories_of world.now) (name_at pair.now.first.at) (name_at pair.now.second.at) back)) }
{
    if !is_pair(world, &pair.first, &pair.second, &pair.root, &pair.other) {
        return Ok(None);
    }
    if is_same(&pair.root, &pair.other) {
        Ok(turned_back(alloc, &pair.first, &pair.second))
    } else {
        way_back(alloc, world, &pair.other, &pair.root, pair.back.as_slice())
    }
}

/// Two neighbours as a certificate, where they show that there is no order.
pub(crate) fn shown(
    alloc: Global,
    services: &DumpServices,
    pair: &Candidate<'_>,
) -> Result<Option<Certificate>, NoMemory>
    requires kept { ∥ AreKept services.now ∥₁ }
    ensures none { IfOk result (λ found. IfSome found (λ certificate. order_in certificate ≡ None)) }
    ensures shown { IfOk result (λ found. IfSome found (λ certificate. IsShown (histories_of services.now) certificate)) }
{
    match back_of(alloc, services, pair)? {
        Some(back) => Ok(Some(cycle(alloc, &pair.first.at, &pair.second.at, back)?)),
        None => Ok(None),
    }
}
