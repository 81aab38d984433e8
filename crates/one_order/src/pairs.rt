// The first two neighbours of what is left of which something is sought.
ghost use Rattle.std.specs.Prelude.{◌≡◌, ◌++◌, IfOk, OnOk, map};
ghost use Rattle.std.specs.Option.{option_map};
ghost use Rattle.execution.specs.Together.{history_in};
ghost use Rattle.dump_tables.specs.Kept.{AreKept};
ghost use Rattle.dump_audit.specs.Histories.{histories_of, history_of};
ghost use Rattle.one_order.specs.Logs.{acts_of, log_of};
ghost use Rattle.one_order.specs.Pairs.{pair_behind, pair_in, pair_of};
ghost use Rattle.one_order.specs.Roots.{all_rooted, both_rooted, first_left, found_place, first_of, places_left, rooted_at, rooted_left, rooted_of, sought_of};
ghost use Rattle.one_order.specs.Shown.{act_at, name_at, place_of};

use crate::certificates::At;
use crate::finding::is_alive;
use crate::logs::Log;
use crate::roots::{Rooted, root_of};
use crate::showing::{again, is_earlier, is_same};
use dump_tables::DumpServices;
use lang_core::NoMemory;
use std::alloc::Global;

/// Two entries of which the second stands directly behind the first.
#[derive(Clone, Copy)]
pub(crate) struct Neighbours<'a> {
    pub(crate) first: At<'a>,
    pub(crate) second: At<'a>,
}

/// What is sought of two neighbours.
#[derive(Clone, Copy)]
pub(crate) enum Sought<'a> {
    /// That both are of one root, which comes to the second first.
    Turned,
    /// That the second is of this root, and the first is of another.
    Into(At<'a>),
}

fn is_sought(sought: &Sought<'_>, first: &Rooted<'_>, second: &Rooted<'_>) -> bool
    ensures { result ≡ sought_of sought.now (rooted_of first.now) (rooted_of second.now) }
{
    match sought {
        Sought::Turned => {
            is_same(&first.root, &second.root)
                && is_earlier(second.slots.as_slice(), first.slots.as_slice())
        }
        Sought::Into(root) => !is_same(&first.root, root) && is_same(&second.root, root),
    }
}

fn are_sought(
    alloc: Global,
    world: &DumpServices,
    sought: &Sought<'_>,
    pair: &Neighbours<'_>,
) -> Result<bool, NoMemory>
    requires kept { ∥ AreKept world.now ∥₁ }
    ensures { IfOk result (λ is. is ≡ sought_of sought.now (rooted_at (histories_of world.now) pair.now.first) (rooted_at (histories_of world.now) pair.now.second)) }
{
    let first = root_of(alloc, world, &pair.first)?;
    let second = root_of(alloc, world, &pair.second)?;
    Ok(is_sought(sought, &first, &second))
}

// The first two of these of which it holds, where they stand behind this one.
fn pair_behind<'a>(
    alloc: Global,
    world: &DumpServices,
    sought: &Sought<'_>,
    first: &At<'a>,
    later: &[At<'a>],
) -> Result<Option<Neighbours<'a>>, NoMemory>
    requires kept { ∥ AreKept world.now ∥₁ }
    ensures { IfOk result (λ found. option_map (both_rooted (histories_of world.now)) found
        ≡ pair_behind (sought_of sought.now) (rooted_at (histories_of world.now) first.now) (map (rooted_at (histories_of world.now)) later.now)) }
{
    let mut last = *first;
    for entry in later {
        let pair = Neighbours {
            first: last,
            second: *entry,
        };
        if are_sought(alloc, world, sought, &pair)? {
            return Ok(Some(pair));
        }
        last = *entry;
    }
    Ok(None)
}

fn pair_in<'a>(
    alloc: Global,
    world: &DumpServices,
    sought: &Sought<'_>,
    log: &[At<'a>],
) -> Result<Option<Neighbours<'a>>, NoMemory>
    requires kept { ∥ AreKept world.now ∥₁ }
    ensures { IfOk result (λ found. option_map (both_rooted (histories_of world.now)) found ≡ pair_in (sought_of sought.now) (map (rooted_at (histories_of world.now)) log.now)) }
{
    match log {
        [] => Ok(None),
        [first, later @ ..] => pair_behind(alloc, world, sought, first, later),
    }
}

fn push_again<'a>(
    world: &'a DumpServices,
    at: &At<'_>,
    places: &mut Vec<At<'a>>,
) -> Result<(), NoMemory>
    requires kept { ∥ AreKept world.now ∥₁ }
    ensures { OnOk result (map place_of places.new.items
        ≡ map place_of places.old.items ++ found_place (act_at (name_at at.now).number (history_in (name_at at.now).service (histories_of world.now)))) }
{
    match again(world, at) {
        Some(own) => Ok(places.push(own)?),
        None => Ok(()),
    }
}

// The entries that are left of a log and survive.
fn left_of<'a>(
    alloc: Global,
    world: &'a DumpServices,
    log: &Log<'_>,
) -> Result<Vec<At<'a>>, NoMemory>
    requires kept { ∥ AreKept world.now ∥₁ }
    ensures { IfOk result (λ places. map place_of places.items ≡ places_left (histories_of world.now) (history_of log.now.service.now) (acts_of log.now.left.now)) }
{
    let mut places = Vec::new(alloc);
    for entry in log.left {
        if is_alive(entry) {
            let service = log.service;
            push_again(world, &At { service, entry }, &mut places)?;
        }
    }
    Ok(places)
}

fn pair_left<'a>(
    alloc: Global,
    world: &'a DumpServices,
    sought: &Sought<'_>,
    log: &Log<'_>,
) -> Result<Option<Neighbours<'a>>, NoMemory>
    requires kept { ∥ AreKept world.now ∥₁ }
    ensures { IfOk result (λ found. option_map (both_rooted (histories_of world.now)) found ≡ pair_in (sought_of sought.now) (rooted_left (histories_of world.now) (log_of log.now))) }
{
    let places = left_of(alloc, world, log)?;
    pair_in(alloc, world, sought, places.as_slice())
}

/// The first two neighbours that are left of these logs of which it holds.
pub(crate) fn pair_of<'a>(
    alloc: Global,
    world: &'a DumpServices,
    sought: &Sought<'_>,
    logs: &[Log<'_>],
) -> Result<Option<Neighbours<'a>>, NoMemory>
    requires kept { ∥ AreKept world.now ∥₁ }
    ensures { IfOk result (λ found. option_map (both_rooted (histories_of world.now)) found ≡ pair_of (sought_of sought.now) (all_rooted (histories_of world.now) (map log_of logs.now))) }
{
    for log in logs {
        if let Some(found) = pair_left(alloc, world, sought, log)? {
            return Ok(Some(found));
        }
    }
    Ok(None)
}

fn first_of<'a>(
    alloc: Global,
    world: &'a DumpServices,
    log: &Log<'_>,
) -> Result<Option<At<'a>>, NoMemory>
    requires kept { ∥ AreKept world.now ∥₁ }
    ensures { IfOk result (λ found. option_map place_of found ≡ first_of (places_left (histories_of world.now) (history_of log.now.service.now) (acts_of log.now.left.now))) }
{
    let places = left_of(alloc, world, log)?;
    match places.as_slice() {
        [] => Ok(None),
        [first, ..] => Ok(Some(*first)),
    }
}

/// The first entry that is left of these logs and survives.
pub(crate) fn first_left<'a>(
    alloc: Global,
    world: &'a DumpServices,
    logs: &[Log<'_>],
) -> Result<Option<At<'a>>, NoMemory>
    requires kept { ∥ AreKept world.now ∥₁ }
    ensures { IfOk result (λ found. option_map place_of found ≡ first_left (histories_of world.now) (map log_of logs.now)) }
{
    for log in logs {
        if let Some(found) = first_of(alloc, world, log)? {
            return Ok(Some(found));
        }
    }
    Ok(None)
}
