// Entries found by their numbers, and by the calls from which they come.
ghost use Rattle.std.specs.Prelude.{◌≡◌, ◌<◌, find, map, position, IfOk, OnOk};
ghost use Rattle.std.specs.Option.{option_copied};
ghost use Rattle.lang_core.specs.Origins.{is_call};
ghost use Rattle.request_log.specs.Entries.{has_id, has_origin, IsDistinct};
ghost use Rattle.request_log.specs.Keys.{number_of, origin_key, entry_key};

use crate::entry::{Entry, KeptEntry};
use lang_base::both;
use lang_core::{Name, NoMemory, Origin, Same};
use lang_lists::{HashIndex, call_key};
use std::alloc::Global;

/// The key of an entry's origin. That of one from outside, for which nothing looks, is its number, which keeps such
/// entries apart.
pub(crate) fn origin_key(id: u64, origin: &Origin) -> u64
    ensures { result ≡ origin_key id origin.now }
{
    match origin {
        Origin::Outside => id,
        Origin::Call { caller, number } => call_key(caller.text(), *number),
    }
}

/// Whether an origin is this call.
pub(crate) fn is_from(origin: &Origin, caller: &Name, number: u64) -> bool
    ensures { result ≡ is_call caller.now number origin.now }
{
    match origin {
        Origin::Outside => false,
        Origin::Call {
            caller: own_caller,
            number: own_number,
        } => own_caller.text().is(caller.text()) && *own_number == number,
    }
}

fn has_origin(entry: &Entry, caller: &Name, number: u64) -> bool
    ensures { result ≡ has_origin caller.now number entry.now }
{
    is_from(&entry.origin, caller, number)
}

/// Where the entry of a number stands, by the index of their numbers; None exactly where there is none.
pub(crate) fn place_of(entries: &[KeptEntry], numbers: &HashIndex, id: u64) -> Option<usize>
    requires distinct { IsDistinct entries.now }
    requires keys { numbers.now.keys ≡ map number_of entries.now }
    ensures { result ≡ position (has_id id) entries.now }
{
    let end = numbers.end_of(id);
    if end == 0 { None } else { Some(end - 1) }
}

/// The entry that comes from a call, by the index of their origins; None exactly where there is none.
pub(crate) fn find_origin<'a>(
    entries: &'a [KeptEntry],
    origins: &HashIndex,
    caller: &Name,
    number: u64,
) -> Option<&'a Entry>
    requires distinct { IsDistinct entries.now }
    requires keys { origins.now.keys ≡ map entry_key entries.now }
    ensures { option_copied result ≡ find (has_origin caller.now number) entries.now }
{
    let mut end = origins.end_of(call_key(caller.text(), number));
    while end > 0 {
        let entry = entries[end - 1].entry();
        if has_origin(entry, caller, number) {
            return Some(entry);
        }
        end = origins.end_before(end - 1);
    }
    None
}

// The numbers of these entries, as an index.
fn numbers_of(alloc: Global, entries: &[KeptEntry]) -> Result<HashIndex, NoMemory>
    ensures { IfOk result (λ numbers. numbers.keys ≡ map number_of entries.now) }
{
    let mut numbers = HashIndex::new(alloc);
    numbers.reserve(entries.len())?;
    for kept in entries {
        numbers.push(kept.entry().id);
    }
    Ok(numbers)
}

fn key_of(entry: &Entry) -> u64
    ensures { result ≡ entry_key entry.now }
{
    origin_key(entry.id, &entry.origin)
}

// The keys of the origins of these entries, as an index.
fn origins_of(alloc: Global, entries: &[KeptEntry]) -> Result<HashIndex, NoMemory>
    ensures { IfOk result (λ origins. origins.keys ≡ map entry_key entries.now) }
{
    let mut origins = HashIndex::new(alloc);
    origins.reserve(entries.len())?;
    for kept in entries {
        origins.push(key_of(kept.entry()));
    }
    Ok(origins)
}

/// Both indexes of these entries, made afresh: of their numbers, and of the keys of their origins.
pub(crate) fn indexes_of(
    alloc: Global,
    entries: &[KeptEntry],
) -> Result<(HashIndex, HashIndex), NoMemory>
    ensures numbers { IfOk result (λ pair. pair.0.keys ≡ map number_of entries.now) }
    ensures origins { IfOk result (λ pair. pair.1.keys ≡ map entry_key entries.now) }
{
    both(numbers_of(alloc, entries), origins_of(alloc, entries))
}

/// Makes room for an entry more in both indexes.
pub(crate) fn make_room(numbers: &mut HashIndex, origins: &mut HashIndex) -> Result<(), NoMemory>
    ensures numbers { numbers.new.keys ≡ numbers.old.keys }
    ensures origins { origins.new.keys ≡ origins.old.keys }
    ensures ok { OnOk result ((0 < numbers.new.spare) × (0 < origins.new.spare)) }
{
    numbers.reserve(1)?;
    origins.reserve(1)
}
