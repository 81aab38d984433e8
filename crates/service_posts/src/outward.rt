// The neighbours of a call from the place where it stands: the nearest calls to the same service before and behind it.
ghost use Rattle.std.specs.Prelude.{◌≡◌, ◌+◌, ◌<◌, ◌≤◌, ◌++◌, true, Some, None, IfSome, drop, filter, find, fold, get_or, length, nat_eq, position, slice_get, take};
ghost use Rattle.std.specs.Option.{option_copied};
ghost use Rattle.request_log.specs.Folded.{whole};
ghost use Rattle.service_events.specs.Fits.{count};
ghost use Rattle.service_events.specs.Posts.{next_of, previous_of};
ghost use Rattle.service_posts.specs.Walks.{calls_by, calls_in, first_to, is_to, last_to, or_later, IsSlot};

use crate::beside::{Neighbours, goes_to};
use crate::calling::Calling;
use call_registers::Registers;
use lang_core::Name;
use request_log::{Entry, KeptEntry, KeptFolded};
use service_parts::Parts;

/// Where a call stands: the place of its entry in the log, and its own among the entry's calls, both counted from 0.
#[derive(Clone, Copy)]
pub(crate) struct Slot {
    pub(crate) entry: usize,
    pub(crate) call: usize,
}

fn place_in(numbers: &[u64], number: u64) -> Option<usize>
    ensures { result ≡ position (λ n. nat_eq n number) numbers.now }
{
    numbers.iter().position(|other| *other == number)
}

// Where an entry, which stands at this place, has the call of a number.
fn slot_in(entry: &Entry, place: usize, number: u64) -> Option<Slot>
    ensures { IfSome result (λ at. (at.entry ≡ place) × (slice_get entry.now.slots at.call ≡ Some number)) }
{
    match place_in(entry.slots.as_slice(), number) {
        None => None,
        Some(call) => Some(Slot { entry: place, call }),
    }
}

fn entry_at(entries: &[KeptEntry], place: usize) -> Option<&Entry>
    ensures { option_copied result ≡ slice_get entries.now place }
{
    entries.get(place).map(|kept| kept.entry())
}

fn slot_at(entries: &[KeptEntry], place: usize, number: u64) -> Option<Slot>
    ensures { IfSome result (IsSlot number entries.now) }
{
    match entry_at(entries, place) {
        None => None,
        Some(entry) => slot_in(entry, place, number),
    }
}

/// Where the call of a number stands, as far as the registers know its entry.
pub(crate) fn slot_of(parts: &Parts, number: u64) -> Option<Slot>
    ensures { IfSome result (IsSlot number parts.now.repairer.entries) }
{
    let log = parts.repairer.log();
    match log.place_of(parts.registers.home(number)) {
        None => None,
        Some(place) => slot_at(log.as_slice(), place as usize, number),
    }
}

fn ahead_of(numbers: &[u64], call: usize) -> &[u64]
    requires { call < length numbers.now }
    ensures { result.now ≡ take call numbers.now }
{
    &numbers[..call]
}

fn behind(numbers: &[u64], call: usize) -> &[u64]
    requires { call < length numbers.now }
    ensures { result.now ≡ drop (call + 1) numbers.now }
{
    &numbers[call + 1..]
}

fn find_to<'a>(registers: &Registers, dest: &Name, numbers: &'a [u64]) -> Option<&'a u64>
    ensures { option_copied result ≡ find (λ n. is_to registers.now.list dest.now n) numbers.now }
{
    numbers
        .iter()
        .find(|number| goes_to(registers, **number, dest))
}

// The first of these that goes to this service.
fn first_to(registers: &Registers, dest: &Name, numbers: &[u64]) -> Option<u64>
    ensures { result ≡ first_to registers.now.list dest.now numbers.now }
{
    find_to(registers, dest, numbers).copied()
}

fn or_later(registers: &Registers, dest: &Name, last: Option<u64>, number: u64) -> Option<u64>
    ensures { result ≡ or_later registers.now.list dest.now last number }
{
    if goes_to(registers, number, dest) {
        Some(number)
    } else {
        last
    }
}

fn later_to(registers: &Registers, dest: &Name, numbers: &[u64]) -> Option<u64>
    ensures { result ≡ fold (or_later registers.now.list dest.now) None numbers.now }
{
    numbers.iter().fold(
        None,
        |last, number| or_later(registers, dest, last, *number),
    )
}

// The last of these that goes to this service.
fn last_to(registers: &Registers, dest: &Name, numbers: &[u64]) -> Option<u64>
    ensures { result ≡ last_to registers.now.list dest.now numbers.now }
{
    later_to(registers, dest, numbers)
}

fn first_of(registers: &Registers, dest: &Name, entry: &KeptEntry) -> Option<u64>
    ensures { result ≡ first_to registers.now.list dest.now entry.now.slots }
{
    first_to(registers, dest, entry.entry().slots.as_slice())
}

fn last_of<T: Calling>(registers: &Registers, dest: &Name, entry: &T) -> Option<u64>
    ensures { result ≡ last_to registers.now.list dest.now (T.slots entry.now) }
{
    last_to(registers, dest, entry.slots())
}

// The first call to this service of the entries from this place on.
fn first_from(registers: &Registers, dest: &Name, entries: &[KeptEntry], from: usize) -> Option<u64>
    requires { from ≤ length entries.now }
    ensures { result ≡ first_to registers.now.list dest.now (calls_in (drop from entries.now)) }
{
    let mut at = from;
    while at < entries.len() {
        let first = first_of(registers, dest, &entries[at]);
        if first.is_some() {
            return first;
        }
        at += 1;
    }
    None
}

// The last call to this service of the entries before this place.
fn last_before<T: Calling>(
    registers: &Registers,
    dest: &Name,
    entries: &[T],
    to: usize,
) -> Option<u64>
    requires { to ≤ length entries.now }
    ensures { result ≡ last_to registers.now.list dest.now (calls_by T.slots (take to entries.now)) }
{
    let mut end = to;
    while end > 0 {
        let last = last_of(registers, dest, &entries[end - 1]);
        if last.is_some() {
            return last;
        }
        end -= 1;
    }
    None
}

// The last call to this service of the folded entries, and behind them of those before this place.
fn last_among(
    registers: &Registers,
    dest: &Name,
    folded: &[KeptFolded],
    entries: &[KeptEntry],
    to: usize,
) -> Option<u64>
    requires { to ≤ length entries.now }
    ensures { result ≡ last_to registers.now.list dest.now (calls_in (whole folded.now (take to entries.now))) }
{
    let near = last_before(registers, dest, entries, to);
    if near.is_some() {
        return near;
    }
    last_before(registers, dest, folded, folded.len())
}

// The first call to this service behind the one at this place of its entry, which has these.
fn next_to(
    registers: &Registers,
    dest: &Name,
    entries: &[KeptEntry],
    numbers: &[u64],
    at: Slot,
) -> Option<u64>
    requires entry { at.entry < length entries.now }
    requires call { at.call < length numbers.now }
    ensures { result ≡ first_to registers.now.list dest.now (drop (at.call + 1) numbers.now ++ calls_in (drop (at.entry + 1) entries.now)) }
{
    match first_to(registers, dest, behind(numbers, at.call)) {
        Some(number) => Some(number),
        None => first_from(registers, dest, entries, at.entry + 1),
    }
}

// The last call to this service ahead of the one at this place of its entry, which has these.
fn previous_to(
    registers: &Registers,
    dest: &Name,
    folded: &[KeptFolded],
    entries: &[KeptEntry],
    numbers: &[u64],
    at: Slot,
) -> Option<u64>
    requires entry { at.entry < length entries.now }
    requires call { at.call < length numbers.now }
    ensures { result ≡ last_to registers.now.list dest.now (calls_in (whole folded.now (take at.entry entries.now)) ++ take at.call numbers.now) }
{
    match last_to(registers, dest, ahead_of(numbers, at.call)) {
        Some(number) => Some(number),
        None => last_among(registers, dest, folded, entries, at.entry),
    }
}

fn entry_in(entries: &[KeptEntry], place: usize) -> &Entry
    requires { place < length entries.now }
    ensures { result.now ≡ get_or entries.now place result.now }
{
    entries[place].entry()
}

/// The neighbours of a wanted call to this service that stands at this place of the entries behind the folded ones. It stands
/// nowhere else, so the nearest ones are its neighbours.
pub(crate) fn outward(
    registers: &Registers,
    dest: &Name,
    folded: &[KeptFolded],
    entries: &[KeptEntry],
    number: u64,
    at: Slot,
) -> Neighbours
    requires slot { IsSlot number entries.now at }
    requires wanted { is_to registers.now.list dest.now number ≡ true }
    requires once { count number (calls_in (whole folded.now entries.now)) ≤ 1 }
    ensures before { result.before ≡ next_of number (filter (is_to registers.now.list dest.now) (calls_in (whole folded.now entries.now))) }
    ensures after { result.after ≡ previous_of number (filter (is_to registers.now.list dest.now) (calls_in (whole folded.now entries.now))) }
{
    let entry = entry_in(entries, at.entry);
    let numbers = entry.slots.as_slice();
    let before = next_to(registers, dest, entries, numbers, at);
    let after = previous_to(registers, dest, folded, entries, numbers, at);
    Neighbours { before, after }
}
