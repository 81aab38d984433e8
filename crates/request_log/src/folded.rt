// Entries that are folded.
ghost use Rattle.std.specs.Prelude.{◌≡◌, ◌+◌, ◌≤◌, [], ◌∷◌, ◌++◌, find, filter_map, length, map, nat_eq, option_and_then, option_to_list, position, slice_get, take, IfOk, OnOk, OnErr};
ghost use Rattle.std.specs.List.{list_any};
ghost use Rattle.std.specs.Option.{option_copied};
ghost use Rattle.request_log.specs.Entries.{IsDistinct};
ghost use Rattle.request_log.specs.Folded.{as_entry, folded_as, folded_with, has_caller, has_number};
ghost use Rattle.request_log.specs.Keys.{folded_key, folded_number, slots_in};
ghost use Rattle.request_log.specs.Records.{record_in};
ghost use Rattle.request_log.specs.declared.folded.Folded.{Folded};

use crate::entry::{Entry, KeptEntry, Made, Numbers};
use crate::finding::{is_from, origin_key};
use lang_base::{both, copied_items};
use lang_core::{
    Answers, Calls, Copied, Inputs, Name, NoMemory, Origin, Request, Response, Shared,
};
use lang_lists::{HashIndex, call_key};
use lang_programs::NumberedText;
use std::alloc::Global;
use std::marker::Model;

/// What is kept of an entry once it is folded: all but what it read and wrote, since nothing of it is repaired any more.
pub struct Folded {
    /// Its number in the service, from 1.
    pub id: u64,
    /// Where the request comes from.
    pub origin: Origin,
    /// The version of the call that it answers, from 1; 0 where it comes from outside.
    pub version: u64,
    /// The request for which its last run was made.
    pub request: Shared<Request>,
    /// Whether its origin wants it.
    pub wanted: bool,
    /// Whether an order has struck it.
    pub struck: bool,
    /// What its runs drew from outside the rows.
    pub inputs: Shared<Inputs>,
    /// The program under which it ran last: its number and text. Its tree isn't kept for it.
    pub program: Shared<NumberedText>,
    /// The calls of its last run, in order.
    pub calls: Calls,
    /// The answers that these consumed.
    pub answers: Answers,
    /// The registers of these calls.
    pub slots: Numbers,
    /// What it answered.
    pub response: Response,
    /// The version of its last answer, from 1.
    pub answer_version: u64,
    /// How often it ran.
    pub runs: u64,
}

impl Drop for Folded {
    fn drop(self) {
        let Self {
            id: _,
            origin: _,
            version: _,
            request: _,
            wanted: _,
            struck: _,
            inputs: _,
            program: _,
            calls: _,
            answers: _,
            slots: _,
            response: _,
            answer_version: _,
            runs: _,
        } = self;
    }
}

impl Copied for Folded {
    fn copied(&self, alloc: Global) -> Result<Folded, NoMemory> {
        let given = both(self.request.copied(alloc), self.inputs.copied(alloc));
        let begun = both(self.origin.copied(alloc), self.program.copied(alloc));
        let asked = both(begun, given);
        let called = both(self.calls.copied(alloc), self.answers.copied(alloc));
        let did = both(self.slots.copied(alloc), self.response.copied(alloc));
        let (asked, did) = both(asked, both(called, did))?;
        let (origin, program) = asked.0;
        Ok(Folded {
            id: self.id,
            origin,
            version: self.version,
            request: asked.1.0,
            wanted: self.wanted,
            struck: self.struck,
            inputs: asked.1.1,
            program,
            calls: did.0.0,
            answers: did.0.1,
            slots: did.1.0,
            response: did.1.1,
            answer_version: self.answer_version,
            runs: self.runs,
        })
    }
}

/// A folded entry as a list of them keeps it, seen as the folded entry: behind a pointer, so that a list that grows moves few
/// bytes for each.
pub struct KeptFolded {
    inner: Box<Folded>,
}

impl Drop for KeptFolded {
    fn drop(self) {
        let Self { inner: _ } = self;
    }
}

impl Model for KeptFolded {
    ghost use Rattle.request_log.specs.contracts.folded.Folded as folded;
    ghost use Rattle.request_log.specs.declared.folded.Folded.{Folded};

    ghost Value = { Folded };

    ghost coded = { folded.the_row.coded };

    ghost view = { λ kept. kept.inner.value };
}

impl KeptFolded {
    fn of(alloc: Global, folded: Folded) -> Result<KeptFolded, NoMemory>
        ensures { IfOk result (λ kept. kept ≡ folded) }
    {
        let inner = Box::new(alloc, folded)?;
        Ok(KeptFolded { inner })
    }

    /// The folded entry.
    pub fn folded(&self) -> &Folded
        ensures { result.now ≡ self.now }
    {
        &self.inner
    }
}

impl Copied for KeptFolded {
    fn copied(&self, alloc: Global) -> Result<KeptFolded, NoMemory> {
        let folded = self.folded().copied(alloc)?;
        KeptFolded::of(alloc, folded)
    }
}

fn has_caller(folded: &Folded, caller: &Name, number: u64) -> bool
    ensures { result ≡ has_caller caller.now number folded.now }
{
    is_from(&folded.origin, caller, number)
}

// What is kept of an entry with this record.
fn folded_with(alloc: Global, entry: &Entry, made: &Made) -> Result<Folded, NoMemory>
    ensures { IfOk result (λ folded. folded ≡ folded_with entry.now (record_in made.now)) }
{
    let given = both(entry.request.copied(alloc), entry.inputs.copied(alloc));
    let text = entry.under.now().get().text();
    let begun = both(entry.origin.copied(alloc), text.copied(alloc));
    let asked = both(begun, given);
    let called = both(
        made.trace.calls.copied(alloc),
        made.trace.answers.copied(alloc),
    );
    let did = both(entry.slots.copied(alloc), made.trace.response.copied(alloc));
    let (asked, did) = both(asked, both(called, did))?;
    let (origin, program) = asked.0;
    Ok(Folded {
        id: entry.id,
        origin,
        version: entry.version,
        request: asked.1.0,
        wanted: entry.wanted,
        struck: entry.struck,
        inputs: asked.1.1,
        program,
        calls: did.0.0,
        answers: did.0.1,
        slots: did.1.0,
        response: did.1.1,
        answer_version: entry.answer_version,
        runs: entry.runs,
    })
}

// Puts last what is kept of an entry with this record.
fn push_folded(
    alloc: Global,
    list: &mut Vec<KeptFolded>,
    entry: &Entry,
    made: &Made,
) -> Result<(), NoMemory>
    ensures { OnOk result (list.new.items ≡ list.old.items ++ folded_with entry.now (record_in made.now) ∷ []) }
{
    let folded = folded_with(alloc, entry, made)?;
    list.push(KeptFolded::of(alloc, folded)?)?;
    Ok(())
}

// Puts last what is kept of an entry, if anything is.
fn push_if_ran(alloc: Global, list: &mut Vec<KeptFolded>, entry: &Entry) -> Result<(), NoMemory>
    ensures { OnOk result (list.new.items ≡ list.old.items ++ option_to_list (folded_as entry.now)) }
{
    match &entry.made {
        None => Ok(()),
        Some(made) => push_folded(alloc, list, entry, made),
    }
}

// What is kept of these entries.
fn all_folded(alloc: Global, entries: &[KeptEntry]) -> Result<Vec<KeptFolded>, NoMemory>
    ensures { IfOk result (λ list. list.items ≡ filter_map folded_as entries.now) }
{
    let mut list = Vec::with_capacity(alloc, entries.len())?;
    for kept in entries {
        push_if_ran(alloc, &mut list, kept.entry())?;
    }
    Ok(list)
}

// ---- what is found by the indexes

// Where the one of a number stands, by the index of their numbers; None exactly where there is none.
fn place_of(items: &[KeptFolded], numbers: &HashIndex, id: u64) -> Option<usize>
    requires distinct { IsDistinct (map as_entry items.now) }
    requires keys { numbers.now.keys ≡ map folded_number items.now }
    ensures { result ≡ position (has_number id) items.now }
{
    let end = numbers.end_of(id);
    if end == 0 { None } else { Some(end - 1) }
}

// The one that comes from a call, by the index of their origins; None exactly where there is none.
fn find_origin<'a>(
    items: &'a [KeptFolded],
    origins: &HashIndex,
    caller: &Name,
    number: u64,
) -> Option<&'a Folded>
    requires distinct { IsDistinct (map as_entry items.now) }
    requires keys { origins.now.keys ≡ map folded_key items.now }
    ensures { option_copied result ≡ find (has_caller caller.now number) items.now }
{
    let mut end = origins.end_of(call_key(caller.text(), number));
    while end > 0 {
        let folded = items[end - 1].folded();
        if has_caller(folded, caller, number) {
            return Some(folded);
        }
        end = origins.end_before(end - 1);
    }
    None
}

// ---- what is put into the indexes

// Puts the numbers of these, from a place on, into their index, which has room for them.
fn push_numbers(numbers: &mut HashIndex, items: &[KeptFolded], from: usize)
    requires within { from ≤ length items.now }
    requires keys { numbers.old.keys ≡ map folded_number (take from items.now) }
    requires room { length items.now ≤ numbers.old.spare + from }
    ensures { numbers.new.keys ≡ map folded_number items.now }
{
    let mut place = from;
    while place < items.len() {
        numbers.push(items[place].folded().id);
        place += 1;
    }
}

fn key_of(folded: &Folded) -> u64
    ensures { result ≡ folded_key folded.now }
{
    origin_key(folded.id, &folded.origin)
}

// The same with the keys of their origins.
fn push_origins(origins: &mut HashIndex, items: &[KeptFolded], from: usize)
    requires within { from ≤ length items.now }
    requires keys { origins.old.keys ≡ map folded_key (take from items.now) }
    requires room { length items.now ≤ origins.old.spare + from }
    ensures { origins.new.keys ≡ map folded_key items.now }
{
    let mut place = from;
    while place < items.len() {
        origins.push(key_of(items[place].folded()));
        place += 1;
    }
}

fn push_slots(calls: &mut HashIndex, slots: &[u64])
    requires { length slots.now ≤ calls.old.spare }
    ensures keys { calls.new.keys ≡ calls.old.keys ++ slots.now }
    ensures spare { calls.old.spare ≤ calls.new.spare + length slots.now }
{
    for slot in slots {
        calls.push(*slot);
    }
}

// The same with the registers of their calls.
fn push_calls(calls: &mut HashIndex, items: &[KeptFolded], from: usize)
    requires within { from ≤ length items.now }
    requires keys { calls.old.keys ≡ slots_in (take from items.now) }
    requires room { length (slots_in items.now) ≤ calls.old.spare + length (slots_in (take from items.now)) }
    ensures { calls.new.keys ≡ slots_in items.now }
{
    let mut place = from;
    while place < items.len() {
        push_slots(calls, items[place].folded().slots.as_slice());
        place += 1;
    }
}

// How many calls these made.
fn count_calls(items: &[KeptFolded]) -> Result<usize, NoMemory>
    ensures { IfOk result (λ count. count ≡ length (slots_in items.now)) }
{
    let mut count: usize = 0;
    for kept in items {
        let calls = kept.folded().slots.as_slice().len();
        count = count.checked_add(calls).ok_or(NoMemory)?;
    }
    Ok(count)
}

// Makes room for these in all indexes.
fn make_room(
    numbers: &mut HashIndex,
    origins: &mut HashIndex,
    calls: &mut HashIndex,
    more: &[KeptFolded],
) -> Result<(), NoMemory>
    ensures numbers { numbers.new.keys ≡ numbers.old.keys }
    ensures origins { origins.new.keys ≡ origins.old.keys }
    ensures calls { calls.new.keys ≡ calls.old.keys }
    ensures number_room { OnOk result (length more.now ≤ numbers.new.spare) }
    ensures origin_room { OnOk result (length more.now ≤ origins.new.spare) }
    ensures call_room { OnOk result (length (slots_in more.now) ≤ calls.new.spare) }
{
    let count = count_calls(more)?;
    numbers.reserve(more.len())?;
    origins.reserve(more.len())?;
    calls.reserve(count)
}

/// Folded entries, in order.
pub struct FoldedList {
    items: Vec<KeptFolded>,
    // By number.
    numbers: HashIndex,
    // By the keys of origins.
    origins: HashIndex,
    // The registers of all their calls.
    calls: HashIndex,
}

impl Drop for FoldedList {
    fn drop(self) {
        let Self {
            items: _,
            numbers: _,
            origins: _,
            calls: _,
        } = self;
    }
}

impl Model for FoldedList {
    ghost use Rattle.std.specs.Prelude.{List};
    ghost use Rattle.std.specs.Coded.{coded_list};
    ghost use Rattle.request_log.specs.contracts.folded.Folded as folded;
    ghost use Rattle.request_log.specs.Keys.{IsFoldedIndexed};
    ghost use Rattle.request_log.specs.declared.folded.Folded.{Folded};

    ghost Value = { List Folded };

    ghost coded = { coded_list folded.the_row.coded };

    ghost view = { λ list. list.items.items };

    ghost invariant = { λ list. IsFoldedIndexed list.items.items list.numbers.keys list.origins.keys list.calls.keys };
}

impl FoldedList {
    pub(crate) fn new(alloc: Global) -> FoldedList
        ensures { result ≡ [] }
    {
        FoldedList {
            items: Vec::new(alloc),
            numbers: HashIndex::new(alloc),
            origins: HashIndex::new(alloc),
            calls: HashIndex::new(alloc),
        }
    }

    /// The folded entries, in order.
    pub fn as_slice(&self) -> &[KeptFolded]
        ensures { result.now ≡ self.now }
    {
        self.items.as_slice()
    }

    /// How many there are.
    pub fn len(&self) -> u64
        ensures { result ≡ length self.now }
    {
        self.items.len() as u64
    }

    /// The one at a place, counted from 0; None exactly past the end.
    pub fn at(&self, place: u64) -> Option<&Folded>
        ensures { option_copied result ≡ slice_get self.now place }
    {
        self.items.get(place as usize).map(|kept| kept.folded())
    }

    fn found(&self, place: Option<usize>) -> Option<&Folded>
        ensures { option_copied result ≡ option_and_then (slice_get self.now) place }
    {
        match place {
            None => None,
            Some(place) => self.at(place as u64),
        }
    }

    fn place_of(&self, id: u64) -> Option<usize>
        ensures { result ≡ position (has_number id) self.now }
    {
        place_of(&self.items, &self.numbers, id)
    }

    /// The one of a number; None exactly where there is none.
    pub fn find(&self, id: u64) -> Option<&Folded>
        ensures { option_copied result ≡ find (has_number id) self.now }
    {
        self.found(self.place_of(id))
    }

    /// The one that comes from a call; None exactly where there is none.
    pub fn find_origin(&self, caller: &Name, number: u64) -> Option<&Folded>
        ensures { option_copied result ≡ find (has_caller caller.now number) self.now }
    {
        find_origin(&self.items, &self.origins, caller, number)
    }

    /// Whether one of them made the call of a register.
    pub fn has_slot(&self, number: u64) -> bool
        ensures { result ≡ list_any (λ (f : Folded). list_any (nat_eq number) f.slots) self.now }
    {
        self.calls.end_of(number) != 0
    }

    // Puts these last. Refused, the list stays.
    fn put_more(&mut self, more: &mut Vec<KeptFolded>) -> Result<(), NoMemory>
        requires { IsDistinct (map as_entry (self.old ++ more.old.items)) }
        ensures ok { OnOk result (self.new ≡ self.old ++ more.old.items) }
        ensures err { OnErr result (self.new ≡ self.old) }
    {
        make_room(&mut self.numbers, &mut self.origins, &mut self.calls, more)?;
        let place = self.items.len();
        self.items.append(more)?;
        push_numbers(&mut self.numbers, &self.items, place);
        push_origins(&mut self.origins, &self.items, place);
        push_calls(&mut self.calls, &self.items, place);
        Ok(())
    }

    /// Puts last what is kept of these entries, where no two of all have one number or come from one call. Refused, the list
    /// stays.
    pub(crate) fn fold(&mut self, alloc: Global, entries: &[KeptEntry]) -> Result<(), NoMemory>
        requires { IsDistinct (map as_entry (self.old ++ filter_map folded_as entries.now)) }
        ensures ok { OnOk result (self.new ≡ self.old ++ filter_map folded_as entries.now) }
        ensures err { OnErr result (self.new ≡ self.old) }
    {
        let mut more = all_folded(alloc, entries)?;
        self.put_more(&mut more)
    }
}

impl Copied for FoldedList {
    fn copied(&self, alloc: Global) -> Result<FoldedList, NoMemory> {
        let keys = both(self.numbers.copied(alloc), self.origins.copied(alloc));
        let items = both(copied_items(alloc, &self.items), self.calls.copied(alloc));
        let (items, keys) = both(items, keys)?;
        Ok(FoldedList {
            items: items.0,
            numbers: keys.0,
            origins: keys.1,
            calls: items.1,
        })
    }
}
