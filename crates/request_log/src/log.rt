// The log: entries in order.
ghost use Rattle.std.specs.Prelude.{◌≡◌, ◌↔◌, ◌<◌, ◌≤◌, [], ◌∷◌, ◌++◌, All, drop, filter_map, map, take, length, find, position, insert, slice_get, slice_set, slice_index_or, OnOk, OnErr, IfOk, IsSome, IsTrue, is_some};
ghost use Rattle.std.specs.Option.{option_copied};
ghost use Rattle.request_log.specs.Entries.{asking, changed, corrected, has_id, has_origin, mark, AreReplaced, IsNew, IsKnown, IsLog, with_entry, with_run};
ghost use Rattle.request_log.specs.Folded.{folded_as, has_caller, has_number, whole};
ghost use Rattle.request_log.specs.declared.entry.Entry.{Entry};

use crate::correcting::{copies_for, put_copies};
use crate::entry::{Entry, KeptEntry, Made, Numbers};
use crate::finding::{find_origin, indexes_of, make_room, origin_key, place_of};
use crate::folded::{Folded, FoldedList};
use lang_base::{both, copied_items};
use lang_core::{Copied, Name, NoMemory, Request, Shared};
use lang_lists::HashIndex;
use lang_programs::Deployed;
use std::alloc::{AllocFailed, Global};
use std::marker::Model;

/// The most entries of a log.
pub const MOST_ENTRIES: u64 = 100000;

/// Why a log takes no entry.
#[derive(Clone, Copy, PartialEq, Eq, Debug)]
pub enum LogFull {
    /// There was no memory for it.
    NoMemory,
    /// It has 100,000 entries.
    Full,
}

impl From<NoMemory> for LogFull {
    ghost use Rattle.request_log.specs.declared.log.LogFull.{LogFull};

    ghost from_gives = { λ _ why. why ≡ LogFull.NoMemory };

    fn from(_: NoMemory) -> LogFull {
        LogFull::NoMemory
    }
}

impl<T: Drop> From<AllocFailed<T>> for LogFull {
    ghost use Rattle.request_log.specs.declared.log.LogFull.{LogFull};

    ghost from_gives = { λ _ why. why ≡ LogFull.NoMemory };

    fn from(_: AllocFailed<T>) -> LogFull {
        LogFull::NoMemory
    }
}

/// The entries of a service in logged order, the folded ones first. No two of all have one number, and no two come from one
/// call. Where nothing else is said, a call speaks of the entries that aren't folded.
pub struct Log {
    folded: FoldedList,
    items: Vec<KeptEntry>,
    // Of the items, by number.
    numbers: HashIndex,
    // Of the items, by the keys of origins.
    origins: HashIndex,
}

impl Drop for Log {
    fn drop(self) {
        let Self {
            folded: _,
            items: _,
            numbers: _,
            origins: _,
        } = self;
    }
}

impl Model for Log {
    ghost use Rattle.request_log.specs.Codes.{log_code};
    ghost use Rattle.request_log.specs.Entries.{KeptLog};
    ghost use Rattle.request_log.specs.Keys.{IsIndexed};

    ghost Value = { KeptLog };

    ghost coded = { log_code };

    ghost view = { λ log. record { folded = log.folded; entries = log.items.items } };

    ghost invariant = { λ log. IsIndexed log.folded log.items.items log.numbers.keys log.origins.keys };
}

fn front(items: &[KeptEntry], count: usize) -> &[KeptEntry]
    requires { count ≤ length items.now }
    ensures { result.now ≡ take count items.now }
{
    &items[..count]
}

fn behind(items: &[KeptEntry], count: usize) -> &[KeptEntry]
    requires { count ≤ length items.now }
    ensures { result.now ≡ drop count items.now }
{
    &items[count..]
}

// Takes so many entries out of the front.
fn drop_front(items: &mut Vec<KeptEntry>, count: usize)
    requires { count ≤ length items.old.items }
    ensures { items.new.items ≡ drop count items.old.items }
{
    let _ = items.drain(..count);
}

impl Log {
    /// An empty log.
    pub fn new(alloc: Global) -> Log
        ensures entries { result.entries ≡ [] }
        ensures folded { result.folded ≡ [] }
    {
        Log {
            folded: FoldedList::new(alloc),
            items: Vec::new(alloc),
            numbers: HashIndex::new(alloc),
            origins: HashIndex::new(alloc),
        }
    }

    /// The entries, in order.
    pub fn as_slice(&self) -> &[KeptEntry]
        ensures entries { result.now ≡ self.now.entries }
        ensures log { IsLog self.now.entries }
    {
        self.items.as_slice()
    }

    /// The folded entries, in order, which stand before all others.
    pub fn folded(&self) -> &FoldedList
        ensures { result.now ≡ self.now.folded }
    {
        &self.folded
    }

    /// The folded entry of a number; None exactly where there is none.
    pub fn find_folded(&self, id: u64) -> Option<&Folded>
        ensures { option_copied result ≡ find (has_number id) self.now.folded }
    {
        self.folded.find(id)
    }

    /// The folded entry that comes from a call; None exactly where there is none.
    pub fn folded_origin(&self, caller: &Name, number: u64) -> Option<&Folded>
        ensures { option_copied result ≡ find (has_caller caller.now number) self.now.folded }
    {
        self.folded.find_origin(caller, number)
    }

    /// How many entries it has.
    pub fn len(&self) -> u64
        ensures { result ≡ length self.now.entries }
    {
        self.items.len() as u64
    }

    /// The entry at a place, counted from 0; None exactly past the end.
    pub fn at(&self, place: u64) -> Option<&Entry>
        ensures { option_copied result ≡ slice_get self.now.entries place }
    {
        self.items.get(place as usize).map(|kept| kept.entry())
    }

    /// The entry of a number; None exactly where there is none.
    pub fn find(&self, id: u64) -> Option<&Entry>
        ensures { option_copied result ≡ find (has_id id) self.now.entries }
    {
        match self.place_of(id) {
            None => None,
            Some(place) => self.at(place),
        }
    }

    /// The entry that comes from a call; None exactly where there is none.
    pub fn find_origin(&self, caller: &Name, number: u64) -> Option<&Entry>
        ensures { option_copied result ≡ find (has_origin caller.now number) self.now.entries }
    {
        find_origin(&self.items, &self.origins, caller, number)
    }

    /// The place of the entry of a number, counted from 0; None exactly where there is none.
    pub fn place_of(&self, id: u64) -> Option<u64>
        ensures { result ≡ position (has_id id) self.now.entries }
    {
        place_of(&self.items, &self.numbers, id).map(|place| place as u64)
    }

    fn is_full(&self) -> bool
        ensures { IsTrue result ↔ (length self.now.entries ≡ MOST_ENTRIES) }
    {
        self.len() == MOST_ENTRIES
    }

    /// Puts an entry last, whose number no entry has, folded or not, nor its origin where that is a call. Refused, it is
    /// dropped and the log stays.
    pub fn append(&mut self, entry: KeptEntry) -> Result<(), LogFull>
        requires { IsNew entry (whole self.old.folded self.old.entries) }
        ensures ok { OnOk result (self.new.entries ≡ self.old.entries ++ entry ∷ []) }
        ensures folded { self.new.folded ≡ self.old.folded }
        ensures full { (result ≡ Err LogFull.Full) ↔ (length self.old.entries ≡ MOST_ENTRIES) }
        ensures err { OnErr result (self.new ≡ self.old) }
    {
        if self.is_full() {
            return Err(LogFull::Full);
        }
        make_room(&mut self.numbers, &mut self.origins)?;
        let own = entry.entry();
        let id = own.id;
        let key = origin_key(id, &own.origin);
        self.items.push(entry)?;
        self.numbers.push(id);
        self.origins.push(key);
        Ok(())
    }

    /// Puts an entry, new as for `append`, at a place, counted from 0, before what stands there. Refused, it is
    /// dropped and the log stays. Last it costs as an append does; else with the number of entries.
    pub fn insert(&mut self, at: u64, entry: KeptEntry) -> Result<(), LogFull>
        requires within { at ≤ length self.old.entries }
        requires is_new { IsNew entry (whole self.old.folded self.old.entries) }
        ensures ok { OnOk result (self.new.entries ≡ insert self.old.entries at entry) }
        ensures folded { self.new.folded ≡ self.old.folded }
        ensures full { (result ≡ Err LogFull.Full) ↔ (length self.old.entries ≡ MOST_ENTRIES) }
        ensures err { OnErr result (self.new ≡ self.old) }
    {
        if self.is_full() {
            return Err(LogFull::Full);
        }
        make_room(&mut self.numbers, &mut self.origins)?;
        let own = entry.entry();
        let id = own.id;
        let key = origin_key(id, &own.origin);
        self.items.insert(at as usize, entry)?;
        self.numbers.insert(at as usize, id);
        self.origins.insert(at as usize, key);
        Ok(())
    }

    /// Puts an entry in place of the one of its number, which has the same origin, and hands the old one back.
    pub fn put(&mut self, entry: Entry) -> Entry
        requires { IsKnown entry self.old.entries }
        ensures entries { self.new.entries ≡ with_entry entry self.old.entries }
        ensures folded { self.new.folded ≡ self.old.folded }
        ensures old { find (has_id entry.id) self.old.entries ≡ Some result }
    {
        let place = place_of(&self.items, &self.numbers, entry.id).unwrap();
        self.items[place].replace(entry)
    }

    /// Notes a run of the entry at a place, counted from 0, under its program: its record, its slots, the version of its answer, and how
    /// often it ran.
    pub fn note_run(
        &mut self,
        place: u64,
        made: Made,
        slots: Numbers,
        answer_version: u64,
        runs: u64,
    )
        requires { place < length self.old.entries }
        ensures entries { (d : Entry) → self.new.entries
            ≡ slice_set self.old.entries place (with_run made slots answer_version runs (slice_index_or self.old.entries place d)) }
        ensures folded { self.new.folded ≡ self.old.folded }
    {
        self.items[place as usize].note_run(made, slots, answer_version, runs);
    }

    /// Sets whether the entry of a number is struck; false exactly where there is none.
    pub fn set_struck(&mut self, id: u64, struck: bool) -> bool
        ensures entries { self.new.entries ≡ changed id (mark struck) self.old.entries }
        ensures folded { self.new.folded ≡ self.old.folded }
        ensures there { result ≡ is_some (find (has_id id) self.old.entries) }
    {
        match place_of(&self.items, &self.numbers, id) {
            None => false,
            Some(place) => {
                self.items[place].set_struck(struck);
                true
            }
        }
    }

    /// Gives the entry of a number another request; false exactly where there is none. Where the request is the
    /// entry's own with another method, path and body, the entry is replaced as an order says.
    pub fn rewrite(&mut self, id: u64, request: Shared<Request>) -> bool
        ensures entries { self.new.entries ≡ changed id (asking request) self.old.entries }
        ensures replaced { AreReplaced id request self.old.entries self.new.entries }
        ensures folded { self.new.folded ≡ self.old.folded }
        ensures there { result ≡ is_some (find (has_id id) self.old.entries) }
    {
        match place_of(&self.items, &self.numbers, id) {
            None => false,
            Some(place) => {
                self.items[place].rewrite(request);
                true
            }
        }
    }

    /// Puts a program in place of that of a number, for each entry that has it. Refused, nothing changes. It costs with the
    /// number of entries.
    pub fn correct(
        &mut self,
        alloc: Global,
        number: u64,
        program: &Shared<Deployed>,
    ) -> Result<(), NoMemory>
        ensures entries { OnOk result (self.new.entries ≡ map (corrected number program.now) self.old.entries) }
        ensures folded { self.new.folded ≡ self.old.folded }
        ensures err { OnErr result (self.new ≡ self.old) }
    {
        let mut copies = copies_for(alloc, &self.items, number, program)?;
        put_copies(&mut self.items, &mut copies);
        Ok(())
    }

    /// Folds so many of the first entries, each of which ran: they stand behind those that were folded before, and what they
    /// read and wrote is gone. Refused, nothing changes. It costs with the number of entries.
    pub fn fold(&mut self, alloc: Global, n: u64) -> Result<(), NoMemory>
        requires within { n ≤ length self.old.entries }
        requires ran { All (λ (e : Entry). IsSome e.made) (take n self.old.entries) }
        ensures entries { OnOk result (self.new.entries ≡ drop n self.old.entries) }
        ensures folded { OnOk result (self.new.folded ≡ self.old.folded ++ filter_map folded_as (take n self.old.entries)) }
        ensures err { OnErr result (self.new ≡ self.old) }
    {
        let count = n as usize;
        let indexes = indexes_of(alloc, behind(&self.items, count))?;
        self.folded.fold(alloc, front(&self.items, count))?;
        drop_front(&mut self.items, count);
        self.numbers = indexes.0;
        self.origins = indexes.1;
        Ok(())
    }
}

impl Copied for Log {
    fn copied(&self, alloc: Global) -> Result<Log, NoMemory> {
        let indexes = both(self.numbers.copied(alloc), self.origins.copied(alloc));
        let items = both(self.folded.copied(alloc), copied_items(alloc, &self.items));
        let (items, indexes) = both(items, indexes)?;
        Ok(Log {
            folded: items.0,
            items: items.1,
            numbers: indexes.0,
            origins: indexes.1,
        })
    }
}
