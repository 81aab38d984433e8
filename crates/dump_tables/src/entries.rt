// Entries of a service.
ghost use Rattle.std.specs.Prelude.{◌≡◌, ◌+◌, ◌++◌, ◌∷◌, ◌≤◌, [], nat_eq, length, slice_get, vec_capacity, OnOk};
ghost use Rattle.std.specs.List.{list_any};
ghost use Rattle.std.specs.Option.{option_copied};
ghost use Rattle.lang_core.specs.Origins.{is_call};
ghost use Rattle.lang_lists.specs.Ends.{last_end};
ghost use Rattle.dump_tables.specs.Found.{IsOneOf};
ghost use Rattle.dump_tables.specs.Indexed.{from_end, has_number, origin_key};

use crate::call_index::CallIndex;
use crate::dump::DumpEntry;
use crate::finding::one_of;
use lang_core::{Name, NoMemory, Origin, Same};
use lang_lists::{HashIndex, call_key};
use std::alloc::Global;
use std::marker::Model;

/// Entries in logged order, which contracts see as a list. An entry, the call that it comes from and each call of its own
/// are found without a walk.
pub struct DumpEntries {
    items: Vec<DumpEntry>,
    // Their numbers.
    ids: HashIndex,
    // The keys of their origins.
    origins: HashIndex,
    // The numbers of their calls, each with the place of its entry.
    calls: CallIndex,
}

impl Drop for DumpEntries {
    fn drop(self) {
        let Self {
            items: _,
            ids: _,
            origins: _,
            calls: _,
        } = self;
    }
}

impl Model for DumpEntries {
    ghost use Rattle.std.specs.Prelude.{List};
    ghost use Rattle.std.specs.Coded.{coded_list};
    ghost use Rattle.dump_tables.specs.Indexed.{AreIndexed};
    ghost use Rattle.dump_tables.specs.contracts.dump.DumpEntry as dump_entry;
    ghost use Rattle.dump_tables.specs.declared.dump.DumpEntry.{DumpEntry};

    ghost Value = { List DumpEntry };

    ghost coded = { coded_list dump_entry.the_row.coded };

    ghost view = { λ entries. entries.items.items };

    ghost invariant = { λ entries. AreIndexed entries.items.items entries.ids.keys entries.origins.keys entries.calls.numbers.keys entries.calls.places.items };
}

fn origin_key(id: u64, origin: &Origin) -> u64
    ensures { result ≡ origin_key id origin.now }
{
    match origin {
        Origin::Outside => id,
        Origin::Call { caller, number } => call_key(caller.text(), *number),
    }
}

fn is_call(caller: &Name, number: u64, origin: &Origin) -> bool
    ensures { result ≡ is_call caller.now number origin.now }
{
    match origin {
        Origin::Outside => false,
        Origin::Call {
            caller: own_caller,
            number: own_number,
        } => own_caller.text().is(caller.text()) && *own_number == number,
    }
}

fn item_at(entries: &[DumpEntry], place: usize) -> Option<&DumpEntry>
    ensures { option_copied result ≡ slice_get entries.now place }
{
    entries.get(place)
}

// Makes room for an entry more with so many calls.
fn make_room(
    ids: &mut HashIndex,
    origins: &mut HashIndex,
    calls: &mut CallIndex,
    more: usize,
) -> Result<(), NoMemory>
    ensures ids { ids.new.keys ≡ ids.old.keys }
    ensures origins { origins.new.keys ≡ origins.old.keys }
    ensures numbers { calls.new.numbers.keys ≡ calls.old.numbers.keys }
    ensures places { calls.new.places.items ≡ calls.old.places.items }
    ensures ok { OnOk result ((1 ≤ ids.new.spare) × ((1 ≤ origins.new.spare) × (more ≤ calls.new.numbers.spare))) }
    ensures room { OnOk result (length calls.new.places.items + more ≤ vec_capacity calls.new.places) }
{
    ids.reserve(1)?;
    origins.reserve(1)?;
    calls.reserve(more)
}

fn from_end(entries: &[DumpEntry], end: usize) -> &[DumpEntry]
    requires { end ≤ length entries.now }
    ensures { result.now ≡ from_end end entries.now }
{
    if end == 0 { &[] } else { &entries[end - 1..] }
}

impl DumpEntries {
    /// No entries.
    pub fn new(alloc: Global) -> DumpEntries
        ensures { result ≡ [] }
    {
        DumpEntries {
            items: Vec::new(alloc),
            ids: HashIndex::new(alloc),
            origins: HashIndex::new(alloc),
            calls: CallIndex::new(alloc),
        }
    }

    /// The entries, in order.
    pub fn as_slice(&self) -> &[DumpEntry]
        ensures { result.now ≡ self.now }
    {
        self.items.as_slice()
    }

    /// An entry of this number, if there is one.
    pub fn with_id(&self, id: u64) -> Option<&DumpEntry>
        ensures { IsOneOf (λ e. nat_eq e.id id) self.now (option_copied result) }
    {
        one_of(self.as_slice(), &self.ids, id, |e| e.id == id)
    }

    /// The entries from the last of this number on; none where no entry has it.
    pub fn from_id(&self, id: u64) -> &[DumpEntry]
        ensures { result.now ≡ from_end (last_end (λ e. nat_eq id e.id) self.now) self.now }
    {
        from_end(self.as_slice(), self.ids.end_of(id))
    }

    /// Whether an entry has this number.
    pub fn has_id(&self, id: u64) -> bool
        ensures { result ≡ list_any (λ e. nat_eq e.id id) self.now }
    {
        self.ids.end_of(id) > 0
    }

    /// An entry that comes from this call, if there is one.
    pub fn of_call(&self, caller: &Name, number: u64) -> Option<&DumpEntry>
        ensures { IsOneOf (λ e. is_call caller.now number e.origin) self.now (option_copied result) }
    {
        let key = call_key(caller.text(), number);
        one_of(self.as_slice(), &self.origins, key, |e| {
            is_call(caller, number, &e.origin)
        })
    }

    /// Whether an entry comes from this call.
    pub fn has_caller(&self, caller: &Name, number: u64) -> bool
        ensures { result ≡ list_any (λ e. is_call caller.now number e.origin) self.now }
    {
        match self.of_call(caller, number) {
            Some(_) => true,
            None => false,
        }
    }

    /// An entry that has a call of this number, if there is one.
    pub fn with_number(&self, number: u64) -> Option<&DumpEntry>
        ensures { IsOneOf (has_number number) self.now (option_copied result) }
    {
        match self.calls.place_of(number) {
            Some(place) => item_at(self.as_slice(), place),
            None => None,
        }
    }

    /// Whether an entry has a call of this number.
    pub fn has_number(&self, number: u64) -> bool
        ensures { result ≡ list_any (has_number number) self.now }
    {
        match self.with_number(number) {
            Some(_) => true,
            None => false,
        }
    }

    /// Puts an entry last. Refused, it is dropped and the list stays.
    pub fn push(&mut self, entry: DumpEntry) -> Result<(), NoMemory>
        ensures { OnOk result (self.new ≡ self.old ++ entry ∷ []) }
    {
        let place = self.items.len();
        let calls = entry.numbers.as_slice().len();
        make_room(&mut self.ids, &mut self.origins, &mut self.calls, calls)?;
        self.items.reserve(1)?;
        self.ids.push(entry.id);
        self.origins.push(origin_key(entry.id, &entry.origin));
        self.calls.push_all(entry.numbers.as_slice(), place);
        self.items.push_reserved(entry);
        Ok(())
    }
}
