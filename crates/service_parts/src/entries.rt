// New entries: their numbers, and how they are put into the log.
ghost use Rattle.std.specs.Prelude.{◌≡◌, ◌+◌, ◌<◌, ◌≤◌, [], ◌∷◌, ◌++◌, None, OnOk, OnErr, find, insert, length, option_map};
ghost use Rattle.std.specs.Option.{option_copied};
ghost use Rattle.request_log.specs.Entries.{AreReplaced, IsNew, changed, has_id, has_origin, mark, with_entry};
ghost use Rattle.request_log.specs.Folded.{has_number, whole};
ghost use Rattle.request_log.specs.declared.entry.Entry.{Entry};
ghost use Rattle.local_repair.specs.Repairs.{IsAmended};
ghost use Rattle.create_placement.specs.Placement.{created};
ghost use Rattle.service_events.specs.State.{next_id};
ghost use Rattle.service_parts.specs.Parts.{kept, whole_log};

use crate::parts::Parts;
use lang_core::{Inputs, Name, NoMemory, Origin, Request, Shared, ThinSeq};
use local_repair::Repairer;
use request_log::{Deployed, Entry, KeptEntry, Log, Under};
use std::alloc::Global;

// The number of the next entry of a log.
#[tactic(auto, using(crate::proofs::WholeLemmas::many_in_all))]
fn next_in(log: &Log) -> u64
    ensures { result ≡ length (whole log.now.folded log.now.entries) + 1 }
{
    let folded = log.folded().as_slice().len() as u64;
    folded + log.as_slice().len() as u64 + 1
}

/// The number of the next entry of a service.
pub fn next_id(parts: &Parts) -> u64
    ensures { result ≡ next_id (kept parts.now) }
{
    next_in(parts.repairer.log())
}

/// The entry of a request from outside, under this program, that never ran.
pub fn created(
    alloc: Global,
    id: u64,
    request: Shared<Request>,
    inputs: Shared<Inputs>,
    program: Shared<Deployed>,
) -> Entry
    ensures { result ≡ created id request inputs program }
{
    Entry {
        id,
        origin: Origin::Outside,
        version: 0,
        request,
        wanted: true,
        struck: false,
        inputs,
        under: Under::of(program),
        made: None,
        slots: ThinSeq::new(alloc),
        answer_version: 0,
        runs: 0,
    }
}

// ---- changes behind the folded entries

/// Puts an entry last in a log that isn't full. Refused, the log stays.
#[tactic(auto, using(crate::proofs::WholeLemmas::pushed))]
pub fn append(repairer: &mut Repairer, entry: KeptEntry) -> Result<(), NoMemory>
    requires is_new { IsNew entry (whole_log repairer.old) }
    requires few { length repairer.old.entries < 100000 }
    ensures ok { OnOk result (whole_log repairer.new ≡ whole_log repairer.old ++ entry ∷ []) }
    ensures folded { repairer.new.folded ≡ repairer.old.folded }
    ensures base { repairer.new.base ≡ repairer.old.base }
    ensures err { OnErr result (repairer.new ≡ repairer.old) }
{
    match repairer.append(entry) {
        Ok(()) => Ok(()),
        Err(_) => Err(NoMemory),
    }
}

/// Puts an entry at a place of a log that isn't full, counted from 0 behind the folded entries. Refused, the log stays.
#[tactic(auto, using(crate::proofs::WholeLemmas::inserted))]
pub fn insert(repairer: &mut Repairer, at: u64, entry: KeptEntry) -> Result<(), NoMemory>
    requires within { at ≤ length repairer.old.entries }
    requires is_new { IsNew entry (whole_log repairer.old) }
    ensures ok { OnOk result (whole_log repairer.new ≡ insert (whole_log repairer.old) (length repairer.old.folded + at) entry) }
    ensures folded { repairer.new.folded ≡ repairer.old.folded }
    ensures base { repairer.new.base ≡ repairer.old.base }
    ensures err { OnErr result (repairer.new ≡ repairer.old) }
{
    match repairer.insert(at, entry) {
        Ok(()) => Ok(()),
        Err(_) => Err(NoMemory),
    }
}

/// Puts an entry in place of the one of its number, which isn't folded, and of which it differs in its version, its request,
/// and whether it is wanted and struck, at most.
#[tactic(auto, using(crate::proofs::WholeLemmas::amended))]
pub fn amend(repairer: &mut Repairer, entry: Entry)
    requires past { find (has_number entry.id) repairer.old.folded ≡ None }
    requires amends { IsAmended entry repairer.old.entries }
    ensures entries { whole_log repairer.new ≡ with_entry entry (whole_log repairer.old) }
    ensures folded { repairer.new.folded ≡ repairer.old.folded }
    ensures base { repairer.new.base ≡ repairer.old.base }
{
    repairer.amend(entry);
}

/// Sets whether the entry of a number is struck, which isn't folded.
#[tactic(auto, using(crate::proofs::WholeLemmas::changed_behind))]
pub fn set_struck(repairer: &mut Repairer, id: u64, struck: bool)
    requires { find (has_number id) repairer.old.folded ≡ None }
    ensures entries { whole_log repairer.new ≡ changed id (mark struck) (whole_log repairer.old) }
    ensures folded { repairer.new.folded ≡ repairer.old.folded }
    ensures base { repairer.new.base ≡ repairer.old.base }
{
    let _there = repairer.set_struck(id, struck);
}

/// Gives the entry of a number, which isn't folded, another request.
#[tactic(auto, using(crate::proofs::WholeLemmas::replaced_behind))]
pub fn rewrite(repairer: &mut Repairer, id: u64, request: Shared<Request>)
    requires { find (has_number id) repairer.old.folded ≡ None }
    ensures replaced { AreReplaced id request (whole_log repairer.old) (whole_log repairer.new) }
    ensures folded { repairer.new.folded ≡ repairer.old.folded }
    ensures base { repairer.new.base ≡ repairer.old.base }
{
    let _there = repairer.rewrite(id, request);
}

// ---- what is found of an entry, folded or not

/// The request of the entry of a number; None exactly where there is none.
#[tactic(auto, using(crate::proofs::WholeLemmas::request_found))]
pub fn request_of(log: &Log, id: u64) -> Option<&Request>
    ensures { option_copied result ≡ option_map (λ (e : Entry). e.request) (find (has_id id) (whole log.now.folded log.now.entries)) }
{
    match log.find_folded(id) {
        Some(past) => Some(past.request.get()),
        None => request_in(log.find(id)),
    }
}

/// The request of the entry that comes from a call; None exactly where there is none.
#[tactic(auto, using(crate::proofs::WholeLemmas::request_called))]
pub fn request_from<'a>(log: &'a Log, caller: &Name, number: u64) -> Option<&'a Request>
    ensures { option_copied result ≡ option_map (λ (e : Entry). e.request) (find (has_origin caller.now number) (whole log.now.folded log.now.entries)) }
{
    match log.folded_origin(caller, number) {
        Some(past) => Some(past.request.get()),
        None => request_in(log.find_origin(caller, number)),
    }
}

/// The number of the entry that comes from a call; None exactly where there is none.
#[tactic(auto, using(crate::proofs::WholeLemmas::id_called))]
pub fn id_from(log: &Log, caller: &Name, number: u64) -> Option<u64>
    ensures { result ≡ option_map (λ (e : Entry). e.id) (find (has_origin caller.now number) (whole log.now.folded log.now.entries)) }
{
    match log.folded_origin(caller, number) {
        Some(past) => Some(past.id),
        None => match log.find_origin(caller, number) {
            None => None,
            Some(entry) => Some(entry.id),
        },
    }
}

fn request_in(entry: Option<&Entry>) -> Option<&Request>
    ensures { option_copied result ≡ option_map (λ (e : Entry). e.request) (option_copied entry.entry) }
{
    match entry {
        None => None,
        Some(entry) => Some(entry.request.get()),
    }
}
