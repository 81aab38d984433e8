// What taking a version changes, put in place.
ghost use Rattle.std.specs.Prelude.{◌≡◌, ◌+◌, ◌<◌, ◌≤◌, ◌^◌, ◌∷◌, ◌++◌, [], None, find, insert, length, IfOk, OnOk, OnErr};
ghost use Rattle.request_log.specs.Entries.{with_entry, IsNew};
ghost use Rattle.request_log.specs.Folded.{has_number};
ghost use Rattle.local_repair.specs.Repairs.{IsAmended};
ghost use Rattle.call_registers.specs.Replies.{at_entry, made_due, with_taken, IsAboveAll};
ghost use Rattle.service_parts.specs.Parts.{kept, whole_log};
ghost use Rattle.service_parts.specs.Services.{HasRoom};
ghost use Rattle.service_parts.specs.Drafts.{TellNoCall};
ghost use Rattle.service_deliveries.specs.TakeChanges.{changed_by, left_by, CanChange};

use crate::take_changes::{TakeChange, Taking};
use call_registers::{Replies, Reply};
use lang_core::NoMemory;
use local_repair::Repairer;
use request_log::{Entry, KeptEntry};
use service_events::Taken;
use service_parts::{Parts, amend, insert, push_rows, reserve};

// ---- replies, where an entry has one

fn make_due(replies: &mut Replies, id: u64, since: u64)
    ensures { replies.new.list ≡ at_entry id (made_due since) replies.old.list }
{
    if replies.get(id).is_some() {
        replies.make_due(id, since);
    }
}

fn note_taken(replies: &mut Replies, id: u64, version: u64, wanted: bool)
    ensures { replies.new.list ≡ at_entry id (with_taken version wanted) replies.old.list }
{
    if replies.get(id).is_some() {
        replies.taken(id, version, wanted);
    }
}

// ---- entries

fn amend_due(repairer: &mut Repairer, replies: &mut Replies, entry: Entry, since: u64)
    requires past { find (has_number entry.id) repairer.old.folded ≡ None }
    requires amends { IsAmended entry repairer.old.entries }
    ensures entries { whole_log repairer.new ≡ with_entry entry (whole_log repairer.old) }
    ensures folded { repairer.new.folded ≡ repairer.old.folded }
    ensures base { repairer.new.base ≡ repairer.old.base }
    ensures replies { replies.new.list ≡ at_entry entry.id (λ p. made_due since (with_taken entry.version entry.wanted p)) replies.old.list }
{
    note_taken(replies, entry.id, entry.version, entry.wanted);
    make_due(replies, entry.id, since);
    amend(repairer, entry);
}

#[tactic(auto, using(lang_lists::proofs::RoomLemmas::made_last))]
fn create(
    repairer: &mut Repairer,
    replies: &mut Replies,
    at: u64,
    entry: KeptEntry,
    reply: Reply,
) -> Result<(), NoMemory>
    requires within { at ≤ length repairer.old.entries }
    requires is_new { IsNew entry (whole_log repairer.old) }
    requires above { IsAboveAll reply.id replies.old.list }
    ensures entries { OnOk result (whole_log repairer.new ≡ insert (whole_log repairer.old) (length repairer.old.folded + at) entry) }
    ensures folded { repairer.new.folded ≡ repairer.old.folded }
    ensures base { repairer.new.base ≡ repairer.old.base }
    ensures replies { OnOk result (replies.new.list ≡ replies.old.list ++ reply ∷ []) }
    ensures repairer_err { OnErr result (repairer.new ≡ repairer.old) }
    ensures replies_err { OnErr result (replies.new.list ≡ replies.old.list) }
{
    replies.ready_add(&reply)?;
    insert(repairer, at, entry)?;
    replies.add(reply).unwrap();
    Ok(())
}

// ---- all of it

// Changes entries and replies so. Refused, they stay.
fn apply(parts: &mut Parts, change: TakeChange) -> Result<(), NoMemory>
    requires { CanChange (kept parts.old) change }
    ensures ok { OnOk result (kept parts.new ≡ changed_by (kept parts.old) change) }
    ensures err { OnErr result (kept parts.new ≡ kept parts.old) }
    ensures journal { parts.new.journal ≡ parts.old.journal }
    ensures flights { parts.new.flights ≡ parts.old.flights }
{
    match change {
        TakeChange::Nothing => Ok(()),
        TakeChange::Due { id, since } => {
            make_due(&mut parts.replies, id, since);
            Ok(())
        }
        TakeChange::Amend { entry, since } => {
            amend_due(&mut parts.repairer, &mut parts.replies, entry, since);
            Ok(())
        }
        TakeChange::Create { at, entry, reply } => {
            create(&mut parts.repairer, &mut parts.replies, at, entry, reply)
        }
    }
}

/// Puts in place what taking a version is to leave, and hands on what it is to answer. Refused, nothing changes.
#[tactic(auto, using(service_parts::proofs::DraftLemmas::noted_last))]
pub(crate) fn put(parts: &mut Parts, taking: Taking) -> Result<Taken, NoMemory>
    requires can { CanChange (kept parts.old) taking.change }
    requires plain { TellNoCall taking.rows.items }
    requires room { HasRoom parts.old }
    ensures ok { OnOk result (kept parts.new ≡ left_by (kept parts.old) taking) }
    ensures taken { IfOk result (λ taken. taken ≡ taking.taken) }
    ensures err { OnErr result (kept parts.new ≡ kept parts.old) }
    ensures room { HasRoom parts.new }
{
    let Taking {
        taken,
        rows,
        change,
    } = taking;
    let count = rows.len() as u64;
    reserve(&mut parts.journal, count, parts.flights.as_slice())?;
    apply(parts, change)?;
    push_rows(&mut parts.journal, rows);
    Ok(taken)
}
