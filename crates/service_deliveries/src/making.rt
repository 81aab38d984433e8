// The rows, the entries and the replies of a version that is taken.
ghost use Rattle.std.specs.Prelude.{◌≡◌, ◌+◌, ◌≤◌, ◌∷◌, ◌++◌, [], length, IfOk, OnOk};
ghost use Rattle.journal_rows.specs.Words.{or_before};
ghost use Rattle.service_events.specs.Messages.{acked_row, at_version, created_entry, created_place, created_reply, created_row, created_under, neighbour, origin_of, taken};
ghost use Rattle.service_parts.specs.Parts.{kept};
ghost use Rattle.service_deliveries.specs.Rows.{created_rows, taken_rows, took_by};

use call_registers::Reply;
use create_placement::place;
use journal_rows::{AckedRow, AskedRow, Row, TookHow, TookRow};
use lang_base::both;
use lang_core::{Copied, Inputs, Name, NoMemory, Origin, Request, Shared};
use repair_messages::{Ack, SetMessage, copied_pair};
use request_log::{Deployed, Entry, KeptEntry};
use service_events::Taken;
use service_parts::{Parts, created, id_from, next_id, program_for};
use std::alloc::Global;

/// What is answered, where this rule allowed it.
pub(crate) fn taken(alloc: Global, set: &SetMessage, rule: Option<u32>) -> Result<Taken, NoMemory>
    ensures { IfOk result (λ answer. answer ≡ taken set.now rule) }
{
    let (caller, dest) = copied_pair(alloc, &set.caller, &set.dest)?;
    let ack = Ack {
        caller,
        dest,
        number: set.number,
        version: set.version,
    };
    Ok(Taken { ack, rule })
}

fn index_behind(journal: &[Row], more: u64) -> u64
    requires { more ≤ 2 }
    ensures { result ≡ length journal.now + more }
{
    journal.len() as u64 + more
}

/// The index in the journal of the row that comes so many rows behind the next one.
pub(crate) fn index(parts: &Parts, more: u64) -> u64
    requires { more ≤ 2 }
    ensures { result ≡ length parts.now.journal.rows + more }
{
    index_behind(parts.journal.as_slice(), more)
}

/// The call as the origin of an entry.
pub(crate) fn origin_of(alloc: Global, set: &SetMessage) -> Result<Origin, NoMemory>
    ensures { IfOk result (λ origin. origin ≡ origin_of set.now) }
{
    Ok(Origin::Call {
        caller: set.caller.copied(alloc)?,
        number: set.number,
    })
}

// ---- rows

// What a message says that a call asks, as a row keeps it.
fn desired_of(alloc: Global, desired: &Option<Request>) -> Result<Option<Shared<Request>>, NoMemory>
    ensures { IfOk result (λ held. held ≡ desired.now) }
{
    match desired {
        None => Ok(None),
        Some(request) => Ok(Some(Shared::copy_of(alloc, request)?)),
    }
}

fn push_took(
    alloc: Global,
    set: &SetMessage,
    rule: u32,
    rows: &mut Vec<Row>,
) -> Result<(), NoMemory>
    ensures { OnOk result (rows.new.items ≡ rows.old.items ++ took_by rule set.now ∷ []) }
{
    let (caller, who) = copied_pair(alloc, &set.caller, &set.who)?;
    let desired = desired_of(alloc, &set.desired)?;
    rows.push(Row::Took(TookRow {
        caller,
        number: set.number,
        version: set.version,
        desired,
        how: TookHow::Message,
        who,
        rule,
    }))?;
    Ok(())
}

fn push_acked(alloc: Global, set: &SetMessage, rows: &mut Vec<Row>) -> Result<(), NoMemory>
    ensures { OnOk result (rows.new.items ≡ rows.old.items ++ acked_row set.now ∷ []) }
{
    rows.push(Row::Acked(AckedRow {
        caller: set.caller.copied(alloc)?,
        number: set.number,
        version: set.version,
    }))?;
    Ok(())
}

fn push_asked(
    alloc: Global,
    parts: &Parts,
    set: &SetMessage,
    request: &Shared<Request>,
    inputs: &Shared<Inputs>,
    program: &Shared<Deployed>,
    rows: &mut Vec<Row>,
) -> Result<(), NoMemory>
    requires { program.now ≡ created_under (kept parts.now) set.now }
    ensures { OnOk result (rows.new.items ≡ rows.old.items ++ created_row (kept parts.now) set.now request.now inputs.now ∷ []) }
{
    let asked = both(request.copied(alloc), inputs.copied(alloc));
    let (origin, asked) = both(origin_of(alloc, set), asked)?;
    rows.push(Row::Asked(AskedRow {
        id: next_id(parts),
        origin,
        request: asked.0,
        inputs: asked.1,
        program: program.get().number(),
    }))?;
    Ok(())
}

/// The row of a version that is known.
pub(crate) fn known_rows(alloc: Global, set: &SetMessage) -> Result<Vec<Row>, NoMemory>
    ensures { IfOk result (λ rows. rows.items ≡ acked_row set.now ∷ []) }
{
    let mut rows = Vec::new(alloc);
    push_acked(alloc, set, &mut rows)?;
    Ok(rows)
}

/// The rows of a version of a call that has an entry, or of the deletion of one that has none, where this rule allowed it.
pub(crate) fn taken_rows(alloc: Global, set: &SetMessage, rule: u32) -> Result<Vec<Row>, NoMemory>
    ensures { IfOk result (λ rows. rows.items ≡ taken_rows rule set.now) }
{
    let mut rows = Vec::new(alloc);
    push_took(alloc, set, rule, &mut rows)?;
    push_acked(alloc, set, &mut rows)?;
    Ok(rows)
}

/// The rows of a version that makes an entry, under the program of its place, where this rule allowed it.
pub(crate) fn created_rows(
    alloc: Global,
    parts: &Parts,
    set: &SetMessage,
    request: &Shared<Request>,
    inputs: &Shared<Inputs>,
    program: &Shared<Deployed>,
    rule: u32,
) -> Result<Vec<Row>, NoMemory>
    requires { program.now ≡ created_under (kept parts.now) set.now }
    ensures { IfOk result (λ rows. rows.items ≡ created_rows rule (kept parts.now) set.now request.now inputs.now) }
{
    let mut rows = Vec::new(alloc);
    push_took(alloc, set, rule, &mut rows)?;
    push_asked(alloc, parts, set, request, inputs, program, &mut rows)?;
    push_acked(alloc, set, &mut rows)?;
    Ok(rows)
}

// ---- entries and replies

// What a version asks, where the one before it asked this.
fn or_before(
    alloc: Global,
    before: &Shared<Request>,
    desired: &Option<Request>,
) -> Result<Shared<Request>, NoMemory>
    ensures { IfOk result (λ request. request ≡ or_before before.now desired.now) }
{
    match desired {
        None => before.copied(alloc),
        Some(request) => Shared::copy_of(alloc, request),
    }
}

/// The entry of a call, as it is with this version of it.
pub(crate) fn at_version(alloc: Global, set: &SetMessage, entry: &Entry) -> Result<Entry, NoMemory>
    ensures { IfOk result (λ entry_then. entry_then ≡ at_version set.now entry.now) }
{
    let request = or_before(alloc, &entry.request, &set.desired)?;
    let mut then = entry.copied(alloc)?;
    then.version = set.version;
    then.request = request;
    then.wanted = set.desired.is_some();
    Ok(then)
}

/// The entry that a version makes, which never ran, under the program of its place.
pub(crate) fn created_entry(
    alloc: Global,
    parts: &Parts,
    set: &SetMessage,
    request: &Shared<Request>,
    inputs: &Shared<Inputs>,
    program: &Shared<Deployed>,
) -> Result<KeptEntry, NoMemory>
    requires { program.now ≡ created_under (kept parts.now) set.now }
    ensures { IfOk result (λ entry. entry ≡ created_entry (kept parts.now) set.now request.now inputs.now) }
{
    let asked = both(request.copied(alloc), inputs.copied(alloc));
    let begun = both(origin_of(alloc, set), program.copied(alloc));
    let (asked, (origin, program)) = both(asked, begun)?;
    let mut entry = created(alloc, next_id(parts), asked.0, asked.1, program);
    entry.origin = origin;
    entry.version = set.version;
    KeptEntry::of(alloc, entry)
}

/// Its reply, which is due.
pub(crate) fn created_reply(
    alloc: Global,
    parts: &Parts,
    set: &SetMessage,
) -> Result<Reply, NoMemory>
    ensures { IfOk result (λ reply. reply ≡ created_reply (kept parts.now) set.now) }
{
    let (caller, repair_who) = copied_pair(alloc, &set.caller, parts.setting.me.text())?;
    Ok(Reply {
        id: next_id(parts),
        caller,
        number: set.number,
        version: set.version,
        answer_version: 0,
        wanted: true,
        due: true,
        held: None,
        repair_who,
        since: index(parts, 2),
    })
}

// ---- its place

// The number of the entry of the caller's call of this number, if it has one.
fn neighbour(parts: &Parts, caller: &Name, number: Option<u64>) -> Option<u64>
    ensures { result ≡ neighbour (kept parts.now) caller.now number }
{
    id_from(parts.repairer.log(), caller, number?)
}

// The place of the entry that a version makes, counted from 0 behind the folded entries.
fn created_place(parts: &Parts, set: &SetMessage) -> u64
    ensures place { length parts.now.repairer.folded + result ≡ created_place (kept parts.now) set.now }
    ensures within { result ≤ length parts.now.repairer.entries }
{
    let before = neighbour(parts, &set.caller, set.before);
    let after = neighbour(parts, &set.caller, set.after);
    place(parts.repairer.log(), before, after)
}

/// Where the entry that a version makes is put, counted from 0 behind the folded entries, and the program under which it runs
/// there.
#[derive(Clone, Copy, Drop)]
pub(crate) struct Spot<'a> {
    pub(crate) at: u64,
    pub(crate) program: &'a Shared<Deployed>,
}

/// The spot of the entry that a version makes.
pub(crate) fn spot_of<'a>(parts: &'a Parts, set: &SetMessage) -> Spot<'a>
    ensures place { length parts.now.repairer.folded + result.at ≡ created_place (kept parts.now) set.now }
    ensures within { result.at ≤ length parts.now.repairer.entries }
    ensures program { result.program.now ≡ created_under (kept parts.now) set.now }
{
    let at = created_place(parts, set);
    let program = program_for(parts, at);
    Spot { at, program }
}
