// The orders of operators.
ghost use Rattle.std.specs.Prelude.{◌≡◌, ◌+◌, ◌<◌, ◌≤◌, [], ◌∷◌, ◌++◌, None, IfOk, OnOk, OnErr, find, insert, length, option_map};
ghost use Rattle.std.specs.Option.{option_copied};
ghost use Rattle.request_log.specs.Entries.{changed, has_id, mark, replace, IsNew, with_call};
ghost use Rattle.create_placement.specs.Placement.{created};
ghost use Rattle.service_events.specs.Calls.{noted};
ghost use Rattle.service_events.specs.Orders.{carried_out, entry_of, hold_on, made_under, place_made, released_post, request_of, unless_held, unless_present, unless_replaced};
ghost use Rattle.service_events.specs.State.{next_id, program_for};
ghost use Rattle.service_parts.specs.Parts.{kept, whole_log};
ghost use Rattle.service_parts.specs.Rooms.{aloft};
ghost use Rattle.service_parts.specs.Drafts.{TellNoCall};
ghost use Rattle.service_repairs.specs.Ordering.{MayOrder, allowed_rows, made_rows};
ghost use Rattle.service_repairs.specs.Resolving.{creation_of, put_request, resolved};

use crate::folding::fold;
use crate::programs::{correct, deploy};
use crate::resolving::{Created, Put, Resolved, put_like, request_of};
use create_placement::place;
use journal_rows::{AskedRow, Command, OrderedRow, Row};
use lang_base::both;
use lang_core::{Copied, Inputs, Method, NoMemory, Origin, Request, Seq, Shared, Text};
use repair_messages::{PostName, copied_pair};
use request_log::KeptEntry;
use service_parts::{
    Parts, created, insert, next_id, program_for, push_rows, reserve, rewrite, set_struck,
};
use std::alloc::Global;

// ---- its rows

fn copied_request(alloc: Global, found: Option<&Request>) -> Result<Option<Request>, NoMemory>
    ensures { IfOk result (λ q. q ≡ option_copied found.entry) }
{
    match found {
        None => Ok(None),
        Some(request) => {
            let request = request.copied(alloc)?;
            Ok(Some(request))
        }
    }
}

// A request with another method, path and body.
fn with_call(
    alloc: Global,
    request: &Request,
    method: Method,
    path: &Text,
    body: &Text,
) -> Result<Request, NoMemory>
    ensures { IfOk result (λ q. q ≡ with_call method path.now body.now request.now) }
{
    let (path, body) = copied_pair(alloc, path, body)?;
    let (who, chain) = copied_pair(alloc, &request.who, &request.chain)?;
    Ok(Request {
        method,
        path,
        body,
        who,
        chain,
    })
}

// The request that an order puts in its place.
fn repaired(alloc: Global, put: &Option<Put<'_>>) -> Result<Option<Request>, NoMemory>
    ensures { IfOk result (λ q. q ≡ option_map put_request put.now) }
{
    match put {
        None => Ok(None),
        Some(put) => {
            let request = with_call(alloc, put.like, put.method, put.path, put.body)?;
            Ok(Some(request))
        }
    }
}

fn requests(
    alloc: Global,
    order: &Resolved<'_>,
) -> Result<(Option<Request>, Option<Request>), NoMemory>
    ensures { IfOk result (λ q. (q.0 ≡ (resolved order.now).original) × (q.1 ≡ (resolved order.now).repaired)) }
{
    let original = copied_request(alloc, order.original)?;
    let repaired = repaired(alloc, &order.put)?;
    Ok((original, repaired))
}

// The row of an order that this rule allowed.
fn ordered(
    alloc: Global,
    order: &Resolved<'_>,
    token: Text,
    who: &Text,
    rule: u32,
) -> Result<Row, NoMemory>
    ensures { IfOk result (λ row. row ≡ Row.Ordered (record {
      token = token;
      command = order.now.command.now;
      who = who.now;
      rule = rule;
      original = (resolved order.now).original;
      repaired = (resolved order.now).repaired;
      about = order.now.about;
    })) }
{
    let (original, repaired) = requests(alloc, order)?;
    let (command, who) = copied_pair(alloc, order.command, who)?;
    let row = OrderedRow {
        token,
        command,
        who,
        rule,
        original,
        repaired,
        about: order.about,
    };
    Row::ordered(alloc, row)
}

fn asked(alloc: Global, id: u64, created: Created<'_>, inputs: Inputs) -> Result<Row, NoMemory>
    ensures { IfOk result (λ row. row ≡ Row.Asked (record {
      id = id;
      origin = Origin.Outside;
      request = (creation_of created.entry).request;
      inputs = inputs;
      program = (creation_of created.entry).program;
    })) }
{
    let request = Shared::copy_of(alloc, created.request);
    let (request, inputs) = both(request, Shared::new(alloc, inputs))?;
    Ok(Row::Asked(AskedRow {
        id,
        origin: Origin::Outside,
        request,
        inputs,
        program: created.program,
    }))
}

// The row of the entry that an order makes, if it makes one.
fn push_asked(
    alloc: Global,
    parts: &Parts,
    created: &Option<Created<'_>>,
    inputs: Inputs,
    rows: &mut Vec<Row>,
) -> Result<(), NoMemory>
    ensures { OnOk result (rows.new.items ≡ rows.old.items ++ made_rows (kept parts.now) (option_map creation_of created.now) inputs) }
{
    match created {
        Some(created) => {
            rows.push(asked(alloc, next_id(parts), *created, inputs)?)?;
            Ok(())
        }
        None => Ok(()),
    }
}

/// The rows of an order that this rule allowed.
pub(crate) fn order_rows(
    alloc: Global,
    parts: &Parts,
    order: &Resolved<'_>,
    token: Text,
    who: &Text,
    inputs: Inputs,
    rule: u32,
) -> Result<Vec<Row>, NoMemory>
    ensures { IfOk result (λ rows. rows.items ≡ allowed_rows (kept parts.now) (resolved order.now) token who.now inputs rule) }
{
    let row = ordered(alloc, order, token, who, rule)?;
    let mut rows = Vec::new(alloc);
    rows.push(row)?;
    push_asked(alloc, parts, &order.created, inputs, &mut rows)?;
    Ok(rows)
}

// ---- what it does

// The entry of a request that is to have been made at this place, counted from 0 behind the folded entries.
fn entry_at(
    alloc: Global,
    parts: &Parts,
    at: u64,
    request: Request,
    inputs: Inputs,
) -> Result<KeptEntry, NoMemory>
    ensures { IfOk result (λ entry. entry ≡ created (next_id (kept parts.now)) request inputs (program_for (kept parts.now) (length parts.now.repairer.folded + at))) }
{
    let request = Shared::new(alloc, request);
    let asked = both(request, Shared::new(alloc, inputs));
    let program = program_for(parts, at).copied(alloc);
    let (program, (request, inputs)) = both(program, asked)?;
    KeptEntry::of(
        alloc,
        created(alloc, next_id(parts), request, inputs, program),
    )
}

// Makes an entry of a request that is to have been made, at its place among the others, behind the folded ones, under the program
// of that place. Refused, nothing changes.
fn create(
    alloc: Global,
    parts: &mut Parts,
    before: Option<u64>,
    after: Option<u64>,
    request: Request,
    inputs: Inputs,
) -> Result<(), NoMemory>
    requires is_new { find (has_id (next_id (kept parts.old))) (whole_log parts.old.repairer) ≡ None }
    ensures ok { OnOk result (kept parts.new ≡ record (kept parts.old) {
      entries =
          insert (whole_log parts.old.repairer) (place_made (kept parts.old) before after)
          (created (next_id (kept parts.old)) request inputs (made_under (kept parts.old) before after));
    }) }
    ensures err { OnErr result (kept parts.new ≡ kept parts.old) }
    ensures journal { parts.new.journal ≡ parts.old.journal }
    ensures flights { parts.new.flights ≡ parts.old.flights }
{
    let at = place(parts.repairer.log(), before, after);
    let entry = entry_at(alloc, parts, at, request, inputs)?;
    insert(&mut parts.repairer, at, entry)
}

// Sets whether the entry of a number is struck, which is there and isn't folded.
fn strike(parts: &mut Parts, id: u64, struck: bool)
    requires { unless_present id (kept parts.old) (entry_of id (kept parts.old)) ≡ None }
    ensures kept { kept parts.new ≡ record (kept parts.old) { entries = changed id (mark struck) (whole_log parts.old.repairer) } }
    ensures journal { parts.new.journal ≡ parts.old.journal }
    ensures flights { parts.new.flights ≡ parts.old.flights }
{
    set_struck(&mut parts.repairer, id, struck);
}

// A held post is sent again, for this user.
fn release(parts: &mut Parts, name: PostName, who: Text)
    requires { unless_held (hold_on (kept parts.old) name) ≡ None }
    ensures kept { kept parts.new ≡ released_post who name (kept parts.old) }
    ensures journal { parts.new.journal ≡ parts.old.journal }
    ensures flights { parts.new.flights ≡ parts.old.flights }
{
    match name {
        PostName::Call(number) => parts.registers.release(number, who),
        PostName::Reply(id) => parts.replies.release_reply(id, who),
        PostName::Fetch(_) => {}
    }
}

// The request of the entry of a number, with another method, path and body.
fn replaced_request(
    alloc: Global,
    parts: &Parts,
    id: u64,
    method: Method,
    path: &Text,
    body: &Text,
) -> Result<Option<Request>, NoMemory>
    ensures { IfOk result (λ q. q ≡ option_map (with_call method path.now body.now) (request_of id (kept parts.now))) }
{
    let put = put_like(request_of(parts, id), method, path, body);
    repaired(alloc, &put)
}

// Gives the entry of a number another method, path and body. Refused, nothing changes.
fn replace(
    alloc: Global,
    parts: &mut Parts,
    id: u64,
    method: Method,
    path: &Text,
    body: &Text,
) -> Result<(), NoMemory>
    requires { unless_replaced id (kept parts.old) (entry_of id (kept parts.old)) ≡ None }
    ensures ok { OnOk result (kept parts.new ≡ record (kept parts.old) { entries = changed id (replace method path.now body.now) (whole_log parts.old.repairer) }) }
    ensures err { OnErr result (kept parts.new ≡ kept parts.old) }
    ensures journal { parts.new.journal ≡ parts.old.journal }
    ensures flights { parts.new.flights ≡ parts.old.flights }
{
    let repaired = replaced_request(alloc, parts, id, method, path, body)?;
    match repaired {
        None => Ok(()),
        Some(request) => {
            let held = Shared::new(alloc, request)?;
            rewrite(&mut parts.repairer, id, held);
            Ok(())
        }
    }
}

// Carries an order out, but for its rows. Refused, nothing changes.
fn carry_out(
    alloc: Global,
    parts: &mut Parts,
    command: Command,
    who: Text,
    inputs: Inputs,
) -> Result<(), NoMemory>
    requires { MayOrder (kept parts.old) command }
    ensures ok { OnOk result (kept parts.new ≡ carried_out (kept parts.old) command who inputs) }
    ensures err { OnErr result (kept parts.new ≡ kept parts.old) }
    ensures journal { parts.new.journal ≡ parts.old.journal }
    ensures aloft { aloft parts.new.flights.list ≡ aloft parts.old.flights.list }
{
    match command {
        Command::Cancel(id) => {
            strike(parts, id, true);
            Ok(())
        }
        Command::Restore(id) => {
            strike(parts, id, false);
            Ok(())
        }
        Command::Replace {
            id,
            method,
            path,
            body,
        } => replace(alloc, parts, id, method, &path, &body),
        Command::Create {
            before,
            after,
            request,
        } => create(alloc, parts, before, after, request, inputs),
        Command::Retry(name) => {
            release(parts, name, who);
            Ok(())
        }
        Command::Fold(id) => fold(alloc, parts, id),
        Command::Deploy(text) => deploy(alloc, parts, &text),
        Command::Correct(number, text) => correct(alloc, parts, number, &text),
        Command::Rules(given) => {
            parts.rules = given;
            Ok(())
        }
    }
}

/// Carries an order out, and puts its rows last. Refused for want of memory, nothing changes.
pub(crate) fn put_order(
    alloc: Global,
    parts: &mut Parts,
    rows: Vec<Row>,
    command: Command,
    who: Text,
    inputs: Inputs,
) -> Result<(), NoMemory>
    requires may { MayOrder (kept parts.old) command }
    requires plain { TellNoCall rows.items }
    requires room { aloft parts.old.flights.list ≤ parts.old.journal.spare }
    ensures ok { OnOk result (kept parts.new ≡ noted rows.items (carried_out (kept parts.old) command who inputs)) }
    ensures err { OnErr result (kept parts.new ≡ kept parts.old) }
    ensures room { aloft parts.new.flights.list ≤ parts.new.journal.spare }
{
    let count = rows.len() as u64;
    reserve(&mut parts.journal, count, parts.flights.as_slice())?;
    carry_out(alloc, parts, command, who, inputs)?;
    push_rows(&mut parts.journal, rows);
    Ok(())
}
