// What an operator's command comes to in a service: all that is asked of it before it is carried out, answered once.
ghost use Rattle.std.specs.Prelude.{◌≡◌, ◌+◌, None, Some, option_map};
ghost use Rattle.std.specs.Option.{option_copied};
ghost use Rattle.request_log.specs.Entries.{with_call};
ghost use Rattle.journal_rows.specs.Programs.{is_number, program_count};
ghost use Rattle.service_events.specs.State.{next_id};
ghost use Rattle.service_events.specs.Orders.{entry_of, hold_on, made_under, request_of, request_retried, subject, unless_held, unless_numbered, unless_outside, unless_past, unless_present, unless_replaced};
ghost use Rattle.service_parts.specs.Parts.{kept};
ghost use Rattle.service_repairs.specs.Resolving.{creation_of, put_request, resolution, resolved};

use crate::programs::{made_under, next_program};
use call_registers::Hold;
use journal_rows::{About, Command};
use lang_core::{Method, Origin, Request, Text};
use repair_messages::{Kind, PostName};
use service_events::OrderRefused;
use service_parts::{Parts, next_id};

/// The request that a command puts: with this method, path and body, and all else as in one that there is.
#[derive(Clone, Copy, Drop)]
pub(crate) struct Put<'a> {
    pub(crate) like: &'a Request,
    pub(crate) method: Method,
    pub(crate) path: &'a Text,
    pub(crate) body: &'a Text,
}

/// The entry that a command makes: its request, and the number of the program under which it runs.
#[derive(Clone, Copy, Drop)]
pub(crate) struct Created<'a> {
    pub(crate) request: &'a Request,
    pub(crate) program: u64,
}

/// A command, with the answers to all that is asked of it.
#[derive(Drop)]
pub(crate) struct Resolved<'a> {
    pub(crate) command: &'a Command,
    /// Why it can't be about what it names.
    pub(crate) misnamed: Option<OrderRefused>,
    /// What rules take it for: cancelling asks as a deletion does, restoring as a creation.
    pub(crate) kind: Kind,
    pub(crate) about: About,
    /// The request that rules are asked about: that of the entry or of the post that it names.
    pub(crate) subject: Option<&'a Request>,
    /// The request that it finds, where it is about an entry.
    pub(crate) original: Option<&'a Request>,
    /// The request that it puts in place of that, or as a new entry.
    pub(crate) put: Option<Put<'a>>,
    /// The entry that it makes.
    pub(crate) created: Option<Created<'a>>,
}

// ---- why it can't be about what it names

fn unless_past(parts: &Parts, id: u64) -> Option<OrderRefused>
    ensures { result ≡ unless_past id (kept parts.now) }
{
    match parts.repairer.log().find_folded(id) {
        None => None,
        Some(_) => Some(OrderRefused::TooOld(id)),
    }
}

fn unless_there(parts: &Parts, id: u64) -> Option<OrderRefused>
    requires { unless_past id (kept parts.now) ≡ None }
    ensures { result ≡ unless_present id (kept parts.now) (entry_of id (kept parts.now)) }
{
    match parts.repairer.log().find(id) {
        None => Some(OrderRefused::NoSuchRequest(id)),
        Some(_) => None,
    }
}

// An order about an entry is about one that is there and isn't folded.
fn unless_present(parts: &Parts, id: u64) -> Option<OrderRefused>
    ensures { result ≡ unless_present id (kept parts.now) (entry_of id (kept parts.now)) }
{
    match unless_past(parts, id) {
        None => unless_there(parts, id),
        Some(why) => Some(why),
    }
}

fn unless_outside(id: u64, origin: &Origin) -> Option<OrderRefused>
    ensures { result ≡ unless_outside id origin.now }
{
    match origin {
        Origin::Outside => None,
        Origin::Call { .. } => Some(OrderRefused::NotOutside(id)),
    }
}

fn unless_own(parts: &Parts, id: u64) -> Option<OrderRefused>
    requires { unless_past id (kept parts.now) ≡ None }
    ensures { result ≡ unless_replaced id (kept parts.now) (entry_of id (kept parts.now)) }
{
    match parts.repairer.log().find(id) {
        None => Some(OrderRefused::NoSuchRequest(id)),
        Some(entry) => unless_outside(id, &entry.origin),
    }
}

// A replacement is besides of one that comes from outside.
fn unless_replaced(parts: &Parts, id: u64) -> Option<OrderRefused>
    ensures { result ≡ unless_replaced id (kept parts.now) (entry_of id (kept parts.now)) }
{
    match unless_past(parts, id) {
        None => unless_own(parts, id),
        Some(why) => Some(why),
    }
}

fn hold_on(parts: &Parts, name: PostName) -> Option<Hold>
    ensures { result ≡ hold_on (kept parts.now) name }
{
    match name {
        PostName::Call(number) => match parts.registers.get(number) {
            None => None,
            Some(register) => register.held,
        },
        PostName::Reply(id) => match parts.replies.get(id) {
            None => None,
            Some(reply) => reply.held,
        },
        PostName::Fetch(_) => None,
    }
}

fn unless_held(parts: &Parts, name: PostName) -> Option<OrderRefused>
    ensures { result ≡ unless_held (hold_on (kept parts.now) name) }
{
    match hold_on(parts, name) {
        None => Some(OrderRefused::NotHeld),
        Some(_) => None,
    }
}

// Whether there is a program of this number.
fn is_number(parts: &Parts, number: u64) -> bool
    ensures { result ≡ is_number number parts.now.journal.rows }
{
    1 <= number && number <= parts.journal.programs()
}

// A correction is of a program that there is, also where nothing runs under it any more.
fn unless_numbered(parts: &Parts, number: u64) -> Option<OrderRefused>
    ensures { result ≡ unless_numbered number (kept parts.now) }
{
    if is_number(parts, number) {
        None
    } else {
        Some(OrderRefused::NoSuchProgram(number))
    }
}

// ---- requests

/// The request of the entry of this number, folded or not, if there is one.
pub(crate) fn request_of(parts: &Parts, id: u64) -> Option<&Request>
    ensures { option_copied result ≡ request_of id (kept parts.now) }
{
    service_parts::request_of(parts.repairer.log(), id)
}

// The request that a retried call asks, where it asks something.
fn request_retried(parts: &Parts, number: u64) -> Option<&Request>
    ensures { option_copied result ≡ request_retried number (kept parts.now) }
{
    match parts.registers.get(number) {
        None => None,
        Some(register) => register.desired.as_ref(),
    }
}

fn request_posted(parts: &Parts, name: PostName) -> Option<&Request>
    ensures { option_copied result ≡ subject (kept parts.now) (Command.Retry name) }
{
    match name {
        PostName::Call(number) => request_retried(parts, number),
        PostName::Reply(id) => request_of(parts, id),
        PostName::Fetch(_) => None,
    }
}

/// This request with another method, path and body, where there is one.
pub(crate) fn put_like<'a>(
    found: Option<&'a Request>,
    method: Method,
    path: &'a Text,
    body: &'a Text,
) -> Option<Put<'a>>
    ensures { option_map put_request result ≡ option_map (with_call method path.now body.now) (option_copied found.entry) }
{
    match found {
        None => None,
        Some(like) => Some(Put {
            like,
            method,
            path,
            body,
        }),
    }
}

fn put_whole(request: &Request) -> Put<'_>
    ensures { put_request result ≡ request.now }
{
    Put {
        like: request,
        method: request.method,
        path: &request.path,
        body: &request.body,
    }
}

// ---- commands

// One that strikes an entry, or takes that back.
fn marking<'a>(parts: &'a Parts, command: &'a Command, id: u64, kind: Kind) -> Resolved<'a>
    ensures { resolved result ≡ record {
      command = command.now;
      misnamed = unless_present id (kept parts.now) (entry_of id (kept parts.now));
      kind = kind;
      about = About.Request id;
      subject = request_of id (kept parts.now);
      original = request_of id (kept parts.now);
      repaired = None;
      created = None;
    } }
{
    let found = request_of(parts, id);
    Resolved {
        command,
        misnamed: unless_present(parts, id),
        kind,
        about: About::Request(id),
        subject: found,
        original: found,
        put: None,
        created: None,
    }
}

fn replacing<'a>(
    parts: &'a Parts,
    command: &'a Command,
    id: u64,
    method: Method,
    path: &'a Text,
    body: &'a Text,
) -> Resolved<'a>
    ensures { resolved result ≡ record {
      command = command.now;
      misnamed = unless_replaced id (kept parts.now) (entry_of id (kept parts.now));
      kind = Kind.Replace;
      about = About.Request id;
      subject = request_of id (kept parts.now);
      original = request_of id (kept parts.now);
      repaired = option_map (with_call method path.now body.now) (request_of id (kept parts.now));
      created = None;
    } }
{
    let found = request_of(parts, id);
    Resolved {
        command,
        misnamed: unless_replaced(parts, id),
        kind: Kind::Replace,
        about: About::Request(id),
        subject: found,
        original: found,
        put: put_like(found, method, path, body),
        created: None,
    }
}

// The entry of a request that is to have been made, under the program of its place.
fn entry_made<'a>(
    parts: &'a Parts,
    before: Option<u64>,
    after: Option<u64>,
    request: &'a Request,
) -> Created<'a>
    ensures { creation_of result ≡ record { request = request.now; program = (made_under (kept parts.now) before after).number } }
{
    Created {
        request,
        program: made_under(parts, before, after).get().number(),
    }
}

fn creating<'a>(
    parts: &'a Parts,
    command: &'a Command,
    before: Option<u64>,
    after: Option<u64>,
    request: &'a Request,
) -> Resolved<'a>
    ensures { resolved result ≡ record {
      command = command.now;
      misnamed = None;
      kind = Kind.Create;
      about = About.Request (next_id (kept parts.now));
      subject = None;
      original = None;
      repaired = Some request.now;
      created = Some (record { request = request.now; program = (made_under (kept parts.now) before after).number });
    } }
{
    Resolved {
        command,
        misnamed: None,
        kind: Kind::Create,
        about: About::Request(next_id(parts)),
        subject: None,
        original: None,
        put: Some(put_whole(request)),
        created: Some(entry_made(parts, before, after, request)),
    }
}

fn retrying<'a>(parts: &'a Parts, command: &'a Command, name: PostName) -> Resolved<'a>
    ensures { resolved result ≡ record {
      command = command.now;
      misnamed = unless_held (hold_on (kept parts.now) name);
      kind = Kind.Retry;
      about = About.Post name;
      subject = subject (kept parts.now) (Command.Retry name);
      original = None;
      repaired = None;
      created = None;
    } }
{
    Resolved {
        command,
        misnamed: unless_held(parts, name),
        kind: Kind::Retry,
        about: About::Post(name),
        subject: request_posted(parts, name),
        original: None,
        put: None,
        created: None,
    }
}

fn folding<'a>(parts: &'a Parts, command: &'a Command, id: u64) -> Resolved<'a>
    ensures { resolved result ≡ record {
      command = command.now;
      misnamed = unless_present id (kept parts.now) (entry_of id (kept parts.now));
      kind = Kind.Fold;
      about = About.Request id;
      subject = None;
      original = None;
      repaired = None;
      created = None;
    } }
{
    Resolved {
        command,
        misnamed: unless_present(parts, id),
        kind: Kind::Fold,
        about: About::Request(id),
        subject: None,
        original: None,
        put: None,
        created: None,
    }
}

// One that brings a program, which may be refused so. It is about the number that the program gets.
fn programming<'a>(
    parts: &'a Parts,
    command: &'a Command,
    misnamed: Option<OrderRefused>,
    kind: Kind,
) -> Resolved<'a>
    ensures { resolved result ≡ record {
      command = command.now;
      misnamed = misnamed;
      kind = kind;
      about = About.Program (program_count parts.now.journal.rows + 1);
      subject = None;
      original = None;
      repaired = None;
      created = None;
    } }
{
    Resolved {
        command,
        misnamed,
        kind,
        about: About::Program(next_program(parts)),
        subject: None,
        original: None,
        put: None,
        created: None,
    }
}

fn ruling(command: &Command) -> Resolved<'_>
    ensures { resolved result ≡ record {
      command = command.now;
      misnamed = None;
      kind = Kind.Rules;
      about = About.Rules;
      subject = None;
      original = None;
      repaired = None;
      created = None;
    } }
{
    Resolved {
        command,
        misnamed: None,
        kind: Kind::Rules,
        about: About::Rules,
        subject: None,
        original: None,
        put: None,
        created: None,
    }
}

/// What a command comes to as the service stands now.
pub(crate) fn resolve<'a>(parts: &'a Parts, command: &'a Command) -> Resolved<'a>
    ensures { resolved result ≡ resolution (kept parts.now) command.now }
{
    match command {
        Command::Cancel(id) => marking(parts, command, *id, Kind::Delete),
        Command::Restore(id) => marking(parts, command, *id, Kind::Create),
        Command::Replace {
            id,
            method,
            path,
            body,
        } => replacing(parts, command, *id, *method, path, body),
        Command::Create {
            before,
            after,
            request,
        } => creating(parts, command, *before, *after, request),
        Command::Retry(name) => retrying(parts, command, *name),
        Command::Fold(id) => folding(parts, command, *id),
        Command::Deploy(_) => programming(parts, command, None, Kind::Deploy),
        Command::Correct(number, _) => {
            let misnamed = unless_numbered(parts, *number);
            programming(parts, command, misnamed, Kind::Correct)
        }
        Command::Rules(_) => ruling(command),
    }
}
