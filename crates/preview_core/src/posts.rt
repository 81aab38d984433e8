// Which posts are outstanding that weren't.
ghost use Rattle.std.specs.Prelude.{◌≡◌, [], ◌++◌, IfOk, OnOk, map, nat_eq};
ghost use Rattle.std.specs.List.{cons_option, filter_map, list_any};
ghost use Rattle.flights.specs.declared.flight.Flight.{Flight as FlightValue};
ghost use Rattle.repair_messages.specs.Kinds.{spelled};
ghost use Rattle.service_events.specs.Flying.{awaited};
ghost use Rattle.preview_core.specs.Posts.{call_post, is_call_out, is_reply_out, new_posts, reply_post, was_call_out, was_reply_out};

use crate::told::{PostList, PostOne};
use call_registers::{Register, Reply};
use flights::Flight;
use lang_core::NoMemory;
use repair_messages::{Kind, PostName};
use service_core::Service;
use std::alloc::Global;

fn awaits(flights: &[Flight], number: u64) -> bool
    ensures { result ≡ list_any (λ (f : FlightValue). nat_eq number (awaited f)) flights.now }
{
    flights.iter().any(|flight| number == flight.awaited())
}

// Whether a live request waits for the call of this number.
fn is_awaited(service: &Service, number: u64) -> bool
    ensures { result ≡ list_any (nat_eq number) (map awaited service.now.flights) }
{
    awaits(service.flights().as_slice(), number)
}

// Whether the last version of a call isn't acknowledged; nothing holds it, and no live request waits for it.
fn is_call_out(service: &Service, register: &Register) -> bool
    ensures { result ≡ is_call_out service.now register.now }
{
    register.acked < register.version
        && register.held.is_none()
        && !is_awaited(service, register.number)
}

fn was_call_out(before: &Service, number: u64) -> bool
    ensures { result ≡ was_call_out before.now number }
{
    match before.registers().get(number) {
        Some(register) => is_call_out(before, register),
        None => false,
    }
}

// What the message of a call asks for.
fn call_kind(register: &Register) -> Kind
    ensures { result ≡ spelled register.now.version register.now.desired }
{
    if register.desired.is_none() {
        Kind::Delete
    } else if register.version == 1 {
        Kind::Create
    } else {
        Kind::Replace
    }
}

// The post of a call that is outstanding and wasn't.
fn call_post(before: &Service, after: &Service, register: &Register) -> Option<PostOne>
    ensures { result ≡ call_post before.now after.now register.now }
{
    if !is_call_out(after, register) || was_call_out(before, register.number) {
        return None;
    }
    Some(PostOne {
        name: PostName::Call(register.number),
        kind: call_kind(register),
    })
}

// Whether a reply is due that has an answer, and nothing holds it.
fn is_reply_out(reply: &Reply) -> bool
    ensures { result ≡ is_reply_out reply.now }
{
    reply.due && 0 < reply.answer_version && reply.held.is_none()
}

fn was_reply_out(before: &Service, id: u64) -> bool
    ensures { result ≡ was_reply_out before.now id }
{
    match before.replies().get(id) {
        Some(reply) => is_reply_out(reply),
        None => false,
    }
}

// The post of a reply that is outstanding and wasn't.
fn reply_post(before: &Service, reply: &Reply) -> Option<PostOne>
    ensures { result ≡ reply_post before.now reply.now }
{
    if !is_reply_out(reply) || was_reply_out(before, reply.id) {
        return None;
    }
    Some(PostOne {
        name: PostName::Reply(reply.id),
        kind: Kind::ReplaceResponse,
    })
}

fn push_some(list: &mut PostList, post: Option<PostOne>) -> Result<(), NoMemory>
    ensures { OnOk result (list.new ≡ list.old ++ cons_option post []) }
{
    match post {
        Some(post) => list.push(post),
        None => Ok(()),
    }
}

fn push_calls(
    list: &mut PostList,
    before: &Service,
    after: &Service,
    registers: &[Register],
) -> Result<(), NoMemory>
    ensures { OnOk result (list.new ≡ list.old ++ filter_map (call_post before.now after.now) registers.now) }
{
    for register in registers {
        push_some(list, call_post(before, after, register))?;
    }
    Ok(())
}

fn push_replies(list: &mut PostList, before: &Service, replies: &[Reply]) -> Result<(), NoMemory>
    ensures { OnOk result (list.new ≡ list.old ++ filter_map (reply_post before.now) replies.now) }
{
    for reply in replies {
        push_some(list, reply_post(before, reply))?;
    }
    Ok(())
}

/// The posts of a service that are outstanding after a repair and weren't before: calls by their numbers, then replies by
/// their entries.
pub(crate) fn new_posts(
    alloc: Global,
    before: &Service,
    after: &Service,
) -> Result<PostList, NoMemory>
    ensures { IfOk result (λ list. list ≡ new_posts before.now after.now) }
{
    let mut list = PostList::new(alloc);
    push_calls(&mut list, before, after, after.registers().as_slice())?;
    push_replies(&mut list, before, after.replies().as_slice())?;
    Ok(list)
}
