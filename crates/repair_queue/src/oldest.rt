// The oldest post that is outstanding.
ghost use Rattle.std.specs.Prelude.{◌≡◌, ◌↔◌, [], None, IfSome, find, fold, map, option_map};
ghost use Rattle.std.specs.Option.{option_copied};
ghost use Rattle.service_events.specs.Flying.{awaited};
ghost use Rattle.service_events.specs.Posts.{Aged as OldPost, older, outstanding};
ghost use Rattle.lang_lists.specs.declared.age_keys.AgeKey.{AgeKey as Key};
ghost use Rattle.repair_queue.specs.Queue.{IsOldest, answers_out, fetches_out, first_name, goes_out, older_of, with_call, with_fetch, with_reply};

use crate::outstanding::{
    Aged, call_of, fetch_of, is_owed, is_to_fetch, is_unacknowledged, reply_of,
};
use call_registers::{Registers, Replies};
use lang_core::Name;
use lang_lists::AgeKey;
use repair_messages::PostName;
use service_events::Flight;

fn older(first: Option<Aged>, post: Aged) -> Option<Aged>
    ensures { result ≡ older first post }
{
    match first {
        None => Some(post),
        Some(first) => {
            if post.since < first.since {
                Some(post)
            } else {
                Some(first)
            }
        }
    }
}

// The older of both, and the first where they are as old.
fn older_of(first: Option<Aged>, post: Option<Aged>) -> Option<Aged>
    ensures { result ≡ older_of first post }
{
    match post {
        None => first,
        Some(post) => older(first, post),
    }
}

// Whether the call of a number is outstanding.
fn goes_out(registers: &Registers, flights: &[Flight], dest: &Name, number: u64) -> bool
    ensures { result ≡ goes_out (map awaited flights.now) dest.now registers.now.list number }
{
    match registers.get(number) {
        None => false,
        Some(register) => is_unacknowledged(register, flights, dest),
    }
}

// Whether the reply of an entry is outstanding.
fn answers_out(replies: &Replies, dest: &Name, id: u64) -> bool
    ensures { result ≡ answers_out dest.now replies.now.list id }
{
    match replies.get(id) {
        None => false,
        Some(reply) => is_owed(reply, dest),
    }
}

// Whether the fetch of a number is outstanding.
fn fetches_out(registers: &Registers, dest: &Name, number: u64) -> bool
    ensures { result ≡ fetches_out dest.now registers.now.list number }
{
    match registers.get(number) {
        None => false,
        Some(register) => is_to_fetch(register, dest),
    }
}

// The first of these keys whose call is outstanding.
fn first_call<'a>(
    keys: &'a [AgeKey],
    registers: &Registers,
    flights: &[Flight],
    dest: &Name,
) -> Option<&'a AgeKey>
    ensures { option_copied result ≡ find (λ (k : Key). goes_out (map awaited flights.now) dest.now registers.now.list k.number) keys.now }
{
    keys.iter()
        .find(|key| goes_out(registers, flights, dest, key.number))
}

fn oldest_call(registers: &Registers, flights: &[Flight], dest: &Name) -> Option<Aged>
    ensures { result ≡ fold (with_call (map awaited flights.now) dest.now) None registers.now.list }
{
    match first_call(registers.waiting(dest), registers, flights, dest) {
        None => None,
        Some(key) => Some(call_of(key)),
    }
}

// The first of these keys whose reply is outstanding.
fn first_reply<'a>(keys: &'a [AgeKey], replies: &Replies, dest: &Name) -> Option<&'a AgeKey>
    ensures { option_copied result ≡ find (λ (k : Key). answers_out dest.now replies.now.list k.number) keys.now }
{
    keys.iter()
        .find(|key| answers_out(replies, dest, key.number))
}

fn oldest_reply(replies: &Replies, dest: &Name) -> Option<Aged>
    ensures { result ≡ fold (with_reply dest.now) None replies.now.list }
{
    match first_reply(replies.due_to(dest), replies, dest) {
        None => None,
        Some(key) => Some(reply_of(key)),
    }
}

// The first of these keys whose fetch is outstanding.
fn first_fetch<'a>(keys: &'a [AgeKey], registers: &Registers, dest: &Name) -> Option<&'a AgeKey>
    ensures { option_copied result ≡ find (λ (k : Key). fetches_out dest.now registers.now.list k.number) keys.now }
{
    keys.iter()
        .find(|key| fetches_out(registers, dest, key.number))
}

fn oldest_fetch(registers: &Registers, dest: &Name) -> Option<Aged>
    ensures { result ≡ fold (with_fetch dest.now) None registers.now.list }
{
    match first_fetch(registers.fetched(dest), registers, dest) {
        None => None,
        Some(key) => Some(fetch_of(key)),
    }
}

fn name_of(first: Option<Aged>) -> Option<PostName>
    ensures { result ≡ option_map (λ (p : OldPost). p.name) first }
{
    match first {
        None => None,
        Some(first) => Some(first.name),
    }
}

/// The post that goes to this service next, of a service with these registers, replies and flights: the oldest that is
/// outstanding; None exactly where none is. Outstanding are the calls to it whose last version isn't acknowledged, unless
/// held or awaited by a flight, the due replies to it that have an answer, unless held, and the wanted calls to it of which
/// an answer was announced above the one that is held. It takes no memory.
pub fn next(
    registers: &Registers,
    replies: &Replies,
    flights: &[Flight],
    dest: &Name,
) -> Option<PostName>
    ensures next { result ≡ first_name (outstanding registers.now.list replies.now.list (map awaited flights.now) dest.now) }
    ensures none { (result ≡ None) ↔ (outstanding registers.now.list replies.now.list (map awaited flights.now) dest.now ≡ []) }
    ensures oldest { IfSome result (λ name. IsOldest name (outstanding registers.now.list replies.now.list (map awaited flights.now) dest.now)) }
{
    let call = oldest_call(registers, flights, dest);
    let reply = oldest_reply(replies, dest);
    let fetch = oldest_fetch(registers, dest);
    let first = older_of(call, reply);
    name_of(older_of(first, fetch))
}
