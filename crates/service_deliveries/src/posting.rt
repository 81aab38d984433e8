// What comes back of a post.
ghost use Rattle.std.specs.Prelude.{◌≡◌, true, Ok, Some, IfOk, OnErr};
ghost use Rattle.service_events.specs.State.{after};
ghost use Rattle.service_events.specs.Doing.{Does, post_memory};
ghost use Rattle.service_events.specs.Messages.{had, held_back, held_where, is_now, posted, posted_event};
ghost use Rattle.service_parts.specs.Parts.{kept};
ghost use Rattle.service_parts.specs.Services.{HasRoom, IsService};
ghost use Rattle.service_deliveries.specs.Posting.{with_confirmed};

use crate::fetching::fetched;
use crate::noting::note_at_once;
use crate::posts::{hold_of, is_now, is_own};
use call_registers::Hold;
use journal_rows::{AckHow, Row, SawAckRow, WasConfirmedRow};
use lang_core::NoMemory;
use repair_messages::{Ack, Confirm, Post};
use service_events::{PostRefused, PostReply, Posted};
use service_parts::{Parts, reserve};
use std::alloc::Global;

// ---- an acknowledgement

fn acked(alloc: Global, parts: &mut Parts, ack: &Ack) -> Result<Posted, NoMemory>
    requires { HasRoom parts.old }
    ensures ok { (post : Post) → IfOk result (λ p. after (kept parts.new) (Ok p) ≡ posted (kept parts.old) post (PostReply.Acked ack.now)) }
    ensures err { OnErr result (kept parts.new ≡ kept parts.old) }
    ensures room { HasRoom parts.new }
{
    let mut rows = Vec::new(alloc);
    rows.push(Row::SawAck(SawAckRow {
        number: ack.number,
        version: ack.version,
        how: AckHow::ToPost,
    }))?;
    note_at_once(alloc, parts, rows)?;
    Ok(Posted::Acked)
}

// ---- a confirmation

// The reply of the entry that this post is about has that answer confirmed, from the journal's next row on.
fn confirm_reply(parts: &mut Parts, post: &Post, answer_version: u64)
    requires { had (kept parts.old) post.now ≡ true }
    ensures kept { kept parts.new ≡ with_confirmed post.now answer_version (kept parts.old) }
    ensures journal { parts.new.journal ≡ parts.old.journal }
    ensures flights { parts.new.flights ≡ parts.old.flights }
{
    let next = parts.journal.len();
    match post {
        Post::Set(_) => {}
        Post::Token(token) => parts.replies.confirmed(token.id, answer_version, next),
        Post::Fetch(_) => {}
    }
}

fn confirmed(parts: &mut Parts, post: &Post, confirm: Confirm) -> Result<Posted, NoMemory>
    requires had { had (kept parts.old) post.now ≡ true }
    requires room { HasRoom parts.old }
    ensures ok { IfOk result (λ p. after (kept parts.new) (Ok p) ≡ posted (kept parts.old) post.now (PostReply.Confirmed confirm)) }
    ensures err { OnErr result (kept parts.new ≡ kept parts.old) }
    ensures room { HasRoom parts.new }
{
    reserve(&mut parts.journal, 1, parts.flights.as_slice())?;
    confirm_reply(parts, post, confirm.answer_version);
    let row = Row::WasConfirmed(WasConfirmedRow {
        caller: confirm.caller,
        number: confirm.number,
        answer_version: confirm.answer_version,
    });
    parts.journal.push(row).unwrap();
    Ok(Posted::Confirmed)
}

// ---- a refusal

// The post isn't sent before it is released, or has a new version or answer.
fn hold_back(parts: &mut Parts, post: &Post, hold: Hold)
    requires { is_now (kept parts.old) post.now ≡ true }
    ensures kept { kept parts.new ≡ held_back (kept parts.old) post.now hold }
    ensures room { HasRoom parts.old → HasRoom parts.new }
{
    match post {
        Post::Set(set) => parts.registers.hold(set.number, hold),
        Post::Token(token) => parts.replies.hold_reply(token.id, hold),
        Post::Fetch(_) => {}
    }
}

fn hold_now(parts: &mut Parts, post: &Post, hold: Hold) -> Posted
    ensures held { after (kept parts.new) (Ok result) ≡ held_where (kept parts.old) post.now (Some hold) }
    ensures room { HasRoom parts.old → HasRoom parts.new }
{
    if is_now(parts, post) {
        hold_back(parts, post, hold);
        Posted::Held
    } else {
        Posted::Left
    }
}

fn hold_where(parts: &mut Parts, post: &Post, hold: Option<Hold>) -> Posted
    ensures held { after (kept parts.new) (Ok result) ≡ held_where (kept parts.old) post.now hold }
    ensures room { HasRoom parts.old → HasRoom parts.new }
{
    match hold {
        None => Posted::Left,
        Some(hold) => hold_now(parts, post, hold),
    }
}

// ---- any reply

// A reply to a post that the service had.
fn met(alloc: Global, parts: &mut Parts, post: &Post, reply: PostReply) -> Result<Posted, NoMemory>
    requires had { had (kept parts.old) post.now ≡ true }
    requires room { HasRoom parts.old }
    ensures ok { IfOk result (λ p. after (kept parts.new) (Ok p) ≡ posted (kept parts.old) post.now reply) }
    ensures err { OnErr result (kept parts.new ≡ kept parts.old) }
    ensures room { HasRoom parts.new }
{
    match reply {
        PostReply::Acked(ack) => acked(alloc, parts, &ack),
        PostReply::Confirmed(confirm) => confirmed(parts, post, confirm),
        PostReply::Given(answer) => fetched(alloc, parts, &answer),
        PostReply::Refused { word, number } => Ok(hold_where(parts, post, hold_of(word, number))),
        PostReply::Lost(_) => Ok(Posted::Left),
    }
}

fn meet(
    alloc: Global,
    parts: &mut Parts,
    post: &Post,
    reply: PostReply,
) -> Result<Posted, PostRefused>
    requires { HasRoom parts.old }
    ensures does { Does post_memory (posted_event (kept parts.old) post.now reply) (kept parts.old) result (kept parts.new) }
    ensures room { HasRoom parts.new }
{
    if is_own(parts, post, &reply) {
        let posted = met(alloc, parts, post, reply)?;
        Ok(posted)
    } else {
        Err(PostRefused::Foreign)
    }
}

/// Something came back of a post. It is refused where the service never had that post at that version, or the reply is to
/// another one.
pub fn posted(
    alloc: Global,
    parts: &mut Parts,
    post: &Post,
    reply: PostReply,
) -> Result<Posted, PostRefused>
    requires { IsService parts.old }
    ensures does { Does post_memory (posted_event (kept parts.old) post.now reply) (kept parts.old) result (kept parts.new) }
    ensures service { IsService parts.new }
{
    meet(alloc, parts, post, reply)
}
