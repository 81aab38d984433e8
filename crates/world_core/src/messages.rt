// Messages that repair come to a service of a world.
ghost use Rattle.std.specs.Prelude.{◌≡◌, Some};
ghost use Rattle.world_events.specs.Events.{give_served, take_served, take_token_served, posted_served};
ghost use Rattle.world_events.specs.declared.packet.Packet.{Packet};
ghost use Rattle.world_core.specs.Acting.{Serves};

use crate::served::{Served, unwritten};
use lang_core::{Copied, Inputs, NoMemory};
use repair_messages::{Fetch, Post, SetMessage, TokenMessage};
use service_core::Service;
use service_events::{AnswerRefused, GiveRefused, PostRefused, PostReply, TakeRefused};
use std::alloc::Global;
use world_events::{Packet, What};

// The post comes back with this reply.
fn replied(what: What, post: Post, reply: PostReply) -> Served
    ensures { result ≡ record { what = what; packet = Some (Packet.PostReply post reply) } }
{
    Served {
        what,
        packet: Some(Packet::PostReply { post, reply }),
    }
}

/// A version of another service's call comes by a message.
pub(crate) fn take(
    alloc: Global,
    service: &mut Service,
    set: &SetMessage,
    inputs: Inputs,
) -> Result<Served, NoMemory>
    ensures { Serves (take_served set.now service.old inputs) service.old result service.new }
{
    let post = Post::Set(set.copied(alloc)?);
    match service.take(alloc, set, inputs) {
        Ok(taken) => {
            let told = What::Take(Ok(taken.rule));
            Ok(replied(told, post, PostReply::Acked(taken.ack)))
        }
        Err(TakeRefused::NoMemory) => Err(NoMemory),
        Err(why) => Ok(replied(What::Take(Err(why)), post, why.post_reply())),
    }
}

/// A token comes, which announces an answer to a call.
pub(crate) fn take_token(
    alloc: Global,
    service: &mut Service,
    token: &TokenMessage,
) -> Result<Served, NoMemory>
    ensures { Serves (take_token_served token.now service.old) service.old result service.new }
{
    let post = Post::Token(token.copied(alloc)?);
    match service.take_token(alloc, token) {
        Ok(heard) => {
            let told = What::TakeToken(Ok(heard.rule));
            Ok(replied(told, post, PostReply::Confirmed(heard.confirm)))
        }
        Err(AnswerRefused::NoMemory) => Err(NoMemory),
        Err(why) => Ok(replied(What::TakeToken(Err(why)), post, why.post_reply())),
    }
}

/// Another service fetches an answer.
pub(crate) fn give(alloc: Global, service: &mut Service, fetch: &Fetch) -> Result<Served, NoMemory>
    ensures { Serves (give_served fetch.now service.old) service.old result service.new }
{
    let post = Post::Fetch(fetch.copied(alloc)?);
    match service.give(alloc, fetch) {
        Ok(answer) => {
            let told = What::Give(Ok(answer.answer_version));
            Ok(replied(told, post, PostReply::Given(answer)))
        }
        Err(GiveRefused::NoMemory) => Err(NoMemory),
        Err(why) => Ok(replied(What::Give(Err(why)), post, why.post_reply())),
    }
}

/// Something comes back of a post.
pub(crate) fn posted(
    alloc: Global,
    service: &mut Service,
    post: &Post,
    reply: PostReply,
) -> Result<Served, NoMemory>
    ensures { Serves (posted_served post.now reply service.old) service.old result service.new }
{
    match service.posted(alloc, post, reply) {
        Err(PostRefused::NoMemory) => Err(NoMemory),
        posted => Ok(unwritten(What::Posted(posted))),
    }
}

/// A packet comes that brings what comes back of a post.
pub(crate) fn posted_reply(
    alloc: Global,
    service: &mut Service,
    post: &Post,
    reply: &PostReply,
) -> Result<Served, NoMemory>
    ensures { Serves (posted_served post.now reply.now service.old) service.old result service.new }
{
    let reply = reply.copied(alloc)?;
    posted(alloc, service, post, reply)
}
