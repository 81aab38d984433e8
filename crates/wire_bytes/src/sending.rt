// The bytes that a service sends to a peer's door, and those with which it replies.
ghost use Rattle.std.specs.Prelude.{◌≡◌, IfOk};
ghost use Rattle.std.specs.Option.{ForSome, option_copied};
ghost use Rattle.http_front.specs.Writing.{request_bytes};
ghost use Rattle.wire_replies.specs.Writing.{IsFor};
ghost use Rattle.aire_wire.specs.ReadBack.{CallBytesReadBack};
ghost use Rattle.aire_wire.specs.Written.{written_call};
ghost use Rattle.wire_bytes.specs.Doors.{notifier_of, with_host};
ghost use Rattle.wire_bytes.specs.Said.{CallIsSaid, PostIsSaid, ReplyIsSaid};
ghost use Rattle.wire_bytes.specs.Sending.{call_bytes, post_bytes, reply_bytes};

use crate::doors::{add_host, notifier_of};
use aire_wire::{Outgoing, write_call, write_post_request, write_reply};
use http_front::{WireRequest, request_bytes, response_bytes};
use lang_core::{Bytes, Name, NoMemory, Text};
use repair_messages::{Post, SetMessage};
use std::alloc::Global;

fn sent(alloc: Global, mut request: WireRequest, address: &str) -> Result<Bytes, NoMemory>
    ensures { IfOk result (λ bytes. bytes ≡ request_bytes (with_host address.now request)) }
{
    add_host(alloc, &mut request, address)?;
    request_bytes(alloc, &request)
}

fn call(
    alloc: Global,
    door: &Text,
    secret: &Text,
    set: &SetMessage,
) -> Result<WireRequest, NoMemory>
    ensures written { IfOk result (λ written. written ≡ written_call set.now (notifier_of door.now) secret.now) }
    ensures read { IfOk result (CallBytesReadBack set.now (notifier_of door.now) secret.now) }
{
    let notifier = notifier_of(alloc, door)?;
    write_call(alloc, set, &notifier, secret)
}

/// The bytes of a live call to the service at this address, from the one at `door`, which seals with `secret`. Where its
/// parts have their forms and head and body are within the limits, they say that call to the service that it is for.
pub fn call_bytes(
    alloc: Global,
    address: &Text,
    door: &Text,
    secret: &Text,
    set: &SetMessage,
) -> Result<Bytes, NoMemory>
    ensures bytes { IfOk result (λ bytes. bytes ≡ call_bytes address.now door.now secret.now set.now) }
    ensures said { IfOk result (λ bytes. CallIsSaid address.now door.now secret.now set.now) }
{
    let request = call(alloc, door, secret, set)?;
    sent(alloc, request, address.as_str())
}

/// The bytes of a post to the service at this address, from one that seals with `secret`. They say, likewise, that message.
pub fn post_bytes(
    alloc: Global,
    address: &Text,
    secret: &Text,
    post: &Post,
) -> Result<Bytes, NoMemory>
    ensures bytes { IfOk result (λ bytes. bytes ≡ post_bytes address.now secret.now post.now) }
    ensures said { IfOk result (λ bytes. PostIsSaid address.now secret.now post.now) }
{
    let request = write_post_request(alloc, post, secret)?;
    sent(alloc, request, address.as_str())
}

/// The bytes of a reply of the service `me`, which seals with `secret`, to a peer, or, where it is none, to another client.
/// To the peer they reply that.
pub fn reply_bytes(
    alloc: Global,
    me: &Name,
    to: Option<&Name>,
    secret: &Text,
    reply: &Outgoing,
) -> Result<Bytes, NoMemory>
    requires { IsFor me.now (option_copied to) reply.now }
    ensures bytes { IfOk result (λ bytes. bytes ≡ reply_bytes me.now (option_copied to.entry) secret.now reply.now) }
    ensures said { IfOk result (λ bytes. ForSome (option_copied to.entry) (λ peer. ReplyIsSaid me.now peer secret.now reply.now)) }
{
    let response = write_reply(alloc, me, to, reply, secret)?;
    response_bytes(alloc, &response)
}
