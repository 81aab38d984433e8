// What a service hears on a connection, and what a peer replies to it.
ghost use Rattle.std.specs.Prelude.{◌≡◌, ◌≤◌, IfOk, IsErrOf};
ghost use Rattle.io_edge.specs.Edge.{ReadFails, TookUpTo};
ghost use Rattle.wire_bytes.specs.Hearing.{IsHeardFrom, IsKnownMessage, IsRepliedFrom, TakenSays};

use aire_wire::{Asking, Incoming, Outgoing, read_incoming, read_reply};
use http_front::{FrontRefused, read_request, read_response};
use io_edge::Source;
use lang_core::{Name, Text};
use std::alloc::Global;
use wire_fields::{Secrets, WireRefused};

/// Why a service hears no message.
#[derive(Clone, Copy, PartialEq, Eq)]
pub enum Unheard {
    /// The bytes are no HTTP request.
    Front(FrontRefused),
    /// The request is no message for this service.
    Wire(WireRefused),
}

/// Reads one message to the service `me`, whose peers have these secrets, and nothing behind it: what `read_request` reads
/// and `read_incoming` makes of it. The bytes that were taken say it alone, and it is known to be what such a message is.
pub fn hear<S: Source>(
    alloc: Global,
    source: &mut S,
    me: &Name,
    peers: &Secrets,
    console: &Text,
) -> Result<Incoming, Unheard>
    ensures heard { IsHeardFrom me.now peers.now console.now (S.reads source.old) (S.reads source.new) result }
    ensures alone { IfOk result (TakenSays me.now peers.now console.now (S.reads source.old) (S.reads source.new)) }
    ensures known { IfOk result (IsKnownMessage me.now peers.now console.now) }
    ensures taken { TookUpTo 81920 (S.reads source.old) (S.reads source.new) }
    ensures whole { (S.reads source.new).whole ≡ (S.reads source.old).whole }
    ensures beside { S.beside source.new ≡ S.beside source.old }

    ensures counted { (S.reads source.old).faults ≤ (S.reads source.new).faults }
    ensures fault { IsErrOf result (Unheard.Front FrontRefused.ReadFault) → ReadFails (S.reads source.old) (S.reads source.new) }
{
    match read_request(alloc, source) {
        Err(why) => Err(Unheard::Front(why)),
        Ok(request) => match read_incoming(alloc, me, peers, console, &request) {
            Ok(message) => Ok(message),
            Err(why) => Err(Unheard::Wire(why)),
        },
    }
}

/// What came back of a message that was sent to a peer.
#[derive(Drop)]
pub struct Replied {
    /// The status of the response.
    pub status: u16,
    /// What it replies, or why it is no reply of that peer.
    pub reply: Result<Outgoing, WireRefused>,
}

/// Reads what `peer`, which seals with `secret`, replies to what the service `me` asked, and nothing behind it: what
/// `read_response` reads and `read_reply` makes of it.
pub fn hear_reply<S: Source>(
    alloc: Global,
    source: &mut S,
    me: &Name,
    peer: &Name,
    secret: &Text,
    asked: Asking,
) -> Result<Replied, FrontRefused>
    ensures replied { IsRepliedFrom me.now peer.now secret.now asked (S.reads source.old) (S.reads source.new) result }
    ensures taken { TookUpTo 81920 (S.reads source.old) (S.reads source.new) }
    ensures whole { (S.reads source.new).whole ≡ (S.reads source.old).whole }
    ensures beside { S.beside source.new ≡ S.beside source.old }

    ensures counted { (S.reads source.old).faults ≤ (S.reads source.new).faults }
    ensures fault { IsErrOf result FrontRefused.ReadFault → ReadFails (S.reads source.old) (S.reads source.new) }
{
    match read_response(alloc, source) {
        Err(why) => Err(why),
        Ok(response) => Ok(Replied {
            status: response.status,
            reply: read_reply(alloc, me, peer, secret, &asked, &response),
        }),
    }
}
