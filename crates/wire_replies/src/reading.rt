// Replies, read.
ghost use Rattle.std.specs.Prelude.{◌≡◌, false, IsErrOf};
ghost use Rattle.wire_fields.specs.Fits.{lacks_memory};
ghost use Rattle.wire_replies.specs.Reading.{replied, reply_of};

use crate::building::reply_in;
use crate::kinds::{Asking, ReplyKind, reply_kind};
use crate::refusals::reply_refusal;
use crate::replies::Outgoing;
use http_front::WireResponse;
use lang_core::{Name, Text};
use std::alloc::Global;
use wire_fields::WireRefused;

fn read_kind(
    alloc: Global,
    me: &Name,
    peer: &Name,
    secret: &Text,
    kind: ReplyKind,
    response: &WireResponse,
) -> Result<Outgoing, WireRefused>
    ensures { lacks_memory result ≡ false → result ≡ reply_of me.now peer.now secret.now kind response.now }
{
    match reply_refusal(alloc, me.as_str(), peer.as_str(), secret, kind, response) {
        Err(_) => Err(WireRefused::NoMemory),
        Ok(Some(why)) => Err(why),
        Ok(None) => match reply_in(alloc, kind, response) {
            Ok(reply) => Ok(reply),
            Err(_) => Err(WireRefused::NoMemory),
        },
    }
}

/// What `peer`, which seals with this secret, replies to what the service `me` asked, or the first refusal: of the
/// header fields in the order of the table, of how they fit, of the seal. A reply with `Aire-Refused` is a refusal,
/// whatever was asked. The status of an acknowledgement, a confirmation or a refusal and the body of any of them aren't looked at, but
/// for the seal. `NoMemory` may come in place of any, and `UnknownKind`
/// never comes.
pub fn read_reply(
    alloc: Global,
    me: &Name,
    peer: &Name,
    secret: &Text,
    asked: &Asking,
    response: &WireResponse,
) -> Result<Outgoing, WireRefused>
    ensures reply { lacks_memory result ≡ false
        → result ≡ replied me.now peer.now secret.now asked.now response.now }
    ensures known { ¬ (IsErrOf result WireRefused.UnknownKind) }
{
    let kind = reply_kind(*asked, &response.head);
    read_kind(alloc, me, peer, secret, kind, response)
}
