// What is wrong with a response's head, and with its seal.
ghost use Rattle.std.specs.Prelude.{◌≡◌, ◌&&◌, IfOk};
ghost use Rattle.lang_base.specs.Texts.{same_text};
ghost use Rattle.peer_seal.specs.Seal.{seal_digits};
ghost use Rattle.wire_fields.specs.Rows.{text_at};
ghost use Rattle.wire_replies.specs.Kinds.{reply_headers};
ghost use Rattle.wire_replies.specs.Reading.{ids_refusal, reply_head_refusal, reply_refusal, reply_seal_refusal, sealed_bytes};

use crate::kinds::{ReplyKind, reply_headers};
use http_front::{AireHeader, WireResponse};
use http_header::HeaderMap;
use lang_core::{NoMemory, Text};
use peer_seal::check;
use std::alloc::Global;
use wire_fields::{
    SEAL_HEADER, WireRefused, dest_refusal, first_of, first_refusal, sealed_response, side_refusal,
    text_at,
};

fn ids_refusal(kind: ReplyKind, head: &HeaderMap) -> Option<WireRefused>
    ensures { result ≡ ids_refusal kind head.now }
{
    match kind {
        ReplyKind::Live => first_of(
            side_refusal(head, AireHeader::RequestId, AireHeader::From),
            side_refusal(head, AireHeader::ResponseId, AireHeader::Dest),
        ),
        ReplyKind::Ack => side_refusal(head, AireHeader::ResponseId, AireHeader::Dest),
        ReplyKind::Confirm => side_refusal(head, AireHeader::ResponseId, AireHeader::From),
        ReplyKind::Refusal => None,
    }
}

fn reply_head_refusal(me: &str, kind: ReplyKind, head: &HeaderMap) -> Option<WireRefused>
    ensures { result ≡ reply_head_refusal me.now kind head.now }
{
    let sides = first_of(dest_refusal(me, head), ids_refusal(kind, head));
    let seal = first_refusal(head, true, SEAL_HEADER.as_slice());
    let fields = first_refusal(head, true, reply_headers(kind));
    first_of(fields, first_of(seal, sides))
}

fn is_sealed(secret: &Text, bytes: &[u8], head: &HeaderMap) -> bool
    ensures { result ≡ same_text (text_at head.now AireHeader.Seal) (seal_digits secret.now bytes.now) }
{
    check(secret.as_bytes(), bytes, text_at(head, AireHeader::Seal))
}

fn reply_seal_refusal(
    alloc: Global,
    peer: &str,
    secret: &Text,
    kind: ReplyKind,
    response: &WireResponse,
) -> Result<Option<WireRefused>, NoMemory>
    ensures { IfOk result (λ refusal. refusal ≡ reply_seal_refusal peer.now secret.now kind response.now) }
{
    let bytes = sealed_response(alloc, response, reply_headers(kind))?;
    let head = &response.head;
    if text_at(head, AireHeader::From) == peer && is_sealed(secret, bytes.as_slice(), head) {
        Ok(None)
    } else {
        Ok(Some(WireRefused::Seal))
    }
}

/// Of a reply of this kind: of its fields in the order of the table, of how they fit, of its seal.
pub fn reply_refusal(
    alloc: Global,
    me: &str,
    peer: &str,
    secret: &Text,
    kind: ReplyKind,
    response: &WireResponse,
) -> Result<Option<WireRefused>, NoMemory>
    ensures { IfOk result (λ refusal. refusal ≡ reply_refusal me.now peer.now secret.now kind response.now) }
{
    match reply_head_refusal(me, kind, &response.head) {
        Some(why) => Ok(Some(why)),
        None => reply_seal_refusal(alloc, peer, secret, kind, response),
    }
}
