// What is wrong with a request's head, and with its seal.
ghost use Rattle.std.specs.Prelude.{◌≡◌, IfOk};
ghost use Rattle.std.specs.Option.{option_copied};
ghost use Rattle.aire_wire.specs.Incoming.{call_head_refusal, console_head_refusal, console_seal_refusal, desired_refusal, fetch_head_refusal, fetch_sides, is_deletion, outside_refusal, says_replace_response, seal_refusal, sealed_by, set_fields, set_head_refusal, set_word, token_head_refusal, token_sides};

use crate::texts::ends_with_name;
use http_front::{AireHeader, WireRequest};
use http_header::HeaderMap;
use lang_core::{NoMemory, Text};
use peer_seal::check;
use std::alloc::Global;
use wire_fields::{
    CALL_HEADERS, CONSOLE_HEADERS, DESIRED_HEADERS, FETCH_HEADERS, NEIGHBOUR_HEADERS, SEAL_HEADER,
    SET_HEADERS, Secrets, TOKEN_HEADERS, WireRefused, bad_unless, dest_refusal, first_of,
    first_refusal, sealed_request, service_in, side_refusal, text_at, version_at,
};

const WHO_HEADER: [AireHeader; 1] = [AireHeader::Who];

// The sealed fields of a deletion, and of another set message.
const DELETION_FIELDS: [AireHeader; 8] = [
    AireHeader::From,
    AireHeader::Dest,
    AireHeader::ResponseId,
    AireHeader::Repair,
    AireHeader::Version,
    AireHeader::Who,
    AireHeader::Before,
    AireHeader::After,
];

const SET_FIELDS: [AireHeader; 12] = [
    AireHeader::From,
    AireHeader::Dest,
    AireHeader::ResponseId,
    AireHeader::Repair,
    AireHeader::Version,
    AireHeader::Who,
    AireHeader::Method,
    AireHeader::Path,
    AireHeader::RequestWho,
    AireHeader::Chain,
    AireHeader::Before,
    AireHeader::After,
];

/// Of a request from outside.
pub fn outside_refusal(head: &HeaderMap) -> Option<WireRefused>
    ensures { result ≡ outside_refusal head.now }
{
    first_refusal(head, false, WHO_HEADER.as_slice())
}

/// Of a live call.
pub fn call_head_refusal(me: &str, head: &HeaderMap) -> Option<WireRefused>
    ensures { result ≡ call_head_refusal me.now head.now }
{
    let from = text_at(head, AireHeader::From);
    let chain = bad_unless(
        AireHeader::Chain,
        ends_with_name(text_at(head, AireHeader::Chain), from),
    );
    let caller = service_in(text_at(head, AireHeader::ResponseId)) == from;
    let sides = first_of(bad_unless(AireHeader::ResponseId, caller), chain);
    let dest = bad_unless(AireHeader::Dest, text_at(head, AireHeader::Dest) == me);
    let seal = first_refusal(head, true, SEAL_HEADER.as_slice());
    let fields = first_refusal(head, true, CALL_HEADERS.as_slice());
    first_of(fields, first_of(seal, first_of(dest, sides)))
}

/// Whether a set message is a deletion.
pub fn is_deletion(head: &HeaderMap) -> bool
    ensures { result ≡ is_deletion head.now }
{
    text_at(head, AireHeader::Repair) == "delete"
}

fn desired_refusal(deletion: bool, head: &HeaderMap) -> Option<WireRefused>
    ensures { result ≡ desired_refusal deletion head.now }
{
    if deletion {
        None
    } else {
        first_refusal(head, true, DESIRED_HEADERS.as_slice())
    }
}

fn set_word(deletion: bool, version: u64) -> &'static str
    ensures { result.now ≡ set_word deletion version }
{
    if deletion {
        "delete"
    } else if version == 1 {
        "create"
    } else {
        "replace"
    }
}

/// Of a set message.
pub fn set_head_refusal(me: &str, head: &HeaderMap) -> Option<WireRefused>
    ensures { result ≡ set_head_refusal me.now head.now }
{
    let deletion = is_deletion(head);
    let caller = service_in(text_at(head, AireHeader::ResponseId))
        == text_at(head, AireHeader::From);
    let word = set_word(deletion, version_at(head, AireHeader::Version));
    let repair = bad_unless(
        AireHeader::Repair,
        text_at(head, AireHeader::Repair) == word,
    );
    let sides = first_of(repair, bad_unless(AireHeader::ResponseId, caller));
    let dest = bad_unless(AireHeader::Dest, text_at(head, AireHeader::Dest) == me);
    let seal = first_refusal(head, true, SEAL_HEADER.as_slice());
    let neighbours = first_refusal(head, false, NEIGHBOUR_HEADERS.as_slice());
    let desired = desired_refusal(deletion, head);
    let fields = first_refusal(head, true, SET_HEADERS.as_slice());
    first_of(
        fields,
        first_of(
            desired,
            first_of(neighbours, first_of(seal, first_of(dest, sides))),
        ),
    )
}

#[tactic(auto, unfolding(crate::specs::Incoming::says_replace_response))]
fn says_replace_response(head: &HeaderMap) -> bool
    ensures { result ≡ says_replace_response head.now }
{
    text_at(head, AireHeader::Repair) == "replace_response"
}

fn token_sides(me: &str, head: &HeaderMap) -> Option<WireRefused>
    ensures { result ≡ token_sides me.now head.now }
{
    let callee = side_refusal(head, AireHeader::RequestId, AireHeader::From);
    let caller = side_refusal(head, AireHeader::ResponseId, AireHeader::Dest);
    let repair = bad_unless(AireHeader::Repair, says_replace_response(head));
    first_of(
        dest_refusal(me, head),
        first_of(repair, first_of(callee, caller)),
    )
}

/// Of a token.
pub fn token_head_refusal(me: &str, head: &HeaderMap) -> Option<WireRefused>
    ensures { result ≡ token_head_refusal me.now head.now }
{
    let sides = token_sides(me, head);
    let seal = first_refusal(head, true, SEAL_HEADER.as_slice());
    let fields = first_refusal(head, true, TOKEN_HEADERS.as_slice());
    first_of(fields, first_of(seal, sides))
}

fn fetch_sides(me: &str, head: &HeaderMap) -> Option<WireRefused>
    ensures { result ≡ fetch_sides me.now head.now }
{
    first_of(
        dest_refusal(me, head),
        side_refusal(head, AireHeader::ResponseId, AireHeader::From),
    )
}

/// Of a fetch.
pub fn fetch_head_refusal(me: &str, head: &HeaderMap) -> Option<WireRefused>
    ensures { result ≡ fetch_head_refusal me.now head.now }
{
    let sides = fetch_sides(me, head);
    let seal = first_refusal(head, true, SEAL_HEADER.as_slice());
    let fields = first_refusal(head, true, FETCH_HEADERS.as_slice());
    first_of(fields, first_of(seal, sides))
}

/// Of what an operator sends.
pub fn console_head_refusal(me: &str, head: &HeaderMap) -> Option<WireRefused>
    ensures { result ≡ console_head_refusal me.now head.now }
{
    let dest = bad_unless(AireHeader::Dest, text_at(head, AireHeader::Dest) == me);
    let seal = first_refusal(head, true, SEAL_HEADER.as_slice());
    let fields = first_refusal(head, true, CONSOLE_HEADERS.as_slice());
    first_of(fields, first_of(seal, dest))
}

fn sealed_by(secret: Option<&Text>, bytes: &[u8], text: &str) -> Option<WireRefused>
    ensures { result ≡ sealed_by (option_copied secret.entry) bytes.now text.now }
{
    match secret {
        None => Some(WireRefused::Seal),
        Some(secret) => {
            if check(secret.as_bytes(), bytes, text) {
                None
            } else {
                Some(WireRefused::Seal)
            }
        }
    }
}

/// Of a seal over these fields, by the peer that the request comes from.
pub fn seal_refusal(
    alloc: Global,
    peers: &Secrets,
    request: &WireRequest,
    fields: &[AireHeader],
) -> Result<Option<WireRefused>, NoMemory>
    ensures { IfOk result (λ refusal. refusal ≡ seal_refusal peers.now request.now fields.now) }
{
    let bytes = sealed_request(alloc, request, fields)?;
    let secret = peers.get(text_at(&request.head, AireHeader::From));
    Ok(sealed_by(
        secret,
        bytes.as_slice(),
        text_at(&request.head, AireHeader::Seal),
    ))
}

/// Of a set message's seal, by the peer that it comes from.
pub fn set_seal_refusal(
    alloc: Global,
    deletion: bool,
    peers: &Secrets,
    request: &WireRequest,
) -> Result<Option<WireRefused>, NoMemory>
    ensures { IfOk result (λ refusal. refusal ≡ seal_refusal peers.now request.now (set_fields deletion)) }
{
    if deletion {
        seal_refusal(alloc, peers, request, DELETION_FIELDS.as_slice())
    } else {
        seal_refusal(alloc, peers, request, SET_FIELDS.as_slice())
    }
}

/// Of an operator's seal.
pub fn console_seal_refusal(
    alloc: Global,
    secret: &Text,
    request: &WireRequest,
) -> Result<Option<WireRefused>, NoMemory>
    ensures { IfOk result (λ refusal. refusal ≡ console_seal_refusal secret.now request.now) }
{
    let bytes = sealed_request(alloc, request, CONSOLE_HEADERS.as_slice())?;
    let sealed = check(
        secret.as_bytes(),
        bytes.as_slice(),
        text_at(&request.head, AireHeader::Seal),
    );
    Ok(if sealed {
        None
    } else {
        Some(WireRefused::Seal)
    })
}
