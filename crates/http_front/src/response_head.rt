// The head of a response.
ghost use Rattle.std.specs.Prelude.{◌≡◌, ◌⊎◌, ◌≤◌, length, map, All, IsSome, IfOk, IfSome, IsErrOf, Err};
ghost use Rattle.httparse.specs.Grammar.{ResponseHead};
ghost use Rattle.httparse.specs.Spans.{IsResponseOf, IsResponseWithin, IsHeaderWithin, header_bytes};
ghost use Rattle.http_front.specs.Answers.{UnlessInterrupted};
ghost use Rattle.http_front.specs.Fields.{FitsMap, map_of};
ghost use Rattle.http_front.specs.Responses.{IsResponseHeadOf, StartsResponse, start_from};

use crate::fields::map_of;
use crate::length::body_length;
use crate::message::FrontRefused;
use crate::request_head::MOST_FIELDS;
use http_header::HeaderMap;
use httparse::Status;
use httparse::spans::{EMPTY_HEADER_SPAN, HeaderSpan, ResponseSpans, parse_response};
use std::alloc::Global;

/// What the head of a response says: all of the response but its body, and the body's length.
#[derive(Drop)]
pub struct ResponseStart {
    pub status: u16,
    pub head: HeaderMap,
    pub length: u64,
}

// The places of a head's parts, where the bytes as a whole are one.
fn spans_of(bytes: &[u8], fields: &mut [HeaderSpan]) -> Option<ResponseSpans>
    requires { length fields.old ≡ 64 }
    ensures found { (head : ResponseHead) → IsResponseHeadOf bytes.now head → IsSome result }
    ensures within { IfSome result (IsResponseWithin bytes.now fields.new) }
    ensures parts { IfSome result (λ spans. (spans.len ≡ length bytes.now) × IsResponseOf bytes.now fields.new spans) }
{
    match parse_response(bytes, fields) {
        Ok(Status::Complete(head)) if head.len == bytes.len() => Some(head),
        _ => None,
    }
}

// What these parts say of a response.
fn start_from(status: u16, head: HeaderMap) -> Result<ResponseStart, FrontRefused>
    ensures answer { result ≡ start_from status head }
    ensures short { IfOk result (λ start. start.length ≤ 65536) }
    ensures unread { ¬ (IsErrOf result FrontRefused.ReadFault) }
{
    match body_length(&head) {
        Err(why) => Err(why),
        Ok(length) => Ok(ResponseStart {
            status,
            head,
            length,
        }),
    }
}

fn start_at(
    alloc: Global,
    bytes: &[u8],
    fields: &[HeaderSpan],
    status: u16,
) -> Result<ResponseStart, FrontRefused>
    requires fields { All (IsHeaderWithin (length bytes.now)) fields.now }
    requires short { length bytes.now ≤ 16384 }
    requires fit { All FitsMap (map (header_bytes bytes.now) fields.now) }
    requires few { length fields.now ≤ 64 }
    ensures answer { UnlessInterrupted result
        (result ≡ start_from status (map_of (map (header_bytes bytes.now) fields.now))) }
    ensures short { IfOk result (λ start. start.length ≤ 65536) }
    ensures unread { ¬ (IsErrOf result FrontRefused.ReadFault) }
{
    let head = map_of(alloc, bytes, fields)?;
    start_from(status, head)
}

/// What the bytes up to a head's end say of a response.
pub fn response_start(alloc: Global, bytes: &[u8]) -> Result<ResponseStart, FrontRefused>
    requires { length bytes.now ≤ 16384 }
    ensures answer { UnlessInterrupted result (StartsResponse bytes.now result) }
    ensures short { IfOk result (λ start. start.length ≤ 65536) }
    ensures unread { ¬ (IsErrOf result FrontRefused.ReadFault) }
{
    let mut fields = [EMPTY_HEADER_SPAN; MOST_FIELDS];
    match spans_of(bytes, &mut fields) {
        None => Err(FrontRefused::BadHead),
        Some(spans) => start_at(alloc, bytes, &fields[..spans.headers], spans.code),
    }
}
