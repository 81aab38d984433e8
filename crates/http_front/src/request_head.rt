// The head of a request.
ghost use Rattle.std.specs.Prelude.{◌≡◌, ◌⊎◌, ◌≤◌, length, take, map, All, IsSome, IfOk, IfSome, IsErrOf, IsUtf8, Err};
ghost use Rattle.httparse.specs.Grammar.{RequestHead};
ghost use Rattle.httparse.specs.Spans.{IsRequestOf, IsRequestWithin, IsHeaderWithin, IsWithin, header_bytes, span_bytes};
ghost use Rattle.http_header.specs.HeaderMap.{Entries};
ghost use Rattle.http_front.specs.Answers.{UnlessInterrupted};
ghost use Rattle.http_front.specs.Fields.{FitsMap, map_of};
ghost use Rattle.http_front.specs.Requests.{IsRequestHeadOf, StartsRequest, start_from};

use crate::fields::map_of;
use crate::length::body_length;
use crate::message::FrontRefused;
use crate::texts::known_text;
use http_header::HeaderMap;
use httparse::Status;
use httparse::spans::{EMPTY_HEADER_SPAN, HeaderSpan, RequestSpans, parse_request};
use lang_base::Text;
use lang_tree::{Method, is_path, method_named};
use std::alloc::Global;

/// The most fields of a head.
pub const MOST_FIELDS: usize = 64;

/// What the head of a request says: all of the request but its body, and the body's length.
#[derive(Drop)]
pub struct RequestStart {
    pub method: Method,
    pub path: Text,
    pub head: HeaderMap,
    pub length: u64,
}

// The places of a head's parts, where the bytes as a whole are one.
fn spans_of(bytes: &[u8], fields: &mut [HeaderSpan]) -> Option<RequestSpans>
    requires { length fields.old ≡ 64 }
    ensures found { (head : RequestHead) → IsRequestHeadOf bytes.now head → IsSome result }
    ensures within { IfSome result (IsRequestWithin bytes.now fields.new) }
    ensures parts { IfSome result (λ spans. (spans.len ≡ length bytes.now) × IsRequestOf bytes.now fields.new spans) }
{
    match parse_request(bytes, fields) {
        Ok(Status::Complete(head)) if head.len == bytes.len() => Some(head),
        _ => None,
    }
}

// What these parts say of a request.
fn start_from(method: &[u8], target: Text, head: HeaderMap) -> Result<RequestStart, FrontRefused>
    ensures answer { result ≡ start_from method.now target head }
    ensures short { IfOk result (λ start. start.length ≤ 65536) }
    ensures unread { ¬ (IsErrOf result FrontRefused.ReadFault) }
{
    if !is_path(&target) {
        return Err(FrontRefused::BadHead);
    }
    let Some(method) = method_named(method) else {
        return Err(FrontRefused::Method);
    };
    match body_length(&head) {
        Err(why) => Err(why),
        Ok(length) => Ok(RequestStart {
            method,
            path: target,
            head,
            length,
        }),
    }
}

fn start_at(
    alloc: Global,
    bytes: &[u8],
    fields: &[HeaderSpan],
    spans: RequestSpans,
) -> Result<RequestStart, FrontRefused>
    requires method { IsWithin (length bytes.now) spans.method }
    requires path { IsWithin (length bytes.now) spans.path }
    requires text { IsUtf8 (span_bytes bytes.now spans.path) }
    requires fields { All (IsHeaderWithin (length bytes.now)) fields.now }
    requires short { length bytes.now ≤ 16384 }
    requires fit { All FitsMap (map (header_bytes bytes.now) fields.now) }
    requires few { length fields.now ≤ 64 }
    ensures answer { UnlessInterrupted result (result ≡ start_from (span_bytes bytes.now spans.method)
        (span_bytes bytes.now spans.path) (map_of (map (header_bytes bytes.now) fields.now))) }
    ensures short { IfOk result (λ start. start.length ≤ 65536) }
    ensures unread { ¬ (IsErrOf result FrontRefused.ReadFault) }
{
    let target = known_text(alloc, spans.path.of(bytes))?;
    let head = map_of(alloc, bytes, fields)?;
    start_from(spans.method.of(bytes), target, head)
}

/// What the bytes up to a head's end say of a request.
pub fn request_start(alloc: Global, bytes: &[u8]) -> Result<RequestStart, FrontRefused>
    requires { length bytes.now ≤ 16384 }
    ensures answer { UnlessInterrupted result (StartsRequest bytes.now result) }
    ensures short { IfOk result (λ start. start.length ≤ 65536) }
    ensures unread { ¬ (IsErrOf result FrontRefused.ReadFault) }
{
    let mut fields = [EMPTY_HEADER_SPAN; MOST_FIELDS];
    match spans_of(bytes, &mut fields) {
        None => Err(FrontRefused::BadHead),
        Some(spans) => start_at(alloc, bytes, &fields[..spans.headers], spans),
    }
}
