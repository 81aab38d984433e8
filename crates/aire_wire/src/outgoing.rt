// Requests, written.
ghost use Rattle.std.specs.Prelude.{◌≡◌, [], OnOk, IfOk, IsUtf8};
ghost use Rattle.aire_wire.specs.ReadBack.{CallBytesReadBack, CallReadsBack, PostBytesReadBack, PostReadsBack};
ghost use Rattle.aire_wire.specs.Written.{body_of, call_asking, call_fields, fetch_fields, sealed, set_message_fields, token_fields, written_call, written_fetch, written_post, written_set, written_token};
ghost use Rattle.wire_fields.specs.Heads.{with_fields};

use crate::building::texts_of;
use crate::heads::{put_call, put_fetch, put_set, put_token};
use http_front::{AIRE_HEADERS, AireHeader, WireRequest, is_text};
use http_header::HeaderMap;
use lang_core::{Method, NoMemory, Request, Text};
use peer_seal::seal_text;
use repair_messages::{Fetch, Post, SetMessage, TokenMessage};
use std::alloc::Global;
use wire_fields::{put_field, sealed_request};

fn put_seal(alloc: Global, request: &mut WireRequest, secret: &Text) -> Result<(), NoMemory>
    ensures { OnOk result (request.new ≡ sealed secret.now request.old) }
{
    let bytes = sealed_request(alloc, request, AIRE_HEADERS.as_slice())?;
    let digits = seal_text(alloc, secret.as_bytes(), bytes.as_slice())?;
    put_field(
        alloc,
        &mut request.head,
        AireHeader::Seal,
        digits.as_bytes(),
    )
}

fn sealed(
    alloc: Global,
    method: Method,
    path: &str,
    body: &str,
    head: HeaderMap,
    secret: &Text,
) -> Result<WireRequest, NoMemory>
    ensures { IfOk result (λ request. request
        ≡ sealed secret.now (record { method = method; path = path.now; head = head; body = body.now })) }
{
    let texts = texts_of(alloc, path, body)?;
    let mut request = WireRequest {
        method,
        path: texts.first,
        head,
        body: texts.second,
    };
    match put_seal(alloc, &mut request, secret) {
        Ok(()) => Ok(request),
        Err(_) => Err(NoMemory),
    }
}

fn call_head(
    alloc: Global,
    set: &SetMessage,
    request: &Request,
    notifier: &Text,
) -> Result<HeaderMap, NoMemory>
    ensures { IfOk result (λ head. head ≡ with_fields [] (call_fields set.now request.now notifier.now)) }
{
    let mut head = HeaderMap::new(alloc);
    match put_call(alloc, &mut head, set, request, notifier.as_str()) {
        Ok(()) => Ok(head),
        Err(_) => Err(NoMemory),
    }
}

fn call_asking(
    alloc: Global,
    set: &SetMessage,
    request: &Request,
    notifier: &Text,
    secret: &Text,
) -> Result<WireRequest, NoMemory>
    ensures { IfOk result (λ written. written ≡ call_asking set.now notifier.now secret.now request.now) }
{
    let head = call_head(alloc, set, request, notifier)?;
    let path = request.path.as_str();
    sealed(
        alloc,
        request.method,
        path,
        request.body.as_str(),
        head,
        secret,
    )
}

fn set_head(alloc: Global, set: &SetMessage) -> Result<HeaderMap, NoMemory>
    ensures { IfOk result (λ head. head ≡ with_fields [] (set_message_fields set.now)) }
{
    let mut head = HeaderMap::new(alloc);
    match put_set(alloc, &mut head, set) {
        Ok(()) => Ok(head),
        Err(_) => Err(NoMemory),
    }
}

fn body_of(desired: &Option<Request>) -> &str
    ensures { result.now ≡ body_of desired.now }
{
    match desired {
        None => "",
        Some(request) => request.body.as_str(),
    }
}

// Says to the proof that the body of a version is UTF-8, as each text is.
fn set_text(set: &SetMessage)
    ensures { IsUtf8 (body_of set.now.desired) }
{
    is_text(body_of(&set.desired));
}

fn write_set(alloc: Global, set: &SetMessage, secret: &Text) -> Result<WireRequest, NoMemory>
    ensures { IfOk result (λ written. written ≡ written_set set.now secret.now) }
{
    let head = set_head(alloc, set)?;
    let body = body_of(&set.desired);
    sealed(alloc, Method::Post, "/aire/repair", body, head, secret)
}

fn token_head(alloc: Global, token: &TokenMessage) -> Result<HeaderMap, NoMemory>
    ensures { IfOk result (λ head. head ≡ with_fields [] (token_fields token.now)) }
{
    let mut head = HeaderMap::new(alloc);
    match put_token(alloc, &mut head, token) {
        Ok(()) => Ok(head),
        Err(_) => Err(NoMemory),
    }
}

fn write_token(alloc: Global, token: &TokenMessage, secret: &Text) -> Result<WireRequest, NoMemory>
    ensures { IfOk result (λ written. written ≡ written_token token.now secret.now) }
{
    let head = token_head(alloc, token)?;
    sealed(alloc, Method::Post, "/aire/notify", "", head, secret)
}

fn fetch_head(alloc: Global, fetch: &Fetch) -> Result<HeaderMap, NoMemory>
    ensures { IfOk result (λ head. head ≡ with_fields [] (fetch_fields fetch.now)) }
{
    let mut head = HeaderMap::new(alloc);
    match put_fetch(alloc, &mut head, fetch) {
        Ok(()) => Ok(head),
        Err(_) => Err(NoMemory),
    }
}

fn write_fetch(alloc: Global, fetch: &Fetch, secret: &Text) -> Result<WireRequest, NoMemory>
    ensures { IfOk result (λ written. written ≡ written_fetch fetch.now secret.now) }
{
    let head = fetch_head(alloc, fetch)?;
    sealed(alloc, Method::Post, "/aire/fetch", "", head, secret)
}

/// The request that a live call is, with its caller's seal; `notifier` is `http://DOOR/aire/notify` of the caller's door. A
/// message without a request is no call, and is written as the deletion that it is. A text that no header field can hold,
/// such as a user with a line feed, is answered as memory that lacks.
pub fn write_call(
    alloc: Global,
    set: &SetMessage,
    notifier: &Text,
    secret: &Text,
) -> Result<WireRequest, NoMemory>
    ensures written { IfOk result (λ written. written ≡ written_call set.now notifier.now secret.now) }
    ensures reads_back { IfOk result (CallReadsBack set.now notifier.now secret.now) }
    ensures bytes_read_back { IfOk result (CallBytesReadBack set.now notifier.now secret.now) }
{
    set_text(set);
    match &set.desired {
        None => write_set(alloc, set, secret),
        Some(request) => call_asking(alloc, set, request, notifier, secret),
    }
}

/// The request in which a service posts a message, with its seal. A text that no header field can hold is answered as
/// memory that lacks.
pub fn write_post_request(
    alloc: Global,
    post: &Post,
    secret: &Text,
) -> Result<WireRequest, NoMemory>
    ensures written { IfOk result (λ written. written ≡ written_post post.now secret.now) }
    ensures reads_back { IfOk result (PostReadsBack post.now secret.now) }
    ensures bytes_read_back { IfOk result (PostBytesReadBack post.now secret.now) }
{
    match post {
        Post::Set(set) => {
            set_text(set);
            write_set(alloc, set, secret)
        }
        Post::Token(token) => write_token(alloc, token, secret),
        Post::Fetch(fetch) => write_fetch(alloc, fetch, secret),
    }
}
