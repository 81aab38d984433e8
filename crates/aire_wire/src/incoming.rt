// Requests, read.
ghost use Rattle.std.specs.Prelude.{◌≡◌, false, IfOk};
ghost use Rattle.aire_wire.specs.Incoming.{call_answer, call_refusal, console_answer, console_refusal, fetch_answer, fetch_refusal, incoming, outside_answer, set_answer, set_refusal, token_answer, token_refusal};
ghost use Rattle.aire_wire.specs.Known.{IsKnown};
ghost use Rattle.wire_fields.specs.Fits.{lacks_memory};

use crate::building::{
    call_message, console_request, fetch_message, outside_request, set_message, token_message,
};
use crate::refusals::{
    call_head_refusal, console_head_refusal, console_seal_refusal, fetch_head_refusal, is_deletion,
    outside_refusal, seal_refusal, set_head_refusal, set_seal_refusal, token_head_refusal,
};
use http_front::WireRequest;
use lang_core::{Copied, Name, NoMemory, Request, Text};
use repair_messages::{Fetch, SetMessage, TokenMessage};
use std::alloc::Global;
use wire_fields::{
    CALL_HEADERS, ConsoleRequest, ConsoleWord, FETCH_HEADERS, RequestKind, Secrets, TOKEN_HEADERS,
    WireRefused, request_kind,
};

/// What a request says to a service.
#[derive(Drop)]
pub enum Incoming {
    /// A request from outside.
    Outside(Request),
    /// A peer's live call.
    Live(SetMessage),
    /// A version of a peer's call.
    Set(SetMessage),
    /// A peer's token, which announces an answer to a call.
    Token(TokenMessage),
    /// A peer's fetch of an answer to its call.
    Fetch(Fetch),
    /// What an operator asks for.
    Console(ConsoleRequest),
}

impl Copied for Incoming {
    fn copied(&self, alloc: Global) -> Result<Incoming, NoMemory> {
        match self {
            Incoming::Outside(request) => Ok(Incoming::Outside(request.copied(alloc)?)),
            Incoming::Live(set) => Ok(Incoming::Live(set.copied(alloc)?)),
            Incoming::Set(set) => Ok(Incoming::Set(set.copied(alloc)?)),
            Incoming::Token(token) => Ok(Incoming::Token(token.copied(alloc)?)),
            Incoming::Fetch(fetch) => Ok(Incoming::Fetch(fetch.copied(alloc)?)),
            Incoming::Console(request) => Ok(Incoming::Console(request.copied(alloc)?)),
        }
    }
}

fn read_outside(alloc: Global, request: &WireRequest) -> Result<Incoming, WireRefused>
    ensures { lacks_memory result ≡ false → result ≡ outside_answer request.now }
{
    if let Some(why) = outside_refusal(&request.head) {
        return Err(why);
    }
    match outside_request(alloc, request) {
        Ok(made) => Ok(Incoming::Outside(made)),
        Err(_) => Err(WireRefused::NoMemory),
    }
}

fn call_refusal(
    alloc: Global,
    me: &str,
    peers: &Secrets,
    request: &WireRequest,
) -> Result<Option<WireRefused>, NoMemory>
    ensures { IfOk result (λ refusal. refusal ≡ call_refusal me.now peers.now request.now) }
{
    match call_head_refusal(me, &request.head) {
        Some(why) => Ok(Some(why)),
        None => seal_refusal(alloc, peers, request, CALL_HEADERS.as_slice()),
    }
}

fn read_call(
    alloc: Global,
    me: &str,
    peers: &Secrets,
    request: &WireRequest,
) -> Result<Incoming, WireRefused>
    ensures { lacks_memory result ≡ false → result ≡ call_answer me.now peers.now request.now }
{
    match call_refusal(alloc, me, peers, request) {
        Err(_) => Err(WireRefused::NoMemory),
        Ok(Some(why)) => Err(why),
        Ok(None) => match call_message(alloc, request) {
            Ok(message) => Ok(Incoming::Live(message)),
            Err(_) => Err(WireRefused::NoMemory),
        },
    }
}

fn set_refusal(
    alloc: Global,
    me: &str,
    peers: &Secrets,
    request: &WireRequest,
) -> Result<Option<WireRefused>, NoMemory>
    ensures { IfOk result (λ refusal. refusal ≡ set_refusal me.now peers.now request.now) }
{
    match set_head_refusal(me, &request.head) {
        Some(why) => Ok(Some(why)),
        None => set_seal_refusal(alloc, is_deletion(&request.head), peers, request),
    }
}

fn read_set(
    alloc: Global,
    me: &str,
    peers: &Secrets,
    request: &WireRequest,
) -> Result<Incoming, WireRefused>
    ensures { lacks_memory result ≡ false → result ≡ set_answer me.now peers.now request.now }
{
    match set_refusal(alloc, me, peers, request) {
        Err(_) => Err(WireRefused::NoMemory),
        Ok(Some(why)) => Err(why),
        Ok(None) => match set_message(alloc, request) {
            Ok(message) => Ok(Incoming::Set(message)),
            Err(_) => Err(WireRefused::NoMemory),
        },
    }
}

fn token_refusal(
    alloc: Global,
    me: &str,
    peers: &Secrets,
    request: &WireRequest,
) -> Result<Option<WireRefused>, NoMemory>
    ensures { IfOk result (λ refusal. refusal ≡ token_refusal me.now peers.now request.now) }
{
    match token_head_refusal(me, &request.head) {
        Some(why) => Ok(Some(why)),
        None => seal_refusal(alloc, peers, request, TOKEN_HEADERS.as_slice()),
    }
}

fn read_token(
    alloc: Global,
    me: &str,
    peers: &Secrets,
    request: &WireRequest,
) -> Result<Incoming, WireRefused>
    ensures { lacks_memory result ≡ false → result ≡ token_answer me.now peers.now request.now }
{
    match token_refusal(alloc, me, peers, request) {
        Err(_) => Err(WireRefused::NoMemory),
        Ok(Some(why)) => Err(why),
        Ok(None) => match token_message(alloc, request) {
            Ok(message) => Ok(Incoming::Token(message)),
            Err(_) => Err(WireRefused::NoMemory),
        },
    }
}

fn fetch_refusal(
    alloc: Global,
    me: &str,
    peers: &Secrets,
    request: &WireRequest,
) -> Result<Option<WireRefused>, NoMemory>
    ensures { IfOk result (λ refusal. refusal ≡ fetch_refusal me.now peers.now request.now) }
{
    match fetch_head_refusal(me, &request.head) {
        Some(why) => Ok(Some(why)),
        None => seal_refusal(alloc, peers, request, FETCH_HEADERS.as_slice()),
    }
}

fn read_fetch(
    alloc: Global,
    me: &str,
    peers: &Secrets,
    request: &WireRequest,
) -> Result<Incoming, WireRefused>
    ensures { lacks_memory result ≡ false → result ≡ fetch_answer me.now peers.now request.now }
{
    match fetch_refusal(alloc, me, peers, request) {
        Err(_) => Err(WireRefused::NoMemory),
        Ok(Some(why)) => Err(why),
        Ok(None) => match fetch_message(alloc, request) {
            Ok(message) => Ok(Incoming::Fetch(message)),
            Err(_) => Err(WireRefused::NoMemory),
        },
    }
}

fn console_refusal(
    alloc: Global,
    me: &str,
    secret: &Text,
    request: &WireRequest,
) -> Result<Option<WireRefused>, NoMemory>
    ensures { IfOk result (λ refusal. refusal ≡ console_refusal me.now secret.now request.now) }
{
    match console_head_refusal(me, &request.head) {
        Some(why) => Ok(Some(why)),
        None => console_seal_refusal(alloc, secret, request),
    }
}

fn read_console(
    alloc: Global,
    me: &str,
    secret: &Text,
    word: ConsoleWord,
    request: &WireRequest,
) -> Result<Incoming, WireRefused>
    ensures { lacks_memory result ≡ false → result ≡ console_answer me.now secret.now word request.now }
{
    match console_refusal(alloc, me, secret, request) {
        Err(_) => Err(WireRefused::NoMemory),
        Ok(Some(why)) => Err(why),
        Ok(None) => match console_request(alloc, word, request) {
            Ok(made) => Ok(Incoming::Console(made)),
            Err(_) => Err(WireRefused::NoMemory),
        },
    }
}

fn read_any(
    alloc: Global,
    me: &Name,
    peers: &Secrets,
    console: &Text,
    request: &WireRequest,
) -> Result<Incoming, WireRefused>
    ensures { lacks_memory result ≡ false → result ≡ incoming me.now peers.now console.now request.now }
{
    match request_kind(request) {
        None => Err(WireRefused::UnknownKind),
        Some(RequestKind::Outside) => read_outside(alloc, request),
        Some(RequestKind::Call) => read_call(alloc, me.as_str(), peers, request),
        Some(RequestKind::Set) => read_set(alloc, me.as_str(), peers, request),
        Some(RequestKind::Token) => read_token(alloc, me.as_str(), peers, request),
        Some(RequestKind::Fetch) => read_fetch(alloc, me.as_str(), peers, request),
        Some(RequestKind::Console(word)) => read_console(
            alloc,
            me.as_str(),
            console,
            word,
            request,
        ),
    }
}

/// The message that a request spells to the service `me`, whose peers have these secrets, or the first refusal: of its
/// kind, of its header fields in the order of the table, of how they fit, of its seal. `NoMemory` may come in place of any.
///
/// A message of a service is a peer's, sealed with that peer's secret, and to `me`; its numbers of requests and calls are
/// from 1, and a live call is a first version whose chain ends with its sender. An operator's is read alike whatever the
/// peers.
pub fn read_incoming(
    alloc: Global,
    me: &Name,
    peers: &Secrets,
    console: &Text,
    request: &WireRequest,
) -> Result<Incoming, WireRefused>
    ensures message { lacks_memory result ≡ false → result ≡ incoming me.now peers.now console.now request.now }
    ensures known { IfOk result (IsKnown me.now peers.now console.now request.now) }
{
    read_any(alloc, me, peers, console, request)
}
