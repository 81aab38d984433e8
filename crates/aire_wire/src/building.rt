// Messages from the parts of a request.
ghost use Rattle.std.specs.Prelude.{◌≡◌, false, IfOk};
ghost use Rattle.aire_wire.specs.Incoming.{call_message, call_request, console_request, desired_in, fetch_message, is_deletion, outside_request, set_message, set_request, set_with, token_message};
ghost use Rattle.wire_fields.specs.Fits.{AreNamed, IsChained};
ghost use Rattle.wire_fields.specs.Rows.{text_at};

use crate::refusals::is_deletion;
use crate::texts::{method_in, names_in, number_at, who_or_anyone};
use http_front::{AireHeader, WireRequest};
use http_header::HeaderMap;
use lang_core::{Copied, Method, Name, Names, NoMemory, Request, Text, ThinSeq};
use repair_messages::{Fetch, SetMessage, TokenMessage};
use std::alloc::Global;
use wire_fields::{ConsoleRequest, ConsoleWord, name_of, number_in, text_at, version_at};

// Two services.
#[derive(Drop)]
struct Sides {
    from: Name,
    dest: Name,
}

fn sides_of(alloc: Global, head: &HeaderMap) -> Result<Sides, NoMemory>
    requires { AreNamed head.now }
    ensures from { IfOk result (λ sides. sides.from ≡ text_at head.now AireHeader.From) }
    ensures dest { IfOk result (λ sides. sides.dest ≡ text_at head.now AireHeader.Dest) }
{
    let from = name_of(alloc, text_at(head, AireHeader::From))?;
    let dest = name_of(alloc, text_at(head, AireHeader::Dest))?;
    Ok(Sides { from, dest })
}

/// Two texts.
#[derive(Drop)]
pub struct Texts {
    pub first: Text,
    pub second: Text,
}

/// Copies of both.
pub fn texts_of(alloc: Global, first: &str, second: &str) -> Result<Texts, NoMemory>
    ensures first { IfOk result (λ texts. texts.first ≡ first.now) }
    ensures second { IfOk result (λ texts. texts.second ≡ second.now) }
{
    let first = Text::of(alloc, first)?;
    let second = Text::of(alloc, second)?;
    Ok(Texts { first, second })
}

fn request_of(
    alloc: Global,
    method: Method,
    path: &str,
    body: &Text,
    who: &str,
    chain: Names,
) -> Result<Request, NoMemory>
    ensures { IfOk result (λ request. request ≡ record {
      method = method;
      path = path.now;
      body = body.now;
      who = who.now;
      chain = chain;
    }) }
{
    let texts = texts_of(alloc, path, who)?;
    let body = body.copied(alloc)?;
    Ok(Request {
        method,
        path: texts.first,
        body,
        who: texts.second,
        chain,
    })
}

/// The request that one from outside makes.
pub fn outside_request(alloc: Global, request: &WireRequest) -> Result<Request, NoMemory>
    ensures { IfOk result (λ made. made ≡ outside_request request.now) }
{
    let who = who_or_anyone(text_at(&request.head, AireHeader::Who));
    let chain = ThinSeq::new(alloc);
    request_of(
        alloc,
        request.method,
        request.path.as_str(),
        &request.body,
        who,
        chain,
    )
}

fn call_request(alloc: Global, request: &WireRequest) -> Result<Request, NoMemory>
    requires { IsChained request.now.head }
    ensures { IfOk result (λ made. made ≡ call_request request.now) }
{
    let chain = names_in(alloc, text_at(&request.head, AireHeader::Chain))?;
    let who = text_at(&request.head, AireHeader::Who);
    request_of(
        alloc,
        request.method,
        request.path.as_str(),
        &request.body,
        who,
        chain,
    )
}

fn set_request(alloc: Global, request: &WireRequest) -> Result<Request, NoMemory>
    requires { IsChained request.now.head }
    ensures { IfOk result (λ made. made ≡ set_request request.now) }
{
    let head = &request.head;
    let chain = names_in(alloc, text_at(head, AireHeader::Chain))?;
    let method = method_in(text_at(head, AireHeader::Method));
    let path = text_at(head, AireHeader::Path);
    let who = text_at(head, AireHeader::RequestWho);
    request_of(alloc, method, path, &request.body, who, chain)
}

fn desired_in(
    alloc: Global,
    deletion: bool,
    request: &WireRequest,
) -> Result<Option<Request>, NoMemory>
    requires { deletion ≡ false → IsChained request.now.head }
    ensures { IfOk result (λ desired. desired ≡ desired_in deletion request.now) }
{
    if deletion {
        return Ok(None);
    }
    match set_request(alloc, request) {
        Ok(made) => Ok(Some(made)),
        Err(why) => Err(why),
    }
}

fn set_with(
    alloc: Global,
    request: &WireRequest,
    desired: Option<Request>,
    version: u64,
    before: Option<u64>,
    after: Option<u64>,
) -> Result<SetMessage, NoMemory>
    requires { AreNamed request.now.head }
    ensures { IfOk result (λ message. message ≡ set_with request.now desired version before after) }
{
    let sides = sides_of(alloc, &request.head)?;
    let who = Text::of(alloc, text_at(&request.head, AireHeader::Who))?;
    Ok(SetMessage {
        caller: sides.from,
        dest: sides.dest,
        number: number_in(text_at(&request.head, AireHeader::ResponseId)),
        version,
        desired,
        before,
        after,
        who,
    })
}

/// The live call that a request is.
pub fn call_message(alloc: Global, request: &WireRequest) -> Result<SetMessage, NoMemory>
    requires named { AreNamed request.now.head }
    requires chained { IsChained request.now.head }
    ensures { IfOk result (λ message. message ≡ call_message request.now) }
{
    let desired = call_request(alloc, request)?;
    set_with(alloc, request, Some(desired), 1, None, None)
}

/// The set message that a request is.
pub fn set_message(alloc: Global, request: &WireRequest) -> Result<SetMessage, NoMemory>
    requires named { AreNamed request.now.head }
    requires chained { is_deletion request.now.head ≡ false → IsChained request.now.head }
    ensures { IfOk result (λ message. message ≡ set_message request.now) }
{
    let head = &request.head;
    let desired = desired_in(alloc, is_deletion(head), request)?;
    let before = number_at(head, AireHeader::Before);
    let after = number_at(head, AireHeader::After);
    set_with(
        alloc,
        request,
        desired,
        version_at(head, AireHeader::Version),
        before,
        after,
    )
}

/// The token that a request is.
pub fn token_message(alloc: Global, request: &WireRequest) -> Result<TokenMessage, NoMemory>
    requires { AreNamed request.now.head }
    ensures { IfOk result (λ message. message ≡ token_message request.now) }
{
    let head = &request.head;
    let sides = sides_of(alloc, head)?;
    let who = Text::of(alloc, text_at(head, AireHeader::Who))?;
    Ok(TokenMessage {
        caller: sides.dest,
        callee: sides.from,
        id: number_in(text_at(head, AireHeader::RequestId)),
        number: number_in(text_at(head, AireHeader::ResponseId)),
        answer_version: version_at(head, AireHeader::AnswerVersion),
        who,
    })
}

/// The fetch that a request is.
pub fn fetch_message(alloc: Global, request: &WireRequest) -> Result<Fetch, NoMemory>
    requires { AreNamed request.now.head }
    ensures { IfOk result (λ message. message ≡ fetch_message request.now) }
{
    let head = &request.head;
    let sides = sides_of(alloc, head)?;
    Ok(Fetch {
        caller: sides.from,
        callee: sides.dest,
        number: number_in(text_at(head, AireHeader::ResponseId)),
        answer_version: version_at(head, AireHeader::AnswerVersion),
    })
}

/// What an operator asks for.
pub fn console_request(
    alloc: Global,
    word: ConsoleWord,
    request: &WireRequest,
) -> Result<ConsoleRequest, NoMemory>
    ensures { IfOk result (λ made. made ≡ console_request word request.now) }
{
    let texts = texts_of(
        alloc,
        text_at(&request.head, AireHeader::Who),
        request.body.as_str(),
    )?;
    Ok(ConsoleRequest {
        word,
        who: texts.first,
        body: texts.second,
    })
}
