// Replies from the parts of a response.
ghost use Rattle.std.specs.Prelude.{◌≡◌, IfOk};
ghost use Rattle.wire_fields.specs.Fits.{AreNamed};
ghost use Rattle.wire_fields.specs.Rows.{text_at};
ghost use Rattle.wire_replies.specs.Reading.{ack_in, confirm_in, live_answer, refusal_or_none, reply_in, request_id_in, response_in};
ghost use Rattle.wire_fields.specs.Words.{refusal_of};
ghost use Rattle.wire_replies.specs.declared.replies.Outgoing.TheVariants as replies;

use crate::kinds::ReplyKind;
use crate::replies::Outgoing;
use http_front::{AireHeader, WireResponse};
use http_header::HeaderMap;
use lang_core::{Copied, Name, NoMemory, RequestId, Response, Text};
use repair_messages::{Ack, AnswerMessage, Confirm};
use std::alloc::Global;
use wire_fields::{name_of, number_in, refusal_of, text_at, version_at};

// Two services.
#[derive(Drop)]
struct Sides {
    from: Name,
    dest: Name,
}

fn sides_of(alloc: Global, head: &HeaderMap) -> Result<Sides, NoMemory>
    requires { AreNamed head.now }
    ensures from { IfOk result (λ sides. sides.from ≡ text_at head.now AireHeader.From) }
    ensures dest { IfOk result (λ sides. sides.dest ≡ text_at head.now AireHeader.Dest) }
{
    let from = name_of(alloc, text_at(head, AireHeader::From))?;
    let dest = name_of(alloc, text_at(head, AireHeader::Dest))?;
    Ok(Sides { from, dest })
}

fn response_in(alloc: Global, response: &WireResponse) -> Result<Response, NoMemory>
    ensures { IfOk result (λ made. made ≡ response_in response.now) }
{
    let body = response.body.copied(alloc)?;
    Ok(Response {
        status: response.status,
        body,
    })
}

fn request_id_in(alloc: Global, response: &WireResponse) -> Result<RequestId, NoMemory>
    requires { AreNamed response.now.head }
    ensures { IfOk result (λ id. id ≡ request_id_in response.now) }
{
    let service = name_of(alloc, text_at(&response.head, AireHeader::From))?;
    Ok(RequestId {
        service,
        number: number_in(text_at(&response.head, AireHeader::RequestId)),
    })
}

// What an answer says, and for whom.
#[derive(Drop)]
struct Said {
    response: Response,
    who: Text,
}

fn said_in(alloc: Global, response: &WireResponse) -> Result<Said, NoMemory>
    ensures response { IfOk result (λ said. said.response ≡ response_in response.now) }
    ensures who { IfOk result (λ said. said.who ≡ text_at response.now.head AireHeader.From) }
{
    let who = Text::of(alloc, text_at(&response.head, AireHeader::From))?;
    let response = response_in(alloc, response)?;
    Ok(Said { response, who })
}

fn live_answer(alloc: Global, response: &WireResponse) -> Result<AnswerMessage, NoMemory>
    requires { AreNamed response.now.head }
    ensures { IfOk result (λ answer. answer ≡ live_answer response.now) }
{
    let head = &response.head;
    let sides = sides_of(alloc, head)?;
    let said = said_in(alloc, response)?;
    Ok(AnswerMessage {
        caller: sides.dest,
        callee: sides.from,
        id: number_in(text_at(head, AireHeader::RequestId)),
        number: number_in(text_at(head, AireHeader::ResponseId)),
        answer_version: version_at(head, AireHeader::AnswerVersion),
        version: version_at(head, AireHeader::Version),
        response: said.response,
        who: said.who,
    })
}

fn with_answer(
    alloc: Global,
    answer: AnswerMessage,
    response: &WireResponse,
) -> Result<Outgoing, NoMemory>
    requires { AreNamed response.now.head }
    ensures { IfOk result (λ reply. reply
        ≡ replies.Answered (request_id_in response.now) (Some answer) (response_in response.now)) }
{
    let id = request_id_in(alloc, response)?;
    let response = response_in(alloc, response)?;
    Ok(Outgoing::Answered {
        id,
        answer: Some(answer),
        response,
    })
}

fn live_reply(alloc: Global, response: &WireResponse) -> Result<Outgoing, NoMemory>
    requires { AreNamed response.now.head }
    ensures { IfOk result (λ reply. reply
        ≡ replies.Answered (request_id_in response.now) (Some (live_answer response.now)) (response_in response.now)) }
{
    match live_answer(alloc, response) {
        Ok(answer) => with_answer(alloc, answer, response),
        Err(why) => Err(why),
    }
}

fn ack_in(alloc: Global, head: &HeaderMap) -> Result<Outgoing, NoMemory>
    requires { AreNamed head.now }
    ensures { IfOk result (λ reply. reply ≡ replies.Ack (ack_in head.now)) }
{
    let sides = sides_of(alloc, head)?;
    Ok(Outgoing::Ack(Ack {
        caller: sides.dest,
        dest: sides.from,
        number: number_in(text_at(head, AireHeader::ResponseId)),
        version: version_at(head, AireHeader::Version),
    }))
}

fn confirm_in(alloc: Global, head: &HeaderMap) -> Result<Outgoing, NoMemory>
    requires { AreNamed head.now }
    ensures { IfOk result (λ reply. reply ≡ replies.Confirm (confirm_in head.now)) }
{
    let sides = sides_of(alloc, head)?;
    Ok(Outgoing::Confirm(Confirm {
        caller: sides.from,
        callee: sides.dest,
        number: number_in(text_at(head, AireHeader::ResponseId)),
        answer_version: version_at(head, AireHeader::AnswerVersion),
    }))
}

fn refused_with(alloc: Global, word: &str, number: u64) -> Result<Outgoing, NoMemory>
    ensures { IfOk result (λ reply. reply ≡ replies.Refused word.now number) }
{
    let word = Text::of(alloc, word)?;
    Ok(Outgoing::Refused { word, number })
}

fn refusal_in(alloc: Global, text: &str) -> Result<Outgoing, NoMemory>
    ensures { IfOk result (λ reply. reply ≡ refusal_or_none (refusal_of text.now)) }
{
    match refusal_of(text) {
        Some((word, number)) => refused_with(alloc, word, number),
        None => refused_with(alloc, "", 0),
    }
}

/// What a response of this kind says.
pub fn reply_in(
    alloc: Global,
    kind: ReplyKind,
    response: &WireResponse,
) -> Result<Outgoing, NoMemory>
    requires { AreNamed response.now.head }
    ensures { IfOk result (λ reply. reply ≡ reply_in kind response.now) }
{
    let head = &response.head;
    match kind {
        ReplyKind::Live => live_reply(alloc, response),
        ReplyKind::Ack => ack_in(alloc, head),
        ReplyKind::Confirm => confirm_in(alloc, head),
        ReplyKind::Refusal => refusal_in(alloc, text_at(head, AireHeader::Refused)),
    }
}
