// Replies, written.
ghost use Rattle.std.specs.Prelude.{◌≡◌, ◌<◌, ◌^◌, [], ◌∷◌, Some, OnOk, IfOk, IsUtf8};
ghost use Rattle.std.specs.Option.{ForSome, option_copied};
ghost use Rattle.wire_fields.specs.Words.{refusal_text};
ghost use Rattle.wire_replies.specs.Sent.{BytesReadBack};
ghost use Rattle.wire_replies.specs.Writing.{AreNumbers, IsFor, ReadsBack, ack_fields, call_fields, confirm_fields, id_field, reply_body, reply_fields, reply_status, sealed_reply, side_fields, unsealed, with_seal, written};
ghost use Rattle.wire_fields.specs.Heads.{with_fields};

use crate::replies::Outgoing;
use http_front::{AIRE_HEADERS, AireHeader, WireResponse, is_text};
use http_header::HeaderMap;
use lang_core::{Name, NoMemory, RequestId, Text};
use peer_seal::seal_text;
use repair_messages::{Ack, AnswerMessage, Confirm};
use std::alloc::Global;
use wire_fields::{
    put_field, put_id, put_number, put_sides, refusal_status, refusal_text, sealed_response,
};

fn put_call(alloc: Global, head: &mut HeaderMap, answer: &AnswerMessage) -> Result<(), NoMemory>
    ensures { OnOk result (head.new ≡ with_fields head.old (call_fields (Some answer.now))) }
{
    put_id(
        alloc,
        head,
        AireHeader::ResponseId,
        &answer.caller,
        answer.number,
    )?;
    put_number(alloc, head, AireHeader::Version, answer.version)?;
    put_number(
        alloc,
        head,
        AireHeader::AnswerVersion,
        answer.answer_version,
    )
}

fn put_answered(
    alloc: Global,
    head: &mut HeaderMap,
    id: &RequestId,
    answer: &Option<AnswerMessage>,
) -> Result<(), NoMemory>
    ensures { OnOk result (head.new
        ≡ with_fields head.old (id_field AireHeader.RequestId id.now.service id.now.number ∷ call_fields answer.now)) }
{
    put_id(alloc, head, AireHeader::RequestId, &id.service, id.number)?;
    match answer {
        None => Ok(()),
        Some(answer) => put_call(alloc, head, answer),
    }
}

fn put_ack(alloc: Global, head: &mut HeaderMap, ack: &Ack) -> Result<(), NoMemory>
    ensures { OnOk result (head.new ≡ with_fields head.old (ack_fields ack.now)) }
{
    put_id(alloc, head, AireHeader::ResponseId, &ack.caller, ack.number)?;
    put_number(alloc, head, AireHeader::Version, ack.version)
}

fn put_confirm(alloc: Global, head: &mut HeaderMap, confirm: &Confirm) -> Result<(), NoMemory>
    ensures { OnOk result (head.new ≡ with_fields head.old (confirm_fields confirm.now)) }
{
    put_id(
        alloc,
        head,
        AireHeader::ResponseId,
        &confirm.caller,
        confirm.number,
    )?;
    put_number(
        alloc,
        head,
        AireHeader::AnswerVersion,
        confirm.answer_version,
    )
}

fn put_refused(
    alloc: Global,
    head: &mut HeaderMap,
    word: &Text,
    number: u64,
) -> Result<(), NoMemory>
    ensures { OnOk result (head.new
        ≡ with_fields head.old ((AireHeader.Refused, refusal_text word.now number) ∷ [])) }
{
    let text = refusal_text(alloc, word.as_str(), number)?;
    put_field(alloc, head, AireHeader::Refused, text.as_bytes())
}

fn put_reply(alloc: Global, head: &mut HeaderMap, reply: &Outgoing) -> Result<(), NoMemory>
    ensures { OnOk result (head.new ≡ with_fields head.old (reply_fields reply.now)) }
{
    match reply {
        Outgoing::Answered { id, answer, .. } => put_answered(alloc, head, id, answer),
        Outgoing::Ack(ack) => put_ack(alloc, head, ack),
        Outgoing::Confirm(confirm) => put_confirm(alloc, head, confirm),
        Outgoing::Refused { word, number } => put_refused(alloc, head, word, *number),
    }
}

fn reply_status(reply: &Outgoing) -> u16
    ensures { result ≡ reply_status reply.now }
{
    match reply {
        Outgoing::Answered { response, .. } => response.status,
        Outgoing::Ack(_) | Outgoing::Confirm(_) => 200,
        Outgoing::Refused { word, .. } => refusal_status(word.as_str()),
    }
}

fn reply_body(reply: &Outgoing) -> &str
    ensures { result.now ≡ reply_body reply.now }
{
    match reply {
        Outgoing::Answered { response, .. } => response.body.as_str(),
        Outgoing::Ack(_) | Outgoing::Confirm(_) | Outgoing::Refused { .. } => "",
    }
}

// Says to the proof that the body of a reply is UTF-8, as each text is.
fn reply_text(reply: &Outgoing)
    ensures { IsUtf8 (reply_body reply.now) }
{
    is_text(reply_body(reply));
}

// A response with no fields.
fn without_fields(alloc: Global, reply: &Outgoing) -> Result<WireResponse, NoMemory>
    ensures { IfOk result (λ response. response
        ≡ record { status = reply_status reply.now; head = []; body = reply_body reply.now }) }
{
    let body = Text::of(alloc, reply_body(reply))?;
    Ok(WireResponse {
        status: reply_status(reply),
        head: HeaderMap::new(alloc),
        body,
    })
}

fn open_reply(alloc: Global, reply: &Outgoing) -> Result<WireResponse, NoMemory>
    ensures { IfOk result (λ response. response ≡ unsealed [] reply.now) }
{
    let mut response = without_fields(alloc, reply)?;
    match put_reply(alloc, &mut response.head, reply) {
        Ok(()) => Ok(response),
        Err(why) => Err(why),
    }
}

fn put_seal(alloc: Global, response: &mut WireResponse, secret: &Text) -> Result<(), NoMemory>
    ensures { OnOk result (response.new ≡ with_seal secret.now response.old) }
{
    let bytes = sealed_response(alloc, response, AIRE_HEADERS.as_slice())?;
    let text = seal_text(alloc, secret.as_bytes(), bytes.as_slice())?;
    put_field(alloc, &mut response.head, AireHeader::Seal, text.as_bytes())
}

fn put_sealed(
    alloc: Global,
    response: &mut WireResponse,
    me: &Text,
    peer: &Text,
    reply: &Outgoing,
    secret: &Text,
) -> Result<(), NoMemory>
    ensures { OnOk result (response.new ≡ with_seal secret.now (record {
      status = response.old.status;
      head = with_fields (with_fields response.old.head (side_fields me.now peer.now)) (reply_fields reply.now);
      body = response.old.body;
    })) }
{
    put_sides(alloc, &mut response.head, me.as_str(), peer.as_str())?;
    put_reply(alloc, &mut response.head, reply)?;
    put_seal(alloc, response, secret)
}

fn sealed_reply(
    alloc: Global,
    me: &Text,
    peer: &Text,
    reply: &Outgoing,
    secret: &Text,
) -> Result<WireResponse, NoMemory>
    ensures { IfOk result (λ response. response ≡ sealed_reply me.now peer.now reply.now secret.now) }
{
    let mut response = without_fields(alloc, reply)?;
    match put_sealed(alloc, &mut response, me, peer, reply, secret) {
        Ok(()) => Ok(response),
        Err(why) => Err(why),
    }
}

fn fits(number: u64)
    ensures { number < 2 ^ 64 }
{
    let _ = number;
}

fn call_numbers(answer: &AnswerMessage)
    ensures id { answer.now.id < 2 ^ 64 }
    ensures number { answer.now.number < 2 ^ 64 }
    ensures version { answer.now.version < 2 ^ 64 }
    ensures answer { answer.now.answer_version < 2 ^ 64 }
{
    fits(answer.id);
    fits(answer.number);
    fits(answer.version);
    fits(answer.answer_version);
}

// That the numbers of a reply are of 64 bits, which is known of each that is read.
fn numbers(reply: &Outgoing)
    ensures { AreNumbers reply.now }
{
    match reply {
        Outgoing::Answered { answer: None, .. } => {}
        Outgoing::Answered {
            answer: Some(answer),
            ..
        } => call_numbers(answer),
        Outgoing::Ack(ack) => {
            fits(ack.number);
            fits(ack.version);
        }
        Outgoing::Confirm(confirm) => {
            fits(confirm.number);
            fits(confirm.answer_version);
        }
        Outgoing::Refused { number, .. } => fits(*number),
    }
}

/// The response that spells a reply. To a service, it has the fields of its kind in the order of the table and a seal of
/// this service's secret; to another client, None, only `Aire-Request-Id` or `Aire-Refused`. An answer has the status and body of
/// its response; an acknowledgement and a confirmation are 200, and a refusal has its word's status, none with a body.
/// What is written to a service, it reads back as the same reply with the same secret.
pub fn write_reply(
    alloc: Global,
    me: &Name,
    to: Option<&Name>,
    reply: &Outgoing,
    secret: &Text,
) -> Result<WireResponse, NoMemory>
    requires { IsFor me.now (option_copied to) reply.now }
    ensures written { IfOk result (λ response. response ≡ written me.now (option_copied to.entry) reply.now secret.now) }
    ensures reads_back { IfOk result (λ response. ForSome (option_copied to.entry) (λ peer.
        ReadsBack me.now peer secret.now reply.now response)) }
    ensures bytes_read_back { IfOk result (λ response. ForSome (option_copied to.entry) (λ peer.
        BytesReadBack me.now peer secret.now reply.now response)) }
{
    match to {
        None => open_reply(alloc, reply),
        Some(peer) => {
            numbers(reply);
            reply_text(reply);
            sealed_reply(alloc, me.text(), peer.text(), reply, secret)
        }
    }
}
