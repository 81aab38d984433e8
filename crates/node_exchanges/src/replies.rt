// What is written on a connection.
ghost use Rattle.std.specs.Prelude.{◌≡◌, codes, IfOk, OnErr, OnOk, Some};
ghost use Rattle.std.specs.Option.{option_copied};
ghost use Rattle.io_edge.specs.Edge.{Wrote};
ghost use Rattle.wire_replies.specs.Writing.{IsFor};
ghost use Rattle.wire_replies.specs.declared.replies.Outgoing.TheVariants.{Refused as RefusedBy};
ghost use Rattle.node_exchanges.specs.Replies.{known_reply, IsCutShort, IsSaid, SaysIt};

use crate::served::Served;
use http_front::{WireResponse, WriteRefused, write_response};
use io_edge::{Connection, Failed, write_all};
use lang_core::{Name, NoMemory, RequestId};
use repair_messages::{AnswerMessage, RefusalWord, copied_pair};
use std::alloc::Global;
use wire_replies::{Outgoing, write_reply};
use wire_words::refusal;
use world_file::Setup;

/// Writes these bytes.
pub fn write_bytes<C: Connection>(conn: &mut C, bytes: &[u8]) -> Result<(), Failed>
    ensures ok { OnOk result (Wrote (C.Sink.writes conn.old) (C.Sink.writes conn.new) bytes.now) }
    ensures err { OnErr result (IsCutShort (C.Sink.writes conn.old) (C.Sink.writes conn.new) bytes.now) }
    ensures beside { C.Sink.beside conn.new ≡ C.Sink.beside conn.old }
{
    write_all(conn, bytes)
}

/// Writes this response.
pub fn write<C: Connection>(alloc: Global, conn: &mut C, response: WireResponse) -> Served
    ensures written { IsSaid response (C.Sink.writes conn.old) (C.Sink.writes conn.new) result }
    ensures beside { C.Sink.beside conn.new ≡ C.Sink.beside conn.old }
{
    match write_response(alloc, conn, &response) {
        Ok(()) => Served::Said(response),
        Err(WriteRefused::WriteFault) => Served::WriteFault,
        Err(WriteRefused::NoMemory) => Served::NoMemory,
    }
}

/// Says this to the client, a peer or, where it is none, another one.
pub fn say<C: Connection>(
    alloc: Global,
    setup: &Setup,
    conn: &mut C,
    to: Option<&Name>,
    reply: &Outgoing,
) -> Served
    requires { IsFor setup.now.setting.me (option_copied to) reply.now }
    ensures said { SaysIt setup.now.setting.me setup.now.secret (option_copied to.entry) reply.now (C.Sink.writes conn.old) (C.Sink.writes conn.new) result }
    ensures beside { C.Sink.beside conn.new ≡ C.Sink.beside conn.old }
{
    match write_reply(alloc, &setup.setting.me, to, reply, &setup.secret) {
        Ok(response) => write(alloc, conn, response),
        Err(_) => Served::NoMemory,
    }
}

/// Says this word to the client, and its number.
pub fn refuse<C: Connection>(
    alloc: Global,
    setup: &Setup,
    conn: &mut C,
    to: Option<&Name>,
    word: &str,
    number: u64,
) -> Served
    ensures said { SaysIt setup.now.setting.me setup.now.secret (option_copied to.entry) (RefusedBy word.now number) (C.Sink.writes conn.old) (C.Sink.writes conn.new) result }
    ensures beside { C.Sink.beside conn.new ≡ C.Sink.beside conn.old }
{
    match refusal(alloc, word, number) {
        Ok(reply) => say(alloc, setup, conn, to, &reply),
        Err(_) => Served::NoMemory,
    }
}

/// Says to the client that memory is wanting.
pub fn say_no_memory<C: Connection>(
    alloc: Global,
    setup: &Setup,
    conn: &mut C,
    to: Option<&Name>,
) -> Served
    ensures said { SaysIt setup.now.setting.me setup.now.secret (option_copied to.entry) (RefusedBy (codes "nomemory") 0) (C.Sink.writes conn.old) (C.Sink.writes conn.new) result }
    ensures beside { C.Sink.beside conn.new ≡ C.Sink.beside conn.old }
{
    refuse(alloc, setup, conn, to, RefusalWord::NoMemory.text(), 0)
}

fn known_reply(alloc: Global, answer: AnswerMessage) -> Result<Outgoing, NoMemory>
    ensures { IfOk result (λ reply. reply ≡ known_reply answer) }
{
    let (service, response) = copied_pair(alloc, &answer.callee, &answer.response)?;
    let number = answer.id;
    Ok(Outgoing::Answered {
        id: RequestId { service, number },
        answer: Some(answer),
        response,
    })
}

/// Says to a peer what its call was answered before.
pub fn say_known<C: Connection>(
    alloc: Global,
    setup: &Setup,
    conn: &mut C,
    to: Option<&Name>,
    answer: AnswerMessage,
) -> Served
    requires from { answer.callee ≡ setup.now.setting.me }
    requires to { option_copied to ≡ Some answer.caller }
    ensures said { SaysIt setup.now.setting.me setup.now.secret (option_copied to.entry) (known_reply answer) (C.Sink.writes conn.old) (C.Sink.writes conn.new) result }
    ensures beside { C.Sink.beside conn.new ≡ C.Sink.beside conn.old }
{
    match known_reply(alloc, answer) {
        Ok(reply) => say(alloc, setup, conn, to, &reply),
        Err(_) => Served::NoMemory,
    }
}
