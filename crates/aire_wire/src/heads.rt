// The header fields of the messages that are written.
ghost use Rattle.std.specs.Prelude.{◌≡◌, ◌++◌, OnOk};
ghost use Rattle.std.specs.List.{flat_map};
ghost use Rattle.repair_messages.specs.Kinds.{spelling as message_kind};
ghost use Rattle.request_names.specs.Ids.{id_text};
ghost use Rattle.aire_wire.specs.Written.{behind_comma, call_fields, chain_text, desired_fields, fetch_fields, neighbour_field, neighbour_fields, request_fields, set_message_fields, token_fields, version_fields};
ghost use Rattle.wire_fields.specs.Heads.{with_field, with_fields};

use http_front::AireHeader;
use http_header::HeaderMap;
use lang_core::{Name, Names, NoMemory, Request, method_word};
use repair_messages::{Fetch, SetMessage, TokenMessage, kind_word, spelling};
use std::alloc::{AllocError, Global};
use wire_fields::{put_field, put_id, put_number, put_sides};

fn push_name(text: &mut Vec<u8>, name: &Name) -> Result<(), AllocError>
    ensures { OnOk result (text.new.items ≡ text.old.items ++ behind_comma name.now) }
{
    text.extend_from_slice(b",")?;
    text.extend_from_slice(name.as_str().as_bytes())
}

fn push_names(text: &mut Vec<u8>, names: &[Name]) -> Result<(), AllocError>
    ensures { OnOk result (text.new.items ≡ text.old.items ++ flat_map behind_comma names.now) }
{
    for name in names {
        push_name(text, name)?;
    }
    Ok(())
}

fn push_chain(text: &mut Vec<u8>, names: &[Name]) -> Result<(), AllocError>
    ensures { OnOk result (text.new.items ≡ text.old.items ++ chain_text names.now) }
{
    match names {
        [] => Ok(()),
        [name, names @ ..] => {
            text.extend_from_slice(name.as_str().as_bytes())?;
            push_names(text, names)
        }
    }
}

fn put_chain(alloc: Global, head: &mut HeaderMap, names: &Names) -> Result<(), NoMemory>
    ensures { OnOk result (head.new ≡ with_field head.old (AireHeader.Chain, chain_text names.now)) }
{
    let mut text = Vec::new(alloc);
    match push_chain(&mut text, names.as_slice()) {
        Ok(()) => put_field(alloc, head, AireHeader::Chain, &text),
        Err(_) => Err(NoMemory),
    }
}

/// The fields of a live call.
pub fn put_call(
    alloc: Global,
    head: &mut HeaderMap,
    set: &SetMessage,
    request: &Request,
    notifier: &str,
) -> Result<(), NoMemory>
    ensures { OnOk result (head.new ≡ with_fields head.old (call_fields set.now request.now notifier.now)) }
{
    put_sides(alloc, head, set.caller.as_str(), set.dest.as_str())?;
    put_id(alloc, head, AireHeader::ResponseId, &set.caller, set.number)?;
    put_field(alloc, head, AireHeader::NotifierUrl, notifier.as_bytes())?;
    put_field(alloc, head, AireHeader::Who, request.who.as_bytes())?;
    put_chain(alloc, head, &request.chain)
}

fn put_version(alloc: Global, head: &mut HeaderMap, set: &SetMessage) -> Result<(), NoMemory>
    ensures { OnOk result (head.new ≡ with_fields head.old (version_fields set.now)) }
{
    let word = kind_word(spelling(set));
    put_sides(alloc, head, set.caller.as_str(), set.dest.as_str())?;
    put_id(alloc, head, AireHeader::ResponseId, &set.caller, set.number)?;
    put_field(alloc, head, AireHeader::Repair, word.as_bytes())?;
    put_number(alloc, head, AireHeader::Version, set.version)?;
    put_field(alloc, head, AireHeader::Who, set.who.as_bytes())
}

fn put_request(alloc: Global, head: &mut HeaderMap, request: &Request) -> Result<(), NoMemory>
    ensures { OnOk result (head.new ≡ with_fields head.old (request_fields request.now)) }
{
    let word = method_word(request.method);
    put_field(alloc, head, AireHeader::Method, word.as_bytes())?;
    put_field(alloc, head, AireHeader::Path, request.path.as_bytes())?;
    put_field(alloc, head, AireHeader::RequestWho, request.who.as_bytes())?;
    put_chain(alloc, head, &request.chain)
}

fn put_desired(
    alloc: Global,
    head: &mut HeaderMap,
    desired: &Option<Request>,
) -> Result<(), NoMemory>
    ensures { OnOk result (head.new ≡ with_fields head.old (desired_fields desired.now)) }
{
    match desired {
        None => Ok(()),
        Some(request) => put_request(alloc, head, request),
    }
}

fn put_neighbour(
    alloc: Global,
    head: &mut HeaderMap,
    header: AireHeader,
    number: Option<u64>,
) -> Result<(), NoMemory>
    ensures { OnOk result (head.new ≡ with_fields head.old (neighbour_field header number)) }
{
    match number {
        None => Ok(()),
        Some(number) => put_number(alloc, head, header, number),
    }
}

fn put_neighbours(alloc: Global, head: &mut HeaderMap, set: &SetMessage) -> Result<(), NoMemory>
    ensures { OnOk result (head.new ≡ with_fields head.old (neighbour_fields set.now)) }
{
    put_neighbour(alloc, head, AireHeader::Before, set.before)?;
    put_neighbour(alloc, head, AireHeader::After, set.after)
}

/// The fields of a set message.
pub fn put_set(alloc: Global, head: &mut HeaderMap, set: &SetMessage) -> Result<(), NoMemory>
    ensures { OnOk result (head.new ≡ with_fields head.old (set_message_fields set.now)) }
{
    put_version(alloc, head, set)?;
    put_desired(alloc, head, &set.desired)?;
    put_neighbours(alloc, head, set)
}

fn put_token_sides(
    alloc: Global,
    head: &mut HeaderMap,
    token: &TokenMessage,
) -> Result<(), NoMemory>
    ensures { OnOk result (head.new ≡ with_field (with_field (with_field (with_field head.old
        (AireHeader.From, token.now.callee)) (AireHeader.Dest, token.now.caller))
        (AireHeader.RequestId, id_text token.now.callee token.now.id))
        (AireHeader.ResponseId, id_text token.now.caller token.now.number)) }
{
    put_sides(alloc, head, token.callee.as_str(), token.caller.as_str())?;
    put_id(alloc, head, AireHeader::RequestId, &token.callee, token.id)?;
    put_id(
        alloc,
        head,
        AireHeader::ResponseId,
        &token.caller,
        token.number,
    )
}

/// The fields of a token.
pub fn put_token(alloc: Global, head: &mut HeaderMap, token: &TokenMessage) -> Result<(), NoMemory>
    ensures { OnOk result (head.new ≡ with_fields head.old (token_fields token.now)) }
{
    put_token_sides(alloc, head, token)?;
    put_field(alloc, head, AireHeader::Repair, b"replace_response")?;
    put_number(alloc, head, AireHeader::AnswerVersion, token.answer_version)?;
    put_field(alloc, head, AireHeader::Who, token.who.as_bytes())
}

/// The fields of a fetch.
pub fn put_fetch(alloc: Global, head: &mut HeaderMap, fetch: &Fetch) -> Result<(), NoMemory>
    ensures { OnOk result (head.new ≡ with_fields head.old (fetch_fields fetch.now)) }
{
    put_sides(alloc, head, fetch.caller.as_str(), fetch.callee.as_str())?;
    put_id(
        alloc,
        head,
        AireHeader::ResponseId,
        &fetch.caller,
        fetch.number,
    )?;
    put_number(alloc, head, AireHeader::AnswerVersion, fetch.answer_version)
}
