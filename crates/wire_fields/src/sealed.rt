// The bytes of a message that are sealed.
ghost use Rattle.std.specs.Prelude.{◌≡◌, ◌++◌, codes, decimal, OnOk, IfOk};
ghost use Rattle.std.specs.List.{flat_map};
ghost use Rattle.lang_tree.specs.Methods.{method_word};
ghost use Rattle.http_front.specs.Writing.{first_of, first_of_header};
ghost use Rattle.wire_fields.specs.Sealed.{sealed_fields, sealed_line, sealed_request, sealed_response};

use http_front::{AireHeader, WireRequest, WireResponse};
use http_header::HeaderMap;
use lang_core::{Bytes, NoMemory, Text};
use lang_tree::{Method, method_word};
use std::alloc::{AllocError, Global};

fn put(text: &mut Vec<u8>, piece: &[u8]) -> Result<(), AllocError>
    ensures { OnOk result (text.new.items ≡ text.old.items ++ piece.now) }
{
    text.extend_from_slice(piece)
}

fn put_line(text: &mut Vec<u8>, name: &str, value: &[u8]) -> Result<(), AllocError>
    ensures { OnOk result (text.new.items ≡ text.old.items ++ sealed_line (name.now, value.now)) }
{
    put(text, name.as_bytes())?;
    put(text, b": ")?;
    put(text, value)?;
    put(text, b"\n")
}

fn put_first(text: &mut Vec<u8>, head: &HeaderMap, name: &str) -> Result<(), AllocError>
    ensures { OnOk result (text.new.items ≡ text.old.items ++ flat_map sealed_line (first_of head.now name.now)) }
{
    match head.get(name) {
        Some(value) => put_line(text, name, value.as_bytes()),
        None => Ok(()),
    }
}

fn put_lines(text: &mut Vec<u8>, head: &HeaderMap, headers: &[AireHeader]) -> Result<(), AllocError>
    ensures { OnOk result (text.new.items
        ≡ text.old.items ++ flat_map sealed_line (flat_map (first_of_header head.now) headers.now)) }
{
    for header in headers {
        put_first(text, head, header.spelling())?;
    }
    Ok(())
}

fn put_fields(
    text: &mut Vec<u8>,
    head: &HeaderMap,
    headers: &[AireHeader],
    body: &Text,
) -> Result<(), AllocError>
    ensures { OnOk result (text.new.items ≡ text.old.items ++ sealed_fields head.now headers.now body.now) }
{
    put_lines(text, head, headers)?;
    put(text, b"\n")?;
    put(text, body.as_bytes())
}

fn put_request(
    alloc: Global,
    text: &mut Vec<u8>,
    request: &WireRequest,
    headers: &[AireHeader],
) -> Result<(), AllocError>
    ensures { OnOk result (text.new.items ≡ text.old.items
        ++ sealed_request request.now.method request.now.path request.now.head headers.now request.now.body) }
{
    let word = method_word(request.method);
    let path = request.path.as_str();
    let line = format!(in alloc; "{word} {path}\n")?;
    put(text, line.as_bytes())?;
    put_fields(text, &request.head, headers, &request.body)
}

fn put_response(
    alloc: Global,
    text: &mut Vec<u8>,
    response: &WireResponse,
    headers: &[AireHeader],
) -> Result<(), AllocError>
    ensures { OnOk result (text.new.items ≡ text.old.items
        ++ sealed_response response.now.status response.now.head headers.now response.now.body) }
{
    let status = response.status;
    let line = format!(in alloc; "{status}\n")?;
    put(text, line.as_bytes())?;
    put_fields(text, &response.head, headers, &response.body)
}

/// The sealed bytes of a request: its method and path, those of these fields that its head has, in their order, and the
/// body.
pub fn sealed_request(
    alloc: Global,
    request: &WireRequest,
    headers: &[AireHeader],
) -> Result<Bytes, NoMemory>
    ensures { IfOk result (λ bytes. bytes
        ≡ sealed_request request.now.method request.now.path request.now.head headers.now request.now.body) }
{
    let mut text = Vec::new(alloc);
    match put_request(alloc, &mut text, request, headers) {
        Ok(()) => Ok(Bytes::from(text)),
        Err(_) => Err(NoMemory),
    }
}

/// The sealed bytes of a response: its status, those of these fields that its head has, in their order, and the body.
pub fn sealed_response(
    alloc: Global,
    response: &WireResponse,
    headers: &[AireHeader],
) -> Result<Bytes, NoMemory>
    ensures { IfOk result (λ bytes. bytes
        ≡ sealed_response response.now.status response.now.head headers.now response.now.body) }
{
    let mut text = Vec::new(alloc);
    match put_response(alloc, &mut text, response, headers) {
        Ok(()) => Ok(Bytes::from(text)),
        Err(_) => Err(NoMemory),
    }
}
