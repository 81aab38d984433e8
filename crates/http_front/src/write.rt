// Requests and responses, written.
ghost use Rattle.std.specs.Prelude.{◌≡◌, ◌≤◌, ◌++◌, codes, decimal, IfOk, OnOk, OnErr, IsErrOf};
ghost use Rattle.io_edge.specs.Edge.{Wrote, WroteShort, WriteFails};
ghost use Rattle.lang_tree.specs.Methods.{method_word};
ghost use Rattle.http_front.specs.Writing.{phrase, request_bytes, response_bytes};

use crate::lines::{put, put_aire, put_body, put_first, put_type};
use crate::message::{WireRequest, WireResponse, WriteRefused};
use http::StatusCode;
use io_edge::{Sink, write_all};
use lang_base::{Bytes, NoMemory, Text};
use lang_tree::{Method, method_word};
use std::alloc::{AllocError, Global};

fn put_request_line(
    alloc: Global,
    text: &mut Vec<u8>,
    method: Method,
    path: &Text,
) -> Result<(), AllocError>
    ensures { OnOk result (text.new.items ≡ text.old.items
        ++ (method_word method ++ (codes " " ++ (path.now ++ codes " HTTP/1.1\r\n")))) }
{
    let word = method_word(method);
    let path = path.as_str();
    let line = format!(in alloc; "{word} {path} HTTP/1.1\r\n")?;
    put(text, line.as_bytes())
}

fn phrase(status: u16) -> &'static str
    ensures { result.now ≡ phrase status }
{
    match StatusCode::from_u16(status) {
        Ok(code) => match code.canonical_reason() {
            Some(phrase) => phrase,
            None => "",
        },
        Err(_) => "",
    }
}

fn put_status_line(alloc: Global, text: &mut Vec<u8>, status: u16) -> Result<(), AllocError>
    ensures { OnOk result (text.new.items ≡ text.old.items
        ++ (codes "HTTP/1.1 " ++ (decimal status ++ (codes " " ++ (phrase status ++ codes "\r\n"))))) }
{
    let phrase = phrase(status);
    let line = format!(in alloc; "HTTP/1.1 {status} {phrase}\r\n")?;
    put(text, line.as_bytes())
}

fn put_request(alloc: Global, text: &mut Vec<u8>, request: &WireRequest) -> Result<(), AllocError>
    ensures { OnOk result (text.new.items ≡ text.old.items ++ request_bytes request.now) }
{
    put_request_line(alloc, text, request.method, &request.path)?;
    put_first(text, &request.head, "Host")?;
    put_aire(text, &request.head)?;
    put_body(alloc, text, &request.body)
}

fn put_response(
    alloc: Global,
    text: &mut Vec<u8>,
    response: &WireResponse,
) -> Result<(), AllocError>
    ensures { OnOk result (text.new.items ≡ text.old.items ++ response_bytes response.now) }
{
    put_status_line(alloc, text, response.status)?;
    put_aire(text, &response.head)?;
    put_type(text, &response.head)?;
    put_body(alloc, text, &response.body)
}

/// A request's bytes: its line, `Host` where the head has it, the fields of the table in its order, the first value of
/// each, `Content-Length` and `Connection: close`, and the body.
pub fn request_bytes(alloc: Global, request: &WireRequest) -> Result<Bytes, NoMemory>
    ensures { IfOk result (λ bytes. bytes ≡ request_bytes request.now) }
{
    let mut text = Vec::new(alloc);
    match put_request(alloc, &mut text, request) {
        Ok(()) => Ok(Bytes::from(text)),
        Err(_) => Err(NoMemory),
    }
}

/// A response's bytes: its status line with the status's phrase, the fields of the table in its order, the first value of
/// each, the head's `Content-Type` or plain text, `Content-Length` and `Connection: close`, and the body.
pub fn response_bytes(alloc: Global, response: &WireResponse) -> Result<Bytes, NoMemory>
    ensures { IfOk result (λ bytes. bytes ≡ response_bytes response.now) }
{
    let mut text = Vec::new(alloc);
    match put_response(alloc, &mut text, response) {
        Ok(()) => Ok(Bytes::from(text)),
        Err(_) => Err(NoMemory),
    }
}

fn write_bytes<K: Sink>(sink: &mut K, bytes: &[u8]) -> Result<(), WriteRefused>
    ensures ok { OnOk result (Wrote (K.writes sink.old) (K.writes sink.new) bytes.now) }
    ensures err { OnErr result (WroteShort (K.writes sink.old) (K.writes sink.new) bytes.now) }
    ensures faulty { OnErr result (IsErrOf result WriteRefused.WriteFault) }
    ensures beside { K.beside sink.new ≡ K.beside sink.old }

    ensures counted { (K.writes sink.old).faults ≤ (K.writes sink.new).faults }
    ensures fault { IsErrOf result WriteRefused.WriteFault → WriteFails (K.writes sink.old) (K.writes sink.new) }
{
    match write_all(sink, bytes) {
        Ok(()) => Ok(()),
        Err(_) => Err(WriteRefused::WriteFault),
    }
}

/// Writes a request's bytes. After a `WriteFault` a front of them was written, perhaps none but not all; where memory was
/// wanting, nothing was.
pub fn write_request<K: Sink>(
    alloc: Global,
    sink: &mut K,
    request: &WireRequest,
) -> Result<(), WriteRefused>
    ensures ok { OnOk result (Wrote (K.writes sink.old) (K.writes sink.new) (request_bytes request.now)) }
    ensures short { IsErrOf result WriteRefused.WriteFault
        → WroteShort (K.writes sink.old) (K.writes sink.new) (request_bytes request.now) }
    ensures memory { IsErrOf result WriteRefused.NoMemory → K.writes sink.new ≡ K.writes sink.old }
    ensures beside { K.beside sink.new ≡ K.beside sink.old }

    ensures counted { (K.writes sink.old).faults ≤ (K.writes sink.new).faults }
    ensures fault { IsErrOf result WriteRefused.WriteFault → WriteFails (K.writes sink.old) (K.writes sink.new) }
{
    match request_bytes(alloc, request) {
        Ok(bytes) => write_bytes(sink, bytes.as_slice()),
        Err(_) => Err(WriteRefused::NoMemory),
    }
}

/// Writes a response's bytes. After a `WriteFault` a front of them was written, perhaps none but not all; where memory was
/// wanting, nothing was.
pub fn write_response<K: Sink>(
    alloc: Global,
    sink: &mut K,
    response: &WireResponse,
) -> Result<(), WriteRefused>
    ensures ok { OnOk result (Wrote (K.writes sink.old) (K.writes sink.new) (response_bytes response.now)) }
    ensures short { IsErrOf result WriteRefused.WriteFault
        → WroteShort (K.writes sink.old) (K.writes sink.new) (response_bytes response.now) }
    ensures memory { IsErrOf result WriteRefused.NoMemory → K.writes sink.new ≡ K.writes sink.old }
    ensures beside { K.beside sink.new ≡ K.beside sink.old }

    ensures counted { (K.writes sink.old).faults ≤ (K.writes sink.new).faults }
    ensures fault { IsErrOf result WriteRefused.WriteFault → WriteFails (K.writes sink.old) (K.writes sink.new) }
{
    match response_bytes(alloc, response) {
        Ok(bytes) => write_bytes(sink, bytes.as_slice()),
        Err(_) => Err(WriteRefused::NoMemory),
    }
}
