// Messages that no service writes so, by their bytes, and writes that fail.
use crate::given::{failing, holds, text};
use http_front::{
    WireRequest, WireResponse, WriteRefused, request_bytes, response_bytes, write_request,
    write_response,
};
use http_header::{HeaderMap, HeaderName, HeaderValue};
use io_edge::{MemorySink, Sink};
use lang_core::Method;
use std::process::Abort;

fn put(rt: &(impl Abort + AllocGlobal), head: &mut HeaderMap, name: &str, value: &str) {
    let name = HeaderName::from_bytes(rt.alloc(), name.as_bytes()).ok();
    let value = HeaderValue::from_bytes(rt.alloc(), value.as_bytes()).ok();
    let put = head.append(name.expect(rt, "a name"), value.expect(rt, "a value"));
    holds(rt, "put", put.is_ok());
}

// A response with this head, and `é` for a body.
fn response(rt: &(impl Abort + AllocGlobal), status: u16, head: HeaderMap) -> WireResponse {
    let body = text(rt, "\u{e9}");
    WireResponse { status, head, body }
}

// A request with this head, and `5` for a body.
fn request(rt: &(impl Abort + AllocGlobal), method: Method, head: HeaderMap) -> WireRequest {
    let path = text(rt, "/a");
    let body = text(rt, "5");
    WireRequest {
        method,
        path,
        head,
        body,
    }
}

// Of a field that is there twice the first is written, and one that isn't of the table not at all.
#[test]
fn fields_of_a_response(rt: HostRuntime) {
    let mut head = HeaderMap::new(rt.alloc());
    put(&rt, &mut head, "content-type", "application/json");
    put(&rt, &mut head, "server", "none");
    put(&rt, &mut head, "aire-seal", "00");
    put(&rt, &mut head, "aire-dest", "bank");
    put(&rt, &mut head, "aire-dest", "shop");
    let response = response(&rt, 299, head);
    let bytes = response_bytes(rt.alloc(), &response).expect(&rt, "memory");
    let wanted =
        "HTTP/1.1 299 \r\nAire-Dest: bank\r\nAire-Seal: 00\r\nContent-Type: application/json\r\nContent-Length: 2\r\nConnection: close\r\n\r\n\u{e9}";
    holds(&rt, wanted, bytes.as_slice() == wanted.as_bytes());
}

#[test]
fn fields_of_a_request(rt: HostRuntime) {
    let mut head = HeaderMap::new(rt.alloc());
    put(&rt, &mut head, "AIRE-VERSION", "2");
    put(&rt, &mut head, "aire-from", "shop");
    put(&rt, &mut head, "host", "127.0.0.1:8102");
    put(&rt, &mut head, "content-type", "text/plain");
    let request = request(&rt, Method::Delete, head);
    let bytes = request_bytes(rt.alloc(), &request).expect(&rt, "memory");
    let wanted =
        "DELETE /a HTTP/1.1\r\nHost: 127.0.0.1:8102\r\nAire-From: shop\r\nAire-Version: 2\r\nContent-Length: 1\r\nConnection: close\r\n\r\n5";
    holds(&rt, wanted, bytes.as_slice() == wanted.as_bytes());
}

const RESPONSE: &str =
    "HTTP/1.1 404 Not Found\r\nContent-Type: text/plain; charset=utf-8\r\nContent-Length: 2\r\nConnection: close\r\n\r\n\u{e9}";

// The second write fails, and what the first one took stands there.
#[test]
fn a_response_that_is_not_written(rt: HostRuntime) {
    let response = response(&rt, 404, HeaderMap::new(rt.alloc()));
    let mut sink = MemorySink::in_pieces(rt.alloc(), 10, failing(&rt, 2));
    let refused = write_response(rt.alloc(), &mut sink, &response);
    holds(&rt, "refused", refused == Err(WriteRefused::WriteFault));
    holds(&rt, "a front", sink.bytes() == b"HTTP/1.1 4".as_slice());
    holds(&rt, "one fault", sink.faults() == 1);
    let mut sink = MemorySink::in_pieces(rt.alloc(), 10, failing(&rt, 0));
    let written = write_response(rt.alloc(), &mut sink, &response);
    holds(&rt, "written", written.is_ok());
    holds(&rt, "whole", sink.bytes() == RESPONSE.as_bytes());
}

const REQUEST: &str = "PUT /a HTTP/1.1\r\nContent-Length: 1\r\nConnection: close\r\n\r\n5";

#[test]
fn a_request_that_is_not_written(rt: HostRuntime) {
    let request = request(&rt, Method::Put, HeaderMap::new(rt.alloc()));
    let mut sink = MemorySink::in_pieces(rt.alloc(), 10, failing(&rt, 1));
    let refused = write_request(rt.alloc(), &mut sink, &request);
    holds(&rt, "refused", refused == Err(WriteRefused::WriteFault));
    holds(&rt, "nothing", sink.bytes() == b"".as_slice());
    let mut sink = MemorySink::in_pieces(rt.alloc(), 10, failing(&rt, 0));
    let written = write_request(rt.alloc(), &mut sink, &request);
    holds(&rt, "written", written.is_ok());
    holds(&rt, "whole", sink.bytes() == REQUEST.as_bytes());
}
