// Where the reading of a request or a response ends: what was read, what it is refused for, and what is left in the source.
use crate::given::{front, holds, letters, source, with_value};
use http_front::{FrontRefused, read_request, read_response};
use io_edge::Source;
use std::process::Abort;

// A request with this body is read, and this is left.
fn gives(rt: &(impl Abort + AllocGlobal), bytes: &str, body: &str, left: &str) {
    let mut source = source(rt, bytes.as_bytes(), 0);
    let request = read_request(rt.alloc(), &mut source).ok().expect(rt, bytes);
    holds(rt, bytes, request.body.as_str() == body);
    holds(rt, bytes, source.left() == left.as_bytes());
}

// A request is refused so where this read fails, and so many bytes are left.
fn refuses(
    rt: &(impl Abort + AllocGlobal),
    bytes: &[u8],
    fails: u64,
    why: FrontRefused,
    left: usize,
) {
    let mut source = source(rt, bytes, fails);
    let refused = read_request(rt.alloc(), &mut source).err();
    holds(rt, "why", refused == Some(why));
    holds(rt, "left", source.left().len() == left);
    holds(
        rt,
        "faults",
        source.faults() == if fails > 0 { 1 } else { 0 },
    );
}

// A response with this status and this body is read, and so many bytes are left.
fn gives_response(
    rt: &(impl Abort + AllocGlobal),
    bytes: &str,
    status: u16,
    body: &str,
    left: usize,
) {
    let mut source = source(rt, bytes.as_bytes(), 0);
    let response = read_response(rt.alloc(), &mut source)
        .ok()
        .expect(rt, bytes);
    holds(rt, bytes, response.status == status);
    holds(rt, bytes, response.body.as_str() == body);
    holds(rt, bytes, source.left().len() == left);
}

// A response is refused so where this read fails, and so many bytes are left.
fn refuses_response(
    rt: &(impl Abort + AllocGlobal),
    bytes: &[u8],
    fails: u64,
    why: FrontRefused,
    left: usize,
) {
    let mut source = source(rt, bytes, fails);
    let refused = read_response(rt.alloc(), &mut source).err();
    holds(rt, "why", refused == Some(why));
    holds(rt, "left", source.left().len() == left);
    holds(
        rt,
        "faults",
        source.faults() == if fails > 0 { 1 } else { 0 },
    );
}

// Nothing behind a body is taken, nor behind a head that is none.
#[test]
fn what_is_left_of_a_request(rt: HostRuntime) {
    gives(
        &rt,
        "PUT /a HTTP/1.1\r\nContent-Length: 3\r\n\r\nabcdef",
        "abc",
        "def",
    );
    gives(&rt, "PUT /a HTTP/1.1\r\n\r\nabc", "", "abc");
    let none = b"GET a HTTP/1.1\r\n\r\nrest".as_slice();
    refuses(&rt, none, 0, FrontRefused::BadHead, 4);
    let no_text = b"PUT /a HTTP/1.1\r\nContent-Length: 1\r\n\r\n\xc3\xa9".as_slice();
    refuses(&rt, no_text, 0, FrontRefused::NotText, 1);
    let longer = with_value(&rt, "GET /a HTTP/1.1", 16_362);
    let bytes = longer.as_bytes();
    refuses(&rt, bytes, 0, FrontRefused::HeadTooLong, 1);
    refuses(&rt, front(bytes, 16_383), 0, FrontRefused::Cut(16_383), 0);
}

// The read with this number fails of a request and of a response whose heads have 38 bytes, and so many are left.
fn fail(rt: &(impl Abort + AllocGlobal), read: u64, left: usize) {
    let why = FrontRefused::ReadFault;
    let request = b"PUT /a HTTP/1.1\r\nContent-Length: 5\r\n\r\nhello".as_slice();
    refuses(rt, request, read, why, left);
    let response = b"HTTP/1.1 200 OK\r\nContent-Length: 5\r\n\r\nhello".as_slice();
    refuses_response(rt, response, read, why, left);
}

// Each byte of a head is a read of its own; the body comes in pieces of two.
#[test]
fn reads_that_fail(rt: HostRuntime) {
    fail(&rt, 1, 43);
    fail(&rt, 38, 6);
    fail(&rt, 39, 5);
    fail(&rt, 41, 1);
}

// A source that ends after any number of bytes below the whole.
#[test]
fn cut_at_each_byte(rt: HostRuntime) {
    let request = b"\r\nPUT /n/a HTTP/1.1\r\nContent-Length: 5\r\n\r\nhello";
    for cut in 0..request.len() {
        refuses(&rt, &request[..cut], 0, FrontRefused::Cut(cut as u64), 0);
    }
    let response = b"\r\nHTTP/1.1 200 OK\r\nContent-Length: 5\r\n\r\nhello";
    for cut in 0..response.len() {
        refuses_response(&rt, &response[..cut], 0, FrontRefused::Cut(cut as u64), 0);
    }
}

#[test]
fn responses(rt: HostRuntime) {
    gives_response(
        &rt,
        "HTTP/1.1 404 Not Found\r\nAire-Request-Id: notes/1\r\nContent-Type: text/plain; charset=utf-8\r\nContent-Length: 0\r\nConnection: close\r\n\r\n",
        404,
        "",
        0,
    );
    gives_response(&rt, "HTTP/1.0 200\r\n\r\nabc", 200, "", 3);
    gives_response(
        &rt,
        "HTTP/1.1 999 \r\ncontent-length:3\n\nabc",
        999,
        "abc",
        0,
    );
    for line in [
        "HTTP/1.1 20 OK\r\n\r\n",
        "HTTP/1.1 2000 OK\r\n\r\n",
        "HTTP/2.0 200 OK\r\n\r\n",
        "GET /a HTTP/1.1\r\n\r\n",
        "200 OK\r\n\r\n",
    ] {
        refuses_response(&rt, line.as_bytes(), 0, FrontRefused::BadHead, 0);
    }
    let coding = b"HTTP/1.1 200 OK\r\nTransfer-Encoding: chunked\r\n\r\n".as_slice();
    refuses_response(&rt, coding, 0, FrontRefused::Coding, 0);
    let length = b"HTTP/1.1 200 OK\r\nContent-Length: y\r\n\r\n".as_slice();
    refuses_response(&rt, length, 0, FrontRefused::BadLength, 0);
    let longer = b"HTTP/1.1 200 OK\r\nContent-Length: 65537\r\n\r\n".as_slice();
    refuses_response(&rt, longer, 0, FrontRefused::BodyTooLong, 0);
}

// A response with so many fields.
fn with_fields(rt: &(impl Abort + AllocGlobal), count: usize) -> String {
    let fields = "\r\nA: x".repeat(rt.alloc(), count).expect(rt, "memory");
    format!(in rt.alloc(); "HTTP/1.1 200 OK{fields}\r\n\r\n").expect(rt, "memory")
}

// A response that announces the longest body, with so many letters behind its head of 42 bytes.
fn with_body(rt: &(impl Abort + AllocGlobal), count: usize) -> String {
    let body = letters(rt, count);
    format!(in rt.alloc(); "HTTP/1.1 200 OK\r\nContent-Length: 65536\r\n\r\n{body}").expect(
        rt, "memory",
    )
}

// A head's line and the rest have 15 and 8 bytes.
#[test]
fn limits_of_responses(rt: HostRuntime) {
    gives_response(&rt, &with_value(&rt, "HTTP/1.1 200 OK", 16_361), 200, "", 0);
    let longer = with_value(&rt, "HTTP/1.1 200 OK", 16_362);
    let bytes = longer.as_bytes();
    refuses_response(&rt, bytes, 0, FrontRefused::HeadTooLong, 1);
    refuses_response(&rt, front(bytes, 16_383), 0, FrontRefused::Cut(16_383), 0);
    gives_response(&rt, &with_fields(&rt, 64), 200, "", 0);
    refuses_response(
        &rt,
        with_fields(&rt, 65).as_bytes(),
        0,
        FrontRefused::BadHead,
        0,
    );
    let body = letters(&rt, 65_536);
    gives_response(&rt, &with_body(&rt, 65_537), 200, &body, 1);
    let cut = with_body(&rt, 65_535);
    refuses_response(&rt, cut.as_bytes(), 0, FrontRefused::Cut(65_577), 0);
}
