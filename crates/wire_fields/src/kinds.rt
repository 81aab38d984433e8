// Which kind of message a request is.
ghost use Rattle.std.specs.Prelude.{◌≡◌, codes};
ghost use Rattle.http_header.specs.HeaderMap.{get};
ghost use Rattle.wire_fields.specs.Kinds.{console_path, handled_kind, own_kind, posted_kind, request_kind};

use crate::console::{ConsoleWord, console_word};
use http_front::WireRequest;
use http_header::HeaderMap;
use lang_tree::Method;

/// A kind of message.
#[derive(Clone, Copy, Debug, PartialEq, Eq)]
pub enum RequestKind {
    /// A request from outside.
    Outside,
    /// A live call of a peer.
    Call,
    /// A version of a peer's call.
    Set,
    /// A peer's token, which announces an answer to a call.
    Token,
    /// A peer's fetch of an answer to its call.
    Fetch,
    /// A request of an operator.
    Console(ConsoleWord),
}

fn console_path(path: &[u8]) -> Option<RequestKind>
    ensures { result ≡ console_path path.now }
{
    if path.starts_with(b"/aire/console/") {
        console_word(&path[14..]).map(RequestKind::Console)
    } else {
        None
    }
}

fn posted_kind(path: &str) -> Option<RequestKind>
    ensures { result ≡ posted_kind path.now }
{
    match path {
        "/aire/repair" => Some(RequestKind::Set),
        "/aire/notify" => Some(RequestKind::Token),
        "/aire/fetch" => Some(RequestKind::Fetch),
        _ => console_path(path.as_bytes()),
    }
}

fn own_kind(method: Method, path: &str) -> Option<RequestKind>
    ensures { result ≡ own_kind method path.now }
{
    match method {
        Method::Post => posted_kind(path),
        Method::Get | Method::Put | Method::Delete => None,
    }
}

fn handled_kind(head: &HeaderMap) -> RequestKind
    ensures { result ≡ handled_kind (get head.now (codes "aire-response-id")) }
{
    match head.get("aire-response-id") {
        None => RequestKind::Outside,
        Some(_) => RequestKind::Call,
    }
}

/// Which kind of message a request is; None exactly where it is to a path below `/aire/` and none of those there.
pub fn request_kind(request: &WireRequest) -> Option<RequestKind>
    ensures { result ≡ request_kind request.now.method request.now.path request.now.head }
{
    let path = request.path.as_str();
    if path.starts_with("/aire/") {
        own_kind(request.method, path)
    } else {
        Some(handled_kind(&request.head))
    }
}
