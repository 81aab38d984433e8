// Which kind of reply answers which kind of message, and the fields that it has.
ghost use Rattle.std.specs.Prelude.{◌≡◌, codes};
ghost use Rattle.http_header.specs.HeaderMap.{get};
ghost use Rattle.wire_replies.specs.Kinds.{answer_kind, reply_headers, reply_kind};

use http_front::AireHeader;
use http_header::HeaderMap;
use wire_fields::{ACK_HEADERS, CONFIRM_HEADERS, LIVE_REPLY_HEADERS, REFUSAL_HEADERS};

/// What was sent to a peer, whose reply is read.
#[derive(Clone, Copy, Debug, PartialEq, Eq)]
pub enum Asking {
    /// A live call.
    Call,
    /// A version of a call.
    Set,
    /// A token, which announces an answer to a call of the peer's.
    Token,
    /// A fetch of an answer to a call, which is answered as a live call is.
    Fetch,
}

/// A kind of reply.
#[derive(Clone, Copy, Debug, PartialEq, Eq)]
pub enum ReplyKind {
    /// The answer to a live call, or the one that was fetched.
    Live,
    /// The acknowledgement of a version of a call.
    Ack,
    /// The confirmation of a token.
    Confirm,
    /// A refusal.
    Refusal,
}

fn answer_kind(asking: Asking) -> ReplyKind
    ensures { result ≡ answer_kind asking }
{
    match asking {
        Asking::Call | Asking::Fetch => ReplyKind::Live,
        Asking::Set => ReplyKind::Ack,
        Asking::Token => ReplyKind::Confirm,
    }
}

/// The kind of a reply: a refusal where it has the word of one, else by what was asked.
pub fn reply_kind(asking: Asking, head: &HeaderMap) -> ReplyKind
    ensures { result ≡ reply_kind asking (get head.now (codes "aire-refused")) }
{
    match head.get("aire-refused") {
        None => answer_kind(asking),
        Some(_) => ReplyKind::Refusal,
    }
}

/// The fields of such a reply between services, but its seal, in the order of the table.
pub fn reply_headers(kind: ReplyKind) -> &'static [AireHeader]
    ensures { result.now ≡ reply_headers kind }
{
    match kind {
        ReplyKind::Live => LIVE_REPLY_HEADERS.as_slice(),
        ReplyKind::Ack => ACK_HEADERS.as_slice(),
        ReplyKind::Confirm => CONFIRM_HEADERS.as_slice(),
        ReplyKind::Refusal => REFUSAL_HEADERS.as_slice(),
    }
}
