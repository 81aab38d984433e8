// Which header fields a message has, and the first that is missing or bad.
ghost use Rattle.std.specs.Prelude.{◌≡◌, [], Some, None, if◌then◌else◌};
ghost use Rattle.std.specs.Option.{option_map};
ghost use Rattle.std.specs.Str.{is_utf8};
ghost use Rattle.wire_fields.specs.Rows.{field_refusal, first_refusal, is_spelt, text_at};

use crate::forms::has_form;
use crate::refused::WireRefused;
use http_front::AireHeader;
use http_header::HeaderMap;
use std::str;

/// The fields of a live call but its seal, in the order of the table.
pub const CALL_HEADERS: [AireHeader; 6] = [
    AireHeader::From,
    AireHeader::Dest,
    AireHeader::ResponseId,
    AireHeader::NotifierUrl,
    AireHeader::Who,
    AireHeader::Chain,
];

/// The fields that each set message has, but its seal.
pub const SET_HEADERS: [AireHeader; 6] = [
    AireHeader::From,
    AireHeader::Dest,
    AireHeader::ResponseId,
    AireHeader::Repair,
    AireHeader::Version,
    AireHeader::Who,
];

/// Those of its desired request, which a deletion doesn't have.
pub const DESIRED_HEADERS: [AireHeader; 4] = [
    AireHeader::Method,
    AireHeader::Path,
    AireHeader::RequestWho,
    AireHeader::Chain,
];

/// Those that it may have.
pub const NEIGHBOUR_HEADERS: [AireHeader; 2] = [AireHeader::Before, AireHeader::After];

/// The fields of a token but its seal.
pub const TOKEN_HEADERS: [AireHeader; 7] = [
    AireHeader::From,
    AireHeader::Dest,
    AireHeader::RequestId,
    AireHeader::ResponseId,
    AireHeader::Repair,
    AireHeader::AnswerVersion,
    AireHeader::Who,
];

/// The fields of a fetch but its seal.
pub const FETCH_HEADERS: [AireHeader; 4] = [
    AireHeader::From,
    AireHeader::Dest,
    AireHeader::ResponseId,
    AireHeader::AnswerVersion,
];

/// The fields of what an operator sends, but its seal.
pub const CONSOLE_HEADERS: [AireHeader; 2] = [AireHeader::Dest, AireHeader::Who];

/// The field that stands last in each kind of message between services.
pub const SEAL_HEADER: [AireHeader; 1] = [AireHeader::Seal];

/// The fields of the reply to a live call, but its seal.
pub const LIVE_REPLY_HEADERS: [AireHeader; 6] = [
    AireHeader::From,
    AireHeader::Dest,
    AireHeader::RequestId,
    AireHeader::ResponseId,
    AireHeader::Version,
    AireHeader::AnswerVersion,
];

/// The fields of an acknowledgement, but its seal.
pub const ACK_HEADERS: [AireHeader; 4] = [
    AireHeader::From,
    AireHeader::Dest,
    AireHeader::ResponseId,
    AireHeader::Version,
];

/// The fields of a confirmation, but its seal.
pub const CONFIRM_HEADERS: [AireHeader; 4] = [
    AireHeader::From,
    AireHeader::Dest,
    AireHeader::ResponseId,
    AireHeader::AnswerVersion,
];

/// The fields of a refusal, but its seal.
pub const REFUSAL_HEADERS: [AireHeader; 3] = [
    AireHeader::From,
    AireHeader::Dest,
    AireHeader::Refused,
];

// The bytes as a text, where they are UTF-8.
fn utf8(bytes: &[u8]) -> Option<&str>
    ensures { option_map (λ text. text.now) result ≡ (if is_utf8 bytes.now then Some bytes.now else None) }
{
    match str::from_utf8(bytes) {
        Ok(text) => Some(text),
        Err(_) => None,
    }
}

fn is_spelt(header: AireHeader, bytes: &[u8]) -> bool
    ensures { result ≡ is_spelt header bytes.now }
{
    match utf8(bytes) {
        Some(text) => has_form(header, text),
        None => false,
    }
}

fn field_refusal(head: &HeaderMap, wanted: bool, header: AireHeader) -> Option<WireRefused>
    ensures { result ≡ field_refusal head.now wanted header }
{
    let mut values = head.get_all(header.spelling()).iter();
    let Some(first) = values.next() else {
        return if wanted {
            Some(WireRefused::MissingHeader(header))
        } else {
            None
        };
    };
    if values.next().is_some() || !is_spelt(header, first.as_bytes()) {
        return Some(WireRefused::BadHeader(header));
    }
    None
}

/// What is wrong with the first of these fields with which anything is.
pub fn first_refusal(head: &HeaderMap, wanted: bool, headers: &[AireHeader]) -> Option<WireRefused>
    ensures { result ≡ first_refusal head.now wanted headers.now }
{
    for header in headers {
        if let Some(why) = field_refusal(head, wanted, *header) {
            return Some(why);
        }
    }
    None
}

/// The text of a field, empty where there is none.
pub fn text_at(head: &HeaderMap, header: AireHeader) -> &str
    ensures { result.now ≡ text_at head.now header }
{
    match head.get(header.spelling()) {
        Some(value) => text_of(value.as_bytes()),
        None => "",
    }
}

fn text_of(bytes: &[u8]) -> &str
    ensures { result.now ≡ (if is_utf8 bytes.now then bytes.now else []) }
{
    match utf8(bytes) {
        Some(text) => text,
        None => "",
    }
}
