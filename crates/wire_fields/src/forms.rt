// The forms of header fields.
ghost use Rattle.std.specs.Prelude.{◌≡◌};
ghost use Rattle.std.specs.List.{list_all};
ghost use Rattle.lang_core.specs.Names.{is_name, is_who};
ghost use Rattle.lang_tree.specs.Forms.{is_path};
ghost use Rattle.wire_fields.specs.Forms.{has_form, is_chain, is_notifier, is_seal, is_seal_digit, kind_named};

use crate::words::refusal_of;
use http_front::AireHeader;
use lang_core::{LONGEST_PATH, LONGEST_WHO, all_visible, is_name, method_named};
use repair_messages::Kind;
use request_names::{id_of, read_number};

fn is_who(bytes: &[u8]) -> bool
    ensures { result ≡ is_who bytes.now }
{
    !bytes.is_empty() && bytes.len() as u64 <= LONGEST_WHO && all_visible(bytes)
}

fn is_path(bytes: &[u8]) -> bool
    ensures { result ≡ is_path bytes.now }
{
    bytes.starts_with(b"/") && bytes.len() as u64 <= LONGEST_PATH && all_visible(bytes)
}

/// The kind of a message that has this word.
pub fn kind_named(word: &str) -> Option<Kind>
    ensures { result ≡ kind_named word.now }
{
    match word {
        "create" => Some(Kind::Create),
        "replace" => Some(Kind::Replace),
        "delete" => Some(Kind::Delete),
        "replace_response" => Some(Kind::ReplaceResponse),
        _ => None,
    }
}

fn is_chain(bytes: &[u8]) -> bool
    ensures { result ≡ is_chain bytes.now }
{
    bytes.split(|byte| *byte == b',').all(|name| is_name(name))
}

fn is_seal_digit(byte: u8) -> bool
    ensures { result ≡ is_seal_digit byte }
{
    byte.is_ascii_digit() || (b'a'..=b'f').contains(&byte)
}

fn all_seal_digits(bytes: &[u8]) -> bool
    ensures { result ≡ list_all is_seal_digit bytes.now }
{
    bytes.iter().all(|byte| is_seal_digit(*byte))
}

fn is_seal(bytes: &[u8]) -> bool
    ensures { result ≡ is_seal bytes.now }
{
    bytes.len() == 64 && all_seal_digits(bytes)
}

fn is_notifier(bytes: &[u8]) -> bool
    ensures { result ≡ is_notifier bytes.now }
{
    bytes.starts_with(b"http://")
        && bytes.ends_with(b"/aire/notify")
        && bytes.len() >= 20
        && bytes.len() <= 83
        && all_visible(bytes)
}

/// Whether the text is of its header's form.
pub fn has_form(header: AireHeader, text: &str) -> bool
    ensures { result ≡ has_form header text.now }
{
    match header {
        AireHeader::From | AireHeader::Dest => is_name(text.as_bytes()),
        AireHeader::RequestId | AireHeader::ResponseId => id_of(text).is_some(),
        AireHeader::NotifierUrl => is_notifier(text.as_bytes()),
        AireHeader::Repair => kind_named(text).is_some(),
        AireHeader::Version | AireHeader::AnswerVersion | AireHeader::Before | AireHeader::After =>
            { read_number(text).is_some() }
        AireHeader::Who | AireHeader::RequestWho => is_who(text.as_bytes()),
        AireHeader::Method => method_named(text.as_bytes()).is_some(),
        AireHeader::Path => is_path(text.as_bytes()),
        AireHeader::Chain => is_chain(text.as_bytes()),
        AireHeader::Refused => refusal_of(text).is_some(),
        AireHeader::Seal => is_seal(text.as_bytes()),
    }
}
