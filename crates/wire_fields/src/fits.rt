// What the texts of a message's fields say, and whether they fit the message.
ghost use Rattle.std.specs.Prelude.{◌≡◌, IfOk, IsTrue};
ghost use Rattle.lang_core.specs.Names.{is_name};
ghost use Rattle.wire_fields.specs.Fits.{bad_unless, dest_refusal, number_in, service_in, side_refusal, version_at};
ghost use Rattle.wire_fields.specs.Rows.{first_of};

use crate::refused::WireRefused;
use crate::rows::text_at;
use http_front::AireHeader;
use http_header::HeaderMap;
use lang_core::{Name, NoMemory, Text};
use request_names::{id_of, read_number};
use std::alloc::Global;

/// The service of an id, empty where the text names none.
pub fn service_in(text: &str) -> &str
    ensures { result.now ≡ service_in text.now }
{
    match id_of(text) {
        Some((service, _)) => service,
        None => "",
    }
}

/// The number of an id, 0 where the text names none.
pub fn number_in(text: &str) -> u64
    ensures { result ≡ number_in text.now }
{
    match id_of(text) {
        Some((_, number)) => number,
        None => 0,
    }
}

/// The number in a field, 0 where there is none.
pub fn version_at(head: &HeaderMap, header: AireHeader) -> u64
    ensures { result ≡ version_at head.now header }
{
    match read_number(text_at(head, header)) {
        Some(number) => number,
        None => 0,
    }
}

/// The name with this text.
pub fn name_of(alloc: Global, text: &str) -> Result<Name, NoMemory>
    requires { IsTrue (is_name text.now) }
    ensures { IfOk result (λ name. name ≡ text.now) }
{
    match Name::new(Text::of(alloc, text)?) {
        Ok(name) => Ok(name),
        Err(_) => unreachable!(),
    }
}

/// The first of two refusals.
pub fn first_of(first: Option<WireRefused>, second: Option<WireRefused>) -> Option<WireRefused>
    ensures { result ≡ first_of first second }
{
    match first {
        None => second,
        Some(why) => Some(why),
    }
}

/// That the header is bad, unless it fits.
pub fn bad_unless(header: AireHeader, fits: bool) -> Option<WireRefused>
    ensures { result ≡ bad_unless header fits }
{
    if fits {
        None
    } else {
        Some(WireRefused::BadHeader(header))
    }
}

/// That an id is of another service than the one that this other field names.
pub fn side_refusal(head: &HeaderMap, id: AireHeader, side: AireHeader) -> Option<WireRefused>
    ensures { result ≡ side_refusal head.now id side }
{
    bad_unless(id, service_in(text_at(head, id)) == text_at(head, side))
}

/// That the message is for another service.
pub fn dest_refusal(me: &str, head: &HeaderMap) -> Option<WireRefused>
    ensures { result ≡ dest_refusal me.now head.now }
{
    bad_unless(AireHeader::Dest, text_at(head, AireHeader::Dest) == me)
}
