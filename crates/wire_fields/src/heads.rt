// Heads, made field by field.
ghost use Rattle.std.specs.Prelude.{◌≡◌, decimal, OnOk};
ghost use Rattle.http_front.specs.Table.{spelling};
ghost use Rattle.http_header.specs.HeaderMap.{append};
ghost use Rattle.http_header.specs.Token.{lowercase};
ghost use Rattle.request_names.specs.Ids.{id_text};
ghost use Rattle.wire_fields.specs.Heads.{with_field};

use http_front::AireHeader;
use http_header::{HeaderMap, HeaderValue};
use lang_core::{Name, NoMemory};
use std::alloc::Global;

// A head has room for 24,576 names, far more than the table has; a full one is answered as memory that lacks.
fn put_value(head: &mut HeaderMap, header: AireHeader, value: HeaderValue) -> Result<(), NoMemory>
    ensures { OnOk result (head.new ≡ append head.old (lowercase (spelling header)) value) }
{
    match head.append(header.spelling(), value) {
        Ok(_) => Ok(()),
        Err(_) => Err(NoMemory),
    }
}

/// Adds a field with this text. A text of its header's form has no control byte, so that memory is all that can lack; a
/// text that no field can hold is answered so too.
pub fn put_field(
    alloc: Global,
    head: &mut HeaderMap,
    header: AireHeader,
    text: &[u8],
) -> Result<(), NoMemory>
    ensures { OnOk result (head.new ≡ with_field head.old (header, text.now)) }
{
    match HeaderValue::from_bytes(alloc, text) {
        Ok(value) => put_value(head, header, value),
        Err(_) => Err(NoMemory),
    }
}

/// Adds a field with a number.
pub fn put_number(
    alloc: Global,
    head: &mut HeaderMap,
    header: AireHeader,
    number: u64,
) -> Result<(), NoMemory>
    ensures { OnOk result (head.new ≡ with_field head.old (header, decimal number)) }
{
    let text = format!(in alloc; "{number}")?;
    put_field(alloc, head, header, text.as_bytes())
}

/// Adds a field with the id of a service's request or call.
pub fn put_id(
    alloc: Global,
    head: &mut HeaderMap,
    header: AireHeader,
    service: &Name,
    number: u64,
) -> Result<(), NoMemory>
    ensures { OnOk result (head.new ≡ with_field head.old (header, id_text service.now number)) }
{
    let service = service.as_str();
    let text = format!(in alloc; "{service}/{number}")?;
    put_field(alloc, head, header, text.as_bytes())
}

/// Adds the two services between which a message goes.
pub fn put_sides(
    alloc: Global,
    head: &mut HeaderMap,
    from: &str,
    dest: &str,
) -> Result<(), NoMemory>
    ensures { OnOk result (head.new
        ≡ with_field (with_field head.old (AireHeader.From, from.now)) (AireHeader.Dest, dest.now)) }
{
    put_field(alloc, head, AireHeader::From, from.as_bytes())?;
    put_field(alloc, head, AireHeader::Dest, dest.as_bytes())
}
