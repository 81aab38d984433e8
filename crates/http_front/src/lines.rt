// The lines of a head that is written.
ghost use Rattle.std.specs.Prelude.{◌≡◌, ◌++◌, OnOk, codes};
ghost use Rattle.std.specs.List.{flat_map};
ghost use Rattle.http_front.specs.Writing.{aire_lines, field_line, first_of, first_of_header, last_lines, type_line, with_body};

use crate::header::{AIRE_HEADERS, AireHeader};
use http_header::HeaderMap;
use lang_base::Text;
use std::alloc::{AllocError, Global};

/// What a body is without a `Content-Type` of its own.
const PLAIN_TEXT: &str = "text/plain; charset=utf-8";

/// A piece, behind what stands there.
pub fn put(text: &mut Vec<u8>, piece: &[u8]) -> Result<(), AllocError>
    ensures { OnOk result (text.new.items ≡ text.old.items ++ piece.now) }
{
    text.extend_from_slice(piece)
}

fn put_field(text: &mut Vec<u8>, name: &str, value: &[u8]) -> Result<(), AllocError>
    ensures { OnOk result (text.new.items ≡ text.old.items ++ field_line (name.now, value.now)) }
{
    put(text, name.as_bytes())?;
    put(text, b": ")?;
    put(text, value)?;
    put(text, b"\r\n")
}

/// The line of the first value under a name, where there is one.
pub fn put_first(text: &mut Vec<u8>, head: &HeaderMap, name: &str) -> Result<(), AllocError>
    ensures { OnOk result (text.new.items ≡ text.old.items ++ flat_map field_line (first_of head.now name.now)) }
{
    match head.get(name) {
        Some(value) => put_field(text, name, value.as_bytes()),
        None => Ok(()),
    }
}

// The lines of these fields, in their order.
fn put_all(text: &mut Vec<u8>, head: &HeaderMap, headers: &[AireHeader]) -> Result<(), AllocError>
    ensures { OnOk result (text.new.items
        ≡ text.old.items ++ flat_map field_line (flat_map (first_of_header head.now) headers.now)) }
{
    for header in headers {
        put_first(text, head, header.spelling())?;
    }
    Ok(())
}

/// The lines of the table's fields, in its order.
pub fn put_aire(text: &mut Vec<u8>, head: &HeaderMap) -> Result<(), AllocError>
    ensures { OnOk result (text.new.items ≡ text.old.items ++ flat_map field_line (aire_lines head.now)) }
{
    put_all(text, head, AIRE_HEADERS.as_slice())
}

/// The line of the head's own type, or of plain text.
pub fn put_type(text: &mut Vec<u8>, head: &HeaderMap) -> Result<(), AllocError>
    ensures { OnOk result (text.new.items ≡ text.old.items ++ field_line (type_line head.now)) }
{
    match head.get("content-type") {
        Some(value) => put_field(text, "Content-Type", value.as_bytes()),
        None => put_field(text, "Content-Type", PLAIN_TEXT.as_bytes()),
    }
}

/// The lines that stand last, the blank line that ends the head, and the body.
pub fn put_body(alloc: Global, text: &mut Vec<u8>, body: &Text) -> Result<(), AllocError>
    ensures { OnOk result (text.new.items ≡ text.old.items ++ with_body (last_lines body.now) body.now) }
{
    let length = body.len();
    let last = format!(in alloc; "Content-Length: {length}\r\nConnection: close\r\n\r\n")?;
    put(text, last.as_bytes())?;
    put(text, body.as_bytes())
}
