// The fields of a head, put into a map.
ghost use Rattle.std.specs.Prelude.{◌≡◌, ◌≤◌, length, map, All, IfOk, OnOk};
ghost use Rattle.httparse.specs.Spans.{IsHeaderWithin, header_bytes};
ghost use Rattle.http_header.specs.FieldName.{IsFieldName};
ghost use Rattle.http_header.specs.FieldValue.{IsFieldValue, plain_value};
ghost use Rattle.http_header.specs.HeaderMap.{append};
ghost use Rattle.http_header.specs.Token.{lowercase};
ghost use Rattle.http_front.specs.Fields.{FitsMap, HoldsUpTo, map_of};

use http_header::{
    HeaderMap, HeaderMapError, HeaderName, HeaderNameError, HeaderValue, HeaderValueError,
};
use httparse::spans::HeaderSpan;
use lang_base::{NoMemory, both};
use std::alloc::Global;

fn name_of(alloc: Global, bytes: &[u8]) -> Result<HeaderName, NoMemory>
    requires { IsFieldName bytes.now }
    ensures { IfOk result (λ name. name ≡ lowercase bytes.now) }
{
    match HeaderName::from_bytes(alloc, bytes) {
        Ok(name) => Ok(name),
        Err(HeaderNameError::OutOfMemory) => Err(NoMemory),
        Err(HeaderNameError::Invalid) => unreachable!(),
    }
}

fn value_of(alloc: Global, bytes: &[u8]) -> Result<HeaderValue, NoMemory>
    requires { IsFieldValue bytes.now }
    ensures { IfOk result (λ value. value ≡ plain_value bytes.now) }
{
    match HeaderValue::from_bytes(alloc, bytes) {
        Ok(value) => Ok(value),
        Err(HeaderValueError::OutOfMemory) => Err(NoMemory),
        Err(HeaderValueError::Invalid) => unreachable!(),
    }
}

fn put(head: &mut HeaderMap, name: HeaderName, value: HeaderValue) -> Result<(), NoMemory>
    requires { HoldsUpTo 64 head.old }
    ensures { OnOk result (head.new ≡ append head.old name value) }
{
    match head.append(name, value) {
        Ok(_) => Ok(()),
        Err(HeaderMapError::OutOfMemory) => Err(NoMemory),
        Err(HeaderMapError::MaxSizeReached) => unreachable!(),
    }
}

// The field is one of a map, and the map has room, so memory is all that can lack.
fn add(alloc: Global, head: &mut HeaderMap, name: &[u8], value: &[u8]) -> Result<(), NoMemory>
    requires name { IsFieldName name.now }
    requires value { IsFieldValue value.now }
    requires room { HoldsUpTo 64 head.old }
    ensures { OnOk result (head.new ≡ append head.old (lowercase name.now) (plain_value value.now)) }
{
    let (name, value) = both(name_of(alloc, name), value_of(alloc, value))?;
    put(head, name, value)
}

/// The map of the fields that stand at these places.
pub fn map_of(alloc: Global, bytes: &[u8], fields: &[HeaderSpan]) -> Result<HeaderMap, NoMemory>
    requires within { All (IsHeaderWithin (length bytes.now)) fields.now }
    requires short { length bytes.now ≤ 16384 }
    requires fit { All FitsMap (map (header_bytes bytes.now) fields.now) }
    requires few { length fields.now ≤ 64 }
    ensures { IfOk result (λ head. head ≡ map_of (map (header_bytes bytes.now) fields.now)) }
{
    let mut head = HeaderMap::new(alloc);
    for field in fields {
        add(
            alloc,
            &mut head,
            field.name.of(bytes),
            field.value.of(bytes),
        )?;
    }
    Ok(head)
}
