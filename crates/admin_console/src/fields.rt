// The fields of an operator's JSON object; None where a field is missing, or isn't of its form or within its limit.
ghost use Rattle.std.specs.Prelude.{◌≡◌, IfOk};
ghost use Rattle.std.specs.Option.{option_map};
ghost use Rattle.serde_json.specs.Read.{read};
ghost use Rattle.serde_json.specs.View.{view};
ghost use Rattle.admin_console.specs.Fields.{at_colon, body_at, is_asked_path, method_at, neighbour_at, number_at, object_in, path_at, post_at, post_named, post_of_kind, short_text_at, text_at, who_at};

use lang_core::{LONGEST_TEXT, Method, NoMemory, Text, is_path, is_who, method_named};
use repair_messages::PostName;
use request_names::read_number;
use serde_json::Value;
use std::alloc::Global;

fn json_in(alloc: Global, body: &str) -> Result<Option<Value>, NoMemory>
    ensures { IfOk result (λ value. option_map view value ≡ read body.now) }
{
    match Value::from_str(alloc, body) {
        Ok(value) => Ok(Some(value)),
        Err(why) if why.is_memory() => Err(NoMemory),
        Err(_) => Ok(None),
    }
}

/// What a body is as JSON; None exactly where that is no object.
pub fn object_in(alloc: Global, body: &str) -> Result<Option<Value>, NoMemory>
    ensures { IfOk result (λ object. option_map view object ≡ object_in body.now) }
{
    let Some(value) = json_in(alloc, body)? else {
        return Ok(None);
    };
    if !value.is_object() {
        return Ok(None);
    }
    Ok(Some(value))
}

// ---- kinds of fields

fn text_at<'v>(object: &'v Value, name: &str) -> Option<&'v str>
    ensures { option_map (λ text. text.now) result ≡ text_at name.now (view object.now) }
{
    object.get(name)?.as_str()
}

/// A whole number from 0.
pub fn number_at(object: &Value, name: &str) -> Option<u64>
    ensures { result ≡ number_at name.now (view object.now) }
{
    object.get(name)?.as_u64()
}

/// A user or a token: 1 to 64 visible characters.
pub fn who_at(alloc: Global, object: &Value, name: &str) -> Result<Option<Text>, NoMemory>
    ensures { IfOk result (λ who. who ≡ who_at name.now (view object.now)) }
{
    let Some(text) = text_at(object, name) else {
        return Ok(None);
    };
    let who = Text::of(alloc, text)?;
    if is_who(&who) {
        Ok(Some(who))
    } else {
        Ok(None)
    }
}

/// A text of at most 65,536 bytes.
pub fn short_text_at(alloc: Global, object: &Value, name: &str) -> Result<Option<Text>, NoMemory>
    ensures { IfOk result (λ short. short ≡ short_text_at name.now (view object.now)) }
{
    let Some(text) = text_at(object, name) else {
        return Ok(None);
    };
    let text = Text::of(alloc, text)?;
    if text.len() <= LONGEST_TEXT {
        Ok(Some(text))
    } else {
        Ok(None)
    }
}

/// The number of a request; `Some(None)` where the field is null.
pub fn neighbour_at(object: &Value, name: &str) -> Option<Option<u64>>
    ensures { result ≡ neighbour_at name.now (view object.now) }
{
    let value = object.get(name)?;
    if value.is_null() {
        return Some(None);
    }
    Some(Some(value.as_u64()?))
}

// ---- what a request asks

pub fn method_at(object: &Value) -> Option<Method>
    ensures { result ≡ method_at (view object.now) }
{
    method_named(text_at(object, "method")?.as_bytes())
}

#[tactic(auto, unfolding(crate::specs::Fields::is_asked_path))]
fn is_asked_path(path: &Text) -> bool
    ensures { result ≡ is_asked_path path.now }
{
    is_path(path) && !path.as_bytes().starts_with(b"/aire/")
}

/// A path, which isn't one of the program's own.
pub fn path_at(alloc: Global, object: &Value) -> Result<Option<Text>, NoMemory>
    ensures { IfOk result (λ path. path ≡ path_at (view object.now)) }
{
    let Some(text) = text_at(object, "path") else {
        return Ok(None);
    };
    let path = Text::of(alloc, text)?;
    if is_asked_path(&path) {
        Ok(Some(path))
    } else {
        Ok(None)
    }
}

/// The text of the member `body`, or none where the object has no such member.
pub fn body_at(alloc: Global, object: &Value) -> Result<Option<Text>, NoMemory>
    ensures { IfOk result (λ body. body ≡ body_at (view object.now)) }
{
    short_text_at(alloc, object, "body")
}

// ---- posts

// What stands before the first colon and what behind it, if there is one.
fn at_colon(text: &str) -> Option<(&str, &str)>
    ensures { option_map (λ parts. (parts.0.now, parts.1.now)) result ≡ at_colon text.now }
{
    text.split_once(':')
}

fn post_of_kind(kind: &str, number: u64) -> Option<PostName>
    ensures { result ≡ post_of_kind kind.now number }
{
    match kind {
        "call" => Some(PostName::Call(number)),
        "reply" => Some(PostName::Reply(number)),
        _ => None,
    }
}

fn post_named(text: &str) -> Option<PostName>
    ensures { result ≡ post_named text.now }
{
    let (kind, digits) = at_colon(text)?;
    let number = read_number(digits)?;
    post_of_kind(kind, number)
}

/// `call:N` or `reply:N`.
pub fn post_at(object: &Value) -> Option<PostName>
    ensures { result ≡ post_at (view object.now) }
{
    post_named(text_at(object, "name")?)
}
