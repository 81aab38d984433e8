// The parts of a line.
ghost use Rattle.std.specs.Prelude.{◌≡◌, IfOk, Some, None, if◌then◌else◌};
ghost use Rattle.std.specs.Option.{option_map};
ghost use Rattle.script_lines.specs.Lines.{body_of, cut_at, flight, is_asked_path, neighbour, numbered, packet, post_name, post_of_kind, rest_or_empty};

use lang_core::{LONGEST_TEXT, NoMemory, Text};
use repair_messages::PostName;
use report_text::unescaped;
use request_names::{path_part, read_number};
use std::alloc::Global;

/// What stands before the first slash, and what stands behind it, if there is one.
fn cut_slash(text: &str) -> (&str, Option<&str>)
    ensures { (result.0.now, option_map (λ x. x.now) result.1) ≡ cut_at 47 text.now }
{
    match text.split_once('/') {
        Some((word, rest)) => (word, Some(rest)),
        None => (text, None),
    }
}

/// What stands before the first colon, and what stands behind it, if there is one.
fn cut_colon(text: &str) -> (&str, Option<&str>)
    ensures { (result.0.now, option_map (λ x. x.now) result.1) ≡ cut_at 58 text.now }
{
    match text.split_once(':') {
        Some((word, rest)) => (word, Some(rest)),
        None => (text, None),
    }
}

/// A path that a script may ask, if the word is one.
#[tactic(auto, unfolding(crate::specs::Lines::is_asked_path))]
pub fn asked_path(alloc: Global, word: &str) -> Result<Option<Text>, NoMemory>
    ensures { IfOk result (λ path. path ≡ (if is_asked_path word.now then Some word.now else None)) }
{
    let Some(path) = path_part(alloc, word)? else {
        return Ok(None);
    };
    if path.as_bytes().starts_with(b"/aire/") {
        return Ok(None);
    }
    Ok(Some(path))
}

/// A body, if the rest of the line spells one; where there is none, the body is empty.
pub fn body_part(alloc: Global, rest: Option<&str>) -> Result<Option<Text>, NoMemory>
    ensures { IfOk result (λ body. body ≡ body_of (rest_or_empty (option_map (λ x. x.now) rest.entry))) }
{
    let Some(body) = unescaped(alloc, rest.unwrap_or(""))? else {
        return Ok(None);
    };
    if body.len() > LONGEST_TEXT {
        return Ok(None);
    }
    Ok(Some(body))
}

/// A service and a number with a slash between, if the word is so; the service may be no name.
pub fn numbered_part(word: &str) -> Option<(&str, u64)>
    ensures { option_map (λ parts. (parts.0.now, parts.1)) result ≡ numbered word.now }
{
    let (service, digits) = cut_slash(word);
    let number = read_number(digits?)?;
    Some((service, number))
}

/// The number of a packet, if the word names one.
pub fn packet_part(word: &str) -> Option<u64>
    ensures { result ≡ packet word.now }
{
    read_number(word.strip_prefix('p')?)
}

/// The number of a flight, if the word names one.
pub fn flight_part(word: &str) -> Option<u64>
    ensures { result ≡ flight word.now }
{
    read_number(word.strip_prefix('f')?)
}

/// A number, or None for `-`, if the word is one of these.
pub fn neighbour_part(word: &str) -> Option<Option<u64>>
    ensures { result ≡ neighbour word.now }
{
    if word == "-" {
        return Some(None);
    }
    let number = read_number(word)?;
    Some(Some(number))
}

fn post_of_kind(kind: &str, number: u64) -> Option<PostName>
    ensures { result ≡ post_of_kind kind.now number }
{
    match kind {
        "call" => Some(PostName::Call(number)),
        "reply" => Some(PostName::Reply(number)),
        _ => None,
    }
}

/// Which post of a service, if the word names one.
pub fn post_name_part(word: &str) -> Option<PostName>
    ensures { result ≡ post_name word.now }
{
    let (kind, digits) = cut_colon(word);
    let number = read_number(digits?)?;
    post_of_kind(kind, number)
}
