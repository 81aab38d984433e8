// Requests in a line.
ghost use Rattle.std.specs.Prelude.{◌≡◌, List, ℕ, IfOk};
ghost use Rattle.std.specs.Option.{option_map};
ghost use Rattle.lang_core.specs.declared.request.Request.{Request};
ghost use Rattle.world_events.specs.declared.event.Event.{Event};
ghost use Rattle.script_lines.specs.Lines.{asked, asking_at, request_of};
ghost use Rattle.script_lines.specs.declared.line.Line.{Line};

use crate::line::Line;
use crate::parts::{asked_path, body_part};
use lang_core::{Method, Name, NoMemory, Request, Text, ThinSeq, method_named};
use request_names::{cut_word, name_part, who_part};
use std::alloc::Global;
use world_events::Event;

/// `METHOD PATH BODY`
#[tactic(auto, unfolding(crate::specs::Lines::asked))]
pub fn read_asked(
    alloc: Global,
    rest: Option<&str>,
) -> Result<Option<(Method, Text, Text)>, NoMemory>
    ensures { IfOk result (λ r. r ≡ asked (option_map (λ x. x.now) rest.entry)) }
{
    let Some(rest) = rest else {
        return Ok(None);
    };
    let (word, rest) = cut_word(rest);
    let Some(method) = method_named(word.as_bytes()) else {
        return Ok(None);
    };
    let Some(rest) = rest else {
        return Ok(None);
    };
    let (word, rest) = cut_word(rest);
    let Some(path) = asked_path(alloc, word)? else {
        return Ok(None);
    };
    let Some(body) = body_part(alloc, rest)? else {
        return Ok(None);
    };
    Ok(Some((method, path, body)))
}

/// The request of a user, from outside.
pub fn request_of(alloc: Global, who: Text, asked: (Method, Text, Text)) -> Request
    ensures { result ≡ request_of who asked }
{
    let (method, path, body) = asked;
    Request {
        method,
        path,
        body,
        who,
        chain: ThinSeq::new(alloc),
    }
}

// `S WHO METHOD PATH BODY`
#[tactic(auto, unfolding(crate::specs::Lines::asking_at))]
fn read_asking(alloc: Global, rest: Option<&str>) -> Result<Option<(Name, Request)>, NoMemory>
    ensures { IfOk result (λ r. (line : List ℕ → Request → Line) → asking_at line (option_map (λ x. x.now) rest.entry)
        ≡ option_map (λ asking. line asking.0 asking.1) r) }
{
    let Some(rest) = rest else {
        return Ok(None);
    };
    let (word, rest) = cut_word(rest);
    let Some(service) = name_part(alloc, word)? else {
        return Ok(None);
    };
    let Some(rest) = rest else {
        return Ok(None);
    };
    let (word, rest) = cut_word(rest);
    let Some(who) = who_part(alloc, word)? else {
        return Ok(None);
    };
    let Some(asked) = read_asked(alloc, rest)? else {
        return Ok(None);
    };
    let request = request_of(alloc, who, asked);
    Ok(Some((service, request)))
}

/// `begin S WHO METHOD PATH BODY`, behind its first word.
pub fn read_begin(alloc: Global, rest: Option<&str>) -> Result<Option<Line>, NoMemory>
    ensures { IfOk result (λ r. r ≡ asking_at (λ service request. Line.Event (Event.Begin service request)) (option_map (λ x. x.now) rest.entry)) }
{
    let Some((service, request)) = read_asking(alloc, rest)? else {
        return Ok(None);
    };
    Ok(Some(Line::Event(Event::Begin { service, request })))
}

/// `ask S WHO METHOD PATH BODY`, behind its first word.
pub fn read_ask(alloc: Global, rest: Option<&str>) -> Result<Option<Line>, NoMemory>
    ensures { IfOk result (λ r. r ≡ asking_at Line.Ask (option_map (λ x. x.now) rest.entry)) }
{
    let Some((service, request)) = read_asking(alloc, rest)? else {
        return Ok(None);
    };
    Ok(Some(Line::Ask { service, request }))
}
