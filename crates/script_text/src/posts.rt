// Posts in a line.
ghost use Rattle.std.specs.Prelude.{◌≡◌, ◌++◌, [], OnOk, string_bytes};
ghost use Rattle.std.specs.Option.{option_map};
ghost use Rattle.script_text.specs.Happenings.{call_text, gave_line, given_line, next_line, none_line, post_word, posted_line, ruled_line, settled_line, settled_text, taken_line, token_taken_line, version_behind, version_text, written_line};

use crate::refusals::{push_arrow, push_ending, push_refused};
use lang_core::{Name, NoMemory};
use repair_messages::{Post, PostName, kind_word, spelling};
use request_names::push_id;
use service_events::{AnswerRefused, GiveRefused, PostRefused, Posted, TakeRefused};

fn post_word(post: &Post) -> &'static str
    ensures { result.now ≡ post_word post.now }
{
    match post {
        Post::Set(set) => kind_word(spelling(set)),
        Post::Token(_) => "token",
        Post::Fetch(_) => "fetch",
    }
}

fn push_call(text: &mut String, post: &Post) -> Result<(), NoMemory>
    ensures { OnOk result (string_bytes text.new ≡ string_bytes text.old ++ call_text post.now) }
{
    match post {
        Post::Set(set) => push_id(text, &set.caller, set.number),
        Post::Token(token) => push_id(text, &token.caller, token.number),
        Post::Fetch(fetch) => push_id(text, &fetch.caller, fetch.number),
    }
}

fn push_version_behind(text: &mut String, post: &Post) -> Result<(), NoMemory>
    ensures { OnOk result (string_bytes text.new ≡ string_bytes text.old ++ version_behind post.now) }
{
    match post {
        Post::Set(set) => {
            let version = set.version;
            write!(text, " v{version}")?;
        }
        Post::Token(token) => {
            let version = token.answer_version;
            write!(text, " a{version}")?;
        }
        Post::Fetch(fetch) => {
            let version = fetch.answer_version;
            write!(text, " a{version}")?;
        }
    }
    Ok(())
}

fn push_version(text: &mut String, post: &Post) -> Result<(), NoMemory>
    ensures { OnOk result (string_bytes text.new ≡ string_bytes text.old ++ version_text post.now) }
{
    push_call(text, post)?;
    push_version_behind(text, post)
}

fn push_written(
    text: &mut String,
    service: &Name,
    packet: Option<u64>,
    post: &Post,
) -> Result<(), NoMemory>
    ensures { OnOk result (string_bytes text.new ≡ string_bytes text.old
        ++ written_line service.now packet post.now) }
{
    text.push_str(service.as_str())?;
    push_arrow(text, packet)?;
    let word = post_word(post);
    write!(text, " {word} ")?;
    push_version(text, post)?;
    text.push_str("\n")?;
    Ok(())
}

fn push_by_rule(
    text: &mut String,
    service: &Name,
    verb: &str,
    rule: u32,
    post: &Post,
    packet: Option<u64>,
) -> Result<(), NoMemory>
    ensures { OnOk result (string_bytes text.new ≡ string_bytes text.old
        ++ ruled_line service.now verb.now (Some rule) post.now packet) }
{
    let service = service.as_str();
    write!(text, "{service} {verb} ")?;
    push_version(text, post)?;
    write!(text, " rule {rule}")?;
    push_ending(text, packet)
}

fn push_knew(
    text: &mut String,
    service: &Name,
    post: &Post,
    packet: Option<u64>,
) -> Result<(), NoMemory>
    ensures { OnOk result (string_bytes text.new ≡ string_bytes text.old
        ++ ruled_line service.now [] None post.now packet) }
{
    let service = service.as_str();
    write!(text, "{service} knew ")?;
    push_version(text, post)?;
    push_ending(text, packet)
}

fn push_ruled(
    text: &mut String,
    service: &Name,
    verb: &str,
    rule: Option<u32>,
    post: &Post,
    packet: Option<u64>,
) -> Result<(), NoMemory>
    ensures { OnOk result (string_bytes text.new ≡ string_bytes text.old
        ++ ruled_line service.now verb.now rule post.now packet) }
{
    match rule {
        Some(rule) => push_by_rule(text, service, verb, rule, post, packet),
        None => push_knew(text, service, post, packet),
    }
}

fn push_settled(text: &mut String, posted: Posted, post: &Post) -> Result<(), NoMemory>
    ensures { OnOk result (string_bytes text.new ≡ string_bytes text.old ++ settled_text posted post.now) }
{
    match posted {
        Posted::Acked => {
            text.push_str(" acked ")?;
            push_version(text, post)
        }
        Posted::Confirmed => {
            text.push_str(" confirmed ")?;
            push_version(text, post)
        }
        Posted::Saw => {
            text.push_str(" saw ")?;
            push_version(text, post)
        }
        Posted::Knew => {
            text.push_str(" knew ")?;
            push_version(text, post)
        }
        Posted::Held => {
            text.push_str(" held ")?;
            push_call(text, post)
        }
        Posted::Left => {
            text.push_str(" left ")?;
            push_call(text, post)
        }
    }
}

fn push_settled_line(
    text: &mut String,
    service: &Name,
    posted: Posted,
    packet: Option<u64>,
    post: &Post,
) -> Result<(), NoMemory>
    ensures { OnOk result (string_bytes text.new ≡ string_bytes text.old
        ++ settled_line service.now posted packet post.now) }
{
    text.push_str(service.as_str())?;
    push_settled(text, posted, post)?;
    push_ending(text, packet)
}

/// Puts the line of a version of a call last that came.
pub fn push_taken(
    text: &mut String,
    service: &Name,
    post: Option<&Post>,
    taken: Result<Option<u32>, TakeRefused>,
    packet: Option<u64>,
) -> Result<(), NoMemory>
    ensures { OnOk result (string_bytes text.new ≡ string_bytes text.old
        ++ taken_line service.now (option_map (λ p. p.now) post.entry) taken packet) }
{
    match (taken, post) {
        (Ok(rule), Some(post)) => push_ruled(text, service, "took", rule, post, packet),
        (Ok(_), None) => Ok(()),
        (Err(why), _) => push_refused(text, service, why.refusal(), packet),
    }
}

/// Puts the line of a token last that came.
pub fn push_token_taken(
    text: &mut String,
    service: &Name,
    post: Option<&Post>,
    heard: Result<Option<u32>, AnswerRefused>,
    packet: Option<u64>,
) -> Result<(), NoMemory>
    ensures { OnOk result (string_bytes text.new ≡ string_bytes text.old
        ++ token_taken_line service.now (option_map (λ p. p.now) post.entry) heard packet) }
{
    match (heard, post) {
        (Ok(rule), Some(post)) => push_ruled(text, service, "noted", rule, post, packet),
        (Ok(_), None) => Ok(()),
        (Err(why), _) => push_refused(text, service, why.refusal(), packet),
    }
}

fn push_gave(
    text: &mut String,
    service: &Name,
    post: &Post,
    packet: Option<u64>,
) -> Result<(), NoMemory>
    ensures { OnOk result (string_bytes text.new ≡ string_bytes text.old
        ++ gave_line service.now post.now packet) }
{
    let service = service.as_str();
    write!(text, "{service} gave ")?;
    push_version(text, post)?;
    push_ending(text, packet)
}

/// Puts the line of a fetch last that came.
pub fn push_given(
    text: &mut String,
    service: &Name,
    post: Option<&Post>,
    given: Result<u64, GiveRefused>,
    packet: Option<u64>,
) -> Result<(), NoMemory>
    ensures { OnOk result (string_bytes text.new ≡ string_bytes text.old
        ++ given_line service.now (option_map (λ p. p.now) post.entry) given packet) }
{
    match (given, post) {
        (Ok(_), Some(post)) => push_gave(text, service, post, packet),
        (Ok(_), None) => Ok(()),
        (Err(why), _) => push_refused(text, service, why.refusal(), packet),
    }
}

/// Puts the line of what came back of a post last.
pub fn push_posted(
    text: &mut String,
    service: &Name,
    post: Option<&Post>,
    posted: Result<Posted, PostRefused>,
    packet: Option<u64>,
) -> Result<(), NoMemory>
    ensures { OnOk result (string_bytes text.new ≡ string_bytes text.old
        ++ posted_line service.now (option_map (λ p. p.now) post.entry) posted packet) }
{
    match (posted, post) {
        (Ok(posted), Some(post)) => push_settled_line(text, service, posted, packet, post),
        (Ok(_), None) => Ok(()),
        (Err(why), _) => push_refused(text, service, why.refusal(), packet),
    }
}

fn push_none(text: &mut String, service: &Name, to: Option<&Name>) -> Result<(), NoMemory>
    ensures { OnOk result (string_bytes text.new ≡ string_bytes text.old
        ++ none_line service.now (option_map (λ name. name.now) to.entry)) }
{
    if let Some(to) = to {
        let service = service.as_str();
        let to = to.as_str();
        write!(text, "{service} none {to}\n")?;
    }
    Ok(())
}

/// Puts the line of a post last that was written, or that none is outstanding.
pub fn push_next(
    text: &mut String,
    service: &Name,
    to: Option<&Name>,
    post: Option<&Post>,
    name: Option<PostName>,
    packet: Option<u64>,
) -> Result<(), NoMemory>
    ensures { OnOk result (string_bytes text.new ≡ string_bytes text.old
        ++ next_line service.now (option_map (λ name. name.now) to.entry) (option_map (λ p. p.now) post.entry) name packet) }
{
    match (name, post) {
        (Some(_), Some(post)) => push_written(text, service, packet, post),
        (Some(_), None) => Ok(()),
        (None, _) => push_none(text, service, to),
    }
}
