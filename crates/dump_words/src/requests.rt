// Lines of entries and calls.
ghost use Rattle.std.specs.Prelude.{◌≡◌, ◌≤◌, IfOk};
ghost use Rattle.std.specs.Option.{option_map};
ghost use Rattle.dump_words.specs.Lines.{call_at, call_of, cut_asked, cut_call, cut_four, cut_inputs, cut_number, cut_request, cut_standing, cut_two, entry_at, entry_of, inputs_of, request_at, request_of};
ghost use Rattle.dump_words.specs.Parts.{body_behind, name_part, names_part, path_part, who_part};

use crate::line::{CallLine, EntryLine, Line};
use crate::parts::{body_behind, flag_part, moment_part, names_part, origin_part, positive_part};
use lang_core::{Inputs, Method, Name, Names, NoMemory, Origin, Request, Text, method_named};
use request_names::{cut_word, name_part, path_part, read_number, who_part};
use std::alloc::Global;

// A number and what stands behind it.
fn cut_number(rest: Option<&str>) -> Option<(u64, Option<&str>)>
    ensures { option_map (λ c. (c.0, option_map (λ x. x.now) c.1)) result ≡ cut_number (option_map (λ x. x.now) rest.entry) }
{
    let (word, rest) = cut_word(rest?);
    let number = read_number(word)?;
    Some((number, rest))
}

#[tactic(auto, unfolding(crate::specs::Lines::cut_two))]
fn cut_two(rest: Option<&str>) -> Option<(u64, u64, Option<&str>)>
    ensures { option_map (λ c. (c.0, c.1, option_map (λ x. x.now) c.2)) result ≡ cut_two (option_map (λ x. x.now) rest.entry) }
{
    let (first, rest) = cut_number(rest)?;
    let (second, rest) = cut_number(rest)?;
    Some((first, second, rest))
}

#[tactic(auto, unfolding(crate::specs::Lines::cut_four))]
fn cut_four(rest: Option<&str>) -> Option<(u64, u64, u64, u64, Option<&str>)>
    ensures { option_map (λ c. (c.0, c.1, c.2, c.3, option_map (λ x. x.now) c.4)) result ≡ cut_four (option_map (λ x. x.now) rest.entry) }
{
    let (first, second, rest) = cut_two(rest)?;
    let (third, fourth, rest) = cut_two(rest)?;
    Some((first, second, third, fourth, rest))
}

// A moment, and eight words in two halves.
fn inputs_of(moment: u64, first: (u64, u64, u64, u64), last: (u64, u64, u64, u64)) -> Inputs
    requires { moment ≤ 9223372036854775807 }
    ensures { result ≡ inputs_of moment first.0 first.1 first.2 first.3 last.0 last.1 last.2 last.3 }
{
    let (w1, w2, w3, w4) = first;
    let (w5, w6, w7, w8) = last;
    Inputs {
        moment,
        w1,
        w2,
        w3,
        w4,
        w5,
        w6,
        w7,
        w8,
    }
}

// `MOMENT W1 W2 W3 W4 W5 W6 W7 W8`
#[tactic(auto, unfolding(crate::specs::Lines::cut_inputs))]
fn cut_inputs(rest: Option<&str>) -> Option<(Inputs, Option<&str>)>
    ensures { option_map (λ c. (c.0, option_map (λ x. x.now) c.1)) result ≡ cut_inputs (option_map (λ x. x.now) rest.entry) }
{
    let (word, rest) = cut_word(rest?);
    let moment = moment_part(word)?;
    let (w1, w2, w3, w4, rest) = cut_four(rest)?;
    let (w5, w6, w7, w8, rest) = cut_four(rest)?;
    let inputs = inputs_of(moment, (w1, w2, w3, w4), (w5, w6, w7, w8));
    Some((inputs, rest))
}

// `ID ORIGIN V WANTED STRUCK`
#[tactic(auto, unfolding(crate::specs::Lines::cut_standing))]
fn cut_standing(rest: Option<&str>) -> Option<(u64, &str, u64, bool, bool, Option<&str>)>
    ensures { option_map (λ c. (c.0, c.1.now, c.2, c.3, c.4, option_map (λ x. x.now) c.5)) result ≡ cut_standing (option_map (λ x. x.now) rest.entry) }
{
    let (word, rest) = cut_word(rest?);
    let id = positive_part(word)?;
    let (origin, rest) = cut_word(rest?);
    let (version, rest) = cut_number(rest)?;
    let (word, rest) = cut_word(rest?);
    let wanted = flag_part(word)?;
    let (word, rest) = cut_word(rest?);
    let struck = flag_part(word)?;
    Some((id, origin, version, wanted, struck, rest))
}

// `METHOD PATH`
fn cut_asked(rest: Option<&str>) -> Option<(Method, &str, Option<&str>)>
    ensures { option_map (λ c. (c.0, c.1.now, option_map (λ x. x.now) c.2)) result ≡ cut_asked (option_map (λ x. x.now) rest.entry) }
{
    let (word, rest) = cut_word(rest?);
    let method = method_named(word.as_bytes())?;
    let (path, rest) = cut_word(rest?);
    Some((method, path, rest))
}

// `METHOD PATH WHO CHAIN`
#[tactic(auto, unfolding(crate::specs::Lines::cut_request))]
fn cut_request(rest: Option<&str>) -> Option<(Method, &str, &str, &str, Option<&str>)>
    ensures { option_map (λ c. (c.0, c.1.now, c.2.now, c.3.now, option_map (λ x. x.now) c.4)) result ≡ cut_request (option_map (λ x. x.now) rest.entry) }
{
    let (method, path, rest) = cut_asked(rest)?;
    let (who, rest) = cut_word(rest?);
    let (chain, rest) = cut_word(rest?);
    Some((method, path, who, chain, rest))
}

// `NUMBER DEST METHOD PATH`
#[tactic(auto, unfolding(crate::specs::Lines::cut_call))]
fn cut_call(rest: Option<&str>) -> Option<(u64, &str, Method, &str, Option<&str>)>
    ensures { option_map (λ c. (c.0, c.1.now, c.2, c.3.now, option_map (λ x. x.now) c.4)) result ≡ cut_call (option_map (λ x. x.now) rest.entry) }
{
    let (word, rest) = cut_word(rest?);
    let number = positive_part(word)?;
    let (dest, rest) = cut_word(rest?);
    let (method, path, rest) = cut_asked(rest)?;
    Some((number, dest, method, path, rest))
}

// A path and a body, each if it is of its form.
fn asked_parts(
    alloc: Global,
    path: &str,
    body: Option<&str>,
) -> Result<(Option<Text>, Option<Text>), NoMemory>
    ensures { IfOk result (λ parts. parts ≡ (path_part path.now, body_behind (option_map (λ x. x.now) body.entry))) }
{
    let path = path_part(alloc, path)?;
    let body = body_behind(alloc, body)?;
    Ok((path, body))
}

// A user and a chain, each if it is of its form.
fn sent_parts(
    alloc: Global,
    who: &str,
    chain: &str,
) -> Result<(Option<Text>, Option<Names>), NoMemory>
    ensures { IfOk result (λ parts. parts ≡ (who_part who.now, names_part chain.now)) }
{
    let who = who_part(alloc, who)?;
    let chain = names_part(alloc, chain)?;
    Ok((who, chain))
}

fn request_of(
    method: Method,
    path: Option<Text>,
    who: Option<Text>,
    chain: Option<Names>,
    body: Option<Text>,
) -> Option<Request>
    ensures { result ≡ request_of method path who chain body }
{
    match (path, who, chain, body) {
        (Some(path), Some(who), Some(chain), Some(body)) => Some(Request {
            method,
            path,
            body,
            who,
            chain,
        }),
        _ => None,
    }
}

// `METHOD PATH WHO CHAIN BODY`
fn read_request(alloc: Global, rest: Option<&str>) -> Result<Option<Request>, NoMemory>
    ensures { IfOk result (λ request. request ≡ request_at (option_map (λ x. x.now) rest.entry)) }
{
    let Some((method, path, who, chain, body)) = cut_request(rest) else {
        return Ok(None);
    };
    let (path, body) = asked_parts(alloc, path, body)?;
    let (who, chain) = sent_parts(alloc, who, chain)?;
    Ok(request_of(method, path, who, chain, body))
}

fn entry_of(
    id: u64,
    version: u64,
    wanted: bool,
    struck: bool,
    inputs: Inputs,
    origin: Option<Origin>,
    request: Option<Request>,
) -> Option<Line>
    ensures { result ≡ entry_of id version wanted struck inputs origin request }
{
    match (origin, request) {
        (Some(origin), Some(request)) => Some(Line::Entry(EntryLine {
            id,
            origin,
            version,
            wanted,
            struck,
            inputs,
            request,
        })),
        _ => None,
    }
}

/// `entry ID ORIGIN V WANTED STRUCK MOMENT W1 .. W8 METHOD PATH WHO CHAIN BODY`, behind its first word.
#[tactic(auto, unfolding(crate::specs::Lines::entry_at))]
pub(crate) fn read_entry(alloc: Global, rest: Option<&str>) -> Result<Option<Line>, NoMemory>
    ensures { IfOk result (λ line. line ≡ entry_at (option_map (λ x. x.now) rest.entry)) }
{
    let Some((id, origin, version, wanted, struck, rest)) = cut_standing(rest) else {
        return Ok(None);
    };
    let Some((inputs, rest)) = cut_inputs(rest) else {
        return Ok(None);
    };
    let origin = origin_part(alloc, origin)?;
    let request = read_request(alloc, rest)?;
    Ok(entry_of(id, version, wanted, struck, inputs, origin, request))
}

fn call_of(
    number: u64,
    method: Method,
    dest: Option<Name>,
    path: Option<Text>,
    body: Option<Text>,
) -> Option<Line>
    ensures { result ≡ call_of number method dest path body }
{
    match (dest, path, body) {
        (Some(dest), Some(path), Some(body)) => Some(Line::Call(CallLine {
            number,
            dest,
            method,
            path,
            body,
        })),
        _ => None,
    }
}

/// `call NUMBER DEST METHOD PATH BODY`, behind its first word.
#[tactic(auto, unfolding(crate::specs::Lines::call_at))]
pub(crate) fn read_call(alloc: Global, rest: Option<&str>) -> Result<Option<Line>, NoMemory>
    ensures { IfOk result (λ line. line ≡ call_at (option_map (λ x. x.now) rest.entry)) }
{
    let Some((number, dest, method, path, body)) = cut_call(rest) else {
        return Ok(None);
    };
    let dest = name_part(alloc, dest)?;
    let (path, body) = asked_parts(alloc, path, body)?;
    Ok(call_of(number, method, dest, path, body))
}
