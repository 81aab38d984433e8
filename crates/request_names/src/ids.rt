// Names of requests and calls.
ghost use Rattle.std.specs.Prelude.{◌≡◌, ◌<◌, ◌++◌, None, Ok, Err, OnOk, OnErr, IfOk, IfErr, IsOk, string_bytes};
ghost use Rattle.std.specs.Option.{option_map};
ghost use Rattle.request_names.specs.Ids.{from_one, id_at, id_of, id_text, parts_of};
ghost use Rattle.request_names.specs.Names.{refusal};
ghost use Rattle.request_names.specs.Numbers.{number_of};

use crate::names::{NameRefused, good_name, refusal};
use crate::numbers::read_number;
use lang_core::{CallId, Name, NoMemory, RequestId, Text};
use std::alloc::Global;

fn cut_slash(text: &str) -> Option<(&str, &str)>
    ensures { option_map (λ parts. (parts.0.now, parts.1.now)) result ≡ parts_of text.now }
{
    text.split_once('/')
}

fn number_from_one(digits: &str) -> Result<u64, NameRefused>
    ensures { result ≡ from_one (number_of digits.now) }
{
    match read_number(digits) {
        None | Some(0) => Err(NameRefused::BadNumber),
        Some(number) => Ok(number),
    }
}

// The service and the number that a text names, lent from it; or why it names none.
fn parts_in(text: &str) -> Result<(&str, u64), NameRefused>
    ensures id { IfOk result (λ id. id_at text.now ≡ Ok (id.0.now, id.1)) }
    ensures refused { IfErr result (λ why. id_at text.now ≡ Err why) }
    ensures good { IfOk result (λ id. refusal id.0.now ≡ None) }
{
    if text.is_empty() {
        return Err(NameRefused::Empty);
    }
    let Some((name, digits)) = cut_slash(text) else {
        return Err(NameRefused::NoSlash);
    };
    if let Some(why) = refusal(name) {
        return Err(why);
    }
    match number_from_one(digits) {
        Ok(number) => Ok((name, number)),
        Err(why) => Err(why),
    }
}

/// The service and the number that a text names, lent from it, if it is the name of a request or a call.
pub fn id_of(text: &str) -> Option<(&str, u64)>
    ensures { option_map (λ id. (id.0.now, id.1)) result ≡ id_of text.now }
{
    match parts_in(text) {
        Ok(id) => Some(id),
        Err(_) => None,
    }
}

// The service, as a name of its own, and the number that a text names, for requests and calls alike.
fn read_id(alloc: Global, text: &str) -> Result<(Name, u64), NameRefused>
    ensures id { IfOk result (λ id. id_at text.now ≡ Ok id) }
    ensures refused { IfErr (id_at text.now) (λ why. result ≡ Err why) }
    ensures memory { IsOk (id_at text.now) → OnErr result (result ≡ Err NameRefused.NoMemory) }
{
    match parts_in(text) {
        Ok((name, number)) => {
            let service = good_name(alloc, name)?;
            Ok((service, number))
        }
        Err(why) => Err(why),
    }
}

/// The request that a text names: a service's name, a slash, and a number from 1 in decimal, or why it names none.
pub fn read_request_id(alloc: Global, text: &str) -> Result<RequestId, NameRefused>
    ensures id { IfOk result (λ id. id_at text.now ≡ Ok (id.service, id.number)) }
    ensures spelled { IfOk result (λ id. text.now ≡ id_text id.service id.number) }
    ensures refused { IfErr (id_at text.now) (λ why. result ≡ Err why) }
    ensures memory { IsOk (id_at text.now) → OnErr result (result ≡ Err NameRefused.NoMemory) }
{
    let (service, number) = read_id(alloc, text)?;
    Ok(RequestId { service, number })
}

/// The call that a text names, in the form of a request.
pub fn read_call_id(alloc: Global, text: &str) -> Result<CallId, NameRefused>
    ensures id { IfOk result (λ id. id_at text.now ≡ Ok (id.service, id.number)) }
    ensures spelled { IfOk result (λ id. text.now ≡ id_text id.service id.number) }
    ensures refused { IfErr (id_at text.now) (λ why. result ≡ Err why) }
    ensures memory { IsOk (id_at text.now) → OnErr result (result ≡ Err NameRefused.NoMemory) }
{
    let (service, number) = read_id(alloc, text)?;
    Ok(CallId { service, number })
}

/// Puts a request's or a call's name last in a text.
pub fn push_id(text: &mut String, service: &Name, number: u64) -> Result<(), NoMemory>
    ensures { OnOk result (string_bytes text.new ≡ string_bytes text.old ++ id_text service.now number) }
{
    let service = service.as_str();
    write!(text, "{service}/{number}")?;
    Ok(())
}

fn print_id(alloc: Global, service: &Name, number: u64) -> Result<Text, NoMemory>
    ensures text { IfOk result (λ text. text ≡ id_text service.now number) }
    ensures reads_back { IfOk result (λ text. 0 < number → id_at text ≡ Ok (service.now, number)) }
{
    let name = service.text().as_str();
    let text = format!(in alloc; "{name}/{number}")?;
    Ok(Text::shared(text)?)
}

/// A request's name as a text, which reads back to it where its number is 1 or more.
pub fn print_request_id(alloc: Global, id: &RequestId) -> Result<Text, NoMemory>
    ensures text { IfOk result (λ text. text ≡ id_text id.now.service id.now.number) }
    ensures reads_back { IfOk result (λ text. 0 < id.now.number → id_at text ≡ Ok (id.now.service, id.now.number)) }
{
    print_id(alloc, &id.service, id.number)
}

/// A call's name as a text, which reads back to it where its number is 1 or more.
pub fn print_call_id(alloc: Global, id: &CallId) -> Result<Text, NoMemory>
    ensures text { IfOk result (λ text. text ≡ id_text id.now.service id.now.number) }
    ensures reads_back { IfOk result (λ text. 0 < id.now.number → id_at text ≡ Ok (id.now.service, id.now.number)) }
{
    print_id(alloc, &id.service, id.number)
}
