// What a service replies to an operator: JSON, and beside a refusal its word.
ghost use Rattle.std.specs.Prelude.{◌≡◌, [], ◌∷◌, codes, IfOk, OnOk};
ghost use Rattle.http_header.specs.FieldValue.{plain_value};
ghost use Rattle.wire_fields.specs.Heads.{with_fields};
ghost use Rattle.wire_fields.specs.Words.{refusal_text};
ghost use Rattle.wire_bytes.specs.Console.{as_json, console_refusal, console_reply, refusal_json};

use http_front::{AireHeader, WireResponse};
use http_header::{HeaderMap, HeaderValue};
use lang_core::{NoMemory, Text};
use std::alloc::Global;
use wire_fields::{put_field, refusal_status, refusal_text};

fn json_value(alloc: Global) -> Result<HeaderValue, NoMemory>
    ensures { IfOk result (λ value. value ≡ plain_value (codes "application/json")) }
{
    match HeaderValue::from_bytes(alloc, b"application/json") {
        Ok(value) => Ok(value),
        Err(_) => Err(NoMemory),
    }
}

fn put_json(alloc: Global, head: &mut HeaderMap) -> Result<(), NoMemory>
    ensures { OnOk result (head.new ≡ as_json head.old) }
{
    let value = json_value(alloc)?;
    match head.insert("content-type", value) {
        Ok(_) => Ok(()),
        Err(_) => Err(NoMemory),
    }
}

fn json_head(alloc: Global) -> Result<HeaderMap, NoMemory>
    ensures { IfOk result (λ head. head ≡ as_json []) }
{
    let mut head = HeaderMap::new(alloc);
    match put_json(alloc, &mut head) {
        Ok(()) => Ok(head),
        Err(why) => Err(why),
    }
}

/// What is replied to an operator: status 200 and this JSON.
pub fn console_reply(alloc: Global, body: Text) -> Result<WireResponse, NoMemory>
    ensures { IfOk result (λ response. response ≡ console_reply body) }
{
    let head = json_head(alloc)?;
    Ok(WireResponse {
        status: 200,
        head,
        body,
    })
}

fn put_refusal(alloc: Global, head: &mut HeaderMap, word: &str, number: u64) -> Result<(), NoMemory>
    ensures { OnOk result (head.new ≡ as_json (with_fields head.old ((AireHeader.Refused, refusal_text word.now number) ∷ []))) }
{
    let text = refusal_text(alloc, word, number)?;
    put_field(alloc, head, AireHeader::Refused, text.as_bytes())?;
    put_json(alloc, head)
}

fn refusal_head(alloc: Global, word: &str, number: u64) -> Result<HeaderMap, NoMemory>
    ensures { IfOk result (λ head. head
        ≡ as_json (with_fields [] ((AireHeader.Refused, refusal_text word.now number) ∷ []))) }
{
    let mut head = HeaderMap::new(alloc);
    match put_refusal(alloc, &mut head, word, number) {
        Ok(()) => Ok(head),
        Err(why) => Err(why),
    }
}

fn refusal_json(alloc: Global, word: &str, number: u64) -> Result<Text, NoMemory>
    ensures { IfOk result (λ text. text ≡ refusal_json word.now number) }
{
    let text = format!(in alloc; "{{\"number\":{number},\"refused\":\"{word}\"}}")?;
    Text::shared(text)
}

/// Why an operator's request isn't done: the status of the refusal's word, the word beside the JSON, and the JSON, whose
/// number is 0 where the word has none.
pub fn console_refusal(alloc: Global, word: &str, number: u64) -> Result<WireResponse, NoMemory>
    ensures { IfOk result (λ response. response ≡ console_refusal word.now number) }
{
    let head = refusal_head(alloc, word, number)?;
    let body = refusal_json(alloc, word, number)?;
    Ok(WireResponse {
        status: refusal_status(word),
        head,
        body,
    })
}
