// What an operator is replied.
ghost use Rattle.std.specs.Prelude.{◌≡◌, ◌++◌, IfOk, OnOk, Some, string_bytes};
ghost use Rattle.serde_json.specs.Read.{read};
ghost use Rattle.serde_json.specs.View.{view};
ghost use Rattle.serde_json.specs.Written.{compact_text};
ghost use Rattle.wire_bytes.specs.Console.{refusal_json};
ghost use Rattle.wire_words.specs.Refusals.{order_told};
ghost use Rattle.admin_console.specs.Replies.{accepted_json, bad, fault_reply, order_reply, own_numbered, own_refusal, refused_reply, report_object, report_reply};

use http_front::{AireHeader, WireResponse};
use lang_core::{Name, NoMemory, Text};
use order_texts::TextFault;
use serde_json::{Value, json};
use service_events::{OrderRefused, Ordered};
use service_reports::push_about;
use std::alloc::Global;
use wire_bytes::{console_refusal, console_reply};
use wire_fields::{UnreadWord, put_field};
use wire_words::order_told;

/// The body was ill.
pub fn bad(alloc: Global) -> Result<WireResponse, NoMemory>
    ensures { IfOk result (λ response. response ≡ bad) }
{
    console_refusal(alloc, UnreadWord::Bad.text(), 0)
}

fn refusal_json(alloc: Global, word: &str, number: u64) -> Result<Text, NoMemory>
    ensures { IfOk result (λ text. text ≡ refusal_json word.now number) }
{
    let text = format!(in alloc; "{{\"number\":{number},\"refused\":\"{word}\"}}")?;
    Text::shared(text)
}

/// A refusal that only an operator is told: with this status, this text beside the JSON, and this word and number in it.
pub fn own_refusal(
    alloc: Global,
    status: u16,
    field: &str,
    word: &str,
    number: u64,
) -> Result<WireResponse, NoMemory>
    ensures { IfOk result (λ response. response ≡ own_refusal status field.now word.now number) }
{
    let body = refusal_json(alloc, word, number)?;
    let mut response = console_reply(alloc, body)?;
    put_field(
        alloc,
        &mut response.head,
        AireHeader::Refused,
        field.as_bytes(),
    )?;
    response.status = status;
    Ok(response)
}

/// One whose text is the word and the number.
pub fn own_numbered(
    alloc: Global,
    status: u16,
    word: &str,
    number: u64,
) -> Result<WireResponse, NoMemory>
    ensures { IfOk result (λ response. response ≡ own_numbered status word.now number) }
{
    let field = format!(in alloc; "{word} {number}")?;
    own_refusal(alloc, status, field.as_str(), word, number)
}

/// The text of an order is none: `program PLACE` or `rules LINE`, with the status of a body that is ill.
pub fn fault_reply(alloc: Global, fault: TextFault) -> Result<WireResponse, NoMemory>
    ensures { IfOk result (λ response. response ≡ fault_reply fault) }
{
    let status = UnreadWord::Bad.status();
    match fault {
        TextFault::Program(at) => own_numbered(alloc, status, "program", at),
        TextFault::Rules(line) => own_numbered(alloc, status, "rules", line),
    }
}

// ---- orders

fn push_accepted(text: &mut String, me: &Name, ordered: Ordered) -> Result<(), NoMemory>
    ensures { OnOk result (string_bytes text.new ≡ string_bytes text.old ++ accepted_json me.now ordered) }
{
    text.push_str("{\"about\":\"")?;
    push_about(text, me, ordered.about)?;
    let rule = ordered.rule;
    write!(text, "\",\"rule\":{rule}}}")?;
    Ok(())
}

fn accepted_json(alloc: Global, me: &Name, ordered: Ordered) -> Result<Text, NoMemory>
    ensures { IfOk result (λ json. json ≡ accepted_json me.now ordered) }
{
    let mut text = String::new(alloc);
    push_accepted(&mut text, me, ordered)?;
    Text::shared(text)
}

/// Why an order was refused.
#[tactic(auto, using(crate::proofs::ReplyLemmas::told_so))]
pub fn refused_reply(alloc: Global, why: OrderRefused) -> Result<WireResponse, NoMemory>
    ensures { IfOk result (λ response. response ≡ refused_reply (order_told why)) }
{
    let (word, number) = order_told(why);
    console_refusal(alloc, word, number)
}

/// The answer of an order, at the service of this name: what an accepted one was about and the rule that allowed it, or why it
/// was refused.
pub fn order_reply(
    alloc: Global,
    me: &Name,
    answer: Result<Ordered, OrderRefused>,
) -> Result<WireResponse, NoMemory>
    ensures { IfOk result (λ response. response ≡ order_reply me.now answer) }
{
    match answer {
        Ok(ordered) => console_reply(alloc, accepted_json(alloc, me, ordered)?),
        Err(why) => refused_reply(alloc, why),
    }
}

// ---- reports

fn report_object(alloc: Global, text: &Text) -> Result<Value, NoMemory>
    ensures { IfOk result (λ object. view object ≡ report_object text.now) }
{
    Ok(json!(in alloc; {"text": text.as_str()})?)
}

fn report_json(alloc: Global, text: &Text) -> Result<Text, NoMemory>
    ensures json { IfOk result (λ json. json ≡ compact_text (report_object text.now)) }
    ensures read { IfOk result (λ json. read json ≡ Some (report_object text.now)) }
{
    let object = report_object(alloc, text)?;
    Text::shared(object.to_string(alloc)?)
}

/// A report with this text. Its JSON reads back as an object with the text.
pub fn report_reply(alloc: Global, text: &Text) -> Result<WireResponse, NoMemory>
    ensures reply { IfOk result (λ response. response ≡ report_reply text.now) }
    ensures read { IfOk result (λ response. read response.body ≡ Some (report_object text.now)) }
{
    console_reply(alloc, report_json(alloc, text)?)
}
