// An entry, its calls and its reply.
ghost use Rattle.std.specs.Prelude.{◌≡◌, ◌++◌, OnOk, codes, decimal, string_bytes};
ghost use Rattle.std.specs.List.{flat_map, zip};
ghost use Rattle.request_log.specs.Folded.{as_entry};
ghost use Rattle.request_log.specs.Records.{recorded_calls, record_of, record_in};
ghost use Rattle.std.specs.Option.{option_copied, option_map};
ghost use Rattle.local_repair.specs.Steps.{answer_or_tentative};
ghost use Rattle.call_registers.specs.Registers.{consumed};
ghost use Rattle.report_text.specs.Reports.{response_text};
ghost use Rattle.dump_lines.specs.Dumps.{answer_line, call_line, call_lines, digit_of, entry_line, entry_lines, inputs_text, reply_line, request_text};

use crate::dump_programs::push_under;
use crate::dump_words::{digit_of, push_inputs, push_origin, push_request};
use call_registers::Registers;
use lang_core::{CallMade, Inputs, NoMemory, Request, Response};
use report_text::{push_asked, push_body_behind, push_response};
use request_log::{Entry, Folded, Made};

// The status of the tentative answer, which a call consumes that has none.
const TENTATIVE_STATUS: u16 = 504;

// ` V WANTED STRUCK`
fn push_standing(
    text: &mut String,
    version: u64,
    wanted: bool,
    struck: bool,
) -> Result<(), NoMemory>
    ensures { OnOk result (string_bytes text.new ≡ string_bytes text.old
        ++ (codes " " ++ (decimal version ++ (codes " " ++ (digit_of wanted ++ (codes " " ++ digit_of struck)))))) }
{
    let wanted = digit_of(wanted);
    let struck = digit_of(struck);
    write!(text, " {version} {wanted} {struck}")?;
    Ok(())
}

// What it drew and what it asks, at the end of its line.
fn push_given(text: &mut String, inputs: &Inputs, request: &Request) -> Result<(), NoMemory>
    ensures { OnOk result (string_bytes text.new ≡ string_bytes text.old
        ++ (inputs_text inputs.now ++ (request_text request.now ++ codes "\n"))) }
{
    push_inputs(text, inputs)?;
    push_request(text, request)?;
    text.push_str("\n")?;
    Ok(())
}

fn push_entry_line(text: &mut String, entry: &Entry) -> Result<(), NoMemory>
    ensures { OnOk result (string_bytes text.new ≡ string_bytes text.old ++ entry_line entry.now) }
{
    let id = entry.id;
    write!(text, "entry {id} ")?;
    push_origin(text, &entry.origin)?;
    push_standing(text, entry.version, entry.wanted, entry.struck)?;
    push_given(text, entry.inputs.get(), entry.request.get())
}

fn push_folded_line(text: &mut String, folded: &Folded) -> Result<(), NoMemory>
    ensures { OnOk result (string_bytes text.new ≡ string_bytes text.old ++ entry_line (as_entry folded.now)) }
{
    let id = folded.id;
    write!(text, "entry {id} ")?;
    push_origin(text, &folded.origin)?;
    push_standing(text, folded.version, folded.wanted, folded.struck)?;
    push_given(text, folded.inputs.get(), folded.request.get())
}

fn push_call_line(text: &mut String, number: u64, call: &CallMade) -> Result<(), NoMemory>
    ensures { OnOk result (string_bytes text.new ≡ string_bytes text.old ++ call_line number call.now) }
{
    let dest = call.dest.as_str();
    write!(text, "call {number} {dest} ")?;
    push_asked(text, &call.request)?;
    push_body_behind(text, call.request.body.as_str())?;
    text.push_str("\n")?;
    Ok(())
}

// What a call consumes: the tentative answer where there is none.
#[tactic(auto, using(crate::proofs::DumpLemmas::tentative_text))]
fn push_answer_line(text: &mut String, answer: Option<&Response>) -> Result<(), NoMemory>
    ensures { OnOk result (string_bytes text.new ≡ string_bytes text.old ++ answer_line (answer_or_tentative (option_copied answer.entry))) }
{
    match answer {
        None => {
            let status = TENTATIVE_STATUS;
            write!(text, "answer {status}\n")?;
            Ok(())
        }
        Some(response) => {
            text.push_str("answer ")?;
            push_response(text, response)?;
            text.push_str("\n")?;
            Ok(())
        }
    }
}

fn push_calls(
    text: &mut String,
    registers: &Registers,
    numbers: &[u64],
    calls: &[CallMade],
) -> Result<(), NoMemory>
    ensures { OnOk result (string_bytes text.new ≡ string_bytes text.old
        ++ flat_map (call_lines (λ n. answer_or_tentative (consumed n registers.now.list))) (zip numbers.now calls.now)) }
{
    for (number, call) in numbers.iter().zip(calls) {
        push_call_line(text, *number, call)?;
        push_answer_line(text, registers.consumed(*number))?;
    }
    Ok(())
}

fn push_reply(text: &mut String, response: &Response) -> Result<(), NoMemory>
    ensures { OnOk result (string_bytes text.new ≡ string_bytes text.old
        ++ (codes "reply " ++ (response_text response.now ++ codes "\n"))) }
{
    text.push_str("reply ")?;
    push_response(text, response)?;
    text.push_str("\n")?;
    Ok(())
}

fn push_reply_line(text: &mut String, made: &Option<Made>) -> Result<(), NoMemory>
    ensures { OnOk result (string_bytes text.new ≡ string_bytes text.old ++ reply_line (option_map record_in made.now)) }
{
    match made {
        None => {
            text.push_str("reply none\n")?;
            Ok(())
        }
        Some(made) => push_reply(text, &made.trace.response),
    }
}

fn calls_of(made: &Option<Made>) -> &[CallMade]
    ensures { result.now ≡ recorded_calls (option_map record_in made.now) }
{
    match made {
        None => &[],
        Some(made) => made.trace.calls.as_slice(),
    }
}

/// Puts an entry last with the number of its program, its calls, what they consume by these registers, and its reply.
pub(crate) fn push_entry(
    text: &mut String,
    registers: &Registers,
    entry: &Entry,
) -> Result<(), NoMemory>
    ensures { OnOk result (string_bytes text.new ≡ string_bytes text.old
        ++ entry_lines (λ n. answer_or_tentative (consumed n registers.now.list)) entry.now) }
{
    push_entry_line(text, entry)?;
    push_under(text, entry.under.now().get().number())?;
    push_calls(
        text,
        registers,
        entry.slots.as_slice(),
        calls_of(&entry.made),
    )?;
    push_reply_line(text, &entry.made)
}

/// Puts a folded entry last like one that isn't folded: with the number of its program, its calls, what they consume by these
/// registers, and its reply.
pub(crate) fn push_folded(
    text: &mut String,
    registers: &Registers,
    folded: &Folded,
) -> Result<(), NoMemory>
    ensures { OnOk result (string_bytes text.new ≡ string_bytes text.old
        ++ entry_lines (λ n. answer_or_tentative (consumed n registers.now.list)) (as_entry folded.now)) }
{
    push_folded_line(text, folded)?;
    push_under(text, folded.program.get().number)?;
    push_calls(
        text,
        registers,
        folded.slots.as_slice(),
        folded.calls.as_slice(),
    )?;
    push_reply(text, &folded.response)
}
