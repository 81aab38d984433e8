// Entries of a log as texts.
ghost use Rattle.std.specs.Prelude.{◌≡◌, ◌++◌, IfOk, OnOk, codes, map, string_bytes};
ghost use Rattle.std.specs.List.{flat_map};
ghost use Rattle.request_log.specs.Folded.{as_entry};
ghost use Rattle.report_text.specs.Reports.{alive_text, asked_text, entry_line, folded_line, log_text, made_text, origin_text, response_text, state_text};

use crate::escapes::push_body_behind;
use crate::rows::or_none;
use lang_core::{Name, NoMemory, Origin, Request, Response, Text, method_word};
use request_log::{Entry, Folded, KeptEntry, KeptFolded, Log, Made};
use request_names::push_id;
use std::alloc::Global;

fn alive_text(alive: bool) -> &'static str
    ensures { result.now ≡ alive_text alive }
{
    if alive { "alive" } else { "dead" }
}

fn push_origin(text: &mut String, origin: &Origin, who: &Text) -> Result<(), NoMemory>
    ensures { OnOk result (string_bytes text.new ≡ string_bytes text.old ++ origin_text origin.now who.now) }
{
    match origin {
        Origin::Outside => {
            let who = who.as_str();
            write!(text, "out:{who}")?;
        }
        Origin::Call { caller, number } => {
            let caller = caller.as_str();
            write!(text, "call:{caller}/{number}")?;
        }
    }
    Ok(())
}

/// Puts a response last: `STATUS BODY`, or its status alone where its body is empty.
pub fn push_response(text: &mut String, response: &Response) -> Result<(), NoMemory>
    ensures { OnOk result (string_bytes text.new ≡ string_bytes text.old ++ response_text response.now) }
{
    let status = response.status;
    write!(text, "{status}")?;
    push_body_behind(text, response.body.as_str())
}

fn push_made(text: &mut String, made: &Option<Made>) -> Result<(), NoMemory>
    ensures { OnOk result (string_bytes text.new ≡ string_bytes text.old ++ made_text made.now) }
{
    match made {
        None => {
            text.push_str("none")?;
            Ok(())
        }
        Some(made) => push_response(text, &made.trace.response),
    }
}

fn push_outcome(text: &mut String, made: &Option<Made>) -> Result<(), NoMemory>
    ensures { OnOk result (string_bytes text.new ≡ string_bytes text.old ++ (codes " = " ++ (made_text made.now ++ codes "\n"))) }
{
    text.push_str(" = ")?;
    push_made(text, made)?;
    text.push_str("\n")?;
    Ok(())
}

/// Puts what a request asks last: `METHOD PATH`.
pub fn push_asked(text: &mut String, request: &Request) -> Result<(), NoMemory>
    ensures { OnOk result (string_bytes text.new ≡ string_bytes text.old ++ asked_text request.now) }
{
    let method = method_word(request.method);
    let path = request.path.as_str();
    write!(text, "{method} {path}")?;
    Ok(())
}

// Where a request comes from, and what it asks.
fn push_source(text: &mut String, origin: &Origin, request: &Request) -> Result<(), NoMemory>
    ensures { OnOk result (string_bytes text.new ≡ string_bytes text.old
        ++ (origin_text origin.now request.now.who ++ (codes " " ++ asked_text request.now))) }
{
    push_origin(text, origin, &request.who)?;
    text.push_str(" ")?;
    push_asked(text, request)
}

fn push_state(text: &mut String, version: u64, state: &str, runs: u64) -> Result<(), NoMemory>
    ensures { OnOk result (string_bytes text.new ≡ string_bytes text.old ++ state_text version state.now runs) }
{
    write!(text, " v{version} {state} r{runs} ")?;
    Ok(())
}

fn push_entry(text: &mut String, me: &Name, entry: &Entry) -> Result<(), NoMemory>
    ensures { OnOk result (string_bytes text.new ≡ string_bytes text.old ++ entry_line me.now entry.now) }
{
    push_id(text, me, entry.id)?;
    push_state(
        text,
        entry.version,
        alive_text(entry.is_alive()),
        entry.runs,
    )?;
    push_source(text, &entry.origin, entry.request.get())?;
    push_outcome(text, &entry.made)
}

// A folded entry's line: it answered what is kept of it.
fn push_folded(text: &mut String, me: &Name, folded: &Folded) -> Result<(), NoMemory>
    ensures { OnOk result (string_bytes text.new ≡ string_bytes text.old ++ folded_line me.now (as_entry folded.now)) }
{
    push_id(text, me, folded.id)?;
    push_state(text, folded.version, "folded", folded.runs)?;
    push_source(text, &folded.origin, folded.request.get())?;
    text.push_str(" = ")?;
    push_response(text, &folded.response)?;
    text.push_str("\n")?;
    Ok(())
}

fn push_all_folded(text: &mut String, me: &Name, list: &[KeptFolded]) -> Result<(), NoMemory>
    ensures { OnOk result (string_bytes text.new ≡ string_bytes text.old ++ flat_map (folded_line me.now) (map as_entry list.now)) }
{
    for kept in list {
        push_folded(text, me, kept.folded())?;
    }
    Ok(())
}

fn push_entries(text: &mut String, me: &Name, entries: &[KeptEntry]) -> Result<(), NoMemory>
    ensures { OnOk result (string_bytes text.new ≡ string_bytes text.old ++ flat_map (entry_line me.now) entries.now) }
{
    for kept in entries {
        push_entry(text, me, kept.entry())?;
    }
    Ok(())
}

/// The log of a service of this name, a line for each entry: `S/N vV alive rR ORIGIN METHOD PATH = STATUS BODY`, or
/// `none` alone. Folded entries stand first, with `folded` in place of `alive`. `dead` stands where an entry isn't alive, `none`
/// where it has no record, and the origin is `out:WHO` or `call:S/N`. A body is printed as `rows_text` prints a text.
pub fn log_text(alloc: Global, me: &Name, log: &Log) -> Result<Text, NoMemory>
    ensures { IfOk result (λ text. text ≡ log_text me.now (map as_entry log.now.folded) log.now.entries) }
{
    let mut lines = String::new(alloc);
    push_all_folded(&mut lines, me, log.folded().as_slice())?;
    push_entries(&mut lines, me, log.as_slice())?;
    or_none(lines)
}
