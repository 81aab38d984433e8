// What a preview shows, as lines.
ghost use Rattle.std.specs.Prelude.{◌≡◌, ◌++◌, IfOk, OnOk, string_bytes};
ghost use Rattle.std.specs.List.{flat_map};
ghost use Rattle.service_reports.specs.Lines.{call_text, or_line, or_nothing, place_text, post_line, row_line, run_line, shown_text};

use lang_core::{Name, NoMemory, Text, Write};
use preview_core::{PostOne, Preview, RanOne, Service};
use repair_messages::{PostName, kind_word};
use report_text::{push_body_behind, push_key, push_response};
use request_names::push_id;
use std::alloc::Global;

fn push_run(text: &mut String, me: &Name, one: &RanOne) -> Result<(), NoMemory>
    ensures { OnOk result (string_bytes text.new ≡ string_bytes text.old ++ run_line me.now one.now) }
{
    text.push_str("would run ")?;
    push_id(text, me, one.id)?;
    text.push_str(" = ")?;
    push_response(text, &one.response)?;
    text.push_str("\n")?;
    Ok(())
}

fn push_runs(text: &mut String, me: &Name, ran: &[RanOne]) -> Result<(), NoMemory>
    ensures { OnOk result (string_bytes text.new ≡ string_bytes text.old ++ flat_map (run_line me.now) ran.now) }
{
    for one in ran {
        push_run(text, me, one)?;
    }
    Ok(())
}

// Which row, behind what would become of it.
fn push_place(text: &mut String, verb: &str, table: &Text, key: &Text) -> Result<(), NoMemory>
    ensures { OnOk result (string_bytes text.new ≡ string_bytes text.old ++ place_text verb.now table.now key.now) }
{
    let table = table.as_str();
    write!(text, "would {verb} {table} ")?;
    push_key(text, key.as_str())
}

fn push_row(text: &mut String, write: &Write) -> Result<(), NoMemory>
    ensures { OnOk result (string_bytes text.new ≡ string_bytes text.old ++ row_line write.now) }
{
    match &write.text {
        None => push_place(text, "drop", &write.table, &write.key)?,
        Some(body) => {
            push_place(text, "set", &write.table, &write.key)?;
            push_body_behind(text, body.as_str())?;
        }
    }
    text.push_str("\n")?;
    Ok(())
}

fn push_rows(text: &mut String, writes: &[Write]) -> Result<(), NoMemory>
    ensures { OnOk result (string_bytes text.new ≡ string_bytes text.old ++ flat_map row_line writes.now) }
{
    for write in writes {
        push_row(text, write)?;
    }
    Ok(())
}

// CALL of a post: that of the call, or of the one that the reply is to.
fn push_call(text: &mut String, service: &Service, name: PostName) -> Result<(), NoMemory>
    ensures { OnOk result (string_bytes text.new ≡ string_bytes text.old ++ call_text service.now name) }
{
    match name {
        PostName::Call(number) | PostName::Fetch(number) => {
            push_id(text, &service.setting().me, number)
        }
        PostName::Reply(id) => match service.replies().get(id) {
            Some(reply) => push_id(text, &reply.caller, reply.number),
            None => Ok(()),
        },
    }
}

fn push_post(text: &mut String, service: &Service, post: &PostOne) -> Result<(), NoMemory>
    ensures { OnOk result (string_bytes text.new ≡ string_bytes text.old ++ post_line service.now post.now) }
{
    let kind = kind_word(post.kind);
    write!(text, "would post {kind} ")?;
    push_call(text, service, post.name)?;
    text.push_str("\n")?;
    Ok(())
}

fn push_posts(text: &mut String, service: &Service, posts: &[PostOne]) -> Result<(), NoMemory>
    ensures { OnOk result (string_bytes text.new ≡ string_bytes text.old ++ flat_map (post_line service.now) posts.now) }
{
    for post in posts {
        push_post(text, service, post)?;
    }
    Ok(())
}

fn push_shown(text: &mut String, service: &Service, shown: &Preview) -> Result<(), NoMemory>
    ensures { OnOk result (string_bytes text.new ≡ string_bytes text.old ++ shown_text service.now shown.now) }
{
    push_runs(text, &service.setting().me, shown.ran.as_slice())?;
    push_rows(text, shown.rows.as_slice())?;
    push_posts(text, service, shown.posts.as_slice())
}

/// The lines, or this one where there are none.
pub(crate) fn or_line(mut lines: String, line: &str) -> Result<Text, NoMemory>
    ensures { IfOk result (λ text. text ≡ or_line line.now (string_bytes lines)) }
{
    if lines.is_empty() {
        lines.push_str(line)?;
    }
    Text::shared(lines)
}

/// What a preview shows, a line for each request that would run again, each row that would be another and each post that would
/// be outstanding, of the service that it is a preview of; `would nothing` alone where it shows none.
pub(crate) fn shown_lines(
    alloc: Global,
    service: &Service,
    shown: &Preview,
) -> Result<Text, NoMemory>
    ensures { IfOk result (λ text. text ≡ or_nothing (shown_text service.now shown.now)) }
{
    let mut lines = String::new(alloc);
    push_shown(&mut lines, service, shown)?;
    or_line(lines, "would nothing\n")
}
